// The laws, as theorems.
ghost use Rattle.qgm_edit_laws.specs.Asked.{Shortened};
ghost use Rattle.qgm_edit_laws.specs.ConjunctEdits.{AddConjunctWellFormed, DropConjunctWellFormed, PutConjunctMay};
ghost use Rattle.qgm_edit_laws.specs.DropColumn.{DropColumnBag};
ghost use Rattle.qgm_edit_laws.specs.DropQuants.{QuantsGone, RowlessUnread};
ghost use Rattle.qgm_edit_laws.specs.EditLaws.{EditsPlaced, NewPlaced};
ghost use Rattle.qgm_edit_laws.specs.FormedAdds.{AddWellFormed, InterposedWellFormed};
ghost use Rattle.qgm_edit_laws.specs.FormedBox.{AddBoxWellFormed};
ghost use Rattle.qgm_edit_laws.specs.FormedColumn.{DropColumnTyped, DropColumnWellFormed};
ghost use Rattle.qgm_edit_laws.specs.FormedEdits.{EditsWellFormed};
ghost use Rattle.qgm_edit_laws.specs.ImpliedEquality.{EqualAddedBag, EqualThrough};
ghost use Rattle.qgm_edit_laws.specs.PermitRead.{PermitRead};
ghost use Rattle.qgm_edit_laws.specs.Rebuilds.{RebuiltLooks, RebuiltSound, RebuiltWellFormed};
ghost use Rattle.qgm_edit_laws.specs.Reforms.{BoxesFormed, Reformed};
ghost use Rattle.qgm_edit_laws.specs.Shaped.{CompactShaped, CompactTyped, CompactWellFormed, PlacedIsChecked, SoundIsChecked};
ghost use Rattle.qgm_edit_laws.specs.SiftedBags.{SiftedAgree};
ghost use Rattle.qgm_edit_laws.specs.SoundEdits.{AddSound, EditsAreMaps, KeepBags, KeepSound, NearlyCompact, ScopeLaws};
ghost use Rattle.qgm_edit_laws.specs.Facts.{FactsOfAgreeing, LooksStay};
ghost use Rattle.qgm_edit_laws.specs.PermitToPreserve.{PermitToPreserveLaw};
ghost use Rattle.qgm_edit_laws.specs.PutsBox.{PutAgrees, PutAgreesAsSet, PutFormed, PutSound};
ghost use Rattle.qgm_edit_laws.specs.Laws.{BoundAbove, CheckedFromSound, CompactKeeps, KeepsChained, SettledFromChecked};

/// What a box looks up is bound above it; steps that keep all chain; dropping boxes that aren't reached keeps all; what is tested of columns that are read is what rules take. It does nothing.
pub fn rewriting_laws()
    ensures bound_above { BoundAbove }
    ensures chained { KeepsChained }
    ensures compact { CompactKeeps }
    ensures from_checked { SettledFromChecked }
    ensures to_checked { CheckedFromSound }
{}

/// What each edit keeps: of a graph whose quantifiers have one owner each and range over boxes below it, and whose boxes name none without an owner, it makes such a graph, at its condition. It does nothing.
pub fn edit_laws()
    ensures new { NewPlaced }
    ensures placed { EditsPlaced }
{}

/// What is looked up is bounded box by box; each kind of edit keeps a graph sound at its condition, and bags where the rows of changed boxes stay; facts of rows pass along agreement; what boxes ask for is looked up. It does nothing.
pub fn sound_laws()
    ensures places { EditsAreMaps }
    ensures scope { ScopeLaws }
    ensures edits { KeepSound }
    ensures added { AddSound }
    ensures compact { NearlyCompact }
    ensures bags { KeepBags }
    ensures facts { FactsOfAgreeing }
    ensures looks { LooksStay }
{}

/// What rules need of a graph, with types that agree and shapes, is what the check of a graph finds; so it is for the three clauses that every edit keeps; where boxes that aren't reached go shapes stay, types agree and the check finds nothing more; the rows of PERMIT boxes are read by some and every alone. It does nothing.
pub fn checked_laws()
    ensures placed { PlacedIsChecked }
    ensures sound { SoundIsChecked }
    ensures compact { CompactShaped }
    ensures compact_typed { CompactTyped }
    ensures compact_formed { CompactWellFormed }
    ensures permit_read { PermitRead }
{}

/// What each kind of edit keeps of types and shapes: the check, which finds nothing against a graph, finds nothing after the edit, at its condition; where a column is dropped, types agree in any sound graph; of a small graph a column may go. It does nothing.
pub fn form_laws()
    ensures reformed { Reformed }
    ensures boxes { BoxesFormed }
    ensures edits { EditsWellFormed }
    ensures interposed { InterposedWellFormed }
    ensures add_box { AddBoxWellFormed }
    ensures added { AddWellFormed }
    ensures drop_column_typed { DropColumnTyped }
    ensures drop_column_formed { DropColumnWellFormed }
    ensures shortened { Shortened }
{}

/// A graph of which some boxes stay as they were and others are made or changed: it is sound, what its boxes look up is as told, and where made boxes have types, columns and shapes the check finds nothing that it didn't find before. It does nothing.
pub fn rebuilt_laws()
    ensures sound { RebuiltSound }
    ensures looks { RebuiltLooks }
    ensures formed { RebuiltWellFormed }
{}

/// What a select in the place of a box keeps: the graph stays sound, the check finds nothing in it, and the root's bag agrees where the rows of the select agree with the box's, or agree as sets where some and every alone read them; a PERMIT box may become PRESERVE. It does nothing.
pub fn put_laws()
    ensures sound { PutSound }
    ensures formed { PutFormed }
    ensures agrees { PutAgrees }
    ensures agrees_as_set { PutAgreesAsSet }
    ensures permit_to_preserve { PermitToPreserveLaw }
{}

/// What a graph keeps where parts of its boxes come and go: the check finds nothing more where a conjunct is added, put through a head or dropped; roots agree where boxes give back the rows that pass tests; an equality that follows from two others changes no root; a column that no box names, and quantifiers that none names, go. It does nothing.
pub fn part_laws()
    ensures add_conjunct { AddConjunctWellFormed }
    ensures put_conjunct { PutConjunctMay }
    ensures drop_conjunct { DropConjunctWellFormed }
    ensures sifted { SiftedAgree }
    ensures equal_through { EqualThrough }
    ensures equal { EqualAddedBag }
    ensures drop_column { DropColumnBag }
    ensures drop_quants { QuantsGone }
    ensures rowless { RowlessUnread }
{}
