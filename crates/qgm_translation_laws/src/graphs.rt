// The laws of what is built of a valid query, as a theorem.
ghost use Rattle.qgm_translation_laws.specs.Alike.{BuiltAlike, ToldAlike};
ghost use Rattle.qgm_translation_laws.specs.Formed.{RootReaches, TypesAgree, WellFormed};
ghost use Rattle.qgm_translation_laws.specs.OneToOne.{BuiltOneToOne};
ghost use Rattle.qgm_translation_laws.specs.Reused.{Reused};
ghost use Rattle.qgm_translation_laws.specs.FormedSample.{Sampled};
ghost use Rattle.qgm_translation_laws.specs.Told.{ToldByColumns};

/// Of a graph that is built of a query whose expressions have types, the types agree (I5), and the
/// root's columns have the types of the query's; it is well-formed, and the root reaches every box.
/// Sources that tell types by those of the columns of quantifiers tell what is found in the boxes.
/// Boxes at one place of two graphs of one query differ in numbers alone. Where each box is there
/// for one thing of the query, the numbers stand for one another one to one; a graph whose boxes
/// aren't is shown. It does nothing.
pub fn formed_laws()
    ensures types { TypesAgree }
    ensures formed { WellFormed }
    ensures reaches { RootReaches }
    ensures alike { BuiltAlike }
    ensures told_alike { ToldAlike }
    ensures one_to_one { BuiltOneToOne }
    ensures told { ToldByColumns }
    ensures sampled { Sampled }
    ensures reused { Reused }
{}
