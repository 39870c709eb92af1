// The laws of bags, and of what rows come to, as theorems.
ghost use Rattle.std.specs.Prelude.{List};
ghost use Rattle.std.specs.Prelude.{◌≡◌, List};
ghost use Rattle.row_bag.specs.AsSets.{GreatestLevels, QuantifiedSets, SetAgreement};
ghost use Rattle.row_bag.specs.Bags.{Agree};
ghost use Rattle.row_bag.specs.Errors.{error_among, error_in};
ghost use Rattle.row_bag.specs.ExistsJoins.{ExistsLaws};
ghost use Rattle.row_bag.specs.Filters.{FilterLaws};
ghost use Rattle.row_bag.specs.FoldLaws.{AggregatesAgree, RowsAgree, SubqueriesAgree};
ghost use Rattle.row_bag.specs.Keys.{KeyLaws};
ghost use Rattle.row_bag.specs.Laws.{Agreeing, AgreementLaws, BindLaws, KeptAgreement};
ghost use Rattle.row_bag.specs.Sets.{same_cells};
ghost use Rattle.row_bag.specs.Sorted.{sorted_rows};
ghost use Rattle.row_bag.specs.Tags.{LedBack, LedGroups, LedWhole, TagLaws};
ghost use Rattle.row_bag.specs.Verdict.{those_there};
ghost use Rattle.row_bag.specs.declared.row.Row.{Row};
ghost use Rattle.sql_value.specs.declared.cell.Cell.{Cell};
ghost use Rattle.sql_value.specs.declared.order_key.OrderKey.{OrderKey};

/// The laws that rewriting a query stands on: what `bind` and `keep` put together, that agreement
/// is an equivalence which every operation keeps, and that bags which agree have one greatest
/// error and, sorted, one list of rows. It does nothing.
pub fn bag_laws()
    ensures bind { BindLaws (List Cell) }
    ensures agreement { AgreementLaws (List Cell) same_cells }
    ensures kept { KeptAgreement (List Cell) same_cells }
    ensures agreeing { Agreeing (List Cell) same_cells }
    ensures error { (xs : List (Row (List Cell))) → (ys : List (Row (List Cell))) → Agree same_cells xs ys → error_among error_in xs ≡ error_among error_in ys }
    ensures sorted { (keys : List OrderKey) → (xs : List (Row (List Cell))) → (ys : List (Row (List Cell))) → Agree same_cells xs ys → sorted_rows keys (those_there xs) ≡ sorted_rows keys (those_there ys) }
{}

/// Bags that agree come to the same: the value and the presence of a subquery's rows, a condition of
/// some or of every row, an aggregate, the number of rows, and rows or others where there are none. It
/// does nothing.
pub fn fold_laws()
    ensures subqueries { SubqueriesAgree }
    ensures aggregates { AggregatesAgree }
    ensures rows { RowsAgree (List Cell) }
{}

/// Bags that agree as sets, what goes by the greatest levels of tuples alone, and conditions of some
/// row or of every one. It does nothing.
pub fn set_laws()
    ensures agreement { SetAgreement (List Cell) same_cells }
    ensures levels { GreatestLevels (List Cell) same_cells }
    ensures quantified { QuantifiedSets }
{}

/// Keys of a bag, over which DISTINCT is nothing. It does nothing.
pub fn key_laws()
    ensures keys { KeyLaws }
{}

/// A test of tuples before a set operation and after it. It does nothing.
pub fn filter_laws()
    ensures filters { FilterLaws (List Cell) same_cells }
{}

/// Rows under tags: their groups, tag by tag, and the join back. It does nothing.
pub fn tag_laws()
    ensures tags { TagLaws (List Cell) (List Cell) (List Cell) (List Cell) same_cells same_cells }
    ensures led_back { LedBack }
    ensures led { LedGroups }
    ensures led_whole { LedWhole }
{}

/// EXISTS as a join: of greatest levels always, and of bags over at most one row. It does nothing.
pub fn join_laws()
    ensures exists { ExistsLaws (List Cell) (List Cell) same_cells }
{}
