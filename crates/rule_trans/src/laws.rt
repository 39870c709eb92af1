// The laws, as theorems.
ghost use Rattle.rule_trans.specs.Follows.{FollowsPreserves};
ghost use Rattle.rule_trans.specs.Laws.{EqualColumnsPreserves, EqualLiteralPreserves};

/// Adding an equality that follows from two others, one of a column and one of an error-free column
/// between, keeps a graph well-formed and what it means; so do the actions of J1 and J2 where they may
/// fire. It does nothing.
pub fn trans_laws()
    ensures follows { FollowsPreserves }
    ensures equal_columns { EqualColumnsPreserves }
    ensures equal_literal { EqualLiteralPreserves }
{}
