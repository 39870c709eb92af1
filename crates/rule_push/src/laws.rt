// The laws, as theorems.
ghost use Rattle.rule_push.specs.Laws.{PushIntoArmsPreserves, PushIntoLeftPreserves, PushIntoSelectPreserves, PushThroughGroupPreserves};

/// Where P1 to P4 may fire, their actions keep a graph well-formed and what it means. It does nothing.
pub fn push_laws()
    ensures into_select { PushIntoSelectPreserves }
    ensures through_group { PushThroughGroupPreserves }
    ensures into_arms { PushIntoArmsPreserves }
    ensures into_left { PushIntoLeftPreserves }
{}
