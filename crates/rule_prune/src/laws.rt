// The laws, as theorems.
ghost use Rattle.rule_prune.specs.Laws.{DropColumnPreserves, DropQuantifierPreserves, StepsDropColumn, StepsDropQuantifier, UnreadRowPreserves};

/// Where N1 and N2 may fire, their actions keep a graph well-formed and what it means; N2 also where no
/// other F quantifier is left. What the code does is these actions. It does nothing.
pub fn prune_laws()
    ensures drop_column { DropColumnPreserves }
    ensures drop_quantifier { DropQuantifierPreserves }
    ensures unread_row { UnreadRowPreserves }
    ensures column_steps { StepsDropColumn }
    ensures quantifier_steps { StepsDropQuantifier }
{}
