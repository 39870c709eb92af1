// The laws, as theorems.
ghost use Rattle.rule_subquery.specs.ScalarToGroupLaws.{SingleKeeps, SingleWellFormed, SingleDiffers};
ghost use Rattle.rule_subquery.specs.ScalarToGroupExample.{Singled};
ghost use Rattle.rule_facts.specs.Places.{ActionPreserves, ArePlaces};
ghost use Rattle.rule_subquery.specs.ExistsToJoin.{JoinsExists, MayExistsToJoin, exists_to_join_pairs};
ghost use Rattle.rule_subquery.specs.ScalarToGroup.{GroupsScalar, MayScalarToGroup, scalar_to_group_pairs};
ghost use Rattle.rule_subquery.specs.ScalarToJoin.{JoinsScalar, MayScalarToJoin, scalar_to_join_pairs};
ghost use Rattle.rule_subquery.specs.SetToExists.{MaySetToExists, SelectsSet, set_to_exists_pairs};

/// U1 to U4: where a rule may fire, its action preserves; its places are exactly those where it may
/// fire, in order. It does nothing.
pub fn subquery_laws()
    ensures exists_to_join { ActionPreserves MayExistsToJoin JoinsExists }
    ensures exists_to_join_places { ArePlaces exists_to_join_pairs MayExistsToJoin }
    ensures scalar_to_group { ActionPreserves MayScalarToGroup GroupsScalar }
    ensures scalar_to_group_places { ArePlaces scalar_to_group_pairs MayScalarToGroup }
    ensures scalar_to_join { ActionPreserves MayScalarToJoin JoinsScalar }
    ensures scalar_to_join_places { ArePlaces scalar_to_join_pairs MayScalarToJoin }
    ensures set_to_exists { ActionPreserves MaySetToExists SelectsSet }
    ensures set_to_exists_places { ArePlaces set_to_exists_pairs MaySetToExists }
{}

/// What U2 stands on: a group over a box gives its scalar, or the error of more than one row, where column 1 is no error or there is one row at most, over tables that satisfy the bases; the check finds nothing after it; its premises hold on a small graph, and it differs from the scalar where both conditions fail. It does nothing.
pub fn group_laws()
    ensures keeps { SingleKeeps }
    ensures formed { SingleWellFormed }
    ensures differs { SingleDiffers }
    ensures singled { Singled }
{}
