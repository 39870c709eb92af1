// The laws, as theorems.
ghost use Rattle.rule_facts.specs.Places.{ActionPreserves, ArePlaces};
ghost use Rattle.rule_distinct.specs.DropKeyDistinct.{MayDropKeyDistinct, drop_key_distinct_pairs};
ghost use Rattle.rule_distinct.specs.DropUnionDistinct.{MayDropUnionDistinct, drop_union_distinct_pairs};
ghost use Rattle.rule_distinct.specs.PermitDistinct.{MayPermitDistinct, PermitsDistinct, permit_distinct_pairs};
ghost use Rattle.rule_distinct.specs.PlainAt.{DropsDistinct};

/// L1 to L3: where a rule may fire, its action preserves; its places are exactly those where it may
/// fire, in order. It does nothing.
pub fn distinct_laws()
    ensures drop_key_distinct { ActionPreserves MayDropKeyDistinct DropsDistinct }
    ensures drop_key_distinct_places { ArePlaces drop_key_distinct_pairs MayDropKeyDistinct }
    ensures permit_distinct { ActionPreserves MayPermitDistinct PermitsDistinct }
    ensures permit_distinct_places { ArePlaces permit_distinct_pairs MayPermitDistinct }
    ensures drop_union_distinct { ActionPreserves MayDropUnionDistinct DropsDistinct }
    ensures drop_union_distinct_places { ArePlaces drop_union_distinct_pairs MayDropUnionDistinct }
{}
