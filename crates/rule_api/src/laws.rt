// Lists of places, as theorems.
ghost use Rattle.rule_api.specs.PickLaws.{CrossIsExact, GridIsExact, OnceIsExact, PicksAreExact};

/// The lists that are made of tests hold exactly the places that pass, in order. It does nothing.
pub fn place_laws()
    ensures once { OnceIsExact }
    ensures picks { PicksAreExact }
    ensures grid { GridIsExact }
    ensures cross { CrossIsExact }
{}
