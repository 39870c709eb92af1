// Whether something stands in expressions and conditions.
ghost use Rattle.std.specs.Prelude.{◌≡◌};
ghost use Rattle.std.specs.List.{list_any};
ghost use Rattle.qgm_terms.specs.Shown.{choices, cond, conds, links, term, terms};
ghost use Rattle.qgm_terms.specs.Wanted.{any_in, any_in_choices, any_in_cond, any_in_links, has_aggregate, has_aggregate_cond, node_free, node_free_cond, wanted};

use qgm_terms::{Arm, Gc, Gx, Link, Sought, both, either};

/// Whether it stands in an expression.
#[cycle(stands_in)]
pub fn stands_in(x: &Gx, sought: Sought) -> bool
    ensures { result ≡ any_in (wanted sought) (term x.now) }
{
    match x {
        Gx::Int(_) | Gx::Text(_) | Gx::NullInt | Gx::NullText => false,
        Gx::Col(r, j) => sought.is_column(*r, *j),
        Gx::Scalar(r) => sought.is_node(*r),
        Gx::CountAll => either(sought.is_aggregate(), false),
        Gx::Chain(a, list) => either(stands_in(a, sought), stands_in_links(list, sought)),
        Gx::Case(list, a) => either(stands_in_arms(list, sought), stands_in(a, sought)),
        Gx::Neg(a) => stands_in(a, sought),
        Gx::Fold(_, _, a) => either(sought.is_aggregate(), stands_in(a, sought)),
    }
}

// Whether it stands in an operand behind a first one.
#[cycle(stands_in)]
fn stands_in_links(list: &[Link], sought: Sought) -> bool
    ensures { result ≡ any_in_links (wanted sought) (links list.now) }
{
    for link in list {
        if stands_in(&link.right, sought) {
            return true;
        }
    }
    false
}

// Whether it stands in an arm of a CASE.
#[cycle(stands_in)]
fn stands_in_arms(list: &[Arm], sought: Sought) -> bool
    ensures { result ≡ any_in_choices (wanted sought) (choices list.now) }
{
    for arm in list {
        if stands_in_cond(&arm.when, sought) || stands_in(&arm.then, sought) {
            return true;
        }
    }
    false
}

/// Whether it stands in a condition.
#[cycle(stands_in)]
pub fn stands_in_cond(c: &Gc, sought: Sought) -> bool
    ensures { result ≡ any_in_cond (wanted sought) (cond c.now) }
{
    match c {
        Gc::True => false,
        Gc::Compare(_, a, b) => either(stands_in(a, sought), stands_in(b, sought)),
        Gc::IsNull(a) => stands_in(a, sought),
        Gc::All(a, list) => either(stands_in_cond(a, sought), stands_in_conds(list, sought)),
        Gc::Any(a, list) => either(stands_in_cond(a, sought), stands_in_conds(list, sought)),
        Gc::Not(a) => stands_in_cond(a, sought),
        Gc::Some(r, a) | Gc::Every(r, a) => either(
            sought.is_node(*r),
            both(sought.enters(*r), stands_in_cond(a, sought)),
        ),
    }
}

/// Whether it stands in one of these conditions.
#[cycle(stands_in)]
pub fn stands_in_conds(list: &[Gc], sought: Sought) -> bool
    ensures { result ≡ list_any (any_in_cond (wanted sought)) (conds list.now) }
{
    for c in list {
        if stands_in_cond(c, sought) {
            return true;
        }
    }
    false
}

/// Whether it stands in one of the cells of a head.
pub fn stands_in_cells(list: &[Gx], sought: Sought) -> bool
    ensures { result ≡ list_any (any_in (wanted sought)) (terms list.now) }
{
    for x in list {
        if stands_in(x, sought) {
            return true;
        }
    }
    false
}

/// Whether no scalar, some or every stands in an expression.
pub fn is_node_free(x: &Gx) -> bool
    ensures { result ≡ node_free (term x.now) }
{
    !stands_in(x, Sought::Node)
}

/// Whether no scalar, some or every stands in a condition.
pub fn is_node_free_cond(c: &Gc) -> bool
    ensures { result ≡ node_free_cond (cond c.now) }
{
    !stands_in_cond(c, Sought::Node)
}

/// Whether an aggregate stands in an expression.
pub fn has_aggregate(x: &Gx) -> bool
    ensures { result ≡ has_aggregate (term x.now) }
{
    stands_in(x, Sought::Aggregate)
}

/// Whether an aggregate stands in a condition.
pub fn has_aggregate_cond(c: &Gc) -> bool
    ensures { result ≡ has_aggregate_cond (cond c.now) }
{
    stands_in_cond(c, Sought::Aggregate)
}
