// What a condition equates: two expressions, two columns.
ghost use Rattle.std.specs.Prelude.{◌≡◌, option_map};
ghost use Rattle.qgm_terms.specs.Shown.{cond, conds, links, term};
ghost use Rattle.qgm_props.specs.Lists.{is_none};
ghost use Rattle.rule_trans.specs.Equalities as spec;

use qgm_core::{Column, Gc, Gx, Link};
use qgm_terms::Sign;

/// Two columns that are equal.
#[derive(Clone, Copy)]
pub struct Equality {
    pub left: Column,
    pub right: Column,
}

/// Whether no operand stands behind the first one.
pub fn is_alone(list: &[Link]) -> bool
    ensures { result ≡ is_none (links list.now) }
{
    match list {
        [] => true,
        [_, ..] => false,
    }
}

/// The column that an expression is.
pub fn column_of(x: &Gx) -> Option<Column>
    ensures { result ≡ spec.column_of (term x.now) }
{
    match x {
        Gx::Col(q, k) => Some(Column {
            quant: *q,
            place: *k,
        }),
        Gx::Chain(a, list) => { if is_alone(list) { column_of(a) } else { None } }
        Gx::Int(_)
        | Gx::Text(_)
        | Gx::NullInt
        | Gx::NullText
        | Gx::CountAll
        | Gx::Scalar(_)
        | Gx::Case(_, _)
        | Gx::Neg(_)
        | Gx::Fold(_, _, _) => None,
    }
}

// Both columns, where both expressions are columns.
fn both_of(x: &Gx, y: &Gx) -> Option<Equality>
    ensures { result ≡ spec.both_of (spec.column_of (term x.now)) (spec.column_of (term y.now)) }
{
    let left = column_of(x)?;
    let right = column_of(y)?;
    Some(Equality { left, right })
}

/// The two expressions that a condition equates.
pub fn sides(c: &Gc) -> Option<(&Gx, &Gx)>
    ensures { option_map (λ p. (term p.0.now, term p.1.now)) result ≡ spec.sides (cond c.now) }
{
    match c {
        Gc::Compare(Sign::Eq, x, y) => Some((&**x, &**y)),
        Gc::Compare(
            Sign::Ne | Sign::Lt | Sign::Le | Sign::Gt | Sign::Ge | Sign::Same | Sign::Like,
            _,
            _,
        ) => None,
        Gc::All(a, list) => { if is_single(list) { sides(a) } else { None } }
        Gc::Any(a, list) => { if is_single(list) { sides(a) } else { None } }
        Gc::True | Gc::IsNull(_) | Gc::Not(_) | Gc::Some(_, _) | Gc::Every(_, _) => None,
    }
}

/// The columns of an equality of two.
pub fn equated(c: &Gc) -> Option<Equality>
    ensures { result ≡ spec.equated (cond c.now) }
{
    let (x, y) = sides(c)?;
    both_of(x, y)
}

// Whether no condition stands behind the first one.
fn is_single(list: &[Gc]) -> bool
    ensures { result ≡ spec.no_more (conds list.now) }
{
    match list {
        [] => true,
        [_, ..] => false,
    }
}

/// Whether a condition is an equality of two columns.
pub fn is_equality(c: &Gc) -> bool
    ensures { result ≡ spec.is_equality (cond c.now) }
{
    equated(c).is_some()
}

/// Whether two of these conditions are equalities of two columns.
pub fn has_two(list: &[Gc]) -> bool
    ensures { result ≡ spec.has_two (conds list.now) }
{
    let mut has_one = false;
    for c in list {
        if is_equality(c) {
            if has_one {
                return true;
            }
            has_one = true;
        }
    }
    false
}

/// Whether two columns are one.
pub fn is_same(a: Column, b: Column) -> bool
    ensures { result ≡ spec.is_same a b }
{
    a.quant == b.quant && a.place == b.place
}
