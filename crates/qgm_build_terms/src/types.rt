// The types of expressions.
ghost use Rattle.std.specs.Prelude.{◌≡◌, slice_get, get_or, []};
ghost use Rattle.sql_value.specs.declared.order_key.SqlType.TheVariants.{Integer};
ghost use Rattle.qgm_terms.specs.Shown.{aggregate, links, term};
ghost use Rattle.qgm_translation.specs.Typing as spec;

use qgm_terms::{Aggregate, Gx, Link, Op, QuantId};
use sql_value::SqlType;
use sqlite_items::Items;

// The type of what an operator gives.
fn op_type(op: Op) -> SqlType
    ensures { result ≡ spec.op_type op }
{
    match op {
        Op::Add | Op::Sub | Op::Mul | Op::Div => SqlType::Integer,
        Op::Cat => SqlType::Varchar,
    }
}

fn place_type(types: &[SqlType], k: usize) -> SqlType
    ensures { result ≡ spec.type_or (slice_get types.now k) }
{
    match types.get(k) {
        Some(x) => *x,
        None => SqlType::Integer,
    }
}

// The type of a column, by its place from 1.
#[tactic(auto, using(crate::proofs::Lists::type_get))]
fn type_at(types: &[SqlType], k: usize) -> SqlType
    ensures { result ≡ spec.type_at types.now k }
{
    if k == 0 {
        return SqlType::Integer;
    }
    place_type(types, k - 1)
}

// The type of a column of a quantifier.
#[tactic(auto, using(crate::proofs::Lists::row_get))]
fn column_type(rows: &[Items<SqlType>], q: QuantId, k: usize) -> SqlType
    ensures { result ≡ spec.column_type rows.now q k }
{
    match rows.get(q) {
        Some(types) => type_at(types.as_slice(), k),
        None => type_at(&[], k),
    }
}

// The type of a chain, whose first operand has this type.
fn chain_type(first: SqlType, list: &[Link]) -> SqlType
    ensures { result ≡ spec.chain_type first (links list.now) }
{
    let mut last = first;
    for link in list {
        last = op_type(link.op);
    }
    last
}

// The type of an aggregate of values of this type.
fn aggregate_type(f: Aggregate, of: SqlType) -> SqlType
    ensures { result ≡ spec.aggregate_type (aggregate f) of }
{
    match f {
        Aggregate::Count | Aggregate::Sum | Aggregate::Avg => SqlType::Integer,
        Aggregate::Single | Aggregate::Min | Aggregate::Max => of,
    }
}

/// The type of an expression, by the types of the columns of quantifiers.
#[tactic(auto, using(crate::proofs::Lists::chain_typed))]
pub(crate) fn type_of(rows: &[Items<SqlType>], x: &Gx) -> SqlType
    ensures { result ≡ spec.typed_by rows.now (term x.now) }
{
    match x {
        Gx::Int(_) | Gx::NullInt | Gx::Neg(_) | Gx::CountAll => SqlType::Integer,
        Gx::Text(_) | Gx::NullText => SqlType::Varchar,
        Gx::Col(q, k) => column_type(rows, *q, *k),
        Gx::Scalar(q) => column_type(rows, *q, 1),
        Gx::Chain(a, list) => chain_type(type_of(rows, a), list),
        Gx::Case(_, a) => type_of(rows, a),
        Gx::Fold(f, _, a) => aggregate_type(*f, type_of(rows, a)),
    }
}
