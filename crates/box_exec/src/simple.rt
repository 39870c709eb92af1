// Expressions of columns, constants and operators, which are evaluated while `value` is.
ghost use Rattle.std.specs.Prelude.{◌≡◌, ℕ, IfOk, IfSome};
ghost use Rattle.box_exec.specs.Bound.{env_of};
ghost use Rattle.box_exec.specs.Equalities.{other_of};
ghost use Rattle.box_exec.specs.Forms.{cell_held};
ghost use Rattle.box_exec.specs.Lists as lists;
ghost use Rattle.qgm_meaning.specs.Values as meaning;
ghost use Rattle.qgm_terms.specs.Shown.{links, term};

use crate::bindings::{Bindings, column};
use crate::evaluation::{operate, text};
use crate::operand::{OperandCell, standing};
use qgm_terms::{Gx, Link};
use shared_types::OutOfMemory;
use sql_value::{Cell, neg};
use std::alloc::Global;

/// The cell of an expression of columns, constants and operators; none of another. It fails only for want of
/// memory.
#[cycle(simple)]
pub(crate) fn simple(alloc: Global, x: &Gx, env: &Bindings) -> Result<Option<Cell>, OutOfMemory>
    ensures { IfOk result (λ o. IfSome o (λ cell. (rows : ℕ → meaning.Bag) → cell ≡ meaning.value rows (term x.now) (env_of env.now))) }
{
    match x {
        Gx::Int(number) => Ok(Some(Cell::Int(*number))),
        Gx::Text(characters) => Ok(Some(text(alloc, characters)?)),
        Gx::Col(q, k) => Ok(Some(column(alloc, env, *q, *k)?)),
        Gx::Chain(a, list) => match simple(alloc, a, env)? {
            Some(first) => simple_chain(alloc, first, list, env),
            None => Ok(None),
        },
        Gx::Neg(a) => match simple(alloc, a, env)? {
            Some(cell) => Ok(Some(neg(&cell))),
            None => Ok(None),
        },
        Gx::NullInt | Gx::NullText => Ok(Some(Cell::Null)),
        Gx::Scalar(_) | Gx::Case(_, _) | Gx::CountAll | Gx::Fold(_, _, _) => Ok(None),
    }
}

// A first operand, and then operators and operands; none where one of these is another expression.
#[cycle(simple)]
fn simple_chain(
    alloc: Global,
    first: Cell,
    list: &[Link],
    env: &Bindings,
) -> Result<Option<Cell>, OutOfMemory>
    ensures { IfOk result (λ o. IfSome o (λ cell. (rows : ℕ → meaning.Bag) → cell ≡ lists.chained rows first (links list.now) (env_of env.now))) }
{
    let mut total = first;
    for link in list {
        let Some(next) = simple(alloc, &link.right, env)? else {
            return Ok(None);
        };
        total = operate(alloc, link.op, &total, &next)?;
    }
    Ok(Some(total))
}

/// Whether an expression is of columns, constants and operators. It fails only for want of memory.
pub(crate) fn is_simple(alloc: Global, x: &Gx) -> Result<bool, OutOfMemory> {
    Ok(simple(alloc, x, &Bindings::Empty)?.is_some())
}

/// The cell of such an expression: where it stands if it is a column's. It fails only for want of memory.
pub(crate) fn simple_operand<'a>(
    alloc: Global,
    x: &Gx,
    env: &Bindings<'a>,
) -> Result<Option<OperandCell<'a>>, OutOfMemory>
    ensures { IfOk result (λ o. IfSome o (λ p. cell_held p ≡ other_of (term x.now) (env_of env.now))) }
{
    if let Some(cell) = standing(x, env) {
        return Ok(Some(OperandCell::Borrowed(cell)));
    }
    match simple(alloc, x, env)? {
        Some(cell) => Ok(Some(OperandCell::Made(cell))),
        None => Ok(None),
    }
}
