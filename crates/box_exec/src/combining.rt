// The rows of two boxes put together (SQL-92, 7.10).
ghost use Rattle.std.specs.Prelude.{IfOk, IsOkAnd};
ghost use Rattle.qgm_meaning.specs.Meaning as m;
ghost use Rattle.row_bag.specs.Operands.{held};
ghost use Rattle.row_bag.specs.Bags.{Alike};

use qgm_core::SetOperator;
use row_bag::{Bag, Operand, except, intersect, union};
use shared_types::OutOfMemory;
use std::alloc::Global;

// The rows of both, as the operator puts them together, of so many columns.
fn of_operands(
    alloc: Global,
    operator: SetOperator,
    width: usize,
    xs: Operand<'_>,
    ys: Operand<'_>,
) -> Result<Bag, OutOfMemory>
    ensures { IfOk result (λ bag. Alike bag (m.combined operator width (held xs.entry) (held ys.entry))) }
{
    match operator {
        SetOperator::UnionAll => union(alloc, xs, ys, true),
        SetOperator::Union => union(alloc, xs, ys, false),
        SetOperator::IntersectAll => intersect(alloc, xs.rows(), ys.rows(), true, width),
        SetOperator::Intersect => intersect(alloc, xs.rows(), ys.rows(), false, width),
        SetOperator::ExceptAll => except(alloc, xs.rows(), ys.rows(), true, width),
        SetOperator::Except => except(alloc, xs.rows(), ys.rows(), false, width),
    }
}

/// The rows of both, as the operator puts them together, of so many columns. It fails where one of
/// these does, or for want of memory.
pub(crate) fn combined(
    alloc: Global,
    operator: SetOperator,
    width: usize,
    xs: Result<Operand<'_>, OutOfMemory>,
    ys: Result<Operand<'_>, OutOfMemory>,
) -> Result<Bag, OutOfMemory>
    ensures { IfOk result (λ bag. IsOkAnd xs.entry (λ s. IsOkAnd ys.entry (λ t. Alike bag (m.combined operator width (held s) (held t))))) }
{
    of_operands(alloc, operator, width, xs?, ys?)
}
