// The cells and conditions of an outer join over operands that begin with the columns of the magic box.
ghost use Rattle.std.specs.Prelude.{◌≡◌, IfOk};
ghost use Rattle.rule_magic.specs.AbsorbOuterSteps as spec;
ghost use Rattle.rule_magic.specs.Feeding.{as_feeding};
ghost use Rattle.rule_magic.specs.Operands.{as_pair};

use crate::fed::{Fed, width};
use crate::heads::{columns, later, led};
use crate::operands::Operands;
use crate::tags::add_same;
use qgm_core::{Conds, Head};
use qgm_terms::{ROOM, substitute_conds, substitute_head};
use shared_types::OutOfMemory;
use std::alloc::Global;

// Its cells, where the left operand begins with them.
fn left_cells(alloc: Global, fed: &Fed<'_>, operands: &Operands<'_>) -> Result<Head, OutOfMemory>
    ensures { IfOk result (λ h. h ≡ spec.left_cells (as_feeding fed.now) (as_pair operands.now)) }
{
    let w = width(fed.m);
    let l = operands.l.id;
    let behind = later(alloc, l, w, width(operands.x))?;
    let first = columns(alloc, l, w)?;
    let head = substitute_head(alloc, &fed.c.parts.head, l, &behind, ROOM)?;
    substitute_head(alloc, &head, fed.a.id, &first, ROOM)
}

// Its cells, where both operands do.
fn both_cells(alloc: Global, fed: &Fed<'_>, operands: &Operands<'_>) -> Result<Head, OutOfMemory>
    ensures { IfOk result (λ h. h ≡ spec.both_cells (as_feeding fed.now) (as_pair operands.now)) }
{
    let r = operands.r.id;
    let behind = later(alloc, r, width(fed.m), width(operands.y))?;
    let head = left_cells(alloc, fed, operands)?;
    substitute_head(alloc, &head, r, &behind, ROOM)
}

/// The head of the outer join over a tagged left operand. It fails, too, where there are too many columns
/// to count.
pub fn left_head(alloc: Global, fed: &Fed<'_>, operands: &Operands<'_>) -> Result<Head, OutOfMemory>
    ensures { IfOk result (λ h. h ≡ spec.left_head (as_feeding fed.now) (as_pair operands.now)) }
{
    let cells = left_cells(alloc, fed, operands)?;
    led(alloc, operands.l.id, width(fed.m), &cells)
}

/// The same over two tagged operands.
pub fn both_head(alloc: Global, fed: &Fed<'_>, operands: &Operands<'_>) -> Result<Head, OutOfMemory>
    ensures { IfOk result (λ h. h ≡ spec.both_head (as_feeding fed.now) (as_pair operands.now)) }
{
    let cells = both_cells(alloc, fed, operands)?;
    led(alloc, operands.l.id, width(fed.m), &cells)
}

/// The conditions of the outer join over a tagged left operand. It fails, too, where there are too many
/// columns to count.
pub fn left_on(alloc: Global, fed: &Fed<'_>, operands: &Operands<'_>) -> Result<Conds, OutOfMemory>
    ensures { IfOk result (λ h. h ≡ spec.left_on (as_feeding fed.now) (as_pair operands.now)) }
{
    let w = width(fed.m);
    let l = operands.l.id;
    let behind = later(alloc, l, w, width(operands.x))?;
    let first = columns(alloc, l, w)?;
    let conds = substitute_conds(alloc, &fed.c.parts.conds, l, &behind, ROOM)?;
    substitute_conds(alloc, &conds, fed.a.id, &first, ROOM)
}

/// The same over two tagged operands, with the tags of both the same.
pub fn both_on(alloc: Global, fed: &Fed<'_>, operands: &Operands<'_>) -> Result<Conds, OutOfMemory>
    ensures { IfOk result (λ h. h ≡ spec.both_on (as_feeding fed.now) (as_pair operands.now)) }
{
    let w = width(fed.m);
    let r = operands.r.id;
    let behind = later(alloc, r, w, width(operands.y))?;
    let conds = left_on(alloc, fed, operands)?;
    let mut all = substitute_conds(alloc, &conds, r, &behind, ROOM)?;
    add_same(alloc, &mut all, operands.l.id, r, w)?;
    Ok(all)
}
