// The cells of the operands of comparisons.
ghost use Rattle.std.specs.Prelude.{◌≡◌, ℕ, IfSome};
ghost use Rattle.box_exec.specs.Bound.{env_of};
ghost use Rattle.box_exec.specs.Forms.{cell_held};
ghost use Rattle.qgm_meaning.specs.Values as meaning;
ghost use Rattle.qgm_terms.specs.Shown.{term};

use crate::bindings::{Bindings, placed};
use qgm_terms::Gx;
use sql_value::Cell;

/// A cell that stands elsewhere, or one that is made.
#[derive(Drop)]
pub(crate) enum OperandCell<'a> {
    Borrowed(&'a Cell),
    Made(Cell),
}

impl<'a> OperandCell<'a> {
    /// The cell.
    pub(crate) fn cell(&self) -> &Cell
        ensures { result.now ≡ cell_held self.now }
    {
        match self {
            OperandCell::Borrowed(cell) => cell,
            OperandCell::Made(cell) => cell,
        }
    }
}

/// The cell of an expression that is a column, where it stands.
pub(crate) fn standing<'a>(x: &Gx, env: &Bindings<'a>) -> Option<&'a Cell>
    ensures { IfSome result (λ cell. (rows : ℕ → meaning.Bag) → cell.now ≡ meaning.value rows (term x.now) (env_of env.now)) }
{
    let Gx::Col(q, column) = x else {
        return None;
    };
    placed(env, *q, *column)
}
