// What stands for the subqueries and the aggregates of a block, as they come in its text.
ghost use Rattle.std.specs.Prelude.{◌≡◌};
ghost use Rattle.qgm_translation.specs.Leaves.{first_cell, first_quant};
ghost use Rattle.qgm_build_terms.specs.Written.{ref_of, slots_of, without_cell, without_quant};

use crate::seen::Seen;
use qgm_core::OwnedQuant;
use qgm_terms::QuantId;

/// The quantifiers of the subqueries and the columns of the aggregates that are still to come, in
/// the order of the text. Contracts see it as the `Slots` that it is.
#[derive(Clone, Copy)]
pub struct Slots<'a> {
    pub quants: &'a [OwnedQuant],
    pub cells: &'a [Seen],
}

/// The quantifier of the next subquery; 0 where there is none.
pub(crate) fn take_quant(slots: &mut Slots<'_>) -> QuantId
    ensures quant { result ≡ first_quant (slots_of slots.old).quants }
    ensures rest { slots_of slots.new ≡ without_quant (slots_of slots.old) }
{
    match slots.quants.split_first() {
        Some((quant, rest)) => {
            slots.quants = rest;
            quant.id
        }
        None => 0,
    }
}

/// Where the next aggregate is seen.
pub(crate) fn take_cell(slots: &mut Slots<'_>) -> Seen
    ensures cell { ref_of result ≡ first_cell (slots_of slots.old).cells }
    ensures rest { slots_of slots.new ≡ without_cell (slots_of slots.old) }
{
    match slots.cells.split_first() {
        Some((cell, rest)) => {
            slots.cells = rest;
            *cell
        }
        None => Seen::Nothing,
    }
}
