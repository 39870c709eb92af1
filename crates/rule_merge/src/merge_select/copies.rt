// Whether M1 copies little: its bounds on nodes and on levels.
ghost use Rattle.std.specs.Prelude.{◌≡◌, ◌≤◌, ◌<◌, ◌+◌, ◌-◌, ◌*◌, ◌↔◌, ℕ, IfSome, IfNone, IsTrue};
ghost use Rattle.qgm_term_size.specs.Levels as levels;
ghost use Rattle.qgm_term_size.specs.Size.{cell_size};
ghost use Rattle.qgm_terms.specs.Depth.{room};
ghost use Rattle.qgm_terms.specs.Shown.{term};
ghost use Rattle.rule_merge.specs.MergeSelectCopies as spec;

use crate::merge_select::names::Names;
use qgm_core::{Gx, Head, QuantId};
use qgm_term_size::{cell_size, deepest};
use qgm_terms::ROOM;

/// So many nodes may be copied.
const MOST_COPIED: usize = 1_024;

// What is left of so many nodes after so many copies of a cell, if they are enough.
fn left_after(x: &Gx, copies: usize, left: usize) -> Option<usize>
    requires { left ≤ spec.most_copied }
    ensures some { IfSome result (λ rest. cell_size (term x.now) * copies + rest ≡ left) }
    ensures none { IfNone result (left < cell_size (term x.now) * copies) }
{
    if copies == 0 {
        return Some(left);
    }
    if left < copies {
        return None;
    }
    let size = cell_size(x, left + 1);
    let taken = size * copies;
    if left < taken {
        return None;
    }
    Some(left - taken)
}

/// Whether the nodes that are copied are few, where these cells stand for the columns of q.
pub fn few_copied(names: &Names, q: QuantId, cells: &Head) -> bool
    ensures { IsTrue result ↔ (spec.copied (spec.places_of q names.now) 1 cells.now ≤ spec.most_copied) }
{
    let mut left = MOST_COPIED;
    for k in 0..cells.len() {
        let copies = names.times(q, k + 1).saturating_sub(1);
        match left_after(cells.at(k + 1), copies, left) {
            Some(rest) => left = rest,
            None => return false,
        }
    }
    true
}

/// Whether no level is too deep where these cells stand for the columns of q.
pub fn levels_fit(names: &Names, q: QuantId, cells: &Head) -> bool
    ensures { IsTrue result ↔ (spec.levels_of q names.now + levels.deepest cells.now ≤ room) }
{
    let levels = names.levels(q);
    levels <= ROOM && deepest(cells.as_slice(), ROOM + 1) <= ROOM - levels
}
