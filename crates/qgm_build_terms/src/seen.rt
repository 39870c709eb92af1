// Where the columns of the blocks round a place are seen.
ghost use Rattle.std.specs.Prelude.{◌≡◌, ◌∷◌, ◌++◌, [], OnOk, get_or, slice_get};
ghost use Rattle.qgm_translation.specs.Maps.{nothing};
ghost use Rattle.qgm_build_terms.specs.Written.{frame_of, map_of, ref_of, ref_or};

use crate::boxes::push;
use qgm_terms::QuantId;
use shared_types::OutOfMemory;

/// Where a cell of a scope is seen. Contracts see it as the `Ref` that it is.
#[derive(Clone, Copy)]
pub enum Seen {
    /// Nowhere: null, which no valid query names.
    Nothing,
    /// Nowhere: the count of no row, which no valid query names.
    NoneCounted,
    /// In a column, by its place from 1, of a quantifier.
    At(QuantId, usize),
}

/// The frames of the blocks that enclose a place, the innermost first.
#[derive(Clone, Copy)]
pub enum Scopes<'a> {
    Outermost,
    Inside(&'a [Seen], &'a Scopes<'a>),
}

fn cell_at(frame: &[Seen], k: usize) -> Seen
    ensures { ref_of result ≡ ref_or (slice_get frame.now k) }
{
    match frame.get(k) {
        Some(x) => *x,
        None => Seen::Nothing,
    }
}

/// Where a column of a FROM is seen, by its place.
#[tactic(auto, using(crate::proofs::Lists::frame_get))]
pub fn in_frame(frame: &[Seen], k: usize) -> Seen
    ensures { ref_of result ≡ get_or (frame_of frame.now) k nothing }
{
    cell_at(frame, k)
}

/// Where a column is seen, by the number of scopes between and its place.
pub(crate) fn seen_at(m: &Scopes<'_>, scope: usize, place: usize) -> Seen
    ensures { ref_of result ≡ get_or (get_or (map_of m.now) scope []) place nothing }
{
    match m {
        Scopes::Outermost => Seen::Nothing,
        Scopes::Inside(frame, outer) => {
            if scope == 0 {
                in_frame(frame, place)
            } else {
                seen_at(outer, scope - 1, place)
            }
        }
    }
}

/// Adds where a cell is seen.
pub(crate) fn push_seen(frame: &mut Vec<Seen>, x: Seen) -> Result<(), OutOfMemory>
    ensures { OnOk result (frame_of frame.new.items ≡ frame_of frame.old.items ++ ref_of x ∷ []) }
{
    push(frame, x)
}
