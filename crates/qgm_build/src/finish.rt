// The selects over what was laid.
ghost use Rattle.std.specs.Prelude.{◌≡◌, ◌++◌, ◌∷◌, [], IfOk, IsOkAnd, OnOk, map, get_or, pos};
ghost use Rattle.sql_meaning.specs.ResolvedShown as shown;
ghost use Rattle.qgm_terms.specs.Shown.{term, terms};
ghost use Rattle.qgm_terms.specs.Terms as t;
ghost use Rattle.qgm_core.specs.declared.kinds.BoxKind.TheVariants.{Select};
ghost use Rattle.qgm_translation.specs.Lay.{laying, put};
ghost use Rattle.qgm_translation.specs.Maps.{nothing, ref_term};
ghost use Rattle.qgm_translation.specs.Shown as w;
ghost use Rattle.qgm_translation.specs.Terms as meant;
ghost use Rattle.qgm_translation.specs.Folds.{on_folds};
ghost use Rattle.qgm_build.specs.Block.{conds_in_block, conds_in_rows, head_in_block};
ghost use Rattle.qgm_build_terms.specs.Folds.{leaf_of};
ghost use Rattle.qgm_build.specs.Laying as spec;
ghost use Rattle.qgm_build.specs.Laying.{outer_of, told_at};
ghost use Rattle.qgm_build_terms.specs.Making.{Gives, after_subs};
ghost use Rattle.qgm_build_terms.specs.Setting.{frame_in, outer_in, sources_in};
ghost use Rattle.qgm_build_terms.specs.SoFar.{so_far};
ghost use Rattle.qgm_build_terms.specs.Written.{frame_of, ref_of, slots_from};

use crate::select::{Block, Rows, Selected, select_parts, write_block, write_conds};
use qgm_build_terms::{
    Fold, Ground, Ranges, Scopes, Seat, Seen, Setting, Slots, Store, frame, head_of, in_frame,
    on_conds, on_folds, push_boxed, put, seen_term, setting_of, site_of, ungrouped_cells, value,
};
use qgm_core::{BoxId, BoxKind, Conds, Gx, Head, Owned, OwnedQuant};
use shared_types::OutOfMemory;
use sql_meaning::{From, Value};
use std::alloc::Global;

/// A FROM before its select: where its columns are seen, and its quantifiers.
#[derive(Drop)]
pub(crate) struct Opened {
    pub frame: Vec<Seen>,
    pub fs: Owned,
}

/// Adds quantifiers.
pub(crate) fn append(out: &mut Owned, more: &[OwnedQuant]) -> Result<(), OutOfMemory>
    ensures { OnOk result (out.new ≡ out.old ++ more.now) }
{
    for o in more {
        out.push(*o)?;
    }
    Ok(())
}

// The quantifiers of a FROM, and then those of the subqueries.
fn all_quants(fs: Owned, subs: Owned) -> Result<Owned, OutOfMemory>
    ensures { IfOk result (λ quants. quants ≡ fs ++ subs) }
{
    let mut quants = fs;
    append(&mut quants, subs.as_slice())?;
    Ok(quants)
}

/// A select of a head, conditions and quantifiers, where all were made.
pub(crate) fn put_select(
    g: &Ground<'_>,
    st: &mut Store,
    distinct: bool,
    parts: Result<Selected, OutOfMemory>,
    quants: Result<Owned, OutOfMemory>,
) -> Result<BoxId, OutOfMemory>
    requires spare { IfOk parts (λ made. made.conds.spare ≡ 0) }
    ensures { IfOk result (λ b. IsOkAnd parts (λ made. IsOkAnd quants (λ qs. Gives (put Select distinct made.conds.items made.head qs (so_far st.old)) b (so_far st.new)))) }
{
    let quants = quants?;
    let Selected { head, conds } = parts?;
    put(g.alloc, st, BoxKind::Select, distinct, conds, head, quants)
}

/// What is seen, as expressions.
pub(crate) fn seen_terms(alloc: Global, frame: &[Seen]) -> Result<Vec<Gx>, OutOfMemory>
    ensures { IfOk result (λ v. terms v.items ≡ map ref_term (frame_of frame.now)) }
{
    let mut out = Vec::new(alloc);
    for x in frame {
        push_seen_term(&mut out, *x)?;
    }
    Ok(out)
}

/// What is seen, as a head.
pub(crate) fn seen_head(alloc: Global, frame: &[Seen]) -> Result<Head, OutOfMemory>
    ensures { IfOk result (λ h. h ≡ map ref_term (frame_of frame.now)) }
{
    let list = seen_terms(alloc, frame)?;
    head_of(alloc, list)
}

// Adds what is seen.
fn push_seen_term(out: &mut Vec<Gx>, x: Seen) -> Result<(), OutOfMemory>
    ensures { OnOk result (terms out.new.items ≡ terms out.old.items ++ ref_term (ref_of x) ∷ []) }
{
    out.push(seen_term(x))?;
    Ok(())
}

// The head and the conditions of the select of a block.
fn block_parts(
    g: &Ground<'_>,
    x: &Block<'_>,
    frame: &[Seen],
    fs: &[OwnedQuant],
    subs: &[OwnedQuant],
    st: &Store,
) -> Result<Selected, OutOfMemory>
    requires seen { frame_of frame.now ≡ w.frame_all (told_at g.now) (shown.from_list x.now.from.now) fs.now }
    ensures head { IfOk result (λ w. w.head ≡ head_in_block (laying (told_at g.now) (so_far st.now)) (outer_of g.now) x.now fs.now subs.now) }
    ensures conds { IfOk result (λ w. w.conds.items ≡ conds_in_block (laying (told_at g.now) (so_far st.now)) (outer_of g.now) x.now fs.now subs.now) }
    ensures spare { IfOk result (λ w. w.conds.spare ≡ 0) }
{
    let h = Seat {
        ground: *g,
        frame: &*frame,
    };
    write_block(&setting_of(&h, st), x, fs, subs)
}

/// The select of a block that isn't grouped.
pub(crate) fn finish_block(
    g: &Ground<'_>,
    distinct: bool,
    x: &Block<'_>,
    o: Opened,
    subs: Owned,
    st: &mut Store,
) -> Result<BoxId, OutOfMemory>
    requires seen { frame_of o.frame.items ≡ w.frame_all (told_at g.now) (shown.from_list x.now.from.now) o.fs }
    ensures { IfOk result (λ b. Gives (spec.block_box g.now distinct (shown.value_list x.now.list.now) (shown.from_list x.now.from.now) (shown.test x.now.by.now) o.fs (after_subs (so_far st.old) subs)) b (so_far st.new)) }
{
    let Opened { frame, fs } = o;
    let parts = block_parts(g, x, &frame, fs.as_slice(), subs.as_slice(), st);
    put_select(g, st, distinct, parts, all_quants(fs, subs))
}

// Adds a key.
fn push_key(out: &mut Vec<Gx>, frame: &[Seen], place: usize) -> Result<(), OutOfMemory>
    ensures { OnOk result (terms out.new.items ≡ terms out.old.items ++ ref_term (get_or (frame_of frame.now) place nothing) ∷ []) }
{
    push_seen_term(out, in_frame(frame, place))
}

// The grouping columns.
fn key_terms(alloc: Global, frame: &[Seen], places: &[usize]) -> Result<Vec<Gx>, OutOfMemory>
    ensures { IfOk result (λ v. terms v.items ≡ map (λ place. ref_term (get_or (frame_of frame.now) place nothing)) places.now) }
{
    let mut out = Vec::new(alloc);
    for place in places {
        push_key(&mut out, frame, *place)?;
    }
    Ok(out)
}

// An argument of an aggregate, which sees its row alone.
fn argument(g: &Setting<'_>, x: &Value) -> Result<Box<Gx>, OutOfMemory>
    requires alone { outer_in g.now ≡ [] }
    ensures { IfOk result (λ y. term y.value ≡ meant.term (sources_in g.now) (frame_in g.now) [] w.no_slots (shown.value x.now)) }
{
    let mut s = Slots {
        quants: &[],
        cells: &[],
    };
    value(g, x, &mut s)
}

// Adds the arguments of aggregates.
fn argument_terms(g: &Setting<'_>, folds: &[Fold<'_>], out: &mut Vec<Gx>) -> Result<(), OutOfMemory>
    requires alone { outer_in g.now ≡ [] }
    ensures { OnOk result (terms out.new.items ≡ terms out.old.items ++ w.argument_terms (sources_in g.now) (frame_in g.now) (map leaf_of folds.now)) }
{
    for x in folds {
        match x {
            Fold::CountAll => {}
            Fold::Of(_, _, a) => {
                let y = argument(g, a)?;
                push_boxed(out, y)?;
            }
        }
    }
    Ok(())
}

// These, or the number 1 where there are none.
fn padded(list: Vec<Gx>) -> Result<Vec<Gx>, OutOfMemory>
    ensures { IfOk result (λ v. terms v.items ≡ w.padded (t.int (pos 1)) (terms list.items)) }
{
    let mut out = list;
    if out.is_empty() {
        out.push(Gx::Int(1))?;
    }
    Ok(out)
}

// Adds the arguments of aggregates, written by what names and expressions are after the boxes so far.
fn add_arguments(
    h: &Seat<'_>,
    folds: &[Fold<'_>],
    st: &Store,
    out: &mut Vec<Gx>,
) -> Result<(), OutOfMemory>
    requires alone { outer_of h.now.ground ≡ [] }
    ensures { OnOk result (terms out.new.items ≡ terms out.old.items ++ w.argument_terms (laying (told_at h.now.ground) (so_far st.now)) (frame_of h.now.frame.now) (map leaf_of folds.now)) }
{
    argument_terms(&setting_of(h, st), folds, out)
}

// The columns of the rows of a grouped block, whose aggregates see one row alone.
fn rows_terms(
    g: &Ground<'_>,
    x: &Rows<'_>,
    frame: &[Seen],
    st: &Store,
) -> Result<Vec<Gx>, OutOfMemory>
    requires alone { outer_of g.now ≡ [] }
    ensures { IfOk result (λ v. terms v.items ≡ w.rows_list (laying (told_at g.now) (so_far st.now)) x.now.places.now (map leaf_of x.now.folds.now) (frame_of frame.now) w.no_slots) }
{
    let mut list = key_terms(g.alloc, frame, x.places)?;
    let h = Seat {
        ground: *g,
        frame: &*frame,
    };
    add_arguments(&h, x.folds, st, &mut list)?;
    padded(list)
}

// The head of the rows of a grouped block.
fn rows_head(g: &Ground<'_>, x: &Rows<'_>, frame: &[Seen], st: &Store) -> Result<Head, OutOfMemory>
    ensures { IfOk result (λ h. h ≡ w.rows_list (laying (told_at g.now) (so_far st.now)) x.now.places.now (map leaf_of x.now.folds.now) (frame_of frame.now) w.no_slots) }
{
    let outer = Scopes::Outermost;
    let alone = Ground {
        alloc: g.alloc,
        names: g.names,
        outer: &outer,
    };
    let list = rows_terms(&alone, x, frame, st)?;
    head_of(g.alloc, list)
}

// The conditions of the rows of a grouped block.
fn rows_conds(
    g: &Ground<'_>,
    x: &Rows<'_>,
    frame: &[Seen],
    fs: &[OwnedQuant],
    subs: &[OwnedQuant],
    st: &Store,
) -> Result<Conds, OutOfMemory>
    requires seen { frame_of frame.now ≡ w.frame_all (told_at g.now) (shown.from_list x.now.from.now) fs.now }
    ensures conds { IfOk result (λ c. c.items ≡ conds_in_rows (laying (told_at g.now) (so_far st.now)) (outer_of g.now) x.now fs.now subs.now) }
    ensures spare { IfOk result (λ c. c.spare ≡ 0) }
{
    let h = Seat {
        ground: *g,
        frame: &*frame,
    };
    write_conds(&setting_of(&h, st), x, fs, subs)
}

// The head and the conditions of the rows of a grouped block.
fn rows_parts(
    g: &Ground<'_>,
    x: &Rows<'_>,
    frame: &[Seen],
    fs: &[OwnedQuant],
    subs: &[OwnedQuant],
    st: &Store,
) -> Result<Selected, OutOfMemory>
    requires seen { frame_of frame.now ≡ w.frame_all (told_at g.now) (shown.from_list x.now.from.now) fs.now }
    ensures head { IfOk result (λ made. made.head ≡ w.rows_list (laying (told_at g.now) (so_far st.now)) x.now.places.now (map leaf_of x.now.folds.now) (frame_of frame.now) w.no_slots) }
    ensures conds { IfOk result (λ made. made.conds.items ≡ conds_in_rows (laying (told_at g.now) (so_far st.now)) (outer_of g.now) x.now fs.now subs.now) }
    ensures spare { IfOk result (λ made. made.conds.spare ≡ 0) }
{
    let head = rows_head(g, x, frame, st);
    let conds = rows_conds(g, x, frame, fs, subs, st);
    select_parts(head, conds)
}

/// The rows of a grouped block.
pub(crate) fn finish_rows(
    g: &Ground<'_>,
    x: &Rows<'_>,
    o: Opened,
    subs: Owned,
    st: &mut Store,
) -> Result<BoxId, OutOfMemory>
    requires seen { frame_of o.frame.items ≡ w.frame_all (told_at g.now) (shown.from_list x.now.from.now) o.fs }
    ensures { IfOk result (λ b. Gives (spec.rows_box g.now x.now.places.now (map leaf_of x.now.folds.now) (shown.from_list x.now.from.now) (shown.test x.now.by.now) o.fs (after_subs (so_far st.old) subs)) b (so_far st.new)) }
{
    let Opened { frame, fs } = o;
    let parts = rows_parts(g, x, &frame, fs.as_slice(), subs.as_slice(), st);
    put_select(g, st, false, parts, all_quants(fs, subs))
}

// The columns of an operand.
fn flat_head(g: &Ground<'_>, x: &From, fs: &[OwnedQuant], st: &Store) -> Result<Head, OutOfMemory>
    ensures { IfOk result (λ h. h ≡ map ref_term (w.frame (laying (told_at g.now) (so_far st.now)) (shown.from x.now) fs.now)) }
{
    let mut seen = Vec::new(g.alloc);
    let mut os = Ranges { rest: fs };
    frame(&site_of(g, st), x, &mut os, &mut seen)?;
    seen_head(g.alloc, &seen)
}

// Where the aggregates of the ON conditions of an operand are seen.
fn flat_cells(alloc: Global, x: &From) -> Result<Vec<Seen>, OutOfMemory>
    ensures { IfOk result (λ v. frame_of v.items ≡ w.ungrouped_cells (on_folds (shown.from x.now))) }
{
    let mut folds = Vec::new(alloc);
    on_folds(x, &mut folds)?;
    ungrouped_cells(alloc, &folds)
}

// The ON conditions of an operand.
fn flat_conds(
    g: &Ground<'_>,
    x: &From,
    fs: &[OwnedQuant],
    subs: &[OwnedQuant],
    st: &Store,
) -> Result<Conds, OutOfMemory>
    ensures conds { IfOk result (λ c. c.items ≡ w.ons (laying (told_at g.now) (so_far st.now)) (outer_of g.now) (shown.from x.now) fs.now (slots_from subs.now (w.ungrouped_cells (on_folds (shown.from x.now))))) }
    ensures spare { IfOk result (λ c. c.spare ≡ 0) }
{
    let cells = flat_cells(g.alloc, x)?;
    let mut s = Slots {
        quants: subs,
        cells: &cells,
    };
    let mut conds = Conds::new(g.alloc);
    let mut os = Ranges { rest: fs };
    on_conds(&site_of(g, st), x, g.outer, &mut os, &mut s, &mut conds)?;
    Ok(conds)
}

// The head and the ON conditions of an operand.
fn flat_parts(
    g: &Ground<'_>,
    x: &From,
    fs: &[OwnedQuant],
    subs: &[OwnedQuant],
    st: &Store,
) -> Result<Selected, OutOfMemory>
    ensures head { IfOk result (λ made. made.head ≡ map ref_term (w.frame (laying (told_at g.now) (so_far st.now)) (shown.from x.now) fs.now)) }
    ensures conds { IfOk result (λ made. made.conds.items ≡ w.ons (laying (told_at g.now) (so_far st.now)) (outer_of g.now) (shown.from x.now) fs.now (slots_from subs.now (w.ungrouped_cells (on_folds (shown.from x.now))))) }
    ensures spare { IfOk result (λ made. made.conds.spare ≡ 0) }
{
    let head = flat_head(g, x, fs, st);
    let conds = flat_conds(g, x, fs, subs, st);
    select_parts(head, conds)
}

/// A select over one operand of a FROM, with all its columns.
pub(crate) fn finish_flat(
    g: &Ground<'_>,
    x: &From,
    fs: Owned,
    subs: Owned,
    st: &mut Store,
) -> Result<BoxId, OutOfMemory>
    ensures { IfOk result (λ b. Gives (spec.flat_box g.now (shown.from x.now) fs (after_subs (so_far st.old) subs)) b (so_far st.new)) }
{
    let parts = flat_parts(g, x, fs.as_slice(), subs.as_slice(), st);
    put_select(g, st, false, parts, all_quants(fs, subs))
}
