// The head and the conditions of the select over a block's FROM.
ghost use Rattle.std.specs.Prelude.{◌≡◌, ◌++◌, [], IfOk, IsOkAnd, OnOk, map};
ghost use Rattle.sql_meaning.specs.ResolvedShown as shown;
ghost use Rattle.qgm_build.specs.Block.{aggregates_of, aggregates_of_rows, conds_in_block, conds_in_rows, frame_of_block, head_in_block};
ghost use Rattle.qgm_translation.specs.Leaves.{after, list_leaves};
ghost use Rattle.qgm_translation.specs.Shown.{all_on_leaves, all_ons, frame_all, ungrouped_cells};
ghost use Rattle.qgm_translation.specs.Terms as meant;
ghost use Rattle.qgm_build_terms.specs.Folds.{leaf_of};
ghost use Rattle.qgm_build_terms.specs.Site.{sources_at};
ghost use Rattle.qgm_build_terms.specs.Setting.{frame_in, outer_in, sources_in};
ghost use Rattle.qgm_build_terms.specs.Written.{frame_of, slots_of};

use qgm_build_terms::{
    Fold, Ranges, Seen, Setting, Site, Slots, add_boxed, all_on_conds, all_on_folds, head_of,
    list_folds, test, test_folds, ungrouped_cells, values,
};
use qgm_core::{Conds, Head, OwnedQuant};
use shared_types::OutOfMemory;
use sql_meaning::{From, Test, Value};
use std::alloc::Global;

/// A block that isn't grouped: its list, FROM and WHERE.
#[derive(Clone, Copy)]
pub(crate) struct Block<'a> {
    pub list: &'a [Value],
    pub from: &'a [From],
    pub by: &'a Test,
}

/// The rows of a grouped block: the places of its keys, its aggregates, FROM and WHERE.
#[derive(Clone, Copy)]
pub(crate) struct Rows<'a> {
    pub places: &'a [usize],
    pub folds: &'a [Fold<'a>],
    pub from: &'a [From],
    pub by: &'a Test,
}

/// The head of a select, and its conditions.
#[derive(Drop)]
pub(crate) struct Selected {
    pub head: Head,
    pub conds: Conds,
}

/// A head and conditions, where both were made.
pub(crate) fn select_parts(
    head: Result<Head, OutOfMemory>,
    conds: Result<Conds, OutOfMemory>,
) -> Result<Selected, OutOfMemory>
    ensures head { IfOk result (λ made. IsOkAnd head (λ h. made.head ≡ h)) }
    ensures conds { IfOk result (λ made. IsOkAnd conds (λ c. made.conds ≡ c)) }
{
    let head = head?;
    let conds = conds?;
    Ok(Selected { head, conds })
}

// The aggregates of a block in the order of its list, its ON conditions and WHERE.
fn block_folds<'a>(alloc: Global, x: &Block<'a>) -> Result<Vec<Fold<'a>>, OutOfMemory>
    ensures { IfOk result (λ v. map leaf_of v.items ≡ aggregates_of x.now) }
{
    let mut out = Vec::new(alloc);
    let listed = list_folds(x.list, &mut out);
    let joined = all_on_folds(x.from, &mut out);
    let tested = test_folds(x.by, &mut out);
    listed.and(joined).and(tested)?;
    Ok(out)
}

// Where they are seen.
fn block_cells(alloc: Global, x: &Block<'_>) -> Result<Vec<Seen>, OutOfMemory>
    ensures { IfOk result (λ v. frame_of v.items ≡ ungrouped_cells (aggregates_of x.now)) }
{
    let folds = block_folds(alloc, x)?;
    ungrouped_cells(alloc, &folds)
}

// The aggregates of the rows of a grouped block, of which a valid query has none.
fn rows_folds<'a>(alloc: Global, x: &Rows<'a>) -> Result<Vec<Fold<'a>>, OutOfMemory>
    ensures { IfOk result (λ v. map leaf_of v.items ≡ aggregates_of_rows x.now) }
{
    let mut out = Vec::new(alloc);
    let joined = all_on_folds(x.from, &mut out);
    let tested = test_folds(x.by, &mut out);
    joined.and(tested)?;
    Ok(out)
}

// Where they are seen.
fn rows_cells(alloc: Global, x: &Rows<'_>) -> Result<Vec<Seen>, OutOfMemory>
    ensures { IfOk result (λ v. frame_of v.items ≡ ungrouped_cells (aggregates_of_rows x.now)) }
{
    let folds = rows_folds(alloc, x)?;
    ungrouped_cells(alloc, &folds)
}

/// Expressions, as a head.
pub(crate) fn list_head(
    g: &Setting<'_>,
    list: &[Value],
    s: &mut Slots<'_>,
) -> Result<Head, OutOfMemory>
    ensures head { IfOk result (λ h. h ≡ meant.terms (sources_in g.now) (frame_in g.now) (outer_in g.now) (slots_of s.old) (shown.value_list list.now)) }
    ensures slots { IfOk result (λ h. slots_of s.new ≡ after (list_leaves (frame_in g.now) (shown.value_list list.now)) (slots_of s.old)) }
{
    let mut out = Vec::new(g.alloc);
    values(g, list, s, &mut out)?;
    head_of(g.alloc, out)
}

// Adds a condition.
fn add_test(
    g: &Setting<'_>,
    p: &Test,
    s: &mut Slots<'_>,
    out: &mut Conds,
) -> Result<(), OutOfMemory>
    ensures items { OnOk result (out.new.items ≡ out.old.items ++ meant.split (meant.cond (sources_in g.now) (frame_in g.now) (outer_in g.now) (slots_of s.old) (shown.test p.now))) }
    ensures spare { out.new.spare ≡ out.old.spare }
{
    let condition = test(g, p, s)?;
    add_boxed(out, condition)
}

/// A condition, split.
pub(crate) fn split_test(g: &Setting<'_>, p: &Test, s: &mut Slots<'_>) -> Result<Conds, OutOfMemory>
    ensures conds { IfOk result (λ c. c.items ≡ meant.split (meant.cond (sources_in g.now) (frame_in g.now) (outer_in g.now) (slots_of s.old) (shown.test p.now))) }
    ensures spare { IfOk result (λ c. c.spare ≡ 0) }
{
    let mut conds = Conds::new(g.alloc);
    add_test(g, p, s, &mut conds)?;
    Ok(conds)
}

// What the ON conditions of a FROM are written with.
fn site_in<'a>(g: &Setting<'a>) -> Site<'a>
    ensures { sources_at result ≡ sources_in g.now }
{
    Site {
        alloc: g.alloc,
        known: g.known,
        rows: g.rows,
    }
}

// The ON conditions of a FROM, which has these quantifiers, and WHERE.
fn from_conds(
    g: &Setting<'_>,
    from: &[From],
    by: &Test,
    fs: &[OwnedQuant],
    s: &mut Slots<'_>,
) -> Result<Conds, OutOfMemory>
    ensures conds { IfOk result (λ c. c.items ≡ all_ons (sources_in g.now) (outer_in g.now) (shown.from_list from.now) fs.now (slots_of s.old) ++ meant.split (meant.cond (sources_in g.now) (frame_in g.now) (outer_in g.now) (after (all_on_leaves (sources_in g.now) (shown.from_list from.now) fs.now) (slots_of s.old)) (shown.test by.now))) }
    ensures spare { IfOk result (λ c. c.spare ≡ 0) }
{
    let mut conds = Conds::new(g.alloc);
    let mut os = Ranges { rest: fs };
    let joined = all_on_conds(&site_in(g), from, g.outer, &mut os, s, &mut conds);
    let tested = add_test(g, by, s, &mut conds);
    joined.and(tested)?;
    Ok(conds)
}

/// The head and the conditions of the select of a block, whose FROM has these quantifiers and whose
/// subqueries those.
pub(crate) fn write_block(
    g: &Setting<'_>,
    x: &Block<'_>,
    fs: &[OwnedQuant],
    subs: &[OwnedQuant],
) -> Result<Selected, OutOfMemory>
    requires seen { frame_in g.now ≡ frame_of_block (sources_in g.now) x.now fs.now }
    ensures head { IfOk result (λ w. w.head ≡ head_in_block (sources_in g.now) (outer_in g.now) x.now fs.now subs.now) }
    ensures conds { IfOk result (λ w. w.conds.items ≡ conds_in_block (sources_in g.now) (outer_in g.now) x.now fs.now subs.now) }
    ensures spare { IfOk result (λ w. w.conds.spare ≡ 0) }
{
    let cells = block_cells(g.alloc, x)?;
    let mut s = Slots {
        quants: subs,
        cells: &cells,
    };
    let head = list_head(g, x.list, &mut s);
    let conds = from_conds(g, x.from, x.by, fs, &mut s);
    select_parts(head, conds)
}

/// The conditions of the rows of a grouped block, whose FROM has these quantifiers and whose
/// subqueries those.
pub(crate) fn write_conds(
    g: &Setting<'_>,
    x: &Rows<'_>,
    fs: &[OwnedQuant],
    subs: &[OwnedQuant],
) -> Result<Conds, OutOfMemory>
    requires seen { frame_in g.now ≡ frame_all (sources_in g.now) (shown.from_list x.now.from.now) fs.now }
    ensures conds { IfOk result (λ c. c.items ≡ conds_in_rows (sources_in g.now) (outer_in g.now) x.now fs.now subs.now) }
    ensures spare { IfOk result (λ c. c.spare ≡ 0) }
{
    let cells = rows_cells(g.alloc, x)?;
    let mut s = Slots {
        quants: subs,
        cells: &cells,
    };
    from_conds(g, x.from, x.by, fs, &mut s)
}
