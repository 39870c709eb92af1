// The boxes over groups and over pairs of boxes.
ghost use Rattle.std.specs.Prelude.{◌≡◌, ◌++◌, ◌∷◌, [], false, IfOk, IsOkAnd, OnOk, length, map, suc};
ghost use Rattle.sql_meaning.specs.ResolvedShown as shown;
ghost use Rattle.qgm_terms.specs.Shown.{terms};
ghost use Rattle.qgm_terms.specs.Terms as t;
ghost use Rattle.qgm_core.specs.declared.kinds.BoxKind.TheVariants.{OuterJoin};
ghost use Rattle.qgm_core.specs.declared.kinds.QuantKind.TheVariants.{F};
ghost use Rattle.qgm_translation.specs.Folds.{folds_in};
ghost use Rattle.qgm_translation.specs.Lay.{laying, ranging};
ghost use Rattle.qgm_translation.specs.Lay as l;
ghost use Rattle.qgm_translation.specs.Maps.{ref_term};
ghost use Rattle.qgm_translation.specs.Leaves.{list_leaves, test_leaves};
ghost use Rattle.qgm_translation.specs.Shown as w;
ghost use Rattle.qgm_translation.specs.Sources.{from_width};
ghost use Rattle.qgm_translation.specs.Terms as meant;
ghost use Rattle.qgm_translation.specs.Typing.{typed_by};
ghost use Rattle.qgm_build_terms.specs.Folds.{leaf_of};
ghost use Rattle.qgm_build.specs.Laying as spec;
ghost use Rattle.qgm_build.specs.Laying.{outer_of, told_at};
ghost use Rattle.qgm_build_terms.specs.Making.{Gives, after_subs};
ghost use Rattle.qgm_build_terms.specs.SoFar.{so_far};
ghost use Rattle.qgm_build_terms.specs.Written.{frame_of};

use crate::finish::{append, put_select, seen_head, seen_terms};
use crate::select::{Selected, list_head, select_parts, split_test};
use qgm_build_terms::{
    Fold, Ground, Seat, Seen, Slots, Store, after, draw, fold_terms, from_width, group_cells,
    head_of, list_folds, push_refs, put, row_type, setting_of, site_of, test_folds,
};
use qgm_core::{
    BoxId, BoxKind, Conds, Gx, Head, Owned, OwnedQuant, QuantId, QuantKind, SetOperator,
};
use shared_types::OutOfMemory;
use sql_meaning::{From, Test, Value};
use sql_value::SqlType;
use sqlite_items::Items;
use std::alloc::Global;

/// The select over the groups of a block: its list, the places of the keys, how many columns the FROM
/// has, HAVING, the quantifier over the groups, and their box.
#[derive(Clone, Copy)]
pub(crate) struct Upper<'a> {
    pub distinct: bool,
    pub list: &'a [Value],
    pub places: &'a [usize],
    pub n: usize,
    pub having: &'a Test,
    pub u: QuantId,
    pub groups: BoxId,
}

/// The aggregates of a grouped block: those of its list, and of HAVING.
pub(crate) fn upper_folds<'a>(
    alloc: Global,
    list: &'a [Value],
    having: &'a Test,
) -> Result<Vec<Fold<'a>>, OutOfMemory>
    ensures { IfOk result (λ v. map leaf_of v.items ≡ folds_in (list_leaves [] (shown.value_list list.now)) ++ folds_in (test_leaves [] (shown.test having.now))) }
{
    let mut out = Vec::new(alloc);
    let listed = list_folds(list, &mut out);
    let tested = test_folds(having, &mut out);
    listed.and(tested)?;
    Ok(out)
}

// Columns of a quantifier, from the first on.
fn column_terms(alloc: Global, q: QuantId, n: usize) -> Result<Vec<Gx>, OutOfMemory>
    ensures { IfOk result (λ v. terms v.items ≡ w.columns_of q 1 n) }
{
    let mut seen = Vec::new(alloc);
    push_refs(&mut seen, q, n)?;
    seen_terms(alloc, &seen)
}

// The columns of groups: the keys, then the aggregates.
fn group_head(alloc: Global, q: QuantId, n: usize, folds: &[Fold<'_>]) -> Result<Head, OutOfMemory>
    ensures { IfOk result (λ h. h ≡ w.columns_of q 1 n ++ w.fold_terms q (suc n) (map leaf_of folds.now)) }
{
    let next = after(n)?;
    let mut list = column_terms(alloc, q, n)?;
    fold_terms(alloc, q, next, folds, &mut list)?;
    head_of(alloc, list)
}

/// The groups of a block whose rows were laid.
pub(crate) fn finish_group(
    g: &Ground<'_>,
    places: &[usize],
    folds: &[Fold<'_>],
    rows: BoxId,
    st: &mut Store,
) -> Result<BoxId, OutOfMemory>
    ensures { IfOk result (λ b. Gives (spec.group_box g.now places.now (map leaf_of folds.now) rows (so_far st.old)) b (so_far st.new)) }
{
    let q = st.next_quant;
    let mut quants = Owned::new(g.alloc);
    draw(g.alloc, st, QuantKind::F, rows, &mut quants)?;
    let head = group_head(g.alloc, q, places.len(), folds)?;
    let kind = BoxKind::Group(places.len());
    put(g.alloc, st, kind, false, Conds::new(g.alloc), head, quants)
}

// Where the aggregates of the select over groups are seen.
fn upper_cells(alloc: Global, z: &Upper<'_>) -> Result<Vec<Seen>, OutOfMemory>
    ensures { IfOk result (λ v. frame_of v.items ≡ w.fold_refs z.now.u (suc (length z.now.places.now)) (folds_in (list_leaves [] (shown.value_list z.now.list.now)) ++ folds_in (test_leaves [] (shown.test z.now.having.now)))) }
{
    let first = after(z.places.len())?;
    let folds = upper_folds(alloc, z.list, z.having)?;
    group_cells(alloc, z.u, first, &folds)
}

// The head and the conditions of the select over groups, whose subqueries have these quantifiers.
fn write_upper(
    h: &Seat<'_>,
    z: &Upper<'_>,
    subs: &[OwnedQuant],
    st: &Store,
) -> Result<Selected, OutOfMemory>
    ensures head { IfOk result (λ x. x.head ≡ spec.upper_head h.now z.now.u (shown.value_list z.now.list.now) z.now.places.now (shown.test z.now.having.now) subs.now (so_far st.now)) }
    ensures conds { IfOk result (λ x. x.conds.items ≡ spec.upper_conds h.now z.now.u (shown.value_list z.now.list.now) z.now.places.now (shown.test z.now.having.now) subs.now (so_far st.now)) }
    ensures spare { IfOk result (λ x. x.conds.spare ≡ 0) }
{
    let cells = upper_cells(h.ground.alloc, z)?;
    let mut s = Slots {
        quants: subs,
        cells: &cells,
    };
    let setting = setting_of(h, st);
    let head = list_head(&setting, z.list, &mut s);
    let conds = split_test(&setting, z.having, &mut s);
    select_parts(head, conds)
}

// The quantifiers of the select over groups: that over the groups, and those of its subqueries.
fn upper_quants(alloc: Global, z: &Upper<'_>, subs: &[OwnedQuant]) -> Result<Owned, OutOfMemory>
    ensures { IfOk result (λ quants. quants ≡ record { id = z.now.u; kind = F; over = z.now.groups } ∷ subs.now) }
{
    let mut quants = Owned::new(alloc);
    let over = OwnedQuant {
        id: z.u,
        kind: QuantKind::F,
        over: z.groups,
    };
    let first = quants.push(over);
    let more = append(&mut quants, subs);
    first.and(more)?;
    Ok(quants)
}

/// The select over the groups of a block.
pub(crate) fn finish_upper(
    h: &Seat<'_>,
    z: &Upper<'_>,
    subs: Owned,
    st: &mut Store,
) -> Result<BoxId, OutOfMemory>
    requires seen { frame_of h.now.frame.now ≡ w.key_frame z.now.u z.now.places.now 0 z.now.n }
    ensures { IfOk result (λ b. Gives (spec.upper_box h.now.ground z.now.distinct (shown.value_list z.now.list.now) z.now.places.now z.now.n (shown.test z.now.having.now) z.now.u z.now.groups (after_subs (so_far st.old) subs)) b (so_far st.new)) }
{
    let parts = write_upper(h, z, subs.as_slice(), st);
    let quants = upper_quants(h.ground.alloc, z, subs.as_slice());
    put_select(&h.ground, st, z.distinct, parts, quants)
}

// Two F quantifiers over these, where both were made.
fn pair(
    alloc: Global,
    a: Result<BoxId, OutOfMemory>,
    b: Result<BoxId, OutOfMemory>,
    st: &mut Store,
) -> Result<Owned, OutOfMemory>
    ensures quants { IfOk result (λ os. IsOkAnd a (λ left. IsOkAnd b (λ right. os ≡ l.pair_of (so_far st.old).quant left right))) }
    ensures store { OnOk result (IsOkAnd a (λ left. IsOkAnd b (λ right. so_far st.new ≡ ranging right (ranging left (so_far st.old))))) }
{
    let left = a?;
    let right = b?;
    let mut quants = Owned::new(alloc);
    let first = draw(alloc, st, QuantKind::F, left, &mut quants);
    let second = draw(alloc, st, QuantKind::F, right, &mut quants);
    first.and(second)?;
    Ok(quants)
}

// The types of the columns of a quantifier.
fn pair_types(
    alloc: Global,
    q: QuantId,
    n: usize,
    st: &Store,
) -> Result<Items<SqlType>, OutOfMemory>
    ensures { IfOk result (λ types. types ≡ map (typed_by st.now.rows.items) (w.columns_of q 1 n)) }
{
    let mut types = Items::new(alloc);
    for i in 0..n {
        types.push(row_type(st, q, i + 1))?;
    }
    Ok(types)
}

/// A set operation over what was laid.
pub(crate) fn finish_pair(
    g: &Ground<'_>,
    form: SetOperator,
    n: usize,
    a: Result<BoxId, OutOfMemory>,
    b: Result<BoxId, OutOfMemory>,
    st: &mut Store,
) -> Result<BoxId, OutOfMemory>
    ensures { IfOk result (λ r. IsOkAnd a (λ left. IsOkAnd b (λ right. Gives (spec.two_box g.now form n left right (so_far st.old)) r (so_far st.new)))) }
{
    let q = st.next_quant;
    let quants = pair(g.alloc, a, b, st)?;
    let types = pair_types(g.alloc, q, n, st)?;
    let kind = BoxKind::SetOp(form, types);
    put(
        g.alloc,
        st,
        kind,
        false,
        Conds::new(g.alloc),
        Head::new(g.alloc),
        quants,
    )
}

// Where the columns of both operands of a LEFT JOIN are seen.
fn outer_frame(
    g: &Ground<'_>,
    x: &From,
    n: usize,
    q: QuantId,
    st: &Store,
) -> Result<Vec<Seen>, OutOfMemory>
    ensures { IfOk result (λ v. frame_of v.items ≡ w.refs q 1 (from_width (told_at g.now) (shown.from x.now)) ++ w.refs (suc q) 1 n) }
{
    let width = from_width(&site_of(g, st), x)?;
    let next = after(q)?;
    let mut seen = Vec::new(g.alloc);
    let left = push_refs(&mut seen, q, width);
    let right = push_refs(&mut seen, next, n);
    left.and(right)?;
    Ok(seen)
}

// The conditions of a LEFT JOIN.
fn outer_conds(h: &Seat<'_>, p: &Test, st: &Store) -> Result<Conds, OutOfMemory>
    ensures conds { IfOk result (λ c. c.items ≡ meant.split (meant.cond (laying (told_at h.now.ground) (so_far st.now)) (frame_of h.now.frame.now) (outer_of h.now.ground) w.no_slots (shown.test p.now))) }
    ensures spare { IfOk result (λ c. c.spare ≡ 0) }
{
    let setting = setting_of(h, st);
    let mut s = Slots {
        quants: &[],
        cells: &[],
    };
    split_test(&setting, p, &mut s)
}

// The head and the conditions of a LEFT JOIN, whose quantifiers have the numbers q and the next.
fn outer_parts(
    g: &Ground<'_>,
    x: &From,
    n: usize,
    p: &Test,
    q: QuantId,
    st: &Store,
) -> Result<Selected, OutOfMemory>
    ensures head { IfOk result (λ made. made.head ≡ map ref_term (w.refs q 1 (from_width (told_at g.now) (shown.from x.now)) ++ w.refs (suc q) 1 n)) }
    ensures conds { IfOk result (λ made. made.conds.items ≡ meant.split (meant.cond (laying (told_at g.now) (so_far st.now)) (w.refs q 1 (from_width (told_at g.now) (shown.from x.now)) ++ w.refs (suc q) 1 n) (outer_of g.now) w.no_slots (shown.test p.now))) }
    ensures spare { IfOk result (λ made. made.conds.spare ≡ 0) }
{
    let seen = outer_frame(g, x, n, q, st)?;
    let h = Seat {
        ground: *g,
        frame: &seen,
    };
    let conds = outer_conds(&h, p, st);
    let head = seen_head(g.alloc, &seen);
    select_parts(head, conds)
}

// A LEFT JOIN of a head, conditions and quantifiers, where all were made.
fn put_outer(
    g: &Ground<'_>,
    st: &mut Store,
    parts: Result<Selected, OutOfMemory>,
    quants: Result<Owned, OutOfMemory>,
) -> Result<BoxId, OutOfMemory>
    requires spare { IfOk parts (λ made. made.conds.spare ≡ 0) }
    ensures { IfOk result (λ b. IsOkAnd parts (λ made. IsOkAnd quants (λ qs. Gives (l.put OuterJoin false made.conds.items made.head qs (so_far st.old)) b (so_far st.new)))) }
{
    let quants = quants?;
    let Selected { head, conds } = parts?;
    put(g.alloc, st, BoxKind::OuterJoin, false, conds, head, quants)
}

/// A LEFT JOIN over what was laid.
pub(crate) fn finish_outer(
    g: &Ground<'_>,
    x: &From,
    n: usize,
    p: &Test,
    a: Result<BoxId, OutOfMemory>,
    b: Result<BoxId, OutOfMemory>,
    st: &mut Store,
) -> Result<BoxId, OutOfMemory>
    ensures { IfOk result (λ r. IsOkAnd a (λ left. IsOkAnd b (λ right. Gives (spec.outer_box g.now (shown.from x.now) n (shown.test p.now) left right (so_far st.old)) r (so_far st.new)))) }
{
    let q = st.next_quant;
    let quants = pair(g.alloc, a, b, st);
    let parts = outer_parts(g, x, n, p, q, st);
    put_outer(g, st, parts, quants)
}
