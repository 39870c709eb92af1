// The boxes of a query, made from the lowest up.
ghost use Rattle.std.specs.Prelude.{◌≡◌, ◌++◌, [], true, IfOk, IsOkAnd, OnOk};
ghost use Rattle.sql_meaning.specs.ResolvedShown as shown;
ghost use Rattle.qgm_translation.specs.Lay.{laying};
ghost use Rattle.qgm_translation.specs.Lay as l;
ghost use Rattle.qgm_translation.specs.Leaves as leaves;
ghost use Rattle.qgm_translation.specs.Shown as w;
ghost use Rattle.qgm_build.specs.Laying as spec;
ghost use Rattle.qgm_build.specs.Laying.{outer_of, told_at};
ghost use Rattle.qgm_build.specs.Parts.{is_single, subs_step, upper_step};
ghost use Rattle.qgm_build_terms.specs.Making.{Gives, Takes, draws};
ghost use Rattle.qgm_build_terms.specs.SoFar.{so_far};
ghost use Rattle.qgm_build_terms.specs.Written.{frame_of};

use crate::finish::{Opened, finish_block, finish_flat, finish_rows};
use crate::pairs::{Upper, finish_group, finish_outer, finish_pair, finish_upper, upper_folds};
use crate::select::{Block, Rows};
use qgm_build_terms::{
    Ground, Ranges, Scopes, Seat, Seen, Store, draw, frame_all, joined_frame, key_frame, next_id,
    number, number_named, site_of,
};
use qgm_core::{BoxId, Owned, OwnedQuant, QuantKind, SetOperator};
use shared_types::OutOfMemory;
use sql_ast::{Quantifier, SetOperator as Combined};
use sql_meaning::{Addend, Arm, Choice, From, Multiplier, Query, Test, Value};
use sqlite_items::Items;
use std::alloc::Global;

// What a comparison with the rows of a subquery asks for.
fn every_or_some(each: Quantifier) -> QuantKind
    ensures { result ≡ leaves.every_or_some each }
{
    match each {
        Quantifier::Any | Quantifier::Some => QuantKind::E,
        Quantifier::All => QuantKind::A,
    }
}

// UNION and EXCEPT, with ALL where true stands.
fn form_of(op: Combined, all: bool) -> SetOperator
    ensures { result ≡ w.form_of op all }
{
    match op {
        Combined::Union => {
            if all {
                SetOperator::UnionAll
            } else {
                SetOperator::Union
            }
        }
        Combined::Except => {
            if all {
                SetOperator::ExceptAll
            } else {
                SetOperator::Except
            }
        }
    }
}

// INTERSECT, with ALL where true stands.
fn common_form(all: bool) -> SetOperator
    ensures { result ≡ w.common_form all }
{
    if all {
        SetOperator::IntersectAll
    } else {
        SetOperator::Intersect
    }
}

// The places of the keys of a block.
fn places_of<'a>(places: &'a Option<Items<usize>>) -> &'a [usize]
    ensures { result.now ≡ w.key_places places.now }
{
    match places {
        Some(places) => places.as_slice(),
        None => &[],
    }
}

// Where the columns of a FROM are seen.
fn from_frame(
    g: &Ground<'_>,
    from: &[From],
    fs: &[OwnedQuant],
    st: &Store,
) -> Result<Vec<Seen>, OutOfMemory>
    ensures { IfOk result (λ v. frame_of v.items ≡ w.frame_all (told_at g.now) (shown.from_list from.now) fs.now) }
{
    let mut out = Vec::new(g.alloc);
    let mut os = Ranges { rest: fs };
    frame_all(&site_of(g, st), from, &mut os, &mut out)?;
    Ok(out)
}

// Where the columns of both operands of a join are seen.
fn both_frame(
    g: &Ground<'_>,
    a: &From,
    b: &From,
    os: &[OwnedQuant],
    st: &Store,
) -> Result<Vec<Seen>, OutOfMemory>
    ensures { IfOk result (λ v. frame_of v.items ≡ w.frame (told_at g.now) (shown.from a.now) os.now ++ w.frame (told_at g.now) (shown.from b.now) (w.past (told_at g.now) (shown.from a.now) os.now)) }
{
    joined_frame(&site_of(g, st), a, b, os)
}

// What a FROM is before its select, whose quantifiers were drawn.
fn opened(
    g: &Ground<'_>,
    from: &[From],
    fs: Result<Owned, OutOfMemory>,
    st: &Store,
) -> Result<Opened, OutOfMemory>
    ensures quants { IfOk result (λ o. IsOkAnd fs (λ drawn. o.fs ≡ drawn)) }
    ensures seen { IfOk result (λ o. frame_of o.frame.items ≡ w.frame_all (told_at g.now) (shown.from_list from.now) o.fs) }
{
    let fs = fs?;
    let frame = from_frame(g, from, fs.as_slice(), st)?;
    Ok(Opened { frame, fs })
}

// Adds a quantifier over a box, where it was made.
fn draw_over(
    alloc: Global,
    over: Result<BoxId, OutOfMemory>,
    kind: QuantKind,
    st: &mut Store,
    out: &mut Owned,
) -> Result<(), OutOfMemory>
    ensures { OnOk result (IsOkAnd over (λ b. Takes (draws kind b) (so_far st.old) out.old (so_far st.new) out.new)) }
{
    draw(alloc, st, kind, over?, out)
}

/// Makes the boxes of a query, and tells the topmost.
#[cycle(lay)]
pub(crate) fn query(g: &Ground<'_>, x: &Query, st: &mut Store) -> Result<BoxId, OutOfMemory>
    ensures { IfOk result (λ b. Gives (spec.query_laid g.now (shown.query x.now) (so_far st.old)) b (so_far st.new)) }
{
    match x {
        Query::Block(_, _, _, _) => block(g, x, st),
        Query::Grouped(_, _, _, _, _, _, _) => grouped(g, x, st),
        Query::Combine(a, op, all, n, b) => {
            let left = query(g, a, st);
            let right = query(g, b, st);
            finish_pair(g, form_of(*op, *all), *n, left, right, st)
        }
        Query::Intersect(a, all, n, b) => {
            let left = query(g, a, st);
            let right = query(g, b, st);
            finish_pair(g, common_form(*all), *n, left, right, st)
        }
    }
}

// A block that isn't grouped.
#[cycle(lay)]
fn block(g: &Ground<'_>, x: &Query, st: &mut Store) -> Result<BoxId, OutOfMemory>
    requires form { spec.is_block (shown.query x.now) ≡ true }
    ensures { IfOk result (λ b. Gives (spec.query_laid g.now (shown.query x.now) (so_far st.old)) b (so_far st.new)) }
{
    let Query::Block(distinct, list, from, by) = x else {
        unreachable!()
    };
    let from = from.as_slice();
    let drawn = froms(g, from, st);
    let o = opened(g, from, drawn, st)?;
    let subs = block_subs(g, x, &o, st)?;
    let list = list.as_slice();
    let by: &Test = by;
    finish_block(g, *distinct, &Block { list, from, by }, o, subs, st)
}

// The quantifiers of the subqueries of a block that isn't grouped.
#[cycle(lay)]
fn block_subs(g: &Ground<'_>, x: &Query, o: &Opened, st: &mut Store) -> Result<Owned, OutOfMemory>
    requires form { spec.is_block (shown.query x.now) ≡ true }
    ensures { IfOk result (λ subs. Takes (subs_step g.now (shown.query x.now) (frame_of o.now.frame.items) o.now.fs) (so_far st.old) [] (so_far st.new) subs) }
{
    let Query::Block(_, list, from, by) = x else {
        unreachable!()
    };
    let h = Seat {
        ground: *g,
        frame: &o.frame,
    };
    let mut os = Ranges {
        rest: o.fs.as_slice(),
    };
    let mut subs = Owned::new(g.alloc);
    let listed = list_subs(&h, list.as_slice(), st, &mut subs);
    let passed = all_on_subs(g, from.as_slice(), &mut os, st, &mut subs);
    let tested = test_subs(&h, by, st, &mut subs);
    listed.and(passed).and(tested)?;
    Ok(subs)
}

// The groups of a grouped block, over its rows.
#[cycle(lay)]
fn groups(g: &Ground<'_>, x: &Query, st: &mut Store) -> Result<BoxId, OutOfMemory>
    requires form { spec.is_grouped (shown.query x.now) ≡ true }
    ensures { IfOk result (λ b. Gives (spec.groups_laid g.now (shown.query x.now) (so_far st.old)) b (so_far st.new)) }
{
    let Query::Grouped(_, list, from, by, places, _, having) = x else {
        unreachable!()
    };
    let found = upper_folds(g.alloc, list.as_slice(), having)?;
    let from = from.as_slice();
    let drawn = froms(g, from, st);
    let o = opened(g, from, drawn, st)?;
    let subs = rows_subs(g, x, &o, st)?;
    let by: &Test = by;
    let r = Rows {
        places: places_of(places),
        folds: found.as_slice(),
        from,
        by,
    };
    let rows = finish_rows(g, &r, o, subs, st)?;
    finish_group(g, r.places, r.folds, rows, st)
}

// The quantifiers of the subqueries of the rows of a grouped block.
#[cycle(lay)]
fn rows_subs(g: &Ground<'_>, x: &Query, o: &Opened, st: &mut Store) -> Result<Owned, OutOfMemory>
    requires form { spec.is_grouped (shown.query x.now) ≡ true }
    ensures { IfOk result (λ subs. Takes (subs_step g.now (shown.query x.now) (frame_of o.now.frame.items) o.now.fs) (so_far st.old) [] (so_far st.new) subs) }
{
    let Query::Grouped(_, _, from, by, _, _, _) = x else {
        unreachable!()
    };
    let h = Seat {
        ground: *g,
        frame: &o.frame,
    };
    let mut os = Ranges {
        rest: o.fs.as_slice(),
    };
    let mut subs = Owned::new(g.alloc);
    let passed = all_on_subs(g, from.as_slice(), &mut os, st, &mut subs);
    let tested = test_subs(&h, by, st, &mut subs);
    passed.and(tested)?;
    Ok(subs)
}

// A grouped block: the select over its groups.
#[cycle(lay)]
fn grouped(g: &Ground<'_>, x: &Query, st: &mut Store) -> Result<BoxId, OutOfMemory>
    requires form { spec.is_grouped (shown.query x.now) ≡ true }
    ensures { IfOk result (λ b. Gives (spec.query_laid g.now (shown.query x.now) (so_far st.old)) b (so_far st.new)) }
{
    let groups = groups(g, x, st)?;
    let Query::Grouped(distinct, list, _, _, places, n, having) = x else {
        unreachable!()
    };
    let list = list.as_slice();
    let having: &Test = having;
    let places = places_of(places);
    let u = number(g.alloc, groups, st)?;
    let frame = key_frame(g.alloc, u, places, *n)?;
    let h = Seat {
        ground: *g,
        frame: &frame,
    };
    let subs = upper_subs(&h, x, st)?;
    let z = Upper {
        distinct: *distinct,
        list,
        places,
        n: *n,
        having,
        u,
        groups,
    };
    finish_upper(&h, &z, subs, st)
}

// The quantifiers of the subqueries of the select over groups.
#[cycle(lay)]
fn upper_subs(h: &Seat<'_>, x: &Query, st: &mut Store) -> Result<Owned, OutOfMemory>
    requires form { spec.is_grouped (shown.query x.now) ≡ true }
    ensures { IfOk result (λ subs. Takes (upper_step h.now (shown.query x.now)) (so_far st.old) [] (so_far st.new) subs) }
{
    let Query::Grouped(_, list, _, _, _, _, having) = x else {
        unreachable!()
    };
    let mut subs = Owned::new(h.ground.alloc);
    let listed = list_subs(h, list.as_slice(), st, &mut subs);
    let tested = test_subs(h, having, st, &mut subs);
    listed.and(tested)?;
    Ok(subs)
}

// The box of an operand of a LEFT JOIN.
#[cycle(lay)]
fn operand(g: &Ground<'_>, x: &From, st: &mut Store) -> Result<BoxId, OutOfMemory>
    ensures { IfOk result (λ b. Gives (spec.operand_laid g.now (shown.from x.now) (so_far st.old)) b (so_far st.new)) }
{
    match x {
        From::Named(_) | From::Derived(_) | From::LeftJoined(_, _, _, _) => single(g, x, st),
        From::Crossed(_, _) | From::Joined(_, _, _) => flat(g, x, st),
    }
}

// The box of an operand of a LEFT JOIN that has one quantifier.
#[cycle(lay)]
fn single(g: &Ground<'_>, x: &From, st: &mut Store) -> Result<BoxId, OutOfMemory>
    requires form { is_single (shown.from x.now) ≡ true }
    ensures { IfOk result (λ b. Gives (spec.operand_laid g.now (shown.from x.now) (so_far st.old)) b (so_far st.new)) }
{
    match x {
        From::Named(name) => Ok(number_named(st, name)),
        From::Derived(y) => query(g, y, st),
        From::LeftJoined(a, b, n, p) => {
            let a: &From = a;
            let left = operand(g, a, st);
            let right = operand(g, b, st);
            finish_outer(g, a, *n, p, left, right, st)
        }
        From::Crossed(_, _) | From::Joined(_, _, _) => unreachable!(),
    }
}

// A select over the tables of one operand, with the ON conditions of its joins.
#[cycle(lay)]
fn flat(g: &Ground<'_>, x: &From, st: &mut Store) -> Result<BoxId, OutOfMemory>
    ensures { IfOk result (λ b. Gives (spec.flat_laid g.now (shown.from x.now) (so_far st.old)) b (so_far st.new)) }
{
    let mut fs = Owned::new(g.alloc);
    let drawn = from(g, x, st, &mut fs);
    let mut subs = Owned::new(g.alloc);
    let mut os = Ranges {
        rest: fs.as_slice(),
    };
    let passed = on_subs(g, x, &mut os, st, &mut subs);
    drawn.and(passed)?;
    finish_flat(g, x, fs, subs, st)
}

// Adds the quantifiers of an operand of a FROM.
#[cycle(lay)]
fn from(g: &Ground<'_>, x: &From, st: &mut Store, out: &mut Owned) -> Result<(), OutOfMemory>
    ensures { OnOk result (Takes (spec.from_step g.now (shown.from x.now)) (so_far st.old) out.old (so_far st.new) out.new) }
{
    match x {
        From::Named(_) | From::Derived(_) | From::LeftJoined(_, _, _, _) => {
            let over = single(g, x, st);
            draw_over(g.alloc, over, QuantKind::F, st, out)
        }
        From::Crossed(a, b) | From::Joined(a, b, _) => {
            from(g, a, st, out).and(from(g, b, st, out))
        }
    }
}

// The quantifiers of a FROM.
#[cycle(lay)]
fn froms(g: &Ground<'_>, list: &[From], st: &mut Store) -> Result<Owned, OutOfMemory>
    ensures { IfOk result (λ fs. Takes (spec.froms_step g.now (shown.from_list list.now)) (so_far st.old) [] (so_far st.new) fs) }
{
    let mut out = Owned::new(g.alloc);
    for x in list {
        from(g, x, st, &mut out)?;
    }
    Ok(out)
}

// Adds the quantifiers of the subqueries of ON conditions that are flattened.
#[cycle(lay)]
fn on_subs(
    g: &Ground<'_>,
    x: &From,
    os: &mut Ranges<'_>,
    st: &mut Store,
    out: &mut Owned,
) -> Result<(), OutOfMemory>
    ensures step { OnOk result (Takes (spec.on_step g.now (shown.from x.now) os.old.rest.now) (so_far st.old) out.old (so_far st.new) out.new) }
    ensures past { OnOk result (os.new.rest.now ≡ w.past (told_at g.now) (shown.from x.now) os.old.rest.now) }
{
    match x {
        From::Named(_) | From::Derived(_) | From::LeftJoined(_, _, _, _) => {
            let _passed = next_id(os);
            Ok(())
        }
        From::Crossed(a, b) => on_subs(g, a, os, st, out).and(on_subs(g, b, os, st, out)),
        From::Joined(a, b, p) => {
            let a: &From = a;
            let b: &From = b;
            let before = os.rest;
            let passed = on_subs(g, a, os, st, out).and(on_subs(g, b, os, st, out));
            let frame = both_frame(g, a, b, before, st);
            passed.and(joined_subs(g, p, frame, st, out))
        }
    }
}

// Adds the quantifiers of the subqueries of an ON condition, where its columns are seen so.
#[cycle(lay)]
fn joined_subs(
    g: &Ground<'_>,
    p: &Test,
    frame: Result<Vec<Seen>, OutOfMemory>,
    st: &mut Store,
    out: &mut Owned,
) -> Result<(), OutOfMemory>
    ensures { OnOk result (IsOkAnd frame (λ v. Takes (l.test_subs (told_at g.now) (laying (told_at g.now)) (outer_of g.now) (frame_of v.items) (shown.test p.now)) (so_far st.old) out.old (so_far st.new) out.new)) }
{
    let frame = frame?;
    let h = Seat {
        ground: *g,
        frame: &frame,
    };
    test_subs(&h, p, st, out)
}

// Adds the quantifiers of the subqueries of all ON conditions of a FROM.
#[cycle(lay)]
fn all_on_subs(
    g: &Ground<'_>,
    list: &[From],
    os: &mut Ranges<'_>,
    st: &mut Store,
    out: &mut Owned,
) -> Result<(), OutOfMemory>
    ensures { OnOk result (Takes (spec.all_on_step g.now (shown.from_list list.now) os.old.rest.now) (so_far st.old) out.old (so_far st.new) out.new) }
{
    for x in list {
        on_subs(g, x, os, st, out)?;
    }
    Ok(())
}

// Adds the quantifier of a subquery, which sees the block first.
#[cycle(lay)]
fn sub(
    h: &Seat<'_>,
    x: &Query,
    kind: QuantKind,
    st: &mut Store,
    out: &mut Owned,
) -> Result<(), OutOfMemory>
    ensures { OnOk result (Takes (l.over kind (spec.inner_laid h.now (shown.query x.now))) (so_far st.old) out.old (so_far st.new) out.new) }
{
    let outer = Scopes::Inside(h.frame, h.ground.outer);
    let inner = Ground {
        alloc: h.ground.alloc,
        names: h.ground.names,
        outer: &outer,
    };
    let over = query(&inner, x, st);
    draw_over(h.ground.alloc, over, kind, st, out)
}

// Adds the quantifiers of the subqueries of an expression.
#[cycle(lay)]
fn value_subs(h: &Seat<'_>, x: &Value, st: &mut Store, out: &mut Owned) -> Result<(), OutOfMemory>
    ensures { OnOk result (Takes (spec.value_step h.now (shown.value x.now)) (so_far st.old) out.old (so_far st.new) out.new) }
{
    match x {
        Value::Number(_)
        | Value::Text(_)
        | Value::Null(_)
        | Value::Column(_, _)
        | Value::CountAll
        | Value::Aggregate(_, _, _) => Ok(()),
        Value::Sum(a, list) => {
            value_subs(h, a, st, out).and(addend_subs(h, list.as_slice(), st, out))
        }
        Value::Product(a, list) => {
            value_subs(h, a, st, out).and(multiplier_subs(h, list.as_slice(), st, out))
        }
        Value::Negative(a) => value_subs(h, a, st, out),
        Value::Searched(list, last) => {
            arm_subs(h, list.as_slice(), st, out).and(value_subs(h, last, st, out))
        }
        Value::Simple(a, list, last) => {
            let read = value_subs(h, a, st, out).and(choice_subs(h, list.as_slice(), st, out));
            read.and(value_subs(h, last, st, out))
        }
        Value::Coalesce(a, list) => {
            value_subs(h, a, st, out).and(list_subs(h, list.as_slice(), st, out))
        }
        Value::NullIf(a, b) => { value_subs(h, a, st, out).and(value_subs(h, b, st, out)) }
        Value::Scalar(y) => sub(h, y, QuantKind::S, st, out),
    }
}

// Adds the quantifiers of the subqueries of the operands of a sum.
#[cycle(lay)]
fn addend_subs(
    h: &Seat<'_>,
    list: &[Addend],
    st: &mut Store,
    out: &mut Owned,
) -> Result<(), OutOfMemory>
    ensures { OnOk result (Takes (spec.addend_step h.now (shown.addend_list list.now)) (so_far st.old) out.old (so_far st.new) out.new) }
{
    for x in list {
        value_subs(h, &x.value, st, out)?;
    }
    Ok(())
}

// Adds the quantifiers of the subqueries of the operands of a product.
#[cycle(lay)]
fn multiplier_subs(
    h: &Seat<'_>,
    list: &[Multiplier],
    st: &mut Store,
    out: &mut Owned,
) -> Result<(), OutOfMemory>
    ensures { OnOk result (Takes (spec.multiplier_step h.now (shown.multiplier_list list.now)) (so_far st.old) out.old (so_far st.new) out.new) }
{
    for x in list {
        value_subs(h, &x.value, st, out)?;
    }
    Ok(())
}

// Adds the quantifiers of the subqueries of a list of expressions.
#[cycle(lay)]
fn list_subs(
    h: &Seat<'_>,
    list: &[Value],
    st: &mut Store,
    out: &mut Owned,
) -> Result<(), OutOfMemory>
    ensures { OnOk result (Takes (spec.list_step h.now (shown.value_list list.now)) (so_far st.old) out.old (so_far st.new) out.new) }
{
    for x in list {
        value_subs(h, x, st, out)?;
    }
    Ok(())
}

// Adds the quantifiers of the subqueries of the arms of a CASE: of their conditions and results.
#[cycle(lay)]
fn arm_subs(h: &Seat<'_>, list: &[Arm], st: &mut Store, out: &mut Owned) -> Result<(), OutOfMemory>
    ensures { OnOk result (Takes (spec.arm_step h.now (shown.arm_list list.now)) (so_far st.old) out.old (so_far st.new) out.new) }
{
    for x in list {
        test_subs(h, &x.when, st, out)?;
        value_subs(h, &x.then, st, out)?;
    }
    Ok(())
}

// Adds the quantifiers of the subqueries of the arms of a CASE with an operand: of their values and results.
#[cycle(lay)]
fn choice_subs(
    h: &Seat<'_>,
    list: &[Choice],
    st: &mut Store,
    out: &mut Owned,
) -> Result<(), OutOfMemory>
    ensures { OnOk result (Takes (spec.choice_step h.now (shown.choice_list list.now)) (so_far st.old) out.old (so_far st.new) out.new) }
{
    for x in list {
        value_subs(h, &x.when, st, out)?;
        value_subs(h, &x.then, st, out)?;
    }
    Ok(())
}

// Adds the quantifiers of the subqueries of a condition.
#[cycle(lay)]
fn test_subs(h: &Seat<'_>, p: &Test, st: &mut Store, out: &mut Owned) -> Result<(), OutOfMemory>
    ensures { OnOk result (Takes (spec.test_step h.now (shown.test p.now)) (so_far st.old) out.old (so_far st.new) out.new) }
{
    match p {
        Test::All(list) | Test::Any(list) => tests_subs(h, list.as_slice(), st, out),
        Test::Not(p) => test_subs(h, p, st, out),
        Test::Compare(a, _, b) | Test::Like(a, b) => {
            value_subs(h, a, st, out).and(value_subs(h, b, st, out))
        }
        Test::Quantified(a, _, each, y) => {
            value_subs(h, a, st, out).and(sub(h, y, every_or_some(*each), st, out))
        }
        Test::AmongRows(a, y) => { value_subs(h, a, st, out).and(sub(h, y, QuantKind::E, st, out)) }
        Test::Between(a, b, c) => {
            let read = value_subs(h, a, st, out).and(value_subs(h, b, st, out));
            read.and(value_subs(h, c, st, out))
        }
        Test::Among(a, list) => {
            value_subs(h, a, st, out).and(list_subs(h, list.as_slice(), st, out))
        }
        Test::IsNull(a) => value_subs(h, a, st, out),
        Test::Exists(y) => sub(h, y, QuantKind::E, st, out),
    }
}

// Adds the quantifiers of the subqueries of conditions.
#[cycle(lay)]
fn tests_subs(
    h: &Seat<'_>,
    list: &[Test],
    st: &mut Store,
    out: &mut Owned,
) -> Result<(), OutOfMemory>
    ensures { OnOk result (Takes (spec.tests_step h.now (shown.test_list list.now)) (so_far st.old) out.old (so_far st.new) out.new) }
{
    for p in list {
        test_subs(h, p, st, out)?;
    }
    Ok(())
}
