// Where the columns of a FROM are seen.
ghost use Rattle.std.specs.Prelude.{◌≡◌, ◌++◌, ◌∷◌, [], IfOk, OnOk, length};
ghost use Rattle.sql_meaning.specs.ResolvedShown as shown;
ghost use Rattle.qgm_translation.specs.Leaves.{rest_of};
ghost use Rattle.qgm_translation.specs.Maps.{column};
ghost use Rattle.qgm_translation.specs.Shown as w;
ghost use Rattle.qgm_translation.specs.Sources as s;
ghost use Rattle.std.specs.Option.{option_copied};
ghost use Rattle.qgm_build_terms.specs.Setting.{columns_of, named_in};
ghost use Rattle.qgm_build_terms.specs.Site.{sources_at};
ghost use Rattle.qgm_build_terms.specs.Written.{frame_of};

use crate::seen::{Seen, push_seen};
use crate::setting::{Known, Named, Site};
use qgm_core::OwnedQuant;
use qgm_terms::QuantId;
use shared_types::{OutOfMemory, Text};
use sql_meaning::{From, Query, Value};

/// The quantifiers of a FROM that are still to come.
#[derive(Clone, Copy)]
pub struct Ranges<'a> {
    pub rest: &'a [OwnedQuant],
}

/// The number of the next quantifier; 0 where there is none.
pub fn next_id(os: &mut Ranges<'_>) -> QuantId
    ensures id { result ≡ w.first_id os.old.rest.now }
    ensures rest { os.new.rest.now ≡ rest_of os.old.rest.now }
{
    match os.rest.split_first() {
        Some((o, rest)) => {
            os.rest = rest;
            o.id
        }
        None => 0,
    }
}

/// Adds columns of a quantifier, from the first on.
pub fn push_refs(frame: &mut Vec<Seen>, q: QuantId, n: usize) -> Result<(), OutOfMemory>
    ensures { OnOk result (frame_of frame.new.items ≡ frame_of frame.old.items ++ w.refs q 1 n) }
{
    for k in 0..n {
        push_seen(frame, Seen::At(q, k + 1))?;
    }
    Ok(())
}

// How many columns a list has.
#[tactic(auto, using(crate::proofs::Lists::values_counted))]
fn how_many(list: &[Value]) -> usize
    ensures { result ≡ s.how_many_values (shown.value_list list.now) }
{
    list.len()
}

/// How many columns a query has.
#[tactic(auto, using(sql_meaning::specs::ResolvedShown::lists))]
pub(crate) fn width(x: &Query) -> usize
    ensures { result ≡ s.width (shown.query x.now) }
{
    match x {
        Query::Block(_, list, _, _) => how_many(list.as_slice()),
        Query::Grouped(_, list, _, _, _, _, _) => how_many(list.as_slice()),
        Query::Combine(_, _, _, n, _) => *n,
        Query::Intersect(_, _, n, _) => *n,
    }
}

// The first of a name.
fn find_named<'a>(named: &'a [Named], name: &Text) -> Option<&'a Named>
    ensures { option_copied result ≡ named_in named.now name.now }
{
    for x in named {
        if x.name == *name {
            return Some(x);
        }
    }
    None
}

/// How many columns a name of a FROM has.
pub(crate) fn columns_named(known: &Known<'_>, name: &Text) -> usize
    ensures { result ≡ columns_of (named_in known.now.names.named.now name.now) }
{
    match find_named(known.names.named, name) {
        Some(x) => x.columns,
        None => 0,
    }
}

/// How many columns an operand of a FROM has. It fails past 2^64, which no operand has.
pub fn from_width(g: &Site<'_>, x: &From) -> Result<usize, OutOfMemory>
    ensures { IfOk result (λ n. n ≡ s.from_width (sources_at g.now) (shown.from x.now)) }
{
    match x {
        From::Named(name) => Ok(columns_named(&g.known, name)),
        From::Derived(query) => Ok(width(query)),
        From::Crossed(a, b) | From::Joined(a, b, _) => {
            let left = from_width(g, a)?;
            let right = from_width(g, b)?;
            left.checked_add(right).ok_or(OutOfMemory)
        }
        From::LeftJoined(a, _, n, _) => {
            let left = from_width(g, a)?;
            left.checked_add(*n).ok_or(OutOfMemory)
        }
    }
}

/// Adds where the columns of an operand are seen, whose quantifiers come first.
pub fn frame(
    g: &Site<'_>,
    x: &From,
    os: &mut Ranges<'_>,
    out: &mut Vec<Seen>,
) -> Result<(), OutOfMemory>
    ensures frame { OnOk result (frame_of out.new.items ≡ frame_of out.old.items ++ w.frame (sources_at g.now) (shown.from x.now) os.old.rest.now) }
    ensures past { OnOk result (os.new.rest.now ≡ w.past (sources_at g.now) (shown.from x.now) os.old.rest.now) }
{
    match x {
        From::Named(_) | From::Derived(_) | From::LeftJoined(_, _, _, _) => {
            let n = from_width(g, x)?;
            push_refs(out, next_id(os), n)
        }
        From::Crossed(a, b) | From::Joined(a, b, _) => {
            frame(g, a, os, out)?;
            frame(g, b, os, out)
        }
    }
}

/// Adds where the columns of all operands of a FROM are seen, whose quantifiers come first.
pub fn frame_all(
    g: &Site<'_>,
    list: &[From],
    os: &mut Ranges<'_>,
    out: &mut Vec<Seen>,
) -> Result<(), OutOfMemory>
    ensures frame { OnOk result (frame_of out.new.items ≡ frame_of out.old.items ++ w.frame_all (sources_at g.now) (shown.from_list list.now) os.old.rest.now) }
    ensures past { OnOk result (os.new.rest.now ≡ w.past_all (sources_at g.now) (shown.from_list list.now) os.old.rest.now) }
{
    for x in list {
        frame(g, x, os, out)?;
    }
    Ok(())
}
