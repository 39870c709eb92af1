// The ON conditions of a FROM that are flattened.
ghost use Rattle.std.specs.Prelude.{◌≡◌, ◌++◌, [], IfOk, OnOk, map};
ghost use Rattle.sql_meaning.specs.ResolvedShown as shown;
ghost use Rattle.qgm_translation.specs.Leaves as l;
ghost use Rattle.qgm_translation.specs.Leaves.{rest_of};
ghost use Rattle.qgm_translation.specs.Shown as w;
ghost use Rattle.qgm_translation.specs.Folds as spec;
ghost use Rattle.qgm_build_terms.specs.Folds.{leaf_of};
ghost use Rattle.qgm_build_terms.specs.Site.{sources_at};
ghost use Rattle.qgm_build_terms.specs.Written.{frame_of, map_of, slots_of};

use crate::folds::{Fold, test_folds};
use crate::frames::{Ranges, frame, next_id};
use crate::heads::add_boxed;
use crate::seen::{Scopes, Seen};
use crate::setting::{Setting, Site};
use crate::slots::Slots;
use crate::terms::test;
use qgm_core::{Conds, OwnedQuant};
use shared_types::OutOfMemory;
use sql_meaning::From;

/// Where the columns of two operands are seen, one after the other.
pub fn joined_frame(
    g: &Site<'_>,
    a: &From,
    b: &From,
    os: &[OwnedQuant],
) -> Result<Vec<Seen>, OutOfMemory>
    ensures { IfOk result (λ v. frame_of v.items ≡ w.frame (sources_at g.now) (shown.from a.now) os.now ++ w.frame (sources_at g.now) (shown.from b.now) (w.past (sources_at g.now) (shown.from a.now) os.now)) }
{
    let mut out = Vec::new(g.alloc);
    let mut ranges = Ranges { rest: os };
    frame(g, a, &mut ranges, &mut out)?;
    frame(g, b, &mut ranges, &mut out)?;
    Ok(out)
}

/// Adds the ON conditions of an operand, whose quantifiers come first.
pub fn on_conds(
    g: &Site<'_>,
    x: &From,
    outer: &Scopes<'_>,
    os: &mut Ranges<'_>,
    s: &mut Slots<'_>,
    out: &mut Conds,
) -> Result<(), OutOfMemory>
    ensures conds { OnOk result (out.new.items ≡ out.old.items ++ w.ons (sources_at g.now) (map_of outer.now) (shown.from x.now) os.old.rest.now (slots_of s.old)) }
    ensures spare { OnOk result (out.new.spare ≡ out.old.spare) }
    ensures slots { OnOk result (slots_of s.new ≡ l.after (w.on_leaves (sources_at g.now) (shown.from x.now) os.old.rest.now) (slots_of s.old)) }
    ensures past { OnOk result (os.new.rest.now ≡ w.past (sources_at g.now) (shown.from x.now) os.old.rest.now) }
{
    match x {
        From::Named(_) | From::Derived(_) | From::LeftJoined(_, _, _, _) => {
            let _passed = next_id(os);
            Ok(())
        }
        From::Crossed(a, b) => {
            on_conds(g, a, outer, os, s, out)?;
            on_conds(g, b, outer, os, s, out)
        }
        From::Joined(a, b, p) => {
            let before = os.rest;
            on_conds(g, a, outer, os, s, out)?;
            on_conds(g, b, outer, os, s, out)?;
            let seen = joined_frame(g, a, b, before)?;
            let setting = Setting {
                alloc: g.alloc,
                known: g.known,
                rows: g.rows,
                frame: &seen,
                outer: &*outer,
            };
            let c = test(&setting, p, s)?;
            add_boxed(out, c)
        }
    }
}

/// The aggregates of the ON conditions of an operand.
pub fn on_folds<'a>(x: &'a From, out: &mut Vec<Fold<'a>>) -> Result<(), OutOfMemory>
    ensures { OnOk result (map leaf_of out.new.items ≡ map leaf_of out.old.items ++ spec.on_folds (shown.from x.now)) }
{
    match x {
        From::Named(_) | From::Derived(_) | From::LeftJoined(_, _, _, _) => Ok(()),
        From::Crossed(a, b) => on_folds(a, out).and(on_folds(b, out)),
        From::Joined(a, b, p) => {
            let read = on_folds(a, out).and(on_folds(b, out));
            read.and(test_folds(p, out))
        }
    }
}

/// Adds the ON conditions of a FROM, whose quantifiers come first.
pub fn all_on_conds(
    g: &Site<'_>,
    list: &[From],
    outer: &Scopes<'_>,
    os: &mut Ranges<'_>,
    s: &mut Slots<'_>,
    out: &mut Conds,
) -> Result<(), OutOfMemory>
    ensures conds { OnOk result (out.new.items ≡ out.old.items ++ w.all_ons (sources_at g.now) (map_of outer.now) (shown.from_list list.now) os.old.rest.now (slots_of s.old)) }
    ensures spare { OnOk result (out.new.spare ≡ out.old.spare) }
    ensures slots { OnOk result (slots_of s.new ≡ l.after (w.all_on_leaves (sources_at g.now) (shown.from_list list.now) os.old.rest.now) (slots_of s.old)) }
{
    for x in list {
        on_conds(g, x, outer, os, s, out)?;
    }
    Ok(())
}

/// The aggregates of the ON conditions of a FROM.
pub fn all_on_folds<'a>(list: &'a [From], out: &mut Vec<Fold<'a>>) -> Result<(), OutOfMemory>
    ensures { OnOk result (map leaf_of out.new.items ≡ map leaf_of out.old.items ++ spec.all_on_folds (shown.from_list list.now)) }
{
    for x in list {
        on_folds(x, out)?;
    }
    Ok(())
}
