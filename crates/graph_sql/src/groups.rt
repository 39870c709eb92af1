// The cells of a group.
ghost use Rattle.std.specs.Prelude.{◌≡◌, ◌++◌, decimal, List, ℕ, OnOk};
ghost use Rattle.graph_sql.specs.Bodies.{group_cell};
ghost use Rattle.graph_sql.specs.BodyText as text;
ghost use Rattle.graph_sql.specs.Lists as lists;
ghost use Rattle.graph_sql.specs.Readings.{Names};
ghost use Rattle.graph_sql.specs.Scoped as spec;
ghost use Rattle.qgm_terms.specs.Shown.{aggregate, taken, term, terms};

use crate::numbered::{Listed, put_before, put_comma, put_numbered};
use crate::scope::Scope;
use crate::terms::{is_alone, put_term};
use graph_print::put_word;
use qgm_terms::{Aggregate, Gx, Taken};
use shared_types::{OutOfMemory, Text};

/// A cell of a group: one of each of its rows, or an aggregate.
pub enum Grouped<'a> {
    Cell(&'a Gx),
    CountAll,
    Folded(Aggregate, Taken, &'a Gx),
}

// What a cell of a group is.
fn group_of(x: &Gx) -> Grouped<'_>
    ensures { (n : Names (List ℕ)) → lists.shown_group n result ≡ group_cell n (term x.now) }
{
    match x {
        Gx::CountAll => Grouped::CountAll,
        Gx::Fold(f, each, a) => Grouped::Folded(*f, *each, a),
        Gx::Int(_)
        | Gx::Text(_)
        | Gx::NullInt
        | Gx::NullText
        | Gx::Col(_, _)
        | Gx::Scalar(_)
        | Gx::Neg(_)
        | Gx::Case(_, _) => Grouped::Cell(x),
        Gx::Chain(a, list) => {
            if is_alone(list) {
                group_of(a)
            } else {
                Grouped::Cell(x)
            }
        }
    }
}

fn is_wrapped_fold(f: Aggregate) -> bool
    ensures { result ≡ text.is_wrapped_fold (aggregate f) }
{
    match f {
        Aggregate::Single | Aggregate::Sum | Aggregate::Avg => true,
        Aggregate::Count | Aggregate::Min | Aggregate::Max => false,
    }
}

// Whether a cell is made outside the group.
fn is_wrapped(x: &Gx) -> bool
    ensures { (n : Names (List ℕ)) → result ≡ text.is_wrapped (group_cell n (term x.now)) }
{
    match group_of(x) {
        Grouped::Cell(_) | Grouped::CountAll => false,
        Grouped::Folded(f, _, _) => is_wrapped_fold(f),
    }
}

/// Whether one of the cells is made outside the group.
pub fn is_any_wrapped(list: &[Gx]) -> bool
    ensures { (n : Names (List ℕ)) → result ≡ lists.any_wrapped n (terms list.now) }
{
    for x in list {
        if is_wrapped(x) {
            return true;
        }
    }
    false
}

fn put_taken(each: Taken, out: &mut Text) -> Result<(), OutOfMemory>
    ensures { OnOk result (out.new ≡ out.old ++ text.taken_word (taken each)) }
{
    match each {
        Taken::All => Ok(()),
        Taken::Once => put_word(b"DISTINCT ", out),
    }
}

// The argument of an aggregate between two words.
fn put_argument(
    scope: &Scope<'_>,
    word: &[u8],
    each: Taken,
    x: &Gx,
    behind: &[u8],
    out: &mut Text,
) -> Result<(), OutOfMemory>
    ensures { OnOk result (out.new ≡ out.old ++ (word.now ++ text.taken_word (taken each) ++ spec.term_text scope.now (term x.now) ++ behind.now)) }
{
    put_word(word, out)?;
    put_taken(each, out)?;
    put_term(scope, x, out)?;
    put_word(behind, out)
}

// An aggregate of a group's rows.
fn put_fold(
    scope: &Scope<'_>,
    f: Aggregate,
    each: Taken,
    x: &Gx,
    out: &mut Text,
) -> Result<(), OutOfMemory>
    ensures { OnOk result (out.new ≡ out.old ++ text.fold_text (aggregate f) (taken each) (spec.term_text scope.now (term x.now))) }
{
    match f {
        Aggregate::Single => put_argument(scope, b"ARRAY_AGG(", Taken::All, x, b")", out),
        Aggregate::Count => put_argument(scope, b"COUNT(", each, x, b")", out),
        Aggregate::Sum => put_argument(scope, b"SUM(", each, x, b")", out),
        Aggregate::Avg => {
            put_argument(scope, b"DIV(SUM(", each, x, b"), ", out)?;
            put_argument(scope, b"COUNT(", each, x, b"))", out)
        }
        Aggregate::Min => put_argument(scope, b"MIN(", each, x, b")", out),
        Aggregate::Max => put_argument(scope, b"MAX(", each, x, b")", out),
    }
}

// A cell in the list of the group.
fn put_group_cell(scope: &Scope<'_>, x: &Gx, out: &mut Text) -> Result<(), OutOfMemory>
    ensures { OnOk result (out.new ≡ out.old ++ lists.group_cell_text scope.now (term x.now)) }
{
    match group_of(x) {
        Grouped::Cell(a) => put_term(scope, a, out),
        Grouped::CountAll => put_word(b"COUNT(*)", out),
        Grouped::Folded(f, each, a) => put_fold(scope, f, each, a, out),
    }
}

// A cell behind another one.
fn put_next_group_cell(scope: &Scope<'_>, x: &Gx, out: &mut Text) -> Result<(), OutOfMemory>
    ensures { OnOk result (out.new ≡ out.old ++ lists.next_group_cell scope.now (term x.now)) }
{
    put_word(b", ", out)?;
    put_group_cell(scope, x, out)
}

// Cells behind a first one.
fn put_more_group_cells(scope: &Scope<'_>, list: &[Gx], out: &mut Text) -> Result<(), OutOfMemory>
    ensures { OnOk result (out.new ≡ out.old ++ lists.more_group_cells scope.now (terms list.now)) }
{
    for x in list {
        put_next_group_cell(scope, x, out)?;
    }
    Ok(())
}

/// Adds the cells of a group within it.
pub fn put_group_cells(scope: &Scope<'_>, list: &[Gx], out: &mut Text) -> Result<(), OutOfMemory>
    ensures { OnOk result (out.new ≡ out.old ++ lists.group_cells_text scope.now (terms list.now)) }
{
    match list {
        [] => put_word(b"1", out),
        [first, rest @ ..] => {
            put_group_cell(scope, first, out)?;
            put_more_group_cells(scope, rest, out)
        }
    }
}

// A number between two words.
fn put_around(before: &[u8], k: usize, behind: &[u8], out: &mut Text) -> Result<(), OutOfMemory>
    ensures { OnOk result (out.new ≡ out.old ++ (before.now ++ decimal k ++ behind.now)) }
{
    put_before(before, k, out)?;
    put_word(behind, out)
}

// An aggregate at place k of a group, outside it.
fn put_over_fold(f: Aggregate, k: usize, out: &mut Text) -> Result<(), OutOfMemory>
    ensures { OnOk result (out.new ≡ out.old ++ text.over_fold (aggregate f) k) }
{
    match f {
        Aggregate::Single => put_around(b"(SELECT u.c1 FROM UNNEST(g.c", k, b") AS u (c1))", out),
        Aggregate::Sum | Aggregate::Avg => put_around(b"CAST(g.c", k, b" AS bigint)", out),
        Aggregate::Count | Aggregate::Min | Aggregate::Max => put_before(b"g.c", k, out),
    }
}

// The cell at place k of a group, outside it.
fn put_over(k: usize, x: &Gx, out: &mut Text) -> Result<(), OutOfMemory>
    ensures { (n : Names (List ℕ)) → OnOk result (out.new ≡ out.old ++ text.over_text k (group_cell n (term x.now))) }
{
    match group_of(x) {
        Grouped::Cell(_) | Grouped::CountAll => put_before(b"g.c", k, out),
        Grouped::Folded(f, _, _) => put_over_fold(f, k, out),
    }
}

/// Adds the cells of a group outside it.
pub fn put_overs(list: &[Gx], out: &mut Text) -> Result<(), OutOfMemory>
    ensures { (n : Names (List ℕ)) → OnOk result (out.new ≡ out.old ++ text.overs_text 0 (lists.group_cells n (terms list.now))) }
{
    for i in 0..list.len() {
        put_comma(i, out)?;
        put_over(i + 1, &list[i], out)?;
    }
    Ok(())
}

// What makes one group of all rows where it has no cell.
fn put_having(list: &[Gx], out: &mut Text) -> Result<(), OutOfMemory>
    ensures { OnOk result (out.new ≡ out.old ++ text.having_text (terms list.now)) }
{
    match list {
        [] => put_word(b" HAVING TRUE", out),
        [_, ..] => Ok(()),
    }
}

/// Adds the keys of a group by their places.
pub fn put_by(keys: usize, list: &[Gx], out: &mut Text) -> Result<(), OutOfMemory>
    ensures { OnOk result (out.new ≡ out.old ++ text.by_text keys (terms list.now)) }
{
    if keys == 0 {
        put_having(list, out)
    } else {
        put_word(b" GROUP BY ", out)?;
        put_numbered(Listed::Number, keys, out)
    }
}
