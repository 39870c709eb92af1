// Lists of cells, FROM and WHERE.
ghost use Rattle.std.specs.Prelude.{◌≡◌, ◌++◌, map, take, filter, IfOk, None, OnOk};
ghost use Rattle.graph_sql.specs.BodyText.{leading_range};
ghost use Rattle.graph_sql.specs.Lists as lists;
ghost use Rattle.graph_sql.specs.Scoped as spec;
ghost use Rattle.graph_sql.specs.declared.reading.Reading.TheVariants as reading;
ghost use Rattle.qgm_core.specs.Kinds.{is_F};
ghost use Rattle.qgm_terms.specs.Shown.{cond, conds, term, terms};

use crate::reading::Reading;
use crate::scope::{Scope, put_range};
use crate::terms::{put_cond, put_term};
use graph_print::put_word;
use qgm_core::OwnedQuant;
use qgm_terms::{Gc, Gx, QuantId};
use shared_types::{OutOfMemory, Text};
use std::alloc::Global;

/// The numbers of the F quantifiers.
pub fn each_id(alloc: Global, ranges: &[OwnedQuant]) -> Result<Vec<QuantId>, OutOfMemory>
    ensures { IfOk result (λ v. v.items ≡ map (λ r. r.id) (filter (λ r. is_F r.kind) ranges.now)) }
{
    Ok(
        ranges
            .iter()
            .filter(|r| r.kind.is_f())
            .map(|r| r.id)
            .collect(alloc)?,
    )
}

/// The numbers of the first quantifiers, so many at most.
pub fn first_ids(
    alloc: Global,
    ranges: &[OwnedQuant],
    n: usize,
) -> Result<Vec<QuantId>, OutOfMemory>
    ensures { IfOk result (λ v. v.items ≡ map (λ r. r.id) (take n ranges.now)) }
{
    Ok(ranges.iter().take(n).map(|r| r.id).collect(alloc)?)
}

// A cell behind another one.
fn put_next_cell(scope: &Scope<'_>, x: &Gx, out: &mut Text) -> Result<(), OutOfMemory>
    ensures { OnOk result (out.new ≡ out.old ++ lists.next_cell scope.now (term x.now)) }
{
    put_word(b", ", out)?;
    put_term(scope, x, out)
}

// Cells behind a first one.
fn put_more_cells(scope: &Scope<'_>, list: &[Gx], out: &mut Text) -> Result<(), OutOfMemory>
    ensures { OnOk result (out.new ≡ out.old ++ lists.more_cells scope.now (terms list.now)) }
{
    for x in list {
        put_next_cell(scope, x, out)?;
    }
    Ok(())
}

/// Adds the cells of a head.
pub fn put_cells(scope: &Scope<'_>, list: &[Gx], out: &mut Text) -> Result<(), OutOfMemory>
    ensures { OnOk result (out.new ≡ out.old ++ lists.cells_text scope.now (terms list.now)) }
{
    match list {
        [] => put_word(b"1", out),
        [first, rest @ ..] => {
            put_term(scope, first, out)?;
            put_more_cells(scope, rest, out)
        }
    }
}

// FROM items behind a first one, each behind a word.
fn put_more_ranges(
    scope: &Scope<'_>,
    word: &[u8],
    list: &[QuantId],
    out: &mut Text,
) -> Result<(), OutOfMemory>
    ensures { OnOk result (out.new ≡ out.old ++ lists.more_ranges scope.now word.now list.now) }
{
    for q in list {
        put_word(word, out)?;
        put_range(scope, *q, out)?;
    }
    Ok(())
}

/// Adds FROM, with a word between its items.
pub fn put_from(
    scope: &Scope<'_>,
    word: &[u8],
    list: &[QuantId],
    out: &mut Text,
) -> Result<(), OutOfMemory>
    ensures { OnOk result (out.new ≡ out.old ++ lists.ranges_text scope.now word.now list.now) }
{
    match list {
        [] => Ok(()),
        [first, rest @ ..] => {
            put_word(b" FROM ", out)?;
            put_range(scope, *first, out)?;
            put_more_ranges(scope, word, rest, out)
        }
    }
}

// A condition behind another one.
fn put_next_test(scope: &Scope<'_>, c: &Gc, out: &mut Text) -> Result<(), OutOfMemory>
    ensures { OnOk result (out.new ≡ out.old ++ lists.next_test scope.now (cond c.now)) }
{
    put_word(b" AND ", out)?;
    put_cond(scope, None, Reading::True, c, out)
}

// Conditions behind a first one.
fn put_more_tests(scope: &Scope<'_>, list: &[Gc], out: &mut Text) -> Result<(), OutOfMemory>
    ensures { OnOk result (out.new ≡ out.old ++ lists.more_tests scope.now (conds list.now)) }
{
    for c in list {
        put_next_test(scope, c, out)?;
    }
    Ok(())
}

// A condition and others.
fn put_all(scope: &Scope<'_>, first: &Gc, rest: &[Gc], out: &mut Text) -> Result<(), OutOfMemory>
    ensures { OnOk result (out.new ≡ out.old ++ (spec.cond_text scope.now None reading.True (cond first.now) ++ lists.more_tests scope.now (conds rest.now))) }
{
    put_cond(scope, None, Reading::True, first, out)?;
    put_more_tests(scope, rest, out)
}

/// Adds a word and conditions that are true; another word where there are none.
pub fn put_tests(
    scope: &Scope<'_>,
    word: &[u8],
    none: &[u8],
    list: &[Gc],
    out: &mut Text,
) -> Result<(), OutOfMemory>
    ensures { OnOk result (out.new ≡ out.old ++ lists.tests_text scope.now word.now none.now (conds list.now)) }
{
    match list {
        [] => put_word(none, out),
        [first, rest @ ..] => {
            put_word(word, out)?;
            put_all(scope, first, rest, out)
        }
    }
}

// A FROM item, and a comma.
fn put_leading_range(scope: &Scope<'_>, q: QuantId, out: &mut Text) -> Result<(), OutOfMemory>
    ensures { OnOk result (out.new ≡ out.old ++ leading_range ((spec.names_in scope.now).range q)) }
{
    put_range(scope, q, out)?;
    put_word(b", ", out)
}

/// Adds FROM items, each with a comma behind it.
pub fn put_leading_ranges(
    scope: &Scope<'_>,
    list: &[QuantId],
    out: &mut Text,
) -> Result<(), OutOfMemory>
    ensures { OnOk result (out.new ≡ out.old ++ lists.leading_ranges scope.now list.now) }
{
    for q in list {
        put_leading_range(scope, *q, out)?;
    }
    Ok(())
}

// A condition, and AND.
fn put_leading_test(scope: &Scope<'_>, c: &Gc, out: &mut Text) -> Result<(), OutOfMemory>
    ensures { OnOk result (out.new ≡ out.old ++ lists.leading_test scope.now (cond c.now)) }
{
    put_cond(scope, None, Reading::True, c, out)?;
    put_word(b" AND ", out)
}

/// Adds conditions that are true, each with AND behind it.
pub fn put_leading_tests(scope: &Scope<'_>, list: &[Gc], out: &mut Text) -> Result<(), OutOfMemory>
    ensures { OnOk result (out.new ≡ out.old ++ lists.leading_tests scope.now (conds list.now)) }
{
    for c in list {
        put_leading_test(scope, c, out)?;
    }
    Ok(())
}
