// The list of a SELECT: its output columns, put together.
ghost use Rattle.std.specs.Prelude.{◌≡◌, ◌++◌, ◌∷◌, [], not, option_map, IfOk, IsOkAnd, OnOk};
ghost use Rattle.sql_ast.specs.Shown as written;
ghost use Rattle.sql_meaning.specs.Names as meaning;
ghost use Rattle.sql_faults.specs.Columns as types;
ghost use Rattle.sql_faults.specs.Faults as spec;
ghost use Rattle.sql_faults.specs.Numbers.{number};
ghost use Rattle.sql_faults.specs.Rules as rule;
ghost use Rattle.sql_faults.specs.Scopes as scope;
ghost use Rattle.sql_faults.specs.Shown.{scopes};

use crate::column::{Columns, TypedColumn, TypedRange, push_copies};
use crate::fault::{Fault, fault_if, lesser};
use crate::from_ranges::FromRanges;
use crate::scope::{Scopes, Star, is_star_barred, star_of};
use crate::typed::{Output, Typed};
use shared_types::OutOfMemory;
use sql_ast::{Alias, Block, Expr};
use sql_meaning::{is_grouped, item_name};
use sql_text::Name;
use std::alloc::Global;

// Adds all columns of these ranges at the end.
fn push_ranges(alloc: Global, out: &mut Columns, ranges: &[TypedRange]) -> Result<(), OutOfMemory>
    ensures { OnOk result (out.new ≡ out.old ++ types.all_columns ranges.now) }
{
    for range in ranges {
        push_copies(alloc, out, range.columns.as_slice())?;
    }
    Ok(())
}

// Adds `*` at the end: all columns of the innermost FROM.
#[tactic(auto, using(crate::proofs::Targets::star_column_steps))]
pub(crate) fn push_star(
    alloc: Global,
    out: &mut Output,
    inner: &Scopes<'_>,
) -> Result<(), OutOfMemory>
    ensures columns { OnOk result (out.new.columns ≡ out.old.columns ++ types.star_columns (scopes inner.now)) }
    ensures fault { OnOk result (number out.new.fault ≡ rule.lesser (number out.old.fault) (rule.star_ungrouped (scopes inner.now))) }
{
    match inner {
        Scopes::Outermost => Ok(()),
        Scopes::Plain(tables, _) => push_ranges(alloc, &mut out.columns, tables.ranges()),
        Scopes::Grouped(tables, by, _) => {
            let barred = is_star_barred(by, tables.ranges());
            out.fault = lesser(out.fault, fault_if(barred, Fault::Grouping));
            push_ranges(alloc, &mut out.columns, tables.ranges())
        }
        Scopes::Released(outer) => {
            let fault = out.fault;
            push_star(alloc, out, outer)?;
            out.fault = fault;
            Ok(())
        }
    }
}

// Adds the columns of a range that was found at the end.
fn push_range(
    alloc: Global,
    out: &mut Columns,
    range: Option<&TypedRange>,
) -> Result<(), OutOfMemory>
    ensures { OnOk result (out.new ≡ out.old ++ types.range_columns (option_map (λ r. r.now) range.entry)) }
{
    match range {
        Some(range) => push_copies(alloc, out, range.columns.as_slice()),
        None => Ok(()),
    }
}

// The fault of `r.*`.
fn range_fault(star: &Star<'_>) -> Option<Fault>
    ensures { number result ≡ rule.lesser (rule.fault_if (not (scope.is_some star.now.range)) 8) (rule.fault_if star.now.barred 12) }
{
    let unknown = fault_if(star.range.is_none(), Fault::UnknownColumn);
    lesser(unknown, fault_if(star.barred, Fault::Grouping))
}

// Adds `r.*` at the end.
pub(crate) fn push_range_star(
    alloc: Global,
    out: &mut Output,
    name: &Name,
    inner: &Scopes<'_>,
) -> Result<(), OutOfMemory>
    ensures columns { OnOk result (out.new.columns ≡ out.old.columns ++ types.range_columns (scope.range_of name.now (scopes inner.now))) }
    ensures fault { OnOk result (number out.new.fault ≡ rule.lesser (number out.old.fault) (spec.range_fault name.now (scopes inner.now))) }
{
    let star = star_of(name, inner);
    out.fault = lesser(out.fault, range_fault(&star));
    push_range(alloc, &mut out.columns, star.range)
}

// Adds an expression of this type and fault at the end.
pub(crate) fn push_value(
    alloc: Global,
    out: &mut Output,
    x: &Expr,
    alias: &Option<Alias>,
    found: Result<Typed, OutOfMemory>,
) -> Result<(), OutOfMemory>
    ensures columns { OnOk result (IsOkAnd found (λ t. out.new.columns ≡ out.old.columns ++ types.column (meaning.item_name (written.expr x.now) alias.now) t.sort ∷ [])) }
    ensures fault { OnOk result (IsOkAnd found (λ t. number out.new.fault ≡ rule.lesser (number out.old.fault) (number t.fault))) }
{
    let found = found?;
    let name = item_name(alloc, x, alias)?;
    out.fault = lesser(out.fault, found.fault);
    out.columns.push(TypedColumn {
        name,
        sort: found.sort,
    })?;
    Ok(())
}

// The scope that the list and HAVING of a block see first.
pub(crate) fn list_scope<'a>(
    block: &'a Block,
    tables: &'a FromRanges,
    outer: &'a Scopes<'a>,
) -> Scopes<'a>
    ensures { scopes result ≡ types.list_scope (written.select_list block.now.list) block.now.grouping (written.filter block.now.having) tables.now ∷ scopes outer.now }
{
    let by = block.grouping.as_slice();
    if is_grouped(&block.list, by, &block.having) {
        Scopes::Grouped(tables, by, outer)
    } else {
        Scopes::Plain(tables, outer)
    }
}
