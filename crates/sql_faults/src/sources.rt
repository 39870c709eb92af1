// The ranges of a FROM, put together from those of its parts.
ghost use Rattle.std.specs.Prelude.{◌≡◌, ◌++◌, ◌∷◌, [], map, IfOk, IsOkAnd};
ghost use Rattle.sql_ast.specs.Names as names;
ghost use Rattle.sql_meaning.specs.Names as meaning;
ghost use Rattle.sql_faults.specs.Columns as types;
ghost use Rattle.sql_faults.specs.Faults as spec;
ghost use Rattle.sql_faults.specs.Numbers.{number};
ghost use Rattle.sql_faults.specs.Rules as rule;
ghost use Rattle.sql_faults.specs.Shown.{heads};

use crate::column::{Columns, TypedRange, renamed};
use crate::fault::{Fault, fault_if, lesser};
use crate::from_ranges::FromRanges;
use crate::known::{Known, columns_of};
use crate::operands::list_fault;
use crate::typed::Output;
use shared_types::OutOfMemory;
use sql_ast::Correlation;
use sql_text::Name;
use sqlite_items::Items;
use std::alloc::Global;

/// FromRanges of a FROM, and the least of their faults.
#[derive(Drop)]
pub(crate) struct Source {
    pub tables: FromRanges,
    pub fault: Option<Fault>,
}

// The tables of both.
pub(crate) fn both(
    alloc: Global,
    left: Result<Source, OutOfMemory>,
    right: Result<Source, OutOfMemory>,
) -> Result<Source, OutOfMemory>
    ensures tables { IfOk result (λ s. IsOkAnd left (λ a. IsOkAnd right (λ b. s.tables ≡ a.tables ++ b.tables))) }
    ensures fault { IfOk result (λ s. IsOkAnd left (λ a. IsOkAnd right (λ b. number s.fault ≡ rule.lesser (number a.fault) (number b.fault)))) }
{
    let left = left?;
    let right = right?;
    let fault = lesser(left.fault, right.fault);
    Ok(Source {
        tables: FromRanges::join(alloc, left.tables, right.tables)?,
        fault,
    })
}

// One range.
fn one(
    alloc: Global,
    name: &Name,
    columns: Columns,
    fault: Option<Fault>,
) -> Result<Source, OutOfMemory>
    ensures tables { IfOk result (λ s. s.tables ≡ types.range name.now columns ∷ []) }
    ensures fault { IfOk result (λ s. number s.fault ≡ number fault) }
{
    let name = name.copy(alloc)?;
    Ok(Source {
        tables: FromRanges::one(alloc, TypedRange { name, columns })?,
        fault,
    })
}

// One range of these columns, renamed by a column list where one is written.
fn ranged(alloc: Global, name: &Name, list: &[Name], found: Output) -> Result<Source, OutOfMemory>
    ensures tables { IfOk result (λ s. s.tables ≡ types.range name.now (types.renamed list.now found.columns) ∷ []) }
    ensures fault { IfOk result (λ s. number s.fault ≡ rule.lesser (number found.fault) (spec.list_fault list.now found.columns)) }
{
    let fault = lesser(found.fault, list_fault(list, found.columns.as_slice()));
    let columns = renamed(alloc, list, found.columns)?;
    one(alloc, name, columns, fault)
}

// A subquery of a FROM.
pub(crate) fn derived(
    alloc: Global,
    found: Result<Output, OutOfMemory>,
    alias: &Correlation,
) -> Result<Source, OutOfMemory>
    ensures tables { IfOk result (λ s. IsOkAnd found (λ q. s.tables ≡ types.derived_range alias.now q.columns ∷ [])) }
    ensures fault { IfOk result (λ s. IsOkAnd found (λ q. number s.fault ≡ rule.lesser (number q.fault) (spec.list_fault alias.now.columns q.columns))) }
{
    ranged(alloc, &alias.name, alias.columns.as_slice(), found?)
}

// The range name of a table: its alias, else the table's name.
fn range_name<'a>(name: &'a Name, alias: &'a Option<Correlation>) -> &'a Name
    ensures { result.now ≡ meaning.range_name name.now alias.now }
{
    match alias {
        Some(alias) => &alias.name,
        None => name,
    }
}

// The column list after a table; none is written where it is empty.
fn column_list(alias: &Option<Correlation>) -> &[Name]
    ensures { result.now ≡ meaning.column_list alias.now }
{
    match alias {
        Some(alias) => alias.columns.as_slice(),
        None => &[],
    }
}

// The fault of a table's name; its columns, which are none where it is unknown.
fn table(alloc: Global, name: &Name, known: &Known<'_>) -> Result<Output, OutOfMemory>
    ensures columns { IfOk result (λ x. x.columns ≡ types.columns_or_none (heads known.now name.now)) }
    ensures fault { IfOk result (λ x. number x.fault ≡ rule.table_unknown (heads known.now name.now)) }
{
    match columns_of(alloc, known, name)? {
        Some(columns) => Ok(Output {
            columns,
            fault: None,
        }),
        None => Ok(Output {
            columns: Items::new(alloc),
            fault: Some(Fault::UnknownTable),
        }),
    }
}

// A table or view of a FROM.
pub(crate) fn named(
    alloc: Global,
    name: &Name,
    alias: &Option<Correlation>,
    known: &Known<'_>,
) -> Result<Source, OutOfMemory>
    ensures tables { IfOk result (λ s. s.tables ≡ types.named_range name.now alias.now (heads known.now name.now) ∷ []) }
    ensures fault { IfOk result (λ s. number s.fault ≡ spec.named_fault alias.now (heads known.now name.now)) }
{
    let found = table(alloc, name, known)?;
    ranged(alloc, range_name(name, alias), column_list(alias), found)
}

// Whether one of these ranges has this name.
fn has_range(ranges: &[TypedRange], name: &Name) -> bool
    ensures { result ≡ names.contains (map (λ r. r.name) ranges.now) name.now }
{
    for range in ranges {
        if range.name == *name {
            return true;
        }
    }
    false
}

// Whether two of these ranges have one name.
fn have_twins(ranges: &[TypedRange]) -> bool
    ensures { result ≡ names.has_twins (map (λ r. r.name) ranges.now) }
{
    let mut rest = ranges;
    while let [first, others @ ..] = rest {
        if has_range(others, &first.name) {
            return true;
        }
        rest = others;
    }
    false
}

// The fault of two equal ranges.
pub(crate) fn ranges_equal(ranges: &[TypedRange]) -> Option<Fault>
    ensures { number result ≡ rule.ranges_equal ranges.now }
{
    fault_if(have_twins(ranges), Fault::DuplicateRange)
}

// No table yet.
pub(crate) fn no_source(alloc: Global) -> Source
    ensures tables { result.tables ≡ [] }
    ensures fault { number result.fault ≡ 0 }
{
    Source {
        tables: FromRanges::none(alloc),
        fault: None,
    }
}

// Operands of a join with the fault of its ON.
pub(crate) fn with_fault(
    operands: Source,
    on: Result<Option<Fault>, OutOfMemory>,
) -> Result<Source, OutOfMemory>
    ensures tables { IfOk result (λ s. s.tables ≡ operands.tables) }
    ensures fault { IfOk result (λ s. IsOkAnd on (λ f. number s.fault ≡ rule.lesser (number operands.fault) (number f))) }
{
    Ok(Source {
        fault: lesser(operands.fault, on?),
        tables: operands.tables,
    })
}

// The output of a block: that of its list, with the faults of its FROM and of what stands between.
pub(crate) fn block_output(
    from: &Source,
    before: Result<Option<Fault>, OutOfMemory>,
    after: Result<Output, OutOfMemory>,
) -> Result<Output, OutOfMemory>
    ensures columns { IfOk result (λ x. IsOkAnd after (λ q. x.columns ≡ q.columns)) }
    ensures fault { IfOk result (λ x. IsOkAnd before (λ b. IsOkAnd after (λ q. number x.fault ≡ rule.lesser (rule.lesser (number from.now.fault) (rule.ranges_equal from.now.tables)) (rule.lesser (number b) (number q.fault))))) }
{
    let before = before?;
    let after = after?;
    let tables = lesser(from.fault, ranges_equal(from.tables.ranges()));
    Ok(Output {
        fault: lesser(tables, lesser(before, after.fault)),
        columns: after.columns,
    })
}
