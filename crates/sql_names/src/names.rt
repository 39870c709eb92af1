// The names of the columns of tables of a FROM and of select lists (SQL-92, 6.3 and 7.9).
ghost use Rattle.std.specs.Prelude.{◌≡◌, ◌++◌, ◌∷◌, [], option_map, Some, IfOk, OnOk};
ghost use Rattle.sql_ast.specs.Shown as written;
ghost use Rattle.sql_meaning.specs.Names as spec;
ghost use Rattle.sql_meaning.specs.Scopes.{columns_in, columns_of_range};
ghost use Rattle.sql_names.specs.Places.{names_in};
ghost use Rattle.sql_names.specs.Resolved.{bare, named_range};
ghost use Rattle.sql_names.specs.Shapes.{columns_of, shape, shapes};

use crate::boxes::push;
use crate::place::span_of;
use crate::range::Range;
use crate::scope::{Scope, Setting, Shapes};
use shared_types::{OutOfMemory, Text};
use sql_ast::{Correlation, Item, SelectList};
use sql_meaning::item_name;
use sql_value::OutNames;
use sqlite_items::Items;
use std::alloc::Global;

// A name that may be there.
fn copied(alloc: Global, name: &Option<Text>) -> Result<Option<Text>, OutOfMemory>
    ensures { IfOk result (λ x. x ≡ name.now) }
{
    match name {
        Some(name) => Ok(Some(name.copy(alloc)?)),
        None => Ok(None),
    }
}

// Adds a name at the end.
fn push_name(alloc: Global, name: &Text, out: &mut OutNames) -> Result<(), OutOfMemory>
    ensures { OnOk result (out.new ≡ out.old ++ Some name.now ∷ []) }
{
    push(out, Some(name.copy(alloc)?))
}

// Adds a name that may be there at the end.
fn push_copy(alloc: Global, name: &Option<Text>, out: &mut OutNames) -> Result<(), OutOfMemory>
    ensures { OnOk result (out.new ≡ out.old ++ name.now ∷ []) }
{
    push(out, copied(alloc, name)?)
}

// Adds names at the end.
fn push_names(
    alloc: Global,
    out: &mut OutNames,
    columns: &[Option<Text>],
) -> Result<(), OutOfMemory>
    ensures { OnOk result (out.new ≡ out.old ++ columns.now) }
{
    for column in columns {
        push_copy(alloc, column, out)?;
    }
    Ok(())
}

// The range name: the alias, else the table's name.
fn range_name<'a>(name: &'a Text, alias: &'a Option<Correlation>) -> &'a Text
    ensures { result.now ≡ spec.range_name name.now alias.now }
{
    match alias {
        Some(alias) => &alias.name,
        None => name,
    }
}

// Adds as many names as there are columns: those of a list, in order, and then none.
fn push_listed(
    alloc: Global,
    names: &[Text],
    columns: &[Option<Text>],
    out: &mut OutNames,
) -> Result<(), OutOfMemory>
    ensures { OnOk result (out.new ≡ out.old ++ spec.listed names.now columns.now) }
{
    match columns.split_first() {
        None => Ok(()),
        Some((_, rest)) => match names.split_first() {
            Some((name, more)) => {
                push_name(alloc, name, out)?;
                push_listed(alloc, more, rest, out)
            }
            None => {
                push(out, None)?;
                push_listed(alloc, names, rest, out)
            }
        },
    }
}

/// Columns renamed by a column list, where one is written.
pub(crate) fn renamed(
    alloc: Global,
    names: &[Text],
    columns: &[Option<Text>],
) -> Result<OutNames, OutOfMemory>
    ensures { IfOk result (λ out. out ≡ spec.renamed names.now columns.now) }
{
    let mut out = Items::new(alloc);
    match names {
        [] => push_names(alloc, &mut out, columns)?,
        [_, ..] => push_listed(alloc, names, columns, &mut out)?,
    }
    Ok(out)
}

// The column list after an alias; none is written where it is empty.
fn column_list(alias: &Option<Correlation>) -> &[Text]
    ensures { result.now ≡ spec.column_list alias.now }
{
    match alias {
        None => &[],
        Some(alias) => alias.columns.as_slice(),
    }
}

// The columns of the first of these tables and views that has a name.
fn columns_named<'a>(name: &Text, known: &'a [Range]) -> Option<&'a [Option<Text>]>
    ensures { option_map (λ c. c.now) result ≡ columns_in name.now (shape known.now) }
{
    match known.split_first() {
        None => None,
        Some((range, rest)) => {
            if range.name == *name {
                Some(range.columns.as_slice())
            } else {
                columns_named(name, rest)
            }
        }
    }
}

// The columns of a table or view under a column list; none where there is no such table.
fn named_columns(
    setting: &Setting<'_>,
    name: &Text,
    alias: &Option<Correlation>,
) -> Result<OutNames, OutOfMemory>
    ensures { IfOk result (λ out. out ≡ spec.columns_of (spec.under (spec.column_list alias.now) (bare (columns_of setting.now) name.now))) }
{
    match columns_named(name, setting.known) {
        None => Ok(Items::new(setting.alloc)),
        Some(columns) => renamed(setting.alloc, column_list(alias), columns),
    }
}

// The columns of the range of a name in the innermost scope that has one; none where there is none.
#[tactic(auto, using(crate::proofs::Spans::columns_spanned))]
fn range_columns<'a>(name: &Text, s: &Shapes<'a>) -> Result<&'a [Option<Text>], OutOfMemory>
    ensures { IfOk result (λ c. c.now ≡ columns_of_range name.now (shapes s.now)) }
{
    match span_of(name, s)? {
        Some(found) => Ok(found.columns),
        None => Ok(&[]),
    }
}

// Adds the names of an item of a list at the end.
fn push_item_names(
    alloc: Global,
    item: &Item,
    s: &Shapes<'_>,
    out: &mut OutNames,
) -> Result<(), OutOfMemory>
    ensures { OnOk result (out.new ≡ out.old ++ spec.item_names (written.item item.now) (shapes s.now)) }
{
    match item {
        Item::Value(x, alias) => push(out, item_name(alloc, x, alias)?),
        Item::AllOf(name) => push_names(alloc, out, range_columns(name, s)?),
    }
}

// The same of items.
fn push_items_names(
    alloc: Global,
    items: &[Item],
    s: &Shapes<'_>,
    out: &mut OutNames,
) -> Result<(), OutOfMemory>
    ensures { OnOk result (out.new ≡ out.old ++ spec.items_names (written.item_list items.now) (shapes s.now)) }
{
    for item in items {
        push_item_names(alloc, item, s, out)?;
    }
    Ok(())
}

// Adds the names of all columns of a FROM at the end.
fn push_all_names(alloc: Global, ranges: &[Range], out: &mut OutNames) -> Result<(), OutOfMemory>
    ensures { OnOk result (out.new ≡ out.old ++ names_in (shape ranges.now)) }
{
    for range in ranges {
        push_names(alloc, out, range.columns.as_slice())?;
    }
    Ok(())
}

/// The names of a list, over the scope of its block. The error is want of memory.
#[tactic(auto, using(sql_ast::specs::Shown::lists))]
pub(crate) fn list_names(
    alloc: Global,
    list: &SelectList,
    scope: &Scope,
    s: &Shapes<'_>,
) -> Result<OutNames, OutOfMemory>
    ensures { IfOk result (λ out. out ≡ spec.list_names (written.select_list list.now) scope.now (shapes s.now)) }
{
    let mut out = Items::new(alloc);
    match list {
        SelectList::All => push_all_names(alloc, scope.ranges(), &mut out)?,
        SelectList::Items(items) => push_items_names(
            alloc,
            items.as_slice(),
            &Shapes::Inside(scope, &*s),
            &mut out,
        )?,
    }
    Ok(out)
}

/// The scope of a table or view in a FROM. The error is want of memory.
pub(crate) fn named_scope(
    setting: &Setting<'_>,
    name: &Text,
    alias: &Option<Correlation>,
) -> Result<Scope, OutOfMemory>
    ensures { IfOk result (λ scope. scope ≡ named_range (columns_of setting.now) name.now alias.now ∷ []) }
{
    let columns = named_columns(setting, name, alias)?;
    let name = range_name(name, alias).copy(setting.alloc)?;
    Scope::lone(setting.alloc, Range { name, columns })
}

/// The scope of a subquery in a FROM that gives these columns. The error is want of memory.
pub(crate) fn derived_scope(
    alloc: Global,
    alias: &Correlation,
    columns: &[Option<Text>],
) -> Result<Scope, OutOfMemory>
    ensures { IfOk result (λ scope. scope ≡ (alias.now.name, spec.renamed alias.now.columns columns.now) ∷ []) }
{
    let columns = renamed(alloc, alias.columns.as_slice(), columns)?;
    let name = alias.name.copy(alloc)?;
    Scope::lone(alloc, Range { name, columns })
}
