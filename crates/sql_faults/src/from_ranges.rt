// The ranges of a FROM, with what each name finds among their columns.
ghost use Rattle.std.specs.Prelude.{◌≡◌, ◌++◌, ◌∷◌, [], IfOk, OnOk};
ghost use Rattle.sql_faults.specs.Columns.{all_columns};
ghost use Rattle.sql_faults.specs.Found as spec;
ghost use Rattle.sql_faults.specs.Scopes.{named_in};

use crate::column::{TypedColumn, TypedRange};
use crate::found::Found;
use indexmap::IndexMap;
use shared_types::OutOfMemory;
use sql_text::Name;
use sql_value::SqlType;
use sqlite_items::Items;
use std::alloc::Global;
use std::marker::Model;

/// What names find among columns; a name that isn't noted finds nothing.
type Finds = IndexMap<Name, Found>;

/// The ranges of a FROM, in order. What each name finds among all their columns is noted once, so
/// that no name is sought column by column in each scope round it. Contracts see the ranges.
#[derive(Drop)]
pub(crate) struct FromRanges {
    ranges: Items<TypedRange>,
    finds: Finds,
}

impl Model for FromRanges {
    ghost use Rattle.std.specs.Prelude.{List};
    ghost use Rattle.sql_faults.specs.Found.{Tells};
    ghost use Rattle.sql_faults.specs.declared.column.TypedRange.{TypedRange};

    ghost Value = { List TypedRange };

    ghost view = { λ t. t.ranges };

    ghost invariant = { λ t. Tells t.finds.entries t.ranges };
}

// What is noted of a name.
fn told(finds: &Finds, name: &Name) -> Found
    ensures { result ≡ spec.told_of finds.now.entries name.now }
{
    match finds.get(name) {
        Some(found) => *found,
        None => Found::Nothing,
    }
}

// Notes one more column of this name and type. One after the second changes nothing.
#[tactic(auto, using(crate::proofs::Notes::note_steps))]
fn note_name(
    alloc: Global,
    finds: &mut Finds,
    name: &Name,
    sort: Option<SqlType>,
) -> Result<(), OutOfMemory>
    ensures { OnOk result (spec.NotedName finds.old.entries name.now sort finds.new.entries) }
{
    let next = match told(finds, name) {
        Found::Nothing => Found::One(sort),
        Found::One(first) => Found::Several(first),
        Found::Several(_) => return Ok(()),
    };
    finds.insert(name.copy(alloc)?, next)?;
    Ok(())
}

// Notes one more column.
#[tactic(auto, using(crate::proofs::Notes::column_steps))]
fn note(alloc: Global, finds: &mut Finds, column: &TypedColumn) -> Result<(), OutOfMemory>
    ensures { OnOk result (spec.Noted finds.old.entries (column.now ∷ []) finds.new.entries) }
{
    match &column.name {
        Some(name) => note_name(alloc, finds, name, column.sort),
        None => Ok(()),
    }
}

// Notes more columns.
#[tactic(auto, using(crate::proofs::Notes::noted_steps))]
fn note_columns(
    alloc: Global,
    finds: &mut Finds,
    columns: &[TypedColumn],
) -> Result<(), OutOfMemory>
    ensures { OnOk result (spec.Noted finds.old.entries columns.now finds.new.entries) }
{
    for column in columns {
        note(alloc, finds, column)?;
    }
    Ok(())
}

// Notes the columns of more ranges.
#[tactic(auto, using(crate::proofs::Notes::noted_steps))]
fn note_ranges(alloc: Global, finds: &mut Finds, ranges: &[TypedRange]) -> Result<(), OutOfMemory>
    ensures { OnOk result (spec.Noted finds.old.entries (all_columns ranges.now) finds.new.entries) }
{
    for range in ranges {
        note_columns(alloc, finds, range.columns.as_slice())?;
    }
    Ok(())
}

impl FromRanges {
    /// No range.
    pub(crate) fn none(alloc: Global) -> FromRanges
        ensures { result ≡ [] }
    {
        FromRanges {
            ranges: Items::new(alloc),
            finds: IndexMap::new(alloc),
        }
    }

    /// One range.
    pub(crate) fn one(alloc: Global, range: TypedRange) -> Result<FromRanges, OutOfMemory>
        ensures { IfOk result (λ ranges. ranges ≡ range ∷ []) }
    {
        let mut finds = IndexMap::new(alloc);
        note_columns(alloc, &mut finds, range.columns.as_slice())?;
        let mut ranges = Items::new(alloc);
        ranges.push(range)?;
        Ok(FromRanges { ranges, finds })
    }

    /// The ranges of both. Only the columns of the right ones are noted anew, so that a chain of joins
    /// notes each column twice at most.
    pub(crate) fn join(
        alloc: Global,
        left: FromRanges,
        right: FromRanges,
    ) -> Result<FromRanges, OutOfMemory>
        ensures { IfOk result (λ ranges. ranges ≡ left ++ right) }
    {
        let FromRanges {
            mut ranges,
            mut finds,
        } = left;
        note_ranges(alloc, &mut finds, right.ranges.as_slice())?;
        let FromRanges { ranges: more, .. } = right;
        ranges.append(more)?;
        Ok(FromRanges { ranges, finds })
    }

    /// The ranges.
    pub(crate) fn ranges(&self) -> &[TypedRange]
        ensures { result.now ≡ self.now }
    {
        self.ranges.as_slice()
    }

    /// What a name finds among the columns.
    #[tactic(auto, using(crate::proofs::Notes::find_named))]
    pub(crate) fn find(&self, name: &Name) -> Found
        ensures { result ≡ spec.found (named_in name.now self.now) }
    {
        told(&self.finds, name)
    }
}
