// The scopes of FROMs, and what a part of a query sees.
ghost use Rattle.std.specs.Prelude.{◌≡◌, ◌++◌, ◌∷◌, [], ◌<◌, ◌^◌, List, ℕ, Option, IfOk, OnOk};
ghost use Rattle.sql_meaning.specs.Occurrences.{Indexes};
ghost use Rattle.sql_names.specs.Places as spec;
ghost use Rattle.sql_names.specs.Ranges.{shape};
ghost use Rattle.sql_names.specs.Spans.{span};

use crate::boxes::{one, pair};
use crate::range::{Range, Ranges};
use crate::span::Span;
use shared_types::{OutOfMemory, Text};
use sql_meaning::ColumnIndex;
use sqlite_items::Items;
use std::alloc::Global;
use std::marker::Model;
use std::mem;

/// The ranges of a FROM with an index of their columns. Contracts see it as the ranges.
#[derive(Drop)]
pub(crate) struct Scope {
    ranges: Ranges,
    columns: ColumnIndex,
}

impl Model for Scope {
    ghost use Rattle.std.specs.Prelude.{ℕ, List, Option};
    ghost use Rattle.sql_meaning.specs.Occurrences.{Indexes};
    ghost use Rattle.sql_names.specs.Places.{names_in};
    ghost use Rattle.sql_names.specs.Ranges.{shape};

    ghost Value = { List (List ℕ × List (Option (List ℕ))) };

    ghost view = { λ s. shape s.ranges };

    ghost invariant = { λ s. Indexes (names_in (shape s.ranges)) s.columns };
}

/// The scopes of the blocks that enclose a part, the innermost first.
#[derive(Clone, Copy)]
pub(crate) enum Shapes<'a> {
    Outermost,
    Inside(&'a Scope, &'a Shapes<'a>),
}

/// The tables and views that a name may stand for; the first of a name counts.
#[derive(Clone, Copy)]
pub(crate) struct Setting<'a> {
    pub alloc: Global,
    pub known: &'a [Range],
}

// Adds the columns of ranges to an index.
fn add_columns(alloc: Global, index: &mut ColumnIndex, ranges: &[Range]) -> Result<(), OutOfMemory>
    ensures { OnOk result ((before : List (Option (List ℕ))) → Indexes before index.old → Indexes (before ++ spec.names_in (shape ranges.now)) index.new) }
{
    for range in ranges {
        index.append(alloc, range.columns.as_slice())?;
    }
    Ok(())
}

// An index with the columns of ranges added.
fn longer_index(
    alloc: Global,
    mut index: ColumnIndex,
    ranges: &[Range],
) -> Result<ColumnIndex, OutOfMemory>
    ensures { IfOk result (λ longer. (before : List (Option (List ℕ))) → Indexes before index → Indexes (before ++ spec.names_in (shape ranges.now)) longer) }
{
    add_columns(alloc, &mut index, ranges)?;
    Ok(index)
}

// Ranges with those of a scope at their right.
fn with_ranges(mut left: Ranges, right: Scope) -> Result<Ranges, OutOfMemory>
    ensures { IfOk result (λ ranges. shape ranges ≡ shape left ++ right) }
{
    let Scope { ranges, columns: _ } = right;
    left.append(ranges)?;
    Ok(left)
}

// The columns of the first of these ranges that has a name.
fn span_in<'a>(name: &Text, ranges: &'a [Range]) -> Option<Span<'a>>
    requires { spec.width (shape ranges.now) < 2 ^ 64 }
    ensures { span result ≡ spec.span_in name.now (shape ranges.now) }
{
    let mut first = 0;
    for range in ranges {
        if range.name == *name {
            return Some(Span {
                scope: 0,
                first,
                columns: range.columns.as_slice(),
            });
        }
        first += range.columns.len();
    }
    None
}

impl Scope {
    /// The scope of no ranges.
    pub(crate) fn new(alloc: Global) -> Scope
        ensures { result ≡ [] }
    {
        Scope {
            ranges: Items::new(alloc),
            columns: ColumnIndex::new(alloc),
        }
    }

    /// The scope of one range. The error is want of memory.
    pub(crate) fn lone(alloc: Global, range: Range) -> Result<Scope, OutOfMemory>
        ensures { IfOk result (λ scope. scope ≡ (range.name, range.columns) ∷ []) }
    {
        let mut index = ColumnIndex::new(alloc);
        index.append(alloc, range.columns.as_slice())?;
        let ranges = one(alloc, range)?;
        Ok(Scope {
            ranges,
            columns: index,
        })
    }

    /// The scope of these ranges and of those of another at their right. The error is want of
    /// memory.
    pub(crate) fn join(self, alloc: Global, right: Scope) -> Result<Scope, OutOfMemory>
        ensures { IfOk result (λ scope. scope ≡ self ++ right) }
    {
        if self.ranges.is_empty() {
            Ok(right)
        } else {
            self.and_right(alloc, right)
        }
    }

    // The same, also where this scope has no ranges.
    fn and_right(self, alloc: Global, right: Scope) -> Result<Scope, OutOfMemory>
        ensures { IfOk result (λ scope. scope ≡ self ++ right) }
    {
        let Scope { ranges, columns } = self;
        let columns = longer_index(alloc, columns, right.ranges());
        let (ranges, columns) = pair(with_ranges(ranges, right), columns)?;
        Ok(Scope { ranges, columns })
    }

    /// Adds the ranges of another at the right. The error is want of memory.
    pub(crate) fn append(&mut self, alloc: Global, right: Scope) -> Result<(), OutOfMemory>
        ensures { OnOk result (self.new ≡ self.old ++ right) }
    {
        let left = mem::replace(self, Scope::new(alloc));
        *self = left.join(alloc, right)?;
        Ok(())
    }

    /// The ranges.
    pub(crate) fn ranges(&self) -> &[Range]
        ensures { shape result.now ≡ self.now }
    {
        self.ranges.as_slice()
    }

    /// How many columns the FROM has.
    pub(crate) fn width(&self) -> usize
        ensures { result ≡ spec.width self.now }
    {
        self.columns.width()
    }

    /// The place of the first column of a name.
    #[tactic(auto, using(crate::proofs::Positions::place_told))]
    pub(crate) fn place_of(&self, name: &Text) -> Option<usize>
        ensures { result ≡ spec.place_in name.now self.now }
    {
        self.columns.find(name).first()
    }

    /// The columns of the first range of a name.
    pub(crate) fn span_of(&self, name: &Text) -> Option<Span<'_>>
        ensures { span result ≡ spec.span_in name.now self.now }
    {
        let _whole = self.columns.width();
        span_in(name, self.ranges.as_slice())
    }
}
