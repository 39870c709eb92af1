// Boxes and lists of any parts. Where there is no memory for one, the part is dropped.
ghost use Rattle.std.specs.Prelude.{◌≡◌, [], ◌∷◌, ◌++◌, IfOk, OnOk, Ok};

use shared_types::OutOfMemory;
use sqlite_items::Items;
use std::alloc::Global;

/// A part in a box.
pub(crate) fn boxed<T: Drop>(alloc: Global, part: T) -> Result<Box<T>, OutOfMemory>
    ensures { IfOk result (λ b. b.value ≡ part) }
{
    Ok(Box::new(alloc, part)?)
}

/// Two parts, where both are there.
pub(crate) fn pair<A: Drop, B: Drop>(
    first: Result<A, OutOfMemory>,
    second: Result<B, OutOfMemory>,
) -> Result<(A, B), OutOfMemory>
    ensures { IfOk result (λ parts. (first ≡ Ok parts.0) × (second ≡ Ok parts.1)) }
{
    let first = first?;
    Ok((first, second?))
}

/// A list of one.
pub(crate) fn one<T: Drop>(alloc: Global, item: T) -> Result<Items<T>, OutOfMemory>
    ensures { IfOk result (λ list. list ≡ item ∷ []) }
{
    let mut list = Items::new(alloc);
    list.push(item)?;
    Ok(list)
}

/// A list of two that are in boxes.
pub(crate) fn two<T: Drop>(
    alloc: Global,
    first: Box<T>,
    second: Box<T>,
) -> Result<Items<T>, OutOfMemory>
    ensures { IfOk result (λ list. list ≡ first.value ∷ second.value ∷ []) }
{
    let mut list = one(alloc, Box::into_inner(first))?;
    push(&mut list, Box::into_inner(second))?;
    Ok(list)
}

/// Adds an item at the end.
pub(crate) fn push<T: Drop>(list: &mut Items<T>, item: T) -> Result<(), OutOfMemory>
    ensures { OnOk result (list.new ≡ list.old ++ item ∷ []) }
{
    list.push(item)?;
    Ok(())
}
