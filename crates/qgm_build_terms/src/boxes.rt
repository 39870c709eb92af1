// Boxes of any parts, and lists that what they hold is added to. Where there is no memory, the part is
// dropped.
ghost use Rattle.std.specs.Prelude.{◌≡◌, [], ◌∷◌, ◌++◌, ◌<◌, IfOk, IsOkAnd, Ok, OnOk, length};

use shared_types::OutOfMemory;
use std::alloc::Global;

/// A part in a box.
pub(crate) fn boxed<T: Drop>(alloc: Global, part: T) -> Result<Box<T>, OutOfMemory>
    ensures { IfOk result (λ b. b.value ≡ part) }
{
    Ok(Box::new(alloc, part)?)
}

/// A part in a box, where the part could be made.
pub(crate) fn boxed_made<T: Drop>(
    alloc: Global,
    part: Result<T, OutOfMemory>,
) -> Result<Box<T>, OutOfMemory>
    ensures { IfOk result (λ b. part ≡ Ok b.value) }
{
    boxed(alloc, part?)
}

/// Adds a part at the end.
pub(crate) fn push<T: Drop>(list: &mut Vec<T>, part: T) -> Result<(), OutOfMemory>
    ensures { OnOk result (list.new.items ≡ list.old.items ++ part ∷ []) }
{
    list.push(part)?;
    Ok(())
}

/// Adds what a box holds at the end.
pub fn push_boxed<T: Drop>(list: &mut Vec<T>, part: Box<T>) -> Result<(), OutOfMemory>
    ensures { OnOk result (list.new.items ≡ list.old.items ++ part.value ∷ []) }
{
    push(list, Box::into_inner(part))
}

/// Adds what a box holds at the end, where the box could be made.
pub(crate) fn push_made<T: Drop>(
    list: &mut Vec<T>,
    part: Result<Box<T>, OutOfMemory>,
) -> Result<(), OutOfMemory>
    ensures { OnOk result (IsOkAnd part (λ b. list.new.items ≡ list.old.items ++ b.value ∷ [])) }
{
    push_boxed(list, part?)
}

/// Two parts, where both could be made.
pub(crate) fn paired<A: Drop, B: Drop>(
    a: Result<A, OutOfMemory>,
    b: Result<B, OutOfMemory>,
) -> Result<(A, B), OutOfMemory>
    ensures { IfOk result (λ p. (a ≡ Ok p.0) × (b ≡ Ok p.1)) }
{
    Ok((a?, b?))
}

/// Takes the first of a list, in a box.
pub(crate) fn take_first<T: Drop>(alloc: Global, list: &mut Vec<T>) -> Result<Box<T>, OutOfMemory>
    requires some { 0 < length list.old.items }
    ensures { IfOk result (λ x. list.old.items ≡ x.value ∷ list.new.items) }
{
    boxed(alloc, list.remove(0))
}
