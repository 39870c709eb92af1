// The conjuncts of a condition.
ghost use Rattle.std.specs.Prelude.{◌≡◌, ◌++◌, ◌∷◌, [], OnOk};
ghost use Rattle.std.specs.List.{flat_map};
ghost use Rattle.qgm_terms.specs.Shown.{cond, conds};
ghost use Rattle.qgm_edit_laws.specs.ConjunctsOf.{conjuncts};

use qgm_terms::{Conds, Gc, ROOM, copy_cond};
use shared_types::OutOfMemory;
use std::alloc::Global;

/// Adds the conjuncts of a condition at the end: those of each part of an AND, and else the condition
/// itself, also where it is `(true)`.
#[cycle(add_conjuncts)]
pub fn add_conjuncts(alloc: Global, c: &Gc, out: &mut Conds) -> Result<(), OutOfMemory>
    ensures items { OnOk result (out.new.items ≡ out.old.items ++ conjuncts (cond c.now)) }
    ensures spare { OnOk result (out.new.spare ≡ out.old.spare) }
{
    match c {
        Gc::All(a, list) => {
            add_conjuncts(alloc, a, out)?;
            add_conjuncts_of(alloc, list, out)
        }
        Gc::Any(a, list) => {
            if list.is_empty() {
                add_conjuncts(alloc, a, out)
            } else {
                add_one(alloc, c, out)
            }
        }
        Gc::True => add_one(alloc, c, out),
        Gc::Compare(_, _, _) => add_one(alloc, c, out),
        Gc::IsNull(_) => add_one(alloc, c, out),
        Gc::Not(_) => add_one(alloc, c, out),
        Gc::Some(_, _) => add_one(alloc, c, out),
        Gc::Every(_, _) => add_one(alloc, c, out),
    }
}

// Adds the conjuncts of each.
#[cycle(add_conjuncts)]
fn add_conjuncts_of(alloc: Global, list: &[Gc], out: &mut Conds) -> Result<(), OutOfMemory>
    ensures items { OnOk result (out.new.items ≡ out.old.items ++ flat_map conjuncts (conds list.now)) }
    ensures spare { OnOk result (out.new.spare ≡ out.old.spare) }
{
    for c in list {
        add_conjuncts(alloc, c, out)?;
    }
    Ok(())
}

// Adds a copy of a condition.
fn add_one(alloc: Global, c: &Gc, out: &mut Conds) -> Result<(), OutOfMemory>
    ensures items { OnOk result (out.new.items ≡ out.old.items ++ cond c.now ∷ []) }
    ensures spare { OnOk result (out.new.spare ≡ out.old.spare) }
{
    let p = copy_cond(alloc, c, ROOM)?;
    out.add(p)
}
