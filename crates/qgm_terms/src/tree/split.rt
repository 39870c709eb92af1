// Conditions split at each AND.
ghost use Rattle.std.specs.Prelude.{◌≡◌, ◌<◌, ◌++◌, OnOk, length};
ghost use Rattle.qgm_terms.specs.Shown.{cond, conds};
ghost use Rattle.qgm_terms.specs.Split.{split, splits};
ghost use Rattle.qgm_terms.specs.Terms.{ored};

use crate::parts::Conds;
use crate::tree::Gc;
use shared_types::OutOfMemory;

// Adds the OR of some conditions.
fn add_any(out: &mut Conds, first: Box<Gc>, list: Vec<Gc>) -> Result<(), OutOfMemory>
    requires more { 0 < length list.items }
    ensures items { OnOk result (out.new.items ≡ out.old.items ++ split (ored (cond first.value) (conds list.items))) }
    ensures spare { out.new.spare ≡ out.old.spare }
{
    out.add(Gc::Any(first, list))
}

// Adds the parts of each condition.
#[cycle(split)]
fn add_splits(out: &mut Conds, list: Vec<Gc>) -> Result<(), OutOfMemory>
    ensures items { OnOk result (out.new.items ≡ out.old.items ++ splits (conds list.items)) }
    ensures spare { out.new.spare ≡ out.old.spare }
{
    for p in list {
        p.split_into(out)?;
    }
    Ok(())
}

impl Gc {
    /// Adds the condition, split at each AND that isn't under OR and NOT. It fails where there is no
    /// memory, or a part has more levels than `ROOM`; which parts were added then, no clause says.
    #[cycle(split)]
    pub fn split_into(self, out: &mut Conds) -> Result<(), OutOfMemory>
        ensures items { OnOk result (out.new.items ≡ out.old.items ++ split (cond self)) }
        ensures spare { out.new.spare ≡ out.old.spare }
    {
        match self {
            Gc::True => Ok(()),
            Gc::All(first, list) => {
                Box::into_inner(first).split_into(out)?;
                add_splits(out, list)
            }
            Gc::Any(first, list) => {
                if list.is_empty() {
                    Box::into_inner(first).split_into(out)
                } else {
                    add_any(out, first, list)
                }
            }
            Gc::Compare(s, a, b) => out.add(Gc::Compare(s, a, b)),
            Gc::IsNull(a) => out.add(Gc::IsNull(a)),
            Gc::Not(a) => out.add(Gc::Not(a)),
            Gc::Some(q, a) => out.add(Gc::Some(q, a)),
            Gc::Every(q, a) => out.add(Gc::Every(q, a)),
        }
    }
}
