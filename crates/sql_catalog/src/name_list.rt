// Lists of names.
ghost use Rattle.std.specs.Prelude.{◌≡◌, ◌++◌, ◌∷◌, [], OnOk};

use shared_types::OutOfMemory;
use sql_ast::Names;
use sql_text::Name;
use std::alloc::Global;

/// Adds an equal name at the end.
pub fn note(alloc: Global, name: &Name, out: &mut Names) -> Result<(), OutOfMemory>
    ensures { OnOk result (out.new ≡ out.old ++ name.now ∷ []) }
{
    out.push(name.copy(alloc)?)?;
    Ok(())
}
