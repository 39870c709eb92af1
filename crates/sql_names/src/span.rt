// Columns of a scope that stand side by side.
ghost use Rattle.std.specs.Prelude.{◌+◌, ◌<◌, ◌^◌, length};

use shared_types::Text;

/// Columns that stand side by side: their scope, the place of the first, and their names. Places
/// are below 2^64, as the columns of a row are.
#[derive(Clone, Copy)]
pub(crate) struct Span<'a> {
    pub scope: usize,
    pub first: usize,
    pub columns: &'a [Option<Text>],
    ghost fits: { first + length columns.now < 2 ^ 64 },
}
