// The laws, as theorems.
ghost use Rattle.qgm_term_size.specs.SizeLaws.{CellDeepest, CellLevels, CellSize, CondDeepest, CondLevels, CondSize};

/// What cells in place of columns add: to nodes no more than they have above the columns, to levels no
/// more than the deepest of them has, which is no more than the deepest of all cells has. It does
/// nothing.
pub fn put_laws()
    ensures cell_size { CellSize }
    ensures cond_size { CondSize }
    ensures cell_levels { CellLevels }
    ensures cond_levels { CondLevels }
    ensures cell_deepest { CellDeepest }
    ensures cond_deepest { CondDeepest }
{}
