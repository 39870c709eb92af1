// The laws, as theorems.
ghost use Rattle.qgm_box_size.specs.BoxLaws.{PutSize, SomeLevels, SomeSize};

/// Cells in place of columns add to the nodes of a box no more than they have above the columns; some
/// boxes have no more nodes and levels than all. It does nothing.
pub fn box_laws()
    ensures put_size { PutSize }
    ensures some_size { SomeSize }
    ensures some_levels { SomeLevels }
{}
