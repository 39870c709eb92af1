// What the boxes of a graph share while they are written.
use crate::scope::Sure;
use crate::tables::TableNames;
use graph_print::Places;
use qgm_core::Marks;

/// The tables; quantifiers and boxes in the order of their numbers; the boxes that are entries of WITH;
/// columns without nulls.
#[derive(Drop)]
pub struct Sheet<'a> {
    pub tables: &'a [TableNames],
    pub quants: &'a Places,
    pub boxes: &'a Places,
    pub entries: Marks,
    pub sure: Sure<'a>,
}
