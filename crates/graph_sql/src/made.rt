// What is made of boxes.
use shared_types::Text;

/// The SELECT of a box, and how many columns it has; for EXISTS, what stands before the name of the item
/// that has its cells, and what stands behind the columns of that item.
#[derive(Drop)]
pub struct Made {
    pub columns: usize,
    pub text: Text,
    pub source: Text,
    pub conditions: Text,
}
