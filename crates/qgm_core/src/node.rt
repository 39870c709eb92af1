// A box with its number and its quantifiers.
use crate::kinds::BoxId;
use crate::owned::Owned;
use crate::parts::BoxParts;

/// A box: its number, its parts, and the quantifiers that it owns
/// (Pirahesh, Hellerstein and Hasan 1992, 2.1).
pub struct Node {
    pub id: BoxId,
    pub parts: BoxParts,
    pub quants: Owned,
}

// By hand, so that what lets a box go cites this function: a derived one is copied out there, with
// those of all parts.
impl Drop for Node {
    fn drop(self) {
        let Node {
            id: _,
            parts,
            quants,
        } = self;
        drop(parts);
        drop(quants);
    }
}
