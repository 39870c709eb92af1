//! The rules of DISTINCT (Pirahesh, Hellerstein and Hasan 1992, 3): it goes over a key and under UNION,
//! and may go under EXISTS.
#![tactic(auto)]

mod drop_key_distinct;
mod drop_union_distinct;
mod laws;
mod parts;
mod permit_distinct;

pub use drop_key_distinct::DropKeyDistinct;
pub use drop_union_distinct::DropUnionDistinct;
pub use laws::distinct_laws;
pub use permit_distinct::PermitDistinct;
