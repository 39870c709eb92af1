//! G1, FEED: a box that looks up columns of its reader's rows is fed with the distinct bindings that occur.
#![tactic(auto)]

mod feed;
mod laws;

pub use feed::Feed;
pub use laws::{feed_laws, feeding_laws};
