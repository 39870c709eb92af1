//! What a rewrite rule is: its places, its action, and the law that it keeps.
#![tactic(auto)]

mod laws;
mod picks;
mod place;
mod rule;
mod rule_id;

pub use laws::place_laws;
pub use picks::add_if;
pub use place::{Firing, Place};
pub use rule::Rule;
pub use rule_id::{RuleEntry, RuleId};
