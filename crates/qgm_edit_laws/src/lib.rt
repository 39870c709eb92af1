//! What rewriting a query graph keeps.
#![tactic(auto)]

mod laws;

pub use laws::{
    checked_laws, edit_laws, form_laws, part_laws, put_laws, rebuilt_laws, rewriting_laws,
    sound_laws,
};
