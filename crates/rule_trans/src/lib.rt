//! The rules that add an equality which follows from two others (Pirahesh, Hellerstein and Hasan 1992,
//! 3).
#![tactic(auto)]

mod adding;
mod column_pairs;
mod equal_columns;
mod equal_literal;
mod equalities;
mod joints;
mod known;
mod laws;
mod literals;

pub use equal_columns::EqualColumns;
pub use equal_literal::EqualLiteral;
pub use laws::trans_laws;
