// What a box holds beside the quantifiers that it owns.
use crate::kinds::{BoxKind, Distinct, Role};
use qgm_terms::{Conds, Head};

/// What a box is and holds, beside the quantifiers that it owns
/// (Pirahesh, Hellerstein and Hasan 1992, 2.1).
#[derive(Drop)]
pub struct BoxParts {
    pub kind: BoxKind,
    pub distinct: Distinct,
    pub role: Role,
    pub conds: Conds,
    pub head: Head,
}
