// The signs that compare two values.

/// A comparison's sign: `=`, `<>`, `<`, `<=`, `>`, `>=` (SQL-92, 8.2).
#[derive(Clone, Copy, Debug, PartialEq, Eq)]
pub enum CmpOp {
    Eq,
    Ne,
    Lt,
    Le,
    Gt,
    Ge,
}
