// What boxes and quantifiers are of.
ghost use Rattle.std.specs.Prelude.{◌≡◌};
ghost use Rattle.qgm_core.specs.Kinds as spec;

use shared_types::Text;
use sql_value::SqlType;
use sqlite_items::Items;

/// The number of a box.
pub type BoxId = usize;

/// A stored table: what a graph knows of it.
#[derive(Drop)]
pub struct BaseTable {
    pub name: Text,
    /// The types of its columns, in order.
    pub types: Items<SqlType>,
    /// Its keys, each the places, from 1, of its columns.
    pub keys: Items<Items<usize>>,
    /// The places, from 1, of the columns that hold no null.
    pub not_null: Items<usize>,
}

/// How the rows of two tables are put together (SQL-92, 7.10).
#[derive(Clone, Copy, PartialEq, Eq)]
pub enum SetOperator {
    Union,
    UnionAll,
    Intersect,
    IntersectAll,
    Except,
    ExceptAll,
}

/// What a box does (Pirahesh, Hellerstein and Hasan 1992, 2.1).
pub enum BoxKind {
    /// It holds a stored table's rows.
    Base(BaseTable),
    /// It selects, projects and joins.
    Select,
    /// It groups rows by so many keys, the first cells of its head, and folds each group.
    Group(usize),
    /// It puts the rows of two boxes together, whose columns have these types.
    SetOp(SetOperator, Items<SqlType>),
    /// It joins rows, and keeps those of the left box that have no partner.
    OuterJoin,
}

// By hand, so that what lets a kind go cites this function: a derived one is copied out there, with an
// arm for each variant.
impl Drop for BoxKind {
    fn drop(self) {
        match self {
            BoxKind::Base(_)
            | BoxKind::Select
            | BoxKind::Group(_)
            | BoxKind::SetOp(_, _)
            | BoxKind::OuterJoin => {}
        }
    }
}

impl BoxKind {
    /// Whether it holds a stored table's rows.
    pub fn is_base(&self) -> bool
        ensures { result ≡ spec.is_base self.now }
    {
        match self {
            BoxKind::Base(_) => true,
            BoxKind::Select | BoxKind::Group(_) | BoxKind::SetOp(_, _) | BoxKind::OuterJoin =>
                false,
        }
    }

    /// Whether it selects, projects and joins.
    pub fn is_select(&self) -> bool
        ensures { result ≡ spec.is_select self.now }
    {
        match self {
            BoxKind::Select => true,
            BoxKind::Base(_) | BoxKind::Group(_) | BoxKind::SetOp(_, _) | BoxKind::OuterJoin =>
                false,
        }
    }
}

/// What a quantifier ranges for (Pirahesh, Hellerstein and Hasan 1992, 2.1).
#[derive(Clone, Copy, PartialEq, Eq)]
pub enum QuantKind {
    /// Each row takes part.
    F,
    /// Whether one row is so.
    E,
    /// Whether all rows are so.
    A,
    /// The value of the one row.
    S,
}

impl QuantKind {
    /// Whether each row takes part.
    pub fn is_f(self) -> bool
        ensures { result ≡ spec.is_F self }
    {
        match self {
            QuantKind::F => true,
            QuantKind::E | QuantKind::A | QuantKind::S => false,
        }
    }

    /// Whether it asks for one row.
    pub fn is_e(self) -> bool
        ensures { result ≡ spec.is_E self }
    {
        match self {
            QuantKind::E => true,
            QuantKind::F | QuantKind::A | QuantKind::S => false,
        }
    }

    /// Whether it asks of all rows.
    pub fn is_a(self) -> bool
        ensures { result ≡ spec.is_A self }
    {
        match self {
            QuantKind::A => true,
            QuantKind::F | QuantKind::E | QuantKind::S => false,
        }
    }

    /// Whether it is the value of the one row.
    pub fn is_s(self) -> bool
        ensures { result ≡ spec.is_S self }
    {
        match self {
            QuantKind::S => true,
            QuantKind::F | QuantKind::E | QuantKind::A => false,
        }
    }

    /// Whether the rows themselves count, and not only which there are.
    pub fn is_f_or_s(self) -> bool
        ensures { result ≡ spec.is_F_or_S self }
    {
        match self {
            QuantKind::F | QuantKind::S => true,
            QuantKind::E | QuantKind::A => false,
        }
    }
}

/// Whether a box gives rows more than once (Pirahesh, Hellerstein and Hasan 1992, 2.1).
#[derive(Clone, Copy, PartialEq, Eq)]
pub enum Distinct {
    /// It gives each row once.
    Enforce,
    /// It gives each row as often as it comes.
    Preserve,
    /// It may give a row more or less often.
    Permit,
}

impl Distinct {
    /// Whether each row is given once.
    pub fn is_enforce(self) -> bool
        ensures { result ≡ spec.is_enforce self }
    {
        match self {
            Distinct::Enforce => true,
            Distinct::Preserve | Distinct::Permit => false,
        }
    }

    /// Whether each row is given as often as it comes.
    pub fn is_preserve(self) -> bool
        ensures { result ≡ spec.is_preserve self }
    {
        match self {
            Distinct::Preserve => true,
            Distinct::Enforce | Distinct::Permit => false,
        }
    }

    /// Whether a row may be given more or less often.
    pub fn is_permit(self) -> bool
        ensures { result ≡ spec.is_permit self }
    {
        match self {
            Distinct::Permit => true,
            Distinct::Enforce | Distinct::Preserve => false,
        }
    }
}

/// What a box is for, where a query is decorrelated (Seshadri, Pirahesh and Leung 1996, 4).
#[derive(Clone, Copy, PartialEq, Eq)]
pub enum Role {
    Plain,
    /// It holds the bindings of a correlated box.
    Magic,
    /// It joins the bindings with a correlated box.
    Fed,
}

impl Role {
    /// Whether it is of no other use than its rows.
    pub fn is_plain(self) -> bool
        ensures { result ≡ spec.is_plain self }
    {
        match self {
            Role::Plain => true,
            Role::Magic | Role::Fed => false,
        }
    }

    /// Whether it holds the bindings of a correlated box.
    pub fn is_magic(self) -> bool
        ensures { result ≡ spec.is_magic self }
    {
        match self {
            Role::Magic => true,
            Role::Plain | Role::Fed => false,
        }
    }

    /// Whether it joins the bindings with a correlated box.
    pub fn is_fed(self) -> bool
        ensures { result ≡ spec.is_fed self }
    {
        match self {
            Role::Fed => true,
            Role::Plain | Role::Magic => false,
        }
    }
}
