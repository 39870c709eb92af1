// The rules that a table's file is to keep.
ghost use Rattle.std.specs.Prelude.{◌≡◌};
ghost use Rattle.csv_tables.specs.Rules as spec;

/// A rule that a table's file breaks, in the order of their numbers.
#[derive(Clone, Copy)]
pub enum Rule {
    /// There is no header, or its fields are not the column names in declared order.
    Header,
    /// A record has another number of fields than the table has columns.
    FieldCount,
    /// A field of an INTEGER column is neither null nor a number in range.
    BadInteger,
    /// A text has more characters than its column takes.
    TooLong,
    /// A null stands in a column that is NOT NULL, or in a primary key.
    NullInNotNull,
    /// The cells of a key equal those of an earlier record.
    DuplicateKey,
    /// A field of a VARCHAR column is not UTF-8.
    BadUtf8,
    /// There are too many records, or too many bytes.
    TooManyRows,
}

impl Rule {
    /// The number of the rule.
    pub fn number(self) -> u8
        ensures { result ≡ spec.number_of self }
    {
        match self {
            Rule::Header => 1,
            Rule::FieldCount => 2,
            Rule::BadInteger => 3,
            Rule::TooLong => 4,
            Rule::NullInNotNull => 5,
            Rule::DuplicateKey => 6,
            Rule::BadUtf8 => 7,
            Rule::TooManyRows => 8,
        }
    }
}
