// The records of a file, one at a time, seen as the list of those that are left.
ghost use Rattle.std.specs.Prelude.{◌≡◌, ◌∷◌, [], List, ℕ, IfOk, Some};
ghost use Rattle.std.specs.Bool.{MatchBool};
ghost use Rattle.csv.specs.Records.{fields_of};
ghost use Rattle.csv_tables.specs.Records.{Fields, records_of, records_left, FailedOrPlain};

use csv::{ByteRecord, Reader, ReaderBuilder};
use shared_types::OutOfMemory;
use std::alloc::Global;
use std::marker::Model;

#[derive(Drop)]
pub struct Records<'a> {
    reader: Reader<&'a [u8]>,
}

impl<'a> Model for Records<'a> {
    ghost Value = { List Fields };

    ghost view = { λ r. records_left (λ s. Some s.now) r.reader };

    ghost invariant = { λ r. FailedOrPlain (λ s. Some s.now) r.reader };
}

impl<'a> Records<'a> {
    /// The records of these bytes, as `csv` reads them by default, any number of fields.
    pub fn new(alloc: Global, bytes: &'a [u8]) -> Self
        ensures { result ≡ records_of bytes.now }
    {
        let reader = ReaderBuilder::new()
            .has_headers(false)
            .flexible(true)
            .from_reader(alloc, bytes);
        Records { reader }
    }

    /// Takes the first record, if there is one.
    pub fn next(&mut self, row: &mut ByteRecord) -> Result<bool, OutOfMemory>
        ensures { IfOk result (λ found. MatchBool found (self.old ≡ fields_of row.new ∷ self.new) (self.old ≡ [])) }
    {
        let Ok(found) = self.reader.read_byte_record(row) else {
            return Err(OutOfMemory);
        };
        Ok(found)
    }
}
