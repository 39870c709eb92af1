// Whether a record is the header of a table.
ghost use Rattle.std.specs.Prelude.{◌≡◌, IfOk, map};
ghost use Rattle.std.specs.Char.{to_ascii_uppercase};
ghost use Rattle.std.specs.Cmp.Lexicographic.{pointwise};
ghost use Rattle.csv.specs.Records.{fields_of};
ghost use Rattle.csv_tables.specs.Tables.{fits_column, fits_name};

use csv::ByteRecord;
use shared_types::{OutOfMemory, Text};
use sql_catalog::ColumnDescriptor;
use std::alloc::Global;

// The bytes, with ASCII letters in upper case.
fn upper_case(alloc: Global, bytes: &[u8]) -> Result<Vec<u8>, OutOfMemory>
    ensures { IfOk result (λ v. v.items ≡ map to_ascii_uppercase bytes.now) }
{
    let upper = bytes.iter().map(|byte| byte.to_ascii_uppercase());
    Ok(upper.collect(alloc)?)
}

// Whether a field of a header is for the column of a name.
fn fits_name(alloc: Global, name: &Text, field: &[u8]) -> Result<bool, OutOfMemory>
    ensures { IfOk result (λ b. b ≡ fits_name name.now field.now) }
{
    let name = name.to_utf8(alloc)?;
    if field == name.as_bytes() {
        return Ok(true);
    }
    let upper = upper_case(alloc, field)?;
    Ok(upper.as_slice() == name.as_bytes())
}

// Whether the fields are for the columns, in declared order.
pub fn fits_header(
    alloc: Global,
    columns: &[ColumnDescriptor],
    fields: &ByteRecord,
) -> Result<bool, OutOfMemory>
    ensures { IfOk result (λ b. b ≡ pointwise fits_column columns.now (fields_of fields.now)) }
{
    if fields.len() != columns.len() {
        return Ok(false);
    }
    for i in 0..columns.len() {
        let Some(field) = fields.get(i) else {
            return Ok(false);
        };
        if !fits_name(alloc, &columns[i].name, field)? {
            return Ok(false);
        }
    }
    Ok(true)
}
