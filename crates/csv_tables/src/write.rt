// The text of a header and rows.
ghost use Rattle.std.specs.Prelude.{◌≡◌, ◌++◌, ◌∷◌, ◌+◌, [], IfOk, IfSome, OnOk, map, encode_utf8_all};
ghost use Rattle.std.specs.String.{string_bytes};
ghost use Rattle.csv.specs.Records.{fields_of, partial_of};
ghost use Rattle.csv_tables.specs.Cells as spec;
ghost use Rattle.csv_tables.specs.Cells.{cell_text};
ghost use Rattle.csv_tables.specs.Printed.{column_text, header_from, printed_rows};

use csv::{ByteRecord, WriterBuilder};
use itoa::Buffer;
use row_bag::OrderedBag;
use shared_types::{OutOfMemory, Text};
use sql_value::{Cell, CharacterString, OutNames};
use std::alloc::Global;

// Adds a field.
fn put_field(bytes: &[u8], fields: &mut ByteRecord) -> Result<(), OutOfMemory>
    ensures fields { OnOk result (fields_of fields.new ≡ fields_of fields.old ++ (partial_of fields.old ++ bytes.now) ∷ []) }
    ensures whole { OnOk result (partial_of fields.new ≡ []) }
{
    match fields.push_field(bytes) {
        Ok(()) => Ok(()),
        Err(_) => Err(OutOfMemory),
    }
}

// Adds the name of the column of a place, from 1.
fn put_name(
    alloc: Global,
    place: usize,
    name: &Option<Text>,
    fields: &mut ByteRecord,
) -> Result<(), OutOfMemory>
    ensures fields { OnOk result (fields_of fields.new ≡ fields_of fields.old ++ (partial_of fields.old ++ column_text place name.now) ∷ []) }
    ensures whole { OnOk result (partial_of fields.new ≡ []) }
{
    match name {
        Some(name) => {
            let text = name.to_utf8(alloc)?;
            put_field(text.as_bytes(), fields)
        }
        None => {
            let Ok(text) = format!(in alloc; "COL{place}") else {
                return Err(OutOfMemory);
            };
            put_field(text.as_bytes(), fields)
        }
    }
}

// The fields of the header.
fn put_names(alloc: Global, names: &OutNames, fields: &mut ByteRecord) -> Result<(), OutOfMemory>
    ensures { OnOk result (fields_of fields.new ≡ header_from 1 names.now) }
{
    fields.clear();
    let names = names.as_slice();
    for i in 0..names.len() {
        put_name(alloc, i + 1, &names[i], fields)?;
    }
    Ok(())
}

// Whether a text begins with `\`.
fn begins_with_backslash(text: &CharacterString) -> bool
    ensures { result ≡ spec.begins_with_backslash text.now }
{
    text.len() > 0 && text.at(0) == '\\'
}

// The characters of a text in UTF-8; a text that begins with `\` has that sign twice.
fn escaped(alloc: Global, text: &CharacterString) -> Result<String, OutOfMemory>
    ensures { IfOk result (λ s. string_bytes s ≡ encode_utf8_all (spec.escaped text.now)) }
{
    let written = text.to_utf8(alloc)?;
    if !begins_with_backslash(text) {
        return Ok(written);
    }
    let mut doubled = String::new(alloc);
    doubled.push('\\')?;
    doubled.push_str(&written)?;
    Ok(doubled)
}

// The bytes that write a text, where they stand as they are written.
fn written_bytes(text: &CharacterString) -> Option<&[u8]>
    ensures { IfSome result (λ bytes. bytes.now ≡ encode_utf8_all (spec.escaped text.now)) }
{
    if begins_with_backslash(text) {
        None
    } else {
        text.ascii()
    }
}

// Adds the field of a text.
fn put_text(
    alloc: Global,
    text: &CharacterString,
    fields: &mut ByteRecord,
) -> Result<(), OutOfMemory>
    ensures fields { OnOk result (fields_of fields.new ≡ fields_of fields.old ++ (partial_of fields.old ++ encode_utf8_all (spec.escaped text.now)) ∷ []) }
    ensures whole { OnOk result (partial_of fields.new ≡ []) }
{
    if let Some(bytes) = written_bytes(text) {
        return put_field(bytes, fields);
    }
    let written = escaped(alloc, text)?;
    put_field(written.as_bytes(), fields)
}

// Adds the field of a cell. An error cell is never written, since an answer with one is that
// error: its field is empty.
fn put_cell(alloc: Global, cell: &Cell, fields: &mut ByteRecord) -> Result<(), OutOfMemory>
    ensures fields { OnOk result (fields_of fields.new ≡ fields_of fields.old ++ (partial_of fields.old ++ cell_text cell.now) ∷ []) }
    ensures whole { OnOk result (partial_of fields.new ≡ []) }
{
    match cell {
        Cell::Int(number) => {
            let mut buffer = Buffer::new();
            put_field(buffer.format(*number).as_bytes(), fields)
        }
        Cell::Text(text) => put_text(alloc, text, fields),
        Cell::Null => put_field(b"\\N", fields),
        Cell::Err(_) => put_field(b"", fields),
    }
}

// The fields of a row.
fn put_cells(alloc: Global, cells: &[Cell], fields: &mut ByteRecord) -> Result<(), OutOfMemory>
    ensures { OnOk result (fields_of fields.new ≡ map cell_text cells.now) }
{
    fields.clear();
    for cell in cells {
        put_cell(alloc, cell, fields)?;
    }
    Ok(())
}

/// The text of a header of the names and of the rows, as `csv` writes them by default, with a
/// line feed at the end of each. Null is `\N`, and a text that begins with `\` has that sign
/// twice. A column without a name has the name `COLn`, where n is its place from 1. It fails for
/// want of memory alone.
pub fn write_rows(alloc: Global, names: &OutNames, bag: &OrderedBag) -> Result<Vec<u8>, OutOfMemory>
    ensures { IfOk result (λ v. v.items ≡ printed_rows names.now bag.now) }
{
    let mut writer = WriterBuilder::new()
        .flexible(true)
        .from_writer(Vec::new(alloc));
    let mut fields = ByteRecord::new(alloc);
    put_names(alloc, names, &mut fields)?;
    if writer.write_byte_record(&fields).is_err() {
        return Err(OutOfMemory);
    }
    for i in 0..bag.len() {
        put_cells(alloc, bag.at(i).cells, &mut fields)?;
        if writer.write_byte_record(&fields).is_err() {
            return Err(OutOfMemory);
        }
    }
    match writer.into_inner() {
        Ok(bytes) => Ok(bytes),
        Err(_) => Err(OutOfMemory),
    }
}
