// The records of a file.
ghost use Rattle.std.specs.Prelude.{◌≡◌, ◌<◌, [], length, IfOk};
ghost use Rattle.std.specs.List.{slice_index_or};
ghost use Rattle.csv.specs.Reading.{error_kind};
ghost use Rattle.record_reader.specs.Records.{IsSeparator, MayEnd, records_of};

use crate::fields::{Fields, span};
use csv::{ErrorKind, ReaderBuilder};
use std::alloc::Global;
use std::marker::Model;
use weights::NoMemory;

/// The records of a file, each the list of its fields, and each field a list of bytes. Rows and
/// fields are counted from 0.
#[derive(Drop)]
pub struct Rows {
    fields: Fields,
    ends: Vec<usize>,
}

impl Model for Rows {
    ghost use Rattle.std.specs.Prelude.{List, ℕ, length};
    ghost use Rattle.record_reader.specs.Pieces.{Cuts, pieces};

    ghost Value = { List (List (List ℕ)) };

    ghost view = { λ a. pieces 0 a.ends.items a.fields };

    ghost invariant = { λ a. Cuts 0 a.ends.items (length a.fields) };
}

impl Rows {
    /// How many records there are.
    pub fn len(&self) -> usize
        ensures { result ≡ length self.now }
    {
        self.ends.len()
    }

    /// How many fields a record has.
    pub fn width(&self, row: usize) -> usize
        requires { row < length self.now }
        ensures { result ≡ length (slice_index_or self.now row []) }
    {
        let span = span(&self.ends, row);
        span.end - span.start
    }

    /// The bytes of a field.
    pub fn field(&self, row: usize, field: usize) -> &[u8]
        requires row { row < length self.now }
        requires field { field < length (slice_index_or self.now row []) }
        ensures { result.now ≡ slice_index_or (slice_index_or self.now row []) field [] }
    {
        let span = span(&self.ends, row);
        self.fields.get(span.start + field)
    }
}

// Want of memory, for either error that a flexible reader of bytes ends with. The other one is an
// error of its source, and a slice gives none.
fn no_memory(error: csv::Error) -> NoMemory
    requires { MayEnd (error_kind error) }
{
    match error.into_kind() {
        ErrorKind::OutOfMemory | ErrorKind::Io(_) => NoMemory,
        ErrorKind::Utf8 { .. }
        | ErrorKind::UnequalLengths { .. }
        | ErrorKind::Serialize(_)
        | ErrorKind::Deserialize { .. } => {
            prove!(false);
            NoMemory
        }
    }
}

/// The records of a file's bytes, less one byte order mark at their start, as `csv` reads them:
/// quotes as its defaults say, lines with no byte are no records, the first record is one like the
/// others, records may differ in length, and no field is trimmed. The separator is a comma, a
/// semicolon or a tab.
///
/// The rows take memory in proportion to the bytes. Want of memory is the one error.
pub fn records(alloc: Global, bytes: &[u8], separator: u8) -> Result<Rows, NoMemory>
    requires { IsSeparator separator }
    ensures { IfOk result (λ rows. rows ≡ records_of separator bytes.now) }
{
    let reader = ReaderBuilder::new()
        .has_headers(false)
        .flexible(true)
        .delimiter(separator)
        .from_reader(alloc, bytes);
    let mut fields = Fields::empty(alloc);
    let mut ends = Vec::new(alloc);
    for record in reader.into_byte_records() {
        match record {
            Ok(record) => {
                fields.extend(&record)?;
                ends.push(fields.len())?;
            }
            Err(error) => return Err(no_memory(error)),
        }
    }
    Ok(Rows { fields, ends })
}
