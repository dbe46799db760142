// The public calls of `record_reader`.
ghost use Rattle.std.specs.Prelude.{[], ◌<◌, ◌≡◌, ◌≤◌, ◌⊎◌, IfOk, length};
ghost use Rattle.std.specs.List.{slice_index_or};
ghost use Rattle.record_reader.specs.Records.{records_of};

use record_reader::{DataFault, Kind, LayoutFault, Picks, Rows};
use std::alloc::Global;
use weights::{NoMemory, Nums};

/// How many rows there are.
pub fn row_count(rows: &Rows) -> usize
    ensures { result ≡ length rows.now }
{
    rows.len()
}

/// How many fields a row has.
pub fn row_width(rows: &Rows, row: usize) -> usize
    requires { row < length rows.now }
    ensures { result ≡ length (slice_index_or rows.now row []) }
{
    rows.width(row)
}

/// A field of a row.
pub fn field_of(rows: &Rows, row: usize, field: usize) -> &[u8]
    requires row { row < length rows.now }
    requires field { field < length (slice_index_or rows.now row []) }
    ensures { result.now ≡ slice_index_or (slice_index_or rows.now row []) field [] }
{
    rows.field(row, field)
}

/// The records of a file.
pub fn records(alloc: Global, bytes: &[u8], separator: u8) -> Result<Rows, NoMemory>
    requires { (separator ≡ 44) ⊎ (separator ≡ 59) ⊎ (separator ≡ 9) }
    ensures { IfOk result (λ rows. rows ≡ records_of separator bytes.now) }
{
    record_reader::records(alloc, bytes, separator)
}

/// A fault, of its three parts.
pub fn data_fault(row: u64, field: u64, kind: Kind) -> DataFault
    ensures { result ≡ record { row = row; field = field; kind = kind } }
{
    DataFault { row, field, kind }
}

/// The number of a kind of fault. There are eleven, and no other.
pub fn kind_number(kind: Kind) -> u64
    ensures { (1 ≤ result) × (result ≤ 11) }
{
    match kind {
        Kind::NoHeader => 1,
        Kind::FieldCount => 2,
        Kind::NotNumber => 3,
        Kind::OutOfRange => 4,
        Kind::Missing => 5,
        Kind::GroupTooMany => 6,
        Kind::EndsEarly => 7,
        Kind::TooManyRows => 8,
        Kind::NotBinary => 9,
        Kind::TooManyColumns => 10,
        Kind::NotCount => 11,
    }
}

/// The fault of the data, where a layout's fault is one. There are three, and no other.
pub fn fault_at(fault: LayoutFault) -> Option<DataFault>
    ensures { (at : DataFault) → fault ≡ LayoutFault.At at → result ≡ Some at }
{
    match fault {
        LayoutFault::At(at) => Some(at),
        LayoutFault::Columns | LayoutFault::NoMemory => None,
    }
}

/// The picked numbers. Picks are natural or listed, and no other.
pub fn listed(picks: &Picks) -> Option<&Nums> {
    match picks {
        Picks::Natural => None,
        Picks::Listed(numbers) => Some(numbers),
    }
}
