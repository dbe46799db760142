// How the rows of a file are read in a layout.
ghost use Rattle.std.specs.Prelude.{◌≡◌, ◌≤◌, length};
ghost use Rattle.record_reader.specs.Answers.{IsAnswer, fault_at};
ghost use Rattle.record_reader.specs.Layouts.{AreFields, MayPick, fields_of, read_in, row_of, with_fields, with_row};

use crate::dropping::is_dropped;
use crate::faults::{DataFault, Kind, LayoutFault};
use crate::headers::{check_header, row_fault};
use crate::layouts::{FieldFault, Layout};
use crate::missing::Missing;
use crate::picks::Picks;
use crate::rows::Rows;
use std::alloc::Global;

// Why a field of a row is not read.
fn field_fault(row: usize, field: u64, fault: FieldFault) -> LayoutFault
    ensures { result ≡ fault_at row field fault }
{
    match fault {
        FieldFault::Text(kind) => LayoutFault::At(DataFault {
            row: row as u64,
            field,
            kind,
        }),
        FieldFault::NoMemory => LayoutFault::NoMemory,
    }
}

// What is known after the picked fields of the row of this number.
fn with_fields<S: Drop, L: Layout<S>>(
    layout: &L,
    rows: &Rows,
    number: usize,
    picks: &Picks,
    mut so_far: S,
) -> Result<S, LayoutFault>
    requires from_one { 1 ≤ number }
    requires in_file { number ≤ length rows.now }
    requires in_row { let width = length (row_of rows.now number) in
        AreFields width (fields_of picks.now width) }
    ensures { let row = row_of rows.now number in
        let fields = fields_of picks.now (length row) in
        IsAnswer (with_fields (L.meaning layout.now) number row 0 fields so_far) result }
{
    let width = rows.width(number - 1);
    for place in 0..picks.count(width) {
        let field = picks.field(width, place);
        let text = rows.field(number - 1, field as usize - 1);
        so_far = match layout.with_field(place, text, so_far) {
            Ok(more) => more,
            Err(fault) => return Err(field_fault(number, field, fault)),
        };
    }
    Ok(so_far)
}

// What is known after the row of this number.
fn with_row<S: Drop, L: Layout<S>>(
    layout: &L,
    missing: Missing,
    rows: &Rows,
    number: usize,
    picks: &Picks,
    so_far: S,
) -> Result<S, LayoutFault>
    requires from_one { 1 ≤ number }
    requires in_file { number ≤ length rows.now }
    requires in_header { let width = length (row_of rows.now 1) in
        AreFields width (fields_of picks.now width) }
    ensures { let row = row_of rows.now number in
        let width = length (row_of rows.now 1) in
        let fields = fields_of picks.now width in
        IsAnswer (with_row (L.meaning layout.now) missing width fields number row so_far) result }
{
    if is_dropped(layout, missing, rows, number, picks) {
        return Ok(so_far);
    }
    if number as u64 - 1 > layout.shape().most_rows {
        return Err(row_fault(number, Kind::TooManyRows));
    }
    if rows.width(number - 1) != rows.width(0) {
        return Err(row_fault(number, Kind::FieldCount));
    }
    with_fields(layout, rows, number, picks, so_far)
}

/// What is known of a file in a layout. Where rows with a missing field are dropped, it is what is
/// known of the rows that are left.
///
/// A row is dropped where it is not one too many, is as wide as the header, and a picked field of
/// it is missing. It is read no further, so no other fault of it counts.
///
/// # Errors
/// `Columns` where there is a header and a listed field is not in it. Else `At` with the first
/// fault of the file: that of the header, then that of the first faulty row, then that the rows end
/// too early, at the last row of the file. Within a row a row too many comes first, of all rows of
/// data, then its width, then its picked fields in their order. Or else `NoMemory` where memory
/// runs out.
pub fn read_in<S: Drop, L: Layout<S>>(
    alloc: Global,
    layout: &L,
    missing: Missing,
    rows: &Rows,
    picks: &Picks,
) -> Result<S, LayoutFault>
    requires { let shape = (L.meaning layout.now).shape in
        MayPick shape.narrowest shape.widest picks.now }
    ensures { IsAnswer (read_in (L.meaning layout.now) missing picks.now rows.now) result }
{
    if rows.len() == 0 {
        return Err(row_fault(1, Kind::NoHeader));
    }
    check_header(layout.shape(), picks, rows.width(0))?;
    let mut so_far = layout.start(alloc);
    for row in 1..rows.len() {
        so_far = with_row(layout, missing, rows, row + 1, picks, so_far)?;
    }
    if !layout.is_enough(&so_far) {
        return Err(row_fault(rows.len(), Kind::EndsEarly));
    }
    Ok(so_far)
}
