// Rows that are dropped, since they miss a field.
ghost use Rattle.std.specs.Prelude.{◌≡◌, ◌≤◌, length};
ghost use Rattle.record_reader.specs.Layouts.{AreFields, MayPick, dropped_rows, fields_of, has_missing, is_dropped, row_of};

use crate::headers::check_header;
use crate::layouts::Layout;
use crate::missing::Missing;
use crate::picks::Picks;
use crate::rows::Rows;

// Whether a picked field of the row of this number is missing.
fn has_missing<S, L: Layout<S>>(layout: &L, rows: &Rows, number: usize, picks: &Picks) -> bool
    requires from_one { 1 ≤ number }
    requires in_file { number ≤ length rows.now }
    requires in_row { let width = length (row_of rows.now number) in
        AreFields width (fields_of picks.now width) }
    ensures { let row = row_of rows.now number in
        result ≡ has_missing (L.meaning layout.now) row 0 (fields_of picks.now (length row)) }
{
    let width = rows.width(number - 1);
    for place in 0..picks.count(width) {
        let field = picks.field(width, place);
        if layout.is_missing(place, rows.field(number - 1, field as usize - 1)) {
            return true;
        }
    }
    false
}

// Whether the row of this number is dropped.
pub(crate) fn is_dropped<S, L: Layout<S>>(
    layout: &L,
    missing: Missing,
    rows: &Rows,
    number: usize,
    picks: &Picks,
) -> bool
    requires from_one { 1 ≤ number }
    requires in_file { number ≤ length rows.now }
    requires in_header { let width = length (row_of rows.now 1) in
        AreFields width (fields_of picks.now width) }
    ensures { let width = length (row_of rows.now 1) in
        let fields = fields_of picks.now width in
        result ≡ is_dropped (L.meaning layout.now) missing width fields number
        (row_of rows.now number) }
{
    match missing {
        Missing::Refuse => false,
        Missing::Drop => {
            number as u64 - 1 <= layout.shape().most_rows
                && rows.width(number - 1) == rows.width(0)
                && has_missing(layout, rows, number, picks)
        }
    }
}

/// How many rows of a file are dropped in a layout: none where its header is at fault. It takes no
/// memory.
pub fn dropped<S, L: Layout<S>>(layout: &L, missing: Missing, rows: &Rows, picks: &Picks) -> u64
    requires { let shape = (L.meaning layout.now).shape in
        MayPick shape.narrowest shape.widest picks.now }
    ensures { result ≡ dropped_rows (L.meaning layout.now) missing picks.now rows.now }
{
    if rows.len() == 0 || check_header(layout.shape(), picks, rows.width(0)).is_err() {
        return 0;
    }
    let mut dropped = 0;
    for row in 1..rows.len() {
        if is_dropped(layout, missing, rows, row + 1, picks) {
            dropped += 1;
        }
    }
    dropped
}
