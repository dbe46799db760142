// The header of a file.
ghost use Rattle.std.specs.Prelude.{◌≡◌, Err, IfErr, Ok, OnOk};
ghost use Rattle.record_reader.specs.Layouts.{AreFields, MayPick, fields_of, picked, row_fault};

use crate::faults::{DataFault, Kind, LayoutFault};
use crate::layouts::Shape;
use crate::picks::Picks;

// A fault of a whole row.
pub(crate) fn row_fault(row: usize, kind: Kind) -> LayoutFault
    ensures { result ≡ row_fault row kind }
{
    LayoutFault::At(DataFault {
        row: row as u64,
        field: 0,
        kind,
    })
}

// Whether the fields can be picked where the header is this wide.
pub(crate) fn check_header(shape: Shape, picks: &Picks, width: usize) -> Result<(), LayoutFault>
    requires { MayPick shape.narrowest shape.widest picks.now }
    ensures fields { OnOk result (picked shape picks.now width ≡ Ok (fields_of picks.now width)) }
    ensures within { OnOk result (AreFields width (fields_of picks.now width)) }
    ensures fault { IfErr result (λ fault. picked shape picks.now width ≡ Err fault) }
{
    match picks {
        Picks::Natural => {
            if width < shape.narrowest {
                return Err(row_fault(1, Kind::FieldCount));
            }
            if width > shape.widest {
                return Err(row_fault(1, shape.too_wide));
            }
        }
        Picks::Listed(fields) => {
            if fields.as_slice().iter().any(|field| *field > width as u64) {
                return Err(LayoutFault::Columns);
            }
        }
    }
    Ok(())
}
