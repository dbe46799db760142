// The bivariate sample of a file.
ghost use Rattle.std.specs.Prelude.{◌≡◌, Ok, IfErr, IfOk};
ghost use Rattle.record_reader.specs.Answers.{IsFaultOf};
ghost use Rattle.record_reader.specs.Layouts.{MayPick};
ghost use Rattle.sample_reader.specs.Twins.{twins_in};
ghost use Rattle.sample_reader.specs.Data.{twin_data_of};

use crate::MOST_TWINS;
use crate::pair_rows::{PairLayout, PairsSoFar};
use crate::samples::Twins;
use record_reader::{FieldFault, Kind, Layout, LayoutFault, Missing, Picks, Rows, Shape, read_in};
use std::alloc::Global;

// The layout of a bivariate sample: two values in each row.
#[derive(Clone, Copy)]
pub(crate) struct TwinLayout;

impl Layout<PairsSoFar> for TwinLayout {
    ghost use Rattle.sample_reader.specs.Twins.{twin_layout};

    ghost meaning = { λ _. twin_layout };

    fn shape(&self) -> Shape {
        Shape {
            narrowest: 2,
            widest: 2,
            too_wide: Kind::FieldCount,
            most_rows: MOST_TWINS,
        }
    }

    fn start(&self, alloc: Global) -> PairsSoFar {
        PairLayout.start(alloc)
    }

    fn with_field(
        &self,
        place: usize,
        text: &[u8],
        so_far: PairsSoFar,
    ) -> Result<PairsSoFar, FieldFault> {
        PairLayout.with_field(place, text, so_far)
    }

    fn is_missing(&self, place: usize, text: &[u8]) -> bool {
        PairLayout.is_missing(place, text)
    }

    fn is_enough(&self, so_far: &PairsSoFar) -> bool {
        PairLayout.is_enough(so_far)
    }
}

/// The bivariate sample of a file, in time linear in it: each row of data has the two values of a
/// subject.
///
/// A value is a number text, with spaces and tabs around it ignored. There are 1 to
/// [`MOST_TWINS`] rows below the header, whose texts are not used. Rows and fields have
/// numbers from 1, so the header is row 1.
///
/// Where rows with a missing value are dropped, a row below the header that is not one too many, is
/// as wide as the header, and of which a picked value is empty or `NA`, gives no subject, and none
/// of its faults counts.
///
/// # Errors
/// `Columns` where there is a header and a listed field is not in it. Else `At` with the first
/// fault of the file: `NoHeader` where it has no row, `FieldCount` where its header has not two
/// fields and none are listed, and then, row by row, `TooManyRows`, `FieldCount` where the row is
/// not as wide as the header, and the faults of its picked fields in the order picked: `Missing`,
/// `NotNumber`, `OutOfRange`. `EndsEarly` at the last row where no row below the header is left. Or
/// else `NoMemory` where memory runs out.
pub fn twins(
    alloc: Global,
    rows: &Rows,
    picks: &Picks,
    missing: Missing,
) -> Result<Twins, LayoutFault>
    requires { MayPick 2 2 picks.now }
    ensures ok { IfOk result (λ sample.
        twins_in missing picks.now rows.now ≡ Ok (twin_data_of sample)) }
    ensures fault { IfErr result (IsFaultOf (twins_in missing picks.now rows.now)) }
{
    Ok(read_in(alloc, &TwinLayout, missing, rows, picks)?.into_twins())
}
