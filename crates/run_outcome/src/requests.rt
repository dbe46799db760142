// What a report is made of.
ghost use Rattle.std.proofs.Props.{props};
ghost use Rattle.run_outcome.specs.Outcome.{HasParts};

use crate::reports::Asking;
use record_reader::Rows;
use settings::Settings;

/// What a report is made of: what is asked of it, the settings, and the rows of the file.
#[derive(Drop)]
pub struct Request<'a> {
    pub asking: Asking,
    pub settings: &'a Settings,
    pub rows: &'a Rows,
    pub ghost parts: { HasParts asking } by { Prim.hlevel props },
}
