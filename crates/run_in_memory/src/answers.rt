// The one call.
ghost use Rattle.std.specs.Prelude.{◌≡◌};
ghost use Rattle.run_in_memory.specs.Answers.{IsAnswer};
ghost use Rattle.run_in_memory.specs.Places.{IsFilled};

use crate::places::fill;
use crate::runs::run_over;
use exact_run::Status;
use report::{Refusal, refusal_line};
use std::alloc::Global;

/// What a run in memory came to.
#[derive(Clone, Copy, Debug, PartialEq, Eq)]
pub struct Answer {
    /// How it ended.
    pub status: Status,
    /// How many bytes of the report were written.
    pub written: usize,
    /// How many bytes of the line of refusal were written.
    pub told: usize,
}

// The answer where there is no report: the line says why.
fn without_report(status: Status, line: &[u8], told: &mut [u8]) -> Answer
    ensures status { result.status ≡ status }
    ensures written { result.written ≡ 0 }
    ensures told { IsFilled told.old told.new result.told line.now }
{
    Answer {
        status,
        written: 0,
        told: fill(told, line),
    }
}

/// Runs the command that the packed words name, each ended by a byte 0, where the file that they
/// name, whatever its name, has these bytes. The report is put to the front of `out`. Where there
/// is none, `out` is as it was, and a line that says why is put to the front of `told`, as far as
/// it goes in. The status is `WriteFault` where `out` has no room for the report, and never
/// `ReadFault`. Words of which one is no text, or of which the last is not ended, are taken as
/// none, which is refused as the command line. All memory that the call takes is given back.
pub fn answer_in_memory(
    alloc: Global,
    packed: &[u8],
    bytes: &[u8],
    out: &mut [u8],
    told: &mut [u8],
) -> Answer
    ensures { IsAnswer packed.now bytes.now out.old out.new told.old told.new result }
{
    let Ok(run) = run_over(alloc, packed, bytes) else {
        let line = refusal_line(&Refusal::NoMemory);
        return without_report(Status::NoMemory, line.as_slice(), told);
    };
    if run.status != Status::Done {
        return without_report(run.status, &run.line, told);
    }
    if run.report.len() > out.len() {
        let line = refusal_line(&Refusal::WriteFault);
        return without_report(Status::WriteFault, line.as_slice(), told);
    }
    Answer {
        status: Status::Done,
        written: fill(out, &run.report),
        told: 0,
    }
}
