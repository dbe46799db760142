// A run whose report and line are kept.
ghost use Rattle.std.specs.Prelude.{IfOk};
ghost use Rattle.run_in_memory.specs.Runs.{IsRun};

use crate::sinks::GrowingSink;
use crate::sources::SliceSource;
use exact_run::{Status, run};
use packed_words::words;
use std::alloc::{AllocError, Global};

// What a run came to: how it ended, its report, and the line that says why there is none.
#[derive(Drop)]
pub(crate) struct Run {
    pub(crate) status: Status,
    pub(crate) report: Vec<u8>,
    pub(crate) line: Vec<u8>,
}

// Runs the command that the packed words name over the bytes of its file.
pub(crate) fn run_over(alloc: Global, packed: &[u8], bytes: &[u8]) -> Result<Run, AllocError>
    ensures { IfOk result (λ run.
        IsRun packed.now bytes.now run.status run.report.items run.line.items) }
{
    let words = words(alloc, packed)?;
    let mut source = SliceSource::new(bytes);
    let mut report = GrowingSink::new(alloc);
    let mut line = GrowingSink::new(alloc);
    let status = run(alloc, &words, &mut source, &mut report, &mut line);
    Ok(Run {
        status,
        report: report.whole()?,
        line: line.whole()?,
    })
}
