//! What C, Python and R call: one run of `exact` in memory.
#![tactic(auto)]

ghost use Rattle.std.specs.Prelude.{◌≡◌};
ghost use Rattle.run_outcome.specs.Promises.{status_number};
ghost use Rattle.run_in_memory.specs.Answers.{IsAnswer};
ghost use Rattle.run_in_memory.specs.declared.answers.Answer.{Answer};

use run_in_memory::answer_in_memory;
use std::alloc::Global;

/// How many bytes a call wrote: of the report, and of the line that says why there is none.
#[repr(C)]
#[derive(Drop)]
pub struct ExactCounts {
    pub written: usize,
    pub told: usize,
}

/// Runs the command that the packed words name, each ended by a byte 0, over the bytes of its file,
/// and answers the number of the status, which is that with which the program `exact` ends. Words
/// of which one is no text, or of which the last is not ended, are taken as none, which is refused
/// as the command line.
#[unsafe(no_mangle)]
pub extern "C" fn exact_answer(
    alloc: Global,
    words: &[u8],
    bytes: &[u8],
    out: &mut [u8],
    told: &mut [u8],
    counts: &mut ExactCounts,
) -> u8
    ensures { (answer : Answer) × (result ≡ status_number answer.status)
        × (counts.new ≡ record { written = answer.written; told = answer.told })
        × IsAnswer words.now bytes.now out.old out.new told.old told.new answer }
{
    let answer = answer_in_memory(alloc, words, bytes, out, told);
    counts.written = answer.written;
    counts.told = answer.told;
    answer.status.number()
}
