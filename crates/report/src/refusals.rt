// Why there is no report, and the line that says so.
ghost use Rattle.std.specs.Prelude.{◌≡◌, ◌+◌, ◌≤◌, ◌++◌, decimal, length};
ghost use Rattle.report.specs.ShortLines.{bytes_of};
ghost use Rattle.report.specs.Refusals.{fault_text, option_text, refusal_line_text, refusal_text, usage_text, wide_word};

use crate::short_line::{LineStart, ShortLine};
use record_reader::DataFault;
use settings::{OptionName, UsageFault};
use thiserror::Error;
use weights::{NoMemory, WideOf};

/// Why a run has no report.
#[derive(Clone, Copy, Debug, PartialEq, Eq, Error)]
pub enum Refusal {
    /// The words are refused.
    #[error(transparent)]
    Usage(UsageFault),
    /// An option does not fit the data of the file.
    #[error("--{} does not fit the data", .0.word())]
    Unfit(OptionName),
    /// The data of the file have a fault.
    #[error(transparent)]
    Row(DataFault),
    /// The file is longer than a file may be.
    #[error("file longer than 1048576 bytes")]
    TooLong,
    /// A number of the test passes the greatest that there is.
    #[error("too wide: {}", word_of(*.0))]
    TooWide(WideOf),
    /// The file of pieces has at this line, from 1, what no pieces have there.
    #[error("piece line {0}")]
    PieceLine(u64),
    /// The first piece, from 1, of another run than the first.
    #[error("foreign piece {0}")]
    Foreign(u64),
    /// The first piece, from 1, whose part occurred before.
    #[error("doubled piece {0}")]
    Doubled(u64),
    /// The least part, from 0, that no piece is of.
    #[error("missing part {0}")]
    MissingPart(u64),
    /// The first piece, from 1, that tells something else of the run than the first, or with which
    /// a numerator passes the total.
    #[error("unequal piece {0}")]
    Unequal(u64),
    /// A call to the source failed.
    #[error("read fault")]
    ReadFault,
    /// A write of the report failed.
    #[error("write fault")]
    WriteFault,
    /// Memory ran out.
    #[error("no memory")]
    NoMemory,
}

// Adds an option as it is written.
fn push_option(line: &mut LineStart, name: OptionName)
    requires { length line.old ≤ 20 }
    ensures text { line.new ≡ line.old ++ option_text name }
    ensures short { length line.new ≤ length line.old + 15 }
{
    if name != OptionName::Test {
        line.push(b"--");
    }
    line.push(name.word().as_bytes());
}

// Adds what is wrong with the words.
fn push_usage(line: &mut LineStart, fault: UsageFault)
    requires { length line.old ≤ 9 }
    ensures text { line.new ≡ line.old ++ usage_text fault }
    ensures short { length line.new ≤ 80 }
{
    match fault {
        UsageFault::Form => line.push(b"command line"),
        UsageFault::Value(name) => {
            line.push(b"value of ");
            push_option(line, name);
        }
        UsageFault::Pairing(name, test) => {
            push_option(line, name);
            line.push(b" with ");
            line.push(test.word().as_bytes());
        }
        UsageFault::NoMemory => line.push(b"no memory"),
    }
}

// Adds where a fault of the data is, and what is wrong there.
fn push_fault(line: &mut LineStart, fault: DataFault)
    requires { length line.old ≤ 9 }
    ensures text { line.new ≡ line.old ++ fault_text fault }
    ensures short { length line.new ≤ 80 }
{
    line.push(b"row ");
    line.push_number(fault.row);
    if fault.kind.has_field() {
        line.push(b" field ");
        line.push_number(fault.field);
    }
    line.push(b": ");
    line.push(fault.kind.text().as_bytes());
}

// The word for a number of a test.
fn word_of(number: WideOf) -> &'static str
    ensures { result.now ≡ wide_word number }
{
    match number {
        WideOf::Total => "total",
        WideOf::Statistic => "statistic",
    }
}

// Adds words and the number of what is wrong.
fn push_place(line: &mut LineStart, words: &str, number: u64)
    requires line { length line.old ≤ 9 }
    requires words { length words.now ≤ 14 }
    ensures text { line.new ≡ line.old ++ (words.now ++ decimal number) }
    ensures short { length line.new ≤ 80 }
{
    line.push(words.as_bytes());
    line.push_number(number);
}

// Adds the words that tell a refusal.
fn push_text(line: &mut LineStart, refusal: Refusal)
    requires { length line.old ≤ 9 }
    ensures text { line.new ≡ line.old ++ refusal_text refusal }
    ensures short { length line.new ≤ 80 }
{
    match refusal {
        Refusal::Usage(fault) => push_usage(line, fault),
        Refusal::Unfit(name) => {
            push_option(line, name);
            line.push(b" does not fit the data");
        }
        Refusal::Row(fault) => push_fault(line, fault),
        Refusal::TooLong => line.push(b"file longer than 1048576 bytes"),
        Refusal::TooWide(number) => {
            line.push(b"too wide: ");
            line.push(word_of(number).as_bytes());
        }
        Refusal::PieceLine(number) => push_place(line, "piece line ", number),
        Refusal::Foreign(piece) => push_place(line, "foreign piece ", piece),
        Refusal::Doubled(piece) => push_place(line, "doubled piece ", piece),
        Refusal::MissingPart(part) => push_place(line, "missing part ", part),
        Refusal::Unequal(piece) => push_place(line, "unequal piece ", piece),
        Refusal::ReadFault => line.push(b"read fault"),
        Refusal::WriteFault => line.push(b"write fault"),
        Refusal::NoMemory => line.push(b"no memory"),
    }
}

/// The line that tells a refusal, with its line feed: `bytes[..used]`. It takes no memory.
pub fn refusal_line(refusal: &Refusal) -> ShortLine
    ensures line { bytes_of result ≡ refusal_line_text refusal.now }
    ensures fits { result.used ≤ 96 }
{
    let mut line = LineStart::empty();
    line.push(b"refused: ");
    push_text(&mut line, *refusal);
    line.push(b"\n");
    line.line()
}

impl From<NoMemory> for Refusal {
    ghost use Rattle.report.specs.declared.refusals.Refusal.TheVariants as refusal;

    ghost from_gives = { λ _ result. result ≡ refusal.NoMemory };

    fn from(_error: NoMemory) -> Refusal {
        Refusal::NoMemory
    }
}

impl From<UsageFault> for Refusal {
    ghost use Rattle.report.specs.declared.refusals.Refusal.TheVariants as refusal;

    ghost from_gives = { λ fault result. result ≡ refusal.Usage fault };

    fn from(fault: UsageFault) -> Refusal {
        Refusal::Usage(fault)
    }
}
