// The public calls of `report`.
ghost use Rattle.std.specs.Prelude.{◌≡◌, ◌≤◌, IfOk, ℕ, IfSome, ◌^◌};
ghost use Rattle.std.specs.Option.{option_copied};
ghost use Rattle.report.specs.Refusals.{refusal_line_text};
ghost use Rattle.report.specs.Report.{head_text, merged_text, report_text};
ghost use Rattle.report.specs.Shift.{shift_text};
ghost use Rattle.report.specs.ShortLines.{bytes_of};
ghost use Rattle.weights.specs.declared.TheConstants.{MAX};
ghost use Rattle.report.specs.Decimals.{six_decimals as six_decimals_of};

use record_reader::DataFault;
use report::{Extra, Refusal, ShortLine, Sizes, Title};
use sample_reader::Labels;
use scores::ScoreKind;
use settings::{OptionName, TestName, UsageFault};
use stage_network::{Answer, Spread, WideOf};
use std::alloc::Global;
use weights::{Bytes, Limits, NoMemory, Nums};

/// The report of an answer.
pub fn compose(
    alloc: Global,
    title: Title,
    sizes: &Sizes,
    extra: Extra,
    dropped: Option<u64>,
    answer: &Answer,
    nodes: bool,
    spread: Option<&Spread>,
) -> Result<Bytes, NoMemory>
    requires some { 1 ≤ answer.now.total }
    requires fits { answer.now.total ≤ MAX }
    requires less { IfSome answer.now.less (λ tail. tail.sum ≤ answer.now.total) }
    requires greater { IfSome answer.now.greater (λ tail. tail.sum ≤ answer.now.total) }
    requires two { IfSome answer.now.two (λ tail. tail.sum ≤ answer.now.total) }
    ensures { let lines = option_copied spread.entry in IfOk result (λ text.
        text ≡ report_text title sizes.now dropped extra answer.now nodes lines) }
{
    report::compose(alloc, title, sizes, extra, dropped, answer, nodes, spread)
}

/// The lines of a report up to that of the total.
pub fn compose_head(
    alloc: Global,
    title: Title,
    sizes: &Sizes,
    extra: Extra,
    dropped: Option<u64>,
    statistic: i128,
    scale: u128,
    total: u128,
) -> Result<Bytes, NoMemory>
    ensures { IfOk result (λ text.
        text ≡ head_text title sizes.now dropped extra statistic scale total) }
{
    report::compose_head(alloc, title, sizes, extra, dropped, statistic, scale, total)
}

/// The report of merged parts.
pub fn compose_merged(
    alloc: Global,
    head: &Bytes,
    total: u128,
    less: Option<u128>,
    greater: Option<u128>,
    two: Option<u128>,
) -> Result<Bytes, NoMemory>
    requires some { 1 ≤ total }
    requires fits { total ≤ MAX }
    requires less { IfSome less (λ numerator. numerator ≤ total) }
    requires greater { IfSome greater (λ numerator. numerator ≤ total) }
    requires two { IfSome two (λ numerator. numerator ≤ total) }
    ensures { IfOk result (λ text. text ≡ merged_text head.now total less greater two) }
{
    report::compose_merged(alloc, head, total, less, greater, two)
}

/// The report of a shift.
pub fn compose_shift(
    alloc: Global,
    sizes: &Sizes,
    dropped: Option<u64>,
    limits: &Limits,
) -> Result<Bytes, NoMemory>
    requires some { 1 ≤ limits.now.total }
    requires fits { limits.now.total ≤ MAX }
    requires part { limits.now.missed ≤ limits.now.total }
    requires places { limits.now.places ≤ 10 ^ 18 }
    ensures { IfOk result (λ text. text ≡ shift_text sizes.now dropped limits.now) }
{
    report::compose_shift(alloc, sizes, dropped, limits)
}

/// The line of a refusal.
pub fn refusal_line(refusal: &Refusal) -> ShortLine
    ensures line { bytes_of result ≡ refusal_line_text refusal.now }
    ensures fits { result.used ≤ 96 }
{
    report::refusal_line(refusal)
}

/// A quotient rounded half up.
pub fn six_decimals(numerator: u128, denominator: u128) -> [u8; 8]
    requires part { numerator ≤ denominator }
    requires some { 1 ≤ denominator }
    requires most { denominator ≤ MAX }
    ensures { result ≡ six_decimals_of numerator denominator }
{
    report::six_decimals(numerator, denominator)
}

/// The title of a test.
pub fn title_of(test: TestName) -> Title
    ensures { result ≡ Title.Test test }
{
    Title::Test(test)
}

/// The number of a title. Titles are two, and no other.
pub fn drilled(title: Title) -> Option<u64>
    ensures { (number : ℕ) → title ≡ Title.Drill number → result ≡ Some number }
{
    match title {
        Title::Test(_) => None,
        Title::Drill(number) => Some(number),
    }
}

/// The extra lines of a kind of scores.
pub fn scores_of(kind: ScoreKind) -> Extra
    ensures { result ≡ Extra.Scores kind }
{
    Extra::Scores(kind)
}

/// The peak of extra lines, which are none, of scores, or of a peak.
pub fn peak_of(extra: Extra) -> Option<u64>
    ensures { (peak : ℕ) → extra ≡ Extra.Peak peak → result ≡ Some peak }
{
    match extra {
        Extra::None | Extra::Scores(_) => None,
        Extra::Peak(peak) => Some(peak),
    }
}

/// The sizes of pairs.
pub fn pair_sizes(rows: u64, used: u64) -> Sizes
    ensures { result ≡ Sizes.Pairs rows used }
{
    Sizes::Pairs { rows, used }
}

/// The sizes of groups.
pub fn group_sizes(labels: Labels, sizes: Nums) -> Sizes
    ensures { result ≡ Sizes.Groups labels sizes }
{
    Sizes::Groups { labels, sizes }
}

/// The sizes of blocks.
pub fn block_sizes(blocks: u64, treatments: u64) -> Sizes
    ensures { result ≡ Sizes.Blocks blocks treatments }
{
    Sizes::Blocks { blocks, treatments }
}

/// The sizes of a table.
pub fn table_sizes(rows: u64, columns: u64, sum: u64) -> Sizes
    ensures { result ≡ Sizes.Table rows columns sum }
{
    Sizes::Table { rows, columns, sum }
}

/// The sizes of strata.
pub fn strata_sizes(strata: u64, sum: u64) -> Sizes
    ensures { result ≡ Sizes.Strata strata sum }
{
    Sizes::Strata { strata, sum }
}

/// The status of a refusal. There are thirteen, and no other.
pub fn status_of(refusal: Refusal) -> u8
    ensures { result ≤ 7 }
{
    match refusal {
        Refusal::Usage(UsageFault::NoMemory) => 7,
        Refusal::Usage(UsageFault::Form) => 2,
        Refusal::Usage(UsageFault::Value(_)) => 2,
        Refusal::Usage(UsageFault::Pairing(_, _)) => 2,
        Refusal::Unfit(_) => 2,
        Refusal::Row(_) | Refusal::TooLong => 3,
        Refusal::PieceLine(_) | Refusal::Foreign(_) | Refusal::Doubled(_) => 3,
        Refusal::MissingPart(_) | Refusal::Unequal(_) => 3,
        Refusal::TooWide(_) => 4,
        Refusal::ReadFault => 5,
        Refusal::WriteFault => 6,
        Refusal::NoMemory => 7,
    }
}

/// The refusal of an option that does not fit the data.
pub fn unfit(name: OptionName) -> Refusal
    ensures { result ≡ Refusal.Unfit name }
{
    Refusal::Unfit(name)
}

/// The refusal of a row.
pub fn row_refused(fault: DataFault) -> Refusal
    ensures { result ≡ Refusal.Row fault }
{
    Refusal::Row(fault)
}

/// The refusal of a number that is too wide.
pub fn wide(of: WideOf) -> Refusal
    ensures { result ≡ Refusal.TooWide of }
{
    Refusal::TooWide(of)
}

/// A short line, of its two parts.
pub fn short_line(bytes: [u8; 96], used: usize) -> ShortLine
    ensures { result ≡ record { bytes = bytes; used = used } }
{
    ShortLine { bytes, used }
}
