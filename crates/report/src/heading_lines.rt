// The lines of a report above the numbers of the answer.
ghost use Rattle.std.specs.Prelude.{◌≡◌, ◌++◌, OnOk};
ghost use Rattle.report.specs.Report.{dropped_line, extra_lines, group_line, group_lines, size_lines, title_line};

use crate::headings::{Extra, Sizes, Title};
use crate::pieces::{end_line, push_label, push_number, push_words};
use sample_reader::Labels;
use settings::score_word;
use weights::{Bytes, NoMemory};

// Adds the line that says what was run.
#[tactic(auto, unfolding(crate::specs::Report::title_line))]
pub(crate) fn push_title(text: &mut Bytes, title: Title) -> Result<(), NoMemory>
    ensures { OnOk result (text.new ≡ text.old ++ title_line title) }
{
    match title {
        Title::Test(name) => push_words(text, "test ", name.word()),
        Title::Drill(number) => end_line(text, "test drill ", number),
    }
}

// Adds the line of a group.
#[tactic(auto, unfolding(crate::specs::Report::group_line))]
fn push_group(text: &mut Bytes, size: u64, label: &[u8]) -> Result<(), NoMemory>
    ensures { OnOk result (text.new ≡ text.old ++ group_line size label.now) }
{
    push_number(text, "group ", size)?;
    text.append(b" ")?;
    push_label(text, label)?;
    text.append(b"\n")
}

// Adds a line for each group.
#[tactic(auto, unfolding(crate::specs::Report::group_lines))]
fn push_groups(text: &mut Bytes, sizes: &[u64], labels: &Labels) -> Result<(), NoMemory>
    ensures { OnOk result (text.new ≡ text.old ++ group_lines sizes.now labels.now) }
{
    for i in 0..sizes.len().min(labels.len()) {
        push_group(text, sizes[i], labels.label(i))?;
    }
    Ok(())
}

// Adds the lines that tell the sizes of the data.
#[tactic(auto, unfolding(crate::specs::Report::size_lines))]
pub(crate) fn push_sizes(text: &mut Bytes, sizes: &Sizes) -> Result<(), NoMemory>
    ensures { OnOk result (text.new ≡ text.old ++ size_lines sizes.now) }
{
    match sizes {
        Sizes::Pairs { rows, used } => {
            push_number(text, "rows ", *rows)?;
            end_line(text, " used ", *used)
        }
        Sizes::Groups { labels, sizes } => push_groups(text, sizes.as_slice(), labels),
        Sizes::Blocks { blocks, treatments } => {
            push_number(text, "blocks ", *blocks)?;
            end_line(text, " treatments ", *treatments)
        }
        Sizes::Table { rows, columns, sum } => {
            push_number(text, "table ", *rows)?;
            push_number(text, " by ", *columns)?;
            end_line(text, " sum ", *sum)
        }
        Sizes::Strata { strata, sum } => {
            push_number(text, "strata ", *strata)?;
            end_line(text, " sum ", *sum)
        }
    }
}

// Adds how many rows were left out, where they are.
#[tactic(auto, unfolding(crate::specs::Report::dropped_line))]
pub(crate) fn push_dropped(text: &mut Bytes, dropped: Option<u64>) -> Result<(), NoMemory>
    ensures { OnOk result (text.new ≡ text.old ++ dropped_line dropped) }
{
    match dropped {
        Some(count) => end_line(text, "dropped ", count),
        None => Ok(()),
    }
}

// Adds what a test has beside the sizes.
#[tactic(auto, unfolding(crate::specs::Report::extra_lines))]
pub(crate) fn push_extra(text: &mut Bytes, extra: Extra) -> Result<(), NoMemory>
    ensures { OnOk result (text.new ≡ text.old ++ extra_lines extra) }
{
    match extra {
        Extra::None => Ok(()),
        Extra::Scores(kind) => push_words(text, "scores ", score_word(kind)),
        Extra::Peak(peak) => end_line(text, "peak ", peak),
    }
}
