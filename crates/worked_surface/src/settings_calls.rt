// The public calls of `settings`.
ghost use Rattle.std.specs.Prelude.{false, None, [], ◌++◌, ◌<◌, ◌↔◌, ◌∷◌, ◌≡◌, IfOk, IsTrue, OnErr, OnOk, length, map, slice_set, string_bytes, true};
ghost use Rattle.settings.specs.Faults.{Meets};
ghost use Rattle.settings.specs.Meaning.{is_help, meaning_of};
ghost use Rattle.std.specs.Prelude.{IsSome};
ghost use Rattle.record_reader.specs.declared.missing.Missing.TheVariants as ways;
ghost use Rattle.scores.specs.declared.kinds.ScoreKind.TheVariants as kinds;
ghost use Rattle.settings.specs.declared.tails.TailChoice.TheVariants as tails;

use record_reader::Picks;
use sample_reader::{Labels, Missing};
use scores::ScoreKind;
use settings::{
    CommandLine, FileName, Nums64, OptionName, PieceOf, Settings, TailChoice, TestName, UsageFault,
};
use std::alloc::Global;
use weights::{NoMemory, Odds};

/// The meaning of the words, or why they have none.
pub fn read(alloc: Global, words: &[String]) -> Result<CommandLine, UsageFault>
    ensures meaning { Meets (meaning_of (map string_bytes words.now)) result }
    ensures help { is_help (map string_bytes words.now) ≡ true → result ≡ Ok CommandLine.Help }
{
    settings::read(alloc, words)
}

/// The text of a file's name.
pub fn file_text(name: &FileName) -> &str
    ensures { result.now ≡ name.now }
{
    name.as_str()
}

/// The settings of a test of these data, by their fields. There are seventeen, and no other.
pub fn settings_of(
    alloc: Global,
    test: TestName,
    file: FileName,
    order: Labels,
    picks: Picks,
    piece: Option<PieceOf>,
) -> Settings
    ensures { result ≡ record {
      test = test;
      file = file;
      tail = tails.Two;
      scores = kinds.Wilcoxon;
      order = order;
      peak = 0;
      row_scores = [];
      column_scores = [];
      picks = picks;
      separator = 59;
      odds = None;
      missing = ways.Drop;
      miss = record { above = 1; below = 20 };
      distribution = true;
      plain = false;
      nodes = false;
      piece = piece;
    } }
{
    Settings {
        test,
        file,
        tail: TailChoice::Two,
        scores: ScoreKind::Wilcoxon,
        order,
        peak: 0,
        row_scores: no_numbers(alloc),
        column_scores: no_numbers(alloc),
        picks,
        separator: b';',
        odds: None,
        missing: Missing::Drop,
        miss: Odds {
            above: 1,
            below: 20,
        },
        distribution: true,
        plain: false,
        nodes: false,
        piece,
    }
}

/// The command of a test with these settings.
pub fn command_of(settings: Settings) -> CommandLine
    ensures { result ≡ CommandLine.Test settings }
{
    CommandLine::Test(settings)
}

/// The test of settings.
pub fn test_of(settings: &Settings) -> TestName
    ensures { result ≡ settings.now.test }
{
    settings.test
}

/// The file of settings.
pub fn file_of(settings: &Settings) -> &FileName
    ensures { result.now ≡ settings.now.file }
{
    &settings.file
}

/// The tails of settings.
pub fn tail_of(settings: &Settings) -> TailChoice
    ensures { result ≡ settings.now.tail }
{
    settings.tail
}

/// The scores of settings.
pub fn scores_of(settings: &Settings) -> ScoreKind
    ensures { result ≡ settings.now.scores }
{
    settings.scores
}

/// The order of settings.
pub fn order_of(settings: &Settings) -> &Labels
    ensures { result.now ≡ settings.now.order }
{
    &settings.order
}

/// The peak of settings.
pub fn peak_of(settings: &Settings) -> u64
    ensures { result ≡ settings.now.peak }
{
    settings.peak
}

/// The row scores of settings.
pub fn row_scores_of(settings: &Settings) -> &Nums64
    ensures { result.now ≡ settings.now.row_scores }
{
    &settings.row_scores
}

/// The column scores of settings.
pub fn column_scores_of(settings: &Settings) -> &Nums64
    ensures { result.now ≡ settings.now.column_scores }
{
    &settings.column_scores
}

/// The picks of settings.
pub fn picks_of(settings: &Settings) -> &Picks
    ensures { result.now ≡ settings.now.picks }
{
    &settings.picks
}

/// The separator of settings.
pub fn separator_of(settings: &Settings) -> u8
    ensures { result ≡ settings.now.separator }
{
    settings.separator
}

/// The odds of settings.
pub fn odds_of(settings: &Settings) -> Option<Odds>
    ensures { result ≡ settings.now.odds }
{
    settings.odds
}

/// What settings say of missing fields.
pub fn missing_of(settings: &Settings) -> Missing
    ensures { result ≡ settings.now.missing }
{
    settings.missing
}

/// How often limits may miss, by settings.
pub fn miss_of(settings: &Settings) -> Odds
    ensures { result ≡ settings.now.miss }
{
    settings.miss
}

/// The three flags of settings.
pub fn flags_of(settings: &Settings) -> (bool, bool, bool)
    ensures distribution { result.0 ≡ settings.now.distribution }
    ensures plain { result.1 ≡ settings.now.plain }
    ensures nodes { result.2 ≡ settings.now.nodes }
{
    (settings.distribution, settings.plain, settings.nodes)
}

/// Whether settings are of a part.
pub fn is_of_part(settings: &Settings) -> bool
    ensures { IsTrue result ↔ IsSome settings.now.piece }
{
    settings.piece.is_some()
}

/// The stage, the number of parts and the part of a divided run.
pub fn part_of(piece: &PieceOf) -> (u64, u64, u64)
    ensures at { result.0 ≡ piece.now.at }
    ensures parts { result.1 ≡ piece.now.parts }
    ensures part { result.2 ≡ piece.now.part }
{
    (piece.at, piece.parts, piece.part)
}

/// The bytes of a divided run's words.
pub fn given_of(piece: &PieceOf) -> &[u8]
    ensures { result.now ≡ piece.now.given }
{
    piece.given.as_slice()
}

/// The settings of a command that is a test. Commands are five, and no other.
pub fn test_settings(command: &CommandLine) -> Option<&Settings> {
    match command {
        CommandLine::Help => None,
        CommandLine::Test(settings) => Some(settings),
        CommandLine::Drill(_) => None,
        CommandLine::Shift(_) => None,
        CommandLine::Merge(_) => None,
    }
}

/// The place of a choice of tails. There are four, and no other.
pub fn tail_place(tail: TailChoice) -> u64
    ensures { result < 4 }
{
    match tail {
        TailChoice::All => 0,
        TailChoice::Less => 1,
        TailChoice::Greater => 2,
        TailChoice::Two => 3,
    }
}

/// The place of an option in the order of its faults. There are nineteen, and no other.
pub fn option_place(name: OptionName) -> u64
    ensures { result < 19 }
{
    match name {
        OptionName::Test => 0,
        OptionName::Tail => 1,
        OptionName::Scores => 2,
        OptionName::Order => 3,
        OptionName::Peak => 4,
        OptionName::RowScores => 5,
        OptionName::ColumnScores => 6,
        OptionName::Columns => 7,
        OptionName::Separator => 8,
        OptionName::Number => 9,
        OptionName::Distribution => 10,
        OptionName::Plain => 11,
        OptionName::Nodes => 12,
        OptionName::Odds => 13,
        OptionName::Missing => 14,
        OptionName::Miss => 15,
        OptionName::Stage => 16,
        OptionName::Parts => 17,
        OptionName::Part => 18,
    }
}

/// The place of a test. There are twenty-six names, and no other.
pub fn test_place(name: TestName) -> u64
    ensures { result < 26 }
{
    match name {
        TestName::SignedRank => 0,
        TestName::Sign => 1,
        TestName::RawSigned => 2,
        TestName::Mcnemar => 3,
        TestName::RankSum => 4,
        TestName::Ansari => 5,
        TestName::Mood => 6,
        TestName::Savage => 7,
        TestName::Median => 8,
        TestName::Raw => 9,
        TestName::Kw => 10,
        TestName::Jt => 11,
        TestName::Umbrella => 12,
        TestName::Friedman => 13,
        TestName::Page => 14,
        TestName::Cochran => 15,
        TestName::Fisher => 16,
        TestName::Linear => 17,
        TestName::Strata => 18,
        TestName::Drill => 19,
        TestName::Zelen => 20,
        TestName::StratRankSum => 21,
        TestName::Shift => 22,
        TestName::Kendall => 23,
        TestName::Runs => 24,
        TestName::Merge => 25,
    }
}

/// No signed number of 64 bits.
pub fn no_numbers(alloc: Global) -> Nums64
    ensures { result ≡ [] }
{
    Nums64::empty(alloc)
}

/// One more signed number of 64 bits.
pub fn push_number(list: &mut Nums64, item: i64) -> Result<(), NoMemory>
    ensures ok { OnOk result (list.new ≡ list.old ++ item ∷ []) }
    ensures err { OnErr result (list.new ≡ list.old) }
{
    list.push(item)
}

/// How many signed numbers of 64 bits there are.
pub fn numbers_len(list: &Nums64) -> usize
    ensures { result ≡ length list.now }
{
    list.len()
}

/// The signed numbers of 64 bits.
pub fn numbers_slice(list: &Nums64) -> &[i64]
    ensures { result.now ≡ list.now }
{
    list.as_slice()
}

/// Another signed number of 64 bits at a place.
pub fn set_number(list: &mut Nums64, i: usize, item: i64)
    requires { i < length list.old }
    ensures { list.new ≡ slice_set list.old i item }
{
    let items = list.as_mut_slice();
    items[i] = item;
}

/// The same signed numbers of 64 bits.
pub fn copy_numbers(list: &Nums64) -> Result<Nums64, NoMemory>
    ensures { IfOk result (λ copy. copy ≡ list.now) }
{
    list.copy()
}
