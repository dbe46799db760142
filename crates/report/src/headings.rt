// What a report says above the numbers of the answer.
use sample_reader::Labels;
use scores::ScoreKind;
use settings::TestName;
use weights::Nums;

/// What a report is of.
#[derive(Clone, Copy, Debug, PartialEq, Eq)]
pub enum Title {
    /// A test of a file's data.
    Test(TestName),
    /// The test of the data that are made from this number.
    Drill(u64),
}

/// The sizes of the data, by their layout.
#[derive(Drop)]
pub enum Sizes {
    /// How many rows there are, and how many of them have a difference that is not zero.
    Pairs { rows: u64, used: u64 },
    /// The labels of the groups in the order used, and how many values each has.
    Groups { labels: Labels, sizes: Nums },
    /// How many blocks and treatments there are.
    Blocks { blocks: u64, treatments: u64 },
    /// How many rows and columns a table has, and the sum of its cells.
    Table { rows: u64, columns: u64, sum: u64 },
    /// How many strata there are, and how many subjects all of them have: in tables, the sum of all
    /// their cells.
    Strata { strata: u64, sum: u64 },
}

/// What a report says of a test beside the sizes.
#[derive(Clone, Copy, Debug, PartialEq, Eq)]
pub enum Extra {
    /// Nothing.
    None,
    /// The kind of the scores.
    Scores(ScoreKind),
    /// The number of the group at the peak, from 1.
    Peak(u64),
}
