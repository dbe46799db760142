// The kinds of scores, and what is made of a list by one.
use midranks::Ties;
use thiserror::Error;
use weights::{Ints, NoMemory};

/// What a value counts for. Place p of N values is the place in ascending order, from 1 on. All
/// kinds but [`ScoreKind::Wilcoxon`] and [`ScoreKind::Raw`] give each place a number, and equal
/// values take the mean of the numbers of their places, times the least common multiple Z of all
/// tie sizes, so that it is whole.
#[derive(Clone, Copy, Debug, PartialEq, Eq)]
pub enum ScoreKind {
    /// The doubled midrank, over 2 (Wilcoxon, Biometrics Bulletin 1, 1945: average ranks at ties).
    Wilcoxon,
    /// Place p has the lesser of p and N + 1 - p, over Z (Ansari and Bradley, Annals of
    /// Mathematical Statistics 31, 1960, as in Hollander and Wolfe, Nonparametric Statistical
    /// Methods).
    Ansari,
    /// Place p has the square of 2p - N - 1, over 4Z (Mood, Annals of Mathematical Statistics 25,
    /// 1954: the square of the distance from the middle place).
    Mood,
    /// Place p has the sum of 1/j for j from N - p + 1 to N, times the least common multiple L of 1
    /// to N, over Z times L (Savage, Annals of Mathematical Statistics 27, 1956: exponential
    /// scores).
    Savage,
    /// Place p has 1 where 2p is greater than N + 1, else 0, over Z (the median test of Brown and
    /// Mood, 1951, of values strictly above the median).
    Median,
    /// The value itself, times 10^d over 10^d, with d the least number from 0 to 18 for which every
    /// value times 10^d is whole.
    Raw,
}

/// The scores of a list of values.
#[derive(Drop)]
pub struct Scored {
    /// A whole number for each value, in the order of the values.
    pub list: Ints,
    /// What the whole numbers are divided by to give the scores.
    pub scale: u128,
    /// The sum of the absolute values of the list.
    pub sum: u128,
}

/// The scores of the tie groups of a list of values, and of the list.
#[derive(Drop)]
pub struct TieScores {
    /// The distinct values in ascending order, each with how often it occurs.
    pub ties: Ties,
    /// A whole number for each distinct value.
    pub scores: Ints,
    /// The scores of all values.
    pub all: Scored,
}

/// Why there are no scores.
#[derive(Clone, Copy, Debug, PartialEq, Eq, Error)]
pub enum ScoreFault {
    /// The sum of the absolute scores passes the greatest statistic, `weights::MAX`.
    #[error("scores too wide")]
    TooWide,
    /// Memory ran out.
    #[error("no memory")]
    NoMemory,
}

impl From<NoMemory> for ScoreFault {
    ghost use Rattle.std.specs.Prelude.{◌≡◌};
    ghost use Rattle.scores.specs.declared.kinds.ScoreFault.TheVariants as fault;

    ghost from_gives = { λ _ result. result ≡ fault.NoMemory };

    fn from(_error: NoMemory) -> ScoreFault {
        ScoreFault::NoMemory
    }
}
