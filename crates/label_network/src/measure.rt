// What a statistic of labellings offers to its network.
ghost use Rattle.std.specs.Prelude.{◌≡◌, ◌<◌, length};
ghost use Rattle.std.specs.List.{Contains};
ghost use Rattle.label_network.specs.Measures.{AreReached, IsEnd, IsMeasure, Measured, allowed};

use networks::Verdict;
use weights::Tail;

/// A statistic over labellings by columns. Before each column there is a partial, of a fixed number
/// of numbers; how many of the column's subjects get each label leads to the next one, and the
/// partial after the last column has a value. Sizes that remain, how many of each label are still
/// to be given, are passed as i128; a stage is a column. No method takes memory.
///
/// What it knows of the completions of sizes and a partial may come of anything, as long as it is
/// sound. One that knows an interval is [`ByIntervals`](crate::ByIntervals).
pub trait Measure {
    /// The columns and rows that it measures, and what it measures of them.
    ghost meaning: { Self → Measured };

    /// How many numbers a partial has. The verdicts are sound, and decided after the last column.
    fn slots(&self) -> usize
        ensures slots { result ≡ (meaning self.now).slots }
        ensures sound { IsMeasure (meaning self.now) };

    /// Writes the partial before the first column.
    fn first(&self, partial: &mut [i128])
        requires { length partial.old ≡ (meaning self.now).slots }
        ensures { partial.new ≡ (meaning self.now).first };

    /// Writes the partial that a choice for the column of a stage leads to.
    fn advance(
        &self,
        stage: usize,
        remaining: &[i128],
        choice: &[u64],
        partial: &[i128],
        next: &mut [i128],
    )
        requires before { stage < length (meaning self.now).columns }
        requires reached { AreReached (meaning self.now) stage remaining.now partial.now }
        requires allowed { Contains (allowed (meaning self.now) stage remaining.now) choice.now }
        requires room { length next.old ≡ (meaning self.now).slots }
        ensures { let m = meaning self.now in
            next.new ≡ m.advance stage remaining.now choice.now partial.now };

    /// What is known of the completions of sizes and a partial.
    fn verdict(&self, stage: usize, remaining: &[i128], partial: &[i128], tail: Tail) -> Verdict
        requires { AreReached (meaning self.now) stage remaining.now partial.now }
        ensures { result ≡ (meaning self.now).verdict tail stage remaining.now partial.now };

    /// The value of a partial after the last column.
    fn value(&self, partial: &[i128]) -> i128
        requires { IsEnd (meaning self.now) partial.now }
        ensures { result ≡ (meaning self.now).value partial.now };
}
