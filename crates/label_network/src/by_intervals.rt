// Measures by intervals, among those whose verdicts may come of anything.
ghost use Rattle.std.specs.Prelude.{◌≡◌};
ghost use Rattle.label_network.specs.LabelRooms.{label_floor};

use crate::measure::Measure;
use networks::Verdict;
use room_network::Measure as RoomMeasure;
use std::marker::Model;
use weights::Tail;

/// A measure by intervals, of the rooms of labels over columns, as a [`Measure`]: its verdicts are
/// those of each tail's rule over the interval. It is seen as columns, rows and measure.
#[derive(Drop)]
pub struct ByIntervals<M: RoomMeasure> {
    columns: Vec<u64>,
    rows: Vec<u64>,
    measure: M,
}

impl<M: RoomMeasure> Model for ByIntervals<M> {
    ghost use Rattle.std.specs.Prelude.{◌≡◌, ℕ, List};
    ghost use Rattle.label_network.specs.LabelRooms.{label_floor};

    ghost Value = { List ℕ × List ℕ × M };

    ghost view = { λ s. (s.columns.items, s.rows.items, s.measure) };

    ghost invariant = { λ s.
        label_floor s.columns.items s.rows.items ≡ (M.meaning s.measure).floor };
}

impl<M: RoomMeasure> ByIntervals<M> {
    /// The measure, whose rooms are those of these columns (how many subjects each has) and rows
    /// (how many subjects get each label).
    pub fn new(columns: Vec<u64>, rows: Vec<u64>, measure: M) -> ByIntervals<M>
        requires { label_floor columns.items rows.items ≡ (M.meaning measure).floor }
        ensures { result ≡ (columns.items, rows.items, measure) }
    {
        ByIntervals {
            columns,
            rows,
            measure,
        }
    }
}

impl<M: RoomMeasure> Measure for ByIntervals<M> {
    ghost use Rattle.label_network.specs.Measures.{by_intervals};

    ghost meaning = { λ s. by_intervals s.0 s.1 (M.meaning s.2) };

    fn slots(&self) -> usize {
        self.measure.slots()
    }

    fn first(&self, partial: &mut [i128]) {
        self.measure.first(partial);
    }

    fn advance(
        &self,
        stage: usize,
        remaining: &[i128],
        choice: &[u64],
        partial: &[i128],
        next: &mut [i128],
    ) {
        self.measure
            .advance(stage, remaining, choice, partial, next);
    }

    fn verdict(&self, stage: usize, remaining: &[i128], partial: &[i128], tail: Tail) -> Verdict {
        self.measure.verdict(stage, remaining, partial, tail)
    }

    fn value(&self, partial: &[i128]) -> i128 {
        self.measure.value(partial)
    }
}
