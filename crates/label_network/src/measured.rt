// The network of any measure of labellings.
ghost use Rattle.std.specs.Prelude.{◌≡◌, ℤ, Bool, IfOk};
ghost use Rattle.weights.specs.declared.tails.Tail.{Tail};
ghost use Rattle.networks.specs.Completions.{extreme_weight, value_weights};
ghost use Rattle.networks.specs.Network.{IsReached};
ghost use Rattle.label_network.specs.LabelSteps.{AreParts, IsSeated};
ghost use Rattle.label_network.specs.Measures.{AreMargins, extreme_labellings};
ghost use Rattle.label_network.specs.Measures.{measured_network, passing_labellings};

use crate::measure::Measure;
use crate::rooms::LabelRooms;
use networks::{Stages, Verdict, behind, front};
use room_network::Rooms;
use std::alloc::Global;
use std::marker::Model;
use weights::{NoMemory, Tail};

/// The network of a measure of labellings: a key has the sizes that remain, and then the measure's
/// partial. It is seen as the measure.
#[derive(Drop)]
pub struct LabelStages<M: Measure> {
    rooms: LabelRooms,
    measure: M,
}

impl<M: Measure> Model for LabelStages<M> {
    ghost use Rattle.label_network.specs.LabelSteps.{IsSeated};

    ghost Value = { M };

    ghost view = { λ s. s.measure };

    ghost invariant = { λ s.
        IsSeated (M.meaning s.measure) s.rooms.columns.items s.rooms.rows.items };
}

impl<M: Measure + Drop> LabelStages<M> {
    /// The network of a measure with these columns (how many subjects each has) and rows (how many
    /// subjects get each label). There are 2 to 8 rows, at most 16 of rows and slots, and at most
    /// [`MAX`](weights::MAX) labellings. A refusal drops the measure.
    ///
    /// At values that pass ends as much weight as labellings of single subjects have a value that
    /// does, each counted once; and a tail's extreme weight, which `tail_sum` answers, is how many
    /// of them are extreme.
    pub fn new(
        alloc: Global,
        columns: &[u64],
        rows: &[u64],
        measure: M,
    ) -> Result<LabelStages<M>, NoMemory>
        requires { AreMargins (M.meaning measure) columns.now rows.now }
        ensures measure { IfOk result (λ stages. stages ≡ measure) }
        ensures values { IfOk result (λ stages.
            let m = M.meaning stages in
            (p : ℤ → Bool) → value_weights (measured_network m) p ≡ passing_labellings m p) }
        ensures tails { IfOk result (λ stages.
            let m = M.meaning stages in
            let n = measured_network m in
            (t : Tail) → extreme_weight n t 0 n.first ≡ extreme_labellings m t) }
    {
        let _slots = measure.slots();
        let rooms = LabelRooms::new(alloc, columns, rows)?;
        Ok(LabelStages { rooms, measure })
    }
}

// The sizes that remain and the partial of a key that is reached.
fn parts<'a, M: Measure>(
    rooms: &LabelRooms,
    _measure: &M,
    _stage: usize,
    key: &'a [i128],
) -> (&'a [i128], &'a [i128])
    requires seated { let m = M.meaning _measure.now in
        IsSeated m rooms.now.columns.items rooms.now.rows.items }
    requires reached { IsReached (measured_network (M.meaning _measure.now)) _stage key.now }
    ensures { let m = M.meaning _measure.now in
        AreParts m rooms.now.columns.items rooms.now.rows.items _stage key.now
        result.0.now result.1.now }
{
    let width = rooms.width();
    (front(key, width), behind(key, width))
}

impl<M: Measure> Stages for LabelStages<M> {
    ghost network = { λ s. measured_network (M.meaning s) };

    fn stages(&self) -> usize {
        self.rooms.stages()
    }

    fn width(&self) -> usize {
        self.rooms.width() + self.measure.slots()
    }

    fn choice_width(&self) -> usize {
        self.rooms.choice_width()
    }

    fn first_key(&self, key: &mut [i128]) {
        let width = self.rooms.width();
        self.rooms.first(&mut key[..width]);
        self.measure.first(&mut key[width..]);
    }

    fn first_choice(&self, stage: usize, key: &[i128], choice: &mut [u64]) -> bool {
        if stage >= self.rooms.stages() {
            return false;
        }
        let (remaining, _) = parts(&self.rooms, &self.measure, stage, key);
        self.rooms.first_choice(stage, remaining, choice);
        true
    }

    fn next_choice(&self, stage: usize, key: &[i128], choice: &mut [u64]) -> bool {
        let (remaining, _) = parts(&self.rooms, &self.measure, stage, key);
        self.rooms.next_choice(stage, remaining, choice)
    }

    fn apply(&self, stage: usize, key: &[i128], choice: &[u64], next: &mut [i128]) -> u128 {
        let (remaining, partial) = parts(&self.rooms, &self.measure, stage, key);
        let width = self.rooms.width();
        let weight = self
            .rooms
            .cross(stage, remaining, choice, &mut next[..width]);
        self.measure
            .advance(stage, remaining, choice, partial, &mut next[width..]);
        weight
    }

    fn rest(&self, stage: usize, key: &[i128]) -> u128 {
        let (remaining, _) = parts(&self.rooms, &self.measure, stage, key);
        self.rooms.rest(stage, remaining)
    }

    fn verdict(&self, stage: usize, key: &[i128], tail: Tail) -> Verdict {
        let (remaining, partial) = parts(&self.rooms, &self.measure, stage, key);
        self.measure.verdict(stage, remaining, partial, tail)
    }

    fn value(&self, key: &[i128]) -> i128 {
        let (_, partial) = parts(&self.rooms, &self.measure, self.rooms.stages(), key);
        self.measure.value(partial)
    }
}
