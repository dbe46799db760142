// Networks of groups in order whose sums stand in one number, which most choices only add to.
ghost use Rattle.std.specs.Prelude.{◌≡◌, ◌+◌, ◌^◌, ◌≤◌, ◌+ℤ◌, true, get_or, length, pos};
ghost use Rattle.std.specs.Prelude.{ℕ, ℤ, Bool, unsigned_abs};
ghost use Rattle.weights.specs.Conditional.{ConditionalTest};
ghost use Rattle.weights.specs.declared.TheConstants.{MAX};
ghost use Rattle.weights.specs.declared.tails.Tail.{Tail};
ghost use Rattle.networks.specs.Completions.{value_weights};
ghost use Rattle.networks.specs.Follows.{Follows};
ghost use Rattle.networks.specs.GoesOn.{GoesOn};
ghost use Rattle.room_network.specs.RoomNetworks.{room_network};
ghost use Rattle.symmetry_reduction.specs.OrderedGroups.{stay};
ghost use Rattle.symmetry_reduction.specs.ReducedNetworks.{reduced_network};
ghost use Rattle.packed_keys.specs.PackedGroups.{AddsSteps, shift};
ghost use Rattle.packed_keys.specs.PackedKeys.{MayBePacked, packed_key, packed_network};
ghost use Rattle.packed_keys.specs.PackedSteps.{AreDigits};

use crate::digits::packed_number;
use crate::network::Packed;
use networks::{Onward, Roomed, Stages, Verdict, behind, front};
use room_network::{Measure, Rooms};
use std::marker::Model;
use symmetry_reduction::{Order, SymmetryReduced, stay};
use weights::{Tail, plus};

/// A network of rooms with its groups in order and their sums in one number. A choice after which
/// the groups stay as they stand adds a number to that one, and leads keys that ascend to keys that
/// ascend. It is seen as the network in order and the bits of a sum.
#[derive(Drop)]
pub struct PackedGroups<R: Rooms, M: Measure> {
    stages: Packed<SymmetryReduced<R, M>>,
}

impl<R: Rooms, M: Measure> Model for PackedGroups<R, M> {
    ghost use Rattle.std.specs.Prelude.{ℕ, List};
    ghost use Rattle.symmetry_reduction.specs.declared.orders.Order.{Order};
    ghost use Rattle.packed_keys.specs.PackedSteps.{IsPackedGroups};

    ghost Value = { (R × M × List ℕ × Order) × ℕ };

    ghost view = { λ p. p.stages };

    ghost invariant = { λ p.
        IsPackedGroups (R.plan p.stages.0.0) (M.meaning p.stages.0.1) p.stages.0.2 p.stages.0.3
        p.stages.1 };
}

// Writes whether groups stay as they stand after a choice, and what it then adds to the one number.
#[inline(always)]
fn write_shift(order: Order, bits: u32, left: &[i128], added: &[i128], numbers: &mut [i128])
    requires digits { stay order left.now ≡ true → AreDigits bits added.now }
    requires room { length numbers.old ≡ 2 }
    ensures { numbers.new ≡ shift (2 ^ bits) (stay order left.now) added.now }
{
    if stay(order, left) {
        numbers[0] = 1;
        numbers[1] = packed_number(bits, added);
    } else {
        numbers[0] = 0;
        numbers[1] = 0;
    }
}

// Whether groups stay as they stand after a step's choice, which only adds to the one number.
#[inline(always)]
fn only_adds(step: &[i128]) -> bool
    requires { 2 ≤ length step.now }
    ensures { result ≡ true → get_or step.now 0 (pos 0) ≡ pos 1 }
{
    step[0] == 1
}

// The one number of a partial with what a step then adds to it.
#[inline(always)]
fn shifted(partial: &[i128], step: &[i128]) -> i128
    requires one { length partial.now ≡ 1 }
    requires long { 2 ≤ length step.now }
    requires fits { unsigned_abs (get_or partial.now 0 (pos 0))
        + unsigned_abs (get_or step.now 1 (pos 0)) ≤ MAX }
    ensures { result ≡ get_or partial.now 0 (pos 0) +ℤ get_or step.now 1 (pos 0) }
{
    plus(partial[0], step[1])
}

impl<R: Rooms, M: Measure> PackedGroups<R, M> {
    /// A network with its groups in order, and their sums packed. As much weight ends at each
    /// value, and it follows the tests that the network follows.
    pub fn new(ordered: SymmetryReduced<R, M>, bits: u32) -> PackedGroups<R, M>
        requires packed { let m = M.meaning ordered.1 in
            let n = room_network m (R.plan ordered.0).weight in
            MayBePacked m.floor.width bits (reduced_network ordered.3 ordered.2 n) }
        requires adds { AddsSteps ordered.3 (M.meaning ordered.1) }
        ensures parts { result ≡ (ordered, bits) }
        ensures ends { let m = M.meaning ordered.1 in
            let n = room_network m (R.plan ordered.0).weight in
            let o = reduced_network ordered.3 ordered.2 n in
            let q = packed_network m.floor.width bits o in
            (p : ℤ → Bool) → value_weights q p ≡ value_weights o p }
        ensures follows { let m = M.meaning ordered.1 in
            let n = room_network m (R.plan ordered.0).weight in
            let o = reduced_network ordered.3 ordered.2 n in
            let q = packed_network m.floor.width bits o in
            (test : ConditionalTest) (tail : Tail)
            → Follows test tail o → Follows test tail q }
        ensures goes_on { let m = M.meaning ordered.1 in
            let n = room_network m (R.plan ordered.0).weight in
            let o = reduced_network ordered.3 ordered.2 n in
            let w = m.floor.width in
            (g : ℕ) → g ≤ o.count
            → GoesOn o (packed_network w bits o) g g (packed_key w (2 ^ bits)) }
    {
        ordered.sound();
        PackedGroups {
            stages: Packed::new(ordered, bits),
        }
    }
}

impl<R: Rooms, M: Measure> Stages for PackedGroups<R, M> {
    ghost network = { λ p. packed_network (M.meaning p.0.1).floor.width p.1
        (reduced_network p.0.3 p.0.2 (room_network (M.meaning p.0.1) (R.plan p.0.0).weight)) };

    fn stages(&self) -> usize {
        self.stages.stages()
    }

    fn width(&self) -> usize {
        self.stages.width()
    }

    fn choice_width(&self) -> usize {
        self.stages.choice_width()
    }

    fn first_key(&self, key: &mut [i128]) {
        self.stages.first_key(key);
    }

    fn first_choice(&self, stage: usize, key: &[i128], choice: &mut [u64]) -> bool {
        self.stages.first_choice(stage, key, choice)
    }

    fn next_choice(&self, stage: usize, key: &[i128], choice: &mut [u64]) -> bool {
        self.stages.next_choice(stage, key, choice)
    }

    fn apply(&self, stage: usize, key: &[i128], choice: &[u64], next: &mut [i128]) -> u128 {
        self.stages.apply(stage, key, choice, next)
    }

    fn rest(&self, stage: usize, key: &[i128]) -> u128 {
        self.stages.rest(stage, key)
    }

    fn verdict(&self, stage: usize, key: &[i128], tail: Tail) -> Verdict {
        self.stages.verdict(stage, key, tail)
    }

    fn value(&self, key: &[i128]) -> i128 {
        self.stages.value(key)
    }
}

impl<R: Rooms, M: Measure> Roomed for PackedGroups<R, M> {
    ghost use Rattle.std.specs.Prelude.{◌+◌};
    ghost use Rattle.packed_keys.specs.PackedGroups.{shifting_step};

    ghost room_width = { λ p. (M.meaning p.0.1).floor.width };

    ghost step_width = { λ p.
        2 + ((M.meaning p.0.1).floor.width + (M.meaning p.0.1).step_width) };

    ghost step_of = { λ p g room c.
        shifting_step p.0.3 p.1 ((M.meaning p.0.1).floor.next g room c)
        ((M.meaning p.0.1).step g room c) };

    ghost outlook_width = { λ p. (M.meaning p.0.1).outlook_width };

    ghost outlook_of = { λ p. (M.meaning p.0.1).outlook };

    fn room_width(&self) -> usize {
        self.stages.room_width()
    }

    fn step_width(&self) -> usize {
        2 + self.stages.step_width()
    }

    // A step has two numbers in front of the network's own.
    fn step(&self, stage: usize, room: &[i128], choice: &[u64], step: &mut [i128]) {
        let (numbers, inner) = step.split_at_mut(2);
        self.stages.step(stage, room, choice, inner);
        let groups = self.stages.inner();
        let order = groups.order();
        let left = front(inner, room.len());
        let added = behind(inner, room.len());
        write_shift(order, self.stages.bits(), left, added, numbers);
    }

    #[inline(always)]
    fn advance(
        &self,
        stage: usize,
        room: &[i128],
        choice: &[u64],
        step: &[i128],
        partial: &[i128],
        next: &mut [i128],
    ) {
        if only_adds(step) {
            next[0] = shifted(partial, step);
        } else {
            self.stages
                .advance(stage, room, choice, behind(step, 2), partial, next);
        }
    }

    fn outlook_width(&self) -> usize {
        self.stages.outlook_width()
    }

    fn outlook(&self, stage: usize, room: &[i128], outlook: &mut [i128]) {
        self.stages.outlook(stage, room, outlook);
    }

    #[inline(always)]
    fn verdict_by(
        &self,
        stage: usize,
        room: &[i128],
        outlook: &[i128],
        partial: &[i128],
        tail: Tail,
    ) -> Verdict {
        self.stages.verdict_by(stage, room, outlook, partial, tail)
    }
}

impl<R: Rooms, M: Measure> Onward for PackedGroups<R, M> {
    ghost use Rattle.std.specs.Prelude.{◌^◌};
    ghost use Rattle.symmetry_reduction.specs.OrderedGroups.{groups_in_order};
    ghost use Rattle.packed_keys.specs.PackedGroups.{AreOrderable};
    ghost use Rattle.packed_keys.specs.PackedKeys.{packed_key};

    ghost takes = { λ p g key.
        AreOrderable p.0.3 p.0.2 (room_network (M.meaning p.0.1) (R.plan p.0.0).weight) key };

    ghost image_of = { λ p g key.
        packed_key (M.meaning p.0.1).floor.width (2 ^ p.1) (groups_in_order p.0.3 p.0.2 key) };

    fn write_image(&self, stage: usize, key: &[i128], image: &mut [i128]) {
        let groups = self.stages.inner();
        let mut numbers = [0i128; 16];
        let ordered = &mut numbers[..key.len()];
        groups.write_image(stage, key, ordered);
        self.stages.write(ordered, image);
    }
}
