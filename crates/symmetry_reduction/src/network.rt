// Networks of rooms in whose keys groups are in order.
ghost use Rattle.std.specs.Prelude.{◌≡◌, ℕ, ◌≤◌, ℤ, Bool, List};
ghost use Rattle.weights.specs.Conditional.{ConditionalTest};
ghost use Rattle.weights.specs.declared.tails.Tail.{Tail};
ghost use Rattle.networks.specs.Completions.{value_weights};
ghost use Rattle.networks.specs.Follows.{Follows};
ghost use Rattle.networks.specs.Judged.{judge_of};
ghost use Rattle.networks.specs.Network.{IsReached};
ghost use Rattle.networks.specs.GoesOn.{GoesOn};
ghost use Rattle.room_network.specs.Plans.{Plan};
ghost use Rattle.room_network.specs.RoomNetworks.{room_network};
ghost use Rattle.symmetry_reduction.specs.declared.orders.Order.TheVariants.{Sums};
ghost use Rattle.symmetry_reduction.specs.OrderSteps.{IsReduced};
ghost use Rattle.symmetry_reduction.specs.OrderedGroups.{groups_in_order};
ghost use Rattle.symmetry_reduction.specs.ReducedNetworks.{AreItsRooms, MayBeReduced};
ghost use Rattle.symmetry_reduction.specs.ReducedNetworks.{reduced_network};

use crate::keys::{put_groups_in_order, put_sums_in_order};
use crate::orders::Order;
use networks::{Onward, Roomed, Stages, Verdict, behind, front};
use room_network::{Measure, RoomNetwork, Rooms};
use std::marker::Model;
use weights::Tail;

/// A network of rooms in which groups of equal size that stand side by side are in order, by what
/// remains of them and then by their sums: k such groups have up to k! times fewer keys. In the
/// second order they are put so where something remains of each: a choice after which nothing
/// remains of some only adds to their sums. It is seen as its rooms, its measure, the groups'
/// sizes, and their order.
#[derive(Drop)]
pub struct SymmetryReduced<R: Rooms, M: Measure> {
    stages: RoomNetwork<R, M>,
    // Its rooms once more: they tell a step what a choice leaves of the groups.
    rooms: R,
    sizes: Vec<u64>,
    order: Order,
}

impl<R: Rooms, M: Measure> Model for SymmetryReduced<R, M> {
    ghost use Rattle.std.specs.Prelude.{ℕ, List};
    ghost use Rattle.symmetry_reduction.specs.declared.orders.Order.{Order};
    ghost use Rattle.symmetry_reduction.specs.OrderSteps.{IsReduced};

    ghost Value = { R × M × List ℕ × Order };

    ghost view = { λ s. (s.stages.0, s.stages.1, s.sizes.items, s.order) };

    ghost invariant = { λ s.
        IsReduced (R.plan s.rooms) (R.plan s.stages.0) (M.meaning s.stages.1) s.sizes.items
        s.order };
}

impl<R: Rooms, M: Measure> SymmetryReduced<R, M> {
    /// A network with groups of these sizes in order, made of it and of rooms like its own. As much
    /// weight ends at each value, it follows the tests of its rules that the network follows, and
    /// its keys are keys of the network.
    pub fn new(
        stages: RoomNetwork<R, M>,
        rooms: R,
        sizes: Vec<u64>,
        order: Order,
    ) -> SymmetryReduced<R, M>
        requires rooms { let m = M.meaning stages.1 in
            AreItsRooms (R.plan rooms) (R.plan stages.0) m sizes.items }
        requires ordered { let m = M.meaning stages.1 in
            MayBeReduced sizes.items (room_network m (R.plan stages.0).weight) m.judge }
        ensures parts { result ≡ (stages.0, stages.1, sizes.items, order) }
        ensures ends { let n = room_network (M.meaning stages.1) (R.plan stages.0).weight in
            (p : ℤ → Bool)
            → value_weights (reduced_network order sizes.items n) p ≡ value_weights n p }
        ensures follows { let m = M.meaning stages.1 in
            let n = room_network m (R.plan stages.0).weight in
            (test : ConditionalTest) (tail : Tail) → m.judge ≡ judge_of test
            → Follows test tail n → Follows test tail (reduced_network order sizes.items n) }
        ensures reached { let n = room_network (M.meaning stages.1) (R.plan stages.0).weight in
            (g : ℕ) (key : List ℤ)
            → IsReached (reduced_network order sizes.items n) g key → IsReached n g key }
        ensures goes_on { let n = room_network (M.meaning stages.1) (R.plan stages.0).weight in
            order ≡ Sums → (g : ℕ) → g ≤ n.count
            → GoesOn n (reduced_network order sizes.items n) g g
            (groups_in_order order sizes.items) }
    {
        let _lawful = stages.stages();
        let _roomed = stages.room_width();
        let _sound = rooms.stages();
        SymmetryReduced {
            stages,
            rooms,
            sizes,
            order,
        }
    }

    /// The groups' order.
    pub fn order(&self) -> Order
        ensures { result ≡ self.now.3 }
    {
        self.order
    }

    /// Nothing: what `new` asked of it, and that its rooms are sound, is ensured.
    pub fn sound(&self)
        ensures { let m = M.meaning self.now.1 in
            (rooms : Plan) × IsReduced rooms (R.plan self.now.0) m self.now.2 self.now.3 }
    {
        let _order = self.order;
    }
}

impl<R: Rooms, M: Measure> Stages for SymmetryReduced<R, M> {
    ghost use Rattle.symmetry_reduction.specs.ReducedNetworks.{reduced_network};

    ghost network = { λ s. reduced_network s.3 s.2
        (room_network (M.meaning s.1) (R.plan s.0).weight) };

    fn stages(&self) -> usize {
        self.stages.stages()
    }

    fn width(&self) -> usize {
        self.stages.width()
    }

    fn choice_width(&self) -> usize {
        self.stages.choice_width()
    }

    fn first_key(&self, key: &mut [i128]) {
        let _lawful = self.stages.stages();
        self.stages.first_key(key);
        put_groups_in_order(self.order, self.sizes.as_slice(), key);
    }

    fn first_choice(&self, stage: usize, key: &[i128], choice: &mut [u64]) -> bool {
        self.stages.first_choice(stage, key, choice)
    }

    fn next_choice(&self, stage: usize, key: &[i128], choice: &mut [u64]) -> bool {
        self.stages.next_choice(stage, key, choice)
    }

    fn apply(&self, stage: usize, key: &[i128], choice: &[u64], next: &mut [i128]) -> u128 {
        let _lawful = self.stages.stages();
        let weight = self.stages.apply(stage, key, choice, next);
        put_groups_in_order(self.order, self.sizes.as_slice(), next);
        weight
    }

    fn rest(&self, stage: usize, key: &[i128]) -> u128 {
        self.stages.rest(stage, key)
    }

    #[inline(always)]
    fn verdict(&self, stage: usize, key: &[i128], tail: Tail) -> Verdict {
        self.stages.verdict(stage, key, tail)
    }

    fn value(&self, key: &[i128]) -> i128 {
        self.stages.value(key)
    }
}

impl<R: Rooms, M: Measure> Roomed for SymmetryReduced<R, M> {
    ghost use Rattle.std.specs.Prelude.{◌+◌, ◌++◌};

    ghost room_width = { λ s. (M.meaning s.1).floor.width };

    ghost step_width = { λ s. (M.meaning s.1).floor.width + (M.meaning s.1).step_width };

    ghost step_of = { λ s g room c.
        (M.meaning s.1).floor.next g room c ++ (M.meaning s.1).step g room c };

    ghost outlook_width = { λ s. (M.meaning s.1).outlook_width };

    ghost outlook_of = { λ s. (M.meaning s.1).outlook };

    fn room_width(&self) -> usize {
        self.stages.room_width()
    }

    fn step_width(&self) -> usize {
        let _lawful = self.stages.stages();
        self.stages.room_width() + self.stages.step_width()
    }

    // A step has what the choice leaves of the groups, and then the network's own.
    fn step(&self, stage: usize, room: &[i128], choice: &[u64], step: &mut [i128]) {
        let (left, inner) = step.split_at_mut(room.len());
        self.rooms.cross(stage, room, choice, left);
        self.stages.step(stage, room, choice, inner);
    }

    #[inline(always)]
    fn advance(
        &self,
        stage: usize,
        room: &[i128],
        choice: &[u64],
        step: &[i128],
        partial: &[i128],
        next: &mut [i128],
    ) {
        let sizes = self.sizes.as_slice();
        let inner = behind(step, room.len());
        self.stages
            .advance(stage, room, choice, inner, partial, next);
        put_sums_in_order(self.order, sizes, front(step, room.len()), next);
    }

    fn outlook_width(&self) -> usize {
        self.stages.outlook_width()
    }

    fn outlook(&self, stage: usize, room: &[i128], outlook: &mut [i128]) {
        self.stages.outlook(stage, room, outlook);
    }

    #[inline(always)]
    fn verdict_by(
        &self,
        stage: usize,
        room: &[i128],
        outlook: &[i128],
        partial: &[i128],
        tail: Tail,
    ) -> Verdict {
        self.stages.verdict_by(stage, room, outlook, partial, tail)
    }
}

impl<R: Rooms, M: Measure> Onward for SymmetryReduced<R, M> {
    ghost use Rattle.std.specs.Prelude.{◌≡◌, ◌+◌, length};
    ghost use Rattle.symmetry_reduction.specs.OrderedGroups.{groups_in_order};

    ghost takes = { λ s g key. length key ≡ length s.2 + length s.2 };

    ghost image_of = { λ s g key. groups_in_order s.3 s.2 key };

    fn write_image(&self, _stage: usize, key: &[i128], image: &mut [i128]) {
        self.sound();
        image.copy_from_slice(key);
        put_groups_in_order(self.order, self.sizes.as_slice(), image);
    }
}
