// What a network of stages is.
ghost use Rattle.std.specs.Prelude.{◌≡◌, ℕ, ℤ, ◌+◌, ◌<◌, ◌≤◌, ◌+ℤ◌, pos, true};
ghost use Rattle.std.specs.Prelude.{List, [], ◌∷◌, ◌++◌, length, take, drop};
ghost use Rattle.std.specs.List.{Contains};
ghost use Rattle.networks.specs.Network.{Network, IsReached, pending};
ghost use Rattle.networks.specs.Completions.{total_weight};
ghost use Rattle.networks.specs.Laws.{IsLawful};
ghost use Rattle.networks.specs.Rooms.{IsRoomed, IsPlace, IsArc};
ghost use Rattle.networks.specs.Shifts.{IsShifting};

use crate::keys::front;
use weights::Tail;

/// What is known of the completions of a key.
#[derive(Clone, Copy, Debug, Drop, PartialEq, Eq)]
pub enum Verdict {
    /// Every completion is extreme.
    Inside,
    /// None is.
    Outside,
    /// Neither is known.
    Undecided,
}

/// A network of stages, after Mehta and Patel: from the one key of stage 0 each choice leads to a
/// key of the next stage, by an arc that has a weight. A key has `width` numbers and a choice has
/// `choice_width`; stages are counted from 0, and no method takes memory.
pub trait Stages {
    /// Its keys, choices and verdicts.
    ghost network: { Self → Network };

    /// How many stages there are. The network is lawful.
    fn stages(&self) -> usize
        ensures count { result ≡ (network self.now).count }
        ensures lawful { IsLawful (network self.now) };

    /// How many numbers a key has.
    fn width(&self) -> usize
        ensures { result ≡ (network self.now).width };

    /// How many numbers a choice has.
    fn choice_width(&self) -> usize
        ensures { result ≡ (network self.now).choice_width };

    /// Writes the key of stage 0.
    fn first_key(&self, key: &mut [i128])
        requires { length key.old ≡ (network self.now).width }
        ensures { key.new ≡ (network self.now).first };

    /// Writes the first choice that is allowed at a key. False comes exactly where there is none.
    fn first_choice(&self, stage: usize, key: &[i128], choice: &mut [u64]) -> bool
        requires reached { IsReached (network self.now) stage key.now }
        requires wide { length choice.old ≡ (network self.now).choice_width }
        ensures { let n = network self.now in
            n.choices stage key.now ≡ pending n stage key.now result choice.new };

    /// Moves on to the next choice that is allowed at a key. False comes exactly at the last one.
    fn next_choice(&self, stage: usize, key: &[i128], choice: &mut [u64]) -> bool
        requires reached { IsReached (network self.now) stage key.now }
        requires before { stage < (network self.now).count }
        requires allowed { Contains ((network self.now).choices stage key.now) choice.old }
        requires wide { length choice.old ≡ (network self.now).choice_width }
        ensures { let n = network self.now in
            n.later stage key.now choice.old ≡ pending n stage key.now result choice.new };

    /// Writes the key that a choice reaches, and answers the weight of its arc.
    fn apply(&self, stage: usize, key: &[i128], choice: &[u64], next: &mut [i128]) -> u128
        requires reached { IsReached (network self.now) stage key.now }
        requires before { stage < (network self.now).count }
        requires allowed { Contains ((network self.now).choices stage key.now) choice.now }
        requires wide { length choice.now ≡ (network self.now).choice_width }
        requires room { length next.old ≡ (network self.now).width }
        ensures next { next.new ≡ (network self.now).next stage key.now choice.now }
        ensures weight { result ≡ (network self.now).weight stage key.now choice.now };

    /// The summed weight of all completions of a key.
    fn rest(&self, stage: usize, key: &[i128]) -> u128
        requires { IsReached (network self.now) stage key.now }
        ensures { result ≡ total_weight (network self.now) stage key.now };

    /// What is known of the completions of a key.
    fn verdict(&self, stage: usize, key: &[i128], tail: Tail) -> Verdict
        requires { IsReached (network self.now) stage key.now }
        ensures { result ≡ (network self.now).verdict tail stage key.now };

    /// The value of a key of the last stage.
    fn value(&self, key: &[i128]) -> i128
        requires { IsReached (network self.now) (network self.now).count key.now }
        ensures { result ≡ (network self.now).value key.now };
}

/// A network whose keys are a room, the first numbers, and a partial, the others: the room alone
/// decides the choices, their weights, the rooms that they lead to, and so the rest. What differs
/// from key to key, the partial, is then advanced and judged by itself, many times per room: by a
/// step, made once for a room and a choice, and by an outlook, made once for a room.
pub trait Roomed: Stages {
    /// How many numbers a room has.
    ghost room_width: { Self → ℕ };

    /// How many numbers a step has.
    ghost step_width: { Self → ℕ };

    /// The step of a stage, a room and a choice.
    ghost step_of: { Self → ℕ → List ℤ → List ℕ → List ℤ };

    /// How many numbers an outlook has.
    ghost outlook_width: { Self → ℕ };

    /// The outlook of a stage and a room.
    ghost outlook_of: { Self → ℕ → List ℤ → List ℤ };

    /// How many of a key's first numbers make its room.
    fn room_width(&self) -> usize
        ensures width { result ≡ room_width self.now }
        ensures roomed { IsRoomed (Self.Stages.network self.now) (room_width self.now) };

    /// Writes the room of the key that a choice reaches, and answers the weight of its arc: `apply`
    /// without the partial. A network whose rooms can be had alone overrides it.
    fn cross(&self, stage: usize, key: &[i128], choice: &[u64], room: &mut [i128]) -> u128
        requires reached { let n = Self.Stages.network self.now in IsReached n stage key.now }
        requires before { stage < (Self.Stages.network self.now).count }
        requires allowed { let n = Self.Stages.network self.now in
            Contains (n.choices stage key.now) choice.now }
        requires wide { length choice.now ≡ (Self.Stages.network self.now).choice_width }
        requires room { length room.old ≡ room_width self.now }
        ensures room { let n = Self.Stages.network self.now in
            room.new ≡ take (room_width self.now) (n.next stage key.now choice.now) }
        ensures weight { let n = Self.Stages.network self.now in
            result ≡ n.weight stage key.now choice.now }
    {
        let _lawful = self.stages();
        let width = self.room_width();
        let mut numbers = [0i128; 16];
        let next = &mut numbers[..self.width()];
        let weight = self.apply(stage, key, choice, next);
        room.copy_from_slice(front(next, width));
        weight
    }

    /// How many numbers a step has: 0 where `advance` does well with the room and the choice.
    fn step_width(&self) -> usize
        ensures { result ≡ step_width self.now };

    /// Writes what `advance` is to be told of a room and a choice. It is asked once for each two.
    fn step(&self, stage: usize, room: &[i128], choice: &[u64], step: &mut [i128])
        requires before { stage < (Self.Stages.network self.now).count }
        requires arc { let n = Self.Stages.network self.now in
            IsArc n (room_width self.now) stage room.now choice.now }
        requires wide { length choice.now ≡ (Self.Stages.network self.now).choice_width }
        requires room { length step.old ≡ step_width self.now }
        ensures { step.new ≡ step_of self.now stage room.now choice.now };

    /// Writes the partial that a choice reaches from a partial of the room, by the step of the two.
    fn advance(
        &self,
        stage: usize,
        room: &[i128],
        choice: &[u64],
        step: &[i128],
        partial: &[i128],
        next: &mut [i128],
    )
        requires before { stage < (Self.Stages.network self.now).count }
        requires room { length room.now ≡ room_width self.now }
        requires reached { let n = Self.Stages.network self.now in
            IsReached n stage (room.now ++ partial.now) }
        requires allowed { let n = Self.Stages.network self.now in
            Contains (n.choices stage (room.now ++ partial.now)) choice.now }
        requires wide { length choice.now ≡ (Self.Stages.network self.now).choice_width }
        requires step { step.now ≡ step_of self.now stage room.now choice.now }
        requires next { room_width self.now + length next.old
            ≡ (Self.Stages.network self.now).width }
        ensures { let n = Self.Stages.network self.now in
            next.new
            ≡ drop (room_width self.now) (n.next stage (room.now ++ partial.now) choice.now) };

    /// How many numbers an outlook has, at most 16: 0 where `verdict_by` does well with the room.
    fn outlook_width(&self) -> usize
        ensures width { result ≡ outlook_width self.now }
        ensures few { outlook_width self.now ≤ 16 };

    /// Writes what `verdict_by` is to be told of a room, as what its later choices can still add.
    /// It is asked once for each room.
    fn outlook(&self, stage: usize, room: &[i128], outlook: &mut [i128])
        requires place { let n = Self.Stages.network self.now in
            IsPlace n (room_width self.now) stage room.now }
        requires wide { length outlook.old ≡ outlook_width self.now }
        ensures { outlook.new ≡ outlook_of self.now stage room.now };

    /// What is known of the completions of a room and a partial, by the room's outlook.
    fn verdict_by(
        &self,
        stage: usize,
        room: &[i128],
        outlook: &[i128],
        partial: &[i128],
        tail: Tail,
    ) -> Verdict
        requires room { length room.now ≡ room_width self.now }
        requires reached { let n = Self.Stages.network self.now in
            IsReached n stage (room.now ++ partial.now) }
        requires outlook { outlook.now ≡ outlook_of self.now stage room.now }
        ensures { let n = Self.Stages.network self.now in
            result ≡ n.verdict tail stage (room.now ++ partial.now) };

    /// Whether a partial is one number, which a step's one number is added to. It may be false of a
    /// network that has such steps.
    fn is_shift(&self) -> bool
        ensures { let n = Self.Stages.network self.now in
            result ≡ true
            → IsShifting n (room_width self.now) (step_width self.now) (step_of self.now) }
    {
        false
    }

    /// How far above a partial of one number those of its room surely have its verdict for a tail.
    fn same_for(
        &self,
        stage: usize,
        room: &[i128],
        outlook: &[i128],
        partial: i128,
        tail: Tail,
    ) -> u128
        requires room { length room.now ≡ room_width self.now }
        requires reached { let n = Self.Stages.network self.now in
            IsReached n stage (room.now ++ partial ∷ []) }
        requires outlook { outlook.now ≡ outlook_of self.now stage room.now }
        ensures { let n = Self.Stages.network self.now in
            (d : ℕ) → d ≤ result → IsReached n stage (room.now ++ (partial +ℤ pos d) ∷ [])
            → n.verdict tail stage (room.now ++ (partial +ℤ pos d) ∷ [])
            ≡ n.verdict tail stage (room.now ++ partial ∷ []) }
    {
        0
    }
}
