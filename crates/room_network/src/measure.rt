// What a statistic offers to the network of its rooms.
ghost use Rattle.std.specs.Prelude.{◌≡◌, ℕ, ◌≤◌, ◌+ℤ◌, [], ◌∷◌, length, pos, true};
ghost use Rattle.networks.specs.Judged.{rule_in, verdict_of};
ghost use Rattle.room_network.specs.Meanings.{AreReached, IsEnd, IsMeasure, IsMove, IsRoom};
ghost use Rattle.room_network.specs.Meanings.{IsShift, IsStep, Meaning, verdict_at};

use networks::Verdict;
use weights::Tail;

/// What is measured of the ways through rooms. Before each stage there is a partial, of a fixed
/// number of numbers; a choice leads to the next one, and the partial after the last choice has a
/// value.
///
/// What leads a partial on is split: a `step` is made once for a room and a choice, and each
/// partial that stands with the room follows it. So is what judges it: an `outlook` is made once
/// for a room.
pub trait Measure {
    /// What it measures, and its intervals.
    ghost meaning: { Self → Meaning };

    /// How many numbers a partial has. The intervals narrow along every choice.
    fn slots(&self) -> usize
        ensures slots { result ≡ (meaning self.now).slots }
        ensures sound { IsMeasure (meaning self.now) };

    /// How many numbers a step has, at most 16: 0 where partials follow the choice itself.
    fn step_width(&self) -> usize
        ensures width { result ≡ (meaning self.now).step_width }
        ensures few { (meaning self.now).step_width ≤ 16 };

    /// How many numbers an outlook has, at most 16: 0 where `verdict_by` does well with the room.
    fn outlook_width(&self) -> usize
        ensures width { result ≡ (meaning self.now).outlook_width }
        ensures few { (meaning self.now).outlook_width ≤ 16 };

    /// Writes the partial before the first choice.
    fn first(&self, partial: &mut [i128])
        requires { length partial.old ≡ (meaning self.now).slots }
        ensures { partial.new ≡ (meaning self.now).first };

    /// Writes the step of a choice at a room.
    fn step(&self, stage: usize, room: &[i128], choice: &[u64], step: &mut [i128])
        requires way { IsStep (meaning self.now) stage room.now choice.now }
        requires room { length step.old ≡ (meaning self.now).step_width }
        ensures { step.new ≡ (meaning self.now).step stage room.now choice.now };

    /// Writes the partial that a choice leads to, by the choice's step.
    fn follow(
        &self,
        stage: usize,
        room: &[i128],
        choice: &[u64],
        step: &[i128],
        partial: &[i128],
        next: &mut [i128],
    )
        requires allowed { IsMove (meaning self.now) stage room.now choice.now partial.now }
        requires step { step.now ≡ (meaning self.now).step stage room.now choice.now }
        requires room { length next.old ≡ (meaning self.now).slots }
        ensures { next.new ≡ (meaning self.now).advance stage room.now choice.now partial.now };

    /// Writes the partial that a choice leads to: `step` and `follow` together.
    fn advance(
        &self,
        stage: usize,
        room: &[i128],
        choice: &[u64],
        partial: &[i128],
        next: &mut [i128],
    )
        requires allowed { IsMove (meaning self.now) stage room.now choice.now partial.now }
        requires room { length next.old ≡ (meaning self.now).slots }
        ensures { next.new ≡ (meaning self.now).advance stage room.now choice.now partial.now }
    {
        let mut numbers = [0i128; 16];
        let step = &mut numbers[..self.step_width()];
        self.step(stage, room, choice, step);
        self.follow(stage, room, choice, step, partial, next);
    }

    /// What is known of the completions of a room and a partial: that of the tail's rule over their
    /// interval. `outlook` and `verdict_by` together.
    fn verdict(&self, stage: usize, room: &[i128], partial: &[i128], tail: Tail) -> Verdict
        requires { AreReached (meaning self.now) stage room.now partial.now }
        ensures { let m = meaning self.now in
            let low = m.low stage room.now partial.now in
            let high = m.high stage room.now partial.now in
            result ≡ verdict_of (rule_in m.judge tail) low high }
    {
        let mut numbers = [0i128; 16];
        let outlook = &mut numbers[..self.outlook_width()];
        self.outlook(stage, room, outlook);
        self.verdict_by(stage, room, outlook, partial, tail)
    }

    /// Writes the outlook of a room.
    fn outlook(&self, stage: usize, room: &[i128], outlook: &mut [i128])
        requires room { IsRoom (meaning self.now) stage room.now }
        requires wide { length outlook.old ≡ (meaning self.now).outlook_width }
        ensures { outlook.new ≡ (meaning self.now).outlook stage room.now };

    /// What is known of the completions of a room and a partial, by the outlook of the room.
    fn verdict_by(
        &self,
        stage: usize,
        room: &[i128],
        outlook: &[i128],
        partial: &[i128],
        tail: Tail,
    ) -> Verdict
        requires reached { AreReached (meaning self.now) stage room.now partial.now }
        requires outlook { outlook.now ≡ (meaning self.now).outlook stage room.now }
        ensures { let m = meaning self.now in
            let low = m.low stage room.now partial.now in
            let high = m.high stage room.now partial.now in
            result ≡ verdict_of (rule_in m.judge tail) low high };

    /// Whether a partial is one number, which a step's one number is added to. It may be false of a
    /// measure that has such steps.
    fn is_shift(&self) -> bool
        ensures { result ≡ true → IsShift (meaning self.now) }
    {
        false
    }

    /// How far above a partial of one number those of its room surely have its verdict for a tail.
    fn same_for(
        &self,
        stage: usize,
        room: &[i128],
        outlook: &[i128],
        partial: i128,
        tail: Tail,
    ) -> u128
        requires reached { AreReached (meaning self.now) stage room.now (partial ∷ []) }
        requires outlook { outlook.now ≡ (meaning self.now).outlook stage room.now }
        ensures { let m = meaning self.now in
            (d : ℕ) → d ≤ result
            → verdict_at m tail stage room.now ((partial +ℤ pos d) ∷ [])
            ≡ verdict_at m tail stage room.now (partial ∷ []) }
    {
        0
    }

    /// The value of a partial after the last choice.
    fn value(&self, partial: &[i128]) -> i128
        requires { IsEnd (meaning self.now) partial.now }
        ensures { result ≡ (meaning self.now).value partial.now };
}
