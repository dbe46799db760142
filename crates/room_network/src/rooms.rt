// What is rearranged, stage by stage.
ghost use Rattle.std.specs.Prelude.{◌≡◌, ◌<◌, [], ◌∷◌, length, if◌then◌else◌};
ghost use Rattle.std.specs.List.{Contains};
ghost use Rattle.networks.specs.Completions.{total_weight};
ghost use Rattle.networks.specs.Network.{IsReached};
ghost use Rattle.room_network.specs.Plans.{Plan, IsPlan, alone};

/// What is rearranged, stage by stage. A room says what is left; it has the choices of a stage,
/// each with a weight, and each leads to a room of the next stage. Nothing is measured here: that
/// is the part of a [`Measure`](crate::Measure). The numbers of a room are passed as i128.
pub trait Rooms {
    /// Its rooms and choices.
    ghost plan: { Self → Plan };

    /// How many stages there are. Rooms have a choice, and all ways weigh at most
    /// [`MAX`](weights::MAX).
    fn stages(&self) -> usize
        ensures count { result ≡ (plan self.now).floor.count }
        ensures sound { IsPlan (plan self.now) };

    /// How many numbers a room has.
    fn width(&self) -> usize
        ensures { result ≡ (plan self.now).floor.width };

    /// How many numbers a choice has.
    fn choice_width(&self) -> usize
        ensures { result ≡ (plan self.now).floor.choice_width };

    /// Writes the room of stage 0.
    fn first(&self, room: &mut [i128])
        requires { length room.old ≡ (plan self.now).floor.width }
        ensures { room.new ≡ (plan self.now).floor.first };

    /// Writes the first choice of a room.
    fn first_choice(&self, stage: usize, room: &[i128], choice: &mut [u64])
        requires reached { IsReached (alone (plan self.now)) stage room.now }
        requires before { stage < (plan self.now).floor.count }
        requires wide { length choice.old ≡ (plan self.now).floor.choice_width }
        ensures { let rest = (plan self.now).floor.later stage room.now choice.new in
            (plan self.now).floor.choices stage room.now ≡ choice.new ∷ rest };

    /// Moves on to the next choice of a room, where there is one.
    fn next_choice(&self, stage: usize, room: &[i128], choice: &mut [u64]) -> bool
        requires reached { IsReached (alone (plan self.now)) stage room.now }
        requires before { stage < (plan self.now).floor.count }
        requires allowed { Contains ((plan self.now).floor.choices stage room.now) choice.old }
        requires wide { length choice.old ≡ (plan self.now).floor.choice_width }
        ensures { let rest = (plan self.now).floor.later stage room.now choice.new in
            (plan self.now).floor.later stage room.now choice.old
            ≡ (if result then choice.new ∷ rest else []) };

    /// Writes the room that a choice leads to, and answers the choice's weight.
    fn cross(&self, stage: usize, room: &[i128], choice: &[u64], next: &mut [i128]) -> u128
        requires reached { IsReached (alone (plan self.now)) stage room.now }
        requires before { stage < (plan self.now).floor.count }
        requires allowed { Contains ((plan self.now).floor.choices stage room.now) choice.now }
        requires wide { length choice.now ≡ (plan self.now).floor.choice_width }
        requires room { length next.old ≡ (plan self.now).floor.width }
        ensures next { next.new ≡ (plan self.now).floor.next stage room.now choice.now }
        ensures weight { result ≡ (plan self.now).weight stage room.now choice.now };

    /// The summed weight of all that remains of a room.
    fn rest(&self, stage: usize, room: &[i128]) -> u128
        requires { IsReached (alone (plan self.now)) stage room.now }
        ensures { result ≡ total_weight (alone (plan self.now)) stage room.now };
}
