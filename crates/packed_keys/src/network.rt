// Networks whose partials stand in one number.
ghost use Rattle.std.specs.Prelude.{◌≡◌, ℕ, ◌+◌, ◌-◌, ◌^◌, ◌≤◌, ◌++◌, ℤ, Bool, drop, length};
ghost use Rattle.weights.specs.Conditional.{ConditionalTest};
ghost use Rattle.weights.specs.declared.tails.Tail.{Tail};
ghost use Rattle.networks.specs.Completions.{value_weights};
ghost use Rattle.networks.specs.Follows.{Follows};
ghost use Rattle.networks.specs.Network.{IsReached};
ghost use Rattle.networks.specs.GoesOn.{GoesOn};
ghost use Rattle.packed_keys.specs.PackedKeys.{MayBePacked, packed_key, packed_network};
ghost use Rattle.packed_keys.specs.PackedKeys.{unpacked, unpacked_key};
ghost use Rattle.packed_keys.specs.PackedSteps.{AreDigits};

use crate::digits::{packed_number, unpack};
use networks::{Roomed, Stages, Verdict, behind, front, write_key};
use std::marker::Model;
use weights::{Tail, only};

/// A network in whose keys the numbers of a partial are digits of one number, of so many bits each.
/// It has as many keys as before, and they take less room. It is seen as the network and the bits.
#[derive(Drop)]
pub struct Packed<S: Roomed> {
    stages: S,
    bits: u32,
    // How many numbers a partial has.
    slots: usize,
}

impl<S: Roomed> Model for Packed<S> {
    ghost use Rattle.std.specs.Prelude.{ℕ};
    ghost use Rattle.packed_keys.specs.PackedSteps.{IsPacked};

    ghost Value = { S × ℕ };

    ghost view = { λ p. (p.stages, p.bits) };

    ghost invariant = { λ p.
        IsPacked (S.room_width p.stages) p.bits p.slots (S.Stages.network p.stages) };
}

// Writes a key with its partial packed.
fn pack_key(width: usize, bits: u32, key: &[i128], packed: &mut [i128])
    requires within { width ≤ length key.now }
    requires digits { AreDigits bits (drop width key.now) }
    requires room { length packed.old ≡ width + 1 }
    ensures { packed.new ≡ packed_key width (2 ^ bits) key.now }
{
    let number = packed_number(bits, behind(key, width));
    write_key(front(key, width), [number].as_slice(), packed);
}

// Writes the key that a packed one stands for.
fn unpack_key(width: usize, bits: u32, packed: &[i128], key: &mut [i128])
    requires narrow { bits ≤ 63 }
    requires packed { length packed.now ≡ width + 1 }
    requires within { width ≤ length key.old }
    requires few { length key.old ≤ 16 }
    ensures { key.new
        ≡ unpacked_key width (2 ^ bits) (length key.old - width) packed.now }
{
    let mut numbers = [0i128; 16];
    let partial = &mut numbers[..key.len() - width];
    unpack(bits, only(behind(packed, width)), partial);
    write_key(front(packed, width), partial, key);
}

impl<S: Roomed> Packed<S> {
    /// A network with its partials packed. As much weight ends at each value, and it follows the
    /// tests that the network follows.
    pub fn new(stages: S, bits: u32) -> Packed<S>
        requires { MayBePacked (S.room_width stages) bits (S.Stages.network stages) }
        ensures parts { result ≡ (stages, bits) }
        ensures ends { let n = S.Stages.network stages in
            let q = packed_network (S.room_width stages) bits n in
            (p : ℤ → Bool) → value_weights q p ≡ value_weights n p }
        ensures follows { let n = S.Stages.network stages in
            let q = packed_network (S.room_width stages) bits n in
            (test : ConditionalTest) (tail : Tail)
            → Follows test tail n → Follows test tail q }
        ensures goes_on { let n = S.Stages.network stages in
            let w = S.room_width stages in
            (g : ℕ) → g ≤ n.count
            → GoesOn n (packed_network w bits n) g g (packed_key w (2 ^ bits)) }
    {
        let _lawful = stages.stages();
        let slots = stages.width() - stages.room_width();
        Packed {
            stages,
            bits,
            slots,
        }
    }

    /// Writes a reached key of the network packed.
    pub(crate) fn write(&self, key: &[i128], packed: &mut [i128])
        requires reached { (g : ℕ) × IsReached (S.Stages.network self.now.0) g key.now }
        requires room { length packed.old ≡ S.room_width self.now.0 + 1 }
        ensures { packed.new ≡ packed_key (S.room_width self.now.0) (2 ^ self.now.1) key.now }
    {
        let _lawful = self.stages.stages();
        pack_key(self.stages.room_width(), self.bits, key, packed);
    }

    /// The network whose partials are packed.
    pub(crate) fn inner(&self) -> &S
        ensures { result.now ≡ self.now.0 }
    {
        &self.stages
    }

    /// How many bits a digit has.
    pub(crate) fn bits(&self) -> u32
        ensures { result ≡ self.now.1 }
    {
        self.bits
    }

    // The key of the network that a reached one stands for, written into these numbers.
    fn read<'a>(&self, _stage: usize, packed: &[i128], numbers: &'a mut [i128; 16]) -> &'a [i128]
        requires { let n = S.Stages.network self.now.0 in
            IsReached (packed_network (S.room_width self.now.0) self.now.1 n) _stage packed.now }
        ensures is { let n = S.Stages.network self.now.0 in
            let w = S.room_width self.now.0 in
            result.now ≡ unpacked_key w (2 ^ self.now.1) (n.width - w) packed.now }
        ensures reached { IsReached (S.Stages.network self.now.0) _stage result.now }
    {
        let _lawful = self.stages.stages();
        let key = &mut numbers[..self.stages.width()];
        unpack_key(self.stages.room_width(), self.bits, packed, key);
        key
    }

    // The partial of the network that a reached one stands for, written into these numbers.
    #[inline(always)]
    fn read_partial<'a>(
        &self,
        _stage: usize,
        _room: &[i128],
        packed: &[i128],
        numbers: &'a mut [i128; 8],
    ) -> &'a [i128]
        requires place { length _room.now ≡ S.room_width self.now.0 }
        requires reached { let n = S.Stages.network self.now.0 in
            IsReached (packed_network (S.room_width self.now.0) self.now.1 n) _stage
            (_room.now ++ packed.now) }
        ensures is { let n = S.Stages.network self.now.0 in
            result.now
            ≡ unpacked (2 ^ self.now.1) (n.width - S.room_width self.now.0) packed.now }
        ensures reached { IsReached (S.Stages.network self.now.0) _stage
            (_room.now ++ result.now) }
    {
        let partial = &mut numbers[..self.slots];
        unpack(self.bits, only(packed), partial);
        partial
    }
}

impl<S: Roomed> Stages for Packed<S> {
    ghost use Rattle.packed_keys.specs.PackedKeys.{packed_network};

    ghost network = { λ p. packed_network (S.room_width p.0) p.1 (S.Stages.network p.0) };

    fn stages(&self) -> usize {
        self.stages.stages()
    }

    fn width(&self) -> usize {
        self.stages.room_width() + 1
    }

    fn choice_width(&self) -> usize {
        self.stages.choice_width()
    }

    fn first_key(&self, key: &mut [i128]) {
        let _lawful = self.stages.stages();
        let mut numbers = [0i128; 16];
        let first = &mut numbers[..self.stages.width()];
        self.stages.first_key(first);
        pack_key(self.stages.room_width(), self.bits, first, key);
    }

    fn first_choice(&self, stage: usize, key: &[i128], choice: &mut [u64]) -> bool {
        let mut numbers = [0i128; 16];
        let here = self.read(stage, key, &mut numbers);
        self.stages.first_choice(stage, here, choice)
    }

    fn next_choice(&self, stage: usize, key: &[i128], choice: &mut [u64]) -> bool {
        let mut numbers = [0i128; 16];
        let here = self.read(stage, key, &mut numbers);
        self.stages.next_choice(stage, here, choice)
    }

    fn apply(&self, stage: usize, key: &[i128], choice: &[u64], next: &mut [i128]) -> u128 {
        let _lawful = self.stages.stages();
        let mut numbers = [0i128; 16];
        let here = self.read(stage, key, &mut numbers);
        let mut others = [0i128; 16];
        let there = &mut others[..self.stages.width()];
        let weight = self.stages.apply(stage, here, choice, there);
        pack_key(self.stages.room_width(), self.bits, there, next);
        weight
    }

    fn rest(&self, stage: usize, key: &[i128]) -> u128 {
        let mut numbers = [0i128; 16];
        let here = self.read(stage, key, &mut numbers);
        self.stages.rest(stage, here)
    }

    fn verdict(&self, stage: usize, key: &[i128], tail: Tail) -> Verdict {
        let mut numbers = [0i128; 16];
        let here = self.read(stage, key, &mut numbers);
        self.stages.verdict(stage, here, tail)
    }

    fn value(&self, key: &[i128]) -> i128 {
        let count = self.stages.stages();
        let mut numbers = [0i128; 16];
        let here = self.read(count, key, &mut numbers);
        self.stages.value(here)
    }
}

impl<S: Roomed> Roomed for Packed<S> {
    ghost room_width = { λ p. S.room_width p.0 };

    ghost step_width = { λ p. S.step_width p.0 };

    ghost step_of = { λ p. S.step_of p.0 };

    ghost outlook_width = { λ p. S.outlook_width p.0 };

    ghost outlook_of = { λ p. S.outlook_of p.0 };

    fn room_width(&self) -> usize {
        let _lawful = self.stages.stages();
        self.stages.room_width()
    }

    fn step_width(&self) -> usize {
        self.stages.step_width()
    }

    fn step(&self, stage: usize, room: &[i128], choice: &[u64], step: &mut [i128]) {
        self.stages.step(stage, room, choice, step);
    }

    #[inline(always)]
    fn advance(
        &self,
        stage: usize,
        room: &[i128],
        choice: &[u64],
        step: &[i128],
        partial: &[i128],
        next: &mut [i128],
    ) {
        let mut numbers = [0i128; 8];
        let here = self.read_partial(stage, room, partial, &mut numbers);
        let mut others = [0i128; 8];
        let there = &mut others[..self.slots];
        self.stages.advance(stage, room, choice, step, here, there);
        next[0] = packed_number(self.bits, there);
    }

    fn outlook_width(&self) -> usize {
        self.stages.outlook_width()
    }

    fn outlook(&self, stage: usize, room: &[i128], outlook: &mut [i128]) {
        self.stages.outlook(stage, room, outlook);
    }

    #[inline(always)]
    fn verdict_by(
        &self,
        stage: usize,
        room: &[i128],
        outlook: &[i128],
        partial: &[i128],
        tail: Tail,
    ) -> Verdict {
        let mut numbers = [0i128; 8];
        let here = self.read_partial(stage, room, partial, &mut numbers);
        self.stages.verdict_by(stage, room, outlook, here, tail)
    }
}
