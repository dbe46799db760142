// A source and a sink that never fail.
ghost use Rattle.std.specs.Prelude.{◌≡◌, ◌≤◌, ◌<◌, ◌++◌, ◌+◌, ◌^◌, ◌-◌, [], None, Some, Ok, IfOk, OnErr, IsOk, length, min, take, drop};
ghost use Rattle.std.specs.Io.KnownBytes.{Consumes, IsAtEnd, WriteAppends};
ghost use Rattle.outside.specs.Faults.{Rose};
ghost use Rattle.outside.specs.Steady.{given_at_once};

use crate::sink::Sink;
use crate::source::{Failed, Source};
use std::marker::Model;

/// A source that holds the same bytes under every name and never fails.
#[derive(Drop)]
pub struct SteadySource {
    bytes: Vec<u8>,
    step: usize,
    given: usize,
}

impl Model for SteadySource {
    ghost use Rattle.std.specs.Prelude.{◌≤◌, drop, length};
    ghost use Rattle.outside.specs.Steady.{Steady};

    ghost Value = { Steady };

    ghost view = { λ a.
        record { bytes = a.bytes.items; step = a.step; left = drop a.given a.bytes.items } };

    ghost invariant = { λ a. (1 ≤ a.step) × (a.given ≤ length a.bytes.items) };
}

impl SteadySource {
    /// A source that was not started. A read gives at most `step` bytes.
    pub fn new(bytes: Vec<u8>, step: usize) -> SteadySource
        requires { 1 ≤ step }
        ensures { result ≡ record { bytes = bytes.items; step = step; left = [] } }
    {
        let given = bytes.len();
        SteadySource { bytes, step, given }
    }

    // Gives the next bytes.
    fn give(&mut self, buf: &mut [u8]) -> usize
        ensures count { result ≡ given_at_once self.old (length buf.old) }
        ensures after { self.new ≡ record self.old { left = drop result self.old.left } }
        ensures copies { buf.new ≡ take result self.old.left ++ drop result buf.old }
        ensures bound { result ≤ length buf.new }
        ensures moves { self.old.left ≡ take result buf.new ++ self.new.left }
        ensures end { result ≡ 0 → 0 < length buf.new → self.new.left ≡ [] }
        ensures keeps { self.new.bytes ≡ self.old.bytes }
    {
        let left = self.bytes.len() - self.given;
        let n = self.step.min(buf.len()).min(left);
        buf[..n].copy_from_slice(&self.bytes[self.given..self.given + n]);
        self.given += n;
        n
    }
}

impl Source for SteadySource {
    ghost use Rattle.std.specs.Prelude.{Some};

    ghost held = { λ s _. Some s.bytes };

    ghost left = { λ s. Some s.left };

    ghost faults = { λ _. 0 };

    fn start(&mut self, _name: &str) -> Result<(), Failed>
        ensures ok { IsOk result }
        ensures after { self.new ≡ record self.old { left = self.old.bytes } }
    {
        self.given = 0;
        Ok(())
    }

    fn read(&mut self, buf: &mut [u8]) -> Result<usize, Failed>
        ensures reads { let n = given_at_once self.old (length buf.old) in
            (result ≡ Ok n) × (self.new ≡ record self.old { left = drop n self.old.left })
            × (buf.new ≡ take n self.old.left ++ drop n buf.old) }
        ensures within { IfOk result (λ n. n ≤ length buf.new) }
        ensures moves { IfOk result (λ n.
            Consumes (Some self.old.left) (Some self.new.left) (take n buf.new)) }
        ensures end { IfOk result (λ n. n ≡ 0 → 0 < length buf.new → IsAtEnd (Some self.new.left)) }
        ensures keeps { self.new.bytes ≡ self.old.bytes }
    {
        Ok(self.give(buf))
    }
}

/// A number of bytes, which stays at the greatest u128 once it is there.
#[derive(Clone, Copy, Debug, PartialEq, Eq)]
pub struct Counter {
    pub bytes: u128,
}

/// A sink that counts bytes, keeps none and never fails.
#[derive(Drop)]
pub struct SteadySink<'a> {
    room: &'a mut Counter,
}

impl<'a> SteadySink<'a> {
    /// A sink that counts in `room`.
    pub fn new(room: &'a mut Counter) -> SteadySink<'a>
        ensures same { result.room.ghost_name ≡ room.entry.ghost_name }
        ensures value { result.room.now ≡ room.old }
    {
        SteadySink { room }
    }
}

impl Sink for SteadySink<'_> {
    ghost faults = { λ _. 0 };

    fn write(&mut self, piece: &[u8]) -> Result<usize, Failed>
        ensures ok { result ≡ Ok (length piece.now) }
        ensures after { self.new.room.now.bytes
            ≡ min (self.old.room.now.bytes + length piece.now) (2 ^ 128 - 1) }
        ensures within { IfOk result (λ n. n ≤ length piece.now) }
        ensures some { IfOk result (λ n. 0 < length piece.now → 0 < n) }
        ensures empty { length piece.now ≡ 0 → result ≡ Ok 0 }
        ensures takes { WriteAppends None None result piece.now }
        ensures counts { 0 ≤ 0 }
        ensures fails { OnErr result (Rose 0 0) }
    {
        self.room.bytes = self.room.bytes.saturating_add(piece.len() as u128);
        Ok(piece.len())
    }
}
