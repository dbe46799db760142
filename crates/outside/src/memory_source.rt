// A source in memory, whose calls fail by their numbers.
ghost use Rattle.std.specs.Prelude.{◌≡◌, ◌+◌, ◌≤◌, ◌<◌, ◌++◌, ◌↔◌, [], true, false, Some, IfOk, OnOk, OnErr, IsErr, IsTrue, length, take, drop};
ghost use Rattle.std.specs.Io.KnownBytes.{Consumes, IsAtEnd};
ghost use Rattle.outside.specs.Faults.{Rose};
ghost use Rattle.outside.specs.MemorySource.{Gives, IsIdle, ReadsOnce, after_start, bytes_left, counted, is_failing, next_number};

use crate::fault_count::FaultCount;
use crate::source::{Failed, Source};
use std::marker::Model;

/// A source that holds the same bytes under every name.
#[derive(Drop)]
pub struct MemorySource {
    bytes: Vec<u8>,
    step: usize,
    fail: Vec<u64>,
    is_started: bool,
    given: usize,
    calls: u64,
    faults: FaultCount,
}

impl Model for MemorySource {
    ghost use Rattle.std.specs.Prelude.{◌≤◌, length};
    ghost use Rattle.outside.specs.MemorySource.{Held};

    ghost Value = { Held };

    ghost view = { λ a. record {
      bytes = a.bytes.items;
      step = a.step;
      fail = a.fail.items;
      is_started = a.is_started;
      given = a.given;
      calls = a.calls;
      faults = a.faults.count;
    } };

    ghost invariant = { λ a. (1 ≤ a.step) × (a.given ≤ length a.bytes.items) };
}

impl MemorySource {
    /// A source that was not started. A read gives at most `step` bytes. The first start is call 0,
    /// and each later start or read is the next call; the calls with the numbers in `fail` fail.
    pub fn new(bytes: Vec<u8>, step: usize, fail: Vec<u64>) -> MemorySource
        requires { 1 ≤ step }
        ensures { result ≡ record {
          bytes = bytes.items;
          step = step;
          fail = fail.items;
          is_started = false;
          given = 0;
          calls = 0;
          faults = 0;
        } }
    {
        MemorySource {
            bytes,
            step,
            fail,
            is_started: false,
            given: 0,
            calls: 0,
            faults: FaultCount::none(),
        }
    }

    // The number of the next call.
    fn number(&self) -> u64
        ensures { result ≡ next_number self.now }
    {
        if self.is_started {
            self.calls.saturating_add(1)
        } else {
            0
        }
    }

    // Whether the next call, which has this number, fails.
    fn fails(&self, number: u64) -> bool
        requires { number ≡ next_number self.now }
        ensures { result ≡ is_failing self.now }
    {
        self.fail.iter().any(|k| *k == number)
    }

    // Counts a call, and says whether it fails.
    fn count_call(&mut self) -> bool
        ensures fails { result ≡ is_failing self.old }
        ensures after { self.new ≡ counted self.old }
        ensures counts { self.old.faults ≤ self.new.faults }
        ensures rises { result ≡ true → Rose self.old.faults self.new.faults }
    {
        let number = self.number();
        let fails = self.fails(number);
        self.is_started = true;
        self.calls = number;
        if fails {
            let _failed = self.faults.rise();
        }
        fails
    }

    // Starts the source.
    fn begin(&mut self) -> Result<(), Failed>
        ensures fails { IsTrue (is_failing self.old) ↔ IsErr result }
        ensures after { self.new ≡ after_start self.old }
        ensures counts { self.old.faults ≤ self.new.faults }
        ensures rises { OnErr result (Rose self.old.faults self.new.faults) }
    {
        if self.count_call() {
            return Err(Failed);
        }
        self.given = 0;
        Ok(())
    }

    // Gives the next bytes.
    fn give(&mut self, buf: &mut [u8]) -> Result<usize, Failed>
        ensures idle { self.old.is_started ≡ false → IsIdle self.old self.new result }
        ensures fails { self.old.is_started ≡ true → is_failing self.old ≡ true
            → IsErr result × (self.new ≡ counted self.old) }
        ensures gives { self.old.is_started ≡ true → is_failing self.old ≡ false
            → Gives self.old self.new result (length buf.old) }
        ensures counts { self.old.faults ≤ self.new.faults }
        ensures rises { OnErr result (Rose self.old.faults self.new.faults) }
        ensures moves { IfOk result (λ n.
            bytes_left self.old ≡ take n buf.new ++ bytes_left self.new) }
        ensures end { IfOk result (λ n. n ≡ 0 → 0 < length buf.new → bytes_left self.new ≡ []) }
        ensures copies { IfOk result (λ n.
            buf.new ≡ take n (bytes_left self.old) ++ drop n buf.old) }
    {
        if !self.is_started {
            return Ok(0);
        }
        if self.count_call() {
            return Err(Failed);
        }
        let left = self.bytes.len() - self.given;
        let n = self.step.min(buf.len()).min(left);
        buf[..n].copy_from_slice(&self.bytes[self.given..self.given + n]);
        self.given += n;
        Ok(n)
    }
}

impl Source for MemorySource {
    ghost use Rattle.std.specs.Prelude.{Some};
    ghost use Rattle.outside.specs.MemorySource.{bytes_left};

    ghost held = { λ m _. Some m.bytes };

    ghost left = { λ m. Some (bytes_left m) };

    ghost faults = { λ m. m.faults };

    fn start(&mut self, name: &str) -> Result<(), Failed>
        ensures marked { IsTrue (is_failing self.old) ↔ IsErr result }
        ensures after { self.new ≡ after_start self.old }
        ensures starts { OnOk result (bytes_left self.new ≡ self.old.bytes) }
        ensures keeps { self.new.bytes ≡ self.old.bytes }
        ensures counts { self.old.faults ≤ self.new.faults }
        ensures fails { OnErr result (Rose self.old.faults self.new.faults) }
    {
        let _ = name;
        self.begin()
    }

    fn read(&mut self, buf: &mut [u8]) -> Result<usize, Failed>
        ensures reads { ReadsOnce self.old self.new result buf.old buf.new }
        ensures within { IfOk result (λ n. n ≤ length buf.new) }
        ensures moves { IfOk result (λ n.
            Consumes (Some (bytes_left self.old)) (Some (bytes_left self.new)) (take n buf.new)) }
        ensures end { IfOk result (λ n. n ≡ 0 → 0 < length buf.new
            → IsAtEnd (Some (bytes_left self.new))) }
        ensures keeps { self.new.bytes ≡ self.old.bytes }
        ensures counts { self.old.faults ≤ self.new.faults }
        ensures fails { OnErr result (Rose self.old.faults self.new.faults) }
    {
        self.give(buf)
    }
}
