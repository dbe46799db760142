// A sink in memory, whose writes fail by their numbers.
ghost use Rattle.std.specs.Prelude.{◌≡◌, ◌+◌, ◌≤◌, ◌<◌, ◌++◌, ◌==◌, true, false, Some, Ok, IfOk, OnErr, IsErr, length, take};
ghost use Rattle.std.specs.List.{list_any};
ghost use Rattle.std.specs.Io.KnownBytes.{WriteAppends};
ghost use Rattle.std.specs.Vec.{vec_capacity};
ghost use Rattle.outside.specs.Faults.{Rose};
ghost use Rattle.outside.specs.MemorySink.{Takes, WritesOnce, after_fault, is_failing, next_write, refuses_bytes};

use crate::fault_count::FaultCount;
use crate::sink::Sink;
use crate::source::Failed;
use std::marker::Model;

/// A sink that keeps what it takes.
#[derive(Drop)]
pub struct MemorySink {
    bytes: Vec<u8>,
    room: usize,
    step: usize,
    fail: Vec<u64>,
    calls: u64,
    faults: FaultCount,
}

impl Model for MemorySink {
    ghost use Rattle.std.specs.Prelude.{◌≤◌};
    ghost use Rattle.std.specs.Vec.{vec_capacity, vec_len};
    ghost use Rattle.outside.specs.MemorySink.{Taken};

    ghost Value = { Taken };

    ghost view = { λ a. record {
      bytes = a.bytes.items;
      room = a.room;
      step = a.step;
      fail = a.fail.items;
      calls = a.calls;
      faults = a.faults.count;
    } };

    ghost invariant = { λ a.
        (1 ≤ a.step) × (a.room ≤ vec_capacity a.bytes) × (vec_len a.bytes ≤ a.room) };
}

impl MemorySink {
    /// A sink that took `taken` already, with room for as many bytes as its capacity. A write takes
    /// at most `step` bytes and no memory. Writes of pieces that are not empty are calls 1, 2, 3
    /// and so on; one fails where its number is in `fail`, or where its bytes would pass the room.
    pub fn new(taken: Vec<u8>, step: usize, fail: Vec<u64>) -> MemorySink
        requires { 1 ≤ step }
        ensures { result ≡ record {
          bytes = taken.items;
          room = vec_capacity taken;
          step = step;
          fail = fail.items;
          calls = 0;
          faults = 0;
        } }
    {
        let room = taken.capacity();
        MemorySink {
            bytes: taken,
            room,
            step,
            fail,
            calls: 0,
            faults: FaultCount::none(),
        }
    }

    /// The bytes taken so far.
    pub fn taken(&self) -> &[u8]
        ensures { result.now ≡ self.now.bytes }
    {
        self.bytes.as_slice()
    }

    // The number of the next write.
    fn number(&self) -> u64
        ensures { result ≡ next_write self.now }
    {
        self.calls.saturating_add(1)
    }

    // Whether the next write, which has this number, is one that fails.
    fn is_marked(&self, number: u64) -> bool
        requires { number ≡ next_write self.now }
        ensures { result ≡ list_any (λ k. k == next_write self.now) self.now.fail }
    {
        self.fail.iter().any(|k| *k == number)
    }

    // Whether the next write, which is to take n bytes, fails.
    fn refuses(&self, n: usize) -> bool
        ensures fails { result ≡ refuses_bytes self.now n }
        ensures room { result ≡ false → length self.now.bytes + n ≤ self.now.room }
    {
        n > self.room - self.bytes.len() || self.is_marked(self.number())
    }

    // Takes the first bytes of the piece.
    fn take(&mut self, piece: &[u8]) -> Result<usize, Failed>
        ensures empty { length piece.now ≡ 0 → (result ≡ Ok 0) × (self.new ≡ self.old) }
        ensures fails { 0 < length piece.now → is_failing self.old (length piece.now) ≡ true
            → IsErr result × (self.new ≡ after_fault self.old) }
        ensures takes { 0 < length piece.now → is_failing self.old (length piece.now) ≡ false
            → Takes self.old self.new result piece.now }
        ensures some { IfOk result (λ n. 0 < length piece.now → 0 < n) }
        ensures bound { IfOk result (λ n. n ≤ length piece.now) }
        ensures bytes { IfOk result (λ n. self.new.bytes ≡ self.old.bytes ++ take n piece.now) }
        ensures kept { OnErr result (self.new.bytes ≡ self.old.bytes) }
        ensures counts { self.old.faults ≤ self.new.faults }
        ensures rises { OnErr result (Rose self.old.faults self.new.faults) }
    {
        if piece.is_empty() {
            return Ok(0);
        }
        let n = self.step.min(piece.len());
        let refuses = self.refuses(n);
        self.calls = self.number();
        if refuses {
            return Err(self.faults.rise());
        }
        self.bytes.extend_from_slice(&piece[..n]).unwrap();
        Ok(n)
    }
}

impl Sink for MemorySink {
    ghost use Rattle.std.specs.Prelude.{Some};

    ghost taken = { λ m. Some m.bytes };

    ghost faults = { λ m. m.faults };

    fn write(&mut self, piece: &[u8]) -> Result<usize, Failed>
        ensures writes { WritesOnce self.old self.new result piece.now }
        ensures within { IfOk result (λ n. n ≤ length piece.now) }
        ensures some { IfOk result (λ n. 0 < length piece.now → 0 < n) }
        ensures empty { length piece.now ≡ 0 → result ≡ Ok 0 }
        ensures takes { WriteAppends (Some self.old.bytes) (Some self.new.bytes) result piece.now }
        ensures counts { self.old.faults ≤ self.new.faults }
        ensures fails { OnErr result (Rose self.old.faults self.new.faults) }
    {
        self.take(piece)
    }
}
