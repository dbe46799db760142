// The public calls of `outside`.
ghost use Rattle.std.specs.Prelude.{[], ◌++◌, ◌∷◌, ◌+◌, ◌-◌, ◌<◌, ◌^◌, ◌↔◌, ◌≡◌, ◌≤◌, IfOk, IfSome, IsErr, IsErrOf, IsTrue, List, OnErr, OnOk, drop, false, length, min, take, ℕ};
ghost use Rattle.std.specs.Io.KnownBytes.{Appends, Consumes, IsAtEnd, WriteAppends};
ghost use Rattle.std.specs.Vec.{vec_capacity};
ghost use Rattle.outside.specs.Faults.{AppendsPrefix, Rose};
ghost use Rattle.outside.specs.MemorySink.{WritesOnce};
ghost use Rattle.outside.specs.MemorySource.{ReadsOnce, after_start, is_failing};
ghost use Rattle.outside.specs.Steady.{given_at_once};

use outside::{
    Counter, Failed, HostSink, HostSource, MemorySink, MemorySource, ReadFail, Sink, Source,
    SteadySink, SteadySource, WriteFault,
};
use std::alloc::Global;
use std::io::Write;
use std::rt::Files;
use weights::Bytes;

/// A start makes the bytes of the name the bytes left, and fails only where the count rose.
pub fn start<S: Source>(source: &mut S, name: &str) -> Result<(), Failed>
    ensures starts { OnOk result
        (IfSome (S.held source.old name.now) (λ bytes. S.left source.new ≡ Some bytes)) }
    ensures keeps { (n : List ℕ) → S.held source.new n ≡ S.held source.old n }
    ensures counts { S.faults source.old ≤ S.faults source.new }
    ensures fails { OnErr result (Rose (S.faults source.old) (S.faults source.new)) }
{
    source.start(name)
}

/// A read moves a prefix of the bytes left, and fails only where the count rose.
pub fn read<S: Source>(source: &mut S, buf: &mut [u8]) -> Result<usize, Failed>
    ensures within { IfOk result (λ n. n ≤ length buf.new) }
    ensures moves { IfOk result (λ n.
        Consumes (S.left source.old) (S.left source.new) (take n buf.new)) }
    ensures end { IfOk result (λ n. n ≡ 0 → 0 < length buf.new → IsAtEnd (S.left source.new)) }
    ensures keeps { (n : List ℕ) → S.held source.new n ≡ S.held source.old n }
    ensures counts { S.faults source.old ≤ S.faults source.new }
    ensures fails { OnErr result (Rose (S.faults source.old) (S.faults source.new)) }
{
    source.read(buf)
}

/// A write takes a prefix of the piece, and fails only where the count rose.
pub fn write<O: Sink>(sink: &mut O, piece: &[u8]) -> Result<usize, Failed>
    ensures within { IfOk result (λ n. n ≤ length piece.now) }
    ensures some { IfOk result (λ n. 0 < length piece.now → 0 < n) }
    ensures empty { length piece.now ≡ 0 → result ≡ Ok 0 }
    ensures takes { WriteAppends (O.taken sink.old) (O.taken sink.new) result piece.now }
    ensures counts { O.faults sink.old ≤ O.faults sink.new }
    ensures fails { OnErr result (Rose (O.faults sink.old) (O.faults sink.new)) }
{
    sink.write(piece)
}

/// A source in memory that was not started.
pub fn memory_source(bytes: Vec<u8>, step: usize, fail: Vec<u64>) -> MemorySource
    requires { 1 ≤ step }
    ensures { result ≡ record {
      bytes = bytes.items;
      step = step;
      fail = fail.items;
      is_started = false;
      given = 0;
      calls = 0;
      faults = 0;
    } }
{
    MemorySource::new(bytes, step, fail)
}

/// A sink in memory.
pub fn memory_sink(taken: Vec<u8>, step: usize, fail: Vec<u64>) -> MemorySink
    requires { 1 ≤ step }
    ensures { result ≡ record {
      bytes = taken.items;
      room = vec_capacity taken;
      step = step;
      fail = fail.items;
      calls = 0;
      faults = 0;
    } }
{
    MemorySink::new(taken, step, fail)
}

/// What stands in a sink in memory.
pub fn taken(sink: &MemorySink) -> &[u8]
    ensures { result.now ≡ sink.now.bytes }
{
    sink.taken()
}

/// A source that never fails.
pub fn steady_source(bytes: Vec<u8>, step: usize) -> SteadySource
    requires { 1 ≤ step }
    ensures { result ≡ record { bytes = bytes.items; step = step; left = [] } }
{
    SteadySource::new(bytes, step)
}

/// A sink that counts and never fails.
pub fn steady_sink<'a>(room: &'a mut Counter) -> SteadySink<'a>
    ensures same { result.room.ghost_name ≡ room.entry.ghost_name }
    ensures value { result.room.now ≡ room.old }
{
    SteadySink::new(room)
}

/// A counter, of its one part.
pub fn counter(bytes: u128) -> Counter
    ensures { result ≡ record { bytes = bytes } }
{
    Counter { bytes }
}

/// A source of files, with no fault so far.
pub fn host_source<R: Files>(rt: R) -> HostSource<R>
    ensures { ⟦<HostSource<R> as Source>⟧.faults result ≡ 0 }
{
    HostSource::new(rt)
}

/// A sink over a writer, with no fault so far.
pub fn host_sink<W: Write>(writer: W) -> HostSink<W>
    ensures { ⟦<HostSink<W> as Sink>⟧.faults result ≡ 0 }
{
    HostSink::new(writer)
}

/// All bytes under a name, or why not.
pub fn read_all<S: Source>(alloc: Global, source: &mut S, name: &str) -> Result<Bytes, ReadFail>
    ensures bytes { IfOk result (λ read.
        IfSome (S.held source.old name.now) (λ bytes. read ≡ bytes)) }
    ensures short { IfOk result (λ read. length read ≤ 1048576) }
    ensures long { IsErrOf result ReadFail.TooLong
        → IfSome (S.held source.old name.now) (λ bytes. 1048576 < length bytes) }
    ensures fault { IsErrOf result ReadFail.ReadFault
        → Rose (S.faults source.old) (S.faults source.new) }
    ensures counts { S.faults source.old ≤ S.faults source.new }
    ensures keeps { (n : List ℕ) → S.held source.new n ≡ S.held source.old n }
{
    outside::read_all(alloc, source, name)
}

/// The whole piece is taken, or a prefix of it where the count rose.
pub fn write_all<O: Sink>(sink: &mut O, piece: &[u8]) -> Result<(), WriteFault>
    ensures ok { OnOk result (Appends (O.taken sink.old) (O.taken sink.new) piece.now) }
    ensures err { OnErr result (AppendsPrefix (O.taken sink.old) (O.taken sink.new) piece.now) }
    ensures fault { OnErr result (Rose (O.faults sink.old) (O.faults sink.new)) }
    ensures counts { O.faults sink.old ≤ O.faults sink.new }
{
    outside::write_all(sink, piece)
}

/// Whether a file is too long. Faults are three, and no other.
pub fn is_too_long(fail: ReadFail) -> bool
    ensures { IsTrue result ↔ (fail ≡ ReadFail.TooLong) }
{
    match fail {
        ReadFail::TooLong => true,
        ReadFail::ReadFault | ReadFail::NoMemory => false,
    }
}

/// A start of a source in memory, which fails exactly where its number is among those that fail.
pub fn memory_start(source: &mut MemorySource, name: &str) -> Result<(), Failed>
    ensures marked { IsTrue (is_failing source.old) ↔ IsErr result }
    ensures after { source.new ≡ after_start source.old }
{
    source.start(name)
}

/// A read of a source in memory.
pub fn memory_read(source: &mut MemorySource, buf: &mut [u8]) -> Result<usize, Failed>
    ensures { ReadsOnce source.old source.new result buf.old buf.new }
{
    source.read(buf)
}

/// A write of a sink in memory.
pub fn memory_write(sink: &mut MemorySink, piece: &[u8]) -> Result<usize, Failed>
    ensures { WritesOnce sink.old sink.new result piece.now }
{
    sink.write(piece)
}

/// A read of a source that never fails.
pub fn steady_read(source: &mut SteadySource, buf: &mut [u8]) -> Result<usize, Failed>
    ensures { let n = given_at_once source.old (length buf.old) in
        (result ≡ Ok n) × (source.new ≡ record source.old { left = drop n source.old.left })
        × (buf.new ≡ take n source.old.left ++ drop n buf.old) }
{
    source.read(buf)
}

/// A write of a sink that never fails, which counts its bytes.
pub fn steady_write(sink: &mut SteadySink<'_>, piece: &[u8]) -> Result<usize, Failed>
    ensures ok { result ≡ Ok (length piece.now) }
    ensures counted { sink.new.room.now.bytes
        ≡ min (sink.old.room.now.bytes + length piece.now) (2 ^ 128 - 1) }
{
    sink.write(piece)
}

/// A source that holds one byte under every name.
pub struct OneByte {
    byte: u8,
    is_left: bool,
}

impl Source for OneByte {
    ghost use Rattle.std.specs.Prelude.{Some, [], ◌∷◌, if◌then◌else◌};

    ghost held = { λ s name. Some (s.byte ∷ []) };

    ghost left = { λ s. Some (if s.is_left then s.byte ∷ [] else []) };

    ghost faults = { λ s. 0 };

    fn start(&mut self, _name: &str) -> Result<(), Failed> {
        self.is_left = true;
        Ok(())
    }

    fn read(&mut self, buf: &mut [u8]) -> Result<usize, Failed> {
        if !self.is_left || buf.is_empty() {
            return Ok(0);
        }
        buf[0] = self.byte;
        self.is_left = false;
        Ok(1)
    }
}

/// A sink that takes a byte at a time, and keeps what it took as long as there is memory.
pub struct Keeping {
    bytes: Vec<u8>,
    faults: u64,
}

impl Sink for Keeping {
    ghost use Rattle.std.specs.Prelude.{Some};

    ghost taken = { λ s. Some s.bytes.items };

    ghost faults = { λ s. s.faults };

    fn write(&mut self, piece: &[u8]) -> Result<usize, Failed> {
        if piece.is_empty() {
            return Ok(0);
        }
        if self.bytes.push(piece[0]).is_err() {
            self.faults = self.faults.saturating_add(1);
            return Err(Failed);
        }
        Ok(1)
    }
}

/// All bytes of the one that holds one byte.
pub fn read_byte(alloc: Global, source: &mut OneByte) -> Result<Bytes, ReadFail>
    ensures { IfOk result (λ read. read ≡ source.old.byte ∷ []) }
{
    read_all(alloc, source, "any")
}

/// The whole piece is kept, or a fault was counted.
pub fn keep(sink: &mut Keeping, piece: &[u8]) -> Result<(), WriteFault>
    ensures ok { OnOk result (sink.new.bytes.items ≡ sink.old.bytes.items ++ piece.now) }
    ensures fault { OnErr result (Rose sink.old.faults sink.new.faults) }
{
    write_all(sink, piece)
}
