// Sources of bytes.
ghost use Rattle.std.specs.Prelude.{◌≡◌, ◌≤◌, ◌<◌, ℕ, List, None, Some, IfOk, IfSome, OnOk, OnErr, IsErrOf, Option, length, take};
ghost use Rattle.std.specs.Io.KnownBytes.{Consumes, IsAtEnd};
ghost use Rattle.outside.specs.Faults.{Rose};

use std::alloc::Global;
use thiserror::Error;
use weights::{Bytes, NoMemory};

/// A call to the outside failed.
#[derive(Clone, Copy, Debug, PartialEq, Eq, Error)]
#[error("failed")]
pub struct Failed;

/// Where bytes come from, by name.
pub trait Source {
    // The bytes that it holds under a name, where it tells them.
    ghost held: { Self → List ℕ → Option (List ℕ) } = { λ _ _. None };

    // The bytes that are left after a start, where it tells them.
    ghost left: { Self → Option (List ℕ) } = { λ _. None };

    // How many calls failed; the count stays at its last value.
    ghost faults: { Self → ℕ };

    /// Makes the named bytes the bytes that are left.
    fn start(&mut self, name: &str) -> Result<(), Failed>
        ensures starts { OnOk result
            (IfSome (held self.old name.now) (λ bytes. left self.new ≡ Some bytes)) }
        ensures keeps { (n : List ℕ) → held self.new n ≡ held self.old n }
        ensures counts { faults self.old ≤ faults self.new }
        ensures fails { OnErr result (Rose (faults self.old) (faults self.new)) };

    /// Moves a prefix of the bytes that are left into the front of `buf`, and answers its length.
    /// It is 0 for a `buf` that is not empty where nothing is left.
    fn read(&mut self, buf: &mut [u8]) -> Result<usize, Failed>
        ensures within { IfOk result (λ n. n ≤ length buf.new) }
        ensures moves { IfOk result (λ n.
            Consumes (left self.old) (left self.new) (take n buf.new)) }
        ensures end { IfOk result (λ n. n ≡ 0 → 0 < length buf.new → IsAtEnd (left self.new)) }
        ensures keeps { (n : List ℕ) → held self.new n ≡ held self.old n }
        ensures counts { faults self.old ≤ faults self.new }
        ensures fails { OnErr result (Rose (faults self.old) (faults self.new)) };
}

/// The greatest number of bytes that a file may have.
pub const LONGEST_FILE: usize = 1_048_576;

// How many bytes one read of `read_all` asks for.
const READ_SIZE: usize = 32_768;

/// Why a file was not read.
#[derive(Clone, Copy, Debug, PartialEq, Eq, Error)]
pub enum ReadFail {
    /// A call to the source failed.
    #[error("read fault")]
    ReadFault,
    /// The file has more than `LONGEST_FILE` bytes.
    #[error("file longer than 1048576 bytes")]
    TooLong,
    /// Memory ran out.
    #[error("no memory")]
    NoMemory,
}

impl From<NoMemory> for ReadFail {
    ghost use Rattle.std.specs.Prelude.{◌≡◌};
    ghost use Rattle.outside.specs.declared.source.ReadFail.TheVariants as fail;

    ghost from_gives = { λ _ e. e ≡ fail.NoMemory };

    fn from(_error: NoMemory) -> ReadFail {
        ReadFail::NoMemory
    }
}

/// Starts the source, and reads all bytes that it holds under the name.
///
/// # Errors
/// `ReadFault` where a call to the source failed, and `TooLong` where there are more than
/// [`LONGEST_FILE`] bytes. Or else `NoMemory` where memory runs out.
pub fn read_all<S: Source>(alloc: Global, source: &mut S, name: &str) -> Result<Bytes, ReadFail>
    ensures bytes { IfOk result (λ read.
        IfSome (S.held source.old name.now) (λ bytes. read ≡ bytes)) }
    ensures short { IfOk result (λ read. length read ≤ LONGEST_FILE) }
    ensures long { IsErrOf result ReadFail.TooLong
        → IfSome (S.held source.old name.now) (λ bytes. LONGEST_FILE < length bytes) }
    ensures fault { IsErrOf result ReadFail.ReadFault
        → Rose (S.faults source.old) (S.faults source.new) }
    ensures counts { S.faults source.old ≤ S.faults source.new }
    ensures keeps { (n : List ℕ) → S.held source.new n ≡ S.held source.old n }
{
    if source.start(name).is_err() {
        return Err(ReadFail::ReadFault);
    }
    let mut bytes = Bytes::empty(alloc);
    let mut buf = [0u8; READ_SIZE];
    loop {
        let n = match source.read(buf.as_mut_slice()) {
            Ok(n) => n,
            Err(_) => return Err(ReadFail::ReadFault),
        };
        if n == 0 {
            return Ok(bytes);
        }
        if bytes.len() + n > LONGEST_FILE {
            return Err(ReadFail::TooLong);
        }
        bytes.append(&buf[..n])?;
    }
}
