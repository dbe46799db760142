// Sinks of bytes.
ghost use Rattle.std.specs.Prelude.{◌≡◌, ◌≤◌, ◌<◌, ℕ, List, None, Ok, IfOk, OnOk, OnErr, Option, length, take};
ghost use Rattle.std.specs.Io.KnownBytes.{Appends, WriteAppends};
ghost use Rattle.outside.specs.Faults.{AppendsPrefix, Rose};

use crate::source::Failed;
use thiserror::Error;

/// Where bytes go.
pub trait Sink {
    // The bytes taken so far, where it tells them.
    ghost taken: { Self → Option (List ℕ) } = { λ _. None };

    // How many calls failed; the count stays at its last value.
    ghost faults: { Self → ℕ };

    /// Takes the first bytes of the piece, at least one where there is one, and answers how many.
    fn write(&mut self, piece: &[u8]) -> Result<usize, Failed>
        ensures within { IfOk result (λ n. n ≤ length piece.now) }
        ensures some { IfOk result (λ n. 0 < length piece.now → 0 < n) }
        ensures empty { length piece.now ≡ 0 → result ≡ Ok 0 }
        ensures takes { WriteAppends (taken self.old) (taken self.new) result piece.now }
        ensures counts { faults self.old ≤ faults self.new }
        ensures fails { OnErr result (Rose (faults self.old) (faults self.new)) };
}

/// A call to a sink failed, and a prefix of the piece was taken.
#[derive(Clone, Copy, Debug, PartialEq, Eq, Error)]
#[error("write fault")]
pub struct WriteFault;

/// Writes the whole piece. Each write offers all of it that is not yet taken. It takes no memory.
///
/// # Errors
/// `WriteFault` where a write failed: then a prefix of the piece was taken.
pub fn write_all<O: Sink>(sink: &mut O, piece: &[u8]) -> Result<(), WriteFault>
    ensures ok { OnOk result (Appends (O.taken sink.old) (O.taken sink.new) piece.now) }
    ensures err { OnErr result (AppendsPrefix (O.taken sink.old) (O.taken sink.new) piece.now) }
    ensures fault { OnErr result (Rose (O.faults sink.old) (O.faults sink.new)) }
    ensures counts { O.faults sink.old ≤ O.faults sink.new }
{
    let mut at = 0;
    while at < piece.len() {
        match sink.write(&piece[at..]) {
            Ok(n) => at += n,
            Err(_) => return Err(WriteFault),
        }
    }
    Ok(())
}
