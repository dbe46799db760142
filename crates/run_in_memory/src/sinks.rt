// A sink that grows.
ghost use Rattle.std.specs.Prelude.{◌≡◌, [], false, IfOk};

use outside::{Failed, Sink};
use std::alloc::{AllocError, Global};

/// A sink that keeps all that it takes, as long as memory lasts.
#[derive(Drop)]
pub(crate) struct GrowingSink {
    bytes: Vec<u8>,
    is_cut: bool,
}

impl GrowingSink {
    /// A sink that took nothing yet.
    pub(crate) fn new(alloc: Global) -> GrowingSink
        ensures bytes { result.bytes.items ≡ [] }
        ensures whole { result.is_cut ≡ false }
    {
        GrowingSink {
            bytes: Vec::new(alloc),
            is_cut: false,
        }
    }

    /// All that was written.
    ///
    /// # Errors
    /// `AllocError` where memory ran out in a write.
    pub(crate) fn whole(self) -> Result<Vec<u8>, AllocError>
        ensures bytes { IfOk result (λ bytes. bytes.items ≡ self.bytes.items) }
        ensures whole { IfOk result (λ _. self.is_cut ≡ false) }
    {
        if self.is_cut {
            return Err(AllocError);
        }
        Ok(self.bytes)
    }
}

impl Sink for GrowingSink {
    ghost use Rattle.std.specs.Prelude.{Some};
    ghost use Rattle.run_in_memory.specs.Sinks.{fault_count};

    ghost taken = { λ s. Some s.bytes.items };

    ghost faults = { λ s. fault_count s.is_cut };

    fn write(&mut self, piece: &[u8]) -> Result<usize, Failed> {
        if piece.is_empty() {
            return Ok(0);
        }
        match self.bytes.extend_from_slice(piece) {
            Ok(()) => Ok(piece.len()),
            Err(_) => {
                self.is_cut = true;
                Err(Failed)
            }
        }
    }
}
