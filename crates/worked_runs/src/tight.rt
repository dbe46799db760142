// A sink that has room for so many bytes.
ghost use Rattle.std.specs.Prelude.{◌≡◌};

use outside::{Failed, Sink};

/// A sink that takes so many bytes, and then fails. It tells nothing of them.
#[derive(Drop)]
pub struct Tight {
    room: usize,
    faults: u64,
}

impl Tight {
    /// A sink with this room and no fault.
    pub fn new(room: usize) -> Tight
        ensures { ⟦<Tight as Sink>⟧.faults result ≡ 0 }
    {
        Tight { room, faults: 0 }
    }
}

impl Sink for Tight {
    ghost faults = { λ s. s.faults };

    fn write(&mut self, piece: &[u8]) -> Result<usize, Failed> {
        if piece.is_empty() {
            return Ok(0);
        }
        if self.room == 0 {
            self.faults = self.faults.saturating_add(1);
            return Err(Failed);
        }
        let taken = self.room.min(piece.len());
        self.room -= taken;
        Ok(taken)
    }
}
