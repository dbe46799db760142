// What a network is that takes the keys of another one.
ghost use Rattle.std.specs.Prelude.{◌≡◌, ℕ, ℤ, List, length};

use crate::stages::{Roomed, Stages};

/// A network that can begin at keys of another one: it writes each of them as a key of its own.
pub trait Onward: Roomed {
    /// The keys of a stage that it can write.
    ghost takes: { Self → ℕ → List ℤ → Type 0 };

    /// How it writes them.
    ghost image_of: { Self → ℕ → List ℤ → List ℤ };

    /// Writes a key of a stage of the other network as one of its own.
    fn write_image(&self, stage: usize, key: &[i128], image: &mut [i128])
        requires key { takes self.now stage key.now }
        requires room { length image.old ≡ (Self.Stages.network self.now).width }
        ensures { image.new ≡ image_of self.now stage key.now };
}
