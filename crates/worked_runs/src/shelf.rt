// A source of one file, under one name.
ghost use Rattle.std.specs.Prelude.{◌≡◌, Some, string_bytes};

use outside::{Failed, Source, SteadySource};

/// A source that holds a file under one name. To start it under another one is a fault.
#[derive(Drop)]
pub struct Shelf {
    name: String,
    file: SteadySource,
    faults: u64,
}

impl Shelf {
    /// A source that was not started, with no fault.
    pub fn new(name: String, file: SteadySource) -> Shelf
        ensures held { ⟦<Shelf as Source>⟧.held result (string_bytes name) ≡ Some file.bytes }
        ensures faults { ⟦<Shelf as Source>⟧.faults result ≡ 0 }
    {
        let faults = 0;
        Shelf { name, file, faults }
    }
}

impl Source for Shelf {
    ghost use Rattle.std.specs.Prelude.{Some, string_bytes};
    ghost use Rattle.worked_runs.specs.Shelves.{held_under};

    ghost held = { λ s asked. held_under (string_bytes s.name) s.file.bytes asked };

    ghost left = { λ s. Some s.file.left };

    ghost faults = { λ s. s.faults };

    fn start(&mut self, name: &str) -> Result<(), Failed> {
        if name != self.name.as_str() {
            self.faults = self.faults.saturating_add(1);
            return Err(Failed);
        }
        let _started = self.file.start(name);
        Ok(())
    }

    fn read(&mut self, buf: &mut [u8]) -> Result<usize, Failed> {
        self.file.read(buf)
    }
}
