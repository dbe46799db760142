// A source over bytes that the caller holds.
ghost use Rattle.std.specs.Prelude.{◌≡◌, ◌++◌, take};

use outside::{Failed, Source};

/// A source that holds the same bytes under every name, and never fails.
#[derive(Drop)]
pub(crate) struct SliceSource<'a> {
    bytes: &'a [u8],
    left: &'a [u8],
}

impl<'a> SliceSource<'a> {
    /// A source that was not started.
    pub(crate) fn new(bytes: &'a [u8]) -> SliceSource<'a>
        ensures { result.bytes.now ≡ bytes.now }
    {
        SliceSource { bytes, left: bytes }
    }
}

impl Source for SliceSource<'_> {
    ghost use Rattle.std.specs.Prelude.{Some};

    ghost held = { λ s _. Some s.bytes.now };

    ghost left = { λ s. Some s.left.now };

    ghost faults = { λ _. 0 };

    fn start(&mut self, _name: &str) -> Result<(), Failed> {
        self.left = self.bytes;
        Ok(())
    }

    fn read(&mut self, buf: &mut [u8]) -> Result<usize, Failed> {
        let n = buf.len().min(self.left.len());
        let (given, left) = self.left.split_at(n);
        buf[..n].copy_from_slice(given);
        self.left = left;
        Ok(n)
    }
}
