// A line that takes no memory.
ghost use Rattle.std.specs.Prelude.{◌≡◌, ◌+◌, ◌≤◌, ◌++◌, [], decimal, length};
ghost use Rattle.report.specs.ShortLines.{bytes_of};

use itoa::Buffer;
use std::marker::Model;

// How many bytes a short line has room for.
const SHORT_LINE: usize = 96;

/// A line of at most 96 bytes, kept in place: the first `used` of its bytes.
#[derive(Drop)]
pub struct ShortLine {
    pub bytes: [u8; SHORT_LINE],
    pub used: usize,
}

impl ShortLine {
    /// The bytes of the line: `bytes[..used]`, or all 96 where `used` is more.
    pub fn as_slice(&self) -> &[u8]
        ensures { result.now ≡ bytes_of self.now }
    {
        &self.bytes[..self.used.min(SHORT_LINE)]
    }
}

// A line that is being written.
#[derive(Drop)]
pub(crate) struct LineStart {
    line: ShortLine,
}

impl Model for LineStart {
    ghost use Rattle.std.specs.Prelude.{List, ℕ, ◌≤◌};
    ghost use Rattle.report.specs.ShortLines.{bytes_of};

    ghost Value = { List ℕ };

    ghost view = { λ a. bytes_of a.line };

    ghost invariant = { λ a. a.line.used ≤ 96 };
}

impl LineStart {
    // The line of no byte.
    pub(crate) fn empty() -> LineStart
        ensures { result ≡ [] }
    {
        LineStart {
            line: ShortLine {
                bytes: [0; SHORT_LINE],
                used: 0,
            },
        }
    }

    // Adds bytes at the end.
    pub(crate) fn push(&mut self, piece: &[u8])
        requires { length self.old + length piece.now ≤ SHORT_LINE }
        ensures { self.new ≡ self.old ++ piece.now }
    {
        let end = self.line.used + piece.len();
        self.line.bytes[self.line.used..end].copy_from_slice(piece);
        self.line.used = end;
    }

    // Adds the digits of a number, which are at most 20.
    pub(crate) fn push_number(&mut self, n: u64)
        requires { length self.old + 20 ≤ SHORT_LINE }
        ensures line { self.new ≡ self.old ++ decimal n }
        ensures longer { length self.new ≤ length self.old + 20 }
    {
        self.push(Buffer::new().format(n).as_bytes());
    }

    // The line as it stands.
    pub(crate) fn line(self) -> ShortLine
        ensures bytes { bytes_of result ≡ self }
        ensures fits { result.used ≤ SHORT_LINE }
    {
        self.line
    }
}
