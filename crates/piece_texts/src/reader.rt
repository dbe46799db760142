// A reader of pieces, which takes one line after another.
ghost use Rattle.std.specs.Prelude.{◌≡◌, IfOk, OnOk};
ghost use Rattle.piece_texts.specs.Places.{unknown};
ghost use Rattle.piece_texts.specs.ReaderSteps.{reading, Gives, fresh, with_line, at_end, is_whole};
ghost use Rattle.piece_texts.specs.declared.reader.Step.TheVariants.{Outside, AtName, AtParts, AtPart, AtCount, InHead, AtTail};

use crate::fields::{name_after, number_after, tail_from};
use crate::piece::Piece;
use std::alloc::Global;
use std::mem;
use weights::{Bytes, MAX, NoMemory};

// What a reader takes next: a piece's first line; its name, its number of parts, its part (at most
// so much), the count of its head's lines; a line of the head, with so many behind it; a tail's
// line, from so many on, or the end.
#[derive(Clone, Copy)]
pub(crate) enum Step {
    Outside,
    AtName,
    AtParts,
    AtPart(u64),
    AtCount,
    InHead(u128),
    AtTail(u64),
}

// The whole pieces that were read, what is known of the next, and what is taken next.
#[derive(Drop)]
pub(crate) struct Reader {
    pub done: Vec<Piece>,
    pub draft: Piece,
    pub at: Step,
}

impl Piece {
    // A piece of which nothing is known.
    fn unknown(alloc: Global) -> Piece
        ensures { result ≡ unknown }
    {
        Piece {
            name: [b'0'; 64],
            parts: 0,
            part: 0,
            head: Bytes::empty(alloc),
            total: 0,
            less: None,
            greater: None,
            two: None,
        }
    }
}

impl Reader {
    // Before the first line.
    pub(crate) fn new(alloc: Global) -> Reader
        ensures { reading result ≡ fresh }
    {
        Reader {
            done: Vec::new(alloc),
            draft: Piece::unknown(alloc),
            at: Step::Outside,
        }
    }

    // Whether a piece was read, and nothing behind it.
    pub(crate) fn is_whole(&self) -> bool
        ensures { result ≡ is_whole (reading self.now) }
    {
        match self.at {
            Step::Outside => !self.done.is_empty(),
            _ => false,
        }
    }

    fn begin(&mut self, line: &[u8]) -> bool
        ensures { Gives Outside (reading self.old) line.now (reading self.new) result }
    {
        if line != b"piece 1".as_slice() {
            return false;
        }
        self.at = Step::AtName;
        true
    }

    fn take_name(&mut self, line: &[u8]) -> bool
        ensures { Gives AtName (reading self.old) line.now (reading self.new) result }
    {
        match name_after(b"name ", line) {
            Some(name) => {
                self.draft.name = name;
                self.at = Step::AtParts;
                true
            }
            None => false,
        }
    }

    fn take_parts(&mut self, line: &[u8]) -> bool
        ensures { Gives AtParts (reading self.old) line.now (reading self.new) result }
    {
        match number_after(b"parts ", 1, 64, line) {
            Some(parts) => {
                self.draft.parts = parts as u64;
                self.at = Step::AtPart(parts as u64 - 1);
                true
            }
            None => false,
        }
    }

    fn take_part(&mut self, most: u64, line: &[u8]) -> bool
        ensures { Gives (AtPart most) (reading self.old) line.now (reading self.new) result }
    {
        match number_after(b"part ", 0, most as u128, line) {
            Some(part) => {
                self.draft.part = part as u64;
                self.at = Step::AtCount;
                true
            }
            None => false,
        }
    }

    fn take_count(&mut self, line: &[u8]) -> bool
        ensures { Gives AtCount (reading self.old) line.now (reading self.new) result }
    {
        match number_after(b"head ", 1, MAX, line) {
            Some(count) => {
                self.at = Step::InHead(count - 1);
                true
            }
            None => false,
        }
    }

    // Adds a line to the head.
    fn push_line(&mut self, line: &[u8]) -> Result<(), NoMemory>
        ensures { OnOk result (reading self.new ≡ with_line (reading self.old) line.now) }
    {
        self.draft.head.append(line)?;
        self.draft.head.append(b"\n")
    }

    fn take_line(&mut self, more: u128, line: &[u8]) -> Result<bool, NoMemory>
        ensures { IfOk result (Gives (InHead more) (reading self.old) line.now (reading self.new)) }
    {
        if more > 0 {
            self.push_line(line)?;
            self.at = Step::InHead(more - 1);
            return Ok(true);
        }
        match number_after(b"total ", 1, MAX, line) {
            Some(total) => {
                self.push_line(line)?;
                self.draft.total = total;
                self.at = Step::AtTail(0);
                Ok(true)
            }
            None => Ok(false),
        }
    }

    // Ends a piece.
    fn end(&mut self, alloc: Global) -> Result<(), NoMemory>
        ensures { OnOk result (reading self.new ≡ at_end (reading self.old)) }
    {
        let piece = mem::replace(&mut self.draft, Piece::unknown(alloc));
        self.done.push(piece)?;
        self.at = Step::Outside;
        Ok(())
    }

    fn take_tail(&mut self, alloc: Global, from: u64, line: &[u8]) -> Result<bool, NoMemory>
        ensures { IfOk result (Gives (AtTail from) (reading self.old) line.now (reading self.new)) }
    {
        if from >= 1 && line == b"end".as_slice() {
            self.end(alloc)?;
            return Ok(true);
        }
        match tail_from(from, line) {
            Some((tail, sums)) => {
                match tail {
                    0 => self.draft.less = Some(sums),
                    1 => self.draft.greater = Some(sums),
                    _ => self.draft.two = Some(sums),
                }
                self.at = Step::AtTail(tail + 1);
                Ok(true)
            }
            None => Ok(false),
        }
    }

    // Takes a line, or finds that it may not follow.
    pub(crate) fn step(&mut self, alloc: Global, line: &[u8]) -> Result<bool, NoMemory>
        ensures { IfOk result (Gives self.old.at (reading self.old) line.now (reading self.new)) }
    {
        match self.at {
            Step::Outside => Ok(self.begin(line)),
            Step::AtName => Ok(self.take_name(line)),
            Step::AtParts => Ok(self.take_parts(line)),
            Step::AtPart(most) => Ok(self.take_part(most, line)),
            Step::AtCount => Ok(self.take_count(line)),
            Step::InHead(more) => self.take_line(more, line),
            Step::AtTail(from) => self.take_tail(alloc, from, line),
        }
    }
}
