// Pieces read from bytes.
ghost use Rattle.piece_texts.specs.ReadPieces.{ReadGives};

use crate::lines::split_line;
use crate::piece::Pieces;
use crate::reader::Reader;
use std::alloc::Global;
use thiserror::Error;
use weights::NoMemory;

/// Why bytes are not read as pieces.
#[derive(Clone, Copy, Debug, PartialEq, Eq, Error)]
pub enum PieceFault {
    /// The line at fault, counted from 1.
    #[error("piece line {0}")]
    Line(u64),
    /// Memory ran out.
    #[error("no memory")]
    NoMemory,
}

/// The pieces, at least one, whose texts, one after another, are all of the bytes.
///
/// # Errors
/// `Line` where there are none such, with the first line that no texts of pieces have at its place.
/// Where there is no such line, it is the line behind the last line feed: the bytes end too early
/// there, or without a line feed. Or else `NoMemory` where memory runs out.
pub fn read_pieces(alloc: Global, bytes: &[u8]) -> Result<Pieces, PieceFault>
    ensures { ReadGives bytes.now result }
{
    let mut reader = Reader::new(alloc);
    let mut rest = bytes;
    let mut number = 1u64;
    while let Some((line, more)) = split_line(rest) {
        match reader.step(alloc, line) {
            Ok(true) => {}
            Ok(false) => return Err(PieceFault::Line(number)),
            Err(NoMemory) => return Err(PieceFault::NoMemory),
        }
        rest = more;
        number += 1;
    }
    if rest.is_empty() && reader.is_whole() {
        Ok(Pieces::of(reader.done))
    } else {
        Err(PieceFault::Line(number))
    }
}
