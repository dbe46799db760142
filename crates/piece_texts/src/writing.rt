// The text of a piece.
ghost use Rattle.std.specs.Prelude.{◌≡◌, ◌++◌, IfOk, OnOk};
ghost use Rattle.piece_texts.specs.PieceTexts.{IsPiece, ended, sums_text, piece_tail_line, piece_text};

use crate::lines::line_count;
use crate::piece::{Piece, PieceSum};
use itoa::{Buffer, Integer};
use std::alloc::Global;
use weights::{Bytes, NoMemory};

// Adds words, a number and the end of the line.
fn end_line<N: Integer>(text: &mut Bytes, words: &[u8], number: N) -> Result<(), NoMemory>
    ensures { OnOk result (text.new ≡ text.old ++ ended (words.now ++ N.text number)) }
{
    text.append(words)?;
    text.append(Buffer::new().format(number).as_bytes())?;
    text.append(b"\n")
}

// Adds two words and the end of the line.
fn push_words(text: &mut Bytes, first: &[u8], last: &[u8]) -> Result<(), NoMemory>
    ensures { OnOk result (text.new ≡ text.old ++ ended (first.now ++ last.now)) }
{
    text.append(first)?;
    text.append(last)?;
    text.append(b"\n")
}

// Adds the line of a tail.
fn push_sums(text: &mut Bytes, words: &[u8], sums: PieceSum) -> Result<(), NoMemory>
    ensures { OnOk result (text.new ≡ text.old ++ ended (words.now ++ sums_text sums)) }
{
    text.append(words)?;
    text.append(Buffer::new().format(sums.closed).as_bytes())?;
    text.append(b" ")?;
    text.append(Buffer::new().format(sums.sum).as_bytes())?;
    text.append(b"\n")
}

// Adds the line of a tail, where it is asked.
fn push_tail(text: &mut Bytes, words: &[u8], tail: Option<PieceSum>) -> Result<(), NoMemory>
    ensures { OnOk result (text.new ≡ text.old ++ piece_tail_line words.now tail) }
{
    match tail {
        Some(sums) => push_sums(text, words, sums),
        None => Ok(()),
    }
}

/// The text of a piece, line by line: `piece 1`, the run's name, the number of parts and which of
/// them it is, the count of the head's lines and these, the closed sum and the part's sum of each
/// tail that is asked (less, greater, two), and `end`. Every line ends with a line feed, and every
/// number is in its shortest decimal form. It needs a piece that is as [`Piece`] says, so that
/// [`read_pieces`](crate::read_pieces) reads the text. The only error is want of memory.
pub fn piece_text(alloc: Global, piece: &Piece) -> Result<Bytes, NoMemory>
    requires { IsPiece piece.now }
    ensures { IfOk result (λ text. text ≡ piece_text piece.now) }
{
    let mut text = Bytes::empty(alloc);
    push_words(&mut text, b"piece 1", b"")?;
    push_words(&mut text, b"name ", &piece.name)?;
    end_line(&mut text, b"parts ", piece.parts)?;
    end_line(&mut text, b"part ", piece.part)?;
    end_line(
        &mut text,
        b"head ",
        line_count(piece.head.as_slice()) as u64,
    )?;
    text.append(piece.head.as_slice())?;
    push_tail(&mut text, b"less ", piece.less)?;
    push_tail(&mut text, b"greater ", piece.greater)?;
    push_tail(&mut text, b"two ", piece.two)?;
    push_words(&mut text, b"end", b"")?;
    Ok(text)
}
