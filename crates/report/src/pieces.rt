// The pieces that the lines of a report are made of.
ghost use Rattle.std.specs.Prelude.{◌≡◌, ◌++◌, OnOk};
ghost use Rattle.report.specs.Report.{line, printed, printed_byte};

use itoa::{Buffer, Integer};
use weights::{Bytes, NoMemory};

// Adds words and the digits of a number, with its sign where it is negative.
pub(crate) fn push_number<N: Integer>(
    text: &mut Bytes,
    words: &str,
    number: N,
) -> Result<(), NoMemory>
    ensures { OnOk result (text.new ≡ text.old ++ words.now ++ N.text number) }
{
    text.append(words.as_bytes())?;
    text.append(Buffer::new().format(number).as_bytes())
}

// Adds words, a number and the end of the line.
pub(crate) fn end_line<N: Integer>(text: &mut Bytes, words: &str, number: N) -> Result<(), NoMemory>
    ensures { OnOk result (text.new ≡ text.old ++ line (words.now ++ N.text number)) }
{
    push_number(text, words, number)?;
    text.append(b"\n")
}

// Adds two words and the end of a line.
pub(crate) fn push_words(text: &mut Bytes, first: &str, last: &str) -> Result<(), NoMemory>
    ensures { OnOk result (text.new ≡ text.old ++ line (first.now ++ last.now)) }
{
    text.append(first.as_bytes())?;
    text.append(last.as_bytes())?;
    text.append(b"\n")
}

// A byte of a label as it is shown: a control character as a question mark.
fn shown(byte: u8) -> u8
    ensures { result ≡ printed_byte byte }
{
    if byte < 32 || byte == 127 { b'?' } else { byte }
}

// Adds a label as it is shown.
pub(crate) fn push_label(text: &mut Bytes, label: &[u8]) -> Result<(), NoMemory>
    ensures { OnOk result (text.new ≡ text.old ++ printed label.now) }
{
    for byte in label {
        text.push(shown(*byte))?;
    }
    Ok(())
}
