// Bytes and the lines in them.
ghost use Rattle.std.specs.Prelude.{◌≡◌, ◌+◌, length, cond, IfSome};
ghost use Rattle.piece_texts.specs.PieceTexts.{line_count};
ghost use Rattle.piece_texts.specs.FieldSteps.{ByteFound, LineCut};

// One or none.
fn one_if(is: bool) -> usize
    ensures { result ≡ cond is 1 0 }
{
    if is { 1 } else { 0 }
}

// How many lines end in a text.
pub(crate) fn line_count(bytes: &[u8]) -> usize
    ensures { result ≡ line_count bytes.now }
{
    let mut count = 0usize;
    for i in 0..bytes.len() {
        count += one_if(bytes[i] == b'\n');
    }
    count
}

// The first place of a byte.
pub(crate) fn place_of(byte: u8, bytes: &[u8]) -> Option<usize>
    ensures { ByteFound byte bytes.now result }
{
    for i in 0..bytes.len() {
        if bytes[i] == byte {
            return Some(i);
        }
    }
    None
}

// The first line, and what stands behind its line feed; none where there is no line feed.
pub(crate) fn split_line(bytes: &[u8]) -> Option<(&[u8], &[u8])>
    ensures cut { LineCut bytes.now result }
    ensures shorter { IfSome result (λ parts.
        length parts.0.now + length parts.1.now + 1 ≡ length bytes.now) }
{
    match place_of(b'\n', bytes) {
        Some(end) => Some((&bytes[..end], &bytes[end + 1..])),
        None => None,
    }
}
