//! Spaces and tabs around a text.

ghost use Rattle.std.specs.Prelude.{◌≡◌};
ghost use Rattle.number_text.specs.Trimmed.{is_blank, trimmed, without_leading_blanks, without_trailing_blanks};

/// The text without the spaces and tabs at both ends.
pub fn trim(text: &[u8]) -> &[u8]
    ensures { result.now ≡ trimmed text.now }
{
    trim_end(trim_start(text))
}

fn trim_start(mut text: &[u8]) -> &[u8]
    ensures { result.now ≡ without_leading_blanks text.now }
{
    while let Some((first, rest)) = text.split_first() {
        if !is_blank(*first) {
            break;
        }
        text = rest;
    }
    text
}

fn trim_end(mut text: &[u8]) -> &[u8]
    ensures { result.now ≡ without_trailing_blanks text.now }
{
    while let Some((last, rest)) = text.split_last() {
        if !is_blank(*last) {
            break;
        }
        text = rest;
    }
    text
}

fn is_blank(byte: u8) -> bool
    ensures { result ≡ is_blank byte }
{
    matches!(byte, b' ' | b'\t')
}
