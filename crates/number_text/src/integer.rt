//! Whole numbers with an optional sign.

ghost use Rattle.std.specs.Prelude.{◌≡◌, min, IsTrue};
ghost use Rattle.std.specs.Str.Parse.{starts_with_minus, without_leading_sign};
ghost use Rattle.number_text.specs.Numerals.{is_numeral, decimal_value, signed};

use crate::digits::{CAP, capped_value, is_numeral};

/// A text with its sign taken off.
#[derive(Clone, Copy)]
pub(crate) struct SignedText<'a> {
    /// Whether the sign is a minus.
    pub(crate) negative: bool,
    /// The text without the sign.
    pub(crate) unsigned: &'a [u8],
}

impl SignedText<'_> {
    /// Whether the text without the sign writes a whole number.
    pub(crate) fn is_integer(&self) -> bool
        ensures { result ≡ is_numeral self.now.unsigned.now }
    {
        is_numeral(self.unsigned)
    }

    /// The whole number, where its magnitude is below the cap, and else the cap with its sign.
    pub(crate) fn capped_value(&self) -> i128
        requires { IsTrue (is_numeral self.now.unsigned.now) }
        ensures { result
            ≡ signed self.now.negative (min (decimal_value self.now.unsigned.now) CAP) }
    {
        let magnitude = capped_value(0, self.unsigned) as i128;
        if self.negative { -magnitude } else { magnitude }
    }
}

/// Takes off the sign, where the text has one.
pub(crate) fn split_sign(text: &[u8]) -> SignedText<'_>
    ensures negative { result.negative ≡ starts_with_minus text.now }
    ensures unsigned { result.unsigned.now ≡ without_leading_sign text.now }
{
    match text {
        [b'-', unsigned @ ..] => SignedText {
            negative: true,
            unsigned,
        },
        [b'+', unsigned @ ..] => SignedText {
            negative: false,
            unsigned,
        },
        unsigned => SignedText {
            negative: false,
            unsigned,
        },
    }
}
