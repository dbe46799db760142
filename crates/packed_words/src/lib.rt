//! Words in one piece of bytes, each ended by a byte 0, as a caller from another language packs
//! them.
#![tactic(auto)]

ghost use Rattle.std.specs.Prelude.{◌≡◌, ◌≢◌, ℕ, List, [], IfOk, map, string_bytes, true};
ghost use Rattle.std.specs.List.{list_all};
ghost use Rattle.std.specs.Str.{is_utf8};
ghost use Rattle.packed_words.specs.PackedWords.{has_no_zero, packed_of, texts_in};

use std::alloc::{AllocError, Global};

/// The words. Where one of them is no text, or the last is not ended, there are none. Words that
/// were put together are read back, and where there are words, nothing beside them was given.
///
/// # Errors
/// `AllocError` where memory runs out.
pub fn words(alloc: Global, packed: &[u8]) -> Result<Vec<String>, AllocError>
    ensures texts { IfOk result (λ words. map string_bytes words.items ≡ texts_in packed.now) }
    ensures read_back { (given : List (List ℕ)) → list_all is_utf8 given ≡ true
        → list_all has_no_zero given ≡ true → packed.now ≡ packed_of given
        → IfOk result (λ words. map string_bytes words.items ≡ given) }
    ensures whole { IfOk result (λ words. words.items ≢ []
        → packed.now ≡ packed_of (map string_bytes words.items)) }
{
    let mut words = Vec::new(alloc);
    let mut begun = Vec::new(alloc);
    for byte in packed {
        if *byte == 0 {
            match String::from_utf8(begun) {
                Ok(word) => words.push(word)?,
                Err(_) => return Ok(Vec::new(alloc)),
            }
            begun = Vec::new(alloc);
        } else {
            begun.push(*byte)?;
        }
    }
    if !begun.is_empty() {
        words.clear();
    }
    Ok(words)
}
