// The name of a run.
ghost use Rattle.std.specs.Prelude.{◌≡◌};
ghost use Rattle.piece_texts.specs.RunNames.{run_name};

use hex::encode_to_slice;
use sha2::{Digest, Sha256};

/// The name of a run: the SHA-256 (FIPS 180-4) of the bytes of its words, without its part, and
/// those of its file, in 64 lower-case hexadecimal digits. It takes no memory.
pub fn name_of(words: &[u8], file: &[u8]) -> [u8; 64]
    ensures { result ≡ run_name words.now file.now }
{
    let mut hasher = Sha256::new();
    hasher.update(words);
    hasher.update(file);
    let digest = hasher.finalize();
    let mut name = [0u8; 64];
    match encode_to_slice(digest, &mut name) {
        Ok(()) => name,
        Err(_) => unreachable!(),
    }
}
