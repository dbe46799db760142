// The hash of a key, by multiplications and shifts.
ghost use Rattle.std.specs.Prelude.{◌≡◌, ◌<◌, ◌-◌, [], ◌∷◌};
ghost use Rattle.node_pool.specs.HashSteps.{stirred, stirred_number, hash_of, slot_of, home_of};

// Mixes a half of a number in.
#[inline(always)]
#[tactic(auto, unfolding(crate::specs::HashSteps::stirred))]
fn stirred(hash: u64, half: u64) -> u64
    ensures { result ≡ stirred hash half }
{
    let product = (hash ^ half).wrapping_mul(0x9E37_79B9_7F4A_7C15);
    product ^ (product >> 32)
}

// Mixes a number in.
#[inline(always)]
fn stirred_number(hash: u64, number: i128) -> u64
    ensures { result ≡ stirred_number hash number }
{
    let bits = number.cast_unsigned();
    let low = stirred(hash, (bits & 0xFFFF_FFFF_FFFF_FFFF) as u64);
    let high = (bits >> 64) as u64;
    if high == 0 { low } else { stirred(low, high) }
}

// The hash of a key.
#[inline(always)]
fn hash_of(key: &[i128]) -> u64
    ensures { result ≡ hash_of key.now }
{
    let mut hash = 0;
    for number in key {
        hash = stirred_number(hash, *number);
    }
    hash
}

// The slot of a hash, by its high bits and a product, since they are what a multiplication stirs
// best. Keys that follow one another then share few slots.
#[inline(always)]
#[tactic(auto, unfolding(crate::specs::HashSteps::slot_of))]
fn slot_of(size: usize, hash: u64) -> usize
    requires { 0 < size }
    ensures value { result ≡ slot_of size hash }
    ensures within { result < size }
{
    let product = hash as u128 * size as u128;
    (product >> 64) as usize
}

/// The slot where a key is looked for first.
#[inline(always)]
pub fn home_of(size: usize, key: &[i128]) -> usize
    requires { 0 < size }
    ensures value { result ≡ home_of size key.now }
    ensures within { result < size }
{
    slot_of(size, hash_of(key))
}

/// The same for a key of one number.
#[inline(always)]
pub fn home_of_one(size: usize, number: i128) -> usize
    requires { 0 < size }
    ensures value { result ≡ home_of size (number ∷ []) }
    ensures within { result < size }
{
    slot_of(size, stirred_number(0, number))
}
