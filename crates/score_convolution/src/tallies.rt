// How many draws have each sum, whichever way they are kept.
ghost use Rattle.std.specs.Prelude.{◌≡◌, ℕ, ◌+◌, ◌*◌, ◌≤◌, List, [], ◌∷◌, length, max, OnOk, IfOk};
ghost use Rattle.std.specs.List.{sum};
ghost use Rattle.weights.specs.declared.TheConstants.{MAX};
ghost use Rattle.count_arrays.specs.Rows.{IsPoured};
ghost use Rattle.score_convolution.specs.Places.{placed_pairs};

use std::alloc::Global;
use weights::NoMemory;

/// How many draws have each sum, by its place: how many strides it lies above the lowest one. It is
/// told as cells, one for each place.
pub(crate) trait Tally: Drop {
    /// The greatest count.
    ghost LIMIT: { ℕ };

    ghost cells: { Self → List ℕ };

    /// One draw, at the first place.
    fn one(alloc: Global) -> Result<Self, NoMemory>
        requires { 1 ≤ LIMIT }
        ensures { IfOk result (λ tally. cells tally ≡ 1 ∷ []) };

    /// The same draws.
    fn copy(&self, alloc: Global) -> Result<Self, NoMemory>
        ensures { IfOk result (λ tally. cells tally ≡ cells self.now) };

    /// Adds the draws of another one, each so many places further on.
    fn add(&mut self, alloc: Global, from: &Self, place: u128) -> Result<(), NoMemory>
        requires within { sum (cells self.old) + sum (cells from.now) ≤ LIMIT }
        requires fits { sum (cells self.old) + sum (cells from.now) ≤ MAX }
        requires near { max (length (cells self.old)) (place + length (cells from.now))
            ≤ MAX + 1 }
        ensures told { OnOk result
            (IsPoured (cells from.now) 1 place 1 (cells self.old) (cells self.new)) }
        ensures long { OnOk result (length (cells self.new)
            ≤ max (length (cells self.old)) (place + length (cells from.now))) };

    /// How many pairs of a draw of each stand at places that sum to at least so much.
    fn pairs_from(&self, other: &Self, place: u128) -> u128
        requires light { sum (cells other.now) ≤ MAX }
        requires fits { sum (cells self.now) * sum (cells other.now) ≤ MAX }
        ensures { result ≡ placed_pairs place (cells self.now) (cells other.now) };
}
