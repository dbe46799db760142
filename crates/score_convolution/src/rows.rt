// The draws of one number of subjects, by the sum of their scores.
ghost use Rattle.std.specs.Prelude.{◌≡◌, ℕ, ℤ, pos, ◌+ℤ◌, ◌-ℤ◌, ◌≤ℤ◌, ◌+◌, ◌<◌, ◌≤◌, length};
ghost use Rattle.std.specs.Prelude.{max, unsigned_abs, OnOk, IfOk};
ghost use Rattle.std.specs.Int.{◌∣◌};
ghost use Rattle.weights.specs.declared.TheConstants.{MAX};
ghost use Rattle.count_arrays.specs.Rows.{stepped};
ghost use Rattle.score_convolution.specs.DrawRows.{IsDrawRow, row_draws};

use crate::tallies::Tally;
use std::alloc::Global;
use weights::{NoMemory, plus};

/// The draws of one number of subjects: how many there are, and how many have each sum of scores,
/// by how many strides it lies above the lowest one.
#[derive(Drop)]
pub(crate) struct DrawRow<K: Tally> {
    pub lowest: i128,
    pub total: u128,
    pub tally: K,
}

impl<K: Tally> DrawRow<K> {
    /// The one draw of nobody.
    pub(crate) fn nobody(alloc: Global) -> Result<DrawRow<K>, NoMemory>
        requires { 1 ≤ K.LIMIT }
        ensures row { IfOk result (IsDrawRow K.cells K.LIMIT) }
        ensures one { IfOk result (λ row. row.total ≡ 1) }
        ensures lowest { IfOk result (λ row. row.lowest ≡ pos 0) }
        ensures long { IfOk result (λ row. length (K.cells row.tally) ≡ 1) }
        ensures told { IfOk result (λ row. (g : ℤ → ℕ) (stride : ℕ)
            → row_draws K.cells g stride row ≡ g (pos 0)) }
    {
        Ok(DrawRow {
            lowest: 0,
            total: 1,
            tally: K::one(alloc)?,
        })
    }

    /// The same draws, each with a subject of this score.
    pub(crate) fn with(&self, alloc: Global, score: i128) -> Result<DrawRow<K>, NoMemory>
        requires row { IsDrawRow K.cells K.LIMIT self.now }
        requires fits { unsigned_abs self.now.lowest + unsigned_abs score ≤ MAX }
        ensures row { IfOk result (IsDrawRow K.cells K.LIMIT) }
        ensures as_many { IfOk result (λ row. row.total ≡ self.now.total) }
        ensures lowest { IfOk result (λ row. row.lowest ≡ self.now.lowest +ℤ score) }
        ensures long { IfOk result (λ row.
            length (K.cells row.tally) ≡ length (K.cells self.now.tally)) }
        ensures told { IfOk result (λ row. (g : ℤ → ℕ) (stride : ℕ)
            → row_draws K.cells g stride row
            ≡ row_draws K.cells (λ v. g (v +ℤ score)) stride self.now) }
    {
        let tally = self.tally.copy(alloc)?;
        Ok(DrawRow {
            lowest: plus(self.lowest, score),
            total: self.total,
            tally,
        })
    }

    /// Adds the draws of a row, the lowest of them at a place of this one.
    pub(crate) fn add(
        &mut self,
        alloc: Global,
        from: &DrawRow<K>,
        place: u128,
    ) -> Result<(), NoMemory>
        requires row { IsDrawRow K.cells K.LIMIT self.old }
        requires from { IsDrawRow K.cells K.LIMIT from.now }
        requires within { self.old.total + from.now.total ≤ K.LIMIT }
        requires fits { self.old.total + from.now.total ≤ MAX }
        requires near { max (length (K.cells self.old.tally))
            (place + length (K.cells from.now.tally)) ≤ MAX + 1 }
        ensures row { OnOk result (IsDrawRow K.cells K.LIMIT self.new) }
        ensures total { OnOk result (self.new.total ≡ self.old.total + from.now.total) }
        ensures lowest { OnOk result (self.new.lowest ≡ self.old.lowest) }
        ensures long { OnOk result (length (K.cells self.new.tally)
            ≤ max (length (K.cells self.old.tally)) (place + length (K.cells from.now.tally))) }
        ensures told { OnOk result ((g : ℤ → ℕ) (stride : ℕ) (score : ℤ)
            → stepped self.old.lowest (pos stride) place ≡ from.now.lowest +ℤ score
            → row_draws K.cells g stride self.new
            ≡ row_draws K.cells g stride self.old
            + row_draws K.cells (λ v. g (v +ℤ score)) stride from.now) }
    {
        self.tally.add(alloc, &from.tally, place)?;
        self.total += from.total;
        Ok(())
    }
}

/// How many strides two scores lie apart.
pub(crate) fn place_between(one: i128, other: i128, stride: u128) -> u128
    requires some { 0 < stride }
    requires apart { stride ∣ unsigned_abs (other -ℤ one) }
    requires order { one ≤ℤ other }
    ensures place { (lowest : ℤ)
        → stepped lowest (pos stride) result ≡ lowest +ℤ (other -ℤ one) }
    ensures near { result ≤ unsigned_abs (other -ℤ one) }
{
    other.abs_diff(one) / stride
}
