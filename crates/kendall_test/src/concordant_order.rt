// Kendall's test where no two first values are equal: K rises by 2 with each pair of subjects whose
// values stand in the same order.
ghost use Rattle.std.specs.Prelude.{◌≡◌, ◌-ℤ◌, ◌≤◌, pos, true, unsigned_abs, IfOk};
ghost use Rattle.std.specs.List.{sum};
ghost use Rattle.sample_reader.specs.PooledSample.{values_of};
ghost use Rattle.networks.specs.Follows.{AreNumerators};
ghost use Rattle.networks.specs.Judged.{judge_of};
ghost use Rattle.pooled_columns.specs.PooledColumns.{column_sizes};
ghost use Rattle.concordant_pairs.specs.ConcordantPairs.{are_distinct, pairs_across};
ghost use Rattle.kendall_test.specs.Kendall.{kendall_subjects, kendall_test};

use crate::pair_order::PairOrder;
use crate::pairs::open_pairs;
use concordant_pairs::concordant_sums;
use networks::{Judge, TailSums};
use std::alloc::Global;
use weights::{NoMemory, Tails};

// K where no pair rises: each pair with different second values falls.
fn lowest_order(rows: &[u64]) -> i128
    requires { sum rows.now ≤ 120 }
    ensures is { result ≡ pos 0 -ℤ pos (pairs_across rows.now) }
    ensures small { unsigned_abs result ≤ 14400 }
{
    -open_pairs(rows, 0)
}

/// The numerators by the numbers of pairs that rise.
pub(crate) fn concordant_numerators(
    alloc: Global,
    order: &PairOrder,
    judge: Judge,
    _tails: Tails,
) -> Result<TailSums, NoMemory>
    requires distinct { are_distinct (column_sizes (values_of (kendall_subjects order.now)))
        ≡ true }
    requires judge { judge ≡ judge_of (kendall_test order.now) }
    ensures { IfOk result (AreNumerators (kendall_test order.now) _tails) }
{
    let rows = order.made().rows.as_slice();
    let lowest = lowest_order(rows);
    concordant_sums(alloc, rows, lowest, 2, &judge)
}
