// Kendall's test by the test as it stands or by the test transposed, where no key is to be counted.
ghost use Rattle.std.specs.Prelude.{◌≡◌, true, IfOk};
ghost use Rattle.weights.specs.Conditional.{numerator};
ghost use Rattle.networks.specs.Follows.{AreNumerators};
ghost use Rattle.networks.specs.Judged.{judge_of};
ghost use Rattle.kendall_test.specs.Kendall.{kendall_test};
ghost use Rattle.kendall_test.specs.TransposedKendall.{transposed_twins};

use crate::concordant_order::concordant_numerators;
use crate::pair_order::PairOrder;
use crate::transposed::transposed_of;
use concordant_pairs::are_distinct;
use labelled::LabelStatistic;
use networks::{Judge, TailSum, TailSums};
use stage_network::tail_sums_by_rooms;
use std::alloc::Global;
use transposed_tables::in_ratio;
use weights::{NoMemory, Tail, Tails};

// The numerators of the test as it stands: by how many pairs rise where no two first values are
// equal, or else by its network.
fn sums_as_they_stand(
    alloc: Global,
    order: &PairOrder,
    judge: Judge,
    tails: Tails,
) -> Result<TailSums, NoMemory>
    requires { judge ≡ judge_of (kendall_test order.now) }
    ensures { IfOk result (AreNumerators (kendall_test order.now) tails) }
{
    if are_distinct(order.made().columns.as_slice()) {
        return concordant_numerators(alloc, order, judge, tails);
    }
    let stages = order.quick_stages_of(alloc, judge)?;
    let sums = tail_sums_by_rooms(alloc, &stages, tails)?;
    Ok(sums)
}

// The numerator of a tail by that of the test transposed, in the ratio of the totals; of a tail
// that is not asked nothing.
fn numerator_by_transposing(
    order: &PairOrder,
    transposed: &PairOrder,
    asked: bool,
    found: TailSum,
    _tail: Tail,
) -> TailSum
    requires transposed { transposed.now ≡ transposed_twins order.now }
    requires found { asked ≡ true → found.sum ≡ numerator (kendall_test transposed.now) _tail }
    ensures { asked ≡ true → result.sum ≡ numerator (kendall_test order.now) _tail }
{
    if !asked {
        return TailSum { sum: 0, opened: 0 };
    }
    let here = order.made();
    let there = transposed.made();
    let of = there.total;
    TailSum {
        sum: in_ratio(found.sum, of, here.total),
        opened: 0,
    }
}

// The numerators by the test transposed.
fn sums_by_transposing(
    alloc: Global,
    order: &PairOrder,
    transposed: &PairOrder,
    judge: Judge,
    tails: Tails,
) -> Result<TailSums, NoMemory>
    requires transposed { transposed.now ≡ transposed_twins order.now }
    requires judge { judge ≡ judge_of (kendall_test order.now) }
    ensures { IfOk result (AreNumerators (kendall_test order.now) tails) }
{
    let found = sums_as_they_stand(alloc, transposed, judge, tails)?;
    Ok(TailSums {
        less: numerator_by_transposing(order, transposed, tails.less, found.less, Tail::Less),
        greater: numerator_by_transposing(
            order,
            transposed,
            tails.greater,
            found.greater,
            Tail::Greater,
        ),
        two: numerator_by_transposing(order, transposed, tails.two, found.two, Tail::Two),
    })
}

/// The numerators of the asked tails, by the test transposed where that serves.
pub(crate) fn quick_sums(
    alloc: Global,
    order: &PairOrder,
    judge: Judge,
    tails: Tails,
) -> Result<TailSums, NoMemory>
    requires { judge ≡ judge_of (kendall_test order.now) }
    ensures { IfOk result (AreNumerators (kendall_test order.now) tails) }
{
    match transposed_of(alloc, order)? {
        Some(transposed) => sums_by_transposing(alloc, order, &transposed, judge, tails),
        None => sums_as_they_stand(alloc, order, judge, tails),
    }
}
