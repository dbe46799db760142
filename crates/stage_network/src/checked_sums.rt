// The sums of a room, added to those of the rooms before it.
ghost use Rattle.std.specs.Prelude.{◌≡◌, ◌+◌, ◌*◌, IfOk, cond, false};
ghost use Rattle.weights.specs.declared.tails.Tail.{Tail};
ghost use Rattle.networks.specs.Completions.{is_inside};
ghost use Rattle.networks.specs.Opened.{is_undecided};
ghost use Rattle.networks.specs.EachTail.{some_undecided, sum_for, verdict_for};

use crate::stops::Stop;
use networks::{TailSum, TailSums, Verdict, Verdicts};

fn added(a: u128, b: u128) -> Result<u128, Stop>
    ensures { IfOk result (λ sum. sum ≡ a + b) }
{
    match a.checked_add(b) {
        Some(sum) => Ok(sum),
        None => Err(Stop::Thin),
    }
}

fn times(a: u128, b: u128) -> Result<u128, Stop>
    ensures { IfOk result (λ product. product ≡ a * b) }
{
    match a.checked_mul(b) {
        Some(product) => Ok(product),
        None => Err(Stop::Thin),
    }
}

fn joined_one(sums: TailSum, inside: TailSum, rest: u128) -> Result<TailSum, Stop>
    ensures sum { IfOk result (λ all. all.sum ≡ sums.sum + inside.sum * rest) }
    ensures opened { IfOk result (λ all. all.opened ≡ sums.opened + inside.opened) }
{
    let product = times(inside.sum, rest)?;
    Ok(TailSum {
        sum: added(sums.sum, product)?,
        opened: added(sums.opened, inside.opened)?,
    })
}

/// The sums with those of a room, whose completions weigh so much.
pub fn joined(sums: TailSums, inside: TailSums, rest: u128) -> Result<TailSums, Stop>
    ensures sum { IfOk result (λ all. (t : Tail) → (sum_for all t).sum
        ≡ (sum_for sums t).sum + (sum_for inside t).sum * rest) }
    ensures opened { IfOk result (λ all. (t : Tail) → (sum_for all t).opened
        ≡ (sum_for sums t).opened + (sum_for inside t).opened) }
{
    Ok(TailSums {
        less: joined_one(sums.less, inside.less, rest)?,
        greater: joined_one(sums.greater, inside.greater, rest)?,
        two: joined_one(sums.two, inside.two, rest)?,
    })
}

fn raised_one(
    sums: TailSum,
    verdict: Verdict,
    stays: bool,
    weight: u128,
    keys: u128,
) -> Result<TailSum, Stop>
    ensures sum { let inside = cond stays false (is_inside verdict) in
        IfOk result (λ all. all.sum ≡ sums.sum + cond inside weight 0) }
    ensures opened { IfOk result (λ all. all.opened
        ≡ sums.opened + cond (is_undecided verdict) keys 0) }
{
    match verdict {
        Verdict::Inside if !stays => Ok(TailSum {
            sum: added(sums.sum, weight)?,
            opened: sums.opened,
        }),
        Verdict::Undecided => Ok(TailSum {
            sum: sums.sum,
            opened: added(sums.opened, keys)?,
        }),
        Verdict::Inside | Verdict::Outside => Ok(sums),
    }
}

/// The sums with so many keys of one verdict, which weigh so much.
pub fn raised(
    sums: TailSums,
    verdicts: Verdicts,
    stays: bool,
    weight: u128,
    keys: u128,
) -> Result<TailSums, Stop>
    ensures sum { IfOk result (λ all. (t : Tail)
        → let inside = cond stays false (is_inside (verdict_for verdicts t)) in
        (sum_for all t).sum ≡ (sum_for sums t).sum + cond inside weight 0) }
    ensures opened { IfOk result (λ all. (t : Tail) → (sum_for all t).opened
        ≡ (sum_for sums t).opened + cond (is_undecided (verdict_for verdicts t)) keys 0) }
{
    Ok(TailSums {
        less: raised_one(sums.less, verdicts.less, stays, weight, keys)?,
        greater: raised_one(sums.greater, verdicts.greater, stays, weight, keys)?,
        two: raised_one(sums.two, verdicts.two, stays, weight, keys)?,
    })
}
