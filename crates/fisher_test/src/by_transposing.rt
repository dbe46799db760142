// Fisher's test, by the table as it stands or by the table transposed, where no key is to be
// counted.
ghost use Rattle.std.specs.Prelude.{◌≡◌, true, IfOk};
ghost use Rattle.weights.specs.declared.tails.Tail.TheVariants.{Two};
ghost use Rattle.weights.specs.Conditional.{distribution, numerator};
ghost use Rattle.weights.specs.Frames.{first_tail};
ghost use Rattle.networks.specs.Lines.{TailsFit, WeightsFit};
ghost use Rattle.fisher_test.specs.FisherExact.{fisher_test};
ghost use Rattle.fisher_test.specs.Transposed.{IsServedBy};

use crate::fisher_table::FisherTable;
use crate::scaled::scaled_spread;
use crate::sorted_sums::sorted_sum;
use crate::transposed::transposed_of;
use enumerate::Framed;
use networks::{Spread, TailSum};
use stage_network::{Prepared, spread_by_rooms, tail_sum_by_rooms};
use std::alloc::Global;
use transposed_tables::in_ratio;
use weights::{NoMemory, Tail};

// The numerator of a tail, by the network of the table as it stands.
fn sum_as_it_stands(alloc: Global, table: &FisherTable, tail: Tail) -> Result<TailSum, NoMemory>
    requires { (fisher_test table.now).has_tail tail ≡ true }
    ensures { let sum = numerator (fisher_test table.now) tail in
        IfOk result (λ found. found.sum ≡ sum) }
{
    if !table.made().two_by_two {
        let found = sorted_sum(alloc, table)?;
        return Ok(found);
    }
    let stages = table.quick_stages_of(alloc, tail)?;
    let found = tail_sum_by_rooms(alloc, &stages, tail)?;
    Ok(found)
}

// That of the tail on both sides, by the table transposed.
fn sum_by_transposing(
    alloc: Global,
    table: &FisherTable,
    transposed: &FisherTable,
) -> Result<TailSum, NoMemory>
    requires { IsServedBy table.now transposed.now }
    ensures { let sum = numerator (fisher_test table.now) Two in
        IfOk result (λ found. found.sum ≡ sum) }
{
    let found = sum_as_it_stands(alloc, transposed, Tail::Two)?;
    let of = transposed.frame().total;
    let all = table.frame().total;
    Ok(TailSum {
        sum: in_ratio(found.sum, of, all),
        opened: 0,
    })
}

/// The numerator of a tail, by the table transposed where that serves; of a tail that is not asked
/// nothing.
pub(crate) fn quick_sum(
    alloc: Global,
    table: &FisherTable,
    asked: bool,
    tail: Tail,
) -> Result<TailSum, NoMemory>
    requires { asked ≡ true → (fisher_test table.now).has_tail tail ≡ true }
    ensures { let sum = numerator (fisher_test table.now) tail in
        asked ≡ true → IfOk result (λ found. found.sum ≡ sum) }
{
    if !asked {
        return Ok(TailSum { sum: 0, opened: 0 });
    }
    match transposed_of(alloc, table)? {
        Some(transposed) => sum_by_transposing(alloc, table, &transposed),
        None => sum_as_it_stands(alloc, table, tail),
    }
}

// The first tail that a table's test has.
fn first_tail(table: &FisherTable) -> Tail
    ensures { result ≡ first_tail (fisher_test table.now) }
{
    if table.made().two_by_two {
        Tail::Less
    } else {
        Tail::Two
    }
}

// The distribution, by the network of the table as it stands.
fn spread_as_it_stands(alloc: Global, table: &FisherTable) -> Result<Spread, NoMemory>
    ensures lines { IfOk result (λ spread. spread ≡ distribution (fisher_test table.now)) }
    ensures weights { IfOk result WeightsFit }
    ensures rules { IfOk result (TailsFit (fisher_test table.now)) }
{
    let _made = table.made();
    let stages = table.quick_stages_of(alloc, first_tail(table))?;
    let found = spread_by_rooms(alloc, &stages)?;
    Ok(found)
}

// The distribution, by the table transposed.
fn spread_by_transposing(
    alloc: Global,
    table: &FisherTable,
    transposed: &FisherTable,
) -> Result<Spread, NoMemory>
    requires { IsServedBy table.now transposed.now }
    ensures lines { IfOk result (λ spread. spread ≡ distribution (fisher_test table.now)) }
    ensures weights { IfOk result WeightsFit }
    ensures rules { IfOk result (TailsFit (fisher_test table.now)) }
{
    let _made = table.made();
    let given = spread_as_it_stands(alloc, transposed)?;
    let of = transposed.frame().total;
    let all = table.frame().total;
    let spread = scaled_spread(alloc, &given, of, all)?;
    Ok(spread)
}

/// The distribution, by the table transposed where that serves.
pub(crate) fn quick_spread(alloc: Global, table: &FisherTable) -> Result<Spread, NoMemory>
    ensures lines { IfOk result (λ spread. spread ≡ distribution (fisher_test table.now)) }
    ensures weights { IfOk result WeightsFit }
    ensures rules { IfOk result (TailsFit (fisher_test table.now)) }
{
    match transposed_of(alloc, table)? {
        Some(transposed) => spread_by_transposing(alloc, table, &transposed),
        None => spread_as_it_stands(alloc, table),
    }
}
