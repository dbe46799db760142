// A distribution, by that of the table transposed.
ghost use Rattle.std.specs.Prelude.{◌≡◌, ◌*◌, ◌/◌, ◌%◌, ◌<◌, ◌≤◌, map, pos, All, IfOk};
ghost use Rattle.weights.specs.declared.TheConstants.{MAX};
ghost use Rattle.networks.specs.Lines.{IsAscending};
ghost use Rattle.fisher_test.specs.Transposed.{IsScalable, scaled_line};

use crate::fisher_table::held;
use networks::Spread;
use std::alloc::Global;
use transposed_tables::in_ratio;
use weights::{Line, NoMemory};

// A part of a total, in the ratio of another total, as values are held.
fn held_part(part: u128, of: u128, all: u128) -> i128
    requires some { 0 < of }
    requires within { part ≤ of }
    requires whole { (all * part) % of ≡ 0 }
    requires few { all ≤ MAX }
    ensures { result ≡ pos (part * all / of) }
{
    held(in_ratio(part, of, all))
}

// A line in the ratio of two totals.
fn scaled(line: &Line, of: u128, all: u128) -> Line
    requires some { 0 < of }
    requires few { all ≤ MAX }
    requires scalable { IsScalable all of line.now }
    ensures { result ≡ scaled_line all of line.now }
{
    let value = held_part(line.value.unsigned_abs(), of, all);
    let weight = in_ratio(line.weight, of, all);
    Line { value, weight }
}

/// The lines of a distribution in the ratio of two totals.
pub(crate) fn scaled_spread(
    alloc: Global,
    given: &Spread,
    of: u128,
    all: u128,
) -> Result<Spread, NoMemory>
    requires some { 0 < of }
    requires few { all ≤ MAX }
    requires scalable { All (IsScalable all of) given.now }
    requires ascending { IsAscending (map (scaled_line all of) given.now) }
    ensures { IfOk result (λ spread. spread ≡ map (scaled_line all of) given.now) }
{
    let lines = given.as_slice();
    let mut spread = Spread::empty(alloc);
    for line in lines {
        spread.push(scaled(line, of, all))?;
    }
    Ok(spread)
}
