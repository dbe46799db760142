// Values made whole by a power of ten.
ghost use Rattle.std.specs.Prelude.{◌≡◌, ◌-◌, ◌^◌, ◌<◌, map, IfOk};
ghost use Rattle.std.specs.List.{list_all};
ghost use Rattle.scores.specs.RawScores.{decimals, raw_score};
ghost use Rattle.scores.specs.ScoreSteps.{AreWhole, is_multiple_of};

use std::alloc::Global;
use weights::{Ints, NoMemory};

/// One, in the unit of values.
pub(crate) const ONE: u128 = 1_000_000_000_000_000_000;

/// Values times the least power of ten that makes them whole.
#[derive(Drop)]
pub struct WholeValues {
    /// The products.
    pub list: Ints,
    /// The power.
    pub power: u128,
}

// Whether all values are multiples of a number.
fn are_multiples(values: &[i128], unit: u128) -> bool
    requires { 0 < unit }
    ensures { result ≡ list_all (is_multiple_of unit) values.now }
{
    values.iter().all(|value| value.unsigned_abs() % unit == 0)
}

/// The greatest of 10^18, 10^17, .., 1 that divides all values.
pub(crate) fn greatest_unit(values: &[i128]) -> u128
    ensures { result ≡ 10 ^ (18 - decimals values.now) }
{
    let mut unit = ONE;
    for _decimals in 0..18u64 {
        if are_multiples(values, unit) {
            return unit;
        }
        unit /= 10;
    }
    unit
}

/// Makes values whole, which are counted in units of 10^-18.
///
/// # Errors
/// Where memory runs out.
pub fn whole_values(alloc: Global, values: &[i128]) -> Result<WholeValues, NoMemory>
    ensures { IfOk result (AreWhole values.now) }
{
    let unit = greatest_unit(values);
    let mut list = Ints::empty(alloc);
    for value in values {
        list.push(value / unit as i128)?;
    }
    Ok(WholeValues {
        list,
        power: ONE / unit,
    })
}
