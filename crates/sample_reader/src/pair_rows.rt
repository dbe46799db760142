// The pairs of a file.
ghost use Rattle.std.specs.Prelude.{◌≡◌, ◌⊎◌, ◌-ℤ◌, ◌*◌, ◌^◌, ◌<◌, Ok, IfErr, IfOk, length, nat_abs};
ghost use Rattle.record_reader.specs.Answers.{IsFaultOf};
ghost use Rattle.sample_reader.specs.CellLayouts.{differences, differences_in, differences_of, no_pairs, second_less_first, with_pair_value};
ghost use Rattle.sample_reader.specs.Data.{twin_data_of};
ghost use Rattle.sample_reader.specs.Kept.{AreDifferences, AreInRange, AreWholeTwins, AreWholePairs};
ghost use Rattle.record_reader.specs.Layouts.{MayPick};
ghost use Rattle.sample_reader.specs.Twins.{twins_of};

use crate::fields::{is_missing_value, value_in};
use crate::samples::{Pairs, Twins};
use record_reader::{
    FieldFault, Kind, Layout, LayoutFault, MOST_ROWS, Missing, Picks, Rows, Shape, read_in,
};
use std::alloc::Global;
use std::marker::Model;
use weights::{Ints, NoMemory};

// The values of the pairs so far: the first of each, and the second, if rows have two.
#[derive(Drop)]
pub(crate) struct PairsSoFar {
    first: Ints,
    second: Ints,
}

impl Model for PairsSoFar {
    ghost use Rattle.sample_reader.specs.CellLayouts.{PairValues};
    ghost use Rattle.sample_reader.specs.Kept.{AreInRange};

    ghost Value = { PairValues };

    ghost view = { λ a. record { first = a.first; second = a.second } };

    ghost invariant = { λ a. AreInRange a.first × AreInRange a.second };
}

impl PairsSoFar {
    fn empty(alloc: Global) -> PairsSoFar
        ensures { result ≡ no_pairs }
    {
        PairsSoFar {
            first: Ints::empty(alloc),
            second: Ints::empty(alloc),
        }
    }

    // These with one value more, by its place in its row.
    fn with_value(self, place: usize, value: i128) -> Result<PairsSoFar, NoMemory>
        requires { nat_abs value < 10 ^ 36 }
        ensures { IfOk result (λ more. more ≡ with_pair_value place self value) }
    {
        let PairsSoFar {
            mut first,
            mut second,
        } = self;
        if place == 0 {
            first.push(value)?;
        } else {
            second.push(value)?;
        }
        Ok(PairsSoFar { first, second })
    }

    // The pairs of these, where they are all.
    fn into_pairs(self, alloc: Global) -> Result<Pairs, NoMemory>
        requires { AreWholePairs self }
        ensures { IfOk result (λ pairs. pairs.differences ≡ differences self) }
    {
        let rows = self.first.len() as u64;
        let differences = differences(alloc, self.first, &self.second)?;
        Ok(Pairs { rows, differences })
    }

    // The bivariate sample of these, where they are all.
    pub(crate) fn into_twins(self) -> Twins
        requires { AreWholeTwins self }
        ensures { twin_data_of result ≡ twins_of self }
    {
        Twins {
            rows: self.first.len() as u64,
            first: self.first,
            second: self.second,
        }
    }
}

// The second value less the first.
fn difference(first: i128, second: i128) -> i128
    requires first_in_range { nat_abs first < 10 ^ 36 }
    requires second_in_range { nat_abs second < 10 ^ 36 }
    ensures difference { result ≡ second -ℤ first }
    ensures in_range { nat_abs result < 2 * 10 ^ 36 }
{
    second - first
}

// Each item of the second list less the one of the first.
fn second_less_first(alloc: Global, first: &[i128], second: &[i128]) -> Result<Ints, NoMemory>
    requires same_length { length first.now ≡ length second.now }
    requires first_in_range { AreInRange first.now }
    requires second_in_range { AreInRange second.now }
    ensures differences { IfOk result (λ differences.
        differences ≡ second_less_first first.now second.now) }
    ensures one_each { IfOk result (λ differences. length differences ≡ length first.now) }
    ensures in_range { IfOk result AreDifferences }
{
    let mut differences = Ints::empty(alloc);
    for pair in 0..first.len() {
        differences.push(difference(first[pair], second[pair]))?;
    }
    Ok(differences)
}

// The difference of each pair: its second value less its first, or its single value.
fn differences(alloc: Global, first: Ints, second: &Ints) -> Result<Ints, NoMemory>
    requires one_or_two { (length second.now ≡ 0) ⊎ (length first ≡ length second.now) }
    requires first_in_range { AreInRange first }
    requires second_in_range { AreInRange second.now }
    ensures differences { IfOk result (λ differences.
        differences ≡ differences_of first second.now) }
    ensures one_each { IfOk result (λ differences. length differences ≡ length first) }
    ensures in_range { IfOk result AreDifferences }
{
    if second.len() == 0 {
        return Ok(first);
    }
    second_less_first(alloc, first.as_slice(), second.as_slice())
}

// The layout of pairs: one value or two in each row.
#[derive(Clone, Copy)]
pub(crate) struct PairLayout;

impl Layout<PairsSoFar> for PairLayout {
    ghost use Rattle.sample_reader.specs.CellLayouts.{pair_layout};

    ghost meaning = { λ _. pair_layout };

    fn shape(&self) -> Shape {
        Shape {
            narrowest: 1,
            widest: 2,
            too_wide: Kind::FieldCount,
            most_rows: MOST_ROWS,
        }
    }

    fn start(&self, alloc: Global) -> PairsSoFar {
        PairsSoFar::empty(alloc)
    }

    fn with_field(
        &self,
        place: usize,
        text: &[u8],
        so_far: PairsSoFar,
    ) -> Result<PairsSoFar, FieldFault> {
        Ok(so_far.with_value(place, value_in(text)?)?)
    }

    fn is_missing(&self, _place: usize, text: &[u8]) -> bool {
        is_missing_value(text)
    }

    fn is_enough(&self, so_far: &PairsSoFar) -> bool {
        so_far.first.len() > 0
    }
}

/// The pairs of a file, in time linear in it: each row of data has the difference of a pair, or its
/// two values, of which the difference is the second less the first.
///
/// A value is a number text, with spaces and tabs around it ignored. There are 1 to [`MOST_ROWS`]
/// rows below the header, whose texts are not used. Rows and fields have numbers from 1, so the
/// header is row 1.
///
/// Where rows with a missing value are dropped, a row below the header that is not one too many, is
/// as wide as the header, and of which a picked value is empty or `NA`, gives no pair, and none of
/// its faults counts.
///
/// # Errors
/// `Columns` where there is a header and a listed field is not in it. Else `At` with the first
/// fault of the file: `NoHeader` where it has no row, `FieldCount` where its header has neither one
/// field nor two and none are listed, and then, row by row, `TooManyRows`, `FieldCount` where the
/// row is not as wide as the header, and the faults of its picked fields in the order picked:
/// `Missing`, `NotNumber`, `OutOfRange`. `EndsEarly` at the last row where no row below the header
/// is left. Or else `NoMemory` where memory runs out.
pub fn pairs(
    alloc: Global,
    rows: &Rows,
    picks: &Picks,
    missing: Missing,
) -> Result<Pairs, LayoutFault>
    requires { MayPick 1 2 picks.now }
    ensures ok { IfOk result (λ pairs.
        differences_in missing picks.now rows.now ≡ Ok pairs.differences) }
    ensures fault { IfErr result (IsFaultOf (differences_in missing picks.now rows.now)) }
{
    let values = read_in(alloc, &PairLayout, missing, rows, picks)?;
    Ok(values.into_pairs(alloc)?)
}
