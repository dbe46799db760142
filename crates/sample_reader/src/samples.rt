// Samples, and what is always true of them.
ghost use Rattle.std.specs.Prelude.{◌≡◌, ◌≢◌, ◌<◌, ◌≤◌, ◌*◌, ◌^◌, nat_abs, length, All, AllPairs, IfOk};
ghost use Rattle.weights.specs.Labellings.{counts_of};
ghost use Rattle.record_reader.specs.declared.TheConstants.{MOST_ROWS};
ghost use Rattle.sample_reader.specs.declared.TheConstants.{MOST_TWINS};

use crate::labels::Labels;
use std::alloc::Global;
use weights::{Ints, NoMemory, Nums};

/// The differences of the pairs of a file.
#[derive(Drop)]
pub struct Pairs {
    /// How many pairs there are.
    pub rows: u64,
    /// Each pair's difference, in units of 10^-18, in the order of the file.
    pub differences: Ints,
    pub ghost not_empty: { 1 ≤ rows },
    pub ghost few_enough: { rows ≤ MOST_ROWS },
    pub ghost one_each: { length differences ≡ rows },
    pub ghost in_range: { All (λ difference. nat_abs difference < 2 * 10 ^ 36) differences },
}

/// The cells of a file, one for each block and treatment.
#[derive(Drop)]
pub struct Blocks {
    /// How many blocks there are. Each is a row of the file.
    pub blocks: u64,
    /// How many treatments there are.
    pub treatments: u64,
    /// The cells by blocks, in the order of the file: values in units of 10^-18, or numbers 0 and
    /// 1.
    pub cells: Ints,
    pub ghost not_empty: { 1 ≤ blocks },
    pub ghost few_enough: { blocks ≤ MOST_ROWS },
    pub ghost at_least_two: { 2 ≤ treatments },
    pub ghost at_most_eight: { treatments ≤ 8 },
    pub ghost one_each: { length cells ≡ blocks * treatments },
    pub ghost in_range: { All (λ cell. nat_abs cell < 10 ^ 36) cells },
}

/// The values of a file, each with its group.
#[derive(Drop)]
pub struct Groups {
    /// The labels of the groups, in the order in which they first appear.
    pub labels: Labels,
    /// How many subjects each group has.
    pub sizes: Nums,
    /// The number of each subject's group, from 0, in the order of the file.
    pub members: Nums,
    /// Each subject's value, in units of 10^-18, in the order of the file.
    pub values: Ints,
    pub ghost at_least_two: { 2 ≤ length labels },
    pub ghost at_most_eight: { length labels ≤ 8 },
    pub ghost distinct: { AllPairs ◌≢◌ labels },
    pub ghost few_enough: { length values ≤ MOST_ROWS },
    pub ghost in_range: { All (λ value. nat_abs value < 10 ^ 36) values },
    pub ghost one_group_each: { length members ≡ length values },
    pub ghost groups_exist: { All (λ group. group < length labels) members },
    pub ghost counted: { sizes ≡ counts_of (length labels) members },
    pub ghost none_empty: { All (λ size. 1 ≤ size) sizes },
}

/// The values of a file, each with its stratum and its group.
#[derive(Drop)]
pub struct StrataGroups {
    /// The labels of the strata, in the order in which they first appear.
    pub strata: Labels,
    /// The labels of the two groups, in the order in which they first appear.
    pub labels: Labels,
    /// How many subjects each group has.
    pub sizes: Nums,
    /// The number of each subject's stratum, from 0, in the order of the file.
    pub places: Nums,
    /// The number of each subject's group, from 0, in the order of the file.
    pub members: Nums,
    /// Each subject's value, in units of 10^-18, in the order of the file.
    pub values: Ints,
    pub ghost two: { length labels ≡ 2 },
    pub ghost distinct: { AllPairs ◌≢◌ labels },
    pub ghost strata_distinct: { AllPairs ◌≢◌ strata },
    pub ghost few_enough: { length values ≤ MOST_ROWS },
    pub ghost in_range: { All (λ value. nat_abs value < 10 ^ 36) values },
    pub ghost one_group_each: { length members ≡ length values },
    pub ghost groups_exist: { All (λ group. group < length labels) members },
    pub ghost counted: { sizes ≡ counts_of (length labels) members },
    pub ghost none_empty: { All (λ size. 1 ≤ size) sizes },
    pub ghost one_stratum_each: { length places ≡ length values },
    pub ghost strata_exist: { All (λ stratum. stratum < length strata) places },
    pub ghost no_stratum_empty: { All (λ size. 1 ≤ size) (counts_of (length strata) places) },
}

/// A bivariate sample: the two values of each subject of a file. No difference of the two is taken.
#[derive(Drop)]
pub struct Twins {
    /// How many rows there are.
    pub rows: u64,
    /// Each row's first value, in units of 10^-18, in the order of the file.
    pub first: Ints,
    /// Each row's second value, in units of 10^-18, in the order of the file.
    pub second: Ints,
    pub ghost not_empty: { 1 ≤ rows },
    pub ghost few_enough: { rows ≤ MOST_TWINS },
    pub ghost one_first_each: { length first ≡ rows },
    pub ghost one_second_each: { length second ≡ rows },
    pub ghost first_in_range: { All (λ value. nat_abs value < 10 ^ 36) first },
    pub ghost second_in_range: { All (λ value. nat_abs value < 10 ^ 36) second },
}

/// The labels of the rows of a file, in their order.
#[derive(Drop)]
pub struct Sequence {
    /// The two different labels, in the order in which they first appear.
    pub labels: Labels,
    /// How many rows have each label.
    pub sizes: Nums,
    /// The number of each row's label, from 0, in the order of the file.
    pub members: Nums,
    pub ghost two: { length labels ≡ 2 },
    pub ghost distinct: { AllPairs ◌≢◌ labels },
    pub ghost few_enough: { length members ≤ MOST_ROWS },
    pub ghost labels_exist: { All (λ label. label < length labels) members },
    pub ghost counted: { sizes ≡ counts_of (length labels) members },
    pub ghost none_empty: { All (λ size. 1 ≤ size) sizes },
}

/// How many members each of the groups below `groups` has.
pub(crate) fn sizes_of(alloc: Global, groups: usize, members: &[u64]) -> Result<Nums, NoMemory>
    ensures { IfOk result (λ sizes. sizes ≡ counts_of groups members.now) }
{
    let mut sizes = Nums::empty(alloc);
    for group in 0..groups {
        let size = members
            .iter()
            .filter(|member| **member == group as u64)
            .count();
        sizes.push(size as u64)?;
    }
    Ok(sizes)
}
