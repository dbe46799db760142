// The public calls of `sample_reader`.
ghost use Rattle.std.specs.Prelude.{[], ◌*◌, ◌++◌, ◌<◌, ◌^◌, ◌↔◌, ◌∷◌, ◌≡◌, ◌≢◌, ◌≤◌, All, AllPairs, IfErr, IfOk, IsErrOf, IsPermutation, IsTrue, OnErr, OnOk, length, nat_abs, List, ℕ};
ghost use Rattle.std.specs.List.{slice_index_or};
ghost use Rattle.record_reader.specs.Answers.{IsFaultOf};
ghost use Rattle.sample_reader.specs.CellLayouts.{binary_blocks_in, blocks_in, differences_in};
ghost use Rattle.sample_reader.specs.Data.{block_data_of, data_of, sequence_data_of, strata_data_of, twin_data_of};
ghost use Rattle.sample_reader.specs.Dropped.{MayPickFor, dropped_of};
ghost use Rattle.sample_reader.specs.GroupLayout.{groups_in};
ghost use Rattle.sample_reader.specs.Orders.{reordered, reordered_strata};
ghost use Rattle.sample_reader.specs.Sequences.{sequence_in};
ghost use Rattle.sample_reader.specs.StrataGroups.{strata_groups_in};
ghost use Rattle.sample_reader.specs.Twins.{twins_in};
ghost use Rattle.sample_reader.specs.Values.{IsBinary};
ghost use Rattle.weights.specs.Labellings.{counts_of};

use record_reader::{LayoutFault, Picks, Rows};
use sample_reader::{
    Blocks, Groups, Labels, Layout, Missing, OrderFault, Pairs, Sequence, StrataGroups, Twins,
};
use std::alloc::Global;
use weights::{Ints, NoMemory, Nums};

/// No label.
pub fn no_label(alloc: Global) -> Labels
    ensures { result ≡ [] }
{
    Labels::empty(alloc)
}

/// One more label.
pub fn push_label(labels: &mut Labels, label: &[u8]) -> Result<(), NoMemory>
    ensures ok { OnOk result (labels.new ≡ labels.old ++ label.now ∷ []) }
    ensures err { OnErr result (labels.new ≡ labels.old) }
{
    labels.push(label)
}

/// How many labels there are.
pub fn label_count(labels: &Labels) -> usize
    ensures { result ≡ length labels.now }
{
    labels.len()
}

/// A label.
pub fn label_at(labels: &Labels, i: usize) -> &[u8]
    requires { i < length labels.now }
    ensures { result.now ≡ slice_index_or labels.now i [] }
{
    labels.label(i)
}

/// The rows of pairs, which are 1 to 10,000, with one difference each.
pub fn pair_rows(pairs: &Pairs) -> u64
    ensures rows { result ≡ pairs.now.rows }
    ensures some { 1 ≤ result }
    ensures few { result ≤ 10000 }
    ensures one_each { length pairs.now.differences ≡ result }
{
    pairs.rows
}

/// The differences of pairs, each of small magnitude.
pub fn differences(pairs: &Pairs) -> &Ints
    ensures differences { result.now ≡ pairs.now.differences }
    ensures small { All (λ difference. nat_abs difference < 2 * 10 ^ 36) result.now }
{
    &pairs.differences
}

/// The labels of groups, which are 2 to 8 and distinct.
pub fn group_labels(groups: &Groups) -> &Labels
    ensures labels { result.now ≡ groups.now.labels }
    ensures two { 2 ≤ length result.now }
    ensures eight { length result.now ≤ 8 }
    ensures distinct { AllPairs ◌≢◌ result.now }
{
    &groups.labels
}

/// The sizes of groups: how often each label occurs, which is at least once.
pub fn group_sizes(groups: &Groups) -> &Nums
    ensures sizes { result.now ≡ groups.now.sizes }
    ensures counted { result.now ≡ counts_of (length groups.now.labels) groups.now.members }
    ensures some { All (λ size. 1 ≤ size) result.now }
{
    &groups.sizes
}

/// The members of groups: one per value, each below the number of labels.
pub fn group_members(groups: &Groups) -> &Nums
    ensures members { result.now ≡ groups.now.members }
    ensures one_each { length result.now ≡ length groups.now.values }
    ensures exist { All (λ group. group < length groups.now.labels) result.now }
{
    &groups.members
}

/// The values of groups, which are at most 10,000, each of small magnitude.
pub fn group_values(groups: &Groups) -> &Ints
    ensures values { result.now ≡ groups.now.values }
    ensures few { length result.now ≤ 10000 }
    ensures small { All (λ value. nat_abs value < 10 ^ 36) result.now }
{
    &groups.values
}

/// How many blocks there are, 1 to 10,000.
pub fn block_count(blocks: &Blocks) -> u64
    ensures blocks { result ≡ blocks.now.blocks }
    ensures some { 1 ≤ result }
    ensures few { result ≤ 10000 }
{
    blocks.blocks
}

/// How many treatments there are, 2 to 8.
pub fn treatment_count(blocks: &Blocks) -> u64
    ensures treatments { result ≡ blocks.now.treatments }
    ensures two { 2 ≤ result }
    ensures eight { result ≤ 8 }
{
    blocks.treatments
}

/// The cells of blocks: one per block and treatment, each of small magnitude.
pub fn block_cells(blocks: &Blocks) -> &Ints
    ensures cells { result.now ≡ blocks.now.cells }
    ensures one_each { length result.now ≡ blocks.now.blocks * blocks.now.treatments }
    ensures small { All (λ cell. nat_abs cell < 10 ^ 36) result.now }
{
    &blocks.cells
}

/// The labels of groups in strata: two that are distinct.
pub fn strata_group_labels(samples: &StrataGroups) -> &Labels
    ensures labels { result.now ≡ samples.now.labels }
    ensures two { length result.now ≡ 2 }
    ensures distinct { AllPairs ◌≢◌ result.now }
{
    &samples.labels
}

/// The strata of groups, which are distinct.
pub fn strata_labels(samples: &StrataGroups) -> &Labels
    ensures strata { result.now ≡ samples.now.strata }
    ensures distinct { AllPairs ◌≢◌ result.now }
{
    &samples.strata
}

/// The sizes of groups in strata: how often each label occurs, which is at least once.
pub fn strata_group_sizes(samples: &StrataGroups) -> &Nums
    ensures sizes { result.now ≡ samples.now.sizes }
    ensures counted { result.now ≡ counts_of (length samples.now.labels) samples.now.members }
    ensures some { All (λ size. 1 ≤ size) result.now }
{
    &samples.sizes
}

/// The places of subjects: one per value, each below the number of strata, and no stratum empty.
pub fn strata_places(samples: &StrataGroups) -> &Nums
    ensures places { result.now ≡ samples.now.places }
    ensures one_each { length result.now ≡ length samples.now.values }
    ensures exist { All (λ stratum. stratum < length samples.now.strata) result.now }
    ensures some { All (λ size. 1 ≤ size) (counts_of (length samples.now.strata) result.now) }
{
    &samples.places
}

/// The members of groups in strata: one per value, each below the number of labels.
pub fn strata_members(samples: &StrataGroups) -> &Nums
    ensures members { result.now ≡ samples.now.members }
    ensures one_each { length result.now ≡ length samples.now.values }
    ensures exist { All (λ group. group < length samples.now.labels) result.now }
{
    &samples.members
}

/// The values of groups in strata, which are at most 10,000, each of small magnitude.
pub fn strata_values(samples: &StrataGroups) -> &Ints
    ensures values { result.now ≡ samples.now.values }
    ensures few { length result.now ≤ 10000 }
    ensures small { All (λ value. nat_abs value < 10 ^ 36) result.now }
{
    &samples.values
}

/// The labels of a sequence: two that are distinct.
pub fn sequence_labels(sequence: &Sequence) -> &Labels
    ensures labels { result.now ≡ sequence.now.labels }
    ensures two { length result.now ≡ 2 }
    ensures distinct { AllPairs ◌≢◌ result.now }
{
    &sequence.labels
}

/// The sizes of a sequence: how often each label occurs, which is at least once.
pub fn sequence_sizes(sequence: &Sequence) -> &Nums
    ensures sizes { result.now ≡ sequence.now.sizes }
    ensures counted { result.now ≡ counts_of (length sequence.now.labels) sequence.now.members }
    ensures some { All (λ size. 1 ≤ size) result.now }
{
    &sequence.sizes
}

/// The members of a sequence, which are at most 10,000, each below the number of labels.
pub fn sequence_members(sequence: &Sequence) -> &Nums
    ensures members { result.now ≡ sequence.now.members }
    ensures few { length result.now ≤ 10000 }
    ensures exist { All (λ label. label < length sequence.now.labels) result.now }
{
    &sequence.members
}

/// Pairs of a file, or the first fault.
pub fn pairs(
    alloc: Global,
    rows: &Rows,
    picks: &Picks,
    missing: Missing,
) -> Result<Pairs, LayoutFault>
    requires least { (fields : List ℕ) → picks.now ≡ Picks.Listed fields → 1 ≤ length fields }
    requires most { (fields : List ℕ) → picks.now ≡ Picks.Listed fields → length fields ≤ 2 }
    requires from_one { (fields : List ℕ) → picks.now ≡ Picks.Listed fields
        → All (λ field. 1 ≤ field) fields }
    requires distinct { (fields : List ℕ) → picks.now ≡ Picks.Listed fields
        → AllPairs ◌≢◌ fields }
    ensures ok { IfOk result (λ pairs.
        differences_in missing picks.now rows.now ≡ Ok pairs.differences) }
    ensures fault { IfErr result (IsFaultOf (differences_in missing picks.now rows.now)) }
{
    sample_reader::pairs(alloc, rows, picks, missing)
}

/// Groups of a file, or the first fault.
pub fn groups(
    alloc: Global,
    rows: &Rows,
    picks: &Picks,
    most: u64,
    missing: Missing,
) -> Result<Groups, LayoutFault>
    requires many { (fields : List ℕ) → picks.now ≡ Picks.Listed fields → length fields ≡ 2 }
    requires from_one { (fields : List ℕ) → picks.now ≡ Picks.Listed fields
        → All (λ field. 1 ≤ field) fields }
    requires distinct { (fields : List ℕ) → picks.now ≡ Picks.Listed fields
        → AllPairs ◌≢◌ fields }
    requires two { 2 ≤ most }
    requires eight { most ≤ 8 }
    ensures ok { IfOk result (λ groups.
        groups_in most missing picks.now rows.now ≡ Ok (data_of groups)) }
    ensures most { IfOk result (λ groups. length groups.labels ≤ most) }
    ensures fault { IfErr result (IsFaultOf (groups_in most missing picks.now rows.now)) }
{
    sample_reader::groups(alloc, rows, picks, most, missing)
}

/// Blocks of a file, or the first fault.
pub fn blocks(
    alloc: Global,
    rows: &Rows,
    picks: &Picks,
    missing: Missing,
) -> Result<Blocks, LayoutFault>
    requires least { (fields : List ℕ) → picks.now ≡ Picks.Listed fields → 2 ≤ length fields }
    requires most { (fields : List ℕ) → picks.now ≡ Picks.Listed fields → length fields ≤ 8 }
    requires from_one { (fields : List ℕ) → picks.now ≡ Picks.Listed fields
        → All (λ field. 1 ≤ field) fields }
    requires distinct { (fields : List ℕ) → picks.now ≡ Picks.Listed fields
        → AllPairs ◌≢◌ fields }
    ensures ok { IfOk result (λ blocks.
        blocks_in missing picks.now rows.now ≡ Ok (block_data_of blocks)) }
    ensures fault { IfErr result (IsFaultOf (blocks_in missing picks.now rows.now)) }
{
    sample_reader::blocks(alloc, rows, picks, missing)
}

/// Binary blocks of a file, or the first fault.
pub fn binary_blocks(
    alloc: Global,
    rows: &Rows,
    picks: &Picks,
    missing: Missing,
) -> Result<Blocks, LayoutFault>
    requires least { (fields : List ℕ) → picks.now ≡ Picks.Listed fields → 2 ≤ length fields }
    requires most { (fields : List ℕ) → picks.now ≡ Picks.Listed fields → length fields ≤ 8 }
    requires from_one { (fields : List ℕ) → picks.now ≡ Picks.Listed fields
        → All (λ field. 1 ≤ field) fields }
    requires distinct { (fields : List ℕ) → picks.now ≡ Picks.Listed fields
        → AllPairs ◌≢◌ fields }
    ensures ok { IfOk result (λ blocks.
        binary_blocks_in missing picks.now rows.now ≡ Ok (block_data_of blocks)) }
    ensures binary { IfOk result (λ blocks. All IsBinary blocks.cells) }
    ensures fault { IfErr result (IsFaultOf (binary_blocks_in missing picks.now rows.now)) }
{
    sample_reader::binary_blocks(alloc, rows, picks, missing)
}

/// Groups in strata of a file, or the first fault.
pub fn strata_groups(
    alloc: Global,
    rows: &Rows,
    picks: &Picks,
    missing: Missing,
) -> Result<StrataGroups, LayoutFault>
    requires many { (fields : List ℕ) → picks.now ≡ Picks.Listed fields → length fields ≡ 3 }
    requires from_one { (fields : List ℕ) → picks.now ≡ Picks.Listed fields
        → All (λ field. 1 ≤ field) fields }
    requires distinct { (fields : List ℕ) → picks.now ≡ Picks.Listed fields
        → AllPairs ◌≢◌ fields }
    ensures ok { IfOk result (λ samples.
        strata_groups_in missing picks.now rows.now ≡ Ok (strata_data_of samples)) }
    ensures fault { IfErr result (IsFaultOf (strata_groups_in missing picks.now rows.now)) }
{
    sample_reader::strata_groups(alloc, rows, picks, missing)
}

/// A sequence of a file, or the first fault.
pub fn sequence(
    alloc: Global,
    rows: &Rows,
    picks: &Picks,
    missing: Missing,
) -> Result<Sequence, LayoutFault>
    requires many { (fields : List ℕ) → picks.now ≡ Picks.Listed fields → length fields ≡ 1 }
    requires from_one { (fields : List ℕ) → picks.now ≡ Picks.Listed fields
        → All (λ field. 1 ≤ field) fields }
    requires distinct { (fields : List ℕ) → picks.now ≡ Picks.Listed fields
        → AllPairs ◌≢◌ fields }
    ensures ok { IfOk result (λ sequence.
        sequence_in missing picks.now rows.now ≡ Ok (sequence_data_of sequence)) }
    ensures fault { IfErr result (IsFaultOf (sequence_in missing picks.now rows.now)) }
{
    sample_reader::sequence(alloc, rows, picks, missing)
}

/// Groups with their labels numbered anew, or why not.
pub fn reorder(alloc: Global, groups: &Groups, order: &Labels) -> Result<Groups, OrderFault>
    ensures ok { IfOk result (λ new. data_of new ≡ reordered order.now (data_of groups.now)) }
    ensures fit { OnOk result (IsPermutation groups.now.labels order.now) }
    ensures unfit { IsErrOf result OrderFault.Unfit → ¬ IsPermutation groups.now.labels order.now }
{
    sample_reader::reorder(alloc, groups, order)
}

/// Groups in strata with their labels numbered anew, or why not.
pub fn reorder_strata(
    alloc: Global,
    samples: &StrataGroups,
    order: &Labels,
) -> Result<StrataGroups, OrderFault>
    ensures ok { IfOk result (λ new.
        strata_data_of new ≡ reordered_strata order.now (strata_data_of samples.now)) }
    ensures fit { OnOk result (IsPermutation samples.now.labels order.now) }
    ensures unfit { IsErrOf result OrderFault.Unfit
        → ¬ IsPermutation samples.now.labels order.now }
{
    sample_reader::reorder_strata(alloc, samples, order)
}

/// How many rows are dropped of a file.
pub fn dropped(rows: &Rows, picks: &Picks, layout: Layout) -> u64
    requires { MayPickFor layout picks.now }
    ensures { result ≡ dropped_of layout picks.now rows.now }
{
    sample_reader::dropped(rows, picks, layout)
}

/// Whether missing rows are dropped.
pub fn drops(missing: Missing) -> bool
    ensures { IsTrue result ↔ (missing ≡ Missing.Drop) }
{
    match missing {
        Missing::Refuse => false,
        Missing::Drop => true,
    }
}

/// The four layouts that are there from the first.
pub fn first_layouts() -> [Layout; 4]
    ensures { result ≡ Layout.Pairs ∷ Layout.Groups ∷ Layout.Blocks ∷ Layout.BinaryBlocks ∷ [] }
{
    [
        Layout::Pairs,
        Layout::Groups,
        Layout::Blocks,
        Layout::BinaryBlocks,
    ]
}

/// The layouts that were added.
pub fn later_layouts() -> [Layout; 3]
    ensures { result ≡ Layout.StrataGroups ∷ Layout.Twins ∷ Layout.Sequence ∷ [] }
{
    [Layout::StrataGroups, Layout::Twins, Layout::Sequence]
}

/// Whether an order does not fit. Order faults are two, and no other.
pub fn is_unfit(fault: OrderFault) -> bool
    ensures { IsTrue result ↔ (fault ≡ OrderFault.Unfit) }
{
    match fault {
        OrderFault::Unfit => true,
        OrderFault::NoMemory => false,
    }
}

/// The rows of twins, 1 to 120, with two values each.
pub fn twin_rows(twins: &Twins) -> u64
    ensures rows { result ≡ twins.now.rows }
    ensures some { 1 ≤ result }
    ensures few { result ≤ 120 }
    ensures first { length twins.now.first ≡ result }
    ensures second { length twins.now.second ≡ result }
{
    twins.rows
}

/// The first values of twins, each of small magnitude.
pub fn first_values(twins: &Twins) -> &Ints
    ensures first { result.now ≡ twins.now.first }
    ensures small { All (λ value. nat_abs value < 10 ^ 36) result.now }
{
    &twins.first
}

/// The second values of twins, each of small magnitude.
pub fn second_values(twins: &Twins) -> &Ints
    ensures second { result.now ≡ twins.now.second }
    ensures small { All (λ value. nat_abs value < 10 ^ 36) result.now }
{
    &twins.second
}

/// Twins of a file, or the first fault.
pub fn twins(
    alloc: Global,
    rows: &Rows,
    picks: &Picks,
    missing: Missing,
) -> Result<Twins, LayoutFault>
    requires many { (fields : List ℕ) → picks.now ≡ Picks.Listed fields → length fields ≡ 2 }
    requires from_one { (fields : List ℕ) → picks.now ≡ Picks.Listed fields
        → All (λ field. 1 ≤ field) fields }
    requires distinct { (fields : List ℕ) → picks.now ≡ Picks.Listed fields
        → AllPairs ◌≢◌ fields }
    ensures ok { IfOk result (λ twins.
        twins_in missing picks.now rows.now ≡ Ok (twin_data_of twins)) }
    ensures fault { IfErr result (IsFaultOf (twins_in missing picks.now rows.now)) }
{
    sample_reader::twins(alloc, rows, picks, missing)
}

/// Pairs, of their two parts.
pub fn pairs_of(rows: u64, differences: Ints) -> Pairs
    requires some { 1 ≤ rows }
    requires few { rows ≤ 10000 }
    requires one_each { length differences ≡ rows }
    requires small { All (λ difference. nat_abs difference < 2 * 10 ^ 36) differences }
    ensures rows { result.rows ≡ rows }
    ensures differences { result.differences ≡ differences }
{
    Pairs { rows, differences }
}

/// Groups, of their four parts.
pub fn groups_of(labels: Labels, sizes: Nums, members: Nums, values: Ints) -> Groups
    requires two { 2 ≤ length labels }
    requires eight { length labels ≤ 8 }
    requires distinct { AllPairs ◌≢◌ labels }
    requires few { length values ≤ 10000 }
    requires small { All (λ value. nat_abs value < 10 ^ 36) values }
    requires one_each { length members ≡ length values }
    requires exist { All (λ group. group < length labels) members }
    requires counted { sizes ≡ counts_of (length labels) members }
    requires some { All (λ size. 1 ≤ size) sizes }
    ensures { data_of result ≡ record { labels = labels; members = members; values = values } }
{
    Groups {
        labels,
        sizes,
        members,
        values,
    }
}

/// Blocks, of their three parts.
pub fn blocks_of(blocks: u64, treatments: u64, cells: Ints) -> Blocks
    requires some { 1 ≤ blocks }
    requires few { blocks ≤ 10000 }
    requires two { 2 ≤ treatments }
    requires eight { treatments ≤ 8 }
    requires one_each { length cells ≡ blocks * treatments }
    requires small { All (λ cell. nat_abs cell < 10 ^ 36) cells }
    ensures data { block_data_of result
        ≡ record { blocks = blocks; treatments = treatments; cells = cells } }
    ensures cells { result.cells ≡ cells }
{
    Blocks {
        blocks,
        treatments,
        cells,
    }
}

/// Groups in strata, of their six parts.
pub fn strata_groups_of(
    strata: Labels,
    labels: Labels,
    sizes: Nums,
    places: Nums,
    members: Nums,
    values: Ints,
) -> StrataGroups
    requires two { length labels ≡ 2 }
    requires distinct { AllPairs ◌≢◌ labels }
    requires strata_distinct { AllPairs ◌≢◌ strata }
    requires few { length values ≤ 10000 }
    requires small { All (λ value. nat_abs value < 10 ^ 36) values }
    requires one_each { length members ≡ length values }
    requires exist { All (λ group. group < length labels) members }
    requires counted { sizes ≡ counts_of (length labels) members }
    requires some { All (λ size. 1 ≤ size) sizes }
    requires places_each { length places ≡ length values }
    requires strata_exist { All (λ stratum. stratum < length strata) places }
    requires strata_some { All (λ size. 1 ≤ size) (counts_of (length strata) places) }
    ensures { strata_data_of result ≡ record {
      strata = strata;
      labels = labels;
      places = places;
      members = members;
      values = values;
    } }
{
    StrataGroups {
        strata,
        labels,
        sizes,
        places,
        members,
        values,
    }
}

/// A bivariate sample, of its three parts.
pub fn twins_of(rows: u64, first: Ints, second: Ints) -> Twins
    requires some { 1 ≤ rows }
    requires few { rows ≤ 120 }
    requires first { length first ≡ rows }
    requires second { length second ≡ rows }
    requires first_small { All (λ value. nat_abs value < 10 ^ 36) first }
    requires second_small { All (λ value. nat_abs value < 10 ^ 36) second }
    ensures { twin_data_of result ≡ record { first = first; second = second } }
{
    Twins {
        rows,
        first,
        second,
    }
}

/// A sequence, of its three parts.
pub fn sequence_of(labels: Labels, sizes: Nums, members: Nums) -> Sequence
    requires two { length labels ≡ 2 }
    requires distinct { AllPairs ◌≢◌ labels }
    requires few { length members ≤ 10000 }
    requires exist { All (λ label. label < length labels) members }
    requires counted { sizes ≡ counts_of (length labels) members }
    requires some { All (λ size. 1 ≤ size) sizes }
    ensures { sequence_data_of result ≡ record { labels = labels; members = members } }
{
    Sequence {
        labels,
        sizes,
        members,
    }
}
