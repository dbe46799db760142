// Both ways to the answer of a test of blocks.
ghost use Rattle.std.specs.Prelude.{◌≡◌, ◌/◌, ◌≤◌, ◌⊎◌, ◌+◌, ◌++◌, ℤ, List, is_some, length, true};
ghost use Rattle.std.specs.Prelude.{IfOk, IfSome};
ghost use Rattle.weights.specs.declared.tails.Tail.{Tail};
ghost use Rattle.networks.specs.Addends.{additive_network};
ghost use Rattle.networks.specs.Follows.{Follows};
ghost use Rattle.networks.specs.GoesOn.{GoesOn, GoesOnAlike};
ghost use Rattle.networks.specs.Network.{IsReached};
ghost use Rattle.networks.specs.Judged.{judge_of};
ghost use Rattle.symmetry_reduction.specs.OrderedGroups.{groups_in_order};
ghost use Rattle.symmetry_reduction.specs.ReducedNetworks.{reduced_network};
ghost use Rattle.rank_assignments.specs.Assignments.{all_assignments, assigned_sums};
ghost use Rattle.rank_assignments.specs.Assignments.{assignment_network, has_room_for};
ghost use Rattle.rank_assignments.specs.Assignments.{unassigned};
ghost use Rattle.block_tests.specs.BlockNetworks.{line_addends, network_by, running_addends};
ghost use Rattle.block_tests.specs.BlockNetworks.{square_addends};
ghost use Rattle.block_tests.specs.BlockSteps.{AreSquares, AreStages};
ghost use Rattle.block_tests.specs.BlockStages.{AreTreatmentSums, IsOnward};
ghost use Rattle.block_tests.specs.BlockTests.{block_counts, block_test};
ghost use Rattle.block_tests.specs.EvenBlocks.{assigned_before};
ghost use Rattle.packed_keys.specs.PackedGroups.{AddsSteps};
ghost use Rattle.packed_keys.specs.PackedKeys.{MayBePacked, packed_network};
ghost use Rattle.block_tests.specs.declared.kinds.BlockKind.TheVariants.{Friedman, Page, Cochran};

use crate::block::{assigned_before, assignments_of, first_arrangements, reflected_from};
use crate::block_stages::{BlockStages, PageStages, SquareStages};
use crate::block_test::BlockStatistic;
use crate::kinds::BlockKind;
use crate::page::{PageBlocks, page_blocks};
use crate::squares::{SquareBlocks, block_copies, squares_from_mean};
use enumerate::next_joined;
use labelled::UnweightedTest;
use networks::{AdditiveStages, CentredSquares, Judge, Onward, Stages};
use packed_keys::{PackedGroups, bits_for};
use rank_assignments::{AssignedBlocks, OrderedBlocks, has_room_for, ordered_blocks};
use stage_network::sum_by_images;
use std::alloc::Global;
use weights::{Bytes, NoMemory, Tail};

// Of fewer treatments than these all arrangements of a block are tried.
const FEW: usize = 5;

// The network of a test whose treatments' sums are squared, told by distances from a centre.
fn square_stages(
    alloc: Global,
    test: &BlockStatistic,
    squares: CentredSquares,
    judge: Judge,
) -> Result<SquareStages, NoMemory>
    requires stages { let k = test.now.blocks.treatments in
        AreStages k (block_counts test.now) judge }
    requires squares { let k = test.now.blocks.treatments in
        AreSquares k (block_counts test.now) squares }
    ensures { let k = test.now.blocks.treatments in
        let a = square_addends squares k (block_counts test.now) judge in
        IfOk result (λ s.
        square_addends s.squares s.treatments s.blocks.items s.judge ≡ a) }
{
    let blocks = block_copies(alloc, test.blocks())?;
    let inside = SquareBlocks::new(blocks, test.treatments(), squares, judge);
    AdditiveStages::new(alloc, inside)
}

// The same with the mean of the sums as the centre, which closes more keys.
fn centred_stages(
    alloc: Global,
    test: &BlockStatistic,
    judge: Judge,
) -> Result<SquareStages, NoMemory>
    requires judge { judge ≡ judge_of (block_test test.now) }
    requires kind { (test.now.kind ≡ Friedman) ⊎ (test.now.kind ≡ Cochran) }
    ensures follows { IfOk result (λ s. (t : Tail) → Follows (block_test test.now) t
        (additive_network (square_addends s.squares s.treatments s.blocks.items s.judge))) }
    ensures goes_on { let n = network_by running_addends test.now in
        IfOk result (λ s. GoesOnAlike n
        (additive_network (square_addends s.squares s.treatments s.blocks.items s.judge))) }
{
    let blocks = test.blocks();
    let squares = squares_from_mean(blocks, test.treatments(), test.bound());
    square_stages(alloc, test, squares, judge)
}

// The network of a test whose treatments' sums are squared, with numbers that are given to
// treatments one after another. It reflects no sums of the blocks before a stage, so that it goes
// on from keys of that stage.
fn reduced_stages(
    alloc: Global,
    test: &BlockStatistic,
    judge: Judge,
    stage: usize,
) -> Result<OrderedBlocks, NoMemory>
    requires judge { judge ≡ judge_of (block_test test.now) }
    requires kind { (test.now.kind ≡ Friedman) ⊎ (test.now.kind ≡ Cochran) }
    requires some { 2 ≤ test.now.blocks.treatments }
    requires within { stage ≤ length (block_counts test.now) }
    ensures follows { IfOk result (λ s. (t : Tail) → Follows (block_test test.now) t
        (reduced_network s.3 s.2 (assignment_network s.1.assignments.treatments
        s.1.assignments.items.items s.1.assignments.reflections.items s.1.assignments.judge))) }
    ensures packs { let k = test.now.blocks.treatments in
        let count = length (all_assignments (block_counts test.now)) in
        IfOk result (λ s. has_room_for k count ≡ true
        → MayBePacked s.1.assignments.treatments (127 / k) (reduced_network s.3 s.2
        (assignment_network s.1.assignments.treatments s.1.assignments.items.items
        s.1.assignments.reflections.items s.1.assignments.judge))) }
    ensures adds { IfOk result (λ s. AddsSteps s.3 (assigned_sums s.1.assignments.treatments
        s.1.assignments.items.items s.1.assignments.reflections.items s.1.assignments.judge)) }
    ensures items { let vs = all_assignments (block_counts test.now) in
        IfOk result (λ s. s.1.assignments.items.items ≡ vs) }
    ensures goes_on { let n = network_by running_addends test.now in
        let at = assigned_before (block_counts test.now) stage in
        IfOk result (λ s. GoesOn n (reduced_network s.3 s.2 (assignment_network
        s.1.assignments.treatments s.1.assignments.items.items s.1.assignments.reflections.items
        s.1.assignments.judge)) stage at
        (λ key. groups_in_order s.3 s.2 (unassigned s.1.assignments.treatments ++ key))) }
    ensures long { let n = network_by running_addends test.now in
        IfOk result (λ s. (key : List ℤ) → IsReached n stage key
        → AreTreatmentSums s.1.assignments.treatments key
        (length (unassigned s.1.assignments.treatments ++ key) ≡ length s.2 + length s.2)) }
{
    let blocks = test.blocks();
    let items = assignments_of(alloc, blocks)?;
    let from = reflected_from(alloc, blocks, stage)?;
    let stages = ordered_blocks(alloc, items.as_slice(), test.treatments(), from, judge)?;
    Ok(stages)
}

// The same with the sums in one number. None exactly where one number has no room for them.
fn assigned_stages(
    alloc: Global,
    test: &BlockStatistic,
    judge: Judge,
    stage: usize,
) -> Result<Option<AssignedBlocks>, NoMemory>
    requires judge { judge ≡ judge_of (block_test test.now) }
    requires kind { (test.now.kind ≡ Friedman) ⊎ (test.now.kind ≡ Cochran) }
    requires some { 2 ≤ test.now.blocks.treatments }
    requires within { stage ≤ length (block_counts test.now) }
    ensures follows { IfOk result (λ made. IfSome made (λ s. (t : Tail)
        → Follows (block_test test.now) t (packed_network s.0.1.assignments.treatments s.1
        (reduced_network s.0.3 s.0.2 (assignment_network s.0.1.assignments.treatments
        s.0.1.assignments.items.items s.0.1.assignments.reflections.items
        s.0.1.assignments.judge))))) }
    ensures room { let count = length (all_assignments (block_counts test.now)) in
        IfOk result (λ made. is_some made ≡ has_room_for test.now.blocks.treatments count) }
    ensures goes_on { let n = network_by running_addends test.now in
        let at = assigned_before (block_counts test.now) stage in
        IfOk result (λ made. IfSome made (λ s. GoesOn n (⟦<AssignedBlocks as Stages>⟧.network s)
        stage at (λ key. ⟦<AssignedBlocks as Onward>⟧.image_of s stage
        (unassigned s.0.1.assignments.treatments ++ key)))) }
    ensures taken { let n = network_by running_addends test.now in
        IfOk result (λ made. IfSome made (λ s. (key : List ℤ) → IsReached n stage key
        → AreTreatmentSums s.0.1.assignments.treatments key
        (⟦<AssignedBlocks as Onward>⟧.takes s stage
        (unassigned s.0.1.assignments.treatments ++ key)))) }
{
    let treatments = test.treatments();
    let stages = reduced_stages(alloc, test, judge, stage)?;
    let count = stages.stages();
    if !has_room_for(treatments, count) {
        return Ok(None);
    }
    Ok(Some(PackedGroups::new(stages, bits_for(treatments))))
}

// The network of Page's test.
fn page_stages(alloc: Global, test: &BlockStatistic, judge: Judge) -> Result<PageStages, NoMemory>
    requires { let k = test.now.blocks.treatments in
        AreStages k (block_counts test.now) judge }
    ensures { let a = line_addends (block_counts test.now) judge in
        IfOk result (λ s. line_addends s.blocks.items s.judge ≡ a) }
{
    let blocks = page_blocks(alloc, test.blocks())?;
    let inside = PageBlocks::new(blocks, test.treatments(), judge);
    AdditiveStages::new(alloc, inside)
}

// The network by distances from the mean, and the stage at which it goes on from keys of another.
fn centred_onward(
    alloc: Global,
    test: &BlockStatistic,
    judge: Judge,
    stage: usize,
) -> Result<(BlockStages, usize), NoMemory>
    requires judge { judge ≡ judge_of (block_test test.now) }
    requires kind { (test.now.kind ≡ Friedman) ⊎ (test.now.kind ≡ Cochran) }
    requires within { stage ≤ length (block_counts test.now) }
    ensures { IfOk result (λ s. IsOnward (network_by running_addends test.now) stage
        (⟦<BlockStages as Stages>⟧.network s.0) s.1 (⟦<BlockStages as Onward>⟧.takes s.0 stage)
        (⟦<BlockStages as Onward>⟧.image_of s.0 stage)) }
{
    let stages = centred_stages(alloc, test, judge)?;
    Ok((BlockStages::Squares(stages), stage))
}

// The network of Page's test, and the stage at which it goes on from its own keys.
fn page_onward(
    alloc: Global,
    test: &BlockStatistic,
    judge: Judge,
    stage: usize,
) -> Result<(BlockStages, usize), NoMemory>
    requires judge { judge ≡ judge_of (block_test test.now) }
    requires kind { test.now.kind ≡ Page }
    requires within { stage ≤ length (block_counts test.now) }
    ensures { IfOk result (λ s. IsOnward (network_by running_addends test.now) stage
        (⟦<BlockStages as Stages>⟧.network s.0) s.1 (⟦<BlockStages as Onward>⟧.takes s.0 stage)
        (⟦<BlockStages as Onward>⟧.image_of s.0 stage)) }
{
    let _fitting = test.blocks();
    let stages = page_stages(alloc, test, judge)?;
    Ok((BlockStages::Page(stages), stage))
}

// The network that goes on from keys of a stage of the one that runs, and its stage there.
fn onward_stages(
    alloc: Global,
    test: &BlockStatistic,
    judge: Judge,
    stage: usize,
) -> Result<(BlockStages, usize), NoMemory>
    requires judge { judge ≡ judge_of (block_test test.now) }
    requires within { stage ≤ length (block_counts test.now) }
    ensures { IfOk result (λ s. IsOnward (network_by running_addends test.now) stage
        (⟦<BlockStages as Stages>⟧.network s.0) s.1 (⟦<BlockStages as Onward>⟧.takes s.0 stage)
        (⟦<BlockStages as Onward>⟧.image_of s.0 stage)) }
{
    match test.kind() {
        BlockKind::Page => page_onward(alloc, test, judge, stage),
        BlockKind::Friedman if test.treatments() >= FEW => {
            let blocks = test.blocks();
            match assigned_stages(alloc, test, judge, stage)? {
                Some(stages) => {
                    let at = assigned_before(alloc, blocks, stage)?;
                    Ok((BlockStages::Assigned(stages), at))
                }
                None => centred_onward(alloc, test, judge, stage),
            }
        }
        BlockKind::Friedman | BlockKind::Cochran => centred_onward(alloc, test, judge, stage),
    }
}

impl UnweightedTest for BlockStatistic {
    ghost use Rattle.block_tests.specs.BlockNetworks.{addends_of, network_by, running_addends};
    ghost use Rattle.block_tests.specs.BlockTests.{block_test};

    type Built = BlockStages;

    ghost test = { block_test };

    ghost network = { network_by addends_of };

    ghost running = { network_by running_addends };

    fn sound(&self) {
        let _fitting = self.blocks();
    }

    fn first(&self, alloc: Global) -> Result<Bytes, NoMemory> {
        first_arrangements(alloc, self.blocks())
    }

    fn next(&self, labels: &mut Bytes) -> bool {
        next_joined(self.lengths(), labels.as_mut_slice())
    }

    fn value(&self, labels: &[u8]) -> i128 {
        self.statistic_of(labels)
    }

    fn has_tail(&self, tail: Tail) -> bool {
        self.kind() == BlockKind::Page || tail == Tail::Greater
    }

    fn stages_of(&self, alloc: Global, judge: Judge) -> Result<Self::Built, NoMemory> {
        let _fitting = self.blocks();
        match self.kind() {
            BlockKind::Page => {
                let stages = page_stages(alloc, self, judge)?;
                Ok(BlockStages::Page(stages))
            }
            BlockKind::Friedman | BlockKind::Cochran => {
                let squares = CentredSquares::from_zero(self.bound());
                let stages = square_stages(alloc, self, squares, judge)?;
                Ok(BlockStages::Squares(stages))
            }
        }
    }

    // Where blocks have more than a few treatments, numbers are given to these one after another.
    fn quick_stages_of(&self, alloc: Global, judge: Judge) -> Result<Self::Built, NoMemory> {
        self.sound();
        match self.kind() {
            BlockKind::Page => self.stages_of(alloc, judge),
            BlockKind::Friedman if self.treatments() >= FEW => {
                match assigned_stages(alloc, self, judge, 0)? {
                    Some(stages) => Ok(BlockStages::Assigned(stages)),
                    None => {
                        let stages = centred_stages(alloc, self, judge)?;
                        Ok(BlockStages::Squares(stages))
                    }
                }
            }
            BlockKind::Friedman | BlockKind::Cochran => {
                let stages = centred_stages(alloc, self, judge)?;
                Ok(BlockStages::Squares(stages))
            }
        }
    }

    // By the network that the undivided run takes.
    fn sum_onward(
        &self,
        alloc: Global,
        judge: Judge,
        tail: Tail,
        stage: usize,
        keys: &[i128],
        weights: &[u128],
    ) -> Result<u128, NoMemory> {
        let written = self.stages_of(alloc, judge)?;
        let (quick, at) = onward_stages(alloc, self, judge, stage)?;
        let sum = sum_by_images(alloc, &written, &quick, tail, stage, at, keys, weights)?;
        Ok(sum)
    }
}
