// The statistic of a test of Kruskal and Wallis, and its networks.
ghost use Rattle.std.specs.Prelude.{◌≡◌, ◌/◌, ◌^◌, ◌<◌, ◌≤◌, true, length, IfOk};
ghost use Rattle.weights.specs.Numbers.{absolute_sum};
ghost use Rattle.weights.specs.declared.tails.Tail.{Tail};
ghost use Rattle.sample_reader.specs.Groups.{group_sizes};
ghost use Rattle.node_pool.specs.Nodes.{weighted};
ghost use Rattle.node_pool.specs.PoolSteps.{nodes_of};
ghost use Rattle.networks.specs.Completions.{extreme_weight};
ghost use Rattle.networks.specs.Follows.{Follows};
ghost use Rattle.networks.specs.GoesOn.{GoesOnFor};
ghost use Rattle.networks.specs.Judged.{judge_of};
ghost use Rattle.stage_network.specs.FromKeys.{AreStarts};
ghost use Rattle.label_network.specs.LabelNetwork.{label_network};
ghost use Rattle.symmetry_reduction.specs.ReducedNetworks.{reduced_network};
ghost use Rattle.symmetry_reduction.specs.GroupSums.{AreHeld};
ghost use Rattle.packed_keys.specs.PackedKeys.{packed_network};
ghost use Rattle.pooled_columns.specs.PooledColumns.{column_scores, pooled_values};
ghost use Rattle.kruskal_wallis.specs.KruskalWallis.{kruskal_wallis_test, pooled_scores};
ghost use Rattle.kruskal_wallis.specs.RankSums.{unpacked_meaning};
ghost use Rattle.kruskal_wallis.specs.SumMeanings.{AreSums, seen_meaning, sums_meaning};

use crate::centred_sums::CentredSums;
use crate::group_sums::squares_statistic;
use crate::kruskal_wallis::SquaredSums;
use crate::rank_sums::RankSums;
use crate::squared_stages::{EqualGroups, OrderedSums, SquaredStages, WrittenSums};
use label_network::{LabelRooms, label_stages};
use labelled::LabelStatistic;
use networks::{Judge, Onward, Stages};
use packed_keys::{PackedGroups, bits_for};
use stage_network::sum_by_images;
use std::alloc::Global;
use symmetry_reduction::{Order, SymmetryReduced};
use weights::{NoMemory, Tail};

// The sums of the groups' scores as what is measured.
fn rank_sums(alloc: Global, problem: &SquaredSums, judge: Judge) -> Result<RankSums, NoMemory>
    requires { judge ≡ judge_of (kruskal_wallis_test problem.now) }
    ensures { IfOk result (AreSums problem.now) }
{
    let made = problem.made();
    let sums = RankSums::new(
        alloc,
        made.factors.as_slice(),
        made.bound,
        made.columns.scores.as_slice(),
        made.columns.sizes.as_slice(),
        made.sizes.as_slice(),
        made.scores.len() as u64,
        judge,
    )?;
    Ok(sums)
}

// The network as it is written, with a number for each group.
fn written_stages(
    alloc: Global,
    problem: &SquaredSums,
    judge: Judge,
) -> Result<WrittenSums, NoMemory>
    requires { judge ≡ judge_of (kruskal_wallis_test problem.now) }
    ensures sums { IfOk result (λ s. AreSums problem.now s.1) }
    ensures follows { (t : Tail) → Follows (kruskal_wallis_test problem.now) t
        (label_network (unpacked_meaning problem.now)) }
{
    let made = problem.made();
    let sums = rank_sums(alloc, problem, judge)?;
    let columns = made.columns.sizes.as_slice();
    let stages = label_stages(alloc, columns, made.sizes.as_slice(), sums)?;
    Ok(stages)
}

// Whether no score is negative.
fn are_held(scores: &[i128]) -> bool
    ensures { result ≡ true → AreHeld scores.now }
{
    scores.iter().all(|score| *score >= 0)
}

// Whether one number holds the sums of all groups: no score is negative, and all scores together
// are less than a digit holds.
fn fits_one(problem: &SquaredSums) -> bool
    ensures small { result ≡ true → absolute_sum (pooled_scores problem.now)
        < 2 ^ (127 / length (group_sizes problem.now.groups)) }
    ensures held { result ≡ true → AreHeld
        (column_scores problem.now.kind (pooled_values problem.now.groups)) }
{
    let made = problem.made();
    let bits = bits_for(made.sizes.as_slice().len());
    made.sum < 1 << bits && are_held(made.columns.scores.as_slice())
}

// The network with groups of equal size in order and the sums of all groups in one number. It goes
// on for the written one from any key.
fn packed_stages(
    alloc: Global,
    problem: &SquaredSums,
    judge: Judge,
) -> Result<EqualGroups, NoMemory>
    requires judge { judge ≡ judge_of (kruskal_wallis_test problem.now) }
    requires small { absolute_sum (pooled_scores problem.now)
        < 2 ^ (127 / length (group_sizes problem.now.groups)) }
    requires held { AreHeld
        (column_scores problem.now.kind (pooled_values problem.now.groups)) }
    ensures follows { IfOk result (λ s. (t : Tail) → Follows (kruskal_wallis_test problem.now) t
        (packed_network (length s.0.1.sums.rows.items) s.1
        (reduced_network s.0.3 s.0.2 (label_network (seen_meaning s.0.1))))) }
    ensures goes_on { IfOk result (λ s. GoesOnFor (label_network (unpacked_meaning problem.now))
        (packed_network (length s.0.1.sums.rows.items) s.1
        (reduced_network s.0.3 s.0.2 (label_network (seen_meaning s.0.1))))
        (⟦<EqualGroups as Onward>⟧.takes s) (⟦<EqualGroups as Onward>⟧.image_of s)) }
{
    let made = problem.made();
    let columns = made.columns.sizes.as_slice();
    let groups = made.sizes.as_slice();
    let sums = rank_sums(alloc, problem, judge)?;
    let multiple = made.factors[0] * groups[0] as u128;
    let count = made.scores.as_slice().len() as u64;
    let seen = CentredSums::new(sums, multiple, made.sum, count);
    let stages = label_stages(alloc, columns, groups, seen)?;
    let _count = stages.stages();
    let rooms = LabelRooms::new(alloc, columns, groups)?;
    let sizes = Vec::from_slice(alloc, groups)?;
    let ordered = SymmetryReduced::new(stages, rooms, sizes, Order::Sums);
    let _lawful = ordered.stages();
    let packed = PackedGroups::new(ordered, bits_for(groups.len()));
    Ok(packed)
}

// How many groups have as many subjects as the one beside them.
fn equal_neighbours(sizes: &[u64]) -> usize {
    let mut equal = 0;
    for i in 1..sizes.len() {
        if sizes[i - 1] == sizes[i] {
            equal += 1;
        }
    }
    equal
}

// The network with groups of equal size in order and a number for each. It goes on for the written
// one from any key.
fn reduced_stages(
    alloc: Global,
    problem: &SquaredSums,
    judge: Judge,
) -> Result<OrderedSums, NoMemory>
    requires { judge ≡ judge_of (kruskal_wallis_test problem.now) }
    ensures follows { IfOk result (λ s. (t : Tail) → Follows (kruskal_wallis_test problem.now) t
        (reduced_network s.3 s.2 (label_network (sums_meaning s.1)))) }
    ensures goes_on { IfOk result (λ s. GoesOnFor (label_network (unpacked_meaning problem.now))
        (reduced_network s.3 s.2 (label_network (sums_meaning s.1)))
        (⟦<OrderedSums as Onward>⟧.takes s) (⟦<OrderedSums as Onward>⟧.image_of s)) }
{
    let made = problem.made();
    let stages = written_stages(alloc, problem, judge)?;
    let _count = stages.stages();
    let columns = made.columns.sizes.as_slice();
    let groups = made.sizes.as_slice();
    let rooms = LabelRooms::new(alloc, columns, groups)?;
    let sizes = Vec::from_slice(alloc, groups)?;
    let ordered = SymmetryReduced::new(stages, rooms, sizes, Order::Sums);
    Ok(ordered)
}

// The network whose keys are fewest: with groups of equal size in order, in one number where it
// holds their sums, or else where there are enough of these groups that the keys become fewer than
// the orders cost. It goes on for the written one from any key.
fn quick_stages(
    alloc: Global,
    problem: &SquaredSums,
    judge: Judge,
) -> Result<SquaredStages, NoMemory>
    requires { judge ≡ judge_of (kruskal_wallis_test problem.now) }
    ensures follows { IfOk result (λ s. (t : Tail) → Follows (kruskal_wallis_test problem.now) t
        (⟦<SquaredStages as Stages>⟧.network s)) }
    ensures goes_on { IfOk result (λ s. GoesOnFor (label_network (unpacked_meaning problem.now))
        (⟦<SquaredStages as Stages>⟧.network s)
        (⟦<SquaredStages as Onward>⟧.takes s) (⟦<SquaredStages as Onward>⟧.image_of s)) }
{
    if fits_one(problem) {
        let stages = packed_stages(alloc, problem, judge)?;
        Ok(SquaredStages::Packed(stages))
    } else if equal_neighbours(problem.made().sizes.as_slice()) >= 2 {
        let stages = reduced_stages(alloc, problem, judge)?;
        Ok(SquaredStages::Ordered(stages))
    } else {
        let stages = written_stages(alloc, problem, judge)?;
        let _lawful = stages.stages();
        Ok(SquaredStages::Written(stages))
    }
}

// The sum over keys of the written network by another that goes on for it.
fn sum_by(
    alloc: Global,
    written: &SquaredStages,
    quick: &SquaredStages,
    tail: Tail,
    stage: usize,
    keys: &[i128],
    weights: &[u128],
) -> Result<u128, NoMemory>
    requires starts { AreStarts (⟦<SquaredStages as Stages>⟧.network written.now) stage
        keys.now weights.now }
    requires goes_on { GoesOnFor (⟦<SquaredStages as Stages>⟧.network written.now)
        (⟦<SquaredStages as Stages>⟧.network quick.now)
        (⟦<SquaredStages as Onward>⟧.takes quick.now)
        (⟦<SquaredStages as Onward>⟧.image_of quick.now) }
    ensures { let n = ⟦<SquaredStages as Stages>⟧.network written.now in
        IfOk result (λ sum. sum
        ≡ weighted (extreme_weight n tail stage) (nodes_of n.width keys.now weights.now)) }
{
    sum_by_images(alloc, written, quick, tail, stage, stage, keys, weights)
}

impl LabelStatistic for SquaredSums {
    ghost use Rattle.kruskal_wallis.specs.KruskalWallis.{kruskal_wallis_says};

    type Built = SquaredStages;

    ghost says = { kruskal_wallis_says };

    ghost network = { λ samples. label_network (unpacked_meaning samples) };

    ghost running = { λ samples. label_network (unpacked_meaning samples) };

    fn sound(&self) {
        let _made = self.made();
    }

    fn sizes(&self) -> &[u64] {
        self.made().sizes.as_slice()
    }

    fn value(&self, labels: &[u8]) -> i128 {
        let made = self.made();
        squares_statistic(
            made.scores.as_slice(),
            labels,
            made.sizes.as_slice(),
            made.factors.as_slice(),
            made.bound,
        )
    }

    fn has_tail(&self, tail: Tail) -> bool {
        tail == Tail::Greater
    }

    fn stages_of(&self, alloc: Global, judge: Judge) -> Result<Self::Built, NoMemory> {
        let stages = written_stages(alloc, self, judge)?;
        Ok(SquaredStages::Written(stages))
    }

    fn quick_stages_of(&self, alloc: Global, judge: Judge) -> Result<Self::Built, NoMemory> {
        quick_stages(alloc, self, judge)
    }

    // By the quick network.
    fn sum_onward(
        &self,
        alloc: Global,
        judge: Judge,
        tail: Tail,
        stage: usize,
        keys: &[i128],
        weights: &[u128],
    ) -> Result<u128, NoMemory> {
        let written = self.stages_of(alloc, judge)?;
        let quick = quick_stages(alloc, self, judge)?;
        sum_by(alloc, &written, &quick, tail, stage, keys, weights)
    }
}
