// The sum of products as the statistic of the linear-by-linear test, and its networks.
ghost use Rattle.std.specs.Prelude.{◌≡◌, IfOk};
ghost use Rattle.weights.specs.declared.tails.Tail.{Tail};
ghost use Rattle.node_pool.specs.Nodes.{weighted};
ghost use Rattle.node_pool.specs.PoolSteps.{nodes_of};
ghost use Rattle.networks.specs.Completions.{extreme_weight};
ghost use Rattle.networks.specs.Judged.{judge_of};
ghost use Rattle.stage_network.specs.FromKeys.{AreStarts};
ghost use Rattle.label_network.specs.LabelNetwork.{label_network};
ghost use Rattle.linear_by_linear.specs.LinearByLinear.{linear_test};
ghost use Rattle.linear_by_linear.specs.LinearNetworks.{product_meaning, subject_meaning};

use crate::linear_table::ProductSum;
use crate::single_subjects::{single_columns, subject_scores, subjects_before};
use label_network::{LinearStages, linear_stages};
use labelled::LabelStatistic;
use networks::{Judge, Stages};
use stage_network::sum_from_keys;
use std::alloc::Global;
use table_sums::labelled_sum;
use weights::{NoMemory, Tail};

// The network whose columns are single subjects.
fn by_subjects(alloc: Global, sum: &ProductSum, judge: Judge) -> Result<LinearStages, NoMemory>
    requires { judge ≡ judge_of (linear_test sum.now) }
    ensures { let n = label_network (subject_meaning sum.now) in
        IfOk result (λ s. ⟦<LinearStages as Stages>⟧.network s ≡ n) }
{
    let made = sum.made();
    let columns = made.margins.columns.as_slice();
    let scores = subject_scores(alloc, made.column_scores.as_slice(), columns)?;
    let singles = single_columns(alloc, scores.len())?;
    linear_stages(
        alloc,
        made.row_scores.as_slice(),
        made.margins.rows.as_slice(),
        scores.as_slice(),
        singles.as_slice(),
        judge,
    )
}

// The sum over keys of the network of columns by that of single subjects: a key is the same there,
// at the stage of as many subjects.
fn sum_by_subjects(
    alloc: Global,
    sum: &ProductSum,
    judge: Judge,
    tail: Tail,
    stage: usize,
    keys: &[i128],
    weights: &[u128],
) -> Result<u128, NoMemory>
    requires judge { judge ≡ judge_of (linear_test sum.now) }
    requires starts { let n = label_network (product_meaning sum.now) in
        AreStarts n stage keys.now weights.now }
    ensures { let n = label_network (product_meaning sum.now) in
        IfOk result (λ sum. sum
        ≡ weighted (extreme_weight n tail stage) (nodes_of n.width keys.now weights.now)) }
{
    let stages = by_subjects(alloc, sum, judge)?;
    let at = subjects_before(sum.made().margins.columns.as_slice(), stage);
    let sum = sum_from_keys(alloc, &stages, tail, at, keys, weights)?;
    Ok(sum)
}

impl LabelStatistic for ProductSum {
    ghost use Rattle.linear_by_linear.specs.LinearByLinear.{linear_says};
    ghost use Rattle.linear_by_linear.specs.LinearNetworks.{product_meaning};

    type Built = LinearStages;

    ghost says = { linear_says };

    ghost network = { λ scored. label_network (product_meaning scored) };

    ghost running = { λ scored. label_network (product_meaning scored) };

    fn sound(&self) {
        let _made = self.made();
    }

    fn sizes(&self) -> &[u64] {
        self.made().margins.rows.as_slice()
    }

    fn value(&self, labels: &[u8]) -> i128 {
        let made = self.made();
        labelled_sum(
            made.row_scores.as_slice(),
            made.column_scores.as_slice(),
            made.margins.columns.as_slice(),
            labels,
        )
    }

    fn has_tail(&self, _tail: Tail) -> bool {
        true
    }

    fn stages_of(&self, alloc: Global, judge: Judge) -> Result<Self::Built, NoMemory> {
        let made = self.made();
        linear_stages(
            alloc,
            made.row_scores.as_slice(),
            made.margins.rows.as_slice(),
            made.column_scores.as_slice(),
            made.margins.columns.as_slice(),
            judge,
        )
    }

    // Of two rows the sizes that remain are few, whatever the columns are.
    fn quick_stages_of(&self, alloc: Global, judge: Judge) -> Result<Self::Built, NoMemory> {
        if self.made().margins.rows.len() == 2 {
            self.stages_of(alloc, judge)
        } else {
            by_subjects(alloc, self, judge)
        }
    }

    // By the network that the undivided run takes.
    fn sum_onward(
        &self,
        alloc: Global,
        judge: Judge,
        tail: Tail,
        stage: usize,
        keys: &[i128],
        weights: &[u128],
    ) -> Result<u128, NoMemory> {
        if self.made().margins.rows.len() == 2 {
            let stages = self.stages_of(alloc, judge)?;
            let sum = sum_from_keys(alloc, &stages, tail, stage, keys, weights)?;
            Ok(sum)
        } else {
            sum_by_subjects(alloc, self, judge, tail, stage, keys, weights)
        }
    }
}
