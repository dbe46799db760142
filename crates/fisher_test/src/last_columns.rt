// The last two columns of tables, taken together: the choices of the last but one are listed once
// for each room, and read for each key that is open there.
ghost use Rattle.std.specs.Prelude.{◌≡◌, ◌+◌, ◌*◌, ◌<◌, ◌≤◌, length, int_le, nat_abs, pos, IfOk};
ghost use Rattle.std.specs.List.{AllByRecursion};
ghost use Rattle.weights.specs.declared.lines.Line.{Line};
ghost use Rattle.weights.specs.declared.tails.Tail.TheVariants.{Two};
ghost use Rattle.weights.specs.declared.TheConstants.{MAX};
ghost use Rattle.node_pool.specs.Nodes.{weighted};
ghost use Rattle.stage_network.specs.ArcSteps.{IsRun, segment};
ghost use Rattle.networks.specs.Completions.{extreme_weight};
ghost use Rattle.networks.specs.EachTail.{sum_for};
ghost use Rattle.completion_bounds.specs.Fillings.{falling};
ghost use Rattle.sorted_tables.specs.SortedRooms.{rising};
ghost use Rattle.fisher_test.specs.LastSteps.{AreBeforeLast, AreLast, IsHalfBeforeLast, most_in};
ghost use Rattle.fisher_test.specs.LastSteps.{once, valued, weight_network, weight_of};
ghost use Rattle.fisher_test.specs.WeightSteps.{IsWeighing, past_of};

use crate::fisher_table::held;
use networks::{Judge, TailSums};
use sorted_tables::SortedRooms;
use stage_network::StageNodes;
use std::alloc::Global;
use weights::{Count, Line, NoMemory, Rule, Tail, only};

/// The nodes of the stage up to which a network is swept, and of each asked tail the weight that
/// was closed on the way.
#[derive(Drop)]
pub(crate) struct FirstHalf<C: Count> {
    pub stage: usize,
    pub nodes: StageNodes<C>,
    pub closed: TailSums,
}

/// What completes tables before their last two columns.
#[derive(Drop)]
pub(crate) struct LastColumns {
    rooms: SortedRooms,
    judge: Judge,
    ghost right: { AreLast rooms.rows.items rooms.columns.items judge },
}

// Up to which number values pass a rule.
fn most_in(rule: Rule) -> u128
    ensures { result ≡ most_in rule }
{
    match rule {
        Rule::AtMost(most) => most.unsigned_abs(),
        Rule::AtLeast(_) | Rule::Far(_, _, _) => 0,
    }
}

// The weight of a line whose value is no more than a number, else 0.
#[inline(always)]
fn weight_within(line: &Line, most: i128) -> u128
    ensures { result ≡ line.now.weight * once (λ v. int_le v most) line.now.value }
{
    if line.value <= most { line.weight } else { 0 }
}

// The summed weight of the lines whose values are no more than a number.
fn weight_up_to(lines: &[Line], most: i128) -> u128
    requires { weight_of lines.now ≤ MAX }
    ensures { result ≡ valued (once (λ v. int_le v most)) lines.now }
{
    let mut sum: u128 = 0;
    for line in lines {
        sum += weight_within(line, most);
    }
    sum
}

// That of the lines whose values, times the product so far, are.
fn weight_behind(lines: &[Line], partial: &[i128], most: u128) -> u128
    requires light { weight_of lines.now ≤ MAX }
    requires natural { AllByRecursion (λ (l : Line). l.value ≡ pos (nat_abs l.value)) lines.now }
    requires one { length partial.now ≡ 1 }
    requires some { 1 ≤ past_of partial.now }
    requires few { most ≤ MAX }
    ensures { let past = past_of partial.now in
        result ≡ valued (λ v. once (λ z. int_le z (pos most)) (pos (past * nat_abs v))) lines.now }
{
    let past = only(partial).unsigned_abs();
    weight_up_to(lines, held(most / past))
}

impl LastColumns {
    /// What completes tables with these rows, the greatest first, and columns, the least first,
    /// where those are extreme whose weight the judge's rule of both sides lets pass.
    pub(crate) fn new(
        alloc: Global,
        rows: &[u64],
        columns: &[u64],
        judge: Judge,
    ) -> Result<LastColumns, NoMemory>
        requires { AreLast rows.now columns.now judge }
        ensures rows { IfOk result (λ last. last.rooms.rows.items ≡ rows.now) }
        ensures columns { IfOk result (λ last. last.rooms.columns.items ≡ columns.now) }
        ensures judge { IfOk result (λ last. last.judge ≡ judge) }
    {
        let rooms = SortedRooms::new(alloc, columns, rows)?;
        Ok(LastColumns { rooms, judge })
    }

    // The weight of the extreme completions of the nodes of one room, from a place to before
    // another, each times the node's weight.
    fn room_sum<C: Count>(
        &self,
        alloc: Global,
        stage: usize,
        nodes: &StageNodes<C>,
        start: usize,
        end: usize,
    ) -> Result<u128, NoMemory>
        requires here { AreBeforeLast self.now.rooms.rows.items self.now.rooms.columns.items
            self.now.judge C.LIMIT stage nodes.now }
        requires order { start < end }
        requires last { end ≤ length nodes.now.nodes }
        requires run { IsRun (length self.now.rooms.rows.items) nodes.now.nodes start end }
        ensures { let n = weight_network self.now.rooms.rows.items self.now.rooms.columns.items
            self.now.judge in
            IfOk result (λ sum. sum
            ≡ weighted (extreme_weight n Two stage) (segment start end nodes.now.nodes)) }
    {
        let lines = self.rooms.choice_lines(alloc, stage, nodes.room(start))?;
        let most = most_in(self.judge.two);
        let mut sum: u128 = 0;
        for i in start..end {
            let behind = weight_behind(lines.as_slice(), nodes.partial(i), most);
            sum += nodes.weight(i).value() * behind;
        }
        Ok(sum)
    }

    /// The weight of the extreme tables: what was closed on the way to the last two columns, and
    /// what completes the nodes there.
    pub(crate) fn sum<C: Count>(&self, alloc: Global, half: &FirstHalf<C>) -> Result<u128, NoMemory>
        requires { IsHalfBeforeLast self.now.rooms.rows.items self.now.rooms.columns.items
            self.now.judge C.LIMIT half.now.stage half.now.nodes half.now.closed }
        ensures { let n = weight_network self.now.rooms.rows.items self.now.rooms.columns.items
            self.now.judge in
            IfOk result (λ sum. sum ≡ (sum_for half.now.closed Two).sum
            + weighted (extreme_weight n Two half.now.stage) half.now.nodes.nodes) }
    {
        let nodes = &half.nodes;
        let mut sum = half.closed.of(Tail::Two).sum;
        let mut start = 0;
        while start < nodes.len() {
            let end = nodes.run_end(start);
            let more = self.room_sum::<C>(alloc, half.stage, nodes, start, end)?;
            sum += more;
            start = end;
        }
        Ok(sum)
    }
}
