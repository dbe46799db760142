// What is decided in a room, and which of its nodes stay open.
ghost use Rattle.std.specs.Prelude.{◌≡◌, ◌+◌, ◌*◌, ◌<◌, ◌≤◌, [], ◌∷◌, ◌++◌, false, cond, length};
ghost use Rattle.std.specs.Prelude.{OnOk, IfOk, if◌then◌else◌};
ghost use Rattle.weights.specs.declared.tails.Tail.{Tail};
ghost use Rattle.weights.specs.declared.TheConstants.{MAX};
ghost use Rattle.node_pool.specs.Nodes.{node, weighted};
ghost use Rattle.networks.specs.declared.stages.Verdict.TheVariants.{Outside};
ghost use Rattle.networks.specs.Asked.{asked};
ghost use Rattle.networks.specs.Network.{IsReached};
ghost use Rattle.networks.specs.Completions.{is_inside, total_weight};
ghost use Rattle.networks.specs.Opened.{is_undecided};
ghost use Rattle.stage_network.specs.NodeSteps.{closed_weight, open_nodes, opened_in};
ghost use Rattle.stage_network.specs.ArcSteps.{lift};
ghost use Rattle.stage_network.specs.SweepSteps.{IsRoomful, closed_at, counted, staying};
ghost use Rattle.networks.specs.EachTail.{some_undecided, sum_for, verdict_for};

use crate::nodes::StageNodes;
use networks::{Kept, Roomed, Stages, TailSums, Verdict, Verdicts, write_key};
use node_runs::RunPool;
use weights::{Count, NoMemory, Tail, Tails};

// Adds what a node closes or leaves open, and keeps it where it is open for some tail.
#[inline(always)]
fn settle_node<C: Count>(
    verdicts: Verdicts,
    partial: &[i128],
    weight: C,
    inside: &mut TailSums,
    kept: &mut StageNodes<C>,
) -> Result<(), NoMemory>
    requires fits { (t : Tail) → (sum_for inside.old t).sum + C.number weight ≤ MAX }
    requires few { (t : Tail) → (sum_for inside.old t).opened < MAX }
    requires named { 1 ≤ kept.old.rooms }
    requires wide { kept.old.room_width + length partial.now ≡ kept.old.width }
    ensures room_width { OnOk result (kept.new.room_width ≡ kept.old.room_width) }
    ensures wide { OnOk result (kept.new.width ≡ kept.old.width) }
    ensures room { OnOk result (kept.new.room ≡ kept.old.room) }
    ensures named { OnOk result (kept.new.rooms ≡ kept.old.rooms) }
    ensures nodes { let added = node (kept.old.room ++ partial.now) (C.number weight) in
        let more = cond (some_undecided verdicts) (added ∷ []) [] in
        OnOk result (kept.new.nodes ≡ kept.old.nodes ++ more) }
    ensures inside { OnOk result ((t : Tail)
        → let closes = cond (some_undecided verdicts) false (is_inside (verdict_for verdicts t)) in
        (sum_for inside.new t).sum ≡ (sum_for inside.old t).sum + cond closes (C.number weight) 0) }
    ensures opened { OnOk result ((t : Tail)
        → (sum_for inside.new t).opened ≡ (sum_for inside.old t).opened
        + cond (is_undecided (verdict_for verdicts t)) 1 0) }
{
    let open = verdicts.is_open();
    *inside = inside.with_node(verdicts, open, weight.value());
    if open {
        kept.push(partial, weight)
    } else {
        Ok(())
    }
}

/// What the weights inside a room are to be multiplied by: the weight of the completions of a node
/// there, which has this partial. It is not asked for where there is no weight.
pub fn rest_of<S: Stages>(
    stages: &S,
    stage: usize,
    room: &[i128],
    partial: &[i128],
    inside: TailSums,
) -> u128
    requires reached { IsReached (S.network stages.now) stage (room.now ++ partial.now) }
    requires wide { length room.now + length partial.now ≡ (S.network stages.now).width }
    ensures { let n = S.network stages.now in (t : Tail) → (sum_for inside t).sum * result
        ≡ (sum_for inside t).sum * total_weight n stage (room.now ++ partial.now) }
{
    if inside.is_empty() {
        return 0;
    }
    let _lawful = stages.stages();
    let mut numbers = [0i128; 16];
    let key = &mut numbers[..stages.width()];
    write_key(room, partial, key);
    stages.rest(stage, key)
}

// What is known of a partial of a room for a tail, by the room's outlook: where the tail is not
// asked, Outside.
#[inline(always)]
fn asked_verdict<S: Roomed>(
    stages: &S,
    stage: usize,
    room: &[i128],
    outlook: &[i128],
    partial: &[i128],
    is_asked: bool,
    tail: Tail,
) -> Verdict
    requires room { length room.now ≡ S.room_width stages.now }
    requires reached { let n = S.Stages.network stages.now in
        IsReached n stage (room.now ++ partial.now) }
    requires outlook { outlook.now ≡ S.outlook_of stages.now stage room.now }
    ensures { let n = S.Stages.network stages.now in
        let v = n.verdict tail stage (room.now ++ partial.now) in
        result ≡ (if is_asked then v else Outside) }
{
    if is_asked {
        stages.verdict_by(stage, room, outlook, partial, tail)
    } else {
        Verdict::Outside
    }
}

/// What is known of a partial of a room for each tail: where it is not asked, Outside.
#[inline(always)]
pub fn verdicts_of<S: Roomed>(
    stages: &S,
    stage: usize,
    room: &[i128],
    outlook: &[i128],
    partial: &[i128],
    tails: Tails,
) -> Verdicts
    requires room { length room.now ≡ S.room_width stages.now }
    requires reached { let n = S.Stages.network stages.now in
        IsReached n stage (room.now ++ partial.now) }
    requires outlook { outlook.now ≡ S.outlook_of stages.now stage room.now }
    ensures { let n = asked tails (S.Stages.network stages.now) in (t : Tail)
        → verdict_for result t ≡ n.verdict t stage (room.now ++ partial.now) }
{
    Verdicts {
        less: asked_verdict(
            stages,
            stage,
            room,
            outlook,
            partial,
            tails.less,
            Tail::Less,
        ),
        greater: asked_verdict(
            stages,
            stage,
            room,
            outlook,
            partial,
            tails.greater,
            Tail::Greater,
        ),
        two: asked_verdict(stages, stage, room, outlook, partial, tails.two, Tail::Two),
    }
}

// Adds what is decided in a room for the asked tails, and keeps the nodes that are open for some.
fn settle_room<C: Count, S: Roomed>(
    stages: &S,
    stage: usize,
    tails: Tails,
    nodes: &RunPool<C>,
    room: &[i128],
    sums: TailSums,
    kept: &mut StageNodes<C>,
) -> Result<TailSums, NoMemory>
    requires { let n = asked tails (S.Stages.network stages.now) in
        IsRoomful n (S.room_width stages.now) stage sums room.now nodes.now kept.old }
    ensures here { OnOk result (kept.new.room_width ≡ length room.now) }
    ensures wide { OnOk result (kept.new.width ≡ kept.old.width) }
    ensures nodes { let n = asked tails (S.Stages.network stages.now) in
        let more = open_nodes n stage (lift room.now nodes.now.nodes) in
        OnOk result (kept.new.nodes ≡ kept.old.nodes ++ more) }
    ensures sum { let n = asked tails (S.Stages.network stages.now) in
        IfOk result (λ all. (t : Tail) → (sum_for all t).sum
        ≡ (sum_for sums t).sum + closed_weight n t stage (lift room.now nodes.now.nodes)) }
    ensures opened { let n = asked tails (S.Stages.network stages.now) in
        IfOk result (λ all. (t : Tail) → (sum_for all t).opened
        ≡ (sum_for sums t).opened + opened_in n t stage (lift room.now nodes.now.nodes)) }
{
    kept.open(room)?;
    if nodes.len() == 0 {
        return Ok(sums);
    }
    let _width = stages.room_width();
    let mut numbers = [0i128; 16];
    let outlook = &mut numbers[..stages.outlook_width()];
    stages.outlook(stage, room, outlook);
    let mut inside = TailSums::none();
    for i in 0..nodes.len() {
        let partial = nodes.key(i);
        let verdicts = verdicts_of(stages, stage, room, outlook, partial, tails);
        settle_node(verdicts, partial, nodes.weight(i), &mut inside, kept)?;
    }
    let rest = rest_of(stages, stage, room, nodes.key(0), inside);
    let _held = kept.len();
    Ok(sums.with_room(inside, rest))
}

// Keeps all nodes of a room.
fn keep_room<C: Count>(
    nodes: &RunPool<C>,
    room: &[i128],
    kept: &mut StageNodes<C>,
) -> Result<(), NoMemory>
    requires here { kept.old.room_width ≡ length room.now }
    requires wide { kept.old.width ≡ length room.now + nodes.now.width }
    ensures here { OnOk result (kept.new.room_width ≡ length room.now) }
    ensures wide { OnOk result (kept.new.width ≡ kept.old.width) }
    ensures nodes { OnOk result (kept.new.nodes ≡ kept.old.nodes ++ lift room.now nodes.now.nodes) }
{
    kept.open(room)?;
    for i in 0..nodes.len() {
        kept.push(nodes.key(i), nodes.weight(i))?;
    }
    Ok(())
}

/// Settles a room: its nodes are kept that are open for some asked tail, or all.
pub fn settle<C: Count, S: Roomed>(
    stages: &S,
    stage: usize,
    keep: Kept,
    nodes: &RunPool<C>,
    room: &[i128],
    sums: TailSums,
    kept: &mut StageNodes<C>,
) -> Result<TailSums, NoMemory>
    requires { let n = S.Stages.network stages.now in
        IsRoomful n (S.room_width stages.now) stage sums room.now nodes.now kept.old }
    ensures here { OnOk result (kept.new.room_width ≡ length room.now) }
    ensures wide { OnOk result (kept.new.width ≡ kept.old.width) }
    ensures nodes { let n = S.Stages.network stages.now in
        let more = staying n keep stage (lift room.now nodes.now.nodes) in
        OnOk result (kept.new.nodes ≡ kept.old.nodes ++ more) }
    ensures sum { let n = S.Stages.network stages.now in
        IfOk result (λ all. (t : Tail) → (sum_for all t).sum ≡ (sum_for sums t).sum
        + weighted (closed_at n keep t stage) (lift room.now nodes.now.nodes)) }
    ensures opened { let n = S.Stages.network stages.now in
        IfOk result (λ all. (t : Tail) → (sum_for all t).opened
        ≡ (sum_for sums t).opened + counted n keep t stage (lift room.now nodes.now.nodes)) }
{
    match keep {
        Kept::Open(tails) => settle_room(stages, stage, tails, nodes, room, sums, kept),
        Kept::All => {
            keep_room(nodes, room, kept)?;
            Ok(sums)
        }
    }
}
