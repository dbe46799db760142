// What is decided in a room, stretch by stretch, and which of its cells stay open.
ghost use Rattle.std.specs.Prelude.{◌≡◌, ℕ, ℤ, pos, ◌+ℤ◌, ◌+◌, ◌-◌, ◌*◌, ◌<◌, ◌≤◌, [], ◌∷◌};
ghost use Rattle.std.specs.Prelude.{◌++◌, length, map, cond, true, false};
ghost use Rattle.std.specs.Prelude.{take, drop, OnOk, IfOk, slice_index_or, if◌then◌else◌};
ghost use Rattle.weights.specs.declared.tails.Tail.{Tail};
ghost use Rattle.weights.specs.declared.TheConstants.{MAX};
ghost use Rattle.node_pool.specs.Nodes.{weighted};
ghost use Rattle.count_arrays.specs.Rows.{row_nodes};
ghost use Rattle.networks.specs.Network.{IsReached};
ghost use Rattle.networks.specs.Completions.{is_inside};
ghost use Rattle.networks.specs.Opened.{is_undecided};
ghost use Rattle.stage_network.specs.ArcSteps.{lift};
ghost use Rattle.networks.specs.Asked.{asked};
ghost use Rattle.networks.specs.declared.stages.Verdict.TheVariants.{Outside};
ghost use Rattle.networks.specs.EachTail.{some_undecided, sum_for, verdict_for};
ghost use Rattle.stage_network.specs.RowSteps.{IsRowful, IsRowSettled};
ghost use Rattle.stage_network.specs.RowSweeps.{IsRoomRow, row_partials};

use crate::checked_sums::{joined, raised};
use crate::row_arcs::number_at;
use crate::row_filling::RoomRow;
use crate::settling::{rest_of, verdicts_of};
use crate::stops::Stop;
use count_arrays::{count_keys, first_full, forget, total};
use networks::{Kept, Roomed, Stages, TailSums, Verdicts};
use weights::{Count, Tail, Tails};

// The place of the first key from a place on, or the row's end.
fn next_full<C: Count>(cells: &[C], from: usize) -> usize
    requires { from ≤ length cells.now }
    ensures after { from ≤ result }
    ensures within { result ≤ length cells.now }
    ensures full { result < length cells.now
        → 0 < slice_index_or (map C.number cells.now) result 0 }
    ensures empty { (lowest stride : ℤ)
        → row_nodes lowest stride (take (result - from) (drop from (map C.number cells.now))) ≡ [] }
{
    from + first_full(&cells[from..])
}

// The end of a stretch of cells, where each number is so little greater than the first one.
fn stretch_end(from: usize, len: usize, stride: u64, same: u128) -> usize
    requires some { from < len }
    requires stride { 0 < stride }
    ensures after { from < result }
    ensures within { result ≤ len }
    ensures near { (result - from) * stride ≤ same + stride }
{
    let more = same / stride as u128;
    let left = len - from - 1;
    if more >= left as u128 {
        len
    } else {
        from + more as usize + 1
    }
}

// Adds what the cells of one stretch close or leave open; closed ones become empty.
fn settle_stretch<C: Count>(
    verdicts: Verdicts,
    none: C,
    cells: &mut [C],
    inside: TailSums,
) -> Result<TailSums, Stop>
    requires none { C.number none ≡ 0 }
    requires fits { (lowest stride : ℤ)
        → weighted (λ k. 1) (row_nodes lowest stride (map C.number cells.old)) ≤ MAX }
    ensures long { length cells.new ≡ length cells.old }
    ensures nodes { OnOk result ((lowest stride : ℤ)
        → row_nodes lowest stride (map C.number cells.new)
        ≡ cond (some_undecided verdicts) (row_nodes lowest stride (map C.number cells.old)) []) }
    ensures sum { IfOk result (λ all. (lowest stride : ℤ) (t : Tail)
        → let closes = cond (some_undecided verdicts) false (is_inside (verdict_for verdicts t)) in
        let weight = weighted (λ k. 1) (row_nodes lowest stride (map C.number cells.old)) in
        (sum_for all t).sum ≡ (sum_for inside t).sum + cond closes weight 0) }
    ensures opened { IfOk result (λ all. (lowest stride : ℤ) (t : Tail)
        → let keys = length (row_nodes lowest stride (map C.number cells.old)) in
        (sum_for all t).opened ≡ (sum_for inside t).opened
        + cond (is_undecided (verdict_for verdicts t)) keys 0) }
{
    let open = verdicts.is_open();
    if open {
        raised(inside, verdicts, true, 0, count_keys(cells) as u128)
    } else {
        let weight = total(cells);
        forget(cells, none);
        raised(inside, verdicts, false, weight, 0)
    }
}

// For how many greater partials the verdict for a tail is that of this one. Where it is not asked,
// that is Outside for each.
fn same_for_asked<S: Roomed>(
    stages: &S,
    stage: usize,
    room: &[i128],
    outlook: &[i128],
    partial: i128,
    is_asked: bool,
    tail: Tail,
) -> u128
    requires room { length room.now ≡ S.room_width stages.now }
    requires reached { let n = S.Stages.network stages.now in
        IsReached n stage (room.now ++ partial ∷ []) }
    requires outlook { outlook.now ≡ S.outlook_of stages.now stage room.now }
    ensures { let n = S.Stages.network stages.now in
        (d : ℕ) → d ≤ result → IsReached n stage (room.now ++ (partial +ℤ pos d) ∷ [])
        → (if is_asked then n.verdict tail stage (room.now ++ (partial +ℤ pos d) ∷ []) else Outside)
        ≡ (if is_asked then n.verdict tail stage (room.now ++ partial ∷ []) else Outside) }
{
    if is_asked {
        stages.same_for(stage, room, outlook, partial, tail)
    } else {
        u128::MAX
    }
}

// For how many greater partials all verdicts are those of this one.
fn same_for_all<S: Roomed>(
    stages: &S,
    stage: usize,
    room: &[i128],
    outlook: &[i128],
    partial: i128,
    tails: Tails,
) -> u128
    requires room { length room.now ≡ S.room_width stages.now }
    requires reached { let n = S.Stages.network stages.now in
        IsReached n stage (room.now ++ partial ∷ []) }
    requires outlook { outlook.now ≡ S.outlook_of stages.now stage room.now }
    ensures { let n = asked tails (S.Stages.network stages.now) in
        (t : Tail) (d : ℕ) → d ≤ result → IsReached n stage (room.now ++ (partial +ℤ pos d) ∷ [])
        → n.verdict t stage (room.now ++ (partial +ℤ pos d) ∷ [])
        ≡ n.verdict t stage (room.now ++ partial ∷ []) }
{
    let less = same_for_asked(
        stages,
        stage,
        room,
        outlook,
        partial,
        tails.less,
        Tail::Less,
    );
    let greater = same_for_asked(
        stages,
        stage,
        room,
        outlook,
        partial,
        tails.greater,
        Tail::Greater,
    );
    let two = same_for_asked(stages, stage, room, outlook, partial, tails.two, Tail::Two);
    less.min(greater).min(two)
}

// Settles a room for the asked tails: its closed cells become empty.
fn settle_open<C: Count, S: Roomed>(
    stages: &S,
    stage: usize,
    tails: Tails,
    room: &[i128],
    lowest: i128,
    stride: u64,
    none: C,
    cells: &mut [C],
    sums: TailSums,
) -> Result<TailSums, Stop>
    requires stride { 0 < stride }
    requires none { C.number none ≡ 0 }
    requires full { let n = S.Stages.network stages.now in
        let width = S.room_width stages.now in
        let nodes = lift room.now (row_nodes lowest (pos stride) (map C.number cells.old)) in
        IsRowful n width stage room.now nodes }
    ensures long { length cells.new ≡ length cells.old }
    ensures settled { let n = S.Stages.network stages.now in
        let old = lift room.now (row_nodes lowest (pos stride) (map C.number cells.old)) in
        let new = lift room.now (row_nodes lowest (pos stride) (map C.number cells.new)) in
        IfOk result (λ all. IsRowSettled n (Kept.Open tails) stage old new sums all) }
{
    let first = next_full(cells, 0);
    if first == cells.len() {
        return Ok(sums);
    }
    let _count = stages.stages();
    let _width = stages.room_width();
    let some = number_at(lowest, stride, first)?;
    let mut numbers = [0i128; 16];
    let outlook = &mut numbers[..stages.outlook_width()];
    stages.outlook(stage, room, outlook);
    let mut inside = TailSums::none();
    let mut i = first;
    while i < cells.len() {
        let partial = number_at(lowest, stride, i)?;
        let verdicts = verdicts_of(stages, stage, room, outlook, [partial].as_slice(), tails);
        let same = same_for_all(stages, stage, room, outlook, partial, tails);
        let end = stretch_end(i, cells.len(), stride, same);
        inside = settle_stretch(verdicts, none, &mut cells[i..end], inside)?;
        i = next_full(cells, end);
    }
    let rest = rest_of(stages, stage, room, [some].as_slice(), inside);
    let all = joined(sums, inside, rest)?;
    Ok(all)
}

impl<C: Count> RoomRow<C> {
    /// Settles it: the cells become empty that are open for no asked tail, or none does.
    pub fn settle<S: Roomed>(
        &mut self,
        stages: &S,
        stage: usize,
        keep: Kept,
        room: &[i128],
        sums: TailSums,
    ) -> Result<TailSums, Stop>
        requires ready { IsRoomRow C.number self.old }
        requires full { let n = S.Stages.network stages.now in
            let nodes = lift room.now (row_partials C.number self.old) in
            IsRowful n (S.room_width stages.now) stage room.now nodes }
        ensures ready { OnOk result (IsRoomRow C.number self.new) }
        ensures settled { let n = S.Stages.network stages.now in
            let old = lift room.now (row_partials C.number self.old) in
            let new = lift room.now (row_partials C.number self.new) in
            IfOk result (λ all. IsRowSettled n keep stage old new sums all) }
    {
        match keep {
            Kept::Open(tails) => {
                let cells = self.cells.as_mut_slice();
                let all = settle_open(
                    stages,
                    stage,
                    tails,
                    room,
                    self.lowest,
                    self.stride,
                    self.none,
                    cells,
                    sums,
                )?;
                Ok(all)
            }
            Kept::All => Ok(sums),
        }
    }
}
