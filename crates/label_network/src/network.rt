// The network of a measure of labels.
ghost use Rattle.std.specs.Prelude.{◌≡◌, ℤ, Bool, IfOk};
ghost use Rattle.weights.specs.declared.tails.Tail.{Tail};
ghost use Rattle.weights.specs.Rules.{passes};
ghost use Rattle.networks.specs.Completions.{extreme_weight, value_weights};
ghost use Rattle.networks.specs.Judged.{rule_in};
ghost use Rattle.room_network.specs.RoomNetworks.{room_network};
ghost use Rattle.label_network.specs.LabelNetwork.{IsMargin, labellings_passing};
ghost use Rattle.label_network.specs.LabelRooms.{label_weight};

use crate::rooms::LabelRooms;
use room_network::{Measure, RoomNetwork};
use std::alloc::Global;
use weights::NoMemory;

/// The network of a measure of labels: a key has the sizes that remain, its room, and then the
/// measure's partial.
pub type LabelNetwork<M> = RoomNetwork<LabelRooms, M>;

/// The network of a measure with these columns (how many subjects each has) and rows (how many
/// subjects get each label). There are 2 to 8 rows, at most 16 of rows and slots, and at most
/// [`MAX`](weights::MAX) labellings. A refusal drops the measure.
///
/// At values that pass ends as much weight as labellings of single subjects have a value that does,
/// each counted once; and a tail's extreme weight, which `tail_sum` answers, is the number of those
/// whose value passes the tail's rule.
pub fn label_stages<M: Measure + Drop>(
    alloc: Global,
    columns: &[u64],
    rows: &[u64],
    measure: M,
) -> Result<LabelNetwork<M>, NoMemory>
    requires { IsMargin (M.meaning measure) columns.now rows.now }
    ensures measure { IfOk result (λ stages. stages.1 ≡ measure) }
    ensures values { IfOk result (λ stages.
        let m = M.meaning stages.1 in
        (p : ℤ → Bool) → value_weights (room_network m label_weight) p
        ≡ labellings_passing m columns.now rows.now p) }
    ensures tails { IfOk result (λ stages.
        let m = M.meaning stages.1 in
        let n = room_network m label_weight in
        (t : Tail) → extreme_weight n t 0 n.first
        ≡ labellings_passing m columns.now rows.now (passes (rule_in m.judge t))) }
{
    let rooms = LabelRooms::new(alloc, columns, rows)?;
    Ok(RoomNetwork::new(rooms, measure))
}
