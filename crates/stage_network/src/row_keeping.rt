// A room's row, kept without the empty cells at its ends.
ghost use Rattle.std.specs.Prelude.{◌≡◌, ℤ, ◌++◌, length, map, OnOk};
ghost use Rattle.count_arrays.specs.Rows.{row_nodes};
ghost use Rattle.stage_network.specs.ArcSteps.{lift};
ghost use Rattle.stage_network.specs.RowSteps.{all_nodes};
ghost use Rattle.stage_network.specs.RowSweeps.{row_partials};

use crate::row_arcs::number_at;
use crate::row_filling::RoomRow;
use crate::row_rooms::RoomRows;
use crate::stops::Stop;
use count_arrays::{first_full, last_full};
use weights::Count;

// The cells before those behind the last key.
fn trimmed<C: Count>(cells: &[C]) -> &[C]
    ensures { (lowest stride : ℤ) → row_nodes lowest stride (map C.number result.now)
        ≡ row_nodes lowest stride (map C.number cells.now) }
{
    &cells[..last_full(cells)]
}

impl<C: Count> RoomRow<C> {
    /// Keeps it with its room, where it has a key.
    pub fn keep(&self, room: &[i128], kept: &mut RoomRows<C>) -> Result<(), Stop>
        requires { length room.now ≡ kept.old.width }
        ensures width { OnOk result (kept.new.width ≡ kept.old.width) }
        ensures nodes { let more = lift room.now (row_partials C.number self.now) in
            OnOk result (all_nodes kept.new.rows ≡ all_nodes kept.old.rows ++ more) }
    {
        let cells = self.cells.as_slice();
        let first = first_full(cells);
        if first == cells.len() {
            return Ok(());
        }
        let number = number_at(self.lowest, self.stride, first)?;
        kept.push(room, number, self.stride, trimmed(&cells[first..]))?;
        Ok(())
    }
}
