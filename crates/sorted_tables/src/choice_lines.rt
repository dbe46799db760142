// The choices of a column, each with what it leaves of the sizes.
ghost use Rattle.std.specs.Prelude.{◌≡◌, IfOk};
ghost use Rattle.label_network.specs.Meanings.{sizes_in};
ghost use Rattle.sorted_tables.specs.ChoiceLines.{choice_lines};
ghost use Rattle.sorted_tables.specs.SortedSteps.{IsRoomFor};

use crate::fronts::{Front, list_behind, orders_of};
use label_network::{Binomials, read_sizes};
use std::alloc::Global;
use weights::{Line, NoMemory, total_of};

/// The choices of a column that stand for others, each with what it leaves of a room's sizes.
pub(crate) fn list_choices(
    alloc: Global,
    binomials: &Binomials,
    column: u64,
    room: &[i128],
) -> Result<Vec<Line>, NoMemory>
    requires { IsRoomFor binomials.now.width column room.now }
    ensures { IfOk result (λ lines. lines.items ≡ choice_lines column (sizes_in room.now)) }
{
    let mut numbers = [0u64; 8];
    let rows = &mut numbers[..room.len()];
    read_sizes(room, rows);
    let none = Front {
        size: 0,
        count: 0,
        alike: 0,
        orders: 1,
        column,
        others: total_of(rows) - column,
        ways: 1,
    };
    let mut lines = Vec::new(alloc);
    list_behind(binomials, orders_of(rows), rows, none, &mut lines)?;
    Ok(lines)
}
