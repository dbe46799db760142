// How many rows of a file are dropped.
ghost use Rattle.std.specs.Prelude.{◌≡◌};
ghost use Rattle.sample_reader.specs.Dropped.{MayPickFor, dropped_of};

use crate::MOST_LABELS;
use crate::block_rows::{BlockLayout, Cell};
use crate::group_rows::GroupLayout;
use crate::layout::Layout;
use crate::pair_rows::PairLayout;
use crate::sequence_rows::SequenceLayout;
use crate::strata_rows::StrataLayout;
use crate::twin_rows::TwinLayout;
use record_reader::{Missing, Picks, Rows};

/// How many rows of a file are dropped where it is read in a layout and those that miss a picked
/// field are dropped. It takes no memory.
pub fn dropped(rows: &Rows, picks: &Picks, layout: Layout) -> u64
    requires { MayPickFor layout picks.now }
    ensures { result ≡ dropped_of layout picks.now rows.now }
{
    match layout {
        Layout::Pairs => record_reader::dropped(&PairLayout, Missing::Drop, rows, picks),
        Layout::Groups => {
            let groups = GroupLayout { most: MOST_LABELS };
            record_reader::dropped(&groups, Missing::Drop, rows, picks)
        }
        Layout::Blocks => {
            let blocks = BlockLayout { cell: Cell::Value };
            record_reader::dropped(&blocks, Missing::Drop, rows, picks)
        }
        Layout::BinaryBlocks => {
            let blocks = BlockLayout { cell: Cell::Binary };
            record_reader::dropped(&blocks, Missing::Drop, rows, picks)
        }
        Layout::StrataGroups => record_reader::dropped(&StrataLayout, Missing::Drop, rows, picks),
        Layout::Twins => record_reader::dropped(&TwinLayout, Missing::Drop, rows, picks),
        Layout::Sequence => record_reader::dropped(&SequenceLayout, Missing::Drop, rows, picks),
    }
}
