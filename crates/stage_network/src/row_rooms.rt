// The rows of one stage, room after room.
ghost use Rattle.std.specs.Prelude.{◌≡◌, ◌+◌, ◌*◌, ◌<◌, ◌≤◌, [], ◌∷◌, ◌++◌, pos, length, map};
ghost use Rattle.std.specs.Prelude.{take, drop};
ghost use Rattle.std.specs.Prelude.{OnOk, slice_index_or};
ghost use Rattle.stage_network.specs.RowSteps.{Row};

use crate::row_heads::Head;
use std::alloc::Global;
use std::marker::Model;
use weights::{Count, NoMemory};

/// The rooms of one stage, each with a row of cells.
#[derive(Drop)]
pub struct RoomRows<C: Count> {
    width: usize,
    rooms: Vec<i128>,
    heads: Vec<Head>,
    cells: Vec<C>,
}

impl<C: Count> Model for RoomRows<C> {
    ghost use Rattle.std.specs.Prelude.{map};
    ghost use Rattle.stage_network.specs.RowSteps.{RowList, AreRows, rows_of};

    ghost Value = { RowList };

    ghost view = { λ p. record {
      width = p.width;
      rows = rows_of p.width p.rooms.items (map C.number p.cells.items) p.heads.items;
    } };

    ghost invariant = { λ p.
        AreRows p.width p.rooms.items (map C.number p.cells.items) p.heads.items };
}

// The room at a place of a list of rooms.
fn room_at(width: usize, rooms: &[i128], i: usize) -> &[i128]
    requires { i * width + width ≤ length rooms.now }
    ensures room { result.now ≡ take width (drop (i * width) rooms.now) }
    ensures long { length result.now ≡ width }
{
    let start = i * width;
    &rooms[start..start + width]
}

// The cells of a row.
fn cells_at<C: Count>(start: usize, len: usize, cells: &[C]) -> &[C]
    requires { start + len ≤ length cells.now }
    ensures { map C.number result.now ≡ take len (drop start (map C.number cells.now)) }
{
    &cells[start..start + len]
}

impl<C: Count> RoomRows<C> {
    /// No rows, for rooms of this many numbers.
    pub fn new(alloc: Global, width: usize) -> RoomRows<C>
        ensures { result ≡ record { width = width; rows = [] } }
    {
        RoomRows {
            width,
            rooms: Vec::new(alloc),
            heads: Vec::new(alloc),
            cells: Vec::new(alloc),
        }
    }

    /// How many numbers a room has.
    pub fn width(&self) -> usize
        ensures { result ≡ self.now.width }
    {
        self.width
    }

    /// How many rows there are.
    pub fn len(&self) -> usize
        ensures { result ≡ length self.now.rows }
    {
        self.heads.len()
    }

    /// The room of a row.
    pub fn room(&self, i: usize) -> &[i128]
        requires { i < length self.now.rows }
        ensures room { (d : Row) → result.now ≡ (slice_index_or self.now.rows i d).room }
        ensures wide { length result.now ≡ self.now.width }
    {
        room_at(self.width, &self.rooms, i)
    }

    /// The lowest number of a row.
    pub fn lowest(&self, i: usize) -> i128
        requires { i < length self.now.rows }
        ensures { (d : Row) → result ≡ (slice_index_or self.now.rows i d).lowest }
    {
        self.heads[i].lowest
    }

    /// The stride of a row.
    pub fn stride(&self, i: usize) -> u64
        requires { i < length self.now.rows }
        ensures { (d : Row) → pos result ≡ (slice_index_or self.now.rows i d).stride }
    {
        self.heads[i].stride
    }

    /// The cells of a row.
    pub fn cells(&self, i: usize) -> &[C]
        requires { i < length self.now.rows }
        ensures { (d : Row)
            → map C.number result.now ≡ (slice_index_or self.now.rows i d).cells }
    {
        let head = self.heads[i];
        cells_at(head.start, head.len, &self.cells)
    }

    /// Adds a row.
    pub fn push(
        &mut self,
        room: &[i128],
        lowest: i128,
        stride: u64,
        cells: &[C],
    ) -> Result<(), NoMemory>
        requires wide { length room.now ≡ self.old.width }
        ensures width { OnOk result (self.new.width ≡ self.old.width) }
        ensures rows { let row : Row = record {
          room = room.now;
          lowest = lowest;
          stride = pos stride;
          cells = map C.number cells.now;
        } in
            OnOk result (self.new.rows ≡ self.old.rows ++ row ∷ []) }
    {
        let start = self.cells.len();
        self.heads.reserve(1)?;
        self.cells.extend_from_slice(cells)?;
        self.rooms.extend_from_slice(room)?;
        match self.heads.push(Head {
            start,
            len: cells.len(),
            lowest,
            stride,
        }) {
            Ok(()) => {}
            Err(_) => unreachable!(),
        }
        Ok(())
    }

    /// Forgets the rows. It keeps their memory.
    pub fn clear(&mut self)
        ensures { self.new ≡ record { width = self.old.width; rows = [] } }
    {
        self.rooms.clear();
        self.heads.clear();
        self.cells.clear();
    }
}
