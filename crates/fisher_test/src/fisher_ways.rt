// Both ways to the answer of Fisher's test.
ghost use Rattle.std.specs.Prelude.{◌≡◌, pos, false, true, IfOk, Contains};
ghost use Rattle.weights.specs.Labellings.{labellings};
ghost use Rattle.completion_bounds.specs.Fillings.{falling};
ghost use Rattle.label_network.specs.LabelNetwork.{label_network};
ghost use Rattle.sorted_tables.specs.SortedRooms.{rising};
ghost use Rattle.networks.specs.Follows.{AreNumerators, HasTails};
ghost use Rattle.table_sums.specs.Tables.{column_sums, is_two_by_two, row_sums};
ghost use Rattle.fisher_test.specs.FisherExact.{fisher_test, first_cell, rarity};
ghost use Rattle.fisher_test.specs.SortedWeighing.{sorted_meaning, sorted_rarity_meaning};
ghost use Rattle.fisher_test.specs.FisherNetworks.{first_cell_meaning, fisher_network, rarity_meaning};
ghost use Rattle.fisher_test.specs.Weighing.{weight_meaning};

use crate::by_transposing::{quick_spread, quick_sum};
use crate::fisher_stages::FisherStages;
use crate::fisher_table::{FisherTable, held};
use crate::last_columns::LastColumns;
use crate::sorted_weights::{SortedStages, sorted_stages};
use crate::weight_measure::{WeightMeasure, WeightStages};
use completion_bounds::fall;
use enumerate::{Framed, Plain, first_labelling, is_extreme_by, next_labelling};
use label_network::{LinearStages, label_stages, linear_stages};
use networks::{Spread, Stages, TailSum, TailSums};
use room_network::FromScalar;
use sorted_tables::rise;
use stage_network::{Prepared, tail_sums_by_rooms};
use std::alloc::Global;
use table_sums::{count_label, front, labelled_weight};
use weights::{Bytes, Frame, NoMemory, Tail, Tails};

// Sizes of rows with the greatest first, and of columns with the least first.
#[derive(Drop)]
struct InOrder {
    rows: Vec<u64>,
    columns: Vec<u64>,
}

impl FisherTable {
    // The weight of the table that a labelling gives.
    fn rarity(&self, labels: &[u8]) -> i128
        requires { Contains (labellings (row_sums self.now)) labels.now }
        ensures { result ≡ pos (rarity self.now labels.now) }
    {
        self.facts();
        self.label_facts(labels);
        held(labelled_weight(self.rows() as usize, self.column_sums(), labels))
    }

    /// The first cell of the table that a labelling by its row sums gives.
    pub fn first_cell(&self, labels: &[u8]) -> u64
        requires { Contains (labellings (row_sums self.now)) labels.now }
        ensures { result ≡ first_cell (column_sums self.now) labels.now }
    {
        self.facts();
        self.label_facts(labels);
        count_label(front(labels, self.column_sums()[0]), 0)
    }

    // The network of the first cell.
    fn by_first_cell(&self, alloc: Global) -> Result<LinearStages, NoMemory>
        requires { is_two_by_two self.now ≡ true }
        ensures { let n = label_network (first_cell_meaning self.now) in
            IfOk result (λ s. ⟦<LinearStages as Stages>⟧.network s ≡ n) }
    {
        self.facts();
        let rows = self.row_sums();
        linear_stages(
            alloc,
            &[1, 0],
            rows,
            &[1, 0],
            self.column_sums(),
            self.judge(),
        )
    }

    // The network of the table's weight.
    fn by_weight(&self, alloc: Global) -> Result<WeightStages, NoMemory>
        ensures { let meaning = rarity_meaning self.now in
            IfOk result (λ s. weight_meaning s.1.rows.items s.1.columns.items s.1.judge
            ≡ meaning) }
    {
        self.facts();
        let rows = self.row_sums();
        let columns = self.column_sums();
        let measure = WeightMeasure::new(alloc, rows, columns, self.judge())?;
        label_stages(alloc, columns, rows, FromScalar::new(measure))
    }

    // Its rows and columns in order.
    fn in_order(&self, alloc: Global) -> Result<InOrder, NoMemory>
        ensures rows { IfOk result (λ order. order.rows.items ≡ falling (row_sums self.now)) }
        ensures columns { IfOk result (λ order. order.columns.items
            ≡ rising (column_sums self.now)) }
    {
        self.facts();
        let sizes = self.row_sums();
        let mut room = [0u64; 8];
        let fallen = &mut room[..sizes.len()];
        fall(sizes, fallen);
        let rows = Vec::from_slice(alloc, fallen)?;
        let columns = rise(alloc, self.column_sums())?;
        Ok(InOrder { rows, columns })
    }

    /// The network of the table's weight with sizes in falling order.
    pub(crate) fn by_sorted_weight(&self, alloc: Global) -> Result<SortedStages, NoMemory>
        ensures { let meaning = sorted_rarity_meaning self.now in
            IfOk result (λ s. sorted_meaning s.1.measure.rows.items
            s.1.measure.columns.items s.1.measure.judge ≡ meaning) }
    {
        self.facts();
        let order = self.in_order(alloc)?;
        let rows = order.rows.as_slice();
        sorted_stages(alloc, rows, order.columns.as_slice(), self.judge())
    }

    /// What completes tables of its sums before their last two columns, in the same order.
    pub(crate) fn last_columns(&self, alloc: Global) -> Result<LastColumns, NoMemory>
        ensures { let meaning = sorted_rarity_meaning self.now in
            IfOk result (λ last. sorted_meaning last.rooms.rows.items
            last.rooms.columns.items last.judge ≡ meaning) }
    {
        self.facts();
        let order = self.in_order(alloc)?;
        let rows = order.rows.as_slice();
        LastColumns::new(alloc, rows, order.columns.as_slice(), self.judge())
    }

    // The network of a tail.
    fn by_tail(&self, alloc: Global, tail: Tail) -> Result<FisherStages, NoMemory>
        requires { (fisher_test self.now).has_tail tail ≡ true }
        ensures { let n = fisher_network self.now tail in
            IfOk result (λ built. ⟦<FisherStages as Stages>⟧.network built ≡ n) }
    {
        match tail {
            Tail::Less => Ok(FisherStages::Cell(self.by_first_cell(alloc)?)),
            Tail::Greater => Ok(FisherStages::Cell(self.by_first_cell(alloc)?)),
            Tail::Two => Ok(FisherStages::Weight(self.by_weight(alloc)?)),
        }
    }

    // The numerators of the asked tails but that on both sides, by one sweep over the first cell. A
    // table of 2 by 2 alone has such tails.
    fn sides(&self, alloc: Global, sides: Tails) -> Result<TailSums, NoMemory>
        requires has { HasTails (fisher_test self.now) sides }
        requires one_sided { sides.two ≡ false }
        ensures { IfOk result (AreNumerators (fisher_test self.now) sides) }
    {
        if !self.made().two_by_two {
            return Ok(TailSums::none());
        }
        self.facts();
        let cells = self.by_first_cell(alloc)?;
        let sums = tail_sums_by_rooms(alloc, &cells, sides)?;
        Ok(sums)
    }
}

impl Plain for FisherTable {
    ghost use Rattle.fisher_test.specs.FisherExact.{fisher_test};

    ghost test = { fisher_test };

    fn first(&self, alloc: Global) -> Result<Bytes, NoMemory> {
        self.facts();
        first_labelling(alloc, self.row_sums())
    }

    fn next(&self, labels: &mut Bytes) -> bool {
        next_labelling(labels.as_mut_slice())
    }

    fn weight(&self, _labels: &[u8]) -> u128 {
        1
    }

    fn extreme(&self, labels: &[u8], tail: Tail) -> bool {
        is_extreme_by(&self.frame(), self.measure(labels, tail), tail)
    }

    fn value(&self, labels: &[u8]) -> i128 {
        if self.made().two_by_two {
            self.first_cell(labels) as i128
        } else {
            self.rarity(labels)
        }
    }
}

impl Framed for FisherTable {
    fn frame(&self) -> Frame {
        self.facts();
        self.made().frame
    }

    fn measure(&self, labels: &[u8], tail: Tail) -> i128 {
        match tail {
            Tail::Two => self.rarity(labels),
            Tail::Less | Tail::Greater => self.value(labels),
        }
    }
}

impl Prepared for FisherTable {
    ghost use Rattle.fisher_test.specs.FisherNetworks.{fisher_network};

    type Built = FisherStages;

    ghost network = { fisher_network };

    ghost running = { fisher_network };

    fn has_tail(&self, tail: Tail) -> bool {
        match tail {
            Tail::Two => true,
            Tail::Less | Tail::Greater => self.made().two_by_two,
        }
    }

    fn stages_of(&self, alloc: Global, tail: Tail) -> Result<Self::Built, NoMemory> {
        self.facts();
        self.by_tail(alloc, tail)
    }

    fn quick_stages_of(&self, alloc: Global, tail: Tail) -> Result<Self::Built, NoMemory> {
        if self.made().two_by_two {
            return self.stages_of(alloc, tail);
        }
        self.facts();
        let sorted = self.by_sorted_weight(alloc)?;
        Ok(FisherStages::Sorted(sorted))
    }

    fn quick_sum(&self, alloc: Global, asked: bool, tail: Tail) -> Result<TailSum, NoMemory> {
        quick_sum(alloc, self, asked, tail)
    }

    // `less` and `greater` by one sweep.
    fn numerators(&self, alloc: Global, tails: Tails) -> Result<TailSums, NoMemory> {
        let Tails { less, greater, two } = tails;
        let sides = Tails {
            less,
            greater,
            two: false,
        };
        let sums = self.sides(alloc, sides)?;
        let two = self.quick_sum(alloc, two, Tail::Two)?;
        Ok(TailSums { two, ..sums })
    }

    fn quick_distribution(&self, alloc: Global) -> Result<Spread, NoMemory> {
        quick_spread(alloc, self)
    }
}
