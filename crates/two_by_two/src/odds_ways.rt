// Both ways to the answer of Fisher's test with odds.
ghost use Rattle.std.specs.Prelude.{◌≡◌, IfOk};
ghost use Rattle.room_network.specs.RoomNetworks.{room_network};
ghost use Rattle.label_network.specs.LabelNetwork.{over_rooms};
ghost use Rattle.two_by_two.specs.OddsNetworks.{cell_meaning, odds_weights};

use crate::odds_rooms::OddsRooms;
use crate::odds_stages::OddsStages;
use crate::odds_table::OddsTable;
use crate::odds_weights::odds_weight;
use enumerate::{Framed, Plain, is_extreme_by};
use label_network::LinearMeasure;
use networks::{Judge, Stages};
use room_network::{FromScalar, RoomNetwork};
use stage_network::Prepared;
use std::alloc::Global;
use weights::{Bytes, Frame, NoMemory, Rule, Tail};

impl Plain for OddsTable {
    ghost use Rattle.two_by_two.specs.FisherOdds.{odds_test};

    ghost test = { odds_test };

    fn first(&self, alloc: Global) -> Result<Bytes, NoMemory> {
        let _total = self.total();
        self.fisher().first(alloc)
    }

    fn next(&self, labels: &mut Bytes) -> bool {
        self.fisher().next(labels)
    }

    fn weight(&self, labels: &[u8]) -> u128 {
        self.label_facts(labels);
        let fisher = self.fisher();
        fisher.facts();
        odds_weight(self.odds(), fisher.row_sums()[0], fisher.first_cell(labels))
    }

    fn extreme(&self, labels: &[u8], tail: Tail) -> bool {
        is_extreme_by(&self.frame(), self.measure(labels, tail), tail)
    }

    fn value(&self, labels: &[u8]) -> i128 {
        self.fisher().value(labels)
    }
}

impl Framed for OddsTable {
    fn frame(&self) -> Frame {
        let statistic = self.fisher().frame().statistic;
        Frame {
            statistic,
            scale: 1,
            total: self.total(),
            two: Rule::one_sided(statistic),
        }
    }

    fn measure(&self, labels: &[u8], _tail: Tail) -> i128 {
        self.value(labels)
    }
}

impl Prepared for OddsTable {
    ghost use Rattle.two_by_two.specs.OddsNetworks.{odds_network};

    type Built = OddsStages;

    ghost network = { odds_network };

    ghost running = { odds_network };

    fn has_tail(&self, tail: Tail) -> bool {
        let _total = self.total();
        match tail {
            Tail::Less | Tail::Greater => true,
            Tail::Two => false,
        }
    }

    fn is_shared(&self) -> bool {
        true
    }

    fn stages_of(&self, alloc: Global, _tail: Tail) -> Result<Self::Built, NoMemory> {
        let _total = self.total();
        self.by_cell(alloc)
    }
}

impl OddsTable {
    // The network of the first cell.
    fn by_cell(&self, alloc: Global) -> Result<OddsStages, NoMemory>
        ensures { let n = room_network (over_rooms (cell_meaning self.now))
            (odds_weights self.now.odds) in
            IfOk result (λ built. ⟦<OddsStages as Stages>⟧.network built ≡ n) }
    {
        let total = self.total();
        let judge = Judge::of(&self.frame());
        let rows = self.fisher().row_sums();
        let columns = self.fisher().column_sums();
        let cell = LinearMeasure::new(alloc, &[1, 0], rows, &[1, 0], columns, judge)?;
        let rooms = OddsRooms::new(alloc, self.odds(), columns, rows, total)?;
        let cell = RoomNetwork::new(rooms, FromScalar::new(cell));
        Ok(OddsStages { cell })
    }
}
