// Both ways to the answer of Zelen's test.
ghost use Rattle.std.specs.Prelude.{◌≡◌, ◌≤◌, IfOk};
ghost use Rattle.weights.specs.declared.TheConstants.{MAX};
ghost use Rattle.zelen_test.specs.ZelenNetwork.{number_with};
ghost use Rattle.zelen_test.specs.ZelenSteps.{AreSummed};

use crate::cell_weights::labels_weight;
use crate::sum_counts::SumCounts;
use crate::sum_walk::{first_with_sum, next_with_sum};
use crate::zelen::Zelen;
use crate::zelen_measure::{ZelenMeasure, held};
use crate::zelen_rooms::ZelenRooms;
use crate::zelen_stages::ZelenStages;
use enumerate::{Framed, Plain, is_extreme_by};
use networks::Judge;
use room_network::{FromScalar, RoomNetwork};
use stage_network::Prepared;
use std::alloc::Global;
use strata_cells::Stratum;
use weights::{Bytes, Frame, List, NoMemory, Tail};

// What is known of strata whose labellings with the sum are few enough.
fn counts_of(alloc: Global, strata: &List<Stratum>, sum: u64) -> Result<SumCounts, NoMemory>
    requires summed { AreSummed strata.now sum }
    requires fits { number_with strata.now sum ≤ MAX }
    ensures strata { IfOk result (λ counts. counts.strata ≡ strata.now) }
    ensures sum { IfOk result (λ counts. counts.sum ≡ sum) }
{
    match SumCounts::of(alloc, strata.copy()?, sum)? {
        Some(counts) => Ok(counts),
        None => unreachable!(),
    }
}

impl Plain for Zelen {
    ghost use Rattle.zelen_test.specs.Zelen.{zelen_test};

    ghost test = { zelen_test };

    fn first(&self, alloc: Global) -> Result<Bytes, NoMemory> {
        let made = self.made();
        first_with_sum(
            alloc,
            made.strata.as_slice(),
            made.sizes.as_slice(),
            made.sum,
        )
    }

    fn next(&self, labels: &mut Bytes) -> bool {
        let made = self.made();
        let strata = made.strata.as_slice();
        let sizes = made.sizes.as_slice();
        next_with_sum(
            strata,
            sizes,
            made.sum,
            made.frame.total,
            labels.as_mut_slice(),
        )
    }

    fn weight(&self, _labels: &[u8]) -> u128 {
        1
    }

    fn extreme(&self, labels: &[u8], tail: Tail) -> bool {
        is_extreme_by(&self.frame(), self.measure(labels, tail), tail)
    }

    fn value(&self, labels: &[u8]) -> i128 {
        self.member(labels);
        held(labels_weight(self.made().strata.as_slice(), labels))
    }
}

impl Framed for Zelen {
    fn frame(&self) -> Frame {
        self.made().frame
    }

    fn measure(&self, labels: &[u8], _tail: Tail) -> i128 {
        self.value(labels)
    }
}

impl Prepared for Zelen {
    ghost use Rattle.zelen_test.specs.ZelenNetwork.{zelen_network};

    type Built = ZelenStages;

    ghost network = { zelen_network };

    ghost running = { zelen_network };

    fn has_tail(&self, tail: Tail) -> bool {
        match tail {
            Tail::Two => true,
            Tail::Less | Tail::Greater => false,
        }
    }

    fn is_shared(&self) -> bool {
        true
    }

    fn stages_of(&self, alloc: Global, _tail: Tail) -> Result<Self::Built, NoMemory> {
        let made = self.made();
        let rooms = ZelenRooms::new(counts_of(alloc, &made.strata, made.sum)?);
        let counts = counts_of(alloc, &made.strata, made.sum)?;
        let measure = ZelenMeasure::new(alloc, counts, Judge::of(&made.frame))?;
        let network = RoomNetwork::new(rooms, FromScalar::new(measure));
        Ok(ZelenStages { network })
    }
}
