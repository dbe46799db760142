// Both ways to the answer of a test of strata.
ghost use Rattle.std.specs.Prelude.{◌≡◌};
ghost use Rattle.stratified_tests.specs.StrataTests.{is_one_sided, tails_with};

use crate::first_cell_stages::FirstCellStages;
use crate::odds::labelling_weight;
use crate::strata_test::StrataTest;
use enumerate::{Framed, Plain, is_extreme_by, next_joined};
use networks::AdditiveStages;
use stage_network::Prepared;
use std::alloc::Global;
use strata_cells::{first_cells, first_labels};
use weights::{Bytes, Frame, NoMemory, Odds, Tail};

fn is_one_sided(tail: Tail) -> bool
    ensures { result ≡ is_one_sided tail }
{
    match tail {
        Tail::Less | Tail::Greater => true,
        Tail::Two => false,
    }
}

// Whether a test has a tail: with odds, whether the tail is on one side.
fn has_tail(odds: Option<Odds>, tail: Tail) -> bool
    ensures { result ≡ tails_with odds tail }
{
    match odds {
        None => true,
        Some(_odds) => is_one_sided(tail),
    }
}

impl Plain for StrataTest {
    ghost use Rattle.stratified_tests.specs.StrataTests.{strata_test};

    ghost test = { strata_test };

    fn first(&self, alloc: Global) -> Result<Bytes, NoMemory> {
        first_labels(alloc, self.made().strata.as_slice())
    }

    fn next(&self, labels: &mut Bytes) -> bool {
        next_joined(self.made().sizes.as_slice(), labels.as_mut_slice())
    }

    fn weight(&self, labels: &[u8]) -> u128 {
        let odds = self.odds();
        labelling_weight(odds, self.made().strata.as_slice(), labels)
    }

    fn extreme(&self, labels: &[u8], tail: Tail) -> bool {
        is_extreme_by(&self.frame(), self.measure(labels, tail), tail)
    }

    fn value(&self, labels: &[u8]) -> i128 {
        first_cells(self.made().strata.as_slice(), labels) as i128
    }
}

impl Framed for StrataTest {
    fn frame(&self) -> Frame {
        self.made().frame
    }

    fn measure(&self, labels: &[u8], _tail: Tail) -> i128 {
        self.value(labels)
    }
}

impl Prepared for StrataTest {
    ghost use Rattle.stratified_tests.specs.StrataNetwork.{strata_network};

    type Built = AdditiveStages<FirstCellStages>;

    ghost network = { strata_network };

    ghost running = { strata_network };

    fn has_tail(&self, tail: Tail) -> bool {
        has_tail(self.odds(), tail)
    }

    fn is_shared(&self) -> bool {
        true
    }

    fn stages_of(&self, alloc: Global, _tail: Tail) -> Result<Self::Built, NoMemory> {
        let judge = self.judge();
        let odds = self.odds();
        let strata = self.made().strata.copy()?;
        let stages = FirstCellStages {
            odds,
            strata,
            judge,
        };
        AdditiveStages::new(alloc, stages)
    }
}
