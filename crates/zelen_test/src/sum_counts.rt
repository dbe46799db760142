// Strata, a sum of their first cells, and how many labellings have what can be left of it.
ghost use Rattle.std.specs.Prelude.{◌≡◌, ◌+◌, ◌<◌, ◌≤◌, length, drop, Contains, IfOk};
ghost use Rattle.std.specs.Prelude.{MatchOption};
ghost use Rattle.networks.specs.Network.{IsReached};
ghost use Rattle.room_network.specs.Plans.{alone};
ghost use Rattle.weights.specs.declared.TheConstants.{MAX};
ghost use Rattle.strata_cells.specs.Strata.{cell_weight, greatest_cell, least_cell, stratum_at};
ghost use Rattle.strata_cells.specs.StrataLimits.{IsSmall};
ghost use Rattle.zelen_test.specs.ZelenNetwork.{greatest_choice, least_choice, number_with};
ghost use Rattle.zelen_test.specs.ZelenNetwork.{zelen_floor, zelen_plan};
ghost use Rattle.zelen_test.specs.ZelenSteps.{AreLaterSums, AreSumCounts, AreSummed, IsLeft};
ghost use Rattle.zelen_test.specs.ZelenSteps.{ZelenChoice, ZelenSeat};

use crate::later_sums::{LaterSums, all_later_sums, choice_from, choice_to};
use std::alloc::Global;
use strata_cells::{Stratum, cell_weight};
use weights::{List, NoMemory};

/// Strata whose first cells have a sum, and how many of their labellings have what can be left of
/// it before each stratum.
#[derive(Drop)]
pub(crate) struct SumCounts {
    pub strata: List<Stratum>,
    pub sum: u64,
    pub later_sums: Vec<LaterSums>,
    ghost right: { AreSumCounts strata sum later_sums.items },
}

/// How many labellings give a first cell.
pub(crate) fn weight_of(stratum: Stratum, cell: u64) -> u128
    requires small { IsSmall stratum }
    requires least { least_cell stratum ≤ cell }
    requires greatest { cell ≤ greatest_cell stratum }
    requires fits { cell_weight stratum cell ≤ MAX }
    ensures { result ≡ cell_weight stratum cell }
{
    match cell_weight(stratum, cell) {
        Some(weight) => weight,
        None => unreachable!(),
    }
}

impl SumCounts {
    /// What is known of strata, or None exactly where their labellings with the sum pass the
    /// greatest weight.
    pub(crate) fn of(
        alloc: Global,
        strata: List<Stratum>,
        sum: u64,
    ) -> Result<Option<SumCounts>, NoMemory>
        requires { AreSummed strata sum }
        ensures { IfOk result (λ found. MatchOption found (MAX < number_with strata sum)
            (λ counts. (counts.strata ≡ strata) × (counts.sum ≡ sum))) }
    {
        let Some(later_sums) = all_later_sums(alloc, strata.as_slice(), sum)? else {
            return Ok(None);
        };
        Ok(Some(SumCounts {
            strata,
            sum,
            later_sums,
        }))
    }

    /// What is known of a room that is reached. It does nothing.
    #[inline(always)]
    pub(crate) fn seat(&self, _stage: usize, _room: &[i128])
        requires { IsReached (alone (zelen_plan self.now.strata self.now.sum)) _stage _room.now }
        ensures { ZelenSeat self.now.strata self.now.sum _stage _room.now }
    {}

    /// And of a first cell that is allowed there. It does nothing.
    #[inline(always)]
    pub(crate) fn choice_seat(&self, _stage: usize, _room: &[i128], _choice: &[u64])
        requires reached { let plan = zelen_plan self.now.strata self.now.sum in
            IsReached (alone plan) _stage _room.now }
        requires before { _stage < length self.now.strata }
        requires allowed { let floor = zelen_floor self.now.strata self.now.sum in
            Contains (floor.choices _stage _room.now) _choice.now }
        ensures { ZelenChoice self.now.strata _stage _room.now _choice.now }
    {}

    // What is known of the strata from a stage on.
    fn later(&self, stage: usize) -> &LaterSums
        requires { stage ≤ length self.now.strata }
        ensures { AreLaterSums self.now.strata self.now.sum stage result.now }
    {
        &self.later_sums[self.strata.len() - stage]
    }

    fn stratum(&self, stage: usize) -> Stratum
        requires { stage < length self.now.strata }
        ensures is { result ≡ stratum_at self.now.strata stage }
        ensures small { IsSmall result }
    {
        self.strata.as_slice()[stage]
    }

    /// The least first cell of a stage's stratum after which the later strata can have what is
    /// left.
    pub(crate) fn least_choice(&self, stage: usize, left: u64) -> u64
        requires { stage < length self.now.strata }
        ensures { let s = stratum_at self.now.strata stage in
            result ≡ least_choice s (drop (stage + 1) self.now.strata) left }
    {
        choice_from(self.stratum(stage), self.later(stage + 1), left)
    }

    /// And the greatest.
    pub(crate) fn greatest_choice(&self, stage: usize, left: u64) -> u64
        requires { stage < length self.now.strata }
        ensures { let s = stratum_at self.now.strata stage in
            result ≡ greatest_choice s (drop (stage + 1) self.now.strata) left }
    {
        choice_to(self.stratum(stage), self.later(stage + 1), left)
    }

    /// How many labellings give a first cell of a stage's stratum.
    #[inline(always)]
    pub(crate) fn weight(&self, stage: usize, cell: u64) -> u128
        requires stage { stage < length self.now.strata }
        requires least { least_cell (stratum_at self.now.strata stage) ≤ cell }
        requires greatest { cell ≤ greatest_cell (stratum_at self.now.strata stage) }
        requires fits { cell_weight (stratum_at self.now.strata stage) cell ≤ MAX }
        ensures { result ≡ cell_weight (stratum_at self.now.strata stage) cell }
    {
        weight_of(self.stratum(stage), cell)
    }

    /// How many labellings of the strata from a stage on have what is left.
    #[inline(always)]
    pub(crate) fn number(&self, stage: usize, left: u64) -> u128
        requires stage { stage ≤ length self.now.strata }
        requires left { IsLeft self.now.strata self.now.sum stage left }
        ensures { result ≡ number_with (drop stage self.now.strata) left }
    {
        let later = self.later(stage);
        later.numbers.as_slice()[(left - later.first) as usize]
    }
}
