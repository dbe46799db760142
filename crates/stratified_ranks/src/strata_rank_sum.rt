// The statistic of the stratified rank sum test, and both ways to it.
ghost use Rattle.std.specs.Prelude.{◌≡◌, IfOk};
ghost use Rattle.sample_reader.specs.Data.{strata_data_of};
ghost use Rattle.stratified_ranks.specs.RankMade.{AreRanked};

use crate::part_numbers::first_labels;
use crate::rank_made::RankedStrata;
use crate::rank_measure::RankMeasure;
use crate::rank_rooms::RankRooms;
use crate::rank_stages::RankStages;
use enumerate::next_joined;
use labelled::UnweightedTest;
use networks::Judge;
use room_network::{FromScalar, RoomNetwork};
use sample_reader::{Labels, StrataGroups};
use scores::labelled_sum;
use std::alloc::Global;
use std::marker::Model;
use weights::{Bytes, Ints, NoMemory, Nums, Tail};

/// The sum of the second group's ranks, each among the values of its own stratum. It is seen as the
/// samples that it was prepared of.
#[derive(Drop)]
pub struct StrataRankSum {
    // What it was prepared of, by which contracts name it.
    strata: Labels,
    labels: Labels,
    places: Nums,
    members: Nums,
    values: Ints,
    made: RankedStrata,
}

impl Model for StrataRankSum {
    ghost use Rattle.sample_reader.specs.StrataGroups.{StrataGroupData};
    ghost use Rattle.stratified_ranks.specs.RankMade.{AreRanked, samples_of};

    ghost Value = { StrataGroupData };

    ghost view = { λ s. samples_of s.strata s.labels s.places s.members s.values };

    ghost invariant = { λ s.
        AreRanked (samples_of s.strata s.labels s.places s.members s.values) s.made };
}

impl StrataRankSum {
    /// That of samples of which this was made.
    pub(crate) fn of(samples: &StrataGroups, made: RankedStrata) -> Result<StrataRankSum, NoMemory>
        requires { AreRanked (strata_data_of samples.now) made }
        ensures { IfOk result (λ sum. sum ≡ strata_data_of samples.now) }
    {
        Ok(StrataRankSum {
            strata: samples.strata.copy()?,
            labels: samples.labels.copy()?,
            places: samples.places.copy()?,
            members: samples.members.copy()?,
            values: samples.values.copy()?,
            made,
        })
    }

    // What was made of the samples.
    fn made(&self) -> &RankedStrata
        ensures { AreRanked self.now result.now }
    {
        &self.made
    }
}

impl UnweightedTest for StrataRankSum {
    ghost use Rattle.stratified_ranks.specs.RankNetworks.{ranked_strata_network};
    ghost use Rattle.stratified_ranks.specs.StratifiedRanks.{strata_subjects, stratified_rank_test};

    type Built = RankStages;

    ghost test = { stratified_rank_test };

    ghost network = { λ samples. ranked_strata_network (strata_subjects samples) };

    ghost running = { λ samples. ranked_strata_network (strata_subjects samples) };

    fn sound(&self) {
        let _made = self.made();
    }

    fn first(&self, alloc: Global) -> Result<Bytes, NoMemory> {
        first_labels(alloc, self.made().strata.parts.as_slice())
    }

    fn next(&self, labels: &mut Bytes) -> bool {
        next_joined(self.made().sizes.as_slice(), labels.as_mut_slice())
    }

    fn value(&self, labels: &[u8]) -> i128 {
        labelled_sum(self.made().strata.ranks.as_slice(), labels, 1)
    }

    fn has_tail(&self, _tail: Tail) -> bool {
        true
    }

    fn stages_of(&self, alloc: Global, judge: Judge) -> Result<Self::Built, NoMemory> {
        let made = self.made();
        let rooms = RankRooms::new(alloc, made.strata.columns.copy()?)?;
        let columns = made.strata.columns.copy()?;
        let measure = RankMeasure { columns, judge };
        let network = RoomNetwork::new(rooms, FromScalar::new(measure));
        Ok(RankStages { network })
    }
}
