// Ordered groups that are prepared for their test.
ghost use Rattle.std.specs.Prelude.{◌≡◌};
ghost use Rattle.weights.specs.Wide.{Prepares};
ghost use Rattle.sample_reader.specs.Data.{data_of};
ghost use Rattle.ordered_samples.specs.Umbrella.{umbrella_test};
ghost use Rattle.ordered_samples.specs.UmbrellaSteps.{AreCounted};

use crate::counted_samples::{CountedSamples, made_of};
use crate::pair_counts::PairCounts;
use crate::pair_points::{labelling_points, signed, subject_pairs};
use crate::pair_stages::PairStages;
use concordant_pairs::{are_distinct, concordant_sums};
use label_network::label_stages;
use labelled::{LabelStatistic, Labelled};
use networks::{Judge, TailSums};
use pooled_columns::labels_in;
use room_network::FromScalar;
use sample_reader::{Groups, Labels, pooled_subjects};
use stage_network::tail_sums_by_rooms;
use std::alloc::Global;
use std::marker::Model;
use weights::{Ints, NoMemory, Nums, PrepareFault, Tail, Tails, WideOf, multinomial};

/// A test of groups that rise up to a peak and fall from there on, whose data are checked.
pub type Umbrella = Labelled<PeakedSamples>;

/// The count over the pairs of groups that are compared. It is seen as the peak and the groups that
/// it was prepared of.
#[derive(Drop)]
pub struct PeakedSamples {
    // What it was prepared of, by which contracts name it.
    peak: u64,
    labels: Labels,
    members: Nums,
    values: Ints,
    made: CountedSamples,
}

impl Model for PeakedSamples {
    ghost use Rattle.ordered_samples.specs.Umbrella.{PeakedGroups, peaked_groups_of};
    ghost use Rattle.ordered_samples.specs.UmbrellaSteps.{AreCounted};

    ghost Value = { PeakedGroups };

    ghost view = { λ t. peaked_groups_of t.peak t.labels t.members t.values };

    ghost invariant = { λ t.
        AreCounted (peaked_groups_of t.peak t.labels t.members t.values) t.made };
}

impl PeakedSamples {
    // What was made of the groups.
    fn made(&self) -> &CountedSamples
        ensures { AreCounted self.now result.now }
    {
        &self.made
    }
}

/// Prepares groups with this peak.
pub fn prepare(alloc: Global, peak: u64, groups: &Groups) -> Result<Umbrella, PrepareFault>
    ensures { Prepares umbrella_test
        (record { peak = peak; groups = data_of groups.now }) result }
{
    let Some(total) = multinomial(groups.sizes.as_slice()) else {
        return Err(PrepareFault::TooWide(WideOf::Total));
    };
    let pooled = pooled_subjects(alloc, groups)?;
    let observed = labels_in(alloc, &pooled)?;
    let made = made_of(alloc, peak, groups, &pooled)?;
    let centre = signed(subject_pairs(made.pairs.as_slice(), made.sizes.as_slice()));
    let samples = PeakedSamples {
        peak,
        labels: groups.labels.copy()?,
        members: groups.members.copy()?,
        values: groups.values.copy()?,
        made,
    };
    Ok(Labelled::new(samples, observed.as_slice(), 2, 1, centre, total))
}

impl LabelStatistic for PeakedSamples {
    ghost use Rattle.label_network.specs.LabelNetwork.{label_network};
    ghost use Rattle.ordered_samples.specs.PairCounts.{umbrella_meaning};
    ghost use Rattle.ordered_samples.specs.Umbrella.{umbrella_says};

    type Built = PairStages;

    ghost says = { umbrella_says };

    ghost network = { λ samples. label_network (umbrella_meaning samples) };

    ghost running = { λ samples. label_network (umbrella_meaning samples) };

    fn sound(&self) {
        let _made = self.made();
    }

    fn sizes(&self) -> &[u64] {
        self.made().sizes.as_slice()
    }

    fn value(&self, labels: &[u8]) -> i128 {
        let made = self.made();
        labelling_points(
            made.pairs.as_slice(),
            made.sizes.as_slice(),
            made.columns.as_slice(),
            labels,
        )
    }

    fn has_tail(&self, _tail: Tail) -> bool {
        true
    }

    fn stages_of(&self, alloc: Global, judge: Judge) -> Result<Self::Built, NoMemory> {
        let made = self.made();
        let rows = made.sizes.as_slice();
        let columns = made.columns.as_slice();
        let measure = PairCounts::new(alloc, made.pairs.as_slice(), rows, columns, judge)?;
        let labels = label_stages(alloc, columns, rows, FromScalar::new(measure))?;
        Ok(PairStages { labels })
    }

    // Where all groups rise and no two subjects are equal, by how many pairs rise.
    fn numerators(&self, alloc: Global, judge: Judge, tails: Tails) -> Result<TailSums, NoMemory> {
        let made = self.made();
        let sizes = made.sizes.as_slice();
        if sizes.len() as u64 <= self.peak && are_distinct(made.columns.as_slice()) {
            return concordant_sums(alloc, sizes, 0, 2, &judge);
        }
        let stages = self.quick_stages_of(alloc, judge)?;
        let sums = tail_sums_by_rooms(alloc, &stages, tails)?;
        Ok(sums)
    }
}
