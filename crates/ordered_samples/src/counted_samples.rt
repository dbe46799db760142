// Ordered groups by columns of tied subjects.
ghost use Rattle.std.specs.Prelude.{◌≡◌, ◌≤◌, IfOk};
ghost use Rattle.weights.specs.Labellings.{number_of_labellings};
ghost use Rattle.weights.specs.declared.TheConstants.{MAX};
ghost use Rattle.sample_reader.specs.Data.{data_of};
ghost use Rattle.sample_reader.specs.PooledSample.{pooled};
ghost use Rattle.ordered_samples.specs.UmbrellaSteps.{AreCounted};

use crate::used_pairs::{UsedPair, used_pairs};
use pooled_columns::column_sizes;
use sample_reader::{Groups, Subject, values};
use std::alloc::Global;
use weights::{NoMemory, Nums};

/// Ordered groups, whose pooled subjects are counted by columns.
#[derive(Drop)]
pub(crate) struct CountedSamples {
    /// How many subjects each group has.
    pub sizes: Nums,
    /// The pairs of groups that are compared.
    pub pairs: Vec<UsedPair>,
    /// How many subjects have each distinct value, ascending.
    pub columns: Nums,
}

/// Groups in their order, with this peak, whose pooled subjects these are.
pub(crate) fn made_of(
    alloc: Global,
    peak: u64,
    groups: &Groups,
    subjects: &[Subject],
) -> Result<CountedSamples, NoMemory>
    requires subjects { subjects.now ≡ pooled (data_of groups.now) }
    requires fits { number_of_labellings groups.now.sizes ≤ MAX }
    ensures { IfOk result (AreCounted (record { peak = peak; groups = data_of groups.now })) }
{
    let sizes = groups.sizes.copy()?;
    let pairs = used_pairs(alloc, peak, sizes.as_slice().len())?;
    let values = values(alloc, subjects)?;
    let columns = column_sizes(alloc, values.as_slice())?;
    Ok(CountedSamples {
        sizes,
        pairs,
        columns,
    })
}
