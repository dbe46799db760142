// Kendall's K of two values of each subject.
ghost use Rattle.std.specs.Prelude.{◌≡◌};
ghost use Rattle.weights.specs.Wide.{Prepares};
ghost use Rattle.sample_reader.specs.Data.{twin_data_of};
ghost use Rattle.kendall_test.specs.Kendall.{kendall_subjects, kendall_test};
ghost use Rattle.kendall_test.specs.KendallMade.{AreMade};

use crate::kendall_made::KendallMade;
use pooled_columns::column_sizes;
use sample_reader::{Subject, Twins, values};
use std::alloc::Global;
use std::marker::Model;
use weights::{PrepareFault, WideOf, multinomial};

/// Kendall's K. It is seen as the two values of each subject that it was prepared of.
#[derive(Drop)]
pub struct PairOrder {
    // What it was prepared of, by which contracts name it, and which the test transposed is made
    // of.
    sample: Twins,
    made: KendallMade,
}

impl Model for PairOrder {
    ghost use Rattle.sample_reader.specs.Twins.{TwinData};
    ghost use Rattle.sample_reader.specs.Data.{twin_data_of};
    ghost use Rattle.kendall_test.specs.KendallMade.{AreMade};

    ghost Value = { TwinData };

    ghost view = { λ t. twin_data_of t.sample };

    ghost invariant = { λ t. AreMade (twin_data_of t.sample) t.made };
}

impl PairOrder {
    /// That of a sample, whose subjects these are.
    pub(crate) fn of(
        alloc: Global,
        sample: Twins,
        subjects: &[Subject],
    ) -> Result<PairOrder, PrepareFault>
        requires { subjects.now ≡ kendall_subjects (twin_data_of sample) }
        ensures { Prepares kendall_test (twin_data_of sample) result }
    {
        let rows = column_sizes(alloc, sample.second.as_slice())?;
        let Some(total) = multinomial(rows.as_slice()) else {
            return Err(PrepareFault::TooWide(WideOf::Total));
        };
        let firsts = values(alloc, subjects)?;
        let columns = column_sizes(alloc, firsts.as_slice())?;
        let made = KendallMade {
            columns,
            rows,
            firsts,
            total,
        };
        Ok(PairOrder { sample, made })
    }

    /// The two values of each subject.
    pub(crate) fn sample(&self) -> &Twins
        ensures { twin_data_of result.now ≡ self.now }
    {
        &self.sample
    }

    /// What was made of the values.
    pub(crate) fn made(&self) -> &KendallMade
        ensures { AreMade self.now result.now }
    {
        &self.made
    }
}
