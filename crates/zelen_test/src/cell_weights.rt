// Products of the weights of first cells.
ghost use Rattle.std.specs.Prelude.{◌≡◌, ◌≤◌, Contains};
ghost use Rattle.weights.specs.declared.TheConstants.{MAX};
ghost use Rattle.strata_cells.specs.Strata.{cells_of, cells_weight, strata_labellings};
ghost use Rattle.strata_cells.specs.StrataLimits.{AreSmall};
ghost use Rattle.zelen_test.specs.ZelenMade.{own_cells};

use crate::sum_counts::weight_of;
use strata_cells::{Stratum, stratum_cell};

/// How many labellings give the first cells of the strata as they are.
pub(crate) fn own_weight(strata: &[Stratum]) -> u128
    requires small { AreSmall strata.now }
    requires fits { cells_weight strata.now (own_cells strata.now) ≤ MAX }
    ensures { result ≡ cells_weight strata.now (own_cells strata.now) }
{
    let mut product = 1;
    for stratum in strata {
        product *= weight_of(*stratum, stratum.a);
    }
    product
}

/// How many labellings give the first cells that a labelling gives.
pub(crate) fn labels_weight(strata: &[Stratum], labels: &[u8]) -> u128
    requires small { AreSmall strata.now }
    requires member { Contains (strata_labellings strata.now) labels.now }
    requires fits { cells_weight strata.now (cells_of strata.now labels.now) ≤ MAX }
    ensures { result ≡ cells_weight strata.now (cells_of strata.now labels.now) }
{
    let mut product = 1;
    let mut later = labels;
    for stratum in strata {
        product *= weight_of(*stratum, stratum_cell(*stratum, later));
        later = &later[later.len().min(stratum.size() as usize)..];
    }
    product
}
