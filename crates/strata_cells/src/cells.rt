// The first cells that labellings give, and how many give each.
ghost use Rattle.std.specs.Prelude.{◌≡◌, ◌≤◌, length, SomeIff};
ghost use Rattle.weights.specs.declared.TheConstants.{MAX};
ghost use Rattle.record_reader.specs.declared.TheConstants.{MOST_ROWS};
ghost use Rattle.strata_cells.specs.Strata.{cell_weight, first_cells, stratum_cell};
ghost use Rattle.strata_cells.specs.Strata.{greatest_cell, least_cell};
ghost use Rattle.strata_cells.specs.StrataLimits.{AreSmall, IsSmall, labelled};

use crate::stratum::Stratum;
use weights::{binomial, bounded_product, multinomial};

/// How many labellings a stratum has, or None exactly where they pass [`weights::MAX`].
pub fn labelled(stratum: Stratum) -> Option<u128>
    requires { IsSmall stratum }
    ensures { SomeIff result (labelled stratum ≤ MAX) (labelled stratum) }
{
    multinomial(&[stratum.first_row(), stratum.second_row()])
}

/// How many labellings of a stratum give a first cell, or None exactly where they pass
/// [`weights::MAX`].
pub fn cell_weight(stratum: Stratum, cell: u64) -> Option<u128>
    requires small { IsSmall stratum }
    requires least { least_cell stratum ≤ cell }
    requires greatest { cell ≤ greatest_cell stratum }
    ensures { SomeIff result (cell_weight stratum cell ≤ MAX) (cell_weight stratum cell) }
{
    let column = stratum.first_column();
    let left = stratum.first_row() - cell;
    let chosen = binomial(column, cell)?;
    let others = binomial(stratum.size() - column, left)?;
    bounded_product(chosen, others)
}

/// The first cell of the table that a stratum's labels give.
pub fn stratum_cell(stratum: Stratum, labels: &[u8]) -> u64
    requires { IsSmall stratum }
    ensures { result ≡ stratum_cell stratum labels.now }
{
    let column = labels.len().min(stratum.first_column() as usize);
    labels[..column].iter().filter(|label| **label == 0).count() as u64
}

/// The sum of the first cells of the tables that labels give.
pub fn first_cells(strata: &[Stratum], labels: &[u8]) -> u64
    requires small { AreSmall strata.now }
    requires few { length strata.now ≤ MOST_ROWS }
    ensures { result ≡ first_cells strata.now labels.now }
{
    let mut sum = 0;
    let mut later = labels;
    for stratum in strata {
        sum += stratum_cell(*stratum, later);
        later = &later[later.len().min(stratum.size() as usize)..];
    }
    sum
}
