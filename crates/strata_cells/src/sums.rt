// Sums over strata.
ghost use Rattle.std.specs.Prelude.{◌≡◌, ◌≤◌, length};
ghost use Rattle.std.specs.List.{sum_by};
ghost use Rattle.record_reader.specs.declared.TheConstants.{MOST_ROWS};
ghost use Rattle.strata_cells.specs.Strata.{first_row, size};
ghost use Rattle.strata_cells.specs.StrataLimits.{AreSmall};

use crate::stratum::Stratum;

/// How many subjects all strata have.
pub fn subjects(strata: &[Stratum]) -> u64
    requires small { AreSmall strata.now }
    requires few { length strata.now ≤ MOST_ROWS }
    ensures { result ≡ sum_by size strata.now }
{
    let mut all = 0;
    for stratum in strata {
        all += stratum.size();
    }
    all
}

/// How many subjects the first rows have.
pub fn first_rows(strata: &[Stratum]) -> u64
    requires small { AreSmall strata.now }
    requires few { length strata.now ≤ MOST_ROWS }
    ensures { result ≡ sum_by first_row strata.now }
{
    let mut all = 0;
    for stratum in strata {
        all += stratum.first_row();
    }
    all
}

/// The sum of the first cells of the strata as they are.
pub fn own_sum(strata: &[Stratum]) -> u64
    requires small { AreSmall strata.now }
    requires few { length strata.now ≤ MOST_ROWS }
    ensures { result ≡ sum_by (λ s. s.a) strata.now }
{
    let mut all = 0;
    for stratum in strata {
        all += stratum.a;
    }
    all
}
