// A table that is prepared for Fisher's test with odds.
ghost use Rattle.std.specs.Prelude.{◌≡◌, ◌≤◌, true, Contains, SomeIff};
ghost use Rattle.weights.specs.declared.TheConstants.{MAX};
ghost use Rattle.weights.specs.Labellings.{labellings};
ghost use Rattle.weights.specs.Wide.{Prepares};
ghost use Rattle.table_reader.specs.Data.{table_data_of};
ghost use Rattle.table_sums.specs.Tables.{column_sums, is_two_by_two, row_sums};
ghost use Rattle.weights.specs.Odds.{IsOdds};
ghost use Rattle.two_by_two.specs.FisherOdds.{odds_test};
ghost use Rattle.two_by_two.specs.OddsSteps.{IsWeightedTable, OddsFacts, OddsLabels};
ghost use Rattle.two_by_two.specs.OddsSteps.{odds_total, weighted_of};

use crate::odds_weights::weigh_cells;
use fisher_test::FisherTable;
use std::alloc::Global;
use std::marker::Model;
use table_reader::Table;
use weights::{Odds, PrepareFault, WideOf};

/// Fisher's exact test of a table of two rows and two columns with odds. It is seen as the table
/// and the odds that it was prepared of.
#[derive(Drop)]
pub struct OddsTable {
    fisher: FisherTable,
    odds: Odds,
    // What all labellings weigh.
    total: u128,
}

impl Model for OddsTable {
    ghost use Rattle.two_by_two.specs.FisherOdds.{WeightedTable};
    ghost use Rattle.two_by_two.specs.OddsSteps.{IsWeightedTable, weighted_of};

    ghost Value = { WeightedTable };

    ghost view = { λ t. weighted_of t.fisher t.odds };

    ghost invariant = { λ t. IsWeightedTable (weighted_of t.fisher t.odds) t.total };
}

// What all labellings of a table weigh, or None exactly where that passes the greatest weight.
fn weigh_all(odds: Odds, fisher: &FisherTable) -> Option<u128>
    requires square { is_two_by_two fisher.now ≡ true }
    requires odds { IsOdds odds }
    ensures { let all = odds_total odds (column_sums fisher.now) (row_sums fisher.now) in
        SomeIff result (all ≤ MAX) all }
{
    fisher.facts();
    let columns = fisher.column_sums();
    weigh_cells(odds, columns[0], columns[1], fisher.row_sums()[0])
}

impl OddsTable {
    /// Prepares Fisher's exact test of a table of two rows and two columns with odds.
    ///
    /// # Errors
    /// `TooWide(Total)` where the labellings weigh more than `weights::MAX` in all. Or else
    /// `NoMemory` where memory runs out.
    pub fn prepare(alloc: Global, odds: Odds, table: &Table) -> Result<OddsTable, PrepareFault>
        requires square { is_two_by_two (table_data_of table.now) ≡ true }
        requires odds { IsOdds odds }
        ensures { Prepares odds_test (weighted_of (table_data_of table.now) odds) result }
    {
        let fisher = FisherTable::prepare(alloc, table)?;
        fisher.facts();
        let Some(total) = weigh_all(odds, &fisher) else {
            return Err(PrepareFault::TooWide(WideOf::Total));
        };
        Ok(OddsTable {
            fisher,
            odds,
            total,
        })
    }

    /// The test without odds.
    pub(crate) fn fisher(&self) -> &FisherTable
        ensures { result.now ≡ self.now.table }
    {
        &self.fisher
    }

    /// The odds.
    pub(crate) fn odds(&self) -> Odds
        ensures { result ≡ self.now.odds }
    {
        self.odds
    }

    /// What all labellings weigh.
    pub(crate) fn total(&self) -> u128
        ensures kept { IsWeightedTable self.now result }
        ensures facts { OddsFacts self.now result }
    {
        self.total
    }

    /// What is known of a labelling of it. It does nothing.
    #[inline(always)]
    pub(crate) fn label_facts(&self, _labels: &[u8])
        requires { Contains (labellings (row_sums self.now.table)) _labels.now }
        ensures { OddsLabels self.now _labels.now }
    {
        let _total = self.total();
    }
}
