// The tests of a table, under one type.
ghost use Rattle.std.specs.Prelude.{◌≡◌, length, true};
ghost use Rattle.weights.specs.Wide.{Prepares};
ghost use Rattle.table_reader.specs.Data.{table_data_of};
ghost use Rattle.table_sums.specs.Tables.{is_two_by_two};
ghost use Rattle.weights.specs.Odds.{IsOdds};
ghost use Rattle.table_sums.specs.TableSteps.{AreScores};
ghost use Rattle.two_by_two.specs.OddsSteps.{weighted_of};
ghost use Rattle.linear_by_linear.specs.LinearSteps.{scored_of};
ghost use Rattle.table_tests.specs.TableTests.{table_test};

use fisher_test::FisherTable;
use linear_by_linear::LinearTable;
use networks::OneOf;
use std::alloc::Global;
use table_reader::Table;
use two_by_two::OddsTable;
use weights::{Odds, PrepareFault};

/// A test of a table whose data are checked: Fisher's exact test, the linear-by-linear test, or
/// Fisher's exact test of a table of two rows and two columns with odds.
pub type TableTest = OneOf<OneOf<FisherTable, LinearTable>, OddsTable>;

/// Prepares Fisher's exact test of a table.
///
/// # Errors
/// `TooWide(Total)` where there are more labellings of the subjects than `weights::MAX`. Or else
/// `NoMemory` where memory runs out.
pub fn prepare_fisher(alloc: Global, table: &Table) -> Result<TableTest, PrepareFault>
    ensures { Prepares table_test (OneOf.First (OneOf.First (table_data_of table.now))) result }
{
    let fisher = FisherTable::prepare(alloc, table)?;
    Ok(OneOf::First(OneOf::First(fisher)))
}

/// Prepares the linear-by-linear test of a table with these scores of its rows and its columns.
///
/// # Errors
/// `TooWide(Total)` where there are more labellings of the subjects than `weights::MAX`. Or else
/// `NoMemory` where memory runs out.
pub fn prepare_linear(
    alloc: Global,
    table: &Table,
    row_scores: &[i64],
    column_scores: &[i64],
) -> Result<TableTest, PrepareFault>
    requires rows_level { length row_scores.now ≡ table.now.rows }
    requires columns_level { length column_scores.now ≡ table.now.columns }
    requires rows { AreScores row_scores.now }
    requires columns { AreScores column_scores.now }
    ensures { let scored = scored_of (table_data_of table.now) row_scores.now column_scores.now in
        Prepares table_test (OneOf.First (OneOf.Second scored)) result }
{
    let linear = linear_by_linear::prepare(alloc, table, row_scores, column_scores)?;
    Ok(OneOf::First(OneOf::Second(linear)))
}

/// Prepares Fisher's exact test of a table of two rows and two columns with odds, its noncentral
/// form (Fisher, The Logic of Inductive Inference, Journal of the Royal Statistical Society 98,
/// 1935). Each number of the odds is 1 to 1000. A labelling whose first cell is x weighs `above` to
/// the power of x, times `below` to the power of n - x, where n is the sum of the first row. The
/// test has the tails `less` and `greater` alone.
///
/// # Errors
/// `TooWide(Total)` where the labellings weigh more than `weights::MAX` in all. Or else `NoMemory`
/// where memory runs out.
pub fn prepare_odds(alloc: Global, odds: Odds, table: &Table) -> Result<TableTest, PrepareFault>
    requires square { is_two_by_two (table_data_of table.now) ≡ true }
    requires odds { IsOdds odds }
    ensures { let weighted = weighted_of (table_data_of table.now) odds in
        Prepares table_test (OneOf.Second weighted) result }
{
    Ok(OneOf::Second(OddsTable::prepare(alloc, odds, table)?))
}
