// The public calls of `table_tests`.
ghost use Rattle.std.specs.Prelude.{◌≡◌, IfOk, length, true, ◌*◌, ◌≤◌, All};
ghost use Rattle.networks.specs.Completions.{extreme_weight, total_weight};
ghost use Rattle.networks.specs.Follows.{answer_of, open_keys};
ghost use Rattle.networks.specs.Lines.{WeightsFit};
ghost use Rattle.table_reader.specs.Data.{table_data_of};
ghost use Rattle.table_reader.specs.TableLayout.{TableData};
ghost use Rattle.two_by_two.specs.OddsSteps.{weighted_of};
ghost use Rattle.table_sums.specs.TableSteps.{AreScores};
ghost use Rattle.linear_by_linear.specs.LinearSteps.{scored_of};
ghost use Rattle.table_tests.specs.TableTests.{table_network, table_test};
ghost use Rattle.table_sums.specs.Tables.{is_two_by_two};
ghost use Rattle.weights.specs.Conditional.{distribution, numerator, total};
ghost use Rattle.weights.specs.Odds.{IsOdds};
ghost use Rattle.weights.specs.Wide.{Prepares};
ghost use Rattle.networks.specs.declared.one_of.OneOf.TheVariants.{First, Second};

use crate::table_reader_calls::table_of;
use stage_network::{Answer, PrepareFault, Spread, Stages, Way};
use std::alloc::Global;
use table_reader::Table;
use table_tests::{TableStages, TableTest};
use weights::{NoMemory, Nums, Odds, Tail, Tails};

/// Fisher's test, or which number is too wide.
pub fn prepare_fisher(alloc: Global, table: &Table) -> Result<TableTest, PrepareFault>
    ensures { Prepares table_test (First (First (table_data_of table.now))) result }
{
    table_tests::prepare_fisher(alloc, table)
}

/// A linear test, or which number is too wide.
pub fn prepare_linear(
    alloc: Global,
    table: &Table,
    row_scores: &[i64],
    column_scores: &[i64],
) -> Result<TableTest, PrepareFault>
    requires rows_level { length row_scores.now ≡ table.now.rows }
    requires columns_level { length column_scores.now ≡ table.now.columns }
    requires rows { AreScores row_scores.now }
    requires columns { AreScores column_scores.now }
    ensures { let scored = scored_of (table_data_of table.now) row_scores.now column_scores.now in
        Prepares table_test (First (Second scored)) result }
{
    table_tests::prepare_linear(alloc, table, row_scores, column_scores)
}

/// Fisher's test with odds, or which number is too wide.
pub fn prepare_odds(alloc: Global, odds: Odds, table: &Table) -> Result<TableTest, PrepareFault>
    requires square { is_two_by_two (table_data_of table.now) ≡ true }
    requires odds { IsOdds odds }
    ensures { let weighted = weighted_of (table_data_of table.now) odds in
        Prepares table_test (Second weighted) result }
{
    table_tests::prepare_odds(alloc, odds, table)
}

/// The answer of a test for tails that it has, by either way.
pub fn answer(
    alloc: Global,
    problem: &TableTest,
    tails: Tails,
    way: Way,
) -> Result<Answer, NoMemory>
    requires less { tails.less ≡ true → (table_test problem.now).has_tail Tail.Less ≡ true }
    requires greater { tails.greater ≡ true
        → (table_test problem.now).has_tail Tail.Greater ≡ true }
    requires two { tails.two ≡ true → (table_test problem.now).has_tail Tail.Two ≡ true }
    ensures { let opened = open_keys (table_network problem.now) in
        IfOk result (λ answer.
        answer ≡ answer_of (table_test problem.now) opened tails way) }
{
    table_tests::answer(alloc, problem, tails, way)
}

/// The distribution of a test, by either way.
pub fn distribution(alloc: Global, problem: &TableTest, way: Way) -> Result<Spread, NoMemory>
    ensures lines { IfOk result (λ spread. spread ≡ distribution (table_test problem.now)) }
    ensures weights { IfOk result WeightsFit }
{
    table_tests::distribution(alloc, problem, way)
}

/// The network that runs for a tail that the test has. All completions of its first key weigh the
/// total, and the extreme ones the tail's numerator.
pub fn stages_of(alloc: Global, problem: &TableTest, tail: Tail) -> Result<TableStages, NoMemory>
    requires { (table_test problem.now).has_tail tail ≡ true }
    ensures built { let n = table_network problem.now tail in
        IfOk result (λ built. ⟦<TableStages as Stages>⟧.network built ≡ n) }
    ensures rest { let n = table_network problem.now tail in
        total_weight n 0 n.first ≡ total (table_test problem.now) }
    ensures numerator { let n = table_network problem.now tail in
        extreme_weight n tail 0 n.first ≡ numerator (table_test problem.now) tail }
{
    table_tests::stages_of(alloc, problem, tail)
}

/// Fisher's test of a table of its parts.
pub fn prepared_table(
    alloc: Global,
    rows: u64,
    columns: u64,
    cells: Nums,
) -> Result<TableTest, PrepareFault>
    requires two_rows { 2 ≤ rows }
    requires few_rows { rows ≤ 8 }
    requires two_columns { 2 ≤ columns }
    requires few_columns { columns ≤ 64 }
    requires one_each { length cells ≡ rows * columns }
    requires counts { All (λ cell. cell ≤ 1000000) cells }
    ensures { let table : TableData = record { rows = rows; columns = columns; cells = cells } in
        Prepares table_test (First (First table)) result }
{
    let table = table_of(rows, columns, cells);
    prepare_fisher(alloc, &table)
}
