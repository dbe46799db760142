// The reports of the tests of tables of counts.
ghost use Rattle.std.specs.Prelude.{◌≡◌, ◌≤◌, pos, length, map, None, Ok, IfErr, IfOk, IfSome};
ghost use Rattle.std.specs.List.{range_with_len};
ghost use Rattle.record_reader.specs.Layouts.{MayPick};
ghost use Rattle.weights.specs.Odds.{IsOdds};
ghost use Rattle.table_reader.specs.Data.{table_data_of};
ghost use Rattle.table_reader.specs.Kept.{HasShape};
ghost use Rattle.table_reader.specs.TableLayout.{table_shape};
ghost use Rattle.table_reader.specs.declared.TheConstants.{MOST_TABLE_COLUMNS};
ghost use Rattle.settings.specs.Usable.{AreWithin};
ghost use Rattle.settings.specs.Values.{column_scores_form, row_scores_form};
ghost use Rattle.run_outcome.specs.CauseSteps.{Answers, Fulfils, IsCauseOf};
ghost use Rattle.run_outcome.specs.Outcome.{HasParts};
ghost use Rattle.exact_run.specs.TableQuestions.{fisher_of, fisher_question, fitting_scores, linear_of, mcnemar_of, odds_question, scores_or_numbers, table_of, table_sizes};

use crate::layouts::layout_refusal;
use crate::prepared_reports::{report_one_sample, report_table};
use crate::sums::cell_sum;
use one_sample_tests::prepare_mcnemar;
use record_reader::Rows;
use report::{Extra, Refusal, Sizes};
use run_outcome::{ALL, Asking, Heading, ONE_SIDED, Request};
use settings::{Nums64, OptionName, Settings};
use std::alloc::Global;
use table_reader::{Table, table};
use table_tests::{fisher_tails, is_two_by_two, prepare_fisher, prepare_linear, prepare_odds};
use weights::{Bytes, NoMemory, Odds};

// The table of the rows, or the refusal of its fault.
fn table_of(
    alloc: Global,
    two_by_two: bool,
    settings: &Settings,
    rows: &Rows,
) -> Result<Table, Refusal>
    requires { let shape = table_shape two_by_two in
        MayPick shape.narrowest shape.widest settings.now.picks }
    ensures ok { IfOk result (λ table.
        table_of two_by_two settings.now rows.now ≡ Ok (table_data_of table)) }
    ensures shape { IfOk result (λ table.
        HasShape (table_shape two_by_two) (table_data_of table)) }
    ensures err { IfErr result (IsCauseOf (table_of two_by_two settings.now rows.now)) }
{
    table(alloc, rows, &settings.picks, two_by_two).map_err(layout_refusal)
}

// The sizes of a table of a file.
fn heading_of(table: &Table) -> Heading
    ensures sizes { result.sizes ≡ table_sizes (table_data_of table.now) }
    ensures dropped { result.dropped ≡ None }
    ensures extra { result.extra ≡ Extra.None }
{
    Heading {
        sizes: Sizes::Table {
            rows: table.rows,
            columns: table.columns,
            sum: cell_sum(table.cells.as_slice()),
        },
        dropped: None,
        extra: Extra::None,
    }
}

/// The report of McNemar's test, or the refusal.
pub(crate) fn mcnemar_report(alloc: Global, request: &Request) -> Result<Bytes, Refusal>
    requires { MayPick 2 2 request.now.settings.now.picks }
    ensures { Fulfils request.now mcnemar_of result }
{
    let table = table_of(alloc, true, request.settings, request.rows)?;
    let problem = prepare_mcnemar(alloc, &table);
    report_one_sample(alloc, request.asking, &heading_of(&table), ALL, problem)
}

// The report of Fisher's exact test of a table without odds, or the refusal.
fn central_report(alloc: Global, asking: Asking, table: &Table) -> Result<Bytes, Refusal>
    requires parts { HasParts asking }
    ensures { Answers asking (Ok (fisher_question (table_data_of table.now))) result }
{
    let problem = prepare_fisher(alloc, table);
    let tails = fisher_tails(table);
    report_table(alloc, asking, &heading_of(table), tails, problem)
}

// The report of Fisher's exact test of a table with odds, or the refusal.
fn odds_report(alloc: Global, asking: Asking, odds: Odds, table: &Table) -> Result<Bytes, Refusal>
    requires parts { HasParts asking }
    requires odds { IsOdds odds }
    ensures { Answers asking (odds_question odds (table_data_of table.now)) result }
{
    if !is_two_by_two(table) {
        return Err(Refusal::Unfit(OptionName::Tail));
    }
    let problem = prepare_odds(alloc, odds, table);
    report_table(alloc, asking, &heading_of(table), ONE_SIDED, problem)
}

/// The report of Fisher's exact test, with odds where they are given, or the refusal.
pub(crate) fn fisher_report(alloc: Global, request: &Request) -> Result<Bytes, Refusal>
    requires picks { MayPick 2 MOST_TABLE_COLUMNS request.now.settings.now.picks }
    requires odds { IfSome request.now.settings.now.odds IsOdds }
    ensures { Fulfils request.now fisher_of result }
{
    let table = table_of(alloc, false, request.settings, request.rows)?;
    match request.settings.odds {
        None => central_report(alloc, request.asking, &table),
        Some(odds) => odds_report(alloc, request.asking, odds, &table),
    }
}

// The scores that are given for so many rows or columns, or the refusal where they do not fit.
fn fitting_scores(
    alloc: Global,
    name: OptionName,
    count: u64,
    given: &Nums64,
) -> Result<Nums64, Refusal>
    requires { count ≤ MOST_TABLE_COLUMNS }
    ensures ok { IfOk result (λ scores. fitting_scores name count given.now ≡ Ok scores) }
    ensures err { IfErr result (IsCauseOf (fitting_scores name count given.now)) }
{
    let scores = match scores_or_numbers(alloc, count, given) {
        Ok(scores) => scores,
        Err(_) => return Err(Refusal::NoMemory),
    };
    if scores.len() as u64 != count {
        return Err(Refusal::Unfit(name));
    }
    Ok(scores)
}

// The scores that are given, or 1, 2, 3 and so on.
fn scores_or_numbers(alloc: Global, count: u64, given: &Nums64) -> Result<Nums64, NoMemory>
    requires { count ≤ MOST_TABLE_COLUMNS }
    ensures { IfOk result (λ scores. scores ≡ scores_or_numbers count given.now) }
{
    if given.len() > 0 {
        return given.copy();
    }
    numbers(alloc, count)
}

fn signed(number: u64) -> i64
    requires { number ≤ MOST_TABLE_COLUMNS }
    ensures { result ≡ pos number }
{
    number as i64
}

// The numbers 1, 2, 3 and so on, so many of them.
fn numbers(alloc: Global, count: u64) -> Result<Nums64, NoMemory>
    requires { count ≤ MOST_TABLE_COLUMNS }
    ensures { IfOk result (λ numbers. numbers ≡ map pos (range_with_len 1 count)) }
{
    let mut numbers = Nums64::empty(alloc);
    for number in 1..count + 1 {
        numbers.push(signed(number))?;
    }
    Ok(numbers)
}

/// The report of the linear-by-linear test, or the refusal.
pub(crate) fn linear_report(alloc: Global, request: &Request) -> Result<Bytes, Refusal>
    requires picks { MayPick 2 MOST_TABLE_COLUMNS request.now.settings.now.picks }
    requires row_scores { AreWithin row_scores_form request.now.settings.now.row_scores }
    requires column_scores { AreWithin column_scores_form request.now.settings.now.column_scores }
    ensures { Fulfils request.now linear_of result }
{
    let table = table_of(alloc, false, request.settings, request.rows)?;
    let of_rows = OptionName::RowScores;
    let of_columns = OptionName::ColumnScores;
    let row_scores = fitting_scores(alloc, of_rows, table.rows, &request.settings.row_scores)?;
    let column_scores = fitting_scores(
        alloc,
        of_columns,
        table.columns,
        &request.settings.column_scores,
    )?;
    let problem = prepare_linear(
        alloc,
        &table,
        row_scores.as_slice(),
        column_scores.as_slice(),
    );
    report_table(alloc, request.asking, &heading_of(&table), ALL, problem)
}
