// The reports of the tests of strata of tables of two by two.
ghost use Rattle.std.specs.Prelude.{◌≡◌, None, Ok, IfErr, IfOk, IfSome};
ghost use Rattle.record_reader.specs.Layouts.{MayPick};
ghost use Rattle.weights.specs.Odds.{IsOdds};
ghost use Rattle.weights.specs.Wide.{Prepares};
ghost use Rattle.stratified_tests.specs.StrataTests.{data_of, strata_test, tails_with};
ghost use Rattle.run_outcome.specs.CauseSteps.{Fulfils, IsCauseOf};
ghost use Rattle.run_outcome.specs.Outcome.{tails_by};
ghost use Rattle.exact_run.specs.StrataQuestions.{strata_cells_of, stratified_of, strata_sizes, zelen_of};

use crate::layouts::layout_refusal;
use crate::prepared_reports::{report_homogeneity, report_strata};
use crate::sums::cell_sum;
use homogeneity::prepare_zelen;
use record_reader::Rows;
use report::{Extra, Refusal, Sizes};
use run_outcome::{ALL, Heading, ONE_SIDED, Request, TWO};
use settings::Settings;
use std::alloc::Global;
use stratified_tests::{StrataTest, prepare, prepare_odds};
use table_reader::{Strata, strata};
use weights::{Bytes, Odds, PrepareFault, Tails};

// The strata of the rows, or the refusal of their fault.
fn strata_read(alloc: Global, settings: &Settings, rows: &Rows) -> Result<Strata, Refusal>
    requires { MayPick 5 5 settings.now.picks }
    ensures ok { IfOk result (λ strata. strata_cells_of settings.now rows.now ≡ Ok strata.cells) }
    ensures err { IfErr result (IsCauseOf (strata_cells_of settings.now rows.now)) }
{
    strata(alloc, rows, &settings.picks).map_err(layout_refusal)
}

// The sizes of strata of a file.
fn heading_of(strata: &Strata) -> Heading
    ensures sizes { result.sizes ≡ strata_sizes strata.now.cells }
    ensures dropped { result.dropped ≡ None }
    ensures extra { result.extra ≡ Extra.None }
{
    Heading {
        sizes: Sizes::Strata {
            strata: strata.cells.len() as u64 / 4,
            sum: cell_sum(strata.cells.as_slice()),
        },
        dropped: None,
        extra: Extra::None,
    }
}

// The test of the strata, prepared with odds where they are given.
fn prepared(alloc: Global, odds: Option<Odds>, strata: &Strata) -> Result<StrataTest, PrepareFault>
    requires { IfSome odds IsOdds }
    ensures { Prepares strata_test (data_of odds strata.now.cells) result }
{
    match odds {
        None => prepare(alloc, strata),
        Some(odds) => prepare_odds(alloc, odds, strata),
    }
}

// The tails that the test has.
fn tails_of(odds: Option<Odds>) -> Tails
    ensures { result ≡ tails_by (tails_with odds) }
{
    match odds {
        None => ALL,
        Some(_) => ONE_SIDED,
    }
}

/// The report of the test of strata, with odds where they are given, or the refusal.
pub(crate) fn strata_report(alloc: Global, request: &Request) -> Result<Bytes, Refusal>
    requires picks { MayPick 5 5 request.now.settings.now.picks }
    requires odds { IfSome request.now.settings.now.odds IsOdds }
    ensures { Fulfils request.now stratified_of result }
{
    let strata = strata_read(alloc, request.settings, request.rows)?;
    let problem = prepared(alloc, request.settings.odds, &strata);
    let tails = tails_of(request.settings.odds);
    report_strata(alloc, request.asking, &heading_of(&strata), tails, problem)
}

/// The report of the test of equal odds ratios in strata, or the refusal.
pub(crate) fn zelen_report(alloc: Global, request: &Request) -> Result<Bytes, Refusal>
    requires { MayPick 5 5 request.now.settings.now.picks }
    ensures { Fulfils request.now zelen_of result }
{
    let strata = strata_read(alloc, request.settings, request.rows)?;
    let heading = heading_of(&strata);
    let problem = prepare_zelen(alloc, &strata);
    report_homogeneity(alloc, request.asking, &heading, TWO, problem)
}
