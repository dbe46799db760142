// The reports of the tests of groups: of two samples, and of several.
ghost use Rattle.std.specs.Prelude.{◌≡◌, ◌≤◌, Ok, IfErr, IfOk, length};
ghost use Rattle.record_reader.specs.Layouts.{MayPick};
ghost use Rattle.weights.specs.Results.{with_fault};
ghost use Rattle.sample_reader.specs.Data.{data_of};
ghost use Rattle.sample_reader.specs.GroupLayout.{groups_in};
ghost use Rattle.run_outcome.specs.CauseSteps.{Fulfils, IsCauseOf};
ghost use Rattle.exact_run.specs.GroupQuestions.{group_rows, groups_of, has_peak, in_asked_order, kruskal_wallis_of, ordered_of, two_samples_of, umbrella_of};
ghost use Rattle.exact_run.specs.Layouts.{layout_refusal};

use crate::layouts::{heading_for, layout_refusal};
use crate::prepared_reports::{report_samples, report_two_samples};
use k_sample_tests::{prepare_kw, prepare_umbrella};
use record_reader::Rows;
use report::{Extra, Refusal, Sizes};
use run_outcome::{ALL, GREATER, Request};
use sample_reader::{Groups, Labels, Layout, OrderFault, groups, reorder};
use scores::ScoreKind;
use settings::{OptionName, Settings};
use std::alloc::Global;
use two_sample_tests::prepare;
use weights::Bytes;

// The most groups of a file that a test takes.
pub(crate) const TWO_SAMPLES: u64 = 2;

const MOST_SAMPLES: u64 = 8;

// The groups of the rows, at most so many, or the refusal of their fault.
fn groups_read(
    alloc: Global,
    most: u64,
    settings: &Settings,
    rows: &Rows,
) -> Result<Groups, Refusal>
    requires picks { MayPick 2 2 settings.now.picks }
    requires two { 2 ≤ most }
    requires eight { most ≤ 8 }
    ensures ok { let found = groups_in most settings.now.missing settings.now.picks rows.now in
        IfOk result (λ groups. with_fault layout_refusal found ≡ Ok (data_of groups)) }
    ensures most { IfOk result (λ groups. length groups.labels ≤ most) }
    ensures err { let found = groups_in most settings.now.missing settings.now.picks rows.now in
        IfErr result (IsCauseOf (with_fault layout_refusal found)) }
{
    groups(alloc, rows, &settings.picks, most, settings.missing).map_err(layout_refusal)
}

// The groups in the order that is asked, or the refusal of an order that does not fit.
fn in_order(alloc: Global, groups: Groups, order: &Labels) -> Result<Groups, Refusal>
    ensures ok { IfOk result (λ ordered.
        in_asked_order order.now (data_of groups) ≡ Ok (data_of ordered)) }
    ensures as_many { IfOk result (λ ordered. length ordered.labels ≡ length groups.labels) }
    ensures err { IfErr result (IsCauseOf (in_asked_order order.now (data_of groups))) }
{
    if order.len() == 0 {
        return Ok(groups);
    }
    match reorder(alloc, &groups, order) {
        Ok(ordered) => Ok(ordered),
        Err(OrderFault::Unfit) => Err(Refusal::Unfit(OptionName::Order)),
        Err(OrderFault::NoMemory) => Err(Refusal::NoMemory),
    }
}

/// The groups in the order used.
pub(crate) fn groups_of(
    alloc: Global,
    most: u64,
    settings: &Settings,
    rows: &Rows,
) -> Result<Groups, Refusal>
    requires picks { MayPick 2 2 settings.now.picks }
    requires two { 2 ≤ most }
    requires eight { most ≤ 8 }
    ensures ok { IfOk result (λ groups.
        groups_of most settings.now rows.now ≡ Ok (data_of groups)) }
    ensures most { IfOk result (λ groups. length groups.labels ≤ most) }
    ensures err { IfErr result (IsCauseOf (groups_of most settings.now rows.now)) }
{
    let groups = groups_read(alloc, most, settings, rows)?;
    in_order(alloc, groups, &settings.order)
}

pub(crate) fn sizes_of(groups: Groups) -> Sizes
    ensures { result ≡ group_rows (data_of groups) }
{
    Sizes::Groups {
        labels: groups.labels,
        sizes: groups.sizes,
    }
}

/// The report of the test of two samples by the scores of a kind, or the refusal.
pub(crate) fn two_sample_report(
    alloc: Global,
    kind: ScoreKind,
    request: &Request,
) -> Result<Bytes, Refusal>
    requires { MayPick 2 2 request.now.settings.now.picks }
    ensures { Fulfils request.now (two_samples_of kind) result }
{
    let groups = groups_of(alloc, TWO_SAMPLES, request.settings, request.rows)?;
    let problem = prepare(alloc, kind, &groups);
    let heading = heading_for(request, sizes_of(groups), Layout::Groups, Extra::None);
    report_two_samples(alloc, request.asking, &heading, ALL, problem)
}

/// The report of the test of Kruskal and Wallis by the scores that are asked, or the refusal.
pub(crate) fn kruskal_wallis_report(alloc: Global, request: &Request) -> Result<Bytes, Refusal>
    requires { MayPick 2 2 request.now.settings.now.picks }
    ensures { Fulfils request.now kruskal_wallis_of result }
{
    let kind = request.settings.scores;
    let groups = groups_of(alloc, MOST_SAMPLES, request.settings, request.rows)?;
    let problem = prepare_kw(alloc, kind, &groups);
    let heading = heading_for(
        request,
        sizes_of(groups),
        Layout::Groups,
        Extra::Scores(kind),
    );
    report_samples(alloc, request.asking, &heading, GREATER, problem)
}

/// The report of the test of ordered groups, or the refusal.
pub(crate) fn ordered_report(alloc: Global, request: &Request) -> Result<Bytes, Refusal>
    requires { MayPick 2 2 request.now.settings.now.picks }
    ensures { Fulfils request.now ordered_of result }
{
    let groups = groups_of(alloc, MOST_SAMPLES, request.settings, request.rows)?;
    let problem = prepare_umbrella(alloc, groups.labels.len() as u64, &groups);
    let heading = heading_for(request, sizes_of(groups), Layout::Groups, Extra::None);
    report_samples(alloc, request.asking, &heading, ALL, problem)
}

// The peak is the number of a group.
fn has_peak(peak: u64, groups: &Groups) -> bool
    ensures { result ≡ has_peak peak (data_of groups.now) }
{
    1 <= peak && peak <= groups.labels.len() as u64
}

/// The report of the test of groups that are ordered up to a peak and down from it, or the refusal.
pub(crate) fn umbrella_report(alloc: Global, request: &Request) -> Result<Bytes, Refusal>
    requires { MayPick 2 2 request.now.settings.now.picks }
    ensures { Fulfils request.now umbrella_of result }
{
    let peak = request.settings.peak;
    let groups = groups_of(alloc, MOST_SAMPLES, request.settings, request.rows)?;
    if !has_peak(peak, &groups) {
        return Err(Refusal::Unfit(OptionName::Peak));
    }
    let problem = prepare_umbrella(alloc, peak, &groups);
    let heading = heading_for(request, sizes_of(groups), Layout::Groups, Extra::Peak(peak));
    report_samples(alloc, request.asking, &heading, ALL, problem)
}
