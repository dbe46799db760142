// The report of the rank sum test of two samples in strata.
ghost use Rattle.std.specs.Prelude.{◌≡◌, Ok, IfErr, IfOk};
ghost use Rattle.record_reader.specs.Layouts.{MayPick};
ghost use Rattle.weights.specs.Results.{with_fault};
ghost use Rattle.sample_reader.specs.Data.{strata_data_of};
ghost use Rattle.sample_reader.specs.StrataGroups.{strata_groups_in};
ghost use Rattle.run_outcome.specs.CauseSteps.{Fulfils, IsCauseOf};
ghost use Rattle.exact_run.specs.Layouts.{layout_refusal};
ghost use Rattle.exact_run.specs.StrataGroupQuestions.{in_strata_order, strata_group_sizes, strata_groups_of, stratified_ranks_of};

use crate::layouts::{heading_for, layout_refusal};
use crate::prepared_reports::report_homogeneity;
use homogeneity::prepare_ranks;
use record_reader::Rows;
use report::{Extra, Refusal, Sizes};
use run_outcome::{ALL, Request};
use sample_reader::{Labels, Layout, OrderFault, StrataGroups, reorder_strata, strata_groups};
use settings::{OptionName, Settings};
use std::alloc::Global;
use weights::Bytes;

// The samples of the rows, or the refusal of their fault.
fn samples_read(alloc: Global, settings: &Settings, rows: &Rows) -> Result<StrataGroups, Refusal>
    requires { MayPick 3 3 settings.now.picks }
    ensures ok { let found = strata_groups_in settings.now.missing settings.now.picks rows.now in
        IfOk result (λ samples. with_fault layout_refusal found ≡ Ok (strata_data_of samples)) }
    ensures err { let found = strata_groups_in settings.now.missing settings.now.picks rows.now in
        IfErr result (IsCauseOf (with_fault layout_refusal found)) }
{
    strata_groups(alloc, rows, &settings.picks, settings.missing).map_err(layout_refusal)
}

// The samples in the order that is asked, or the refusal of an order that does not fit.
fn in_order(alloc: Global, samples: StrataGroups, order: &Labels) -> Result<StrataGroups, Refusal>
    ensures ok { IfOk result (λ ordered.
        in_strata_order order.now (strata_data_of samples) ≡ Ok (strata_data_of ordered)) }
    ensures err { IfErr result (IsCauseOf (in_strata_order order.now (strata_data_of samples))) }
{
    if order.len() == 0 {
        return Ok(samples);
    }
    match reorder_strata(alloc, &samples, order) {
        Ok(ordered) => Ok(ordered),
        Err(OrderFault::Unfit) => Err(Refusal::Unfit(OptionName::Order)),
        Err(OrderFault::NoMemory) => Err(Refusal::NoMemory),
    }
}

// The samples in the order used.
fn samples_of(alloc: Global, settings: &Settings, rows: &Rows) -> Result<StrataGroups, Refusal>
    requires { MayPick 3 3 settings.now.picks }
    ensures ok { IfOk result (λ samples.
        strata_groups_of settings.now rows.now ≡ Ok (strata_data_of samples)) }
    ensures err { IfErr result (IsCauseOf (strata_groups_of settings.now rows.now)) }
{
    let samples = samples_read(alloc, settings, rows)?;
    in_order(alloc, samples, &settings.order)
}

fn sizes_of(samples: &StrataGroups) -> Sizes
    ensures { result ≡ strata_group_sizes (strata_data_of samples.now) }
{
    Sizes::Strata {
        strata: samples.strata.len() as u64,
        sum: samples.values.len() as u64,
    }
}

/// The report of the rank sum test of two samples in strata, or the refusal.
pub(crate) fn stratified_rank_report(alloc: Global, request: &Request) -> Result<Bytes, Refusal>
    requires { MayPick 3 3 request.now.settings.now.picks }
    ensures { Fulfils request.now stratified_ranks_of result }
{
    let samples = samples_of(alloc, request.settings, request.rows)?;
    let heading = heading_for(
        request,
        sizes_of(&samples),
        Layout::StrataGroups,
        Extra::None,
    );
    let problem = prepare_ranks(alloc, &samples);
    report_homogeneity(alloc, request.asking, &heading, ALL, problem)
}
