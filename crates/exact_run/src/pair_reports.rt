// The reports of the tests of one sample, of the differences of pairs.
ghost use Rattle.std.specs.Prelude.{◌≡◌, Ok, IfErr, IfOk};
ghost use Rattle.record_reader.specs.Layouts.{MayPick};
ghost use Rattle.weights.specs.Results.{with_fault};
ghost use Rattle.sample_reader.specs.CellLayouts.{differences_in};
ghost use Rattle.run_outcome.specs.CauseSteps.{Fulfils, IsCauseOf};
ghost use Rattle.exact_run.specs.PairQuestions.{pair_sizes, pairs_of};
ghost use Rattle.exact_run.specs.Layouts.{layout_refusal};

use crate::layouts::{heading_for, layout_refusal};
use crate::prepared_reports::report_one_sample;
use one_sample_tests::{SignKind, prepare_pairs, used_pairs};
use record_reader::Rows;
use report::{Extra, Refusal, Sizes};
use run_outcome::{ALL, Request};
use sample_reader::{Layout, Pairs, pairs};
use settings::Settings;
use std::alloc::Global;
use weights::Bytes;

// The pairs of the rows, or the refusal of their fault.
fn pairs_read(alloc: Global, settings: &Settings, rows: &Rows) -> Result<Pairs, Refusal>
    requires { MayPick 1 2 settings.now.picks }
    ensures ok { let found = differences_in settings.now.missing settings.now.picks rows.now in
        IfOk result (λ pairs. with_fault layout_refusal found ≡ Ok pairs.differences) }
    ensures err { let found = differences_in settings.now.missing settings.now.picks rows.now in
        IfErr result (IsCauseOf (with_fault layout_refusal found)) }
{
    pairs(alloc, rows, &settings.picks, settings.missing).map_err(layout_refusal)
}

fn sizes_of(pairs: &Pairs) -> Sizes
    ensures { result ≡ pair_sizes pairs.now.differences }
{
    Sizes::Pairs {
        rows: pairs.rows,
        used: used_pairs(pairs),
    }
}

/// The report of a test of the pairs' differences, or the refusal.
pub(crate) fn pair_report(
    alloc: Global,
    kind: SignKind,
    request: &Request,
) -> Result<Bytes, Refusal>
    requires { MayPick 1 2 request.now.settings.now.picks }
    ensures { Fulfils request.now (pairs_of kind) result }
{
    let pairs = pairs_read(alloc, request.settings, request.rows)?;
    let problem = prepare_pairs(alloc, kind, &pairs);
    let heading = heading_for(request, sizes_of(&pairs), Layout::Pairs, Extra::None);
    report_one_sample(alloc, request.asking, &heading, ALL, problem)
}
