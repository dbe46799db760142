// The reports of Kendall's test and of the runs test.
ghost use Rattle.std.specs.Prelude.{◌≡◌, Ok, IfErr, IfOk};
ghost use Rattle.record_reader.specs.Layouts.{MayPick};
ghost use Rattle.weights.specs.Results.{with_fault};
ghost use Rattle.sample_reader.specs.Twins.{twins_in};
ghost use Rattle.sample_reader.specs.Data.{twin_data_of, sequence_data_of};
ghost use Rattle.sample_reader.specs.Sequences.{sequence_in};
ghost use Rattle.run_outcome.specs.CauseSteps.{Fulfils, IsCauseOf};
ghost use Rattle.exact_run.specs.Layouts.{layout_refusal};
ghost use Rattle.exact_run.specs.SequenceQuestions.{twin_sizes, kendall_of, runs_of, sequence_sizes};

use crate::layouts::{heading_for, layout_refusal};
use crate::prepared_reports::report_sequence;
use record_reader::Rows;
use report::{Extra, Refusal, Sizes};
use run_outcome::{ALL, Request};
use sample_reader::{Layout, Sequence, Twins, sequence, twins};
use sequence_tests::{prepare_kendall, prepare_runs};
use settings::Settings;
use std::alloc::Global;
use weights::{Bytes, NoMemory};

// The bivariate sample of the rows, or the refusal of their fault.
fn twins_read(alloc: Global, settings: &Settings, rows: &Rows) -> Result<Twins, Refusal>
    requires { MayPick 2 2 settings.now.picks }
    ensures ok { let found = twins_in settings.now.missing settings.now.picks rows.now in
        IfOk result (λ sample. with_fault layout_refusal found ≡ Ok (twin_data_of sample)) }
    ensures err { let found = twins_in settings.now.missing settings.now.picks rows.now in
        IfErr result (IsCauseOf (with_fault layout_refusal found)) }
{
    twins(alloc, rows, &settings.picks, settings.missing).map_err(layout_refusal)
}

fn twin_sizes(sample: &Twins) -> Sizes
    ensures { result ≡ twin_sizes (twin_data_of sample.now) }
{
    Sizes::Pairs {
        rows: sample.rows,
        used: sample.rows,
    }
}

/// The report of Kendall's test, or the refusal.
pub(crate) fn kendall_report(alloc: Global, request: &Request) -> Result<Bytes, Refusal>
    requires { MayPick 2 2 request.now.settings.now.picks }
    ensures { Fulfils request.now kendall_of result }
{
    let sample = twins_read(alloc, request.settings, request.rows)?;
    let heading = heading_for(request, twin_sizes(&sample), Layout::Twins, Extra::None);
    let problem = prepare_kendall(alloc, &sample);
    report_sequence(alloc, request.asking, &heading, ALL, problem)
}

// The sequence of the rows, or the refusal of its fault.
fn sequence_read(alloc: Global, settings: &Settings, rows: &Rows) -> Result<Sequence, Refusal>
    requires { MayPick 1 1 settings.now.picks }
    ensures ok { let found = sequence_in settings.now.missing settings.now.picks rows.now in
        IfOk result (λ sequence. with_fault layout_refusal found ≡ Ok (sequence_data_of sequence)) }
    ensures err { let found = sequence_in settings.now.missing settings.now.picks rows.now in
        IfErr result (IsCauseOf (with_fault layout_refusal found)) }
{
    sequence(alloc, rows, &settings.picks, settings.missing).map_err(layout_refusal)
}

fn sequence_sizes(sequence: &Sequence) -> Result<Sizes, NoMemory>
    ensures { IfOk result (λ sizes. sizes ≡ sequence_sizes (sequence_data_of sequence.now)) }
{
    Ok(Sizes::Groups {
        labels: sequence.labels.copy()?,
        sizes: sequence.sizes.copy()?,
    })
}

/// The report of the runs test, or the refusal.
pub(crate) fn runs_report(alloc: Global, request: &Request) -> Result<Bytes, Refusal>
    requires { MayPick 1 1 request.now.settings.now.picks }
    ensures { Fulfils request.now runs_of result }
{
    let sequence = sequence_read(alloc, request.settings, request.rows)?;
    let heading = heading_for(
        request,
        sequence_sizes(&sequence)?,
        Layout::Sequence,
        Extra::None,
    );
    let problem = prepare_runs(alloc, &sequence);
    report_sequence(alloc, request.asking, &heading, ALL, problem)
}
