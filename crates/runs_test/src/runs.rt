// A sequence of two labels that is prepared for the runs test.
ghost use Rattle.std.specs.Prelude.{◌≡◌, ◌+◌, ◌*◌, ◌<◌, ◌≤◌, pos, IfOk};
ghost use Rattle.std.specs.List.{All};
ghost use Rattle.weights.specs.Labellings.{number_of_labellings};
ghost use Rattle.weights.specs.Wide.{Prepares};
ghost use Rattle.weights.specs.declared.TheConstants.{MAX};
ghost use Rattle.record_reader.specs.declared.TheConstants.{MOST_ROWS};
ghost use Rattle.sample_reader.specs.Data.{sequence_data_of};
ghost use Rattle.runs_test.specs.Runs.{runs, runs_test};
ghost use Rattle.runs_test.specs.RunSteps.{AreRuns};

use crate::run_measure::{RunMeasure, begins_run};
use crate::run_stages::RunStages;
use label_network::label_stages;
use labelled::{LabelStatistic, Labelled};
use networks::Judge;
use sample_reader::{Labels, Sequence};
use std::alloc::Global;
use std::marker::Model;
use weights::{Bytes, NoMemory, Nums, PrepareFault, Tail, WideOf, multinomial};

/// A runs test whose data are checked.
pub type Runs = Labelled<RunNumber>;

/// The number of runs. It is seen as the sequence that it was prepared of.
#[derive(Drop)]
pub struct RunNumber {
    // What it was prepared of, by which contracts name it.
    labels: Labels,
    members: Nums,
    // How many rows have each label.
    sizes: Nums,
}

impl Model for RunNumber {
    ghost use Rattle.sample_reader.specs.Sequences.{SequenceData};
    ghost use Rattle.runs_test.specs.RunSteps.{AreRuns, sequence_of};

    ghost Value = { SequenceData };

    ghost view = { λ t. sequence_of t.labels t.members };

    ghost invariant = { λ t. AreRuns (sequence_of t.labels t.members) t.sizes };
}

// The labels of rows.
fn labels_in(alloc: Global, members: &[u64]) -> Result<Bytes, NoMemory>
    requires { All (λ label. label < 2) members.now }
    ensures { IfOk result (λ labels. labels ≡ members.now) }
{
    let mut labels = Bytes::empty(alloc);
    for member in members {
        labels.push(*member as u8)?;
    }
    Ok(labels)
}

/// How many runs labels have.
pub(crate) fn runs_in(labels: &[u8]) -> u64
    requires { All (λ label. label < 2) labels.now }
    ensures result { result ≡ runs labels.now }
{
    let mut runs: u64 = 0;
    let mut last: u64 = 2;
    for label in labels {
        let label = *label as u64;
        runs += begins_run(last, label);
        last = label;
    }
    runs
}

// The mean number of runs of so many rows of each label, times the number of rows.
fn centre_of(first: u64, second: u64) -> i128
    requires { first + second ≤ MOST_ROWS }
    ensures { result ≡ pos ((first + second) + 2 * (first * second)) }
{
    (first + second + 2 * (first * second)) as i128
}

/// Prepares the number of runs, over all labellings of the rows with as many of each label.
///
/// # Errors
/// `TooWide(Total)` where there are more labellings than `weights::MAX`, or else `NoMemory` where
/// memory runs out. The statistic of at most 10,000 rows is never too wide.
pub fn prepare(alloc: Global, sequence: &Sequence) -> Result<Runs, PrepareFault>
    ensures { Prepares runs_test (sequence_data_of sequence.now) result }
{
    let Some(total) = multinomial(sequence.sizes.as_slice()) else {
        return Err(PrepareFault::TooWide(WideOf::Total));
    };
    let observed = labels_in(alloc, sequence.members.as_slice())?;
    let rows = sequence.members.as_slice().len() as u128;
    let number = RunNumber::of(sequence)?;
    let sizes = number.counts();
    let centre = centre_of(sizes[0], sizes[1]);
    Ok(Labelled::new(number, observed.as_slice(), 1, rows, centre, total))
}

impl RunNumber {
    // That of a sequence, whose labellings do not pass the greatest weight.
    fn of(sequence: &Sequence) -> Result<RunNumber, NoMemory>
        requires { number_of_labellings sequence.now.sizes ≤ MAX }
        ensures { IfOk result (λ number. number ≡ sequence_data_of sequence.now) }
    {
        Ok(RunNumber {
            labels: sequence.labels.copy()?,
            members: sequence.members.copy()?,
            sizes: sequence.sizes.copy()?,
        })
    }

    // How many rows have each label, and what is known of them.
    fn counts(&self) -> &[u64]
        ensures { AreRuns self.now result.now }
    {
        self.sizes.as_slice()
    }
}

impl LabelStatistic for RunNumber {
    ghost use Rattle.label_network.specs.LabelNetwork.{label_network};
    ghost use Rattle.runs_test.specs.RunNetwork.{sequence_meaning, written_network};
    ghost use Rattle.runs_test.specs.Runs.{runs_says};

    type Built = RunStages;

    ghost says = { runs_says };

    ghost network = { written_network };

    ghost running = { λ sequence. label_network (sequence_meaning sequence) };

    fn sound(&self) {
        let _sizes = self.counts();
    }

    fn sizes(&self) -> &[u64] {
        self.counts()
    }

    fn value(&self, labels: &[u8]) -> i128 {
        runs_in(labels) as i128
    }

    fn has_tail(&self, _tail: Tail) -> bool {
        true
    }

    fn stages_of(&self, alloc: Global, judge: Judge) -> Result<Self::Built, NoMemory> {
        let sizes = self.counts();
        let measure = RunMeasure::new(sizes[0], sizes[1], judge);
        let columns = vec![in alloc; 1u64; (sizes[0] + sizes[1]) as usize]?;
        let network = label_stages(alloc, &columns, sizes, measure)?;
        Ok(RunStages { network })
    }
}
