// Data that are made from a number, and the report on them.
ghost use Rattle.std.specs.Prelude.{◌≡◌, ◌<◌, ◌≤◌, ◌+◌, ◌^◌, ◌++◌, [], IfOk, OnOk, length, nat_abs, replicate};
ghost use Rattle.sample_reader.specs.Data.{data_of};
ghost use Rattle.sample_reader.specs.Kept.{AreInRange};
ghost use Rattle.settings.specs.Usable.{IsDrillNumber};
ghost use Rattle.run_outcome.specs.CauseSteps.{Meets};
ghost use Rattle.exact_run.specs.MadeData.{made_groups, made_members, made_question, made_value, made_values, next_state, state_after, two_samples_made};
ghost use Rattle.run_outcome.specs.Outcome.{asking_of_made, outcome_of_question};

use crate::group_reports::sizes_of;
use crate::prepared_reports::report_two_samples;
use report::{Extra, Refusal};
use run_outcome::{ALL, Asking, Heading};
use sample_reader::{Groups, Labels};
use scores::ScoreKind;
use std::alloc::Global;
use two_sample_tests::prepare;
use weights::{Bytes, Ints, NoMemory, Nums};

// How many values each sample has.
const SAMPLE: u64 = 40;

// The state after this one.
fn next_state(state: u64) -> u64
    requires { state < 2 ^ 31 }
    ensures next { result ≡ next_state state }
    ensures small { result < 2 ^ 31 }
{
    (1_103_515_245 * state + 12_345) % 2_147_483_648
}

// The value of a state, raised by so much.
fn made_value(raised: u64, state: u64) -> i128
    requires { raised ≤ 15 }
    ensures value { result ≡ made_value raised state }
    ensures in_range { nat_abs result < 10 ^ 36 }
{
    i128::from(state / 65_536 % 200 + raised) * 1_000_000_000_000_000_000
}

// Adds the values of so many states after this one, and answers the last state.
fn push_values(values: &mut Ints, count: u64, raised: u64, state: u64) -> Result<u64, NoMemory>
    requires raised { raised ≤ 15 }
    requires small { state < 2 ^ 31 }
    requires in_range { AreInRange values.old }
    ensures values { OnOk result (values.new ≡ values.old ++ made_values count raised state) }
    ensures in_range { AreInRange values.new }
    ensures many { OnOk result (length values.new ≡ length values.old + count) }
    ensures state { IfOk result (λ last. last ≡ state_after count state) }
    ensures small { IfOk result (λ last. last < 2 ^ 31) }
{
    let mut last = state;
    for _ in 0..count {
        last = next_state(last);
        values.push(made_value(raised, last))?;
    }
    Ok(last)
}

// The values of both samples.
fn values_made(alloc: Global, number: u64) -> Result<Ints, NoMemory>
    requires { IsDrillNumber number }
    ensures values { IfOk result (λ values. values ≡ two_samples_made number) }
    ensures in_range { IfOk result AreInRange }
    ensures many { IfOk result (λ values. length values ≡ 80) }
{
    let mut values = Ints::empty(alloc);
    let last = push_values(&mut values, SAMPLE, 0, number)?;
    push_values(&mut values, SAMPLE, 15, last)?;
    Ok(values)
}

// Adds as many members of a group as a sample has values.
fn push_members(members: &mut Nums, group: u64) -> Result<(), NoMemory>
    ensures { OnOk result (members.new ≡ members.old ++ replicate 40 group) }
{
    for _ in 0..SAMPLE {
        members.push(group)?;
    }
    Ok(())
}

// The numbers of the subjects' groups.
fn members_made(alloc: Global) -> Result<Nums, NoMemory>
    ensures { IfOk result (λ members. members ≡ made_members) }
{
    let mut members = Nums::empty(alloc);
    push_members(&mut members, 0)?;
    push_members(&mut members, 1)?;
    Ok(members)
}

/// The groups `x` and `y` that are made from a number: forty values each, those of `y` raised by
/// 15.
pub fn made_groups(alloc: Global, number: u64) -> Result<Groups, NoMemory>
    requires { IsDrillNumber number }
    ensures groups { IfOk result (λ groups. data_of groups ≡ made_groups number) }
    ensures two { IfOk result (λ groups. length groups.labels ≡ 2) }
{
    let mut labels = Labels::empty(alloc);
    labels.push(b"x")?;
    labels.push(b"y")?;
    let mut sizes = Nums::empty(alloc);
    sizes.push(SAMPLE)?;
    sizes.push(SAMPLE)?;
    let members = members_made(alloc)?;
    let values = values_made(alloc, number)?;
    Ok(Groups {
        labels,
        sizes,
        members,
        values,
    })
}

/// The report of the rank sum test of made data, or the refusal.
pub(crate) fn made_report(alloc: Global, number: u64) -> Result<Bytes, Refusal>
    requires { IsDrillNumber number }
    ensures { Meets (outcome_of_question (asking_of_made number) (made_question number)) result }
{
    let groups = match made_groups(alloc, number) {
        Ok(groups) => groups,
        Err(NoMemory) => return Err(Refusal::NoMemory),
    };
    let problem = prepare(alloc, ScoreKind::Wilcoxon, &groups);
    let heading = Heading {
        sizes: sizes_of(groups),
        dropped: None,
        extra: Extra::None,
    };
    report_two_samples(alloc, Asking::of_made(number), &heading, ALL, problem)
}
