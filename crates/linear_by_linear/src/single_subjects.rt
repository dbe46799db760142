// The columns of a table as columns of one subject each.
ghost use Rattle.std.specs.Prelude.{◌≡◌, ◌++◌, ◌^◌, ◌<◌, ◌≤◌, length, replicate, take, IfOk, OnOk};
ghost use Rattle.std.specs.List.{sum};
ghost use Rattle.later_scores.specs.LaterSums.{subjects};

use std::alloc::Global;
use weights::{Ints, NoMemory, Nums, total_of};

// Scores with so many more of one.
fn push_times(scores: &mut Ints, score: i128, times: u64) -> Result<(), NoMemory>
    ensures { OnOk result (scores.new ≡ scores.old ++ replicate times score) }
{
    for _time in 0..times {
        scores.push(score)?;
    }
    Ok(())
}

/// The score of each subject, that of its column.
pub(crate) fn subject_scores(
    alloc: Global,
    column_scores: &[i128],
    columns: &[u64],
) -> Result<Ints, NoMemory>
    requires { length column_scores.now ≡ length columns.now }
    ensures { IfOk result (λ scores. scores ≡ subjects column_scores.now columns.now) }
{
    let mut scores = Ints::empty(alloc);
    for i in 0..columns.len() {
        push_times(&mut scores, column_scores[i], columns[i])?;
    }
    Ok(scores)
}

/// So many columns of one subject each.
pub(crate) fn single_columns(alloc: Global, subjects: usize) -> Result<Nums, NoMemory>
    ensures { IfOk result (λ columns. columns ≡ replicate subjects 1) }
{
    let mut columns = Nums::empty(alloc);
    for _subject in 0..subjects {
        columns.push(1)?;
    }
    Ok(columns)
}

/// How many subjects the columns before a stage have.
pub(crate) fn subjects_before(columns: &[u64], stage: usize) -> usize
    requires within { stage ≤ length columns.now }
    requires few { sum columns.now < 2 ^ 64 }
    ensures { result ≡ sum (take stage columns.now) }
{
    total_of(&columns[..stage]) as usize
}
