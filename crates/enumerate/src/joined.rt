// From one of several labellings that are put together to the next: the last part that has a next
// labelling moves to it, and all parts after it begin anew.
ghost use Rattle.std.specs.Prelude.{◌≡◌, ℕ, List, [], ◌∷◌, ◌++◌, ◌≤◌, length, map};
ghost use Rattle.std.specs.Prelude.{Contains, OnOk};
ghost use Rattle.std.specs.List.{sum};
ghost use Rattle.enumerate.specs.Joined.{joined_labellings};
ghost use Rattle.enumerate.specs.Walk.{BeginsWith, StepsThrough, members_after};

use crate::labellings::{first_labelling, next_labelling};
use std::alloc::Global;
use weights::{Bytes, NoMemory};

/// Appends the first labelling of at most 256 counts to the first labellings of counts before them,
/// of which there may be none.
pub fn append_first(alloc: Global, counts: &[u64], labels: &mut Bytes) -> Result<(), NoMemory>
    requires { length counts.now ≤ 256 }
    ensures { OnOk result ((parts : List (List ℕ))
        → BeginsWith (joined_labellings parts) labels.old
        → BeginsWith (joined_labellings (parts ++ counts.now ∷ [])) labels.new) }
{
    labels.append(first_labelling(alloc, counts)?.as_slice())
}

/// Moves to the next member of labellings that are put together, which have these lengths. False
/// comes exactly at the last one, which stays. It takes no memory.
pub fn next_joined(lengths: &[u64], labels: &mut [u8]) -> bool
    ensures { (parts : List (List ℕ)) → map sum parts ≡ lengths.now
        → Contains (joined_labellings parts) labels.old
        → StepsThrough (joined_labellings parts) labels.old result labels.new }
{
    let [first, later @ ..] = lengths else {
        return false;
    };
    let end = labels.len().min(*first as usize);
    let (front, rest) = labels.split_at_mut(end);
    if next_joined(later, rest) {
        return true;
    }
    if !next_labelling(front) {
        return false;
    }
    begin_anew(later, rest);
    true
}

/// Moves from the last member of labellings that are put together, which have these lengths, to the
/// first one: a part that never rises never falls once it is reversed. It takes no memory.
pub fn begin_anew(lengths: &[u64], labels: &mut [u8])
    ensures { (parts : List (List ℕ)) → map sum parts ≡ lengths.now
        → Contains (joined_labellings parts) labels.old
        → members_after labels.old (joined_labellings parts) ≡ []
        → BeginsWith (joined_labellings parts) labels.new }
{
    if let [first, later @ ..] = lengths {
        let end = labels.len().min(*first as usize);
        let (front, rest) = labels.split_at_mut(end);
        front.reverse();
        begin_anew(later, rest);
    }
}
