// The public calls of `enumerate`.
ghost use Rattle.std.specs.Prelude.{◌<◌, ◌^◌, ◌≡◌, ◌≤◌, All, Contains, IfOk, List, length, pos, true, ℕ};
ghost use Rattle.std.specs.List.{sum};
ghost use Rattle.enumerate.specs.Walk.{BeginsWith, StepsThrough};
ghost use Rattle.weights.specs.Conditional.{is_extreme, numerator, total};
ghost use Rattle.weights.specs.Labellings.{labellings, sign_lists};
ghost use Rattle.weights.specs.declared.TheConstants.{MAX};
ghost use Rattle.worked_surface.specs.TwoSigns.{plus_signs, two_signs};

use enumerate::Plain;
use std::alloc::Global;
use weights::{Bytes, NoMemory, Tail};

/// The first labelling.
pub fn first_labelling(alloc: Global, counts: &[u64]) -> Result<Bytes, NoMemory>
    requires few { length counts.now ≤ 256 }
    requires fits { sum counts.now < 2 ^ 64 }
    ensures { IfOk result (BeginsWith (labellings counts.now)) }
{
    enumerate::first_labelling(alloc, counts)
}

/// The next labelling. False comes exactly at the last one, which stays.
pub fn next_labelling(labels: &mut [u8]) -> bool
    ensures { (counts : List ℕ) → Contains (labellings counts) labels.old
        → StepsThrough (labellings counts) labels.old result labels.new }
{
    enumerate::next_labelling(labels)
}

/// The next list of signs. False comes exactly at the last one, which stays.
pub fn next_signs(signs: &mut [u8]) -> bool
    requires { All (λ sign. sign < 2) signs.old }
    ensures { StepsThrough (sign_lists (length signs.old)) signs.old result signs.new }
{
    enumerate::next_signs(signs)
}

/// The first member of the reference set, whose weights sum to at most the greatest weight.
pub fn first_member<P: Plain>(alloc: Global, problem: &P) -> Result<Bytes, NoMemory>
    ensures first { IfOk result (BeginsWith (P.test problem.now).reference) }
    ensures bounded { total (P.test problem.now) ≤ MAX }
{
    problem.first(alloc)
}

/// The next member of the reference set.
pub fn next_member<P: Plain>(problem: &P, labels: &mut Bytes) -> bool
    requires { Contains (P.test problem.now).reference labels.old }
    ensures { StepsThrough (P.test problem.now).reference labels.old result labels.new }
{
    problem.next(labels)
}

/// The weight of a member.
pub fn member_weight<P: Plain>(problem: &P, labels: &[u8]) -> u128
    requires { Contains (P.test problem.now).reference labels.now }
    ensures { result ≡ (P.test problem.now).weight labels.now }
{
    problem.weight(labels)
}

/// Whether a member is extreme.
pub fn member_is_extreme<P: Plain>(problem: &P, labels: &[u8], tail: Tail) -> bool
    requires member { Contains (P.test problem.now).reference labels.now }
    requires has { (P.test problem.now).has_tail tail ≡ true }
    ensures { result ≡ is_extreme (P.test problem.now) tail labels.now }
{
    problem.extreme(labels, tail)
}

/// The statistic of a member.
pub fn member_value<P: Plain>(problem: &P, labels: &[u8]) -> i128
    requires { Contains (P.test problem.now).reference labels.now }
    ensures { result ≡ (P.test problem.now).statistic labels.now }
{
    problem.value(labels)
}

/// The summed weight of the extreme members.
pub fn plain_tail<P: Plain>(alloc: Global, problem: &P, tail: Tail) -> Result<u128, NoMemory>
    requires { (P.test problem.now).has_tail tail ≡ true }
    ensures { IfOk result (λ sum. sum ≡ numerator (P.test problem.now) tail) }
{
    enumerate::plain_tail(alloc, problem, tail)
}

/// A test with the five calls of its own: of lists of two signs, of which two plus signs were
/// observed.
pub struct TwoSigns;

// How many signs are plus.
fn plus_signs(signs: &[u8]) -> i128
    requires { length signs.now ≡ 2 }
    ensures plus { result ≡ pos (plus_signs signs.now) }
    ensures few { plus_signs signs.now ≤ 2 }
{
    signs.iter().filter(|sign| **sign == 1).count() as i128
}

impl Plain for TwoSigns {
    ghost test = { λ _. two_signs };

    fn first(&self, alloc: Global) -> Result<Bytes, NoMemory> {
        let mut signs = Bytes::empty(alloc);
        signs.push(0)?;
        signs.push(0)?;
        Ok(signs)
    }

    fn next(&self, labels: &mut Bytes) -> bool {
        next_signs(labels.as_mut_slice())
    }

    fn weight(&self, _labels: &[u8]) -> u128 {
        1
    }

    fn extreme(&self, labels: &[u8], tail: Tail) -> bool {
        let plus = plus_signs(labels);
        match tail {
            Tail::Less => plus <= 2,
            Tail::Greater => 2 <= plus,
            Tail::Two => 1 <= (plus - 1).unsigned_abs(),
        }
    }

    fn value(&self, labels: &[u8]) -> i128 {
        plus_signs(labels)
    }
}

/// How many of the four lists of two signs are extreme.
pub fn tail_of_two_signs(alloc: Global, tail: Tail) -> Result<u128, NoMemory>
    ensures { IfOk result (λ sum. sum ≡ numerator two_signs tail) }
{
    plain_tail(alloc, &TwoSigns, tail)
}
