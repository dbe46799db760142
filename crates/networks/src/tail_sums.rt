// What is found of the three tails, side by side.
ghost use Rattle.std.specs.Prelude.{◌≡◌, ◌+◌, ◌*◌, ◌<◌, ◌≤◌, ◌^◌, true, false, cond};
ghost use Rattle.weights.specs.declared.tails.Tail.{Tail};
ghost use Rattle.weights.specs.declared.TheConstants.{MAX};
ghost use Rattle.networks.specs.Asked.{asks};
ghost use Rattle.networks.specs.Completions.{is_inside};
ghost use Rattle.networks.specs.Opened.{is_undecided};
ghost use Rattle.networks.specs.EachTail.{some_undecided, sum_for, verdict_for};

use crate::stages::Verdict;
use weights::{Tail, Tails};

/// The summed weight of the extreme completions, and the number of open keys.
#[derive(Clone, Copy, Debug, Drop, PartialEq, Eq)]
pub struct TailSum {
    pub sum: u128,
    pub opened: u128,
}

/// Those of the three tails.
#[derive(Clone, Copy, Debug, Drop, PartialEq, Eq)]
pub struct TailSums {
    pub less: TailSum,
    pub greater: TailSum,
    pub two: TailSum,
}

/// What is known of the completions of a key for each tail.
#[derive(Clone, Copy, Debug, Drop, PartialEq, Eq)]
pub struct Verdicts {
    pub less: Verdict,
    pub greater: Verdict,
    pub two: Verdict,
}

/// Which keys a sweep keeps: those that are open for some of these tails, or all.
#[derive(Clone, Copy, Debug, PartialEq, Eq)]
pub enum Kept {
    Open(Tails),
    All,
}

/// One tail alone.
pub fn only(tail: Tail) -> Tails
    ensures asked { asks result tail ≡ true }
    ensures alone { (t : Tail) → asks result t ≡ true → t ≡ tail }
{
    let (less, greater, two) = match tail {
        Tail::Less => (true, false, false),
        Tail::Greater => (false, true, false),
        Tail::Two => (false, false, true),
    };
    Tails { less, greater, two }
}

impl Verdict {
    /// Whether neither is known.
    #[inline(always)]
    pub fn is_undecided(self) -> bool
        ensures { result ≡ is_undecided self }
    {
        match self {
            Verdict::Undecided => true,
            Verdict::Inside | Verdict::Outside => false,
        }
    }
}

impl Verdicts {
    /// Whether the key is open for some tail.
    #[inline(always)]
    pub fn is_open(&self) -> bool
        ensures { result ≡ some_undecided self.now }
    {
        self.less.is_undecided() || self.greater.is_undecided() || self.two.is_undecided()
    }
}

impl TailSum {
    // The same with one node more.
    #[inline(always)]
    fn with_node(self, verdict: Verdict, stays: bool, weight: u128) -> TailSum
        requires fits { self.sum + weight ≤ MAX }
        requires few { self.opened < MAX }
        ensures sum { let inside = cond stays false (is_inside verdict) in
            result.sum ≡ self.sum + cond inside weight 0 }
        ensures opened { result.opened ≡ self.opened + cond (is_undecided verdict) 1 0 }
    {
        match verdict {
            Verdict::Inside if !stays => TailSum {
                sum: self.sum + weight,
                opened: self.opened,
            },
            Verdict::Undecided => TailSum {
                sum: self.sum,
                opened: self.opened + 1,
            },
            Verdict::Inside | Verdict::Outside => self,
        }
    }

    // The same with what one room more adds: the weight inside, whose completions weigh so much.
    fn with_room(self, inside: TailSum, rest: u128) -> TailSum
        requires fits { self.sum + inside.sum * rest ≤ MAX }
        requires few { self.opened + inside.opened < 2 ^ 128 }
        ensures sum { result.sum ≡ self.sum + inside.sum * rest }
        ensures opened { result.opened ≡ self.opened + inside.opened }
    {
        TailSum {
            sum: self.sum + inside.sum * rest,
            opened: self.opened + inside.opened,
        }
    }
}

impl TailSums {
    /// Nothing of any tail.
    pub fn none() -> TailSums
        ensures { (t : Tail) → sum_for result t ≡ record { sum = 0; opened = 0 } }
    {
        let none = TailSum { sum: 0, opened: 0 };
        TailSums {
            less: none,
            greater: none,
            two: none,
        }
    }

    /// That of one tail.
    pub fn of(&self, tail: Tail) -> TailSum
        ensures { result ≡ sum_for self.now tail }
    {
        match tail {
            Tail::Less => self.less,
            Tail::Greater => self.greater,
            Tail::Two => self.two,
        }
    }

    /// The same with one node more, by its verdicts.
    #[inline(always)]
    pub fn with_node(self, verdicts: Verdicts, stays: bool, weight: u128) -> TailSums
        requires fits { (t : Tail) → (sum_for self t).sum + weight ≤ MAX }
        requires few { (t : Tail) → (sum_for self t).opened < MAX }
        ensures sum { (t : Tail)
            → let inside = cond stays false (is_inside (verdict_for verdicts t)) in
            (sum_for result t).sum ≡ (sum_for self t).sum + cond inside weight 0 }
        ensures opened { (t : Tail) → (sum_for result t).opened
            ≡ (sum_for self t).opened + cond (is_undecided (verdict_for verdicts t)) 1 0 }
    {
        TailSums {
            less: self.less.with_node(verdicts.less, stays, weight),
            greater: self.greater.with_node(verdicts.greater, stays, weight),
            two: self.two.with_node(verdicts.two, stays, weight),
        }
    }

    /// Whether no tail has a weight.
    pub fn is_empty(&self) -> bool
        ensures { result ≡ true → (t : Tail) → (sum_for self.now t).sum ≡ 0 }
    {
        self.less.sum == 0 && self.greater.sum == 0 && self.two.sum == 0
    }

    /// The same with one room more.
    pub fn with_room(self, inside: TailSums, rest: u128) -> TailSums
        requires fits { (t : Tail) → (sum_for self t).sum + (sum_for inside t).sum * rest ≤ MAX }
        requires few { (t : Tail)
            → (sum_for self t).opened + (sum_for inside t).opened < 2 ^ 128 }
        ensures sum { (t : Tail) → (sum_for result t).sum
            ≡ (sum_for self t).sum + (sum_for inside t).sum * rest }
        ensures opened { (t : Tail) → (sum_for result t).opened
            ≡ (sum_for self t).opened + (sum_for inside t).opened }
    {
        TailSums {
            less: self.less.with_room(inside.less, rest),
            greater: self.greater.with_room(inside.greater, rest),
            two: self.two.with_room(inside.two, rest),
        }
    }
}
