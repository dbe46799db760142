// A test whose members are judged by a rule over a measure.
ghost use Rattle.std.specs.Prelude.{◌≡◌, ◌≤◌, ℕ, List, Contains};
ghost use Rattle.weights.specs.Conditional.{ConditionalTest, is_extreme, total};
ghost use Rattle.weights.specs.Frames.{IsFrameOf, RulesFit};
ghost use Rattle.weights.specs.Rules.{measured};
ghost use Rattle.enumerate.specs.Framed.{IsMeasured};

use crate::plain::Plain;
use weights::{Frame, Tail};

/// A test that can be walked through, with what is said of it beside its tails and what a tail
/// measures of a member. These give its `extreme`, by [`is_extreme_by`].
pub trait Framed: Plain {
    /// What is said of the test beside its tails. The rules of the tails compute no number of a
    /// member that passes a limit, and the total is at least 1.
    fn frame(&self) -> Frame
        ensures frame { IsFrameOf (Self.test self.now) result }
        ensures fits { RulesFit (Self.test self.now) }
        ensures some { 1 ≤ total (Self.test self.now) };

    /// What a tail measures of a member: its statistic, or its weight on both sides of a test by
    /// rarity.
    fn measure(&self, labels: &[u8], tail: Tail) -> i128
        requires { Contains (Self.test self.now).reference labels.now }
        ensures { result ≡ measured (Self.test self.now) tail labels.now };
}

/// Whether a member is at least as extreme as the observed one: whether what a tail measures of it
/// passes the tail's rule.
pub fn is_extreme_by(frame: &Frame, measure: i128, tail: Tail) -> bool
    requires { IsMeasured frame.now measure tail }
    ensures { (test : ConditionalTest) (member : List ℕ) → IsFrameOf test frame.now
        → measure ≡ measured test tail member → result ≡ is_extreme test tail member }
{
    frame.rule(tail).passes(measure)
}
