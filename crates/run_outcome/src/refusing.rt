// The refusals that faults of words and of what is prepared come to.
ghost use Rattle.std.specs.Prelude.{◌≡◌};
ghost use Rattle.run_outcome.specs.Outcome.{usage_refusal};
ghost use Rattle.run_outcome.specs.Question.{prepare_refusal};

use report::Refusal;
use settings::UsageFault;
use weights::PrepareFault;

/// The refusal of words.
pub(crate) fn usage_refusal(fault: UsageFault) -> Refusal
    ensures { result ≡ usage_refusal fault }
{
    match fault {
        UsageFault::NoMemory => Refusal::NoMemory,
        _ => Refusal::Usage(fault),
    }
}

/// The refusal of a problem that is not prepared.
pub(crate) fn prepare_refusal(fault: PrepareFault) -> Refusal
    ensures { result ≡ prepare_refusal fault }
{
    match fault {
        PrepareFault::TooWide(what) => Refusal::TooWide(what),
        PrepareFault::NoMemory => Refusal::NoMemory,
    }
}
