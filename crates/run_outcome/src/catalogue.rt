// The tests that a program has.
ghost use Rattle.settings.specs.Usable.{AreUsable, IsDrillNumber};
ghost use Rattle.run_outcome.specs.CauseSteps.{AnswersRows, Meets};
ghost use Rattle.run_outcome.specs.Outcome.{asking_of_made, outcome_of_question};
ghost use Rattle.run_outcome.specs.Questions.{Questions};

use crate::requests::Request;
use report::Refusal;
use std::alloc::Global;
use weights::Bytes;

/// The tests that a program has, with the report of each.
pub trait Catalogue {
    /// What they ask of the data of files.
    ghost questions: { Questions };

    /// The report that the settings of a request ask for, or the refusal.
    fn report_in(alloc: Global, request: &Request) -> Result<Bytes, Refusal>
        requires { AreUsable request.now.settings.now }
        ensures { let settings = request.now.settings.now in
            let answers = AnswersRows questions settings.test request.now.asking settings in
            answers request.now.rows.now result };

    /// The report of the data that are made from a number, or the refusal.
    fn made_report(alloc: Global, number: u64) -> Result<Bytes, Refusal>
        requires { IsDrillNumber number }
        ensures { let question = questions.made_question number in
            Meets (outcome_of_question (asking_of_made number) question) result };
}
