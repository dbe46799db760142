// The tests that the program has.
ghost use Rattle.exact_run.specs.Tests.{tests};

use crate::{made_data, questions};
use report::Refusal;
use run_outcome::{Catalogue, Request};
use std::alloc::Global;
use weights::Bytes;

// All of them.
pub(crate) struct Tests;

impl Catalogue for Tests {
    ghost questions = { tests };

    fn report_in(alloc: Global, request: &Request) -> Result<Bytes, Refusal> {
        questions::report_in(alloc, request)
    }

    fn made_report(alloc: Global, number: u64) -> Result<Bytes, Refusal> {
        made_data::made_report(alloc, number)
    }
}
