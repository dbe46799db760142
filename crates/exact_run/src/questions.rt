// The report of each test, and that of a shift.
ghost use Rattle.settings.specs.Usable.{AreUsable};
ghost use Rattle.run_outcome.specs.CauseSteps.{AnswersRows};
ghost use Rattle.exact_run.specs.Tests.{tests};

use crate::block_reports::block_report;
use crate::group_reports::{
    kruskal_wallis_report, ordered_report, two_sample_report, umbrella_report,
};
use crate::pair_reports::pair_report;
use crate::sequence_reports::{kendall_report, runs_report};
use crate::shift_reports::shift_report;
use crate::strata_group_reports::stratified_rank_report;
use crate::strata_reports::{strata_report, zelen_report};
use crate::table_reports::{fisher_report, linear_report, mcnemar_report};
use block_tests::BlockKind;
use one_sample_tests::SignKind;
use report::Refusal;
use run_outcome::Request;
use scores::ScoreKind;
use settings::{OptionName, TestName};
use std::alloc::Global;
use weights::Bytes;

/// The report that the settings ask for, or the refusal. No words ask for the tests that are not
/// named here.
pub(crate) fn report_in(alloc: Global, request: &Request) -> Result<Bytes, Refusal>
    requires { AreUsable request.now.settings.now }
    ensures { let settings = request.now.settings.now in
        let answers = AnswersRows tests settings.test request.now.asking settings in
        answers request.now.rows.now result }
{
    match request.settings.test {
        TestName::SignedRank => pair_report(alloc, SignKind::SignedRank, request),
        TestName::Sign => pair_report(alloc, SignKind::Sign, request),
        TestName::RawSigned => pair_report(alloc, SignKind::RawSigned, request),
        TestName::Mcnemar => mcnemar_report(alloc, request),
        TestName::RankSum => two_sample_report(alloc, ScoreKind::Wilcoxon, request),
        TestName::Ansari => two_sample_report(alloc, ScoreKind::Ansari, request),
        TestName::Mood => two_sample_report(alloc, ScoreKind::Mood, request),
        TestName::Savage => two_sample_report(alloc, ScoreKind::Savage, request),
        TestName::Median => two_sample_report(alloc, ScoreKind::Median, request),
        TestName::Raw => two_sample_report(alloc, ScoreKind::Raw, request),
        TestName::Kw => kruskal_wallis_report(alloc, request),
        TestName::Jt => ordered_report(alloc, request),
        TestName::Umbrella => umbrella_report(alloc, request),
        TestName::Friedman => block_report(alloc, BlockKind::Friedman, request),
        TestName::Page => block_report(alloc, BlockKind::Page, request),
        TestName::Cochran => block_report(alloc, BlockKind::Cochran, request),
        TestName::Fisher => fisher_report(alloc, request),
        TestName::Linear => linear_report(alloc, request),
        TestName::Strata => strata_report(alloc, request),
        TestName::Zelen => zelen_report(alloc, request),
        TestName::StratRankSum => stratified_rank_report(alloc, request),
        TestName::Kendall => kendall_report(alloc, request),
        TestName::Runs => runs_report(alloc, request),
        TestName::Shift => shift_report(alloc, request.settings, request.rows),
        _ => Err(Refusal::Unfit(OptionName::Test)),
    }
}
