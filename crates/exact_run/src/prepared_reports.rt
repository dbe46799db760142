// The report of each type of prepared test: the one call of the generic report at that type. What
// such a type is made of is proved again at each such call, so that they stand here alone, in
// functions that do nothing else.
ghost use Rattle.std.specs.Prelude.{◌≡◌, None, IfOk};
ghost use Rattle.weights.specs.Wide.{too_wide};
ghost use Rattle.one_sample_tests.specs.SignNetwork.{one_sample_network};
ghost use Rattle.one_sample_tests.specs.SignedSamples.{one_sample_test};
ghost use Rattle.two_sample_tests.specs.Columns.{two_sample_network};
ghost use Rattle.two_sample_tests.specs.TwoSamples.{two_sample_test};
ghost use Rattle.k_sample_tests.specs.KSamples.{k_sample_network, k_sample_test};
ghost use Rattle.block_tests.specs.BlockNetworks.{block_network, running_network as running_blocks};
ghost use Rattle.block_tests.specs.BlockTests.{block_test};
ghost use Rattle.table_tests.specs.TableTests.{table_network, table_test};
ghost use Rattle.stratified_tests.specs.StrataNetwork.{strata_network};
ghost use Rattle.stratified_tests.specs.StrataTests.{strata_test};
ghost use Rattle.homogeneity.specs.Homogeneities.{homogeneity_network, homogeneity_test};
ghost use Rattle.sequence_tests.specs.SequenceTests.{running_network as running_sequence, sequence_network, sequence_test};
ghost use Rattle.run_outcome.specs.CauseSteps.{AnswersPrepared};
ghost use Rattle.run_outcome.specs.Outcome.{HasParts, tails_in};

use block_tests::BlockTest;
use homogeneity::Homogeneity;
use k_sample_tests::KSample;
use one_sample_tests::OneSample;
use report::Refusal;
use run_outcome::{Asking, Heading, report_prepared};
use sequence_tests::SequenceTest;
use std::alloc::Global;
use stratified_tests::StrataTest;
use table_tests::TableTest;
use two_sample_tests::TwoSample;
use weights::{Bytes, PrepareFault, Tails};

/// The report of a prepared test of one sample.
pub(crate) fn report_one_sample(
    alloc: Global,
    asking: Asking,
    heading: &Heading,
    has: Tails,
    prepared: Result<OneSample, PrepareFault>,
) -> Result<Bytes, Refusal>
    requires parts { HasParts asking }
    requires has { IfOk prepared (λ problem. has ≡ tails_in (one_sample_test problem)) }
    requires fits { IfOk prepared (λ problem. too_wide (one_sample_test problem) ≡ None) }
    ensures { let answers = AnswersPrepared one_sample_test one_sample_network one_sample_network in
        let about = answers asking heading.now.sizes heading.now.dropped heading.now.extra in
        about has prepared result }
{
    report_prepared(alloc, asking, heading, has, prepared)
}

/// The report of a prepared test of two samples.
pub(crate) fn report_two_samples(
    alloc: Global,
    asking: Asking,
    heading: &Heading,
    has: Tails,
    prepared: Result<TwoSample, PrepareFault>,
) -> Result<Bytes, Refusal>
    requires parts { HasParts asking }
    requires has { IfOk prepared (λ problem. has ≡ tails_in (two_sample_test problem)) }
    requires fits { IfOk prepared (λ problem. too_wide (two_sample_test problem) ≡ None) }
    ensures { let answers = AnswersPrepared two_sample_test two_sample_network two_sample_network in
        let about = answers asking heading.now.sizes heading.now.dropped heading.now.extra in
        about has prepared result }
{
    report_prepared(alloc, asking, heading, has, prepared)
}

/// The report of a prepared test of several samples.
pub(crate) fn report_samples(
    alloc: Global,
    asking: Asking,
    heading: &Heading,
    has: Tails,
    prepared: Result<KSample, PrepareFault>,
) -> Result<Bytes, Refusal>
    requires parts { HasParts asking }
    requires has { IfOk prepared (λ problem. has ≡ tails_in (k_sample_test problem)) }
    requires fits { IfOk prepared (λ problem. too_wide (k_sample_test problem) ≡ None) }
    ensures { let answers = AnswersPrepared k_sample_test k_sample_network k_sample_network in
        let about = answers asking heading.now.sizes heading.now.dropped heading.now.extra in
        about has prepared result }
{
    report_prepared(alloc, asking, heading, has, prepared)
}

/// The report of a prepared test of treatments in blocks.
pub(crate) fn report_blocks(
    alloc: Global,
    asking: Asking,
    heading: &Heading,
    has: Tails,
    prepared: Result<BlockTest, PrepareFault>,
) -> Result<Bytes, Refusal>
    requires parts { HasParts asking }
    requires has { IfOk prepared (λ problem. has ≡ tails_in (block_test problem)) }
    requires fits { IfOk prepared (λ problem. too_wide (block_test problem) ≡ None) }
    ensures { let answers = AnswersPrepared block_test block_network running_blocks in
        let about = answers asking heading.now.sizes heading.now.dropped heading.now.extra in
        about has prepared result }
{
    report_prepared(alloc, asking, heading, has, prepared)
}

/// The report of a prepared test of a table.
pub(crate) fn report_table(
    alloc: Global,
    asking: Asking,
    heading: &Heading,
    has: Tails,
    prepared: Result<TableTest, PrepareFault>,
) -> Result<Bytes, Refusal>
    requires parts { HasParts asking }
    requires has { IfOk prepared (λ problem. has ≡ tails_in (table_test problem)) }
    requires fits { IfOk prepared (λ problem. too_wide (table_test problem) ≡ None) }
    ensures { let answers = AnswersPrepared table_test table_network table_network in
        let about = answers asking heading.now.sizes heading.now.dropped heading.now.extra in
        about has prepared result }
{
    report_prepared(alloc, asking, heading, has, prepared)
}

/// The report of a prepared test of strata of tables.
pub(crate) fn report_strata(
    alloc: Global,
    asking: Asking,
    heading: &Heading,
    has: Tails,
    prepared: Result<StrataTest, PrepareFault>,
) -> Result<Bytes, Refusal>
    requires parts { HasParts asking }
    requires has { IfOk prepared (λ problem. has ≡ tails_in (strata_test problem)) }
    requires fits { IfOk prepared (λ problem. too_wide (strata_test problem) ≡ None) }
    ensures { let answers = AnswersPrepared strata_test strata_network strata_network in
        let about = answers asking heading.now.sizes heading.now.dropped heading.now.extra in
        about has prepared result }
{
    report_prepared(alloc, asking, heading, has, prepared)
}

/// The report of a prepared test of equal odds ratios, or of ranks within strata.
pub(crate) fn report_homogeneity(
    alloc: Global,
    asking: Asking,
    heading: &Heading,
    has: Tails,
    prepared: Result<Homogeneity, PrepareFault>,
) -> Result<Bytes, Refusal>
    requires parts { HasParts asking }
    requires has { IfOk prepared (λ problem. has ≡ tails_in (homogeneity_test problem)) }
    requires fits { IfOk prepared (λ problem. too_wide (homogeneity_test problem) ≡ None) }
    ensures { let network = homogeneity_network in
        let answers = AnswersPrepared homogeneity_test network network in
        let about = answers asking heading.now.sizes heading.now.dropped heading.now.extra in
        about has prepared result }
{
    report_prepared(alloc, asking, heading, has, prepared)
}

/// The report of a prepared test of rows in their order.
pub(crate) fn report_sequence(
    alloc: Global,
    asking: Asking,
    heading: &Heading,
    has: Tails,
    prepared: Result<SequenceTest, PrepareFault>,
) -> Result<Bytes, Refusal>
    requires parts { HasParts asking }
    requires has { IfOk prepared (λ problem. has ≡ tails_in (sequence_test problem)) }
    requires fits { IfOk prepared (λ problem. too_wide (sequence_test problem) ≡ None) }
    ensures { let answers = AnswersPrepared sequence_test sequence_network running_sequence in
        let about = answers asking heading.now.sizes heading.now.dropped heading.now.extra in
        about has prepared result }
{
    report_prepared(alloc, asking, heading, has, prepared)
}
