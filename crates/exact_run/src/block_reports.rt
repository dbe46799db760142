// The reports of the tests of treatments in blocks.
ghost use Rattle.std.specs.Prelude.{◌≡◌, Ok, IfErr, IfOk};
ghost use Rattle.record_reader.specs.Layouts.{MayPick};
ghost use Rattle.weights.specs.Results.{with_fault};
ghost use Rattle.sample_reader.specs.Data.{block_data_of};
ghost use Rattle.block_tests.specs.BlockTests.{TakesCells, has_tail};
ghost use Rattle.exact_run.specs.BlockQuestions.{block_sizes, blocks_of, blocks_read, layout_read};
ghost use Rattle.run_outcome.specs.CauseSteps.{Fulfils, IsCauseOf};
ghost use Rattle.run_outcome.specs.Outcome.{tails_by};
ghost use Rattle.exact_run.specs.Layouts.{layout_refusal};

use crate::layouts::{heading_for, layout_refusal};
use crate::prepared_reports::report_blocks;
use block_tests::{BlockKind, prepare};
use record_reader::Rows;
use report::{Extra, Refusal, Sizes};
use run_outcome::{ALL, GREATER, Request};
use sample_reader::{Blocks, Layout, binary_blocks, blocks};
use settings::Settings;
use std::alloc::Global;
use weights::{Bytes, Tails};

// The blocks that a test reads, or the refusal of their fault.
fn blocks_read(
    alloc: Global,
    kind: BlockKind,
    settings: &Settings,
    rows: &Rows,
) -> Result<Blocks, Refusal>
    requires { MayPick 2 8 settings.now.picks }
    ensures ok { let found = blocks_read kind settings.now.missing settings.now.picks rows.now in
        IfOk result (λ blocks. with_fault layout_refusal found ≡ Ok (block_data_of blocks)) }
    ensures cells { IfOk result (λ blocks. TakesCells kind blocks.cells) }
    ensures err { let found = blocks_read kind settings.now.missing settings.now.picks rows.now in
        IfErr result (IsCauseOf (with_fault layout_refusal found)) }
{
    let read = match kind {
        BlockKind::Cochran => binary_blocks(alloc, rows, &settings.picks, settings.missing),
        _ => blocks(alloc, rows, &settings.picks, settings.missing),
    };
    read.map_err(layout_refusal)
}

// The layout of the blocks that a test reads.
fn layout_read(kind: BlockKind) -> Layout
    ensures { result ≡ layout_read kind }
{
    match kind {
        BlockKind::Cochran => Layout::BinaryBlocks,
        _ => Layout::Blocks,
    }
}

// The tails that a test has.
fn tails_of(kind: BlockKind) -> Tails
    ensures { result ≡ tails_by (has_tail kind) }
{
    match kind {
        BlockKind::Page => ALL,
        _ => GREATER,
    }
}

fn sizes_of(blocks: &Blocks) -> Sizes
    ensures { result ≡ block_sizes (block_data_of blocks.now) }
{
    Sizes::Blocks {
        blocks: blocks.blocks,
        treatments: blocks.treatments,
    }
}

/// The report of a test of treatments in blocks, or the refusal.
pub(crate) fn block_report(
    alloc: Global,
    kind: BlockKind,
    request: &Request,
) -> Result<Bytes, Refusal>
    requires { MayPick 2 8 request.now.settings.now.picks }
    ensures { Fulfils request.now (blocks_of kind) result }
{
    let blocks = blocks_read(alloc, kind, request.settings, request.rows)?;
    let problem = prepare(alloc, kind, &blocks);
    let heading = heading_for(request, sizes_of(&blocks), layout_read(kind), Extra::None);
    report_blocks(alloc, request.asking, &heading, tails_of(kind), problem)
}
