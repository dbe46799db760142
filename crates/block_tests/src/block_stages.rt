// The networks of a test of blocks, under one type with a name: what takes a network is then told
// of this type, and not of all that stands in it.
ghost use Rattle.std.specs.Prelude.{◌≡◌, ◌+◌, ◌++◌, ◌≤◌, length};
ghost use Rattle.rank_assignments.specs.Assignments.{unassigned};

use crate::page::PageBlocks;
use crate::squares::SquareBlocks;
use networks::{AdditiveStages, Onward, Roomed, Stages, Verdict, write_key};
use rank_assignments::AssignedBlocks;
use weights::Tail;

/// The network of squared sums, a block a stage.
pub(crate) type SquareStages = AdditiveStages<SquareBlocks>;

/// The network of Page's sums, a block a stage.
pub(crate) type PageStages = AdditiveStages<PageBlocks>;

/// A network of a test of blocks.
#[derive(Drop)]
pub enum BlockStages {
    /// Of squared sums, with numbers that are given to treatments one after another.
    Assigned(AssignedBlocks),
    /// Of squared sums.
    Squares(SquareStages),
    /// Of Page's sums.
    Page(PageStages),
}

impl Stages for BlockStages {
    ghost use Rattle.block_tests.specs.BlockStages.{of_kind};

    ghost network = { of_kind ⟦<AssignedBlocks as Stages>⟧.network
        ⟦<SquareStages as Stages>⟧.network
        ⟦<PageStages as Stages>⟧.network };

    fn stages(&self) -> usize {
        match self {
            BlockStages::Assigned(n) => n.stages(),
            BlockStages::Squares(n) => n.stages(),
            BlockStages::Page(n) => n.stages(),
        }
    }

    fn width(&self) -> usize {
        match self {
            BlockStages::Assigned(n) => n.width(),
            BlockStages::Squares(n) => n.width(),
            BlockStages::Page(n) => n.width(),
        }
    }

    fn choice_width(&self) -> usize {
        match self {
            BlockStages::Assigned(n) => n.choice_width(),
            BlockStages::Squares(n) => n.choice_width(),
            BlockStages::Page(n) => n.choice_width(),
        }
    }

    fn first_key(&self, key: &mut [i128]) {
        match self {
            BlockStages::Assigned(n) => n.first_key(key),
            BlockStages::Squares(n) => n.first_key(key),
            BlockStages::Page(n) => n.first_key(key),
        }
    }

    fn first_choice(&self, stage: usize, key: &[i128], choice: &mut [u64]) -> bool {
        match self {
            BlockStages::Assigned(n) => n.first_choice(stage, key, choice),
            BlockStages::Squares(n) => n.first_choice(stage, key, choice),
            BlockStages::Page(n) => n.first_choice(stage, key, choice),
        }
    }

    fn next_choice(&self, stage: usize, key: &[i128], choice: &mut [u64]) -> bool {
        match self {
            BlockStages::Assigned(n) => n.next_choice(stage, key, choice),
            BlockStages::Squares(n) => n.next_choice(stage, key, choice),
            BlockStages::Page(n) => n.next_choice(stage, key, choice),
        }
    }

    fn apply(&self, stage: usize, key: &[i128], choice: &[u64], next: &mut [i128]) -> u128 {
        match self {
            BlockStages::Assigned(n) => n.apply(stage, key, choice, next),
            BlockStages::Squares(n) => n.apply(stage, key, choice, next),
            BlockStages::Page(n) => n.apply(stage, key, choice, next),
        }
    }

    fn rest(&self, stage: usize, key: &[i128]) -> u128 {
        match self {
            BlockStages::Assigned(n) => n.rest(stage, key),
            BlockStages::Squares(n) => n.rest(stage, key),
            BlockStages::Page(n) => n.rest(stage, key),
        }
    }

    fn verdict(&self, stage: usize, key: &[i128], tail: Tail) -> Verdict {
        match self {
            BlockStages::Assigned(n) => n.verdict(stage, key, tail),
            BlockStages::Squares(n) => n.verdict(stage, key, tail),
            BlockStages::Page(n) => n.verdict(stage, key, tail),
        }
    }

    fn value(&self, key: &[i128]) -> i128 {
        match self {
            BlockStages::Assigned(n) => n.value(key),
            BlockStages::Squares(n) => n.value(key),
            BlockStages::Page(n) => n.value(key),
        }
    }
}

impl Roomed for BlockStages {
    ghost use Rattle.block_tests.specs.BlockStages.{of_kind};

    ghost room_width = { of_kind ⟦<AssignedBlocks as Roomed>⟧.room_width
        ⟦<SquareStages as Roomed>⟧.room_width
        ⟦<PageStages as Roomed>⟧.room_width };

    ghost step_width = { of_kind ⟦<AssignedBlocks as Roomed>⟧.step_width
        ⟦<SquareStages as Roomed>⟧.step_width
        ⟦<PageStages as Roomed>⟧.step_width };

    ghost step_of = { of_kind ⟦<AssignedBlocks as Roomed>⟧.step_of
        ⟦<SquareStages as Roomed>⟧.step_of
        ⟦<PageStages as Roomed>⟧.step_of };

    ghost outlook_width = { of_kind ⟦<AssignedBlocks as Roomed>⟧.outlook_width
        ⟦<SquareStages as Roomed>⟧.outlook_width
        ⟦<PageStages as Roomed>⟧.outlook_width };

    ghost outlook_of = { of_kind ⟦<AssignedBlocks as Roomed>⟧.outlook_of
        ⟦<SquareStages as Roomed>⟧.outlook_of
        ⟦<PageStages as Roomed>⟧.outlook_of };

    fn room_width(&self) -> usize {
        match self {
            BlockStages::Assigned(n) => n.room_width(),
            BlockStages::Squares(n) => n.room_width(),
            BlockStages::Page(n) => n.room_width(),
        }
    }

    fn cross(&self, stage: usize, key: &[i128], choice: &[u64], room: &mut [i128]) -> u128 {
        match self {
            BlockStages::Assigned(n) => n.cross(stage, key, choice, room),
            BlockStages::Squares(n) => n.cross(stage, key, choice, room),
            BlockStages::Page(n) => n.cross(stage, key, choice, room),
        }
    }

    fn step_width(&self) -> usize {
        match self {
            BlockStages::Assigned(n) => n.step_width(),
            BlockStages::Squares(n) => n.step_width(),
            BlockStages::Page(n) => n.step_width(),
        }
    }

    fn step(&self, stage: usize, room: &[i128], choice: &[u64], step: &mut [i128]) {
        match self {
            BlockStages::Assigned(n) => n.step(stage, room, choice, step),
            BlockStages::Squares(n) => n.step(stage, room, choice, step),
            BlockStages::Page(n) => n.step(stage, room, choice, step),
        }
    }

    #[inline(always)]
    fn advance(
        &self,
        stage: usize,
        room: &[i128],
        choice: &[u64],
        step: &[i128],
        partial: &[i128],
        next: &mut [i128],
    ) {
        match self {
            BlockStages::Assigned(n) => n.advance(stage, room, choice, step, partial, next),
            BlockStages::Squares(n) => n.advance(stage, room, choice, step, partial, next),
            BlockStages::Page(n) => n.advance(stage, room, choice, step, partial, next),
        }
    }

    fn outlook_width(&self) -> usize {
        match self {
            BlockStages::Assigned(n) => n.outlook_width(),
            BlockStages::Squares(n) => n.outlook_width(),
            BlockStages::Page(n) => n.outlook_width(),
        }
    }

    fn outlook(&self, stage: usize, room: &[i128], outlook: &mut [i128]) {
        match self {
            BlockStages::Assigned(n) => n.outlook(stage, room, outlook),
            BlockStages::Squares(n) => n.outlook(stage, room, outlook),
            BlockStages::Page(n) => n.outlook(stage, room, outlook),
        }
    }

    #[inline(always)]
    fn verdict_by(
        &self,
        stage: usize,
        room: &[i128],
        outlook: &[i128],
        partial: &[i128],
        tail: Tail,
    ) -> Verdict {
        match self {
            BlockStages::Assigned(n) => n.verdict_by(stage, room, outlook, partial, tail),
            BlockStages::Squares(n) => n.verdict_by(stage, room, outlook, partial, tail),
            BlockStages::Page(n) => n.verdict_by(stage, room, outlook, partial, tail),
        }
    }

    fn is_shift(&self) -> bool {
        match self {
            BlockStages::Assigned(n) => n.is_shift(),
            BlockStages::Squares(n) => n.is_shift(),
            BlockStages::Page(n) => n.is_shift(),
        }
    }

    fn same_for(
        &self,
        stage: usize,
        room: &[i128],
        outlook: &[i128],
        partial: i128,
        tail: Tail,
    ) -> u128 {
        match self {
            BlockStages::Assigned(n) => n.same_for(stage, room, outlook, partial, tail),
            BlockStages::Squares(n) => n.same_for(stage, room, outlook, partial, tail),
            BlockStages::Page(n) => n.same_for(stage, room, outlook, partial, tail),
        }
    }
}

// The sums of treatments of which none has a number of a block yet, as a key of assignments.
fn write_unassigned(sums: &[i128], key: &mut [i128])
    requires few { length sums.now ≤ 8 }
    requires room { length key.old ≡ length sums.now + length sums.now }
    ensures { key.new ≡ unassigned (length sums.now) ++ sums.now }
{
    let ones = [1i128; 8];
    write_key(&ones[..sums.len()], sums, key);
}

impl Onward for BlockStages {
    ghost use Rattle.std.specs.Prelude.{◌≡◌, ◌++◌, length};
    ghost use Rattle.rank_assignments.specs.Assignments.{unassigned};
    ghost use Rattle.block_tests.specs.BlockStages.{AreTreatmentSums, of_kind, taken_of_kind};

    ghost takes = { taken_of_kind
        (λ n g key. AreTreatmentSums n.0.1.assignments.treatments key
        (⟦<AssignedBlocks as Onward>⟧.takes n g
        (unassigned n.0.1.assignments.treatments ++ key)))
        (λ n g key. length key ≡ (⟦<SquareStages as Stages>⟧.network n).width)
        (λ n g key. length key ≡ (⟦<PageStages as Stages>⟧.network n).width) };

    ghost image_of = { of_kind
        (λ n g key. ⟦<AssignedBlocks as Onward>⟧.image_of n g
        (unassigned n.0.1.assignments.treatments ++ key))
        (λ n g key. key)
        (λ n g key. key) };

    fn write_image(&self, stage: usize, key: &[i128], image: &mut [i128]) {
        match self {
            BlockStages::Assigned(n) => {
                let mut numbers = [0i128; 16];
                let whole = &mut numbers[..2 * key.len()];
                write_unassigned(key, whole);
                n.write_image(stage, whole, image);
            }
            BlockStages::Squares(_) => image.copy_from_slice(key),
            BlockStages::Page(_) => image.copy_from_slice(key),
        }
    }
}
