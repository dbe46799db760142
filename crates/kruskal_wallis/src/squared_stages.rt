// The networks of a test of Kruskal and Wallis, under one type with a name: what takes a network
// is then told of this type, and not of all that stands in it.

use crate::centred_sums::CentredSums;
use crate::rank_sums::RankSums;
use label_network::{LabelNetwork, LabelRooms};
use networks::{Onward, Roomed, Stages, Verdict};
use packed_keys::PackedGroups;
use symmetry_reduction::SymmetryReduced;
use weights::Tail;

/// The network of the groups' sums with groups of equal size in order and the sums in one number.
pub(crate) type EqualGroups = PackedGroups<LabelRooms, CentredSums>;

/// The same with a number for each group.
pub(crate) type OrderedSums = SymmetryReduced<LabelRooms, RankSums>;

/// The network as it is written, with a number for each group.
pub(crate) type WrittenSums = LabelNetwork<RankSums>;

/// A network of a test of Kruskal and Wallis.
#[derive(Drop)]
pub enum SquaredStages {
    /// With groups of equal size in order, and their sums in one number.
    Packed(EqualGroups),
    /// With groups of equal size in order.
    Ordered(OrderedSums),
    /// As it is written.
    Written(WrittenSums),
}

impl Stages for SquaredStages {
    ghost use Rattle.kruskal_wallis.specs.SquaredStages.{of_kind};

    ghost network = { of_kind ⟦<EqualGroups as Stages>⟧.network
        ⟦<OrderedSums as Stages>⟧.network
        ⟦<WrittenSums as Stages>⟧.network };

    fn stages(&self) -> usize {
        match self {
            SquaredStages::Packed(n) => n.stages(),
            SquaredStages::Ordered(n) => n.stages(),
            SquaredStages::Written(n) => n.stages(),
        }
    }

    fn width(&self) -> usize {
        match self {
            SquaredStages::Packed(n) => n.width(),
            SquaredStages::Ordered(n) => n.width(),
            SquaredStages::Written(n) => n.width(),
        }
    }

    fn choice_width(&self) -> usize {
        match self {
            SquaredStages::Packed(n) => n.choice_width(),
            SquaredStages::Ordered(n) => n.choice_width(),
            SquaredStages::Written(n) => n.choice_width(),
        }
    }

    fn first_key(&self, key: &mut [i128]) {
        match self {
            SquaredStages::Packed(n) => n.first_key(key),
            SquaredStages::Ordered(n) => n.first_key(key),
            SquaredStages::Written(n) => n.first_key(key),
        }
    }

    fn first_choice(&self, stage: usize, key: &[i128], choice: &mut [u64]) -> bool {
        match self {
            SquaredStages::Packed(n) => n.first_choice(stage, key, choice),
            SquaredStages::Ordered(n) => n.first_choice(stage, key, choice),
            SquaredStages::Written(n) => n.first_choice(stage, key, choice),
        }
    }

    fn next_choice(&self, stage: usize, key: &[i128], choice: &mut [u64]) -> bool {
        match self {
            SquaredStages::Packed(n) => n.next_choice(stage, key, choice),
            SquaredStages::Ordered(n) => n.next_choice(stage, key, choice),
            SquaredStages::Written(n) => n.next_choice(stage, key, choice),
        }
    }

    fn apply(&self, stage: usize, key: &[i128], choice: &[u64], next: &mut [i128]) -> u128 {
        match self {
            SquaredStages::Packed(n) => n.apply(stage, key, choice, next),
            SquaredStages::Ordered(n) => n.apply(stage, key, choice, next),
            SquaredStages::Written(n) => n.apply(stage, key, choice, next),
        }
    }

    fn rest(&self, stage: usize, key: &[i128]) -> u128 {
        match self {
            SquaredStages::Packed(n) => n.rest(stage, key),
            SquaredStages::Ordered(n) => n.rest(stage, key),
            SquaredStages::Written(n) => n.rest(stage, key),
        }
    }

    fn verdict(&self, stage: usize, key: &[i128], tail: Tail) -> Verdict {
        match self {
            SquaredStages::Packed(n) => n.verdict(stage, key, tail),
            SquaredStages::Ordered(n) => n.verdict(stage, key, tail),
            SquaredStages::Written(n) => n.verdict(stage, key, tail),
        }
    }

    fn value(&self, key: &[i128]) -> i128 {
        match self {
            SquaredStages::Packed(n) => n.value(key),
            SquaredStages::Ordered(n) => n.value(key),
            SquaredStages::Written(n) => n.value(key),
        }
    }
}

impl Roomed for SquaredStages {
    ghost use Rattle.kruskal_wallis.specs.SquaredStages.{of_kind};

    ghost room_width = { of_kind ⟦<EqualGroups as Roomed>⟧.room_width
        ⟦<OrderedSums as Roomed>⟧.room_width
        ⟦<WrittenSums as Roomed>⟧.room_width };

    ghost step_width = { of_kind ⟦<EqualGroups as Roomed>⟧.step_width
        ⟦<OrderedSums as Roomed>⟧.step_width
        ⟦<WrittenSums as Roomed>⟧.step_width };

    ghost step_of = { of_kind ⟦<EqualGroups as Roomed>⟧.step_of
        ⟦<OrderedSums as Roomed>⟧.step_of
        ⟦<WrittenSums as Roomed>⟧.step_of };

    ghost outlook_width = { of_kind ⟦<EqualGroups as Roomed>⟧.outlook_width
        ⟦<OrderedSums as Roomed>⟧.outlook_width
        ⟦<WrittenSums as Roomed>⟧.outlook_width };

    ghost outlook_of = { of_kind ⟦<EqualGroups as Roomed>⟧.outlook_of
        ⟦<OrderedSums as Roomed>⟧.outlook_of
        ⟦<WrittenSums as Roomed>⟧.outlook_of };

    fn room_width(&self) -> usize {
        match self {
            SquaredStages::Packed(n) => n.room_width(),
            SquaredStages::Ordered(n) => n.room_width(),
            SquaredStages::Written(n) => n.room_width(),
        }
    }

    fn cross(&self, stage: usize, key: &[i128], choice: &[u64], room: &mut [i128]) -> u128 {
        match self {
            SquaredStages::Packed(n) => n.cross(stage, key, choice, room),
            SquaredStages::Ordered(n) => n.cross(stage, key, choice, room),
            SquaredStages::Written(n) => n.cross(stage, key, choice, room),
        }
    }

    fn step_width(&self) -> usize {
        match self {
            SquaredStages::Packed(n) => n.step_width(),
            SquaredStages::Ordered(n) => n.step_width(),
            SquaredStages::Written(n) => n.step_width(),
        }
    }

    fn step(&self, stage: usize, room: &[i128], choice: &[u64], step: &mut [i128]) {
        match self {
            SquaredStages::Packed(n) => n.step(stage, room, choice, step),
            SquaredStages::Ordered(n) => n.step(stage, room, choice, step),
            SquaredStages::Written(n) => n.step(stage, room, choice, step),
        }
    }

    #[inline(always)]
    fn advance(
        &self,
        stage: usize,
        room: &[i128],
        choice: &[u64],
        step: &[i128],
        partial: &[i128],
        next: &mut [i128],
    ) {
        match self {
            SquaredStages::Packed(n) => n.advance(stage, room, choice, step, partial, next),
            SquaredStages::Ordered(n) => n.advance(stage, room, choice, step, partial, next),
            SquaredStages::Written(n) => n.advance(stage, room, choice, step, partial, next),
        }
    }

    fn outlook_width(&self) -> usize {
        match self {
            SquaredStages::Packed(n) => n.outlook_width(),
            SquaredStages::Ordered(n) => n.outlook_width(),
            SquaredStages::Written(n) => n.outlook_width(),
        }
    }

    fn outlook(&self, stage: usize, room: &[i128], outlook: &mut [i128]) {
        match self {
            SquaredStages::Packed(n) => n.outlook(stage, room, outlook),
            SquaredStages::Ordered(n) => n.outlook(stage, room, outlook),
            SquaredStages::Written(n) => n.outlook(stage, room, outlook),
        }
    }

    #[inline(always)]
    fn verdict_by(
        &self,
        stage: usize,
        room: &[i128],
        outlook: &[i128],
        partial: &[i128],
        tail: Tail,
    ) -> Verdict {
        match self {
            SquaredStages::Packed(n) => n.verdict_by(stage, room, outlook, partial, tail),
            SquaredStages::Ordered(n) => n.verdict_by(stage, room, outlook, partial, tail),
            SquaredStages::Written(n) => n.verdict_by(stage, room, outlook, partial, tail),
        }
    }

    fn is_shift(&self) -> bool {
        match self {
            SquaredStages::Packed(n) => n.is_shift(),
            SquaredStages::Ordered(n) => n.is_shift(),
            SquaredStages::Written(n) => n.is_shift(),
        }
    }

    fn same_for(
        &self,
        stage: usize,
        room: &[i128],
        outlook: &[i128],
        partial: i128,
        tail: Tail,
    ) -> u128 {
        match self {
            SquaredStages::Packed(n) => n.same_for(stage, room, outlook, partial, tail),
            SquaredStages::Ordered(n) => n.same_for(stage, room, outlook, partial, tail),
            SquaredStages::Written(n) => n.same_for(stage, room, outlook, partial, tail),
        }
    }
}

impl Onward for SquaredStages {
    ghost use Rattle.std.specs.Prelude.{◌≡◌, length};
    ghost use Rattle.kruskal_wallis.specs.SquaredStages.{of_kind, taken_of_kind};

    ghost takes = { taken_of_kind ⟦<EqualGroups as Onward>⟧.takes
        ⟦<OrderedSums as Onward>⟧.takes
        (λ n g key. length key ≡ (⟦<WrittenSums as Stages>⟧.network n).width) };

    ghost image_of = { of_kind ⟦<EqualGroups as Onward>⟧.image_of
        ⟦<OrderedSums as Onward>⟧.image_of
        (λ n g key. key) };

    fn write_image(&self, stage: usize, key: &[i128], image: &mut [i128]) {
        match self {
            SquaredStages::Packed(n) => n.write_image(stage, key, image),
            SquaredStages::Ordered(n) => n.write_image(stage, key, image),
            SquaredStages::Written(_) => image.copy_from_slice(key),
        }
    }
}
