// One of two kinds of tests, as a test that can be answered.

use crate::prepared::Prepared;
use networks::{OneOf, Spread, TailSums};
use std::alloc::Global;
use weights::{NoMemory, Tail, Tails};

impl<A: Prepared, B: Prepared> Prepared for OneOf<A, B> {
    ghost use Rattle.networks.specs.OneOf.{of_either};

    type Built = OneOf<A::Built, B::Built>;

    ghost network = { of_either A.network B.network };

    ghost running = { of_either A.running B.running };

    fn has_tail(&self, tail: Tail) -> bool {
        match self {
            OneOf::First(a) => a.has_tail(tail),
            OneOf::Second(b) => b.has_tail(tail),
        }
    }

    fn is_shared(&self) -> bool {
        match self {
            OneOf::First(a) => a.is_shared(),
            OneOf::Second(b) => b.is_shared(),
        }
    }

    fn stages_of(&self, alloc: Global, tail: Tail) -> Result<Self::Built, NoMemory> {
        match self {
            OneOf::First(a) => Ok(OneOf::First(a.stages_of(alloc, tail)?)),
            OneOf::Second(b) => Ok(OneOf::Second(b.stages_of(alloc, tail)?)),
        }
    }

    fn quick_stages_of(&self, alloc: Global, tail: Tail) -> Result<Self::Built, NoMemory> {
        match self {
            OneOf::First(a) => Ok(OneOf::First(a.quick_stages_of(alloc, tail)?)),
            OneOf::Second(b) => Ok(OneOf::Second(b.quick_stages_of(alloc, tail)?)),
        }
    }

    fn numerators(&self, alloc: Global, tails: Tails) -> Result<TailSums, NoMemory> {
        match self {
            OneOf::First(a) => a.numerators(alloc, tails),
            OneOf::Second(b) => b.numerators(alloc, tails),
        }
    }

    fn quick_distribution(&self, alloc: Global) -> Result<Spread, NoMemory> {
        match self {
            OneOf::First(a) => a.quick_distribution(alloc),
            OneOf::Second(b) => b.quick_distribution(alloc),
        }
    }

    fn sum_onward(
        &self,
        alloc: Global,
        tail: Tail,
        stage: usize,
        keys: &[i128],
        weights: &[u128],
    ) -> Result<u128, NoMemory> {
        match self {
            OneOf::First(a) => a.sum_onward(alloc, tail, stage, keys, weights),
            OneOf::Second(b) => b.sum_onward(alloc, tail, stage, keys, weights),
        }
    }
}
