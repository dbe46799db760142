// Draws that are kept as a list of the places at which there are some.
ghost use Rattle.std.specs.Prelude.{◌≡◌, ℕ, ◌+◌, ◌-◌, ◌*◌, ◌^◌, ◌<◌, ◌≤◌, [], ◌∷◌, ◌++◌, drop};
ghost use Rattle.std.specs.Prelude.{get_or, length, max, IfOk, OnOk};
ghost use Rattle.weights.specs.declared.TheConstants.{MAX};
ghost use Rattle.score_convolution.specs.Places.{AllEnough, AllNear, IsUpper, Rise, behind, draws_of};
ghost use Rattle.score_convolution.specs.Places.{enough, spots_sum};

use crate::tallies::Tally;
use std::alloc::Global;
use std::marker::Model;
use weights::{Count, NoMemory};

/// So many draws at a place.
#[derive(Clone, Copy, Debug, PartialEq, Eq)]
pub(crate) struct Spot {
    pub place: u128,
    pub draws: u128,
}

/// The spots from an index on, and how many draws they have.
#[derive(Clone, Copy, Debug, PartialEq, Eq)]
pub(crate) struct Upper {
    pub index: usize,
    pub draws: u128,
}

/// What is taken of a list: how many draws, and from where it goes on.
#[derive(Clone, Copy, Debug, PartialEq, Eq)]
pub(crate) struct Taken {
    pub draws: u128,
    pub next: usize,
}

/// Spots, each kept as two counts: its place and its draws.
#[derive(Drop)]
struct Spots<C: Count> {
    pairs: Vec<(C, C)>,
}

impl<C: Count> Model for Spots<C> {
    ghost use Rattle.std.specs.Prelude.{List, map};
    ghost use Rattle.score_convolution.specs.declared.lists.Spot.{Spot};
    ghost use Rattle.score_convolution.specs.Places.{spot_of};

    ghost Value = { List Spot };

    ghost view = { λ spots. map (spot_of C.number) spots.pairs.items };
}

impl<C: Count> Spots<C> {
    // None, with room for so many.
    fn new(alloc: Global, room: usize) -> Result<Spots<C>, NoMemory>
        ensures { IfOk result (λ spots. spots ≡ []) }
    {
        let mut pairs = Vec::new(alloc);
        pairs.reserve(room)?;
        Ok(Spots { pairs })
    }

    // The same spots.
    fn copy(&self, alloc: Global) -> Result<Spots<C>, NoMemory>
        ensures { IfOk result (λ spots. spots ≡ self.now) }
    {
        let pairs = Vec::from_slice(alloc, self.pairs.as_slice())?;
        Ok(Spots { pairs })
    }

    #[inline(always)]
    fn len(&self) -> usize
        ensures { result ≡ length self.now }
    {
        self.pairs.len()
    }

    #[inline(always)]
    fn at(&self, i: usize) -> Spot
        requires { i < length self.now }
        ensures { result ≡ get_or self.now i result }
    {
        let (place, draws) = self.pairs[i];
        Spot {
            place: place.value(),
            draws: draws.value(),
        }
    }

    // Adds a spot. One that is not two such counts has no memory.
    #[inline(always)]
    fn push(&mut self, spot: Spot) -> Result<(), NoMemory>
        ensures { OnOk result (self.new ≡ self.old ++ spot ∷ []) }
    {
        let (Some(place), Some(draws)) = (C::of(spot.place), C::of(spot.draws)) else {
            return Err(NoMemory);
        };
        self.pairs.push((place, draws))?;
        Ok(())
    }
}

// The place of a spot that is moved by so many; behind all places where there is none.
#[inline(always)]
fn place_at<C: Count>(spots: &Spots<C>, i: usize, by: u128) -> u128
    requires { AllNear MAX by spots.now }
    ensures some { (d : Spot) → i < length spots.now
        → result ≡ by + (get_or spots.now i d).place }
    ensures none { length spots.now ≤ i → result ≡ 2 ^ 128 - 1 }
{
    if i < spots.len() {
        by + spots.at(i).place
    } else {
        u128::MAX
    }
}

// Takes the draws at a place from a list whose spots are moved by so many, where the first that is
// left stands there.
#[inline(always)]
fn take_at<C: Count>(spots: &Spots<C>, i: usize, by: u128, place: u128) -> Taken
    requires near { AllNear MAX by spots.now }
    requires within { i ≤ length spots.now }
    requires rise { Rise (place - by) (drop i spots.now) }
    ensures within { result.next ≤ length spots.now }
    ensures on { i ≤ result.next }
    ensures moved { (d : Spot) → i < length spots.now
        → by + (get_or spots.now i d).place ≡ place → result.next ≡ i + 1 }
    ensures rise { Rise ((place + 1) - by) (drop result.next spots.now) }
    ensures told { (f : ℕ → ℕ) → result.draws * f place
        + spots_sum (λ p. f (by + p)) (drop result.next spots.now)
        ≡ spots_sum (λ p. f (by + p)) (drop i spots.now) }
{
    if i < spots.len() && by + spots.at(i).place == place {
        Taken {
            draws: spots.at(i).draws,
            next: i + 1,
        }
    } else {
        Taken { draws: 0, next: i }
    }
}

// The spots of two lists, those of the second so many places further on; two at one place as one.
fn merged<C: Count>(
    alloc: Global,
    ones: &Spots<C>,
    others: &Spots<C>,
    by: u128,
) -> Result<Spots<C>, NoMemory>
    requires first { Rise 0 ones.now }
    requires second { Rise 0 others.now }
    requires near { max (behind 0 ones.now) (by + behind 0 others.now) ≤ MAX + 1 }
    requires light { draws_of ones.now + draws_of others.now ≤ MAX }
    ensures rise { IfOk result (Rise 0) }
    ensures told { IfOk result (λ spots. (f : ℕ → ℕ) → spots_sum f spots
        ≡ spots_sum f ones.now + spots_sum (λ p. f (by + p)) others.now) }
    ensures long { IfOk result (λ spots. behind 0 spots
        ≤ max (behind 0 ones.now) (by + behind 0 others.now)) }
{
    let mut spots = Spots::new(alloc, ones.len().saturating_add(others.len()))?;
    let mut i = 0;
    let mut j = 0;
    while i < ones.len() || j < others.len() {
        let place = place_at(ones, i, 0).min(place_at(others, j, by));
        let one = take_at(ones, i, 0, place);
        let other = take_at(others, j, by, place);
        spots.push(Spot {
            place,
            draws: one.draws + other.draws,
        })?;
        i = one.next;
        j = other.next;
    }
    Ok(spots)
}

// Goes down a list for as long as its places are at least so much.
fn go_down<C: Count>(spots: &Spots<C>, least: u128, from: Upper) -> Upper
    requires rise { Rise 0 spots.now }
    requires light { draws_of spots.now ≤ MAX }
    requires upper { IsUpper spots.now from }
    requires enough { AllEnough least (drop from.index spots.now) }
    ensures upper { IsUpper spots.now result }
    ensures enough { AllEnough least (drop result.index spots.now) }
    ensures draws { result.draws ≡ spots_sum (enough least) spots.now }
{
    let Upper {
        mut index,
        mut draws,
    } = from;
    while index > 0 && spots.at(index - 1).place >= least {
        index -= 1;
        draws += spots.at(index).draws;
    }
    Upper { index, draws }
}

// How many pairs stand at places that sum to at least so much: where one place rises, the least
// that it needs falls, so each list is read once.
fn pairs_from<C: Count>(ones: &Spots<C>, others: &Spots<C>, place: u128) -> u128
    requires first { Rise 0 ones.now }
    requires second { Rise 0 others.now }
    requires light { draws_of others.now ≤ MAX }
    requires fits { draws_of ones.now * draws_of others.now ≤ MAX }
    ensures { result ≡ spots_sum (λ p. spots_sum (enough (place - p)) others.now) ones.now }
{
    let mut upper = Upper {
        index: others.len(),
        draws: 0,
    };
    let mut pairs = 0;
    for i in 0..ones.len() {
        let one = ones.at(i);
        upper = go_down(others, place.saturating_sub(one.place), upper);
        pairs += one.draws * upper.draws;
    }
    pairs
}

/// The places at which there are draws, rising.
#[derive(Drop)]
pub(crate) struct SumList<C: Count> {
    spots: Spots<C>,
}

impl<C: Count> Model for SumList<C> {
    ghost use Rattle.std.specs.Prelude.{List};
    ghost use Rattle.score_convolution.specs.declared.lists.Spot.{Spot};
    ghost use Rattle.score_convolution.specs.Places.{Rise};

    ghost Value = { List Spot };

    ghost view = { λ list. list.spots };

    ghost invariant = { λ list. Rise 0 list.spots };
}

impl<C: Count> Tally for SumList<C> {
    ghost use Rattle.score_convolution.specs.Places.{cells_from};

    ghost LIMIT = { C.LIMIT };

    ghost cells = { λ spots. cells_from 0 spots };

    fn one(alloc: Global) -> Result<SumList<C>, NoMemory> {
        let mut spots = Spots::new(alloc, 1)?;
        spots.push(Spot { place: 0, draws: 1 })?;
        Ok(SumList { spots })
    }

    fn copy(&self, alloc: Global) -> Result<SumList<C>, NoMemory> {
        Ok(SumList {
            spots: self.spots.copy(alloc)?,
        })
    }

    fn add(&mut self, alloc: Global, from: &SumList<C>, place: u128) -> Result<(), NoMemory> {
        self.spots = merged(alloc, &self.spots, &from.spots, place)?;
        Ok(())
    }

    fn pairs_from(&self, other: &SumList<C>, place: u128) -> u128 {
        pairs_from(&self.spots, &other.spots, place)
    }
}
