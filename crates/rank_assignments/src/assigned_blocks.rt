// The network of assignments with treatments in order.
ghost use Rattle.std.specs.Prelude.{◌≡◌, ◌≤◌, ℕ, ℤ, List, IfOk};
ghost use Rattle.weights.specs.Conditional.{ConditionalTest};
ghost use Rattle.weights.specs.declared.tails.Tail.{Tail};
ghost use Rattle.networks.specs.Follows.{Follows};
ghost use Rattle.networks.specs.Judged.{judge_of};
ghost use Rattle.networks.specs.Network.{IsReached};
ghost use Rattle.rank_assignments.specs.Reflections.{reflections_of};
ghost use Rattle.rank_assignments.specs.Assignments.{AreAssignments, alike, has_room_for};
ghost use Rattle.rank_assignments.specs.Assignments.{assigned_network, assignment_network};
ghost use Rattle.rank_assignments.specs.Assignments.{order_for};

use crate::assigned_sums::{AssignedSums, AssignmentRooms};
use crate::assignment::Assignment;
use crate::assignments::Assignments;
use networks::Judge;
use packed_keys::{PackedGroups, bits_for};
use room_network::RoomNetwork;
use std::alloc::Global;
use symmetry_reduction::{Order, SymmetryReduced};
use weights::NoMemory;

/// Blocks whose numbers are given to treatments one after another, each to those that have none of
/// its block yet. Between blocks treatments are in order by their sums, and from seven treatments
/// on after each number too. A block of k numbers costs a key at most k 2^(k - 1) arcs, where it
/// has k! arrangements, and keys that meet within a block are one. Where the blocks are the same
/// from both ends, so are keys between blocks that are reflections of each other.
pub type OrderedBlocks = SymmetryReduced<AssignmentRooms, AssignedSums>;

/// The same with the treatments' sums in one number, which a choice only adds to where it leaves
/// the order as it is.
pub type AssignedBlocks = PackedGroups<AssignmentRooms, AssignedSums>;

/// Whether one number has room for the sums of treatments after so many assignments.
pub fn has_room_for(treatments: usize, count: usize) -> bool
    requires some { 2 ≤ treatments }
    requires few { count ≤ 170000 }
    ensures { result ≡ has_room_for treatments count }
{
    16 * (count as u64) < 1 << bits_for(treatments)
}

// Of so many treatments and more, keys that differ in order alone are too many within a block.
const MANY: usize = 7;

// How treatments are put in order by their sums: between blocks, or after each number too.
fn order_for(treatments: usize) -> Order
    ensures { result ≡ order_for treatments }
{
    if treatments < MANY {
        Order::SumsWhereAllRemain
    } else {
        Order::Sums
    }
}

// These assignments in memory of their own.
fn all_of(
    alloc: Global,
    items: &[Assignment],
    treatments: usize,
    from: usize,
    judge: Judge,
) -> Result<Assignments, NoMemory>
    requires { AreAssignments treatments items.now judge }
    ensures treatments { IfOk result (λ s. s.treatments ≡ treatments) }
    ensures items { IfOk result (λ s. s.items.items ≡ items.now) }
    ensures judge { IfOk result (λ s. s.judge ≡ judge) }
    ensures reflections { IfOk result (λ s.
        s.reflections.items ≡ reflections_of from treatments items.now) }
{
    let own = Vec::from_slice(alloc, items)?;
    Assignments::new(alloc, treatments, own, from, judge)
}

/// The network of blocks of so many treatments with these assignments, after which sums may be
/// reflected from one of them on.
pub fn ordered_blocks(
    alloc: Global,
    items: &[Assignment],
    treatments: usize,
    from: usize,
    judge: Judge,
) -> Result<OrderedBlocks, NoMemory>
    requires { AreAssignments treatments items.now judge }
    ensures sizes { IfOk result (λ s. s.2 ≡ alike treatments) }
    ensures order { IfOk result (λ s. s.3 ≡ order_for treatments) }
    ensures treatments { IfOk result (λ s. s.1.assignments.treatments ≡ treatments) }
    ensures items { IfOk result (λ s. s.1.assignments.items.items ≡ items.now) }
    ensures judge { IfOk result (λ s. s.1.assignments.judge ≡ judge) }
    ensures reflections { IfOk result (λ s.
        s.1.assignments.reflections.items ≡ reflections_of from treatments items.now) }
    ensures follows { let vs = items.now in
        IfOk result (λ s. (test : ConditionalTest) (tail : Tail) → judge ≡ judge_of test
        → Follows test tail
        (assignment_network treatments vs s.1.assignments.reflections.items judge)
        → Follows test tail
        (assigned_network treatments vs s.1.assignments.reflections.items judge)) }
    ensures reached { let vs = items.now in
        IfOk result (λ s. (g : ℕ) (key : List ℤ)
        → IsReached (assigned_network treatments vs s.1.assignments.reflections.items judge) g key
        → IsReached (assignment_network treatments vs s.1.assignments.reflections.items judge)
        g key) }
{
    let given = all_of(alloc, items, treatments, from, judge)?;
    let summed = all_of(alloc, items, treatments, from, judge)?;
    let beside = all_of(alloc, items, treatments, from, judge)?;
    let sizes = vec![in alloc; 1u64; treatments]?;
    let rooms = AssignmentRooms { assignments: given };
    let sums = AssignedSums {
        assignments: summed,
    };
    let stages = RoomNetwork::new(rooms, sums);
    let beside = AssignmentRooms {
        assignments: beside,
    };
    let ordered = SymmetryReduced::new(stages, beside, sizes, order_for(treatments));
    Ok(ordered)
}
