// The public calls of `pieces`.
ghost use Rattle.std.specs.Prelude.{◌<◌, ◌≡◌, ◌≤◌, IfOk, length, ℕ, ◌≢◌, ◌⊎◌, ◌&&◌, ◌||◌, IfSome, None, nat_le, true, [], ◌∷◌, ◌++◌, List, codes, decimal, Some};
ghost use Rattle.node_pool.specs.Nodes.{keys};
ghost use Rattle.piece_texts.specs.Merges.{MergeGives};
ghost use Rattle.piece_texts.specs.PieceTexts.{line_count, piece_text};
ghost use Rattle.piece_texts.specs.ReadPieces.{ReadGives};
ghost use Rattle.piece_texts.specs.RunNames.{run_name};
ghost use Rattle.pieces.specs.Cuts.{IsCut, cut_nodes, owned_sum, PartsAddUp};
ghost use Rattle.piece_texts.specs.Places.{piece_at};
ghost use Rattle.std.specs.List.{AllByRecursion, flat_map, list_all};
ghost use Rattle.weights.specs.declared.TheConstants.{MAX};

use pieces::{Cut, MergeFault, Merged, Piece, PieceFault, PieceSum, Pieces};
use stage_network::Stages;
use std::alloc::Global;
use weights::{Bytes, Ints, NoMemory, Tail};

/// The name of a run.
pub fn name_of(words: &[u8], file: &[u8]) -> [u8; 64]
    ensures { result ≡ run_name words.now file.now }
{
    pieces::name_of(words, file)
}

/// The text of a piece: its name has 64 lower-case hexadecimal digits, it is one of 1 to 64 parts,
/// its head ends with the line of its total, and it has a tail.
pub fn piece_text(alloc: Global, piece: &Piece) -> Result<Bytes, NoMemory>
    requires long { length piece.now.name ≡ 64 }
    requires digits { list_all
        (λ d. (nat_le 48 d && nat_le d 57) || (nat_le 97 d && nat_le d 102)) piece.now.name ≡ true }
    requires some_parts { 1 ≤ piece.now.parts }
    requires few_parts { piece.now.parts ≤ 64 }
    requires part { piece.now.part < piece.now.parts }
    requires head { (lines : List (List ℕ))
        × AllByRecursion (λ line. AllByRecursion (λ b. b ≢ 10) line) lines
        × (piece.now.head ≡ flat_map (λ line. line ++ 10 ∷ []) lines
        ++ ((codes "total " ++ decimal piece.now.total) ++ 10 ∷ [])) }
    requires few_lines { line_count piece.now.head ≤ MAX }
    requires some_total { 1 ≤ piece.now.total }
    requires total { piece.now.total ≤ MAX }
    requires less { IfSome piece.now.less (λ s. (s.closed ≤ MAX) × (s.sum ≤ MAX)) }
    requires greater { IfSome piece.now.greater (λ s. (s.closed ≤ MAX) × (s.sum ≤ MAX)) }
    requires two { IfSome piece.now.two (λ s. (s.closed ≤ MAX) × (s.sum ≤ MAX)) }
    requires tail { (piece.now.less ≢ None)
        ⊎ ((piece.now.greater ≢ None) ⊎ (piece.now.two ≢ None)) }
    ensures { IfOk result (λ text. text ≡ piece_text piece.now) }
{
    pieces::piece_text(alloc, piece)
}

/// The pieces of a text, or the first line that no pieces have there.
pub fn read_pieces(alloc: Global, bytes: &[u8]) -> Result<Pieces, PieceFault>
    ensures { ReadGives bytes.now result }
{
    pieces::read_pieces(alloc, bytes)
}

/// How many pieces there are.
pub fn piece_count(pieces: &Pieces) -> usize
    ensures { result ≡ length pieces.now }
{
    pieces.len()
}

/// A piece.
pub fn piece_at(pieces: &Pieces, i: usize) -> &Piece
    requires { i < length pieces.now }
    ensures { result.now ≡ piece_at pieces.now i }
{
    pieces.at(i)
}

/// The merge of pieces, or the first fault.
pub fn merge(alloc: Global, pieces: &Pieces) -> Result<Merged, MergeFault>
    requires { 1 ≤ length pieces.now }
    ensures { MergeGives pieces.now result }
{
    pieces::merge(alloc, pieces)
}

/// The two sums of a tail.
pub fn piece_sum(closed: u128, sum: u128) -> PieceSum
    ensures { result ≡ record { closed = closed; sum = sum } }
{
    PieceSum { closed, sum }
}

/// A piece with the tail of greater values alone.
pub fn piece_of_greater(
    name: [u8; 64],
    parts: u64,
    part: u64,
    head: Bytes,
    total: u128,
    greater: PieceSum,
) -> Piece
    ensures parts { result.parts ≡ parts }
    ensures part { result.part ≡ part }
    ensures total { result.total ≡ total }
    ensures less { result.less ≡ None }
    ensures greater { result.greater ≡ Some greater }
    ensures two { result.two ≡ None }
{
    Piece {
        name,
        parts,
        part,
        head,
        total,
        less: None,
        greater: Some(greater),
        two: None,
    }
}

/// What is merged, with the tail of greater values alone.
pub fn merged_of_greater(head: Bytes, total: u128, greater: u128) -> Merged
    ensures head { result.head ≡ head }
    ensures total { result.total ≡ total }
    ensures greater { result.greater ≡ Some greater }
{
    Merged {
        head,
        total,
        less: None,
        greater: Some(greater),
        two: None,
    }
}

/// The line of a fault. Faults are two, and no other.
pub fn fault_line(fault: PieceFault) -> Option<u64>
    ensures { (line : ℕ) → fault ≡ PieceFault.Line line → result ≡ Some line }
{
    match fault {
        PieceFault::Line(line) => Some(line),
        PieceFault::NoMemory => None,
    }
}

/// The place of a fault of the merge. There are five, and no other.
pub fn merge_fault_place(fault: MergeFault) -> u64
    ensures { (1 ≤ result) × (result ≤ 5) }
{
    match fault {
        MergeFault::Foreign(_) => 1,
        MergeFault::Doubled(_) => 2,
        MergeFault::Missing(_) => 3,
        MergeFault::Unequal(_) => 4,
        MergeFault::NoMemory => 5,
    }
}

/// A network cut at a stage: its open keys there with their weights, and the closed sum.
pub fn cut<S: Stages>(alloc: Global, stages: &S, tail: Tail, at: usize) -> Result<Cut, NoMemory>
    requires { at ≤ (S.network stages.now).count }
    ensures at { IfOk result (λ cut. cut.at ≡ at) }
    ensures cut { IfOk result (IsCut (S.network stages.now) tail) }
    ensures parts { let n = S.network stages.now in
        IfOk result (λ cut. PartsAddUp n tail at cut.closed (keys (cut_nodes n cut))) }
{
    pieces::cut(alloc, stages, tail, at)
}

/// The sum of the keys that a part owns of the cut that `cut` gives, where each of them has an
/// owner; none where there is another number of owners. With it stand the cut and what it promises.
pub fn run_piece<S: Stages>(
    alloc: Global,
    stages: &S,
    tail: Tail,
    at: usize,
    owners: &[u64],
    part: u64,
) -> Result<Option<(Cut, u128)>, NoMemory>
    requires { at ≤ (S.network stages.now).count }
    ensures sum { let n = S.network stages.now in
        IfOk result (λ found. IfSome found (λ both.
        both.1 ≡ owned_sum n tail at (keys (cut_nodes n both.0)) owners.now part)) }
    ensures parts { let n = S.network stages.now in
        IfOk result (λ found. IfSome found (λ both.
        PartsAddUp n tail at both.0.closed (keys (cut_nodes n both.0)))) }
{
    let from = pieces::cut(alloc, stages, tail, at)?;
    if owners.len() != from.weights.len() {
        return Ok(None);
    }
    let sum = pieces::run_piece(alloc, stages, tail, &from, owners, part)?;
    Ok(Some((from, sum)))
}

/// A cut, of its four parts.
pub fn cut_parts(at: usize, closed: u128, keys: Ints, weights: Ints) -> Cut
    ensures at { result.at ≡ at }
    ensures closed { result.closed ≡ closed }
    ensures keys { result.keys ≡ keys }
    ensures weights { result.weights ≡ weights }
{
    Cut {
        at,
        closed,
        keys,
        weights,
    }
}
