// A part of a divided run.
ghost use Rattle.std.specs.Prelude.{◌≡◌, ◌≤◌, true, None, Some, IfOk, OnOk};
ghost use Rattle.weights.specs.Wide.{too_wide};
ghost use Rattle.networks.specs.Follows.{HasTails};
ghost use Rattle.piece_texts.specs.PieceTexts.{piece_text};
ghost use Rattle.run_outcome.specs.Divided.{IsDivisible, Serves};
ghost use Rattle.run_outcome.specs.Outcome.{IsPartOf, asked, part_of, piece_for, tail_piece, tails_in};
ghost use Rattle.run_outcome.specs.Question.{question_about};

use crate::reports::{Asking, Heading};
use piece_texts::{Piece, PieceSum, name_of, piece_text};
use pieces::prepared_part;
use report::compose_head;
use settings::PieceOf;
use stage_network::Prepared;
use std::alloc::Global;
use weights::{Bytes, NoMemory, Tail, Tails};

/// Which part of a divided run is asked: part `part` of `parts`, of the open keys of stage `at`, of
/// the run of this name.
#[derive(Clone, Copy)]
pub struct PartOf {
    pub at: u64,
    pub parts: u64,
    pub part: u64,
    pub name: [u8; 64],
}

impl PartOf {
    /// The part that the words ask for, of the run on this file.
    pub(crate) fn of(piece: &PieceOf, file: &[u8]) -> PartOf
        ensures { result ≡ part_of file.now piece.now }
    {
        PartOf {
            at: piece.at,
            parts: piece.parts,
            part: piece.part,
            name: name_of(piece.given.as_slice(), file),
        }
    }
}

// What a cut closes for a tail, and what a part of its open keys comes to, where it is asked.
fn tail_piece<P: Prepared>(
    alloc: Global,
    part: PartOf,
    problem: &P,
    tail: Tail,
    is_asked: bool,
) -> Result<Option<PieceSum>, NoMemory>
    requires parts { 1 ≤ part.parts }
    requires has { is_asked ≡ true → (P.test problem.now).has_tail tail ≡ true }
    ensures sums { let network = P.network problem.now in
        IfOk result (λ found. found ≡ tail_piece part network tail is_asked) }
    ensures serves { let serves = Serves (P.test problem.now) tail (P.running problem.now tail) in
        is_asked ≡ true → OnOk result (serves (P.network problem.now tail)) }
{
    if !is_asked {
        return Ok(None);
    }
    let sums = prepared_part(
        alloc,
        problem,
        tail,
        part.at as usize,
        part.parts,
        part.part,
    )?;
    Ok(Some(sums))
}

/// The text of a part of a problem, for the tails that are asked of it.
pub(crate) fn piece_for<P: Prepared>(
    alloc: Global,
    asking: Asking,
    heading: &Heading,
    tails: Tails,
    part: PartOf,
    problem: &P,
) -> Result<Bytes, NoMemory>
    requires part { IsPartOf part }
    requires asked { asked asking.tail (tails_in (P.test problem.now)) ≡ Some tails }
    requires has { HasTails (P.test problem.now) tails }
    requires fits { too_wide (P.test problem.now) ≡ None }
    ensures text { let about = question_about P.test P.network P.running problem.now in
        let question = about heading.now.sizes heading.now.dropped heading.now.extra in
        IfOk result (λ text. text ≡ piece_text (piece_for part asking tails question)) }
    ensures divisible { let divisible = IsDivisible (P.test problem.now) (P.running problem.now) in
        OnOk result (divisible (P.network problem.now) tails) }
{
    let _shown = problem.has_tail(Tail::Less);
    let frame = problem.frame();
    let head = compose_head(
        alloc,
        asking.title,
        &heading.sizes,
        heading.extra,
        heading.dropped,
        frame.statistic,
        frame.scale,
        frame.total,
    )?;
    let _long = head.len();
    let piece = Piece {
        name: part.name,
        parts: part.parts,
        part: part.part,
        head,
        total: frame.total,
        less: tail_piece(alloc, part, problem, Tail::Less, tails.less)?,
        greater: tail_piece(alloc, part, problem, Tail::Greater, tails.greater)?,
        two: tail_piece(alloc, part, problem, Tail::Two, tails.two)?,
    };
    piece_text(alloc, &piece)
}
