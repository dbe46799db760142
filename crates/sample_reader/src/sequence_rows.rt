// The sequence of a file.
ghost use Rattle.std.specs.Prelude.{◌≡◌, Ok, IfErr, IfOk};
ghost use Rattle.record_reader.specs.Answers.{IsFaultOf};
ghost use Rattle.record_reader.specs.Layouts.{MayPick};
ghost use Rattle.sample_reader.specs.Data.{sequence_data_of};
ghost use Rattle.sample_reader.specs.Sequences.{sequence_in};

use crate::fields::{is_missing_label, label_in};
use crate::group_rows::{GroupLayout, GroupsSoFar};
use crate::samples::Sequence;
use record_reader::{
    FieldFault, Kind, Layout, LayoutFault, MOST_ROWS, Missing, Picks, Rows, Shape, read_in,
};
use std::alloc::Global;

// The layout of a sequence: a label in each row, and two different labels.
#[derive(Clone, Copy)]
pub(crate) struct SequenceLayout;

impl Layout<GroupsSoFar> for SequenceLayout {
    ghost use Rattle.sample_reader.specs.Sequences.{sequence_layout};

    ghost meaning = { λ _. sequence_layout };

    fn shape(&self) -> Shape {
        Shape {
            narrowest: 1,
            widest: 1,
            too_wide: Kind::FieldCount,
            most_rows: MOST_ROWS,
        }
    }

    fn start(&self, alloc: Global) -> GroupsSoFar {
        GroupsSoFar::empty(alloc)
    }

    fn with_field(
        &self,
        _place: usize,
        text: &[u8],
        so_far: GroupsSoFar,
    ) -> Result<GroupsSoFar, FieldFault> {
        so_far.with_label(2, label_in(text)?)
    }

    fn is_missing(&self, _place: usize, text: &[u8]) -> bool {
        is_missing_label(text)
    }

    fn is_enough(&self, so_far: &GroupsSoFar) -> bool {
        GroupLayout { most: 2 }.is_enough(so_far)
    }
}

/// The sequence of a file, in time linear in it: each row of data has a label.
///
/// A label is the text of its field without the spaces and tabs around it, and labels are the same
/// where their bytes are. There are two different labels, and at most [`MOST_ROWS`] rows below the
/// header, whose texts are not used. Rows and fields have numbers from 1, so the header is row 1.
///
/// Where rows with a missing label are dropped, a row below the header that is not one too many, is
/// as wide as the header, and whose label is empty, is no part of the sequence.
///
/// # Errors
/// `Columns` where there is a header and a listed field is not in it. Else `At` with the first
/// fault of the file: `NoHeader` where it has no row, `FieldCount` where its header has not one
/// field and none are listed, and then, row by row, `TooManyRows`, `FieldCount` where the row is
/// not as wide as the header, and the faults of its picked field: `Missing`, `GroupTooMany` where
/// its label is a third one. `EndsEarly` at the last row, where fewer than two labels occur. Or
/// else `NoMemory` where memory runs out.
pub fn sequence(
    alloc: Global,
    rows: &Rows,
    picks: &Picks,
    missing: Missing,
) -> Result<Sequence, LayoutFault>
    requires { MayPick 1 1 picks.now }
    ensures ok { IfOk result (λ sequence.
        sequence_in missing picks.now rows.now ≡ Ok (sequence_data_of sequence)) }
    ensures fault { IfErr result (IsFaultOf (sequence_in missing picks.now rows.now)) }
{
    let subjects = read_in(alloc, &SequenceLayout, missing, rows, picks)?;
    Ok(subjects.into_sequence(alloc)?)
}
