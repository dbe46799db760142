ghost use Rattle.std.specs.Prelude.{◌≢◌, ◌≤◌, IfOk};
ghost use Rattle.record_reader.specs.Layouts.{MayPick};

use crate::{longest_field, rows_with_empty_fields};
use record_reader::{DataFault, Kind, LayoutFault, Missing, Picks, Rows, records};
use sample_reader::{
    Blocks, Groups, Labels, Layout, Subject, blocks, dropped, groups, pooled_subjects,
};
use std::alloc::Global;
use std::process::Abort;
use std::test::Fail;
use weights::{NoMemory, Nums};

// What is found for a text is what is wanted.
fn same<T: PartialEq>(rt: &impl Abort, text: &str, found: &T, wanted: &T) {
    assert!(rt; *found == *wanted, "at {text:?}");
}

// The fault of a kind in a row and a field.
fn at(row: u64, field: u64, kind: Kind) -> LayoutFault {
    LayoutFault::At(DataFault { row, field, kind })
}

// A file in the layout of texts: how many rows are dropped, and the longest field or the first
// fault.
type File = (&'static str, u64, Result<usize, LayoutFault>);

fn reads(rt: &impl Abort, alloc: Global, rows: &Rows, missing: Missing, file: &File) {
    let (text, dropped, longest) = file;
    let told = rows_with_empty_fields(rows, &Picks::Natural, missing);
    same(rt, text, &told, dropped);
    let answer = longest_field(alloc, rows, &Picks::Natural, missing);
    same(rt, text, &answer, longest);
}

fn read_all(rt: &impl Abort, alloc: Global, missing: Missing, files: &[File]) -> Result<(), Fail> {
    for file in files {
        let rows = records(alloc, file.0.as_bytes(), b',')?;
        reads(rt, alloc, &rows, missing, file);
    }
    Ok(())
}

// A layout of a stranger's is read by the same rules.
#[test]
fn reads_a_layout_of_its_own(rt: HostRuntime) -> Result<(), Fail> {
    read_all(
        &rt,
        rt.alloc(),
        Missing::Refuse,
        &[
            ("a,b\nxx,y\nz,\"a,b\"\n", 0, Ok(3)),
            ("a,b\nxx,y\nz,\n", 0, Err(at(3, 2, Kind::Missing))),
            ("a\nx\nx\nx\nx\n", 0, Err(at(5, 0, Kind::TooManyRows))),
            ("a,b,c,d\n", 0, Err(at(1, 0, Kind::TooManyColumns))),
            ("a,b\nx\n", 0, Err(at(2, 0, Kind::FieldCount))),
            ("a\n", 0, Err(at(1, 0, Kind::EndsEarly))),
            ("", 0, Err(at(1, 0, Kind::NoHeader))),
        ],
    )
}

// Rows that miss a field may be dropped, but not one too many, nor one of another width.
#[test]
fn drops_rows_of_a_layout_of_its_own(rt: HostRuntime) -> Result<(), Fail> {
    read_all(
        &rt,
        rt.alloc(),
        Missing::Drop,
        &[
            ("a,b\nxx,y\nlonger,\n", 1, Ok(2)),
            ("a,b\nxx,y\n,longer,\n", 0, Err(at(3, 0, Kind::FieldCount))),
            ("a\n\"\"\nx\nx\nx\n", 1, Err(at(5, 0, Kind::TooManyRows))),
            ("a\nx\nx\nx\n\"\"\n", 0, Err(at(5, 0, Kind::TooManyRows))),
            ("a\n\"\"\n\"\"\n", 2, Err(at(3, 0, Kind::EndsEarly))),
            ("a,b,c,d\n,,,\n", 0, Err(at(1, 0, Kind::TooManyColumns))),
        ],
    )
}

// Picks of the third field and the first.
fn third_and_first(alloc: Global) -> Result<Picks, NoMemory>
    ensures { IfOk result (MayPick 1 3) }
{
    let mut fields = Nums::empty(alloc);
    fields.append(&[3, 1])?;
    Ok(Picks::Listed(fields))
}

// The longest of the picked fields of a file.
fn picked(
    rt: &impl Abort,
    alloc: Global,
    text: &str,
    longest: Result<usize, LayoutFault>,
) -> Result<(), Fail> {
    let picks = third_and_first(alloc)?;
    let rows = records(alloc, text.as_bytes(), b',')?;
    let answer = longest_field(alloc, &rows, &picks, Missing::Refuse);
    same(rt, text, &answer, &longest);
    Ok(())
}

#[test]
fn reads_the_picked_fields(rt: HostRuntime) -> Result<(), Fail> {
    let alloc = rt.alloc();
    picked(&rt, alloc, "a,b,c\nx,longer,yy\n", Ok(2))?;
    picked(&rt, alloc, "a,b\nx,yy\n", Err(LayoutFault::Columns))?;
    picked(&rt, alloc, "a,b,c\nx,yy,\n", Err(at(2, 3, Kind::Missing)))
}

fn tells(rt: &impl Abort, alloc: Global, fault: LayoutFault, wanted: &str) -> Result<(), Fail> {
    let told = format!(in alloc; "{fault}")?;
    assert!(rt; told.as_str() == wanted, "{told:?}");
    Ok(())
}

#[test]
fn faults_tell_their_place(rt: HostRuntime) -> Result<(), Fail> {
    let alloc = rt.alloc();
    tells(
        &rt,
        alloc,
        at(4, 2, Kind::NotNumber),
        "row 4 field 2: not a number",
    )?;
    tells(&rt, alloc, at(3, 0, Kind::FieldCount), "row 3: field count")?;
    tells(&rt, alloc, LayoutFault::from(NoMemory), "no memory")?;
    tells(
        &rt,
        alloc,
        LayoutFault::Columns,
        "a picked field is not in the header",
    )
}

// An empty label, which no file gives.
#[test]
fn keeps_labels(rt: HostRuntime) -> Result<(), Fail> {
    let mut labels = Labels::empty(rt.alloc());
    labels.push(b"left")?;
    labels.push(b"")?;
    assert!(rt; labels.len() == 2);
    assert!(rt; labels.label(1) == b"".as_slice());
    Ok(())
}

// The groups of a file.
fn groups_of(alloc: Global, text: &[u8]) -> Result<Groups, LayoutFault> {
    match records(alloc, text, b',') {
        Ok(rows) => groups(alloc, &rows, &Picks::Natural, 2, Missing::Refuse),
        Err(fault) => Err(LayoutFault::from(fault)),
    }
}

// Whether the subjects have these labels, one by one.
fn have_labels(subjects: &[Subject], labels: &[u64]) -> bool {
    if subjects.len() != labels.len() {
        return false;
    }
    for (subject, label) in subjects.iter().zip(labels) {
        if subject.label != *label {
            return false;
        }
    }
    true
}

fn are_pooled(rt: &impl Abort, alloc: Global, groups: &Groups, labels: &[u64]) {
    match pooled_subjects(alloc, groups) {
        Ok(subjects) => assert!(rt; have_labels(&subjects, labels)),
        Err(_) => panic!(rt; "no memory"),
    }
}

// The pooled sample has its ties in the order of groups.
#[test]
fn pools_ties_by_groups(rt: HostRuntime) {
    match groups_of(rt.alloc(), b"group,value\nx,2\ny,2\nx,-1\ny,1e-18\nx,2\n") {
        Ok(groups) => are_pooled(&rt, rt.alloc(), &groups, &[0, 1, 0, 0, 1]),
        Err(_) => panic!(rt; "no groups"),
    }
}

// Whether three subjects are read, of whom the second is alone in the group `NA`.
fn are_three(read: Result<Groups, LayoutFault>) -> bool {
    match read {
        Ok(read) => {
            read.labels.label(1) == b"NA".as_slice()
                && read.members.as_slice() == [0, 1, 0].as_slice()
        }
        Err(_) => false,
    }
}

// A dropped row with another fault before the missing field or behind it, and a label that stands
// in dropped rows alone, change nothing.
#[test]
fn drops_subjects_whatever_else_they_hold(rt: HostRuntime) -> Result<(), Fail> {
    let text = b"group,value\nz,NA\nx,2\n ,text\nNA,1\nw,\nx,1\n";
    let rows = records(rt.alloc(), text, b',')?;
    assert!(rt; dropped(&rows, &Picks::Natural, Layout::Groups) == 3);
    let read = groups(rt.alloc(), &rows, &Picks::Natural, 2, Missing::Drop);
    assert!(rt; are_three(read));
    Ok(())
}

// Whether two blocks are read.
fn are_two(read: Result<Blocks, LayoutFault>) -> bool {
    match read {
        Ok(read) => read.blocks == 2,
        Err(_) => false,
    }
}

#[test]
fn drops_blocks_whatever_else_they_hold(rt: HostRuntime) -> Result<(), Fail> {
    let text = b"a,b,c\n1,2,3\ntext,NA,3\n1,,text\n4,5,6\n";
    let rows = records(rt.alloc(), text, b',')?;
    assert!(rt; dropped(&rows, &Picks::Natural, Layout::Blocks) == 2);
    let read = blocks(rt.alloc(), &rows, &Picks::Natural, Missing::Drop);
    assert!(rt; are_two(read));
    Ok(())
}
