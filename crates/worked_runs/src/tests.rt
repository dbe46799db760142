ghost use Rattle.std.specs.Prelude.{◌≤◌};

use crate::{Shelf, Tight};
use exact_run::{Status, run};
use outside::{
    Counter, HostSink, HostSource, MemorySink, MemorySource, ReadFail, Sink, Source, SteadySink,
    SteadySource, WriteFault, read_all, write_all,
};
use std::alloc::{AllocError, Global};
use std::fs;
use std::process::Abort;
use std::test::Fail;

const SIX: &[u8; 36] = b"group,value\nx,1\nx,2\nx,3\ny,4\ny,5\ny,6\n";

// The report on six values: eight pieces of 16 bytes at most.
const REPORT: &str = "test ranksum\ngroup 3 x\ngroup 3 y\nstatistic 30/2\ntotal 20\n\
    less 20/20 1.000000\ngreater 1/20 0.050000\ntwo 2/20 0.100000\n";

// The words of a text that is cut at its blanks.
fn words_of(alloc: Global, text: &str) -> Result<Vec<String>, AllocError> {
    let mut words = Vec::new(alloc);
    for word in text.split_whitespace() {
        words.push(word.to_string(alloc)?)?;
    }
    Ok(words)
}

// Six values in a source whose reads give at most so many bytes, and whose calls of these numbers
// fail.
fn six_values(alloc: Global, step: usize, fail: &[u64]) -> Result<MemorySource, AllocError>
    requires { 1 ≤ step }
{
    let bytes = Vec::from_slice(alloc, SIX)?;
    Ok(MemorySource::new(bytes, step, Vec::from_slice(alloc, fail)?))
}

// A sink with room for a report, whose writes of these numbers fail, in pieces of 16 bytes at most.
fn sink(alloc: Global, fail: &[u64]) -> Result<MemorySink, AllocError> {
    let room = Vec::with_capacity(alloc, 1000)?;
    Ok(MemorySink::new(room, 16, Vec::from_slice(alloc, fail)?))
}

// The status of a run. No more is told of it, so that a proof above carries no more.
fn status_of<S: Source, O: Sink, E: Sink>(
    alloc: Global,
    words: &str,
    source: &mut S,
    out: &mut O,
    err: &mut E,
) -> Result<Status, AllocError> {
    let words = words_of(alloc, words)?;
    Ok(run(alloc, &words, source, out, err))
}

// Runs over a source and sinks in memory, and compares what both sinks hold in the end.
fn expect(
    rt: &impl Abort,
    alloc: Global,
    words: &str,
    source: &mut MemorySource,
    writes: [&[u64]; 2],
    status: Status,
    told: [&str; 2],
) -> Result<(), AllocError> {
    let mut out = sink(alloc, writes[0])?;
    let mut err = sink(alloc, writes[1])?;
    let answer = status_of(alloc, words, source, &mut out, &mut err)?;
    assert!(rt; answer == status);
    assert!(rt; out.taken() == told[0].as_bytes());
    assert!(rt; err.taken() == told[1].as_bytes());
    Ok(())
}

// Runs over a source that gives so many bytes at a time, of which one call fails, each of these in
// turn.
fn expect_of_reads(
    rt: &impl Abort,
    alloc: Global,
    step: usize,
    calls: &[u64],
    status: Status,
    told: [&str; 2],
) -> Result<(), AllocError>
    requires { 1 ≤ step }
{
    for call in calls {
        let mut source = six_values(alloc, step, &[*call])?;
        let words = "ranksum f.csv";
        expect(rt, alloc, words, &mut source, [&[], &[]], status, told)?;
    }
    Ok(())
}

// The source is started by call 0, gives its bytes, and then none: five times eight bytes at most,
// or 36 times one. No later call comes.
#[test]
fn tells_read_faults(rt: HostRuntime) -> Result<(), AllocError> {
    let alloc = rt.alloc();
    let refused = ["", "refused: read fault\n"];
    expect_of_reads(
        &rt,
        alloc,
        8,
        &[0, 1, 2, 3, 4, 5, 6],
        Status::ReadFault,
        refused,
    )?;
    expect_of_reads(&rt, alloc, 8, &[7], Status::Done, [REPORT, ""])?;
    expect_of_reads(&rt, alloc, 1, &[37], Status::ReadFault, refused)?;
    expect_of_reads(&rt, alloc, 1, &[38], Status::Done, [REPORT, ""])
}

// A run over sinks, of which the first fails at its write of this number, with what it holds then.
fn expect_of_write(
    rt: &impl Abort,
    alloc: Global,
    write: u64,
    status: Status,
    told: [&str; 2],
) -> Result<(), AllocError> {
    let mut source = six_values(alloc, 8, &[])?;
    let writes: [&[u64]; 2] = [&[write], &[]];
    let words = "ranksum f.csv";
    expect(rt, alloc, words, &mut source, writes, status, told)
}

// What the first sink holds, of which a write fails: all of the report that came before.
const HELD: [(u64, &str); 8] = [
    (1, ""),
    (2, "test ranksum\ngro"),
    (3, "test ranksum\ngroup 3 x\ngroup 3 y"),
    (4, "test ranksum\ngroup 3 x\ngroup 3 y\nstatistic 30/2\n"),
    (
        5,
        "test ranksum\ngroup 3 x\ngroup 3 y\nstatistic 30/2\ntotal 20\nless 20",
    ),
    (
        6,
        "test ranksum\ngroup 3 x\ngroup 3 y\nstatistic 30/2\ntotal 20\n\
        less 20/20 1.000000\ngre",
    ),
    (
        7,
        "test ranksum\ngroup 3 x\ngroup 3 y\nstatistic 30/2\ntotal 20\n\
        less 20/20 1.000000\ngreater 1/20 0.0500",
    ),
    (
        8,
        "test ranksum\ngroup 3 x\ngroup 3 y\nstatistic 30/2\ntotal 20\n\
        less 20/20 1.000000\ngreater 1/20 0.050000\ntwo 2/20 0.10",
    ),
];

// The report is written by eight writes. No later one comes.
#[test]
fn tells_write_faults(rt: HostRuntime) -> Result<(), AllocError> {
    let alloc = rt.alloc();
    for (write, held) in HELD {
        let told = [held, "refused: write fault\n"];
        expect_of_write(&rt, alloc, write, Status::WriteFault, told)?;
    }
    expect_of_write(&rt, alloc, 9, Status::Done, [REPORT, ""])
}

// What fails on `err` changes no status.
#[test]
fn tells_what_it_can(rt: HostRuntime) -> Result<(), AllocError> {
    let alloc = rt.alloc();
    let mut failing = six_values(alloc, 8, &[0])?;
    let told = ["", "refused: read fa"];
    let writes: [&[u64]; 2] = [&[], &[2]];
    let status = Status::ReadFault;
    expect(&rt, alloc, "sign f.csv", &mut failing, writes, status, told)
}

// The help text over a source whose first call fails, and a sink whose write of this number does.
fn expect_of_help(
    rt: &impl Abort,
    alloc: Global,
    write: u64,
    held: &str,
) -> Result<(), AllocError> {
    let mut failing = six_values(alloc, 8, &[0])?;
    let writes: [&[u64]; 2] = [&[write], &[]];
    let told = [held, "refused: write fault\n"];
    expect(
        rt,
        alloc,
        "--help",
        &mut failing,
        writes,
        Status::WriteFault,
        told,
    )
}

// No source is touched but for a file.
#[test]
fn helps_without_a_source(rt: HostRuntime) -> Result<(), AllocError> {
    expect_of_help(&rt, rt.alloc(), 1, "")?;
    expect_of_help(&rt, rt.alloc(), 2, "usage: exact TES")
}

// The six values under the name `six`.
fn shelf_of_six(alloc: Global) -> Result<Shelf, AllocError> {
    let file = SteadySource::new(Vec::from_slice(alloc, SIX)?, 7);
    Ok(Shelf::new("six".to_string(alloc)?, file))
}

// A run over a stranger's source, and a stranger's sink of so much room.
fn expect_in_room(
    rt: &impl Abort,
    alloc: Global,
    words: &str,
    shelf: &mut Shelf,
    room: usize,
    status: Status,
    line: &str,
) -> Result<(), AllocError> {
    let mut tight = Tight::new(room);
    let mut err = sink(alloc, &[])?;
    let answer = status_of(alloc, words, shelf, &mut tight, &mut err)?;
    assert!(rt; answer == status);
    assert!(rt; err.taken() == line.as_bytes());
    Ok(())
}

// A run over a stranger's source, and a sink in memory.
fn expect_of_shelf(
    rt: &impl Abort,
    alloc: Global,
    words: &str,
    shelf: &mut Shelf,
    status: Status,
    report: &str,
) -> Result<(), AllocError> {
    let mut out = sink(alloc, &[])?;
    let mut err = sink(alloc, &[])?;
    let answer = status_of(alloc, words, shelf, &mut out, &mut err)?;
    assert!(rt; answer == status);
    assert!(rt; out.taken() == report.as_bytes());
    Ok(())
}

// Runs over a stranger's source and sink.
#[test]
fn runs_over_any_source(rt: HostRuntime) -> Result<(), AllocError> {
    let alloc = rt.alloc();
    let done = Status::Done;
    let mut shelf = shelf_of_six(alloc)?;
    let words = "ranksum six";
    expect_in_room(&rt, alloc, words, &mut shelf, 127, done, "")?;
    expect_of_shelf(&rt, alloc, words, &mut shelf, done, REPORT)
}

#[test]
fn tells_faults_of_any_source(rt: HostRuntime) -> Result<(), AllocError> {
    let alloc = rt.alloc();
    let mut shelf = shelf_of_six(alloc)?;
    let fault = Status::WriteFault;
    let line = "refused: write fault\n";
    expect_in_room(&rt, alloc, "ranksum six", &mut shelf, 0, fault, line)?;
    let mut shelf = shelf_of_six(alloc)?;
    let words = "ranksum 6";
    let fault = Status::ReadFault;
    let line = "refused: read fault\n";
    expect_in_room(&rt, alloc, words, &mut shelf, 127, fault, line)?;
    expect_of_shelf(&rt, alloc, words, &mut shelf, fault, "")
}

// A source gives all six values.
fn gives_six<S: Source>(rt: &impl Abort, alloc: Global, source: &mut S) {
    match read_all(alloc, source, "f.csv") {
        Ok(bytes) => assert!(rt; bytes.as_slice() == SIX.as_slice()),
        Err(_) => panic!(rt; "no bytes"),
    }
}

#[test]
fn reads_in_steps(rt: HostRuntime) -> Result<(), AllocError> {
    for step in [1, 5, 36, 100] {
        let bytes = Vec::from_slice(rt.alloc(), SIX)?;
        let mut steady = SteadySource::new(bytes, step);
        gives_six(&rt, rt.alloc(), &mut steady);
        let mut source = six_values(rt.alloc(), step, &[])?;
        gives_six(&rt, rt.alloc(), &mut source);
    }
    Ok(())
}

// Writes come to what is wanted.
fn same(rt: &impl Abort, written: Result<(), WriteFault>, wanted: Result<(), WriteFault>) {
    assert!(rt; written == wanted);
}

#[test]
fn sinks_end_at_their_limits(rt: HostRuntime) -> Result<(), AllocError> {
    let room = Vec::with_capacity(rt.alloc(), 20)?;
    let mut sink = MemorySink::new(room, 16, Vec::new(rt.alloc()));
    same(&rt, write_all(&mut sink, b"twenty bytes of text"), Ok(()));
    same(&rt, write_all(&mut sink, b""), Ok(()));
    same(&rt, write_all(&mut sink, b"!"), Err(WriteFault));
    assert!(rt; sink.taken() == b"twenty bytes of text".as_slice());
    Ok(())
}

#[test]
fn counters_end_at_their_limits(rt: HostRuntime) {
    let mut room = Counter {
        bytes: u128::MAX - 3,
    };
    {
        let mut sink = SteadySink::new(&mut room);
        assert!(rt; sink.write(b"ab").is_ok());
        same(&rt, write_all(&mut sink, b"cdef"), Ok(()));
    }
    assert!(rt; room.bytes == u128::MAX);
}

const NAME: &str = "written_by_a_test.csv";

// The trusted edge: a file of the host that is written and read, and what fails there.
#[test]
fn moves_the_real_bytes(rt: HostRuntime) -> Result<(), Fail> {
    let alloc = rt.alloc();
    let text = vec![in alloc; 251u8; 100_000usize]?;
    let mut sink = HostSink::new(fs::create(&rt, NAME)?);
    assert!(rt; write_all(&mut sink, &text).is_ok());
    let mut source = HostSource::new(&rt);
    let read = read_all(alloc, &mut source, NAME)?;
    assert!(rt; read.as_slice() == text.as_slice());
    let answer = read_all(alloc, &mut source, "no such file");
    assert!(rt; matches!(answer, Err(ReadFail::ReadFault)));
    // a file that is open for reading alone takes nothing
    let mut sink = HostSink::new(fs::open(&rt, NAME)?);
    assert!(rt; write_all(&mut sink, b"abc").is_err());
    fs::remove_file(&rt, NAME)?;
    Ok(())
}
