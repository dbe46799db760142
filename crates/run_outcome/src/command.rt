// A run by a catalogue of tests: all that a program does.
ghost use Rattle.std.specs.Prelude.{◌≡◌, ◌≤◌, ◌⊎◌, ℕ, List, false, true, Err, Ok, OnOk, Some, length, map, option_map, string_bytes};
ghost use Rattle.std.specs.Io.KnownBytes.{Appends};
ghost use Rattle.outside.specs.Faults.{AppendsPrefix, Rose};
ghost use Rattle.outside.specs.declared.source.TheConstants.{LONGEST_FILE};
ghost use Rattle.weights.specs.Results.{with_value};
ghost use Rattle.settings.specs.Meaning.{is_help, meaning_of};
ghost use Rattle.settings.specs.Usable.{AreUsable, IsUsable};
ghost use Rattle.settings.specs.declared.names.UsageFault.{UsageFault};
ghost use Rattle.report.specs.Refusals.{refusal_line_text};
ghost use Rattle.run_outcome.specs.CauseSteps.{ComesTo, Meets};
ghost use Rattle.run_outcome.specs.Divided.{PartAnswers, Writes};
ghost use Rattle.run_outcome.specs.Outcome.{names_file, outcome_of, outcome_of_bytes, outcome_of_command, usage_refusal as refusal_of};
ghost use Rattle.run_outcome.specs.MergedRuns.{MergeComes, MergePromises};
ghost use Rattle.run_outcome.specs.Promises.{IsBeforeWriting, Promises, ReadRose, WritesLine, status_of};
ghost use Rattle.run_outcome.specs.Questions.{is_shift};
ghost use Rattle.run_outcome.specs.Texts.{text_of};

use crate::catalogue::Catalogue;
use crate::merged::merged_report;
use crate::refusing::usage_refusal;
use crate::reports::Asking;
use crate::requests::Request;
use crate::status::Status;
use outside::{ReadFail, Sink, Source, read_all, write_all};
use record_reader::records;
use report::{Refusal, refusal_line};
use settings::{CommandLine, Settings, help_text, read};
use std::alloc::Global;
use weights::Bytes;

// The text that is written to `out`.
#[derive(Drop)]
enum Text {
    // The help text, which stands in the program already.
    Help,
    // A report, composed whole.
    Report(Bytes),
}

impl Text {
    fn as_slice(&self) -> &[u8]
        ensures { result.now ≡ text_of self.now }
    {
        match self {
            Text::Help => help_text().as_bytes(),
            Text::Report(report) => report.as_slice(),
        }
    }
}

// The report of a file's bytes, or the refusal.
fn report_of<C: Catalogue>(
    alloc: Global,
    settings: &Settings,
    bytes: &[u8],
) -> Result<Bytes, Refusal>
    requires short { length bytes.now ≤ LONGEST_FILE }
    requires usable { AreUsable settings.now }
    ensures meets { Meets (outcome_of_bytes C.questions settings.now bytes.now) result }
    ensures answerable { let answers = PartAnswers C.questions settings.now (Some bytes.now) in
        is_shift settings.now.test ≡ false → OnOk result answers }
{
    match records(alloc, bytes, settings.separator) {
        Ok(rows) => {
            let request = Request {
                asking: Asking::of(settings, bytes),
                settings,
                rows: &rows,
            };
            C::report_in(alloc, &request)
        }
        Err(_) => Err(Refusal::NoMemory),
    }
}

// The report of the file that the settings name, or the refusal.
fn report_from<C: Catalogue, S: Source>(
    alloc: Global,
    settings: &Settings,
    source: &mut S,
) -> Result<Bytes, Refusal>
    requires { AreUsable settings.now }
    ensures comes { let held = S.held source.old settings.now.file in
        let known = option_map (outcome_of_bytes C.questions settings.now) held in
        ComesTo (Rose (S.faults source.old) (S.faults source.new)) known result }
    ensures answerable { let held = S.held source.old settings.now.file in
        let answers = PartAnswers C.questions settings.now held in
        is_shift settings.now.test ≡ false → OnOk result answers }
{
    match read_all(alloc, source, settings.file.as_str()) {
        Ok(bytes) => report_of::<C>(alloc, settings, bytes.as_slice()),
        Err(ReadFail::ReadFault) => Err(Refusal::ReadFault),
        Err(ReadFail::TooLong) => Err(Refusal::TooLong),
        Err(ReadFail::NoMemory) => Err(Refusal::NoMemory),
    }
}

// A report as the text to write.
fn as_text(report: Result<Bytes, Refusal>) -> Result<Text, Refusal>
    ensures { with_value text_of result ≡ report }
{
    report.map(Text::Report)
}

// The text that a command line and the source ask for, or the refusal.
fn text_of_line<C: Catalogue, S: Source>(
    alloc: Global,
    line: &CommandLine,
    source: &mut S,
) -> Result<Text, Refusal>
    requires { IsUsable line.now }
    ensures comes { let held = S.held source.old in
        let known = outcome_of_command C.questions (Ok line.now) held in
        let source_rose = ReadRose (Ok line.now) (S.faults source.old) (S.faults source.new) in
        ComesTo source_rose known (with_value text_of result) }
    ensures help { line.now ≡ CommandLine.Help → result ≡ Ok Text.Help }
    ensures untouched { names_file (Ok line.now) ≡ false → source.new ≡ source.old }
    ensures merged { (file : List ℕ) → line.now ≡ CommandLine.Merge file
        → MergeComes (Rose (S.faults source.old) (S.faults source.new)) (S.held source.old file)
        (with_value text_of result) }
    ensures answerable { (settings : Settings) → line.now ≡ CommandLine.Test settings
        → is_shift settings.test ≡ false
        → OnOk result (PartAnswers C.questions settings (S.held source.old settings.file)) }
{
    match line {
        CommandLine::Help => Ok(Text::Help),
        CommandLine::Test(settings) => as_text(report_from::<C, S>(alloc, settings, source)),
        CommandLine::Shift(settings) => as_text(report_from::<C, S>(alloc, settings, source)),
        CommandLine::Merge(file) => as_text(merged_report(alloc, file, source)),
        CommandLine::Drill(number) => as_text(C::made_report(alloc, *number)),
    }
}

// The text that the words and the source ask for, or the refusal. The step above borrows the
// command line, so that it is let go here, once, and not in each of the arms.
fn text_for<C: Catalogue, S: Source>(
    alloc: Global,
    words: &[String],
    source: &mut S,
) -> Result<Text, Refusal>
    ensures comes { let known_of = outcome_of C.questions (map string_bytes words.now) in
        let known = known_of (S.held source.old) in
        let meaning = meaning_of (map string_bytes words.now) in
        let source_rose = ReadRose meaning (S.faults source.old) (S.faults source.new) in
        ComesTo source_rose known (with_value text_of result) }
    ensures help { is_help (map string_bytes words.now) ≡ true → result ≡ Ok Text.Help }
    ensures words { let meaning = meaning_of (map string_bytes words.now) in
        (fault : UsageFault) → meaning ≡ Err fault
        → (result ≡ Err (refusal_of fault)) ⊎ (result ≡ Err Refusal.NoMemory) }
    ensures untouched { names_file (meaning_of (map string_bytes words.now)) ≡ false
        → source.new ≡ source.old }
    ensures merged { let meaning = meaning_of (map string_bytes words.now) in
        (file : List ℕ) → meaning ≡ Ok (CommandLine.Merge file)
        → MergeComes (Rose (S.faults source.old) (S.faults source.new)) (S.held source.old file)
        (with_value text_of result) }
    ensures answerable { let meaning = meaning_of (map string_bytes words.now) in
        (settings : Settings) → meaning ≡ Ok (CommandLine.Test settings)
        → OnOk result (PartAnswers C.questions settings (S.held source.old settings.file)) }
{
    match read(alloc, words) {
        Ok(line) => text_of_line::<C, S>(alloc, &line, source),
        Err(fault) => Err(usage_refusal(fault)),
    }
}

// Tells the refusal, and answers its status.
fn refuse<E: Sink>(refusal: Refusal, err: &mut E) -> Status
    ensures status { result ≡ status_of refusal }
    ensures line { let rose = Rose (E.faults err.old) (E.faults err.new) in
        WritesLine (E.taken err.old) (E.taken err.new) rose (refusal_line_text refusal) }
{
    let _told = write_all(err, refusal_line(&refusal).as_slice());
    Status::of(refusal)
}

/// Runs the command that the words name, by the tests of a catalogue; the words are those after the
/// program's own name. What is asked is composed whole, a report or a part of a divided run, and
/// then written to `out` by one call of `write_all`; the help text stands in the program, and takes
/// no memory. Where nothing is written so, one line to `err` says why.
pub fn run_with<C: Catalogue, S: Source, O: Sink, E: Sink>(
    alloc: Global,
    words: &[String],
    source: &mut S,
    out: &mut O,
    err: &mut E,
) -> Status
    // What the status says of the outcome, of the counts of faults and of the sinks.
    ensures promises { let known_of = outcome_of C.questions (map string_bytes words.now) in
        let known = known_of (S.held source.old) in
        let meaning = meaning_of (map string_bytes words.now) in
        let source_rose = ReadRose meaning (S.faults source.old) (S.faults source.new) in
        let out_rose = Rose (O.faults out.old) (O.faults out.new) in
        let took = Appends (O.taken out.old) (O.taken out.new) in
        let took_prefix = AppendsPrefix (O.taken out.old) (O.taken out.new) in
        let err_rose = Rose (E.faults err.old) (E.faults err.new) in
        let told = WritesLine (E.taken err.old) (E.taken err.new) err_rose in
        Promises result known source_rose out_rose took took_prefix told }

    // What the parts of a divided run come to, put together.
    ensures merged { let meaning = meaning_of (map string_bytes words.now) in
        let source_rose = Rose (S.faults source.old) (S.faults source.new) in
        let out_rose = Rose (O.faults out.old) (O.faults out.new) in
        let took = Appends (O.taken out.old) (O.taken out.new) in
        let took_prefix = AppendsPrefix (O.taken out.old) (O.taken out.new) in
        let err_rose = Rose (E.faults err.old) (E.faults err.new) in
        let told = WritesLine (E.taken err.old) (E.taken err.new) err_rose in
        (file : List ℕ) → meaning ≡ Ok (CommandLine.Merge file)
        → MergePromises C.questions result (S.held source.old file) source_rose out_rose took
        took_prefix told }

    // A part that is written is one of a question that the parts of a run answer.
    ensures answerable { let meaning = meaning_of (map string_bytes words.now) in
        (settings : Settings) → meaning ≡ Ok (CommandLine.Test settings)
        → result ≡ Status.Done
        → PartAnswers C.questions settings (S.held source.old settings.file) }

    // With 0 `out` took such a text as `merge` puts together, where it is of a part.
    ensures written { let meaning = meaning_of (map string_bytes words.now) in
        let took = Appends (O.taken out.old) (O.taken out.new) in
        (settings : Settings) → meaning ≡ Ok (CommandLine.Test settings)
        → result ≡ Status.Done
        → Writes C.questions settings (S.held source.old settings.file) took }

    // Before the first write `out` is as it was, and a report is told by no line.
    ensures unchanged { IsBeforeWriting result → out.new ≡ out.old }
    ensures silent { result ≡ Status.Done → err.new ≡ err.old }

    // The help text takes no memory: it is written, or a write of it failed.
    ensures help { is_help (map string_bytes words.now) ≡ true
        → (result ≡ Status.Done) ⊎ (result ≡ Status.WriteFault) }

    // Words that are refused are refused always, and words that name no file touch no source.
    ensures words { let meaning = meaning_of (map string_bytes words.now) in
        (fault : UsageFault) → meaning ≡ Err fault
        → (result ≡ Status.Usage) ⊎ (result ≡ Status.NoMemory) }
    ensures untouched { names_file (meaning_of (map string_bytes words.now)) ≡ false
        → source.new ≡ source.old }
{
    match text_for::<C, S>(alloc, words, source) {
        Ok(text) => match write_all(out, text.as_slice()) {
            Ok(()) => Status::Done,
            Err(_) => refuse(Refusal::WriteFault, err),
        },
        Err(refusal) => refuse(refusal, err),
    }
}
