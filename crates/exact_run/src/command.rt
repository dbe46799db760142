// The top call: it does all that the program does.
ghost use Rattle.std.specs.Prelude.{◌≡◌, ◌⊎◌, ℕ, List, false, true, Err, Ok, map, string_bytes};
ghost use Rattle.std.specs.Io.KnownBytes.{Appends};
ghost use Rattle.outside.specs.Faults.{AppendsPrefix, Rose};
ghost use Rattle.settings.specs.Meaning.{is_help, meaning_of};
ghost use Rattle.settings.specs.declared.names.UsageFault.{UsageFault};
ghost use Rattle.run_outcome.specs.Outcome.{names_file};
ghost use Rattle.run_outcome.specs.Promises.{IsBeforeWriting, Promises, ReadRose, WritesLine};
ghost use Rattle.exact_run.specs.Divided.{PartAnswers, Writes};
ghost use Rattle.exact_run.specs.MergedRuns.{MergePromises};
ghost use Rattle.exact_run.specs.Outcome.{outcome_of};

use crate::tests::Tests;
use outside::{Sink, Source};
use run_outcome::{Status, run_with};
use settings::{CommandLine, Settings};
use std::alloc::Global;

/// Runs the command that the words name; they are those after the program's own name. `TEST FILE`
/// with options in any place writes the report of the test for the data of the file, and `shift
/// FILE` that of the estimate of a shift with its limits; `drill` with a number writes the report
/// of made data, and `--help` alone the help text, both without the source. With a part asked for,
/// a test writes that part of a divided run in place of the report, and `merge FILE` the report of
/// the parts that a file holds: where these are what the parts of one run wrote, that of the run
/// that is not divided. The report is composed whole, and then written to `out` by one call of
/// `write_all`; the help text stands in the program, and takes no memory. Where nothing is written
/// so, one line to `err` says why.
pub fn run<S: Source, O: Sink, E: Sink>(
    alloc: Global,
    words: &[String],
    source: &mut S,
    out: &mut O,
    err: &mut E,
) -> Status
    // What the status says of the outcome, of the counts of faults and of the sinks.
    ensures promises { let known = outcome_of (map string_bytes words.now) (S.held source.old) in
        let meaning = meaning_of (map string_bytes words.now) in
        let source_rose = ReadRose meaning (S.faults source.old) (S.faults source.new) in
        let out_rose = Rose (O.faults out.old) (O.faults out.new) in
        let took = Appends (O.taken out.old) (O.taken out.new) in
        let took_prefix = AppendsPrefix (O.taken out.old) (O.taken out.new) in
        let err_rose = Rose (E.faults err.old) (E.faults err.new) in
        let told = WritesLine (E.taken err.old) (E.taken err.new) err_rose in
        Promises result known source_rose out_rose took took_prefix told }

    // What the parts of a divided run come to, put together.
    ensures merged { let meaning = meaning_of (map string_bytes words.now) in
        let source_rose = Rose (S.faults source.old) (S.faults source.new) in
        let out_rose = Rose (O.faults out.old) (O.faults out.new) in
        let took = Appends (O.taken out.old) (O.taken out.new) in
        let took_prefix = AppendsPrefix (O.taken out.old) (O.taken out.new) in
        let err_rose = Rose (E.faults err.old) (E.faults err.new) in
        let told = WritesLine (E.taken err.old) (E.taken err.new) err_rose in
        (file : List ℕ) → meaning ≡ Ok (CommandLine.Merge file)
        → MergePromises result (S.held source.old file) source_rose out_rose took took_prefix
        told }

    // A part that is written is one of a question that the parts of a run answer.
    ensures answerable { let meaning = meaning_of (map string_bytes words.now) in
        (settings : Settings) → meaning ≡ Ok (CommandLine.Test settings)
        → result ≡ Status.Done → PartAnswers settings (S.held source.old settings.file) }

    // With 0 `out` took such a text as `merge` puts together, where it is of a part.
    ensures written { let meaning = meaning_of (map string_bytes words.now) in
        let took = Appends (O.taken out.old) (O.taken out.new) in
        (settings : Settings) → meaning ≡ Ok (CommandLine.Test settings)
        → result ≡ Status.Done → Writes settings (S.held source.old settings.file) took }

    // Before the first write `out` is as it was, and a report is told by no line.
    ensures unchanged { IsBeforeWriting result → out.new ≡ out.old }
    ensures silent { result ≡ Status.Done → err.new ≡ err.old }

    // The help text takes no memory: it is written, or a write of it failed.
    ensures help { is_help (map string_bytes words.now) ≡ true
        → (result ≡ Status.Done) ⊎ (result ≡ Status.WriteFault) }

    // Words that are refused are refused always, and words that name no file touch no source.
    ensures words { let meaning = meaning_of (map string_bytes words.now) in
        (fault : UsageFault) → meaning ≡ Err fault
        → (result ≡ Status.Usage) ⊎ (result ≡ Status.NoMemory) }
    ensures untouched { names_file (meaning_of (map string_bytes words.now)) ≡ false
        → source.new ≡ source.old }
{
    run_with::<Tests, S, O, E>(alloc, words, source, out, err)
}
