// The public calls of `exact_run`.
ghost use Rattle.std.specs.Prelude.{◌≡◌, ◌≤◌, ◌⊎◌, IfOk, List, false, map, string_bytes, true, ℕ};
ghost use Rattle.std.specs.Io.KnownBytes.{Appends};
ghost use Rattle.exact_run.specs.Divided.{Writes, PartAnswers};
ghost use Rattle.exact_run.specs.MadeData.{made_groups};
ghost use Rattle.exact_run.specs.MergedRuns.{MergePromises};
ghost use Rattle.exact_run.specs.Outcome.{outcome_of};
ghost use Rattle.outside.specs.Faults.{AppendsPrefix, Rose};
ghost use Rattle.run_outcome.specs.Outcome.{names_file};
ghost use Rattle.run_outcome.specs.Promises.{IsBeforeWriting, Promises, ReadRose, WritesLine, status_number};
ghost use Rattle.sample_reader.specs.Data.{data_of};
ghost use Rattle.settings.specs.Meaning.{is_help, meaning_of};
ghost use Rattle.settings.specs.declared.names.UsageFault.{UsageFault};
ghost use Rattle.settings.specs.declared.command_line.CommandLine.TheVariants as command;
ghost use Rattle.settings.specs.declared.settings.Settings.{Settings};

use exact_run::Status;
use outside::{Sink, Source};
use sample_reader::Groups;
use std::alloc::Global;
use weights::NoMemory;

/// The top call.
pub fn run<S: Source, O: Sink, E: Sink>(
    alloc: Global,
    words: &[String],
    source: &mut S,
    out: &mut O,
    err: &mut E,
) -> Status
    ensures promises { let known = outcome_of (map string_bytes words.now) (S.held source.old) in
        let meaning = meaning_of (map string_bytes words.now) in
        let source_rose = ReadRose meaning (S.faults source.old) (S.faults source.new) in
        let out_rose = Rose (O.faults out.old) (O.faults out.new) in
        let took = Appends (O.taken out.old) (O.taken out.new) in
        let took_prefix = AppendsPrefix (O.taken out.old) (O.taken out.new) in
        let err_rose = Rose (E.faults err.old) (E.faults err.new) in
        let told = WritesLine (E.taken err.old) (E.taken err.new) err_rose in
        Promises result known source_rose out_rose took took_prefix told }
    ensures merged { let meaning = meaning_of (map string_bytes words.now) in
        let source_rose = Rose (S.faults source.old) (S.faults source.new) in
        let out_rose = Rose (O.faults out.old) (O.faults out.new) in
        let took = Appends (O.taken out.old) (O.taken out.new) in
        let took_prefix = AppendsPrefix (O.taken out.old) (O.taken out.new) in
        let err_rose = Rose (E.faults err.old) (E.faults err.new) in
        let told = WritesLine (E.taken err.old) (E.taken err.new) err_rose in
        (file : List ℕ) → meaning ≡ Ok (command.Merge file)
        → MergePromises result (S.held source.old file) source_rose out_rose took took_prefix
        told }
    ensures answerable { let meaning = meaning_of (map string_bytes words.now) in
        (settings : Settings) → meaning ≡ Ok (command.Test settings)
        → result ≡ Status.Done → PartAnswers settings (S.held source.old settings.file) }
    ensures written { let meaning = meaning_of (map string_bytes words.now) in
        let took = Appends (O.taken out.old) (O.taken out.new) in
        (settings : Settings) → meaning ≡ Ok (command.Test settings)
        → result ≡ Status.Done → Writes settings (S.held source.old settings.file) took }
    ensures unchanged { IsBeforeWriting result → out.new ≡ out.old }
    ensures silent { result ≡ Status.Done → err.new ≡ err.old }
    ensures help { is_help (map string_bytes words.now) ≡ true
        → (result ≡ Status.Done) ⊎ (result ≡ Status.WriteFault) }
    ensures words { let meaning = meaning_of (map string_bytes words.now) in
        (fault : UsageFault) → meaning ≡ Err fault
        → (result ≡ Status.Usage) ⊎ (result ≡ Status.NoMemory) }
    ensures untouched { names_file (meaning_of (map string_bytes words.now)) ≡ false
        → source.new ≡ source.old }
{
    exact_run::run(alloc, words, source, out, err)
}

/// The number of a status. There are seven, and no other.
pub fn number_of(status: Status) -> u8
    ensures { result ≡ status_number status }
{
    match status {
        Status::Done | Status::Usage | Status::BadData | Status::TooWide => status.number(),
        Status::ReadFault | Status::WriteFault | Status::NoMemory => status.number(),
    }
}

/// The groups that are made from a number.
pub fn made_groups(alloc: Global, number: u64) -> Result<Groups, NoMemory>
    requires { number ≤ 2147483647 }
    ensures { IfOk result (λ groups. data_of groups ≡ made_groups number) }
{
    exact_run::made_groups(alloc, number)
}
