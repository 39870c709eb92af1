// The top call.
ghost use Rattle.std.specs.Prelude.{◌≡◌, ◌≢◌, ◌≤◌, ◌<◌, ◌⊎◌, ◌++◌, ℕ, List, None, Some, IfSome, map, codes};
ghost use Rattle.std.specs.String.{string_bytes};
ghost use Rattle.io_edge.specs.Causes.{Rose};
ghost use Rattle.io_edge.specs.Outcome.{AskedOf, failed_name};
ghost use Rattle.io_edge.specs.Outside.{Ask, StopsShort, written_after};
ghost use Rattle.command_line.specs.Reading.{line};
ghost use Rattle.sql_value.specs.declared.cell.Kind.{Kind};
ghost use Rattle.command_input.specs.declared.report.Report.{Report};
ghost use Rattle.command_input.specs.declared.report.Report.TheVariants.{Rows, SchemaRefused, ViewRefused, DataRefused, QueryRefused};
ghost use Rattle.command_input.specs.declared.report.Said.{Said};
ghost use Rattle.command_input.specs.Printed.{printed, status_of};
ghost use Rattle.qgm_app.specs.Outcome.{outcome};
ghost use Rattle.qgm_app.specs.Telling.{CountsOf, IsErrorReport};
ghost use Rattle.qgm_app.specs.Runs.{ComesTo, IsMade, IsSaid, Runs};

use crate::respond::respond;
use io_edge::{Files, Sink, write_all};
use std::alloc::Global;
use std::sync::ledger::Ledger;
use step_count::Steps;

const WRITE_FAULT: u8 = 4;

const NO_MEMORY: u8 = 8;

/// Runs the command that the words are (those after the program's name): reads the files that it
/// names, and writes its report to the sink. Answers the status:
///
/// - 0: the answer, as a header and rows in CSV; of `sql`, the statement
/// - 1: the answer is a runtime error, whose SQLSTATE was written
/// - 2: the words are no command
/// - 3: a read failed, and its name was written
/// - 4: a write failed, and a proper prefix of what would else be written was
/// - 5: the schema is refused
/// - 6: a table is refused
/// - 7: the query is refused
/// - 8: memory ran out, and nothing was written
///
/// `steps` counts evaluations of boxes: the graph of the query is built, rewritten, and executed.
pub fn run_command<F: Files, K: Sink, L: Ledger>(
    alloc: Global,
    words: &[String],
    files: &mut F,
    out: &mut K,
    steps: &mut Steps<L>,
) -> u8
    // The whole, over files that tell of themselves: what was read, and what was written of the report.
    ensures runs { Runs (F.told files.old) (F.told files.new) (outcome (map (λ w. string_bytes w) words.now)) (K.written out.old) (K.written out.new) result }
    // The headline: where no read or write failed and memory sufficed, the report that words and files mean was written, and nothing else.
    ensures headline { result ≢ 3 → result ≢ 4 → result ≢ 8 → ComesTo (F.told files.old) (outcome (map (λ w. string_bytes w) words.now))
        (λ report. (result ≡ status_of report) × (K.written out.new ≡ written_after (printed report) (K.written out.old))) }
    // Completeness: where neither count of faults rose, the report was written, or memory ran out.
    ensures completeness { (Rose (F.faults files.old) (F.faults files.new) → ⊥) → (Rose (K.faults out.old) (K.faults out.new) → ⊥) → result ≢ 8
        → ComesTo (F.told files.old) (outcome (map (λ w. string_bytes w) words.now))
        (λ report. (result ≡ status_of report) × (K.written out.new ≡ written_after (printed report) (K.written out.old))) }
    ensures rows { result ≡ 0 → ComesTo (F.told files.old) (outcome (map (λ w. string_bytes w) words.now))
        (λ report. (bytes : List ℕ) × (report ≡ Rows bytes) × (K.written out.new ≡ written_after bytes (K.written out.old))) }
    ensures error { result ≡ 1 → ComesTo (F.told files.old) (outcome (map (λ w. string_bytes w) words.now))
        (λ report. (kind : Kind) × IsErrorReport kind report × (K.written out.new ≡ written_after (printed report) (K.written out.old))) }
    ensures usage { result ≡ 2 → (line (map (λ w. string_bytes w) words.now) ≡ None) × (K.written out.new ≡ written_after (codes "USAGE\n") (K.written out.old)) }
    ensures no_line { line (map (λ w. string_bytes w) words.now) ≡ None → (files.new ≡ files.old) × ((result ≡ 2) ⊎ (result ≡ 4) ⊎ (result ≡ 8)) }
    // `gen` reads no file.
    ensures unread { IfSome (line (map (λ w. string_bytes w) words.now)) (λ l. IsMade l.task → files.new ≡ files.old) }
    // Of `gen`: the summary, or a prefix of it, or want of memory.
    ensures made { IfSome (line (map (λ w. string_bytes w) words.now)) (λ l. IsMade l.task → (result ≡ 0) ⊎ (result ≡ 4) ⊎ (result ≡ 8)) }
    ensures read_fault { result ≡ 3 → Rose (F.faults files.old) (F.faults files.new) }
    ensures read_named { result ≡ 3 → IfSome (F.told files.old) (λ t. IfSome (F.told files.new) (λ u. (asks : List Ask) × (name : List ℕ) × (u.asked ≡ t.asked ++ asks)
        × (failed_name asks ≡ Some name) × (K.written out.new ≡ written_after (codes "READ " ++ (name ++ codes "\n")) (K.written out.old)))) }
    ensures usage_short { result ≡ 4 → line (map (λ w. string_bytes w) words.now) ≡ None → StopsShort (K.written out.old) (K.written out.new) (codes "USAGE\n") }
    ensures write_fault { result ≡ 4 → Rose (K.faults out.old) (K.faults out.new) }
    ensures short { result ≡ 4 → IfSome (F.told files.old) (λ t. IfSome (F.told files.new) (λ u. (asks : List Ask) × (said : Said) × (u.asked ≡ t.asked ++ asks)
        × IsSaid (outcome (map (λ w. string_bytes w) words.now) t.files) asks (failed_name asks) said × StopsShort (K.written out.old) (K.written out.new) said.text)) }
    ensures schema_refused { result ≡ 5 → ComesTo (F.told files.old) (outcome (map (λ w. string_bytes w) words.now))
        (λ report. ((number : ℕ) × (report ≡ SchemaRefused number)) ⊎ ((view : List ℕ) × (number : ℕ) × (report ≡ ViewRefused view number))) }
    ensures data_refused { result ≡ 6 → ComesTo (F.told files.old) (outcome (map (λ w. string_bytes w) words.now))
        (λ report. (number : ℕ) × (table : List ℕ) × (row : ℕ) × (report ≡ DataRefused number table row)) }
    ensures query_refused { result ≡ 7 → ComesTo (F.told files.old) (outcome (map (λ w. string_bytes w) words.now)) (λ report. (number : ℕ) × (report ≡ QueryRefused number)) }
    ensures no_memory { result ≡ 8 → out.new ≡ out.old }
    // The names asked: those of the outcome in order, up to one whose read failed; the files are left as they were.
    ensures asked { IfSome (F.told files.old) (λ t. IfSome (F.told files.new) (λ u. (asks : List Ask) × (u.asked ≡ t.asked ++ asks) × (u.files ≡ t.files)
        × AskedOf (outcome (map (λ w. string_bytes w) words.now) t.files).names asks)) }
    // The steps: where the answer was written, those of the execution of the graph that the query's graph is rewritten to.
    ensures counts { result ≢ 3 → result ≢ 4 → result ≢ 8 → (report : Report) × (result ≡ status_of report) × (K.written out.new ≡ written_after (printed report) (K.written out.old))
        × CountsOf (F.told files.old) (outcome (map (λ w. string_bytes w) words.now)) report steps.old steps.new }
    ensures files_later { F.faults files.old ≤ F.faults files.new }
    ensures out_later { K.faults out.old ≤ K.faults out.new }
    ensures status { result ≤ 8 }
{
    let Ok(said) = respond(alloc, words, files, steps) else {
        return NO_MEMORY;
    };
    match write_all(out, said.text.as_slice()) {
        Ok(()) => said.status,
        Err(_) => WRITE_FAULT,
    }
}
