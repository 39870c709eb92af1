// What is said to a command line, before anything is written.
ghost use Rattle.std.specs.Prelude.{◌≡◌, ◌≢◌, ◌≤◌, ◌<◌, true, None, Some, IfOk, IfSome, map};
ghost use Rattle.std.specs.String.{string_bytes};
ghost use Rattle.io_edge.specs.Causes.{Rose};
ghost use Rattle.io_edge.specs.Outcome.{Comes, RoseIfFault};
ghost use Rattle.command_line.specs.Line.{is_taken, line_text, task_text};
ghost use Rattle.command_line.specs.Reading.{line};
ghost use Rattle.command_input.specs.declared.question.Request.TheVariants.{Refused};
ghost use Rattle.command_input.specs.declared.report.Report.{Report};
ghost use Rattle.command_input.specs.declared.report.Report.TheVariants.{Usage};
ghost use Rattle.command_input.specs.Printed.{said_of};
ghost use Rattle.command_input.specs.Stages.{request_end};
ghost use Rattle.qgm_app.specs.Fit.{IsFitRequest};
ghost use Rattle.qgm_app.specs.Outcome.{outcome, with_line, with_task};
ghost use Rattle.qgm_app.specs.Telling.{CountsOf};
ghost use Rattle.qgm_app.specs.Runs.{ComesTold, IsMade, IsMadeReport, IsMadeRequest, IsUsage, Prepares};

use crate::telling::tell;
use command_input::{Report, Request, Said, find_question, generated, say_fault};
use command_line::{Line, Task, WordsRefusal, read_line};
use io_edge::{Files, Interruption};
use shared_types::OutOfMemory;
use std::alloc::Global;
use std::sync::ledger::Ledger;
use step_count::Steps;

// The question of a command, or the report that refuses it.
fn find<F: Files>(alloc: Global, task: &Task, files: &mut F) -> Result<Request, Interruption>
    requires taken { is_taken (task_text task.now) ≡ true }
    ensures comes { Comes (F.told files.old) (F.told files.new) (λ fs. with_task (task_text task.now) fs) (request_end result) }
    ensures line { IfOk result (λ found. found ≢ Refused Usage) }
    ensures ready { IfOk result (λ found. IsFitRequest (task_text task.now) found) }
    ensures unread { IsMade (task_text task.now) → files.new ≡ files.old }
    ensures made { IsMade (task_text task.now) → IsMadeRequest result }
    ensures later { F.faults files.old ≤ F.faults files.new }
    ensures failed { RoseIfFault result (F.faults files.old) (F.faults files.new) }
{
    match task {
        Task::Run { schema, query, dir } => {
            find_question(alloc, schema, query, Some(*dir), files)
        }
        Task::Explain { schema, query, dir } => {
            find_question(alloc, schema, query, Some(*dir), files)
        }
        Task::Sql { schema, query } => find_question(alloc, schema, query, None, files),
        Task::Gen { seed, rows } => Ok(generated(alloc, *seed, *rows)?),
    }
}

// The report on a command line.
fn run_line<F: Files, L: Ledger>(
    alloc: Global,
    line: &Line<'_>,
    files: &mut F,
    steps: &mut Steps<L>,
) -> Result<Report, Interruption>
    requires taken { is_taken (task_text line.now.task) ≡ true }
    ensures comes { ComesTold (F.told files.old) (F.told files.new) (λ fs. with_line (Some (line_text line.now)) fs) result }
    ensures line { IfOk result (λ report. report ≢ Usage) }
    ensures counts { IfOk result (λ report. CountsOf (F.told files.old) (λ fs. with_line (Some (line_text line.now)) fs) report steps.old steps.new) }
    ensures unread { IsMade (task_text line.now.task) → files.new ≡ files.old }
    ensures made { IsMade (task_text line.now.task) → IsMadeReport result }
    ensures later { F.faults files.old ≤ F.faults files.new }
    ensures failed { RoseIfFault result (F.faults files.old) (F.faults files.new) }
{
    match find(alloc, &line.task, files)? {
        Request::Asked(question) => Ok(tell(alloc, line, question, steps)?),
        Request::Refused(report) => Ok(report),
    }
}

// The report on the command line that the words are.
fn prepare<F: Files, L: Ledger>(
    alloc: Global,
    words: &[String],
    files: &mut F,
    steps: &mut Steps<L>,
) -> Result<Report, Interruption>
    ensures comes { ComesTold (F.told files.old) (F.told files.new) (outcome (map (λ w. string_bytes w) words.now)) result }
    ensures no_line { line (map (λ w. string_bytes w) words.now) ≡ None → (files.new ≡ files.old) × IsUsage result }
    ensures line { IfOk result (λ report. report ≡ Usage → line (map (λ w. string_bytes w) words.now) ≡ None) }
    ensures counts { IfOk result (λ report. CountsOf (F.told files.old) (outcome (map (λ w. string_bytes w) words.now)) report steps.old steps.new) }
    ensures unread { IfSome (line (map (λ w. string_bytes w) words.now)) (λ l. IsMade l.task → files.new ≡ files.old) }
    ensures made { IfSome (line (map (λ w. string_bytes w) words.now)) (λ l. IsMade l.task → IsMadeReport result) }
    ensures later { F.faults files.old ≤ F.faults files.new }
    ensures failed { RoseIfFault result (F.faults files.old) (F.faults files.new) }
{
    match read_line(alloc, words) {
        Ok(line) => run_line(alloc, &line, files, steps),
        Err(WordsRefusal::Usage) => Ok(Report::Usage),
        Err(WordsRefusal::Memory) => Err(Interruption::Memory),
    }
}

/// What is said to the words: the report, or the name of a read that failed.
pub fn respond<F: Files, L: Ledger>(
    alloc: Global,
    words: &[String],
    files: &mut F,
    steps: &mut Steps<L>,
) -> Result<Said, OutOfMemory>
    ensures prepares { Prepares (F.told files.old) (F.told files.new) (outcome (map (λ w. string_bytes w) words.now)) result }
    ensures no_line { line (map (λ w. string_bytes w) words.now) ≡ None → (files.new ≡ files.old) × IfOk result (λ said. said ≡ said_of Usage) }
    ensures unread { IfSome (line (map (λ w. string_bytes w) words.now)) (λ l. IsMade l.task → files.new ≡ files.old) }
    ensures made { IfSome (line (map (λ w. string_bytes w) words.now)) (λ l. IsMade l.task → IfOk result (λ said. said.status ≡ 0)) }
    ensures usage { IfOk result (λ said. said.status ≡ 2 → (line (map (λ w. string_bytes w) words.now) ≡ None) × (said ≡ said_of Usage)) }
    ensures later { F.faults files.old ≤ F.faults files.new }
    ensures failed { IfOk result (λ said. said.status ≡ 3 → Rose (F.faults files.old) (F.faults files.new)) }
    ensures counts { IfOk result (λ said. said.status ≢ 3 → (report : Report) × (said ≡ said_of report) × CountsOf (F.told files.old) (outcome (map (λ w. string_bytes w) words.now)) report steps.old steps.new) }
    ensures status { IfOk result (λ said. (said.status ≢ 4) × (said.status < 8)) }
{
    match prepare(alloc, words, files, steps) {
        Ok(report) => report.said(alloc),
        Err(Interruption::ReadFault { name }) => say_fault(alloc, &name),
        Err(Interruption::Memory) => Err(OutOfMemory),
    }
}
