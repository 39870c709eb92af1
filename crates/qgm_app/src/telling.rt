// What a command tells of the answer to its question.
ghost use Rattle.std.specs.Prelude.{◌≡◌, ◌≢◌, IfOk, encode_utf8_all};
ghost use Rattle.command_line.specs.Line.{line_text, task_text};
ghost use Rattle.generated_input.specs.Made.{depts};
ghost use Rattle.command_input.specs.Questions.{question_of};
ghost use Rattle.command_input.specs.declared.report.Report.TheVariants.{Rows, Usage};
ghost use Rattle.qgm_app.specs.Fit.{IsFit};
ghost use Rattle.qgm_app.specs.Held.{held_answer};
ghost use Rattle.qgm_app.specs.Rewriting.{IsRun};
ghost use Rattle.qgm_app.specs.Telling.{Counts, IsExplained, IsSummary, Tells, report_behind, report_of, row_number, statement_line, summary};
ghost use Rattle.qgm_app.specs.Outcome.{answering};
ghost use Rattle.qgm_app.specs.Runs.{IsMade};
ghost use Rattle.command_input.specs.Printed.{status_of};

use crate::answers::{Answered, Explained, answer, explain};
use crate::statement::state;
use command_input::{Question, Report};
use command_line::{Line, Task};
use csv_tables::write_rows;
use row_bag::Verdict;
use shared_types::{OutOfMemory, Text};
use sqlite_items::Items;
use std::alloc::Global;
use std::sync::ledger::Ledger;
use step_count::Steps;

// The answer itself: the header and the rows in CSV, or the error.
fn tell_answer(alloc: Global, answer: &Answered) -> Result<Report, OutOfMemory>
    ensures { IfOk result (λ report. report ≡ report_of (held_answer answer.now)) }
{
    match &answer.verdict {
        Verdict::Rows(bag) => {
            let text = write_rows(alloc, &answer.names, bag)?;
            Ok(Report::Rows(Items::from_vec(text)))
        }
        Verdict::Error(kind) => Ok(Report::Error(*kind)),
    }
}

// The bytes of a text.
fn bytes_of(alloc: Global, text: &Text) -> Result<Items<u8>, OutOfMemory>
    ensures { IfOk result (λ bytes. bytes ≡ encode_utf8_all text.now) }
{
    let text = text.to_utf8(alloc)?;
    Ok(Items::from_slice(alloc, text.as_bytes())?)
}

// A text that tells of a rewriting, and behind it the answer.
fn tell_explained(alloc: Global, explained: &Explained) -> Result<Report, OutOfMemory>
    ensures { IfOk result (λ report. report ≡ report_behind (encode_utf8_all explained.now.text) (held_answer explained.now.answered)) }
{
    let mut told = bytes_of(alloc, &explained.text)?;
    match &explained.answered.verdict {
        Verdict::Rows(bag) => {
            let rows = write_rows(alloc, &explained.answered.names, bag)?;
            told.append(Items::from_vec(rows))?;
            Ok(Report::Rows(told))
        }
        Verdict::Error(kind) => Ok(Report::ExplainedError { told, kind: *kind }),
    }
}

// A statement, and a line feed.
fn tell_statement(alloc: Global, text: &Text) -> Result<Report, OutOfMemory>
    ensures { IfOk result (λ report. report ≡ Rows (statement_line text.now)) }
{
    let mut line = bytes_of(alloc, text)?;
    line.push(b'\n')?;
    Ok(Report::Rows(line))
}

// How many rows an answer has.
fn row_number(answer: &Answered) -> usize
    ensures { result ≡ row_number (held_answer answer.now) }
{
    match &answer.verdict {
        Verdict::Rows(bag) => bag.len(),
        Verdict::Error(_) => 0,
    }
}

// How much was made from a number, how many rows the answer has, and how many rules fired.
fn tell_summary(alloc: Global, rows: u64, answer: &Answered) -> Result<Report, OutOfMemory>
    ensures { IfOk result (λ report. report ≡ Rows (summary (depts rows) rows (row_number (held_answer answer.now)) answer.now.firings)) }
{
    let depts = rows / 10 + 1;
    let number = row_number(answer);
    let firings = answer.firings;
    let text = format!(in alloc; "TABLES {depts} {rows}\nANSWER {number}\nFIRINGS {firings}\n")?;
    Ok(Report::Rows(Items::from_vec(text.as_bytes().to_vec(alloc)?)))
}

/// What a command tells of the answer to its question.
pub fn tell<L: Ledger>(
    alloc: Global,
    line: &Line<'_>,
    question: Question,
    steps: &mut Steps<L>,
) -> Result<Report, OutOfMemory>
    requires { IsFit (task_text line.now.task) question }
    ensures tells { IfOk result (λ report. Tells (line_text line.now) (question_of question) report) }
    ensures counts { IfOk result (λ report. Counts (answering (line_text line.now) (question_of question)) report steps.old steps.new) }
    ensures line { IfOk result (λ report. report ≢ Usage) }
    ensures made { IsMade (task_text line.now.task) → IfOk result (λ report. status_of report ≡ 0) }
{
    match &line.task {
        Task::Run { .. } => {
            let answered = answer(alloc, question, &line.plan, steps)?;
            tell_answer(alloc, &answered)
        }
        Task::Explain { .. } => {
            let explained = explain(alloc, question, &line.plan, steps)?;
            tell_explained(alloc, &explained)
        }
        Task::Sql { .. } => {
            let text = state(alloc, &question, &line.plan)?;
            tell_statement(alloc, &text)
        }
        Task::Gen { rows, .. } => {
            let answered = answer(alloc, question, &line.plan, steps)?;
            tell_summary(alloc, *rows, &answered)
        }
    }
}
