// The answer to a question, by the graph that is built of it.
ghost use Rattle.std.specs.Prelude.{◌≡◌, IfOk, List};
ghost use Rattle.qgm_wellformed.specs.Sentences.{WellFormed};
ghost use Rattle.qgm_meaning.specs.Meaning.{root_bag};
ghost use Rattle.qgm_meaning.specs.Satisfies.{Satisfies};
ghost use Rattle.qgm_build.specs.Valid.{IsItsGraph};
ghost use Rattle.qgm_translation_laws.specs.Joined.{AreTablesOf};
ghost use Rattle.row_bag.specs.Bags.{Agree};
ghost use Rattle.row_bag.specs.Sets.{same_cells};
ghost use Rattle.row_bag.specs.Verdict.{verdict};
ghost use Rattle.row_bag.specs.declared.row.Row.{Row};
ghost use Rattle.row_bag.specs.declared.tables.Table.{Table};
ghost use Rattle.sql_catalog.specs.Shown as catalogs;
ghost use Rattle.sql_check.specs.Checked.{rows_of};
ghost use Rattle.sql_meaning.specs.Meaning.{answer_of};
ghost use Rattle.sql_value.specs.declared.cell.Cell.{Cell};
ghost use Rattle.command_input.specs.Ready.{IsReady, IsSound};
ghost use Rattle.command_input.specs.Questions.{answer_to, question_of};
ghost use Rattle.qgm_app.specs.Alike.{AnswersAlike};
ghost use Rattle.qgm_app.specs.Held.{answer_as, held_answer};
ghost use Rattle.qgm_app.specs.Rewriting.{IsBuilt, IsExplanation, IsRun};

use command_input::Question;
use qgm_build::build;
use qgm_core::Graph;
use qgm_run::{Ran, run_rewritten, tell_rewritten};
use qgm_translation_laws::loaded_laws;
use qgm_wellformed::fault_laws;
use row_bag::{Bag, Tables, Verdict, bag_laws, sorted, verdict};
use rule_plan::Plan;
use shared_types::{OutOfMemory, Text};
use sql_check::Heading;
use sql_value::OutNames;
use std::alloc::Global;
use std::sync::ledger::Ledger;
use step_count::Steps;

/// The answer to a question: its columns' names, and the rows in order or the error.
#[derive(Drop)]
pub struct Answered {
    pub names: OutNames,
    pub verdict: Verdict,
    /// How many rules fired.
    pub firings: u64,
}

/// The answer to a question, and the text that tells how it was come by.
#[derive(Drop)]
pub struct Explained {
    pub answered: Answered,
    pub text: Text,
}

// Bags that agree have one answer: the same error, or the same rows in order. It does nothing.
fn answer_laws()
    ensures alike { AnswersAlike }
{
    bag_laws();
}

/// The graph of a question's query, whatever its tables are.
pub fn built_graph(alloc: Global, question: &Question) -> Result<Graph, OutOfMemory>
    requires { IsSound question.now }
    ensures its { IfOk result (λ g. IsItsGraph (catalogs.catalog question.now.catalog) question.now.valid.checked g) }
    ensures built { IfOk result (λ g. IsBuilt (question_of question.now) g) }
    ensures formed { IfOk result (λ g. WellFormed g) }
    ensures rows { IfOk result (λ g. (tables : List Table) → AreTablesOf (catalogs.catalog question.now.catalog) tables → root_bag tables g ≡ rows_of question.now.views question.now.valid.checked tables) }
{
    fault_laws();
    let graph = build(
        alloc,
        &question.valid.checked,
        &question.catalog,
        &question.views,
    )?;
    graph.each_number_once();
    Ok(graph)
}

// The graph of a question's query, over its tables.
fn graph_of(alloc: Global, question: &Question) -> Result<Graph, OutOfMemory>
    requires ready { IsReady question.now }
    ensures built { IfOk result (λ g. IsBuilt (question_of question.now) g) }
    ensures formed { IfOk result (λ g. WellFormed g) }
    ensures satisfied { IfOk result (λ g. Satisfies question.now.tables g.boxes) }
    ensures rows { IfOk result (λ g. root_bag question.now.tables g ≡ rows_of question.now.views question.now.valid.checked question.now.tables) }
{
    loaded_laws();
    let graph = built_graph(alloc, question)?;
    Ok(graph)
}

// The heading of a question's query, and its tables. All else goes.
fn parted(question: Question) -> (Heading, Tables)
    ensures names { result.0.names ≡ question.valid.checked.names }
    ensures order { result.0.order ≡ question.valid.checked.order }
    ensures tables { result.1 ≡ question.tables }
{
    let Question {
        catalog: _,
        views: _,
        valid,
        tables,
    } = question;
    (valid.into_checked().into_heading(), tables)
}

// The rows in the order of these keys, or their greatest error.
fn ordered(alloc: Global, heading: &Heading, bag: Bag) -> Result<Verdict, OutOfMemory>
    ensures { IfOk result (λ v. (rows : List (Row (List Cell))) → Agree same_cells bag rows → answer_as heading.now.names v ≡ answer_of heading.now.names heading.now.order (verdict rows)) }
{
    answer_laws();
    match verdict(bag) {
        Verdict::Rows(bag) => Ok(Verdict::Rows(sorted(bag, &heading.order)?)),
        Verdict::Error(kind) => Ok(Verdict::Error(kind)),
    }
}

// The answer under a heading whose rows these are, after so many firings.
fn settled(alloc: Global, heading: Heading, ran: Ran) -> Result<Answered, OutOfMemory>
    ensures answer { IfOk result (λ a. (rows : List (Row (List Cell))) → Agree same_cells ran.rows rows → held_answer a ≡ answer_of heading.names heading.order (verdict rows)) }
    ensures firings { IfOk result (λ a. a.firings ≡ ran.firings) }
{
    let verdict = ordered(alloc, &heading, ran.rows)?;
    Ok(Answered {
        names: heading.names,
        verdict,
        firings: ran.firings,
    })
}

// The heading of a question and its rows: its graph is rewritten by a plan, and executed.
fn ran<L: Ledger>(
    alloc: Global,
    question: Question,
    plan: &Plan,
    steps: &mut Steps<L>,
) -> Result<(Heading, Ran), OutOfMemory>
    requires ready { IsReady question }
    ensures names { IfOk result (λ x. x.0.names ≡ question.valid.checked.names) }
    ensures order { IfOk result (λ x. x.0.order ≡ question.valid.checked.order) }
    ensures rows { IfOk result (λ x. Agree same_cells x.1.rows (rows_of question.views question.valid.checked question.tables)) }
    ensures run { IfOk result (λ x. IsRun plan.now (question_of question) x.1.firings steps.old steps.new) }
{
    let graph = graph_of(alloc, &question);
    let (heading, tables) = parted(question);
    let ran = run_rewritten(alloc, graph?, plan, tables, steps)?;
    Ok((heading, ran))
}

// The heading of a question, its rows, and the text that tells of its rewriting and execution.
fn told<L: Ledger>(
    alloc: Global,
    question: Question,
    plan: &Plan,
    steps: &mut Steps<L>,
) -> Result<(Heading, Ran, Text), OutOfMemory>
    requires ready { IsReady question }
    ensures names { IfOk result (λ x. x.0.names ≡ question.valid.checked.names) }
    ensures order { IfOk result (λ x. x.0.order ≡ question.valid.checked.order) }
    ensures rows { IfOk result (λ x. Agree same_cells x.1.rows (rows_of question.views question.valid.checked question.tables)) }
    ensures run { IfOk result (λ x. IsRun plan.now (question_of question) x.1.firings steps.old steps.new) }
    ensures text { IfOk result (λ x. IsExplanation plan.now (question_of question) steps.old steps.new x.2) }
{
    let graph = graph_of(alloc, &question);
    let (heading, tables) = parted(question);
    let graph = graph?;
    let mut text = Text::new(alloc)?;
    let ran = tell_rewritten(alloc, graph, plan, tables, steps, &mut text)?;
    Ok((heading, ran, text))
}

/// The answer to a question: its graph is built, rewritten by a plan, and executed. Each evaluation of
/// a box is a step. It fails only for want of memory.
pub fn answer<L: Ledger>(
    alloc: Global,
    question: Question,
    plan: &Plan,
    steps: &mut Steps<L>,
) -> Result<Answered, OutOfMemory>
    requires ready { IsReady question }
    ensures answer { IfOk result (λ a. held_answer a ≡ answer_to (question_of question)) }
    ensures run { IfOk result (λ a. IsRun plan.now (question_of question) a.firings steps.old steps.new) }
{
    loaded_laws();
    let (heading, ran) = ran(alloc, question, plan, steps)?;
    settled(alloc, heading, ran)
}

/// The answer to a question, as `answer` gives it, and the text that tells of it: the graph that is
/// built, each firing with the graph after it, how many there were, and how many evaluations of boxes
/// the rows took.
pub fn explain<L: Ledger>(
    alloc: Global,
    question: Question,
    plan: &Plan,
    steps: &mut Steps<L>,
) -> Result<Explained, OutOfMemory>
    requires ready { IsReady question }
    ensures answer { IfOk result (λ e. held_answer e.answered ≡ answer_to (question_of question)) }
    ensures run { IfOk result (λ e. IsRun plan.now (question_of question) e.answered.firings steps.old steps.new) }
    ensures text { IfOk result (λ e. IsExplanation plan.now (question_of question) steps.old steps.new e.text) }
{
    loaded_laws();
    let (heading, ran, text) = told(alloc, question, plan, steps)?;
    let answered = settled(alloc, heading, ran)?;
    Ok(Explained { answered, text })
}
