// What the words of a command line say.
ghost use Rattle.std.specs.Prelude.{◌≡◌, ◌≢◌, Err, IfOk, IsErrOf, None, Some, map, option_and_then, option_map, true};
ghost use Rattle.std.specs.Prelude.{string_bytes};
ghost use Rattle.clap.specs.Words.{found_of, rows_of, subcommand_rows_of};
ghost use Rattle.command_line.specs.Line.{is_taken, line_text, task_text};
ghost use Rattle.command_line.specs.Reading.{command_at, known_line, line, number, order_named};
ghost use Rattle.command_line.specs.Reading.{plan_at, sql_at, task_at, text_at, walk_named};

use crate::classes::classes_named;
use crate::command::line_command;
use crate::refusal::WordsRefusal;
use crate::task::{Line, Task, is_taken};
use clap::ArgMatches;
use clap::error::ErrorKind;
use rule_plan::{Order, Plan};
use shared_types::Walk;
use std::alloc::Global;

// The number that a text writes, which `clap` has tested.
fn number(text: &str) -> u64
    ensures { result ≡ number text.now }
{
    text.parse::<u64>().unwrap_or(0)
}

fn order_named(text: &str) -> Option<Order>
    ensures { result ≡ order_named text.now }
{
    match text {
        "sequence" => Some(Order::Sequence),
        "priority" => Some(Order::Priority),
        "scatter" => Some(Order::Scatter),
        _ => None,
    }
}

fn walk_named(text: &str) -> Option<Walk>
    ensures { result ≡ walk_named text.now }
{
    match text {
        "depth" => Some(Walk::Depth),
        "breadth" => Some(Walk::Breadth),
        _ => None,
    }
}

// The value of an argument, which each command has by a default or since it is required.
fn text_at<'a>(matches: &ArgMatches<'a>, id: &str) -> &'a str
    ensures { result.now ≡ text_at id.now (rows_of (found_of matches.now)) }
{
    matches.get_str(id).unwrap_or("")
}

#[tactic(auto, unfolding(crate::specs::Reading::plan_at))]
fn plan_at(alloc: Global, matches: &ArgMatches) -> Result<Plan, WordsRefusal>
    ensures ok { IfOk result (λ p. plan_at (rows_of (found_of matches.now)) ≡ Some p) }
    ensures usage { IsErrOf result WordsRefusal.Usage → plan_at (rows_of (found_of matches.now)) ≡ None }
{
    let Some(order) = order_named(text_at(matches, "order")) else {
        return Err(WordsRefusal::Usage);
    };
    let Some(walk) = walk_named(text_at(matches, "walk")) else {
        return Err(WordsRefusal::Usage);
    };
    let classes = classes_named(alloc, text_at(matches, "classes"))?;
    let seed = number(text_at(matches, "seed"));
    let budget = number(text_at(matches, "budget"));
    Ok(Plan {
        classes,
        order,
        walk,
        seed,
        budget,
    })
}

fn sql_at<'a>(matches: &ArgMatches<'a>) -> Option<Task<'a>>
    ensures { option_map task_text result ≡ sql_at (rows_of (found_of matches.now)) }
{
    match text_at(matches, "dialect") {
        "postgres" => Some(Task::Sql {
            schema: text_at(matches, "schema"),
            query: text_at(matches, "query"),
        }),
        _ => None,
    }
}

#[tactic(auto, unfolding(crate::specs::Reading::task_at))]
fn task_at<'a>(name: &str, matches: &ArgMatches<'a>) -> Option<Task<'a>>
    ensures { option_map task_text result ≡ task_at name.now (rows_of (found_of matches.now)) }
{
    match name {
        "run" => Some(Task::Run {
            schema: text_at(matches, "schema"),
            query: text_at(matches, "query"),
            dir: text_at(matches, "dir"),
        }),
        "explain" => Some(Task::Explain {
            schema: text_at(matches, "schema"),
            query: text_at(matches, "query"),
            dir: text_at(matches, "dir"),
        }),
        "sql" => sql_at(matches),
        "gen" => Some(Task::Gen {
            seed: number(text_at(matches, "start")),
            rows: number(text_at(matches, "rows")),
        }),
        _ => None,
    }
}

#[tactic(auto, unfolding(crate::specs::Reading::command_at))]
fn command_at<'a>(
    alloc: Global,
    name: &str,
    matches: &ArgMatches<'a>,
) -> Result<Line<'a>, WordsRefusal>
    ensures ok { IfOk result (λ l. command_at (name.now, rows_of (found_of matches.now)) ≡ Some (line_text l)) }
    ensures usage { IsErrOf result WordsRefusal.Usage → command_at (name.now, rows_of (found_of matches.now)) ≡ None }
{
    let Some(task) = task_at(name, matches) else {
        return Err(WordsRefusal::Usage);
    };
    let plan = plan_at(alloc, matches)?;
    Ok(Line { task, plan })
}

fn line_of<'a>(alloc: Global, matches: &ArgMatches<'a>) -> Result<Line<'a>, WordsRefusal>
    ensures ok { IfOk result (λ l. option_and_then command_at (subcommand_rows_of matches.now) ≡ Some (line_text l)) }
    ensures usage { IsErrOf result WordsRefusal.Usage → option_and_then command_at (subcommand_rows_of matches.now) ≡ None }
{
    let Some((name, inner)) = matches.subcommand() else {
        return Err(WordsRefusal::Usage);
    };
    command_at(alloc, name, inner)
}

fn refusal_of(kind: ErrorKind) -> WordsRefusal
    ensures { result ≡ WordsRefusal.Usage → kind ≢ ErrorKind.OutOfMemory }
{
    match kind {
        ErrorKind::OutOfMemory => WordsRefusal::Memory,
        _ => WordsRefusal::Usage,
    }
}

// The line that the words are, whose command may not be taken.
fn known_line<'a>(alloc: Global, words: &'a [String]) -> Result<Line<'a>, WordsRefusal>
    ensures ok { IfOk result (λ l. known_line (map (λ w. string_bytes w) words.now) ≡ Some (line_text l)) }
    ensures usage { IsErrOf result WordsRefusal.Usage → known_line (map (λ w. string_bytes w) words.now) ≡ None }
{
    let Ok(command) = line_command(alloc) else {
        return Err(WordsRefusal::Memory);
    };
    let matches = match Box::into_inner(command).try_get_matches_from(words) {
        Ok(matches) => matches,
        Err(error) => return Err(refusal_of(error.kind())),
    };
    line_of(alloc, &matches)
}

/// The command line that the words are (those after the program's name). It answers `Usage` where
/// they are none: where `clap` doesn't take them, they hold no command, an order, a walk, a class
/// or a dialect isn't one of those listed, a class stands twice, or the command isn't taken.
pub fn read_line<'a>(alloc: Global, words: &'a [String]) -> Result<Line<'a>, WordsRefusal>
    ensures ok { IfOk result (λ l. line (map (λ w. string_bytes w) words.now) ≡ Some (line_text l)) }
    ensures usage { IsErrOf result WordsRefusal.Usage → line (map (λ w. string_bytes w) words.now) ≡ None }
    ensures taken { IfOk result (λ l. is_taken (task_text l.task) ≡ true) }
{
    match known_line(alloc, words) {
        Ok(line) => {
            if is_taken(&line.task) {
                Ok(line)
            } else {
                Err(WordsRefusal::Usage)
            }
        }
        Err(refusal) => Err(refusal),
    }
}
