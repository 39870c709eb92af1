// The command that `clap` parses by.
ghost use Rattle.std.specs.Prelude.{◌≡◌, IfOk, false};
ghost use Rattle.clap.specs.Words.{app_of, new_app, rule_of, with_rule, with_subcommand};
ghost use Rattle.clap.specs.declared.builder.command.Command.TheViews.{out-Command as fields_of};
ghost use Rattle.command_line.specs.Command.{gen_app, line_app, number_place_rule, number_rule, sql_app};
ghost use Rattle.command_line.specs.Command.{option_rule, place_rule, table_app, top_app, with_option_rules};

use clap::builder::ValueParser;
use clap::{Arg, Command};
use std::alloc::{AllocError, Global};

const GREATEST_BUDGET: u64 = 10000;

const GREATEST_SEED: u64 = 2147483647;

const GREATEST_ROWS: u64 = 100000;

const EVERY_CLASS: &str = "merge,subquery,distinct,push,trans,prune,magic";

// An option that takes any text.
fn text_option<'a>(alloc: Global, name: &'a str, default: &'a str) -> Arg<'a>
    ensures local { result.global ≡ false }
    ensures rule { rule_of result ≡ option_rule name.now default.now }
{
    Arg::new(alloc, name).long(name).default_value(default)
}

// An option that takes a number up to `most`.
fn number_option<'a>(alloc: Global, name: &'a str, most: u64, default: &'a str) -> Arg<'a>
    ensures local { result.global ≡ false }
    ensures rule { rule_of result ≡ number_rule name.now most default.now }
{
    let parser = ValueParser::unsigned(0, most);
    text_option(alloc, name, default).value_parser(parser)
}

// A positional that takes any text.
fn text_place<'a>(alloc: Global, name: &'a str) -> Arg<'a>
    ensures local { result.global ≡ false }
    ensures rule { rule_of result ≡ place_rule name.now }
{
    Arg::new(alloc, name).required(true)
}

// A positional that takes a number up to `most`.
fn number_place<'a>(alloc: Global, name: &'a str, most: u64) -> Arg<'a>
    ensures local { result.global ≡ false }
    ensures rule { rule_of result ≡ number_place_rule name.now most }
{
    let parser = ValueParser::unsigned(0, most);
    text_place(alloc, name).value_parser(parser)
}

// A command without arguments. A command is large, so each is made in a box.
fn bare_command<'a>(alloc: Global, name: &'a str) -> Result<Box<Command<'a>>, AllocError>
    ensures local { IfOk result (λ c. (fields_of c.value).has_globals ≡ false) }
    ensures shape { IfOk result (λ c. app_of c.value ≡ new_app name.now) }
{
    Ok(Box::new(alloc, Command::new(alloc, name))?)
}

// Adds an argument.
fn with_arg<'a>(
    alloc: Global,
    command: Box<Command<'a>>,
    arg: Arg<'a>,
) -> Result<Box<Command<'a>>, AllocError>
    requires local { (fields_of command.value).has_globals ≡ false }
    requires argument { arg.global ≡ false }
    ensures local { IfOk result (λ c. (fields_of c.value).has_globals ≡ false) }
    ensures shape { IfOk result (λ c. app_of c.value ≡ with_rule (app_of command.entry.value) (rule_of arg.entry)) }
{
    let more = Box::into_inner(command).arg(arg)?;
    Ok(Box::new(alloc, more)?)
}

// Adds the options that each command has.
fn with_options<'a>(
    alloc: Global,
    command: Box<Command<'a>>,
) -> Result<Box<Command<'a>>, AllocError>
    requires { (fields_of command.value).has_globals ≡ false }
    ensures local { IfOk result (λ c. (fields_of c.value).has_globals ≡ false) }
    ensures shape { IfOk result (λ c. app_of c.value ≡ with_option_rules (app_of command.entry.value)) }
{
    let first = with_arg(
        alloc,
        command,
        number_option(alloc, "budget", GREATEST_BUDGET, "1000"),
    )?;
    let second = with_arg(alloc, first, text_option(alloc, "order", "sequence"))?;
    let third = with_arg(alloc, second, text_option(alloc, "walk", "depth"))?;
    let fourth = with_arg(alloc, third, text_option(alloc, "classes", EVERY_CLASS))?;
    with_arg(
        alloc,
        fourth,
        number_option(alloc, "seed", GREATEST_SEED, "0"),
    )
}

// `run` and `explain`.
fn table_command<'a>(alloc: Global, name: &'a str) -> Result<Box<Command<'a>>, AllocError>
    ensures local { IfOk result (λ c. (fields_of c.value).has_globals ≡ false) }
    ensures shape { IfOk result (λ c. app_of c.value ≡ table_app name.now) }
{
    let bare = bare_command(alloc, name)?;
    let first = with_arg(alloc, bare, text_place(alloc, "schema"))?;
    let second = with_arg(alloc, first, text_place(alloc, "query"))?;
    let third = with_arg(alloc, second, text_place(alloc, "dir"))?;
    with_options(alloc, third)
}

// `sql`.
fn sql_command<'a>(alloc: Global) -> Result<Box<Command<'a>>, AllocError>
    ensures local { IfOk result (λ c. (fields_of c.value).has_globals ≡ false) }
    ensures shape { IfOk result (λ c. app_of c.value ≡ sql_app) }
{
    let bare = bare_command(alloc, "sql")?;
    let first = with_arg(alloc, bare, text_place(alloc, "schema"))?;
    let second = with_arg(alloc, first, text_place(alloc, "query"))?;
    let third = with_options(alloc, second)?;
    with_arg(alloc, third, text_option(alloc, "dialect", "postgres"))
}

// `gen`.
fn gen_command<'a>(alloc: Global) -> Result<Box<Command<'a>>, AllocError>
    ensures local { IfOk result (λ c. (fields_of c.value).has_globals ≡ false) }
    ensures shape { IfOk result (λ c. app_of c.value ≡ gen_app) }
{
    let bare = bare_command(alloc, "gen")?;
    let first = with_arg(alloc, bare, number_place(alloc, "start", GREATEST_SEED))?;
    let second = with_arg(alloc, first, number_place(alloc, "rows", GREATEST_ROWS))?;
    with_options(alloc, second)
}

// The name of the command, with no switch for help or the version.
fn top_command<'a>(alloc: Global) -> Command<'a>
    ensures { app_of result ≡ top_app }
{
    Command::new(alloc, "qgm")
        .no_binary_name(true)
        .disable_help_flag(true)
        .disable_help_subcommand(true)
        .disable_version_flag(true)
}

// The command without commands below it.
fn boxed_top<'a>(alloc: Global) -> Result<Box<Command<'a>>, AllocError>
    ensures { IfOk result (λ c. app_of c.value ≡ top_app) }
{
    Ok(Box::new(alloc, top_command(alloc))?)
}

// Adds a command below.
fn with_command<'a>(
    alloc: Global,
    top: Box<Command<'a>>,
    below: Box<Command<'a>>,
) -> Result<Box<Command<'a>>, AllocError>
    requires local { (fields_of below.value).has_globals ≡ false }
    ensures { IfOk result (λ c. app_of c.value ≡ with_subcommand (app_of top.entry.value) (app_of below.entry.value).top) }
{
    let more = Box::into_inner(top).subcommand(Box::into_inner(below))?;
    Ok(Box::new(alloc, more)?)
}

/// The whole command.
pub(crate) fn line_command<'a>(alloc: Global) -> Result<Box<Command<'a>>, AllocError>
    ensures { IfOk result (λ c. app_of c.value ≡ line_app) }
{
    let top = boxed_top(alloc)?;
    let run = table_command(alloc, "run")?;
    let first = with_command(alloc, top, run)?;
    let explain = table_command(alloc, "explain")?;
    let second = with_command(alloc, first, explain)?;
    let sql = sql_command(alloc)?;
    let third = with_command(alloc, second, sql)?;
    let generate = gen_command(alloc)?;
    with_command(alloc, third, generate)
}
