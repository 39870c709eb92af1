// What a command line asks for.
ghost use Rattle.std.specs.Prelude.{◌≡◌};
ghost use Rattle.command_line.specs.Line.{is_taken, task_text};

use rule_plan::Plan;

/// A command with its arguments.
#[derive(Clone, Copy)]
pub enum Task<'a> {
    /// Answers a query.
    Run {
        /// The name of the schema's file.
        schema: &'a str,
        /// The name of the query's file.
        query: &'a str,
        /// The name of the folder of tables.
        dir: &'a str,
    },
    /// Shows how a query is rewritten.
    Explain {
        /// The name of the schema's file.
        schema: &'a str,
        /// The name of the query's file.
        query: &'a str,
        /// The name of the folder of tables.
        dir: &'a str,
    },
    /// Writes the rewritten query as SQL for PostgreSQL.
    Sql {
        /// The name of the schema's file.
        schema: &'a str,
        /// The name of the query's file.
        query: &'a str,
    },
    /// Makes a schema, its tables and a query.
    Gen {
        /// What they are drawn by, 0 to 2147483647.
        seed: u64,
        /// The number of rows, 0 to 100000.
        rows: u64,
    },
}

/// A command line.
#[derive(Drop)]
pub struct Line<'a> {
    /// What is to be done.
    pub task: Task<'a>,
    /// How queries are to be rewritten.
    pub plan: Plan,
}

// Whether the program takes the command: its numbers are within range.
pub(crate) fn is_taken(task: &Task) -> bool
    ensures { result ≡ is_taken (task_text task.now) }
{
    match task {
        Task::Run { .. } | Task::Explain { .. } | Task::Sql { .. } => true,
        Task::Gen { seed, rows } => *seed <= 2_147_483_647 && *rows <= 100_000,
    }
}
