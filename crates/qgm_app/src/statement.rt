// The statement of a question's query.
ghost use Rattle.std.specs.Prelude.{◌≡◌, IfOk, map};
ghost use Rattle.command_input.specs.Questions.{question_of};
ghost use Rattle.command_input.specs.Ready.{IsSound};
ghost use Rattle.sql_ast.specs.Declarations.{columns_of, names_of};
ghost use Rattle.qgm_app.specs.Stated.{IsStated, named_table};

use crate::answers::built_graph;
use command_input::Question;
use graph_sql::TableNames;
use qgm_run::rewritten_statement;
use rule_plan::Plan;
use shared_types::{OutOfMemory, Text};
use sql_ast::{Element, TableDecl};
use sqlite_items::Items;
use std::alloc::Global;

// The names of the columns among a table's elements.
fn column_names(alloc: Global, elements: &[Element]) -> Result<Items<Text>, OutOfMemory>
    ensures { IfOk result (λ names. names ≡ names_of (columns_of elements.now)) }
{
    let mut names = Items::new(alloc);
    for element in elements {
        match element {
            Element::Column(column) => names.push(column.name.copy(alloc)?)?,
            Element::PrimaryKey(_) | Element::Unique(_) => {}
        }
    }
    Ok(names)
}

// A table's name, and those of its columns.
fn table_named(alloc: Global, table: &TableDecl) -> Result<TableNames, OutOfMemory>
    ensures { IfOk result (λ names. names ≡ named_table table.now) }
{
    Ok(TableNames {
        name: table.name.copy(alloc)?,
        columns: column_names(alloc, table.elements.as_slice())?,
    })
}

// The names of tables and of their columns.
fn tables_named(alloc: Global, tables: &[TableDecl]) -> Result<Items<TableNames>, OutOfMemory>
    ensures { IfOk result (λ names. names ≡ map named_table tables.now) }
{
    let mut names = Items::new(alloc);
    for table in tables {
        names.push(table_named(alloc, table)?)?;
    }
    Ok(names)
}

/// The statement of the graph that the graph of a question's query is rewritten to by a plan. It fails
/// only for want of memory.
pub fn state(alloc: Global, question: &Question, plan: &Plan) -> Result<Text, OutOfMemory>
    requires { IsSound question.now }
    ensures { IfOk result (λ text. IsStated plan.now (question_of question.now) text) }
{
    let names = tables_named(alloc, question.catalog.tables().as_slice())?;
    let graph = built_graph(alloc, question)?;
    rewritten_statement(alloc, graph, plan, names.as_slice())
}
