// The text of a schema.
ghost use Rattle.std.specs.Prelude.{◌≡◌, ◌↔◌, true, false, map, length, Some, IfOk, IsErrOf};
ghost use Rattle.sql_ast.specs.Grammatical.{SpellsSchema};
ghost use Rattle.sql_ast.specs.Shown as shown;
ghost use Rattle.sql_ast.specs.Syntax as s;
ghost use Rattle.sql_parser.specs.declared.refusal.ParseRefusal.TheVariants.{OverLimit, Syntax};
ghost use Rattle.sql_parser.specs.ReadSchema as read;
ghost use Rattle.sql_parser.specs.ReadSchema.{schema_tree};
ghost use Rattle.sql_parser.specs.Words.{Gives};
ghost use Rattle.sql_text.specs.Depth.{too_deep};
ghost use Rattle.sql_text.specs.Tokens.{token_list};

use crate::elements::elements;
use crate::naming::column_list;
use crate::refusal::ParseRefusal;
use crate::text::query;
use crate::word::{close, first};
use sql_ast::{Query, Schema, Statement, TableDecl, ViewDecl};
use sql_text::{Key, Spanned, Token, too_deep};
use sqlite_items::Items;
use std::alloc::Global;

/// `name "(" element { "," element } ")"`, after `CREATE TABLE`
fn table_decl(alloc: Global, ts: &[Spanned]) -> Result<(Statement, &[Spanned]), ParseRefusal>
    ensures { Gives (λ x. (shown.statement x.0, token_list x.1.now)) result (read.table_decl (token_list ts.now)) }
{
    let [
        Spanned {
            token: Token::Name(name),
            ..
        },
        Spanned {
            token: Token::LeftParen,
            ..
        },
        rest @ ..,
    ] = ts
    else {
        return Err(ParseRefusal::Syntax);
    };
    let name = name.copy(alloc)?;
    let (elements, rest) = elements(alloc, rest)?;
    let rest = close(rest)?;
    Ok((Statement::Table(TableDecl { name, elements }), rest))
}

/// `AS query`
fn view_query(alloc: Global, ts: &[Spanned]) -> Result<(Box<Query>, &[Spanned]), ParseRefusal>
    ensures { Gives (λ x. (shown.query x.0.value, token_list x.1.now)) result (read.view_query (token_list ts.now)) }
{
    match first(ts) {
        Some((Token::Key(Key::As), rest)) => query(alloc, 65, rest),
        _ => Err(ParseRefusal::Syntax),
    }
}

/// `name [ "(" names ")" ] AS query`, after `CREATE VIEW`
fn view_decl(alloc: Global, ts: &[Spanned]) -> Result<(Statement, &[Spanned]), ParseRefusal>
    ensures { Gives (λ x. (shown.statement x.0, token_list x.1.now)) result (read.view_decl (token_list ts.now)) }
{
    let Some((Token::Name(name), rest)) = first(ts) else {
        return Err(ParseRefusal::Syntax);
    };
    let name = name.copy(alloc)?;
    let (columns, rest) = column_list(alloc, rest)?;
    let (query, rest) = view_query(alloc, rest)?;
    let view = ViewDecl {
        name,
        columns,
        query: Box::into_inner(query),
    };
    Ok((Statement::View(view), rest))
}

/// `stmt = CREATE TABLE .. | CREATE VIEW ..`
fn statement(alloc: Global, ts: &[Spanned]) -> Result<(Statement, &[Spanned]), ParseRefusal>
    ensures { Gives (λ x. (shown.statement x.0, token_list x.1.now)) result (read.statement (token_list ts.now)) }
{
    match first(ts) {
        Some((Token::Key(Key::Create), rest)) => match first(rest) {
            Some((Token::Key(Key::Table), rest)) => table_decl(alloc, rest),
            Some((Token::Key(Key::View), rest)) => view_decl(alloc, rest),
            _ => Err(ParseRefusal::Syntax),
        },
        _ => Err(ParseRefusal::Syntax),
    }
}

/// `";"`, after a statement
fn semicolon(statement: Statement, ts: &[Spanned]) -> Result<(Statement, &[Spanned]), ParseRefusal>
    ensures { Gives (λ x. (shown.statement x.0, token_list x.1.now)) result (read.semicolon (shown.statement statement) (token_list ts.now)) }
{
    match first(ts) {
        Some((Token::Semicolon, rest)) => Ok((statement, rest)),
        _ => Err(ParseRefusal::Syntax),
    }
}

/// `stmt ";"`
fn ended(alloc: Global, ts: &[Spanned]) -> Result<(Statement, &[Spanned]), ParseRefusal>
    ensures { Gives (λ x. (shown.statement x.0, token_list x.1.now)) result (read.ended (token_list ts.now)) }
{
    let (statement, rest) = statement(alloc, ts)?;
    semicolon(statement, rest)
}

/// `{ stmt ";" }`, up to the end
fn statements(alloc: Global, ts: &[Spanned]) -> Result<Items<Statement>, ParseRefusal>
    ensures { Gives (map shown.statement) result (read.statements (length (token_list ts.now)) (token_list ts.now)) }
{
    let mut statements = Items::new(alloc);
    let mut rest = ts;
    'statements: for _turn in 0..ts.len() {
        if rest.is_empty() {
            return Ok(statements);
        }
        let (next, after) = ended(alloc, rest)?;
        statements.push(next)?;
        rest = after;
    }
    if rest.is_empty() {
        Ok(statements)
    } else {
        Err(ParseRefusal::Syntax)
    }
}

/// `schema = { stmt ";" }`
#[tactic(auto, unfolding(crate::specs::ReadSchema::schema_tree))]
fn schema(alloc: Global, ts: &[Spanned]) -> Result<Schema, ParseRefusal>
    ensures { Gives shown.schema result (schema_tree (token_list ts.now)) }
{
    let statements = statements(alloc, ts)?;
    Ok(Schema { statements })
}

/// The schema that the tokens spell (SQL-92, 11.3 and 11.19). Fails with `OverLimit` where they
/// are too deep to be read, with `Syntax` where they spell none, and with `Memory` where memory
/// ran out.
pub fn parse_schema(alloc: Global, tokens: &[Spanned]) -> Result<Schema, ParseRefusal>
    ensures over { IsErrOf result OverLimit ↔ (too_deep (token_list tokens.now) ≡ true) }
    ensures found { IfOk result (λ x. SpellsSchema (shown.schema x) (token_list tokens.now)) }
    // It is the only one.
    ensures only { IfOk result (λ x. (other : s.Schema) → SpellsSchema other (token_list tokens.now) → other ≡ shown.schema x) }
    ensures none { IsErrOf result Syntax → (x : s.Schema) → SpellsSchema x (token_list tokens.now) → ⊥ }
    ensures gives { too_deep (token_list tokens.now) ≡ false → Gives shown.schema result (schema_tree (token_list tokens.now)) }
    // The definition gives the schema that the grammar says the tokens spell.
    ensures reading { too_deep (token_list tokens.now) ≡ false → (x : s.Schema) → (schema_tree (token_list tokens.now) ≡ Some x) ↔ (SpellsSchema x (token_list tokens.now)) }
    // No tokens spell two schemas.
    ensures unique { (a b : s.Schema) → SpellsSchema a (token_list tokens.now) → SpellsSchema b (token_list tokens.now) → a ≡ b }
{
    if too_deep(tokens) {
        return Err(ParseRefusal::OverLimit);
    }
    schema(alloc, tokens)
}
