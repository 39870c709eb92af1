// Trees in boxes, and the tokens after them.
ghost use Rattle.std.specs.Prelude.{◌≡◌, ◌++◌, ◌∷◌, [], IfOk, OnOk, OnErr};
ghost use Rattle.sql_ast.specs.Shown as shown;
ghost use Rattle.sql_parser.specs.Read as read;
ghost use Rattle.sql_parser.specs.Words as words;
ghost use Rattle.sql_parser.specs.Words.{Gives};
ghost use Rattle.sql_text.specs.Tokens.{token_list};

use crate::refusal::ParseRefusal;
use crate::word::first;
use shared_types::OutOfMemory;
use sql_ast::{Cond, Expr, Query, TableRef};
use sql_text::{Key, Spanned, Token};
use sqlite_items::Items;
use std::alloc::{AllocError, Global};

/// The value, in a box.
pub(crate) fn boxed<T: Drop>(alloc: Global, value: T) -> Result<Box<T>, OutOfMemory>
    ensures { IfOk result (λ b. b.value ≡ value) }
{
    Ok(Box::new(alloc, value)?)
}

/// Adds what the box holds to the end of the items.
pub(crate) fn push_boxed<T: Drop>(items: &mut Items<T>, item: Box<T>) -> Result<(), AllocError>
    ensures ok { OnOk result (items.new ≡ items.old ++ item.value ∷ []) }
    ensures err { OnErr result (items.new ≡ items.old) }
{
    items.push(Box::into_inner(item))
}

/// The expression, in a box, and the tokens after it.
pub(crate) fn found_expr(
    alloc: Global,
    tree: Expr,
    rest: &[Spanned],
) -> Result<(Box<Expr>, &[Spanned]), ParseRefusal>
    ensures { Gives (λ x. (shown.expr x.0.value, token_list x.1.now)) result (words.found (shown.expr tree) (token_list rest.now)) }
{
    Ok((boxed(alloc, tree)?, rest))
}

/// The condition, in a box, and the tokens after it.
pub(crate) fn found_cond(
    alloc: Global,
    tree: Cond,
    rest: &[Spanned],
) -> Result<(Box<Cond>, &[Spanned]), ParseRefusal>
    ensures { Gives (λ x. (shown.cond x.0.value, token_list x.1.now)) result (words.found (shown.cond tree) (token_list rest.now)) }
{
    Ok((boxed(alloc, tree)?, rest))
}

/// The query, in a box, and the tokens after it.
pub(crate) fn found_query(
    alloc: Global,
    tree: Query,
    rest: &[Spanned],
) -> Result<(Box<Query>, &[Spanned]), ParseRefusal>
    ensures { Gives (λ x. (shown.query x.0.value, token_list x.1.now)) result (words.found (shown.query tree) (token_list rest.now)) }
{
    Ok((boxed(alloc, tree)?, rest))
}

/// The table, in a box, and the tokens after it.
pub(crate) fn found_table(
    alloc: Global,
    tree: TableRef,
    rest: &[Spanned],
) -> Result<(Box<TableRef>, &[Spanned]), ParseRefusal>
    ensures { Gives (λ x. (shown.table x.0.value, token_list x.1.now)) result (words.found (shown.table tree) (token_list rest.now)) }
{
    Ok((boxed(alloc, tree)?, rest))
}

/// `")"`, after all else of the expression
pub(crate) fn closed_expr(
    alloc: Global,
    tree: Expr,
    ts: &[Spanned],
) -> Result<(Box<Expr>, &[Spanned]), ParseRefusal>
    ensures { Gives (λ x. (shown.expr x.0.value, token_list x.1.now)) result (words.closing (shown.expr tree) (token_list ts.now)) }
{
    let tree = boxed(alloc, tree)?;
    match first(ts) {
        Some((Token::RightParen, rest)) => Ok((tree, rest)),
        _ => Err(ParseRefusal::Syntax),
    }
}

/// `END`, after all else of the expression
pub(crate) fn ended_expr(
    alloc: Global,
    tree: Expr,
    ts: &[Spanned],
) -> Result<(Box<Expr>, &[Spanned]), ParseRefusal>
    ensures { Gives (λ x. (shown.expr x.0.value, token_list x.1.now)) result (read.ending (shown.expr tree) (token_list ts.now)) }
{
    let tree = boxed(alloc, tree)?;
    match first(ts) {
        Some((Token::Key(Key::End), rest)) => Ok((tree, rest)),
        _ => Err(ParseRefusal::Syntax),
    }
}

/// `")"`, after all else of the condition
pub(crate) fn closed_cond(
    alloc: Global,
    tree: Cond,
    ts: &[Spanned],
) -> Result<(Box<Cond>, &[Spanned]), ParseRefusal>
    ensures { Gives (λ x. (shown.cond x.0.value, token_list x.1.now)) result (words.closing (shown.cond tree) (token_list ts.now)) }
{
    let tree = boxed(alloc, tree)?;
    match first(ts) {
        Some((Token::RightParen, rest)) => Ok((tree, rest)),
        _ => Err(ParseRefusal::Syntax),
    }
}

/// `")"`, after all else of the query
pub(crate) fn closed_query(
    alloc: Global,
    tree: Query,
    ts: &[Spanned],
) -> Result<(Box<Query>, &[Spanned]), ParseRefusal>
    ensures { Gives (λ x. (shown.query x.0.value, token_list x.1.now)) result (words.closing (shown.query tree) (token_list ts.now)) }
{
    let tree = boxed(alloc, tree)?;
    match first(ts) {
        Some((Token::RightParen, rest)) => Ok((tree, rest)),
        _ => Err(ParseRefusal::Syntax),
    }
}
