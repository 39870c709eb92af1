// Texts of queries.
ghost use Rattle.std.specs.Prelude.{◌≡◌, ◌∷◌, ◌↔◌, true, false, Some, IfOk, IfSome, IfNone, IsErrOf};
ghost use Rattle.std.specs.Option.{option_map};
ghost use Rattle.sql_ast.specs.Grammatical.{SpellsQuery};
ghost use Rattle.sql_ast.specs.Shown as shown;
ghost use Rattle.sql_ast.specs.Syntax as s;
ghost use Rattle.sql_parser.specs.Read as read;
ghost use Rattle.sql_parser.specs.ReadText as text;
ghost use Rattle.sql_parser.specs.ReadText.{query_tree};
ghost use Rattle.sql_parser.specs.Trees as trees;
ghost use Rattle.sql_parser.specs.Trees.{seen};
ghost use Rattle.sql_parser.specs.Words.{Gives};
ghost use Rattle.sql_parser.specs.declared.refusal.ParseRefusal.TheVariants.{OverLimit, Syntax};
ghost use Rattle.sql_text.specs.Depth.{too_deep};
ghost use Rattle.sql_text.specs.Tokens.{token_list};

use crate::grammar::Grammar;
use crate::nested::{Nonterminal, Tree};
use crate::refusal::ParseRefusal;
use crate::word::{after_comma, first};
use sql_ast::{Direction, Query, QueryText, Sort, SortKey};
use sql_text::{Key, Spanned, Token, too_deep};
use sqlite_items::Items;
use std::alloc::Global;

// What is read of a kind, with brackets and CASE nested less deep than the number.
fn nested<'a>(
    alloc: Global,
    depth: u8,
    kind: Nonterminal,
    ts: &'a [Spanned],
) -> Result<(Tree, &'a [Spanned]), ParseRefusal>
    ensures { Gives (λ x. (seen x.0, token_list x.1.now)) result (trees.nested kind depth (token_list ts.now)) }
{
    if depth == 0 {
        return Err(ParseRefusal::Syntax);
    }
    let grammar = Grammar {
        alloc,
        depth: depth - 1,
        nested,
    };
    match kind {
        Nonterminal::Expr => {
            let (tree, rest) = grammar.sum(ts)?;
            Ok((Tree::Expr(tree), rest))
        }
        Nonterminal::Cond => {
            let (tree, rest) = grammar.disj(ts)?;
            Ok((Tree::Cond(tree), rest))
        }
        Nonterminal::Query => {
            let (tree, rest) = grammar.combined(ts)?;
            Ok((Tree::Query(tree), rest))
        }
        Nonterminal::Table => {
            let (tree, rest) = grammar.tref(ts)?;
            Ok((Tree::Table(tree), rest))
        }
    }
}

/// A query, with brackets and CASE nested less deep than the number.
pub(crate) fn query<'a>(
    alloc: Global,
    depth: u8,
    ts: &'a [Spanned],
) -> Result<(Box<Query>, &'a [Spanned]), ParseRefusal>
    ensures { Gives (λ x. (shown.query x.0.value, token_list x.1.now)) result (read.query depth (token_list ts.now)) }
{
    if depth == 0 {
        return Err(ParseRefusal::Syntax);
    }
    Grammar {
        alloc,
        depth: depth - 1,
        nested,
    }
    .combined(ts)
}

/// `[ ASC | DESC ]`
fn direction_at(ts: &[Spanned]) -> (Option<Direction>, &[Spanned])
    ensures { (result.0, token_list result.1.now) ≡ text.direction_at (token_list ts.now) }
{
    match first(ts) {
        Some((Token::Key(Key::Asc), rest)) => (Some(Direction::Asc), rest),
        Some((Token::Key(Key::Desc), rest)) => (Some(Direction::Desc), rest),
        _ => (None, ts),
    }
}

/// `name | number`
fn sort_key_at(alloc: Global, ts: &[Spanned]) -> Result<(SortKey, &[Spanned]), ParseRefusal>
    ensures { Gives (λ x. (x.0, token_list x.1.now)) result (text.sort_key_at (token_list ts.now)) }
{
    match first(ts) {
        Some((Token::Name(name), rest)) => {
            let name = name.copy(alloc)?;
            Ok((SortKey::Name(name), rest))
        }
        Some((Token::Number(place), rest)) => Ok((SortKey::Number(*place), rest)),
        _ => Err(ParseRefusal::Syntax),
    }
}

/// `sort = ( name | number ) [ ASC | DESC ]`
fn sort(alloc: Global, ts: &[Spanned]) -> Result<(Sort, &[Spanned]), ParseRefusal>
    ensures { Gives (λ x. (x.0, token_list x.1.now)) result (text.sort (token_list ts.now)) }
{
    let (key, rest) = sort_key_at(alloc, ts)?;
    let (direction, rest) = direction_at(rest);
    Ok((Sort { key, direction }, rest))
}

/// `sort { "," sort }`
fn sorts(alloc: Global, ts: &[Spanned]) -> Result<(Items<Sort>, &[Spanned]), ParseRefusal>
    ensures { Gives (λ x. (x.0, token_list x.1.now)) result (text.sorts (token_list ts.now)) }
{
    let (sort_first, after_first) = sort(alloc, ts)?;
    let mut sorts = Items::new(alloc);
    sorts.push(sort_first)?;
    let mut rest = after_first;
    'sorts: for _turn in 0..after_first.len() {
        match after_comma(rest) {
            None => return Ok((sorts, rest)),
            Some(after) => {
                let (next, after) = sort(alloc, after)?;
                sorts.push(next)?;
                rest = after;
            }
        }
    }
    Ok((sorts, rest))
}

/// `[ ORDER BY sort { "," sort } ]`
fn order_by(alloc: Global, ts: &[Spanned]) -> Result<(Items<Sort>, &[Spanned]), ParseRefusal>
    ensures { Gives (λ x. (x.0, token_list x.1.now)) result (text.order_by (token_list ts.now)) }
{
    match first(ts) {
        Some((Token::Key(Key::Order), rest)) => match first(rest) {
            Some((Token::Key(Key::By), rest)) => sorts(alloc, rest),
            _ => Ok((Items::new(alloc), ts)),
        },
        _ => Ok((Items::new(alloc), ts)),
    }
}

/// `[ ";" ]`, and no token more: whether `;` is written
fn last_semicolon(ts: &[Spanned]) -> Result<bool, ParseRefusal>
    ensures { Gives (λ x. x) result (text.last_semicolon (token_list ts.now)) }
{
    match ts {
        [] => Ok(false),
        [
            Spanned {
                token: Token::Semicolon,
                ..
            },
        ] => Ok(true),
        _ => Err(ParseRefusal::Syntax),
    }
}

/// `text = query [ ORDER BY sort { "," sort } ] [ ";" ]`, and no token more
#[tactic(auto, unfolding(crate::specs::ReadText::query_tree))]
fn query_text(alloc: Global, tokens: &[Spanned]) -> Result<QueryText, ParseRefusal>
    ensures { Gives shown.query_text result (query_tree (token_list tokens.now)) }
{
    let (query, rest) = query(alloc, 65, tokens)?;
    let (order, rest) = order_by(alloc, rest)?;
    let semicolon = last_semicolon(rest)?;
    Ok(QueryText {
        query: Box::into_inner(query),
        order,
        semicolon,
    })
}

/// The query that the tokens spell (SQL-92, 7.10 and 13.1). Fails with `OverLimit` where they are
/// too deep to be read, with `Syntax` where they spell none, and with `Memory` where memory ran
/// out.
pub fn parse_query(alloc: Global, tokens: &[Spanned]) -> Result<QueryText, ParseRefusal>
    ensures over { IsErrOf result OverLimit ↔ (too_deep (token_list tokens.now) ≡ true) }
    ensures found { IfOk result (λ x. SpellsQuery (shown.query_text x) (token_list tokens.now)) }
    // It is the only one.
    ensures only { IfOk result (λ x. (other : s.QueryText) → SpellsQuery other (token_list tokens.now) → other ≡ shown.query_text x) }
    ensures none { IsErrOf result Syntax → (x : s.QueryText) → SpellsQuery x (token_list tokens.now) → ⊥ }
    ensures gives { too_deep (token_list tokens.now) ≡ false → Gives shown.query_text result (query_tree (token_list tokens.now)) }
    // The definition gives the query that the grammar says the tokens spell.
    ensures reading { too_deep (token_list tokens.now) ≡ false → (x : s.QueryText) → (query_tree (token_list tokens.now) ≡ Some x) ↔ (SpellsQuery x (token_list tokens.now)) }
    // No tokens spell two queries.
    ensures unique { (a b : s.QueryText) → SpellsQuery a (token_list tokens.now) → SpellsQuery b (token_list tokens.now) → a ≡ b }
{
    if too_deep(tokens) {
        return Err(ParseRefusal::OverLimit);
    }
    query_text(alloc, tokens)
}
