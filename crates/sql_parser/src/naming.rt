// Names, columns, and what names a table or an item.
ghost use Rattle.std.specs.Prelude.{◌≡◌, ◌∷◌, ◌++◌, ◌<◌, [], Some, OnOk, IfSome, IfNone, length};
ghost use Rattle.std.specs.Option.{option_map};
ghost use Rattle.sql_text.specs.Tokens.{token_list};
ghost use Rattle.sql_text.specs.declared.token.Token.TheVariants as t;
ghost use Rattle.sql_parser.specs.Words as words;
ghost use Rattle.sql_parser.specs.Words.{Gives};

use crate::refusal::ParseRefusal;
use crate::word::{after_comma, close, first};
use shared_types::OutOfMemory;
use sql_ast::{Alias, Column, Correlation, Names};
use sql_text::{Key, Name, Spanned, Token};
use sqlite_items::Items;
use std::alloc::Global;

/// The name after a comma, and the tokens after it.
fn comma_name(ts: &[Spanned]) -> Option<(&Name, &[Spanned])>
    ensures found { IfSome result (λ x. token_list ts.now ≡ t.Comma ∷ t.Name x.0.now ∷ token_list x.1.now) }
    ensures shorter { IfSome result (λ x. length x.1.now < length ts.now) }
    ensures none { IfNone result (words.more_names (token_list ts.now) ≡ ([], token_list ts.now)) }
{
    match ts {
        [
            Spanned {
                token: Token::Comma,
                ..
            },
            Spanned {
                token: Token::Name(name),
                ..
            },
            rest @ ..,
        ] => Some((name, rest)),
        _ => None,
    }
}

/// Adds a copy of the name.
fn push_name(alloc: Global, names: &mut Names, name: &Name) -> Result<(), OutOfMemory>
    ensures { OnOk result (names.new ≡ names.old ++ name.now ∷ []) }
{
    names.push(name.copy(alloc)?)?;
    Ok(())
}

/// `names = name { "," name }`, as far as it goes
pub(crate) fn names(alloc: Global, ts: &[Spanned]) -> Result<(Names, &[Spanned]), ParseRefusal>
    ensures { Gives (λ x. (x.0, token_list x.1.now)) result (words.names (token_list ts.now)) }
{
    let Some((Token::Name(name), after)) = first(ts) else {
        return Err(ParseRefusal::Syntax);
    };
    let mut names = Items::new(alloc);
    push_name(alloc, &mut names, name)?;
    let mut rest = after;
    'names: while let Some((name, after)) = comma_name(rest) {
        push_name(alloc, &mut names, name)?;
        rest = after;
    }
    Ok((names, rest))
}

/// `names ")"`
pub(crate) fn closed_names(
    alloc: Global,
    ts: &[Spanned],
) -> Result<(Names, &[Spanned]), ParseRefusal>
    ensures { Gives (λ x. (x.0, token_list x.1.now)) result (words.closed_names (token_list ts.now)) }
{
    let (names, rest) = names(alloc, ts)?;
    let rest = close(rest)?;
    Ok((names, rest))
}

/// `[ "(" names ")" ]`
pub(crate) fn column_list(
    alloc: Global,
    ts: &[Spanned],
) -> Result<(Names, &[Spanned]), ParseRefusal>
    ensures { Gives (λ x. (x.0, token_list x.1.now)) result (words.column_list (token_list ts.now)) }
{
    match first(ts) {
        Some((Token::LeftParen, rest)) => closed_names(alloc, rest),
        _ => Ok((Items::new(alloc), ts)),
    }
}

/// `[ "." name ]`, after a name
pub(crate) fn column_after<'a>(
    alloc: Global,
    name: &Name,
    ts: &'a [Spanned],
) -> Result<(Column, &'a [Spanned]), ParseRefusal>
    ensures { Gives (λ x. (x.0, token_list x.1.now)) result (words.column_after name.now (token_list ts.now)) }
{
    match first(ts) {
        Some((Token::Dot, rest)) => match first(rest) {
            Some((Token::Name(column), rest)) => {
                let range = name.copy(alloc)?;
                let name = column.copy(alloc)?;
                Ok((
                    Column {
                        range: Some(range),
                        name,
                    },
                    rest,
                ))
            }
            _ => Err(ParseRefusal::Syntax),
        },
        _ => {
            let name = name.copy(alloc)?;
            Ok((Column { range: None, name }, ts))
        }
    }
}

/// `col = name [ "." name ]`
fn column(alloc: Global, ts: &[Spanned]) -> Result<(Column, &[Spanned]), ParseRefusal>
    ensures { Gives (λ x. (x.0, token_list x.1.now)) result (words.column (token_list ts.now)) }
{
    match first(ts) {
        Some((Token::Name(name), rest)) => column_after(alloc, name, rest),
        _ => Err(ParseRefusal::Syntax),
    }
}

/// `col { "," col }`
fn columns(alloc: Global, ts: &[Spanned]) -> Result<(Items<Column>, &[Spanned]), ParseRefusal>
    ensures { Gives (λ x. (x.0, token_list x.1.now)) result (words.columns (token_list ts.now)) }
{
    let (column_first, after_first) = column(alloc, ts)?;
    let mut columns = Items::new(alloc);
    columns.push(column_first)?;
    let mut rest = after_first;
    'columns: for _turn in 0..after_first.len() {
        match after_comma(rest) {
            None => return Ok((columns, rest)),
            Some(after) => {
                let (next, after) = column(alloc, after)?;
                columns.push(next)?;
                rest = after;
            }
        }
    }
    Ok((columns, rest))
}

/// `[ GROUP BY col { "," col } ]`
pub(crate) fn group_by(
    alloc: Global,
    ts: &[Spanned],
) -> Result<(Items<Column>, &[Spanned]), ParseRefusal>
    ensures { Gives (λ x. (x.0, token_list x.1.now)) result (words.group_by (token_list ts.now)) }
{
    match first(ts) {
        Some((Token::Key(Key::Group), rest)) => match first(rest) {
            Some((Token::Key(Key::By), rest)) => columns(alloc, rest),
            _ => Ok((Items::new(alloc), ts)),
        },
        _ => Ok((Items::new(alloc), ts)),
    }
}

/// `[ [ AS ] name ]`
pub(crate) fn alias_at(
    alloc: Global,
    ts: &[Spanned],
) -> Result<(Option<Alias>, &[Spanned]), ParseRefusal>
    ensures { Gives (λ x. (x.0, token_list x.1.now)) result (Some (words.alias_at (token_list ts.now))) }
{
    match ts {
        [
            Spanned {
                token: Token::Key(Key::As),
                ..
            },
            Spanned {
                token: Token::Name(name),
                ..
            },
            rest @ ..,
        ] => {
            let name = name.copy(alloc)?;
            Ok((Some(Alias { noise: true, name }), rest))
        }
        [
            Spanned {
                token: Token::Name(name),
                ..
            },
            rest @ ..,
        ] => {
            let name = name.copy(alloc)?;
            Ok((Some(Alias { noise: false, name }), rest))
        }
        _ => Ok((None, ts)),
    }
}

/// `name [ "(" names ")" ]`
fn correlation_name(
    alloc: Global,
    noise: bool,
    ts: &[Spanned],
) -> Result<(Correlation, &[Spanned]), ParseRefusal>
    ensures { Gives (λ x. (x.0, token_list x.1.now)) result (words.correlation_name noise (token_list ts.now)) }
{
    let Some((Token::Name(name), rest)) = first(ts) else {
        return Err(ParseRefusal::Syntax);
    };
    let (columns, rest) = column_list(alloc, rest)?;
    let name = name.copy(alloc)?;
    Ok((
        Correlation {
            noise,
            name,
            columns,
        },
        rest,
    ))
}

/// `[ AS ] name [ "(" names ")" ]`
pub(crate) fn correlation(
    alloc: Global,
    ts: &[Spanned],
) -> Result<(Correlation, &[Spanned]), ParseRefusal>
    ensures { Gives (λ x. (x.0, token_list x.1.now)) result (words.correlation (token_list ts.now)) }
{
    match first(ts) {
        Some((Token::Key(Key::As), rest)) => correlation_name(alloc, true, rest),
        _ => correlation_name(alloc, false, ts),
    }
}

/// Whether `AS` or a name stands first.
fn starts_correlation(ts: &[Spanned]) -> bool
    ensures { result ≡ words.starts_correlation (token_list ts.now) }
{
    matches!(first(ts), Some((Token::Key(Key::As) | Token::Name(_), _)))
}

/// `[ [ AS ] name [ "(" names ")" ] ]`
pub(crate) fn optional_correlation(
    alloc: Global,
    ts: &[Spanned],
) -> Result<(Option<Correlation>, &[Spanned]), ParseRefusal>
    ensures { Gives (λ x. (x.0, token_list x.1.now)) result (words.optional_correlation (token_list ts.now)) }
{
    if starts_correlation(ts) {
        let (named, rest) = correlation(alloc, ts)?;
        Ok((Some(named), rest))
    } else {
        Ok((None, ts))
    }
}

/// `name "." "*"`: the name
pub(crate) fn all_of_at(ts: &[Spanned]) -> Option<(&Name, &[Spanned])>
    ensures { option_map (λ x. (x.0.now, token_list x.1.now)) result ≡ words.all_of_at (token_list ts.now) }
{
    match first(ts) {
        Some((Token::Name(name), rest)) => match first(rest) {
            Some((Token::Dot, rest)) => match first(rest) {
                Some((Token::Star, rest)) => Some((name, rest)),
                _ => None,
            },
            _ => None,
        },
        _ => None,
    }
}
