// What stands between the brackets of CREATE TABLE.
ghost use Rattle.std.specs.Prelude.{◌≡◌, ◌∷◌, ◌<◌, [], false, Some, IfSome, IfNone, length};
ghost use Rattle.sql_ast.specs.declared.schema.Element.TheVariants as el;
ghost use Rattle.sql_text.specs.declared.key.Key.TheVariants as k;
ghost use Rattle.sql_text.specs.declared.token.Token.TheVariants as t;
ghost use Rattle.sql_parser.specs.ReadSchema as read;
ghost use Rattle.sql_parser.specs.Words.{Gives};
ghost use Rattle.sql_text.specs.Tokens.{token_list};

use crate::naming::names;
use crate::refusal::ParseRefusal;
use crate::word::{after_comma, close, data_type, first};
use sql_ast::{ColumnConstraint, ColumnDecl, Element};
use sql_text::{Key, Name, Spanned, Token};
use sqlite_items::Items;
use std::alloc::Global;

/// The tokens after `NOT NULL`.
fn after_not_null(ts: &[Spanned]) -> Option<&[Spanned]>
    ensures found { IfSome result (λ rest. token_list ts.now ≡ t.Key k.Not ∷ t.Key k.Null ∷ token_list rest.now) }
    ensures shorter { IfSome result (λ rest. length rest.now < length ts.now) }
    ensures none { IfNone result (read.starts_not_null (token_list ts.now) ≡ false) }
{
    match ts {
        [
            Spanned {
                token: Token::Key(Key::Not),
                ..
            },
            Spanned {
                token: Token::Key(Key::Null),
                ..
            },
            rest @ ..,
        ] => Some(rest),
        _ => None,
    }
}

/// The tokens after `PRIMARY KEY`.
fn after_primary_key(ts: &[Spanned]) -> Option<&[Spanned]>
    ensures found { IfSome result (λ rest. token_list ts.now ≡ t.Key k.Primary ∷ t.Key k.Key ∷ token_list rest.now) }
    ensures shorter { IfSome result (λ rest. length rest.now < length ts.now) }
    ensures none { IfNone result (read.starts_primary_key (token_list ts.now) ≡ false) }
{
    match ts {
        [
            Spanned {
                token: Token::Key(Key::Primary),
                ..
            },
            Spanned {
                token: Token::Key(Key::Key),
                ..
            },
            rest @ ..,
        ] => Some(rest),
        _ => None,
    }
}

/// The tokens after `UNIQUE`.
fn after_unique(ts: &[Spanned]) -> Option<&[Spanned]>
    ensures found { IfSome result (λ rest. token_list ts.now ≡ t.Key k.Unique ∷ token_list rest.now) }
    ensures shorter { IfSome result (λ rest. length rest.now < length ts.now) }
    ensures none { IfNone result (read.starts_unique (token_list ts.now) ≡ false) }
{
    match ts {
        [
            Spanned {
                token: Token::Key(Key::Unique),
                ..
            },
            rest @ ..,
        ] => Some(rest),
        _ => None,
    }
}

/// `NOT NULL | PRIMARY KEY | UNIQUE`
fn constraint_at(ts: &[Spanned]) -> Option<(ColumnConstraint, &[Spanned])>
    ensures found { IfSome result (λ x. read.constraints (token_list ts.now) ≡ (x.0 ∷ (read.constraints (token_list x.1.now)).0, (read.constraints (token_list x.1.now)).1)) }
    ensures shorter { IfSome result (λ x. length x.1.now < length ts.now) }
    ensures none { IfNone result (read.constraints (token_list ts.now) ≡ ([], token_list ts.now)) }
{
    if let Some(rest) = after_not_null(ts) {
        Some((ColumnConstraint::NotNull, rest))
    } else if let Some(rest) = after_primary_key(ts) {
        Some((ColumnConstraint::PrimaryKey, rest))
    } else if let Some(rest) = after_unique(ts) {
        Some((ColumnConstraint::Unique, rest))
    } else {
        None
    }
}

/// `{ NOT NULL | PRIMARY KEY | UNIQUE }`, as far as it goes
fn constraints(
    alloc: Global,
    ts: &[Spanned],
) -> Result<(Items<ColumnConstraint>, &[Spanned]), ParseRefusal>
    ensures { Gives (λ x. (x.0, token_list x.1.now)) result (Some (read.constraints (token_list ts.now))) }
{
    let mut constraints = Items::new(alloc);
    let mut rest = ts;
    'constraints: while let Some((constraint, after)) = constraint_at(rest) {
        constraints.push(constraint)?;
        rest = after;
    }
    Ok((constraints, rest))
}

/// `type { NOT NULL | PRIMARY KEY | UNIQUE }`, after a name
fn column_decl<'a>(
    alloc: Global,
    name: &Name,
    ts: &'a [Spanned],
) -> Result<(Element, &'a [Spanned]), ParseRefusal>
    ensures { Gives (λ x. (x.0, token_list x.1.now)) result (read.column_decl name.now (token_list ts.now)) }
{
    let name = name.copy(alloc)?;
    let (data_type, rest) = data_type(ts)?;
    let (constraints, rest) = constraints(alloc, rest)?;
    let column = ColumnDecl {
        name,
        data_type,
        constraints,
    };
    Ok((Element::Column(column), rest))
}

/// `"(" names ")"`, after `PRIMARY KEY`
fn primary_key(alloc: Global, ts: &[Spanned]) -> Result<(Element, &[Spanned]), ParseRefusal>
    ensures { Gives (λ x. (x.0, token_list x.1.now)) result (read.key_names el.PrimaryKey (token_list ts.now)) }
{
    let Some((Token::LeftParen, rest)) = first(ts) else {
        return Err(ParseRefusal::Syntax);
    };
    let (names, rest) = names(alloc, rest)?;
    let rest = close(rest)?;
    Ok((Element::PrimaryKey(names), rest))
}

/// `"(" names ")"`, after `UNIQUE`
fn unique(alloc: Global, ts: &[Spanned]) -> Result<(Element, &[Spanned]), ParseRefusal>
    ensures { Gives (λ x. (x.0, token_list x.1.now)) result (read.key_names el.Unique (token_list ts.now)) }
{
    let Some((Token::LeftParen, rest)) = first(ts) else {
        return Err(ParseRefusal::Syntax);
    };
    let (names, rest) = names(alloc, rest)?;
    let rest = close(rest)?;
    Ok((Element::Unique(names), rest))
}

/// `element = name type { NOT NULL | PRIMARY KEY | UNIQUE } | PRIMARY KEY "(" names ")"
/// | UNIQUE "(" names ")"`
fn element(alloc: Global, ts: &[Spanned]) -> Result<(Element, &[Spanned]), ParseRefusal>
    ensures { Gives (λ x. (x.0, token_list x.1.now)) result (read.element (token_list ts.now)) }
{
    match first(ts) {
        Some((Token::Name(name), rest)) => column_decl(alloc, name, rest),
        Some((Token::Key(Key::Primary), rest)) => match first(rest) {
            Some((Token::Key(Key::Key), rest)) => primary_key(alloc, rest),
            _ => Err(ParseRefusal::Syntax),
        },
        Some((Token::Key(Key::Unique), rest)) => unique(alloc, rest),
        _ => Err(ParseRefusal::Syntax),
    }
}

/// `element { "," element }`
pub(crate) fn elements(
    alloc: Global,
    ts: &[Spanned],
) -> Result<(Items<Element>, &[Spanned]), ParseRefusal>
    ensures { Gives (λ x. (x.0, token_list x.1.now)) result (read.elements (token_list ts.now)) }
{
    let (element_first, after_first) = element(alloc, ts)?;
    let mut elements = Items::new(alloc);
    elements.push(element_first)?;
    let mut rest = after_first;
    'elements: for _turn in 0..after_first.len() {
        match after_comma(rest) {
            None => return Ok((elements, rest)),
            Some(after) => {
                let (next, after) = element(alloc, after)?;
                elements.push(next)?;
                rest = after;
            }
        }
    }
    Ok((elements, rest))
}
