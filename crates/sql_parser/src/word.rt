// Words, signs and types.
ghost use Rattle.std.specs.Prelude.{◌≡◌, ◌∷◌, [], false, IfSome, IfNone};
ghost use Rattle.std.specs.Option.{option_map};
ghost use Rattle.sql_text.specs.Tokens.{token_list};
ghost use Rattle.sql_text.specs.declared.token.Token.TheVariants as t;
ghost use Rattle.sql_parser.specs.Read.{starts_comma};
ghost use Rattle.sql_parser.specs.Words as words;
ghost use Rattle.sql_parser.specs.Words.{Gives};

use crate::refusal::ParseRefusal;
use sql_ast::{AdditiveOp, DataType, MultiplicativeOp, Quantifier, SetOperator, SetQuantifier};
use sql_text::{Key, Spanned, Token};

/// The join that the words before its second table ask for (SQL-92, 7.5).
#[derive(Clone, Copy)]
pub(crate) enum JoinKind {
    /// `[ INNER ] JOIN`: whether `INNER` is written
    Inner(bool),
    /// `LEFT [ OUTER ] JOIN`: whether `OUTER` is written
    Left(bool),
    /// `CROSS JOIN`
    Cross,
}

/// The token that stands first, and the tokens after it.
pub(crate) fn first(ts: &[Spanned]) -> Option<(&Token, &[Spanned])>
    ensures found { IfSome result (λ x. token_list ts.now ≡ x.0.now ∷ token_list x.1.now) }
    ensures none { IfNone result (token_list ts.now ≡ []) }
{
    match ts {
        [first, rest @ ..] => Some((&first.token, rest)),
        [] => None,
    }
}

/// The tokens after `","`.
pub(crate) fn after_comma(ts: &[Spanned]) -> Option<&[Spanned]>
    ensures found { IfSome result (λ rest. token_list ts.now ≡ t.Comma ∷ token_list rest.now) }
    ensures none { IfNone result (starts_comma (token_list ts.now) ≡ false) }
{
    match first(ts) {
        Some((Token::Comma, rest)) => Some(rest),
        _ => None,
    }
}

/// The tokens after `")"`.
pub(crate) fn close(ts: &[Spanned]) -> Result<&[Spanned], ParseRefusal>
    ensures { Gives (λ rest. token_list rest.now) result (words.close (token_list ts.now)) }
{
    match first(ts) {
        Some((Token::RightParen, rest)) => Ok(rest),
        _ => Err(ParseRefusal::Syntax),
    }
}

/// `"+" | "-" | "||"`
pub(crate) fn additive_at(ts: &[Spanned]) -> Option<(AdditiveOp, &[Spanned])>
    ensures { option_map (λ x. (x.0, token_list x.1.now)) result ≡ words.additive_at (token_list ts.now) }
{
    match first(ts) {
        Some((Token::Plus, rest)) => Some((AdditiveOp::Plus, rest)),
        Some((Token::Minus, rest)) => Some((AdditiveOp::Minus, rest)),
        Some((Token::Concat, rest)) => Some((AdditiveOp::Concat, rest)),
        _ => None,
    }
}

/// `"*" | "/"`
pub(crate) fn multiplicative_at(ts: &[Spanned]) -> Option<(MultiplicativeOp, &[Spanned])>
    ensures { option_map (λ x. (x.0, token_list x.1.now)) result ≡ words.multiplicative_at (token_list ts.now) }
{
    match first(ts) {
        Some((Token::Star, rest)) => Some((MultiplicativeOp::Times, rest)),
        Some((Token::Slash, rest)) => Some((MultiplicativeOp::Divide, rest)),
        _ => None,
    }
}

/// `ANY | SOME | ALL`
pub(crate) fn quantifier_at(ts: &[Spanned]) -> Option<(Quantifier, &[Spanned])>
    ensures { option_map (λ x. (x.0, token_list x.1.now)) result ≡ words.quantifier_at (token_list ts.now) }
{
    match first(ts) {
        Some((Token::Key(Key::Any), rest)) => Some((Quantifier::Any, rest)),
        Some((Token::Key(Key::Some), rest)) => Some((Quantifier::Some, rest)),
        Some((Token::Key(Key::All), rest)) => Some((Quantifier::All, rest)),
        _ => None,
    }
}

/// `UNION | EXCEPT`
pub(crate) fn set_operator_at(ts: &[Spanned]) -> Option<(SetOperator, &[Spanned])>
    ensures { option_map (λ x. (x.0, token_list x.1.now)) result ≡ words.set_operator_at (token_list ts.now) }
{
    match first(ts) {
        Some((Token::Key(Key::Union), rest)) => Some((SetOperator::Union, rest)),
        Some((Token::Key(Key::Except), rest)) => Some((SetOperator::Except, rest)),
        _ => None,
    }
}

/// `[ ALL | DISTINCT ]`
pub(crate) fn set_quantifier_at(ts: &[Spanned]) -> (Option<SetQuantifier>, &[Spanned])
    ensures { (result.0, token_list result.1.now) ≡ words.set_quantifier_at (token_list ts.now) }
{
    match first(ts) {
        Some((Token::Key(Key::All), rest)) => (Some(SetQuantifier::All), rest),
        Some((Token::Key(Key::Distinct), rest)) => (Some(SetQuantifier::Distinct), rest),
        _ => (None, ts),
    }
}

/// `[ ALL ]`
pub(crate) fn all_at(ts: &[Spanned]) -> (bool, &[Spanned])
    ensures { (result.0, token_list result.1.now) ≡ words.all_at (token_list ts.now) }
{
    match first(ts) {
        Some((Token::Key(Key::All), rest)) => (true, rest),
        _ => (false, ts),
    }
}

/// `[ NOT ]`
pub(crate) fn not_at(ts: &[Spanned]) -> (bool, &[Spanned])
    ensures { (result.0, token_list result.1.now) ≡ words.not_at (token_list ts.now) }
{
    match first(ts) {
        Some((Token::Key(Key::Not), rest)) => (true, rest),
        _ => (false, ts),
    }
}

/// `JOIN`, after `LEFT [ OUTER ]`
fn after_left(outer: bool, ts: &[Spanned]) -> Option<(JoinKind, &[Spanned])>
    ensures { option_map (λ x. (x.0, token_list x.1.now)) result ≡ words.after_left outer (token_list ts.now) }
{
    match first(ts) {
        Some((Token::Key(Key::Join), rest)) => Some((JoinKind::Left(outer), rest)),
        _ => None,
    }
}

/// `[ INNER ] JOIN | LEFT [ OUTER ] JOIN | CROSS JOIN`
pub(crate) fn join_at(ts: &[Spanned]) -> Option<(JoinKind, &[Spanned])>
    ensures { option_map (λ x. (x.0, token_list x.1.now)) result ≡ words.join_at (token_list ts.now) }
{
    match first(ts) {
        Some((Token::Key(Key::Join), rest)) => Some((JoinKind::Inner(false), rest)),
        Some((Token::Key(Key::Inner), rest)) => match first(rest) {
            Some((Token::Key(Key::Join), rest)) => Some((JoinKind::Inner(true), rest)),
            _ => None,
        },
        Some((Token::Key(Key::Left), rest)) => match first(rest) {
            Some((Token::Key(Key::Outer), rest)) => after_left(true, rest),
            _ => after_left(false, rest),
        },
        Some((Token::Key(Key::Cross), rest)) => match first(rest) {
            Some((Token::Key(Key::Join), rest)) => Some((JoinKind::Cross, rest)),
            _ => None,
        },
        _ => None,
    }
}

/// `"(" number ")"`, after `VARCHAR`
fn varchar_length(ts: &[Spanned]) -> Result<(DataType, &[Spanned]), ParseRefusal>
    ensures { Gives (λ x. (x.0, token_list x.1.now)) result (words.varchar_length (token_list ts.now)) }
{
    match first(ts) {
        Some((Token::LeftParen, rest)) => match first(rest) {
            Some((Token::Number(most), rest)) => {
                let rest = close(rest)?;
                Ok((DataType::Varchar(*most), rest))
            }
            _ => Err(ParseRefusal::Syntax),
        },
        _ => Err(ParseRefusal::Syntax),
    }
}

/// `type = INTEGER | INT | VARCHAR "(" number ")"`
pub(crate) fn data_type(ts: &[Spanned]) -> Result<(DataType, &[Spanned]), ParseRefusal>
    ensures { Gives (λ x. (x.0, token_list x.1.now)) result (words.data_type (token_list ts.now)) }
{
    match first(ts) {
        Some((Token::Key(Key::Integer), rest)) => Ok((DataType::Integer, rest)),
        Some((Token::Key(Key::Int), rest)) => Ok((DataType::Int, rest)),
        Some((Token::Key(Key::Varchar), rest)) => varchar_length(rest),
        _ => Err(ParseRefusal::Syntax),
    }
}
