// Looking ahead, past a bracket: what it holds, and what follows it. A look passes over each token
// once.
ghost use Rattle.std.specs.Prelude.{◌≡◌, ◌&&◌, is_some, IfSome};
ghost use Rattle.sql_text.specs.Tokens.{token_list};
ghost use Rattle.sql_parser.specs.Ahead as ahead;

use crate::word::first;
use sql_text::{Key, Spanned, Token};

/// The tokens after the bracket that closes one that is open.
fn after(ts: &[Spanned]) -> &[Spanned]
    ensures { token_list result.now ≡ ahead.after 0 (token_list ts.now) }
{
    let mut open: usize = 0;
    let mut rest = ts;
    'tokens: for _turn in 0..ts.len() {
        match rest {
            [
                Spanned {
                    token: Token::LeftParen,
                    ..
                },
                more @ ..,
            ] => {
                open += 1;
                rest = more;
            }
            [
                Spanned {
                    token: Token::RightParen,
                    ..
                },
                more @ ..,
            ] => {
                if open == 0 {
                    return more;
                }
                open -= 1;
                rest = more;
            }
            [_, more @ ..] => rest = more,
            [] => return rest,
        }
    }
    rest
}

/// Whether what stands first may follow a query in brackets.
fn ends_query(ts: &[Spanned]) -> bool
    ensures { result ≡ ahead.ends_query (token_list ts.now) }
{
    matches!(
        first(ts),
        Some((
            Token::RightParen | Token::Key(Key::Union | Key::Except | Key::Intersect),
            _
        ))
    )
}

/// Where a query stands first: the tokens after the bracket that closes behind it.
#[cycle(past)]
fn past_query(ts: &[Spanned]) -> Option<&[Spanned]>
    ensures is { is_some result ≡ ahead.at_query (token_list ts.now) }
    ensures rest { IfSome result (λ r. token_list r.now ≡ ahead.after 0 (token_list ts.now)) }
{
    match first(ts) {
        Some((Token::Key(Key::Select), _)) => Some(after(ts)),
        Some((Token::LeftParen, rest)) => past_bracket(rest),
        _ => None,
    }
}

/// Where a query in a bracket stands first, behind its `(`: the tokens after the bracket that
/// closes around both.
#[cycle(past)]
fn past_bracket(ts: &[Spanned]) -> Option<&[Spanned]>
    ensures is { is_some result ≡ ahead.at_query (token_list ts.now) && ahead.ends_query (ahead.after 0 (token_list ts.now)) }
    ensures rest { IfSome result (λ r. token_list r.now ≡ ahead.after 1 (token_list ts.now)) }
{
    match past_query(ts) {
        None => None,
        Some(rest) => {
            if ends_query(rest) {
                Some(after(rest))
            } else {
                None
            }
        }
    }
}

/// Of the tokens after `(`: whether the bracket holds a query.
pub(crate) fn at_query(ts: &[Spanned]) -> bool
    ensures { result ≡ ahead.at_query (token_list ts.now) }
{
    match first(ts) {
        Some((Token::Key(Key::Select), _)) => true,
        Some((Token::LeftParen, rest)) => match past_query(rest) {
            None => false,
            Some(rest) => ends_query(rest),
        },
        _ => false,
    }
}

/// Of the tokens after `)`: whether what the bracket holds is an operand.
fn goes_on(ts: &[Spanned]) -> bool
    ensures { result ≡ ahead.goes_on (token_list ts.now) }
{
    matches!(
        first(ts),
        Some((
            Token::Plus
                | Token::Minus
                | Token::Concat
                | Token::Star
                | Token::Slash
                | Token::Compare(_)
                | Token::Key(Key::Between | Key::In | Key::Like | Key::Is | Key::Not),
            _
        ))
    )
}

/// Whether a bracket stands first, and holds a condition.
pub(crate) fn opens_cond(ts: &[Spanned]) -> bool
    ensures { result ≡ ahead.opens_cond (token_list ts.now) }
{
    match first(ts) {
        Some((Token::LeftParen, rest)) => !goes_on(after(rest)),
        _ => false,
    }
}
