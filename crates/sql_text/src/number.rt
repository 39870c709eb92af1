// Numbers.
ghost use Rattle.std.specs.Prelude.{◌≡◌, ◌<◌, ◌≤◌, true, pos, All, MatchOption};
ghost use Rattle.sql_text.specs.Tokens as spec;
ghost use Rattle.sql_text.specs.Tokens.{Gives};

use crate::refusal::LexRefusal;
use crate::token::Token;
use crate::words::is_letter;

/// The greatest number that a token is.
const GREATEST: u64 = 9223372036854775807;

/// Whether a letter or `_` stands first.
fn starts_like_letter(chars: &[char]) -> bool
    ensures { result ≡ spec.starts_like_letter chars.now }
{
    match chars {
        [] => false,
        [c, ..] => is_letter(*c) || *c == '_',
    }
}

/// How many digits stand first.
fn digits_length(chars: &[char]) -> usize
    ensures { result ≡ spec.digits_length chars.now }
{
    chars.iter().take_while(|c| c.is_ascii_digit()).count()
}

/// The number that digits write, unless it is above `GREATEST`.
fn value(digits: &[char]) -> Option<i64>
    requires { All (λ c. spec.is_digit c ≡ true) digits.now }
    ensures { MatchOption result (9223372036854775807 < spec.value digits.now) (λ number. (number ≡ pos (spec.value digits.now)) × (spec.value digits.now ≤ 9223372036854775807)) }
{
    let mut value: u64 = 0;
    for digit in digits {
        if value > GREATEST / 10 {
            return None;
        }
        value = 10 * value + u64::from(u32::from(*digit) - 48);
    }
    if value > GREATEST {
        return None;
    }
    Some(value as i64)
}

/// The number that stands first.
pub fn number(chars: &[char]) -> Result<(Option<Token>, usize), LexRefusal>
    ensures { Gives result (spec.number chars.now) }
{
    let size = digits_length(chars);
    let (digits, after) = chars.split_at(size);
    if starts_like_letter(after) {
        return Err(LexRefusal::BadCharacter);
    }
    match value(digits) {
        Some(number) => Ok((Some(Token::Number(number)), size)),
        None => Err(LexRefusal::NumberTooLarge),
    }
}
