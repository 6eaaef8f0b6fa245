//! Integers by their digits.
ghost use Rattle.std.specs.Prelude.{◌≡◌, ◌≤◌, ◌^◌, true, IfSome, IfNone};
ghost use Rattle.std.specs.List.{list_all};
ghost use Rattle.std.specs.Str.Parse.{digits_value};
ghost use Rattle.oz_language.specs.Tokens.{is_digit, is_int};
ghost use Rattle.oz_language.specs.Wording.{int_token, positive_token, negative_token, minus};

use oz_language::Token;

/// No integer is as great, and only a negative one as far from 0.
const LIMIT: u128 = 1 << 127;

/// The token that the bytes at this place are, with a `~` before the digits where the integer is negative.
pub fn int_token(at: usize, bytes: &[u8]) -> Token
    requires { is_int bytes.now ≡ true }
    ensures { result ≡ int_token at bytes.now }
{
    match bytes {
        [b'~', digits @ ..] => negative_token(at, digits),
        _ => positive_token(at, bytes),
    }
}

fn positive_token(at: usize, digits: &[u8]) -> Token
    requires { list_all is_digit digits.now ≡ true }
    ensures { result ≡ positive_token at (digits_value 10 digits.now) }
{
    let Some(number) = number_of(digits) else {
        return Token::Other;
    };
    if number >= LIMIT {
        return Token::Other;
    }
    let value = number as i128;
    Token::Int { value, at }
}

fn negative_token(at: usize, digits: &[u8]) -> Token
    requires { list_all is_digit digits.now ≡ true }
    ensures { result ≡ negative_token at (digits_value 10 digits.now) }
{
    let Some(number) = number_of(digits) else {
        return Token::Other;
    };
    if number > LIMIT {
        return Token::Other;
    }
    let value = minus(number);
    Token::Int { value, at }
}

fn minus(number: u128) -> i128
    requires { number ≤ 2 ^ 127 }
    ensures { result ≡ minus number }
{
    match number {
        0 => 0,
        number => -((number - 1) as i128) - 1,
    }
}

/// The number that digits write, or `None` where it is 2^128 or more.
fn number_of(digits: &[u8]) -> Option<u128>
    requires { list_all is_digit digits.now ≡ true }
    ensures value { IfSome result (λ number. number ≡ digits_value 10 digits.now) }
    ensures large { IfNone result (2 ^ 128 ≤ digits_value 10 digits.now) }
{
    let mut number: u128 = 0;
    for digit in digits {
        number = number
            .checked_mul(10)?
            .checked_add((*digit - b'0') as u128)?;
    }
    Some(number)
}
