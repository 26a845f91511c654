// The reserve, which is the program's one argument.
ghost use Rattle.std.specs.Prelude.{◌≡◌, ◌<◌, ℕ, unwrap_or};
ghost use Rattle.room.specs.Digits.{none, with_digit, said};

use std::env::{Env, FillError};

// A number with one decimal digit more behind it, where the byte is a digit and the number a reserve.
fn with_digit(number: u32, byte: u8) -> Option<u32>
    ensures { unwrap_or result none ≡ with_digit number byte }
{
    if !byte.is_ascii_digit() {
        return None;
    }
    number.checked_mul(10)?.checked_add(u32::from(byte - b'0'))
}

// The number that the digits say, where each of them is a digit and the number is a reserve.
fn number_of(digits: &[u8]) -> Option<u32>
    ensures { unwrap_or result none ≡ said digits.now }
{
    let mut number = 0;
    for digit in digits {
        number = with_digit(number, *digit)?;
    }
    Some(number)
}

// Whether the program was given no more than one argument behind its name.
fn is_one_given(env: &impl Env) -> bool {
    matches!(env.arg(2, &mut []), Err(FillError::NotPresent))
}

// The reserve, where there is one argument behind the program's name, and it is 1 to 32 decimal digits that say a number up to the
// largest reserve.
pub fn reserve(env: &impl Env) -> Option<u32> {
    if !is_one_given(env) {
        return None;
    }
    let mut word = [0u8; 32];
    match env.arg(1, &mut word) {
        Ok(0) | Err(_) => None,
        Ok(length) => number_of(&word[..length]),
    }
}
