// A number in plain decimal digits, from an argument of a program; and the frame number that is the one argument of some programs.
#![tactic(auto)]

ghost use Rattle.std.specs.Prelude.{◌≡◌, ◌<◌, Ok};
ghost use Rattle.argument.specs.Digits.{more_of, with_byte, argument_of};

use std::env::{Env, FillError};
use std::io;
use std::io::Write;

// The most bytes of an argument that is read: the largest number has as many digits.
pub const DIGITS: usize = 20;

// Why a text is no number.
#[derive(Clone, Copy, Debug, PartialEq, Eq)]
pub enum DecimalError {
    TooLarge,
    NotNumber,
}

// The number with one more digit.
fn more(n: u64, d: u64) -> Result<u64, DecimalError>
    requires { d < 10 }
    ensures { result ≡ more_of n d }
{
    n.checked_mul(10)
        .and_then(|tens| tens.checked_add(d))
        .ok_or(DecimalError::TooLarge)
}

// The number with one more byte: it is still a number if the byte is a digit.
fn with_byte(n: u64, c: u8) -> Result<u64, DecimalError>
    ensures { result ≡ with_byte (Ok n) c }
{
    if !c.is_ascii_digit() {
        return Err(DecimalError::NotNumber);
    }
    more(n, u64::from(c - b'0'))
}

// The number in the text, or why it is none.
pub fn read_decimal(text: &[u8]) -> Result<u64, DecimalError>
    ensures { result ≡ argument_of text.now }
{
    if text.is_empty() {
        return Err(DecimalError::NotNumber);
    }
    let mut n = 0;
    for &c in text {
        n = with_byte(n, c)?;
    }
    Ok(n)
}

// Whether the program has an argument with that number, however long; its own name has number 0. (Not public: `Env` promises nothing of
// which arguments there are, so a contract could say nothing, and `compare_one` has its own.)
fn is_present(rt: &impl Env, number: usize) -> bool {
    let mut text = [0u8; DIGITS];
    !matches!(rt.arg(number, &mut text), Err(FillError::NotPresent))
}

// The program's one argument, a frame's number. If it is none, a line is printed to `to`, which says what is wanted.
pub fn read_frame<W: Write>(rt: &impl Env, to: &mut W) -> io::Result<Option<u64>> {
    if !is_present(rt, 1) || is_present(rt, 2) {
        writeln!(to, "frame: one number is wanted")?;
        return Ok(None);
    }
    let mut text = [0u8; DIGITS];
    let Ok(n) = rt.arg(1, &mut text) else {
        writeln!(to, "frame: at most 20 digits")?;
        return Ok(None);
    };
    match read_decimal(&text[..n]) {
        Ok(frame) => return Ok(Some(frame)),
        Err(DecimalError::TooLarge) => writeln!(to, "frame: at most 18446744073709551615")?,
        Err(DecimalError::NotNumber) => writeln!(to, "frame: a number is wanted")?,
    }
    Ok(None)
}
