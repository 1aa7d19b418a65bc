// The forms of values: text split and trimmed, words, and numbers. Each function takes one element's value and goes along it once.
#![tactic(auto)]

ghost use Rattle.std.specs.Prelude.{◌≡◌, ◌+◌, ◌-◌, ◌*◌, ◌^◌, ◌≤◌, ◌<◌, length, drop, get_or};
ghost use Rattle.value.specs.Text.{values_of, value_of, is_single, trim_start, trim_end, trimmed};
ghost use Rattle.value.specs.Words.{word_at, is_word, is_uid, function_of, is_function};
ghost use Rattle.value.specs.Number.{number_or0, us_of, us_values, ss_of, ss_limit, after_sign, is_minus, with_sign, signed_by, whole_of};
ghost use Rattle.value.specs.Number.{integer_limit, integer_of, size_limit, characters, run_of};
ghost use Rattle.value.specs.Number.{if_small, wholly, exact_of, scaled_by, is_mark, exponent_of, end_of, point_by, size_of, decimal_of};
ghost use Rattle.value.specs.Number.{is_number, least_width, is_width, all_decimals, all_widths};
ghost use Rattle.value.specs.Internal.{Below, SizeBelow, DigitsRead};

use basics::u16_at;

// A number with a sign.
#[derive(Clone, Copy, PartialEq, Eq)]
pub enum Signed {
    Plus(usize),
    Minus(usize),
}

// A function of a window that is drawn.
#[derive(Clone, Copy, PartialEq, Eq)]
pub enum Function {
    Linear,
    Exact,
}

// Digits that were read: their number, and how many there are.
#[derive(Clone, Copy)]
struct Run {
    number: usize,
    count: usize,
}

const BACKSLASH: u8 = b'\\';

const SPACE: u8 = b' ';

// The unit of a DS number is a millionth: the number one has this many units.
pub const UNIT: usize = 1000000;

// Its decimals.
const DECIMALS: usize = 6;

// A DS number is below one million.
const SIZE_LIMIT: usize = 1000000 * UNIT;

// The digits that an IS may have.
const INTEGER_DIGITS: usize = 11;

// The characters that a DS value may have.
const CHARACTERS: usize = 16;

// ---- Text

// How many values there are.
pub fn count_values(v: &[u8]) -> usize
    ensures value { result ≡ length (values_of v.now) }
    ensures upper_bound { result ≤ length v.now + 1 }
{
    v.split(|b| *b == BACKSLASH).count()
}

pub fn is_single(v: &[u8]) -> bool
    ensures { result ≡ is_single v.now }
{
    count_values(v) == 1
}

// Value k, counted from 0; empty if there are fewer.
pub fn value_of(v: &[u8], k: usize) -> &[u8]
    ensures { result.now ≡ value_of v.now k }
{
    v.split(|b| *b == BACKSLASH).nth(k).unwrap_or(&v[..0])
}

// Without the bytes b at the start.
fn trim_start(v: &[u8], b: u8) -> &[u8]
    ensures { result.now ≡ trim_start b v.now }
{
    let mut left = v;
    while let [first, rest @ ..] = left
        && *first == b
    {
        left = rest;
    }
    left
}

// Without the bytes b at the end.
pub fn trim_end(v: &[u8], b: u8) -> &[u8]
    ensures { result.now ≡ trim_end b v.now }
{
    let mut left = v;
    while let [rest @ .., last] = left
        && *last == b
    {
        left = rest;
    }
    left
}

// Without outer spaces.
fn trimmed(v: &[u8]) -> &[u8]
    ensures { result.now ≡ trimmed v.now }
{
    trim_start(trim_end(v, SPACE), SPACE)
}

// ---- Words

// Value k of a CS, without outer spaces, is the word.
pub fn is_word_at(v: &[u8], k: usize, word: &[u8]) -> bool
    ensures { result ≡ word_at v.now k word.now }
{
    trimmed(value_of(v, k)) == word
}

// A CS is the word.
pub fn is_word(v: &[u8], word: &[u8]) -> bool
    ensures { result ≡ is_word v.now word.now }
{
    is_single(v) && is_word_at(v, 0, word)
}

// A UI is the UID, without trailing zero bytes.
pub fn is_uid(v: &[u8], uid: &[u8]) -> bool
    ensures { result ≡ is_uid v.now uid.now }
{
    is_single(v) && trim_end(value_of(v, 0), 0) == uid
}

// ---- The function of a window

// VOI LUT Function: LINEAR or LINEAR_EXACT.
pub fn function_of(v: &[u8]) -> Option<Function>
    ensures { result ≡ function_of v.now }
{
    if is_word(v, b"LINEAR") {
        Some(Function::Linear)
    } else if is_word(v, b"LINEAR_EXACT") {
        Some(Function::Exact)
    } else {
        None
    }
}

pub fn is_function(f: Option<Function>) -> bool
    ensures { result ≡ is_function f }
{
    f.is_some()
}

// The least width of a function, in units.
pub fn least_width(f: Option<Function>) -> usize
    ensures { result ≡ least_width f }
{
    match f {
        Some(Function::Exact) => 1,
        Some(Function::Linear) | None => UNIT,
    }
}

// ---- Numbers

pub fn number_or_0(n: Option<usize>) -> usize
    ensures { result ≡ number_or0 n }
{
    n.unwrap_or(0)
}

// ---- US and SS

// A single US.
pub fn us_of(v: &[u8]) -> Option<usize>
    ensures value { result ≡ us_of v.now }
    ensures below { Below 65536 result }
{
    if v.len() == 2 {
        Some(u16_at(v, 0))
    } else {
        None
    }
}

// Value k of a US.
pub fn us_value(v: &[u8], k: usize) -> usize
    requires { 2 * k + 2 ≤ length v.now }
    ensures value { result ≡ get_or (us_values v.now) k 0 }
    ensures upper_bound { result < 65536 }
{
    u16_at(v, 2 * k)
}

// A single SS.
pub fn ss_of(v: &[u8]) -> Option<Signed>
    ensures value { result ≡ ss_of v.now }
    ensures size_below { SizeBelow ss_limit result }
{
    if v.len() == 2 {
        let n = u16_at(v, 0);
        if n < 32768 {
            Some(Signed::Plus(n))
        } else {
            Some(Signed::Minus(65536 - n))
        }
    } else {
        None
    }
}

// ---- Digits and signs

// Up to `limit` digits at the start, after digits that made `start`.
fn digits(s: &[u8], limit: usize, start: usize) -> Run
    requires { (start + 1) * 10 ^ limit ≤ 10 ^ characters }
    ensures { DigitsRead limit start s.now result }
{
    let mut number = start;
    let mut count = 0;
    for b in s.iter().take(limit) {
        if !b.is_ascii_digit() {
            break;
        }
        number = 10 * number + usize::from(*b - b'0');
        count += 1;
    }
    Run { number, count }
}

// Whether the sign in front is a minus, and what follows the sign.
fn split_sign(s: &[u8]) -> (bool, &[u8])
    ensures minus { result.0 ≡ is_minus s.now }
    ensures rest { result.1.now ≡ after_sign s.now }
{
    match s {
        [b'+', rest @ ..] => (false, rest),
        [b'-', rest @ ..] => (true, rest),
        _ => (false, s),
    }
}

fn with_sign(minus: bool, n: Option<usize>) -> Option<Signed>
    ensures { result ≡ with_sign minus n }
{
    n.map(|k| if minus {
        Signed::Minus(k)
    } else {
        Signed::Plus(k)
    })
}

// ---- IS

// 1 to `limit` digits and nothing after them.
fn whole_of(s: &[u8], limit: usize) -> Option<usize>
    requires { limit ≤ characters }
    ensures { result ≡ whole_of limit s.now }
{
    let d = digits(s, limit, 0);
    if d.count == s.len() && d.count != 0 {
        Some(d.number)
    } else {
        None
    }
}

// The same after an optional sign.
fn signed_whole(s: &[u8], limit: usize) -> Option<Signed>
    requires { limit ≤ characters }
    ensures { result ≡ signed_by (whole_of limit) s.now }
{
    let (minus, size) = split_sign(s);
    with_sign(minus, whole_of(size, limit))
}

// A single IS.
pub fn integer_of(v: &[u8]) -> Option<Signed>
    ensures value { result ≡ integer_of v.now }
    ensures size_below { SizeBelow integer_limit result }
{
    if is_single(v) {
        signed_whole(trimmed(value_of(v, 0)), INTEGER_DIGITS)
    } else {
        None
    }
}

// ---- DS

// What reads one value is inlined into the walks over a window's values (`all_decimals`, `all_widths`), nearly all of whose time it takes.

// m · 10^e units. No power is computed: a number that is not 0 exceeds the size of a DS number after at most 12 turns.
#[inline(always)]
fn multiplied(m: usize, e: usize) -> Option<usize>
    requires { (0 < m) × (m ≤ 10 ^ characters) }
    ensures { result ≡ if_small (m * 10 ^ e) }
{
    let mut n = m;
    for _ in 0..e {
        if SIZE_LIMIT <= n {
            return None;
        }
        n *= 10;
    }
    if n < SIZE_LIMIT { Some(n) } else { None }
}

// m / 10^e units, if that is a whole number: a number of 16 digits that is not 0 ends in at most 15 zeros.
#[inline(always)]
fn divided(m: usize, e: usize) -> Option<usize>
    ensures { result ≡ wholly m (10 ^ e) }
{
    let mut n = m;
    for _ in 0..e {
        if n % 10 != 0 {
            return None;
        }
        n /= 10;
    }
    if n < SIZE_LIMIT { Some(n) } else { None }
}

// m · 10^up / 10^down units. Zero is zero at any exponent.
#[inline(always)]
fn exact(m: usize, up: usize, down: usize) -> Option<usize>
    requires { m ≤ 10 ^ characters }
    ensures { result ≡ exact_of m up down }
{
    if m == 0 {
        Some(0)
    } else if down <= up {
        multiplied(m, up - down)
    } else {
        divided(m, down - up)
    }
}

// m / 10^after · 10^exponent, in units.
fn scaled(m: usize, after: usize, exponent: Option<Signed>) -> Option<usize>
    requires { (m ≤ 10 ^ characters) × ((after ≤ characters) × SizeBelow (10 ^ characters) exponent) }
    ensures { result ≡ scaled_by m after exponent }
{
    match exponent {
        Some(Signed::Plus(e)) => exact(m, DECIMALS + e, after),
        Some(Signed::Minus(e)) => exact(m, DECIMALS, after + e),
        None => None,
    }
}

// E or e.
fn is_mark(b: u8) -> bool
    ensures { result ≡ is_mark b }
{
    b == b'E' || b == b'e'
}

// What follows E or e.
fn exponent_of(s: &[u8]) -> Option<Signed>
    ensures { (result ≡ exponent_of s.now) × SizeBelow (10 ^ characters) result }
{
    signed_whole(s, CHARACTERS)
}

// What follows `count` digits that made m, `after` of them after the point.
#[inline(always)]
fn end_of(s: &[u8], count: usize, m: usize, after: usize) -> Option<usize>
    requires { (m ≤ 10 ^ characters) × (after ≤ characters) }
    ensures { result ≡ end_of count m after s.now }
{
    if count == 0 {
        return None;
    }
    if s.is_empty() {
        return exact(m, DECIMALS, after);
    }
    if is_mark(s[0]) {
        scaled(m, after, exponent_of(&s[1..]))
    } else {
        None
    }
}

// The digits after a point: `before` digits were before it, and made `whole`.
fn point_of(s: &[u8], before: usize, whole: usize) -> Option<usize>
    requires { (before + length s.now ≤ characters) × ((whole + 1) * 10 ^ length s.now ≤ 10 ^ characters) }
    ensures { result ≡ point_by before (run_of whole s.now) }
{
    let d = digits(s, s.len(), whole);
    let n = d.count;
    end_of(&s[n..], before + n, d.number, n)
}

// Digits, then optionally a point and digits, at least one digit in all, then optionally an exponent.
#[inline(always)]
fn size_of(s: &[u8]) -> Option<usize>
    requires { length s.now ≤ characters }
    ensures { result ≡ size_of s.now }
{
    let d = digits(s, s.len(), 0);
    let n = d.count;
    if n < s.len() && s[n] == b'.' {
        point_of(&s[n + 1..], n, d.number)
    } else {
        end_of(&s[n..], n, d.number, 0)
    }
}

// The same after an optional sign.
#[inline(always)]
fn signed_size(s: &[u8]) -> Option<Signed>
    requires { length s.now ≤ characters }
    ensures { result ≡ signed_by size_of s.now }
{
    let (minus, size) = split_sign(s);
    with_sign(minus, size_of(size))
}

// One value of a DS, in units.
#[inline(always)]
pub fn decimal_of(v: &[u8]) -> Option<Signed>
    ensures value { result ≡ decimal_of v.now }
    ensures size_below { SizeBelow size_limit result }
{
    let t = trimmed(v);
    if t.len() <= CHARACTERS {
        signed_size(t)
    } else {
        None
    }
}

pub fn is_number(n: Option<Signed>) -> bool
    ensures { result ≡ is_number n }
{
    n.is_some()
}

// A width: at least the given number of units.
fn is_width(n: Option<Signed>, least: usize) -> bool
    ensures { result ≡ is_width least n }
{
    matches!(n, Some(Signed::Plus(k)) if least <= k)
}

// Every value of a DS has the form.
pub fn all_decimals(v: &[u8]) -> bool
    ensures { result ≡ all_decimals v.now }
{
    v.split(|b| *b == BACKSLASH)
        .all(|d| is_number(decimal_of(d)))
}

// Every value of a DS is a width.
pub fn all_widths(v: &[u8], least: usize) -> bool
    ensures { result ≡ all_widths least v.now }
{
    v.split(|b| *b == BACKSLASH)
        .all(|d| is_width(decimal_of(d), least))
}
