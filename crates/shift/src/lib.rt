// Shifts of the mask: two FL numbers, vertical then horizontal, counted in quarters of a pixel. A shift keeps its two floats, so it can
// also hold a number that is not a whole quarter; the rules accept only short ones.
#![tactic(auto)]

ghost use Rattle.std.specs.Prelude.{◌≡◌, ◌+◌, ◌≤◌, false, length, from_bits};
ghost use Rattle.std.specs.Float.{binary32};
ghost use Rattle.std.specs.Float.Ieee.{lt};
ghost use Rattle.value.specs.Internal.{Below, SizeBelow};
ghost use Rattle.shift.specs.Shift.{float_at, is_shift_of, item_shift, frame_shift, is_shift, is_frame_shift};
ghost use Rattle.shift.specs.Internal.{short_size, too_far, ShortMoves, short_of, short_moves_of};

use basics::u32_at;
use value::Signed;

// No shift, the mask item's two numbers, or the frame's own two. An `Option` of a kind and two numbers would be no plainer: each case has
// its name here, as in the rules that cite it.
#[derive(Clone, Copy)]
pub enum Shift {
    None,
    Item(f32, f32),
    Frame(f32, f32),
}

// How far a shift moves the mask, in quarters.
#[derive(Clone, Copy)]
pub struct Moves {
    pub vertical: Option<Signed>,
    pub horizontal: Option<Signed>,
}

// The largest bit pattern of a float without its sign that is not a NaN: infinity.
const INFINITY: u32 = 0x7F80_0000;

const SIGN: u32 = 0x8000_0000;

// ---- Floats

// The float of any bit pattern; that of a NaN gives a NaN.
fn float_of(bits: u32) -> f32
    ensures { result ≡ from_bits binary32 bits }
{
    if INFINITY < bits % SIGN {
        0.0 / 0.0
    } else {
        f32::from_bits(bits)
    }
}

// The FL number at p.
fn float_at(v: &[u8], p: usize) -> f32
    requires { p + 4 ≤ length v.now }
    ensures { result ≡ float_at v.now p }
{
    float_of(u32_at(v, p) as u32)
}

// ---- Short quarters: up to the largest shift, to either side

// The quarters of a float that is not negative: they are whole if nothing was cut off.
fn short_size(y: f32) -> Option<usize>
    requires { lt y (from_bits binary32 0) ≡ false }
    ensures value { result ≡ short_size y }
    ensures below { Below too_far result }
{
    if y <= 64.0 {
        let z = y * 4.0;
        let n = std::num::truncating_f32_to_u64(z);
        let back = std::num::nearest_u32_to_f32(n as u32);
        if back == z { Some(n as usize) } else { None }
    } else {
        None
    }
}

fn short_of(x: f32) -> Option<Signed>
    ensures value { result ≡ short_of x }
    ensures size_below { SizeBelow too_far result }
{
    if x < 0.0 {
        short_size(-x).map(Signed::Minus)
    } else {
        short_size(x).map(Signed::Plus)
    }
}

// ---- No shift, the item's two numbers, or the frame's own two

#[tactic(auto, unfolding(crate::specs::Internal::short_moves_of))]
pub fn short_moves_of(s: Shift) -> Moves
    ensures value { result ≡ short_moves_of s }
    ensures short_moves { ShortMoves result }
{
    match s {
        Shift::None => Moves {
            vertical: Some(Signed::Plus(0)),
            horizontal: Some(Signed::Plus(0)),
        },
        Shift::Item(v, h) | Shift::Frame(v, h) => Moves {
            vertical: short_of(v),
            horizontal: short_of(h),
        },
    }
}

// Both numbers of a shift are short.
fn is_shift_of(s: Shift) -> bool
    ensures { result ≡ is_shift_of s }
{
    let m = short_moves_of(s);
    m.vertical.is_some() && m.horizontal.is_some()
}

// A value of two FL numbers, as the item's.
#[tactic(auto, unfolding(crate::specs::Shift::item_shift))]
pub fn item_shift(v: &[u8]) -> Shift
    ensures { result ≡ item_shift v.now }
{
    if v.len() == 8 {
        Shift::Item(float_at(v, 0), float_at(v, 4))
    } else {
        Shift::None
    }
}

// The same, as the frame's own.
#[tactic(auto, unfolding(crate::specs::Shift::frame_shift))]
pub fn frame_shift(v: &[u8]) -> Shift
    ensures { result ≡ frame_shift v.now }
{
    if v.len() == 8 {
        Shift::Frame(float_at(v, 0), float_at(v, 4))
    } else {
        Shift::None
    }
}

// A value has rule 35's form.
#[tactic(auto, unfolding(crate::specs::Shift::is_shift))]
pub fn is_shift(v: &[u8]) -> bool
    ensures { result ≡ is_shift v.now }
{
    v.len() == 8 && is_shift_of(item_shift(v))
}

// A value has rule 37's form.
#[tactic(auto, unfolding(crate::specs::Shift::is_frame_shift))]
pub fn is_frame_shift(v: &[u8]) -> bool
    ensures { result ≡ is_frame_shift v.now }
{
    v.len() == 8 && is_shift_of(frame_shift(v))
}
