// The window of a frame and its levels.
#![tactic(auto)]

ghost use Rattle.std.specs.Prelude.{◌≡◌, ◌-◌, ◌*◌, ◌^◌, ◌≤◌, ◌<◌, pos, ◌-ℤ◌, Some};
ghost use Rattle.value.specs.Number.{unit, size_limit, number_or0};
ghost use Rattle.window.specs.Window.{full_window, taken_off, level_of, shaded};
ghost use Rattle.window.specs.Internal.{Drawable, above, below, ramp_of, shade_places};

use value::{Function, Signed};

// Centre and width, in units of a DS number, and the function.
#[derive(Clone, Copy, PartialEq, Eq)]
pub struct Window {
    pub center: Option<Signed>,
    pub width: Option<Signed>,
    pub function: Option<Function>,
}

// How many places a table of levels has.
pub const PLACES: usize = 131_072;

// A signed number is above(s) - below(s).
fn above(s: Option<Signed>) -> usize
    ensures { result ≡ above s }
{
    match s {
        Some(Signed::Plus(n)) => n,
        Some(Signed::Minus(_)) | None => 0,
    }
}

fn below(s: Option<Signed>) -> usize
    ensures { result ≡ below s }
{
    match s {
        Some(Signed::Minus(n)) => n,
        Some(Signed::Plus(_)) | None => 0,
    }
}

// What a function takes off the width.
fn taken_off(f: Option<Function>) -> usize
    ensures { (result ≡ taken_off f) × (result ≤ unit) }
{
    match f {
        Some(Function::Exact) => 0,
        Some(Function::Linear) | None => value::UNIT,
    }
}

// The level where up - down is 2ux - 2C + W, above 0, w the width and e what the function takes off.
fn ramp(e: usize, up: usize, down: usize, w: usize) -> usize
    requires { (down < up) × ((up < 4 * size_limit) × ((e ≤ unit) × ((e ≤ w) × (w < size_limit)))) }
    ensures { (result ≡ ramp_of e (up - down) w) × (result ≤ 255) }
{
    let d = up - down;
    if 2 * w < d + 2 * e {
        255
    } else {
        (255 * d + w - e) / (2 * (w - e))
    }
}

// The level of x = plus - minus.
fn level(window: Window, plus: usize, minus: usize) -> usize
    requires { Drawable window × ((plus < 200000) × (minus < 200000)) }
    ensures { (Some (pos result) ≡ level_of window (pos plus -ℤ pos minus)) × (result ≤ 255) }
{
    let w = above(window.width);
    let e = taken_off(window.function);
    let up = 2 * value::UNIT * plus + 2 * below(window.center) + w;
    let down = 2 * value::UNIT * minus + 2 * above(window.center);
    if up <= down { 0 } else { ramp(e, up, down, w) }
}

// 2^n.
pub fn power(n: usize) -> usize
    requires { n ≤ 17 }
    ensures { (result ≡ 2 ^ n) × ((1 ≤ result) × (result ≤ shade_places)) }
{
    1 << n
}

// The window of a frame that names none.
pub fn full_window(stored: usize) -> Window
    requires { stored ≤ 16 }
    ensures { (result ≡ full_window stored) × Drawable result }
{
    let full = value::UNIT * power(stored);
    Window {
        center: Some(Signed::Plus(full / 2)),
        width: Some(Signed::Plus(full)),
        function: Some(Function::Linear),
    }
}

// The shade of x = plus - minus: its level, or 255 minus the level.
pub fn shade(window: Window, plus: usize, minus: usize, inverse: bool) -> u8
    requires { Drawable window × ((plus < 200000) × (minus < 200000)) }
    ensures { result ≡ number_or0 (shaded inverse (level_of window (pos plus -ℤ pos minus))) }
{
    let y = level(window, plus, minus);
    if inverse { (255 - y) as u8 } else { y as u8 }
}
