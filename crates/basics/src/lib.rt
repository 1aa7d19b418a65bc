// What most crates build on: numbers in bytes, tags, VRs, and how large a data set may be. specs/ defines each, and the fields of an
// answer. No function of this crate is a public call: one that reads at an offset requires that the bytes there exist.
#![tactic(auto)]

ghost use Rattle.std.specs.Prelude.{◌≡◌, ◌+◌, ◌-◌, ◌≤◌, ◌<◌, length};
ghost use Rattle.basics.specs.Bytes.{le16, le32, tag_at, vr_at};
ghost use Rattle.basics.specs.Vr.{form_of};
ghost use Rattle.basics.specs.Internal.{FormsAfter};

pub mod tags;
pub mod vrs;

// The most bytes that a data set may have.
pub const LARGEST: usize = 1_073_741_824;

// The most rows that it can have: a row takes at least 8 bytes.
pub const MOST_ROWS: usize = LARGEST / 8;

// The largest frame number.
pub const LAST_FRAME: usize = 65_535;

// The most mask items of an object, and the most mask frames of an item.
pub const MOST_MASKS: usize = 16;

pub const MOST_MASK_FRAMES: usize = 64;

pub fn wider(x: u32) -> usize
    ensures { result ≡ x }
{
    x as usize
}

// a - b, or 0 if b is larger.
pub fn less(a: usize, b: usize) -> usize
    ensures { result ≡ a - b }
{
    a.saturating_sub(b)
}

pub fn u16_at(s: &[u8], p: usize) -> usize
    requires { p + 2 ≤ length s.now }
    ensures { (result ≡ le16 s.now p) × (result < 65536) }
{
    usize::from(u16::from_le_bytes([s[p], s[p + 1]]))
}

pub fn u32_at(s: &[u8], p: usize) -> usize
    requires { p + 4 ≤ length s.now }
    ensures { (result ≡ le32 s.now p) × (result < 4294967296) }
{
    u32::from_le_bytes([s[p], s[p + 1], s[p + 2], s[p + 3]]) as usize
}

pub fn tag_at(s: &[u8], p: usize) -> usize
    requires { p + 4 ≤ length s.now }
    ensures { (result ≡ tag_at s.now p) × (result < 4294967296) }
{
    65536 * u16_at(s, p) + u16_at(s, p + 2)
}

pub fn vr_at(s: &[u8], p: usize) -> usize
    requires { p + 2 ≤ length s.now }
    ensures { (result ≡ vr_at s.now p) × (result < 65536) }
{
    usize::from(u16::from_be_bytes([s[p], s[p + 1]]))
}

// The forms of the VRs with a first letter: two bits for each second letter, from 64 on, lowest first. This compiles to a table; a
// `match` over the VRs would become a tree of tests.
fn forms_after(first: usize) -> u64
    ensures { FormsAfter first result }
{
    match first {
        0x41 => 0x0000_0140_0000_0400,
        0x43 => 0x0000_0040_0000_0000,
        0x44 => 0x0000_0140_0000_0004,
        0x46 => 0x0000_0000_0100_0100,
        0x49 => 0x0000_0040_0000_0000,
        0x4C => 0x0000_0100_4000_0000,
        0x4F => 0x0000_A000_0200_2220,
        0x50 => 0x0000_0000_1000_0000,
        0x53 => 0x0000_2148_0101_0000,
        0x54 => 0x0000_0000_0400_0000,
        0x55 => 0x0000_2260_2104_0080,
        _ => 0,
    }
}

// The form of a VR, the number that `form_of` of specs/ gives, by which the grammar and the rows are defined: 2 with a 32-bit length,
// 1 with a 16-bit length, 0 if it is not listed. SQ is tested first, since the readers test for
// it again.
pub fn vr_form(vr: usize) -> usize
    ensures { result ≡ form_of vr }
{
    if vr == vrs::SQ {
        return 2;
    }
    let second = vr % 256;
    if second / 32 == 2 {
        ((forms_after(vr / 256) >> (2 * (second % 32))) % 4) as usize
    } else {
        0
    }
}
