// Verdict slips: 17 bytes that record a verdict with its row count. specs/ says what a slip is; `write_slip` and `read_slip` are the
// public calls. Slips of version 1, which are still read, end before the row count.
#![tactic(auto)]

ghost use Rattle.std.specs.Prelude.{◌≡◌, ◌≤◌, length, take, true, Some, None};
ghost use Rattle.basics.specs.Bytes.{same_bytes, le_number};
ghost use Rattle.basics.specs.Fields.{Answers};
ghost use Rattle.basics.specs.Limits.{most_rows};
ghost use Rattle.verdict.specs.Verdict.{possible};
ghost use Rattle.slip.specs.Slip.{opening_size, old_size, slip_size, rows_place, version_place, mark, recorded};
ghost use Rattle.slip.specs.Slip.{if_possible, read_sized, read_version, slip_with, read_of, read_slip_fields, write_of, write_slip_fields};
ghost use Rattle.slip.specs.Slip.{slip_buffer};

use basics::{u16_at, u32_at};
use verdict::Verdict;

// How many bytes a slip has: those of its mark and version; of version 1; as written.
const HEAD: usize = 5;

const OLD_SIZE: usize = 13;

const SIZE: usize = 17;

// The offset of each field; the mark comes first.
const VERSION_AT: usize = 3;

const CODE_AT: usize = 5;

const RULE_AT: usize = 6;

const FRAME_AT: usize = 7;

const OFFSET_AT: usize = 9;

const ROWS_AT: usize = 13;

const OLD_VERSION: usize = 1;

const VERSION: usize = 2;

// Why a slip is not read, or not written.
#[derive(Clone, Copy)]
pub enum SlipError {
    // The buffer has fewer bytes than a slip.
    NoRoom,
    // Too few bytes, a wrong mark, or another length than the version's.
    NoSlip,
    // A version that is neither 1 nor 2.
    OtherVersion,
    // Fields of no possible verdict, or, to be written, a row count that is not known.
    NotPossible,
}

impl SlipError {
    ghost use Rattle.slip.specs.Slip.{code_of};

    // The number of the refusal, as hosts are handed it.
    pub fn code(self) -> u8
        ensures { result ≡ code_of self }
    {
        match self {
            SlipError::NoRoom => 11,
            SlipError::NoSlip => 12,
            SlipError::OtherVersion => 13,
            SlipError::NotPossible => 14,
        }
    }
}

// ---- Reading

// Whether a slip starts with "XAV".
fn is_marked(s: &[u8]) -> bool
    requires { version_place ≤ length s.now }
    ensures { result ≡ same_bytes (take version_place s.now) mark }
{
    let mark: &[u8] = b"XAV";
    &s[..VERSION_AT] == mark
}

// The fields of a slip, unchecked, with a row count.
fn fields(s: &[u8], rows: Option<usize>) -> Verdict
    requires { old_size ≤ length s.now }
    ensures { result ≡ recorded s.now rows }
{
    Verdict {
        code: s[CODE_AT].into(),
        rule: s[RULE_AT].into(),
        frame: u16_at(s, FRAME_AT),
        offset: u32_at(s, OFFSET_AT),
        rows,
    }
}

#[tactic(auto, unfolding(crate::specs::Slip::if_possible))]
fn if_possible(v: Verdict) -> Result<Verdict, SlipError>
    ensures { result ≡ if_possible v }
{
    if verdict::is_possible(v) {
        Ok(v)
    } else {
        Err(SlipError::NotPossible)
    }
}

// A slip of version 1: its row count is not known.
fn read_old(slip: &[u8]) -> Result<Verdict, SlipError>
    ensures { result ≡ read_sized old_size None slip.now }
{
    if slip.len() != OLD_SIZE {
        return Err(SlipError::NoSlip);
    }
    if_possible(fields(slip, None))
}

// A slip of version 2.
fn read_new(slip: &[u8]) -> Result<Verdict, SlipError>
    ensures { result ≡ read_sized slip_size (Some (le_number 4 slip.now rows_place)) slip.now }
{
    if slip.len() != SIZE {
        return Err(SlipError::NoSlip);
    }
    if_possible(fields(slip, Some(u32_at(slip, ROWS_AT))))
}

// A slip whose mark is right, by its version.
fn read_version(slip: &[u8]) -> Result<Verdict, SlipError>
    requires { opening_size ≤ length slip.now }
    ensures { result ≡ read_version (le_number 2 slip.now version_place) slip.now }
{
    let version = u16_at(slip, VERSION_AT);
    if version == OLD_VERSION {
        read_old(slip)
    } else if version == VERSION {
        read_new(slip)
    } else {
        Err(SlipError::OtherVersion)
    }
}

// The verdict that a slip records; code 12 if it has fewer than 5 bytes or a wrong mark, 13 if its version is neither 1 nor 2, 12 if its
// length is not its version's, 14 if its fields are not possible.
pub fn read_slip(slip: &[u8]) -> Result<Verdict, SlipError>
    ensures { Answers read_slip_fields result (read_of slip.now) }
{
    if HEAD <= slip.len() && is_marked(slip) {
        read_version(slip)
    } else {
        Err(SlipError::NoSlip)
    }
}

// ---- Writing

// The bytes of a possible verdict's slip with n rows, whose numbers fit their bytes.
fn slip_bytes(v: Verdict, n: usize) -> [u8; SIZE]
    requires { (possible v ≡ true) × (n ≤ most_rows) }
    ensures { result ≡ slip_with v n }
{
    let [version_low, version_high] = (VERSION as u16).to_le_bytes();
    let [frame_low, frame_high] = (v.frame as u16).to_le_bytes();
    let [offset_0, offset_1, offset_2, offset_3] = (v.offset as u32).to_le_bytes();
    let [rows_0, rows_1, rows_2, rows_3] = (n as u32).to_le_bytes();
    [
        b'X',
        b'A',
        b'V',
        version_low,
        version_high,
        v.code as u8,
        v.rule as u8,
        frame_low,
        frame_high,
        offset_0,
        offset_1,
        offset_2,
        offset_3,
        rows_0,
        rows_1,
        rows_2,
        rows_3,
    ]
}

// Writes a verdict's slip over the first 17 bytes of the buffer; code 14 if the verdict is not possible or its row count not known, then
// 11 if the buffer has fewer than 17 bytes. A refusal leaves the buffer as it was.
pub fn write_slip(verdict: Verdict, slip: &mut [u8]) -> Result<(), SlipError>
    ensures answers { Answers write_slip_fields result (write_of verdict slip.old) }
    ensures slip_after { slip.new ≡ slip_buffer verdict slip.old }
{
    let Some(n) = verdict.rows else {
        return Err(SlipError::NotPossible);
    };
    if !verdict::is_possible(verdict) {
        return Err(SlipError::NotPossible);
    }
    if slip.len() < SIZE {
        return Err(SlipError::NoRoom);
    }
    slip[..SIZE].copy_from_slice(&slip_bytes(verdict, n));
    Ok(())
}
