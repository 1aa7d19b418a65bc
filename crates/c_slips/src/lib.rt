// Verdict slips, for hosts in C: the two calls with verdicts as numbers.
#![tactic(auto)]

ghost use Rattle.std.specs.Prelude.{◌≡◌, ◌<◌, Ok};
ghost use Rattle.slip.specs.Slip.{read_of, read_slip_fields, write_of, write_slip_fields, slip_buffer};
ghost use Rattle.c_slips.specs.Slips.{count_in, verdict_in, rows_number, hosted_slip, verdict_answer};
ghost use Rattle.c_slips.specs.Internal.{VerdictFits32};

use c_answers::Answer;
use verdict::Verdict;

// The row count of a verdict that does not know it: no verdict has that many rows.
const NOT_KNOWN: u32 = 4_294_967_295;

// What reading a slip answers: code 0 and the verdict, with whether its row count is known (`rows_known` in C); or a refusal's
// code, all else being 0.
#[repr(C)]
#[derive(Clone, Copy)]
pub struct Slip {
    pub code: u32,
    pub known: u32,
    pub verdict: Answer,
}

fn count_in(known: u32, rows: u32) -> Option<usize>
    ensures { result ≡ count_in known rows }
{
    (known != 0).then_some(rows as usize)
}

#[tactic(auto, unfolding(crate::specs::Slips::verdict_in))]
fn verdict_in(verdict: Answer, known: u32) -> Verdict
    ensures { result ≡ verdict_in verdict known }
{
    Verdict {
        code: verdict.code as usize,
        rule: verdict.rule as usize,
        frame: verdict.frame as usize,
        offset: verdict.offset as usize,
        rows: count_in(known, verdict.rows),
    }
}

// Writes the slip of the verdict in an answer over the first 17 bytes of the buffer, and answers the code: 0, 14 or 11. A refusal leaves
// the buffer as it was.
pub fn write_slip(verdict: Answer, known: u32, slip: &mut [u8]) -> u32
    ensures value { result ≡ (write_slip_fields (write_of (verdict_in verdict known) slip.old)).code }
    ensures slip_after { slip.new ≡ slip_buffer (verdict_in verdict known) slip.old }
{
    match slip::write_slip(verdict_in(verdict, known), slip) {
        Ok(()) => 0,
        Err(error) => error.code().into(),
    }
}

fn rows_number(rows: Option<usize>) -> u32
    requires { rows_number rows < 4294967296 }
    ensures { result ≡ rows_number rows }
{
    rows.map_or(NOT_KNOWN, |n| n as u32)
}

// A verdict whose numbers fit 32 bits, as an answer.
fn answer_of(v: Verdict) -> Answer
    requires { VerdictFits32 v }
    ensures { result ≡ verdict_answer v }
{
    Answer {
        code: v.code as u32,
        offset: v.offset as u32,
        rows: rows_number(v.rows),
        rule: v.rule as u32,
        frame: v.frame as u32,
        ..Answer::default()
    }
}

// A slip that reads well.
fn slip_of(v: Verdict) -> Slip
    requires { VerdictFits32 v }
    ensures { result ≡ hosted_slip (read_slip_fields (Ok v)) }
{
    Slip {
        code: 0,
        known: u32::from(v.rows.is_some()),
        verdict: answer_of(v),
    }
}

// The verdict that a slip records, or code 12, 13 or 14.
pub fn read_slip(slip: &[u8]) -> Slip
    ensures { result ≡ hosted_slip (read_slip_fields (read_of slip.now)) }
{
    match slip::read_slip(slip) {
        Ok(v) => slip_of(v),
        Err(error) => Slip {
            code: error.code().into(),
            known: 0,
            verdict: c_answers::code_alone(0),
        },
    }
}
