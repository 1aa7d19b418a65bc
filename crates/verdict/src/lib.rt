// Verdicts: the code, rule, frame, offset and row count of a judge's answer.
#![tactic(auto)]

ghost use Rattle.std.specs.Prelude.{◌≡◌};
ghost use Rattle.verdict.specs.Verdict.{per_frame, frame_fits, alone, possible_plain, possible_refusal, possible_breach, fields_fit};
ghost use Rattle.verdict.specs.Verdict.{count_fits, rows_fit, possible};

// The number of the last rule.
pub const LAST_RULE: usize = 39;

// The largest offset of a refusal: the size limit.
const LAST_OFFSET: usize = basics::LARGEST;

// The numbers are wide enough to hold verdicts that are not possible.
#[derive(Clone, Copy)]
pub struct Verdict {
    pub code: usize,
    pub rule: usize,
    pub frame: usize,
    pub offset: usize,
    // The row count, if it is known: a slip of version 1 does not record it.
    pub rows: Option<usize>,
}

// Whether a rule is asked at each frame.
#[tactic(auto, unfolding(crate::specs::Verdict::per_frame))]
pub fn is_per_frame(rule: usize) -> bool
    ensures { result ≡ per_frame rule }
{
    (27 <= rule && rule <= 30) || rule == 37 || rule == 39
}

// Whether a frame fits a broken rule.
#[tactic(auto, unfolding(crate::specs::Verdict::frame_fits))]
fn frame_fits(rule: usize, frame: usize) -> bool
    ensures { result ≡ frame_fits rule frame }
{
    if is_per_frame(rule) {
        1 <= frame && frame <= basics::LAST_FRAME
    } else {
        frame == 0
    }
}

fn is_alone(v: Verdict) -> bool
    ensures { result ≡ alone v }
{
    v.rule == 0 && v.frame == 0 && v.offset == 0
}

fn is_plain(v: Verdict) -> bool
    ensures { result ≡ possible_plain v }
{
    (v.code == 0 || v.code == 7 || v.code == 8) && is_alone(v)
}

fn is_refusal(v: Verdict) -> bool
    ensures { result ≡ possible_refusal v }
{
    1 <= v.code && v.code <= 6 && v.rule == 0 && v.frame == 0 && v.offset <= LAST_OFFSET
}

fn is_breach(v: Verdict) -> bool
    ensures { result ≡ possible_breach v }
{
    v.code == 9
        && 1 <= v.rule
        && v.rule <= LAST_RULE
        && frame_fits(v.rule, v.frame)
        && v.offset == 0
}

// Whether code, rule, frame and offset fit together.
#[tactic(auto, unfolding(crate::specs::Verdict::fields_fit))]
fn fields_fit(v: Verdict) -> bool
    ensures { result ≡ fields_fit v }
{
    is_plain(v) || is_refusal(v) || is_breach(v)
}

// Whether a number of rows fits a code.
#[tactic(auto, unfolding(crate::specs::Verdict::count_fits))]
fn count_fits(code: usize, n: usize) -> bool
    ensures { result ≡ count_fits code n }
{
    if code == 0 || code == 9 {
        n <= basics::MOST_ROWS
    } else {
        n == 0
    }
}

fn rows_fit(code: usize, rows: Option<usize>) -> bool
    ensures { result ≡ rows_fit code rows }
{
    rows.is_none_or(|n| count_fits(code, n))
}

// Whether a verdict is possible.
#[tactic(auto, unfolding(crate::specs::Verdict::possible))]
pub fn is_possible(v: Verdict) -> bool
    ensures { result ≡ possible v }
{
    fields_fit(v) && rows_fit(v.code, v.rows)
}
