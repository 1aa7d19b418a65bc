// What every call for hosts in C shares: the version, and the struct of numbers that it answers with, made by what a code names.
#![tactic(auto)]

ghost use Rattle.std.specs.Prelude.{◌≡◌, cond};
ghost use Rattle.basics.specs.Fields.{code_alone, placed, counted, drawn, broken};
ghost use Rattle.c_answers.specs.Host.{host_version, hosted, with_searches};
ghost use Rattle.c_answers.specs.Internal.{Fits32};

// The version of the calls for hosts, XA_VERSION of the header.
const VERSION: u32 = 1;

pub fn host_version() -> u32
    ensures { result ≡ host_version }
{
    VERSION
}

// What every call answers. Fields that a code does not name are 0; the definitions `fields_of` say which code names which.
#[repr(C)]
#[derive(Clone, Copy, Default)]
pub struct Answer {
    pub code: u32,
    pub offset: u32,
    pub rows: u32,
    pub rule: u32,
    pub frame: u32,
    pub masked: u32,
    pub searches: u64,
}

// The code alone.
pub fn code_alone(code: u32) -> Answer
    ensures { result ≡ hosted (code_alone code) }
{
    Answer {
        code,
        ..Answer::default()
    }
}

// A code and an offset.
pub fn refused_at(code: usize, offset: usize) -> Answer
    requires { Fits32 (placed code offset) }
    ensures { result ≡ hosted (placed code offset) }
{
    Answer {
        code: code as u32,
        offset: offset as u32,
        ..Answer::default()
    }
}

// Done, with the number of rows.
pub fn done_with(rows: usize) -> Answer
    requires { Fits32 (counted rows) }
    ensures { result ≡ hosted (counted rows) }
{
    Answer {
        rows: rows as u32,
        ..Answer::default()
    }
}

// Done, with the number of rows and whether the frame is masked.
pub fn drawn_with(rows: usize, masked: bool) -> Answer
    requires { Fits32 (drawn rows (cond masked 1 0)) }
    ensures { result ≡ hosted (drawn rows (cond masked 1 0)) }
{
    Answer {
        rows: rows as u32,
        masked: u32::from(masked),
        ..Answer::default()
    }
}

// A rule broken, with the number of rows, the rule and the frame.
pub fn broken_at(rows: usize, rule: usize, frame: usize) -> Answer
    requires { Fits32 (broken rows rule frame) }
    ensures { result ≡ hosted (broken rows rule frame) }
{
    Answer {
        code: 9,
        rows: rows as u32,
        rule: rule as u32,
        frame: frame as u32,
        ..Answer::default()
    }
}

// The answer with the sum of its searches.
pub fn with_searches(answer: Answer, searches: usize) -> Answer
    ensures { result ≡ with_searches searches answer }
{
    Answer {
        searches: searches as u64,
        ..answer
    }
}
