// The answer of writing the canonical form as numbers, for hosts in C.
#![tactic(auto)]

ghost use Rattle.std.specs.Prelude.{◌≡◌};
ghost use Rattle.canonical.specs.Answer.{fields_of};
ghost use Rattle.c_canonical.specs.Rewritten.{rewritten_of};
ghost use Rattle.c_canonical.specs.Internal.{RewrittenFits32};

use canonical::{CanonicalError, Written};

// What writing answers with. Fields that a code does not name are 0.
#[repr(C)]
#[derive(Clone, Copy)]
pub struct Rewritten {
    pub code: u32,
    pub offset: u32,
    pub rows: u32,
    pub length: u32,
}

// The answer as the struct for hosts.
pub fn canonical_numbers(answer: Result<Written, CanonicalError>) -> Rewritten
    requires { RewrittenFits32 (fields_of answer) }
    ensures { result ≡ rewritten_of (fields_of answer) }
{
    let (read, size) = match answer {
        Ok(written) => (c_answers::done_with(written.rows), written.bytes),
        Err(CanonicalError::NoTargetRoom(size)) => (c_answers::code_alone(21), size),
        Err(CanonicalError::Unread(error)) => (c_read::error_numbers(error), 0),
    };
    Rewritten {
        code: read.code,
        offset: read.offset,
        rows: read.rows,
        length: size as u32,
    }
}
