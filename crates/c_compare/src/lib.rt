// The answer of comparing another workstation's picture with ours as numbers, for hosts in C.
#![tactic(auto)]

ghost use Rattle.std.specs.Prelude.{◌≡◌};
ghost use Rattle.compare.specs.Answer.{fields_of};
ghost use Rattle.c_compare.specs.Compared.{compared_of, no_cell};
ghost use Rattle.c_compare.specs.Internal.{CompareFits32};

use c_answers::Answer;
use compare::{CompareError, Comparison};

// What comparing answers with: with code 0 whether all cells are within the tolerance, and else the first that is not and how many
// are not.
#[repr(C)]
#[derive(Clone, Copy)]
pub struct Compared {
    pub answer: Answer,
    pub same: u32,
    pub first: u32,
    pub count: u32,
}

// An answer that names no cell.
fn no_cell(answer: Answer) -> Compared
    ensures { result ≡ no_cell answer }
{
    Compared {
        answer,
        same: 0,
        first: 0,
        count: 0,
    }
}

// The answer as the struct for hosts.
pub fn compare_numbers(answer: Result<Comparison, CompareError>) -> Compared
    requires { CompareFits32 (fields_of answer) }
    ensures { result ≡ compared_of (fields_of answer) }
{
    match answer {
        Ok(Comparison::Same(n)) => Compared {
            answer: c_answers::done_with(n),
            same: 1,
            first: 0,
            count: 0,
        },
        Ok(Comparison::Differs(n, first, count)) => Compared {
            answer: c_answers::done_with(n),
            same: 0,
            first: first as u32,
            count: count as u32,
        },
        Err(CompareError::Refused(refusal)) => no_cell(c_judge::refusal_numbers(refusal)),
        Err(CompareError::NoFrame) => no_cell(c_answers::code_alone(10)),
        Err(CompareError::WrongSize) => no_cell(c_answers::code_alone(22)),
        Err(CompareError::WrongTolerance) => no_cell(c_answers::code_alone(23)),
    }
}
