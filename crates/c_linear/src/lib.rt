// The answer of mapping back to beam intensity as numbers, for hosts in C; and a level of the square root derivation in a byte.
#![tactic(auto)]

ghost use Rattle.std.specs.Prelude.{◌≡◌};
ghost use Rattle.linear.specs.Answer.{fields_of};
ghost use Rattle.squareroot.specs.SquareRoot.{root_level};
ghost use Rattle.c_answers.specs.Host.{hosted};
ghost use Rattle.c_answers.specs.Internal.{Fits32};

use c_answers::Answer;
use linear::LinearError;

// The answer as the struct for hosts.
pub fn linear_numbers(answer: Result<usize, LinearError>) -> Answer
    requires { Fits32 (fields_of answer) }
    ensures { result ≡ hosted (fields_of answer) }
{
    match answer {
        Ok(n) => c_answers::done_with(n),
        Err(LinearError::Refused(refusal)) => c_judge::refusal_numbers(refusal),
        Err(LinearError::NoFrame) => c_answers::code_alone(10),
        Err(LinearError::NoItem) => c_answers::code_alone(20),
        Err(LinearError::NoValuesRoom) => c_answers::code_alone(11),
    }
}

// The level of a 14-bit cell: the lowest 14 bits of a number.
pub fn root_level(cell: u64) -> u8
    ensures { result ≡ root_level cell }
{
    squareroot::level(cell as usize) as u8
}
