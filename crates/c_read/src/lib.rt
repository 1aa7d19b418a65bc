// The answers of reading and counting as numbers, for hosts in C.
#![tactic(auto)]

ghost use Rattle.std.specs.Prelude.{◌≡◌};
ghost use Rattle.dataset.specs.Answer.{error_fields, fields_of};
ghost use Rattle.c_answers.specs.Host.{hosted};
ghost use Rattle.c_answers.specs.Internal.{Fits32};

use c_answers::Answer;
use dataset::ReadError;

// A refusal as the struct for hosts.
pub fn error_numbers(error: ReadError) -> Answer
    requires { Fits32 (error_fields error) }
    ensures { result ≡ hosted (error_fields error) }
{
    match error {
        ReadError::Refused(refusal) => {
            c_answers::refused_at(refusal.fault.code(), refusal.offset)
        }
        ReadError::TooLarge => c_answers::code_alone(7),
        ReadError::NoRoom => c_answers::code_alone(8),
    }
}

// The answer as the struct for hosts.
pub fn read_numbers(answer: Result<usize, ReadError>) -> Answer
    requires { Fits32 (fields_of answer) }
    ensures { result ≡ hosted (fields_of answer) }
{
    match answer {
        Ok(n) => c_answers::done_with(n),
        Err(error) => error_numbers(error),
    }
}
