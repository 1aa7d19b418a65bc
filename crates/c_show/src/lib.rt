// The answer of drawing a frame as numbers, for hosts in C.
#![tactic(auto)]

ghost use Rattle.std.specs.Prelude.{◌≡◌};
ghost use Rattle.display.specs.Show.{fields_of};
ghost use Rattle.c_answers.specs.Host.{hosted};
ghost use Rattle.c_answers.specs.Internal.{Fits32};

use c_answers::Answer;
use display::{Drawn, ShowError};

// The answer as the struct for hosts.
pub fn show_numbers(answer: Result<Drawn, ShowError>) -> Answer
    requires { Fits32 (fields_of answer) }
    ensures { result ≡ hosted (fields_of answer) }
{
    match answer {
        Ok(drawn) => c_answers::drawn_with(drawn.rows, drawn.masked),
        Err(ShowError::Refused(refusal)) => c_judge::refusal_numbers(refusal),
        Err(ShowError::NoFrame) => c_answers::code_alone(10),
        Err(ShowError::NoImageRoom) => c_answers::code_alone(11),
    }
}
