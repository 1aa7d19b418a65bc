// The answer of judging as numbers, the sum of its searches among them, for hosts in C.
#![tactic(auto)]

ghost use Rattle.std.specs.Prelude.{◌≡◌};
ghost use Rattle.conformance.specs.Judging.{fields_of, refusal_fields};
ghost use Rattle.searches.specs.Reported as reporting;
ghost use Rattle.c_answers.specs.Host.{hosted};
ghost use Rattle.c_answers.specs.Internal.{Fits32};
ghost use Rattle.c_judge.specs.Judged.{reported};

use c_answers::Answer;
use conformance::{NotAccepted, Outcome};
use dataset::ReadError;
use searches::Counted;

// Why a data set is not accepted, as the struct for hosts.
pub fn refusal_numbers(refusal: NotAccepted) -> Answer
    requires { Fits32 (refusal_fields refusal) }
    ensures { result ≡ hosted (refusal_fields refusal) }
{
    match refusal {
        NotAccepted::Unread(error) => c_read::error_numbers(error),
        NotAccepted::Broken(n, rule, frame) => c_answers::broken_at(n, rule, frame),
    }
}

// The answer as the struct for hosts.
pub fn judge_numbers(answer: Result<Outcome, ReadError>) -> Answer
    requires { Fits32 (fields_of answer) }
    ensures { result ≡ hosted (fields_of answer) }
{
    match answer {
        Ok(Outcome::Accepted(n)) => c_answers::done_with(n),
        Ok(Outcome::Broken(n, rule, frame)) => c_answers::broken_at(n, rule, frame),
        Err(error) => c_read::error_numbers(error),
    }
}

// The answer and the sum of its searches as the struct for hosts.
pub fn counted_numbers(counted: Counted) -> Answer
    requires { Fits32 (fields_of counted.answer) }
    ensures { result ≡ reported (reporting.fields_of counted) }
{
    c_answers::with_searches(judge_numbers(counted.answer), counted.searches)
}
