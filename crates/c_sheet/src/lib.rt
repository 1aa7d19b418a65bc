// The answer of sampling as numbers, and the sheet in a buffer, for hosts in C.
#![tactic(auto)]

ghost use Rattle.std.specs.Prelude.{◌≡◌, ◌≤◌, length, get_or};
ghost use Rattle.pixel.specs.Internal.{painted};
ghost use Rattle.sheet.specs.Sheet.{sheet_size, numbers_in};
ghost use Rattle.sheet.specs.Answer.{fields_of};
ghost use Rattle.c_answers.specs.Host.{hosted};
ghost use Rattle.c_answers.specs.Internal.{Fits32};
ghost use Rattle.c_sheet.specs.Internal.{SheetFits32};
ghost use Rattle.c_sheet.specs.Sheet.{sheet_fields, holds_sheet, sheet_after};

use c_answers::Answer;
use sheet::{Numbers, Sampled, SheetError};

// Puts the numbers of a sheet, in the order named, into a buffer that holds them.
fn put_numbers(t: Numbers, buffer: &mut [u64])
    requires { sheet_size ≤ length buffer.old }
    ensures { buffer.new ≡ painted (λ k. get_or (numbers_in t) k 0) sheet_size buffer.old }
{
    for k in 0..sheet::NUMBERS {
        buffer[k] = sheet::number_at(t, k);
    }
}

// The same for a buffer that may be too small; answers whether it was large enough.
fn put_sheet(t: Numbers, buffer: &mut [u64]) -> bool
    requires { length t.counts ≡ 256 }
    ensures value { result ≡ holds_sheet buffer.old }
    ensures buffer_after { buffer.new ≡ sheet_after t buffer.old }
{
    if sheet::NUMBERS <= buffer.len() {
        put_numbers(t, buffer);
        true
    } else {
        false
    }
}

// The answer as the struct for hosts; `room` says whether the buffer holds a sheet.
fn sheet_answer(answer: Result<usize, SheetError>, room: bool) -> Answer
    requires { Fits32 (fields_of answer) }
    ensures { result ≡ hosted (sheet_fields room answer) }
{
    match answer {
        Ok(n) if room => c_answers::done_with(n),
        Ok(_) => c_answers::code_alone(11),
        Err(SheetError::Refused(refusal)) => c_judge::refusal_numbers(refusal),
        Err(SheetError::WrongOrder) => c_answers::code_alone(19),
        Err(SheetError::NoFrame) => c_answers::code_alone(10),
    }
}

// What sampling hands back: the answer as the struct for hosts, and the sheet in a buffer that holds it.
pub fn sheet_numbers(sampled: Sampled, buffer: &mut [u64]) -> Answer
    requires { SheetFits32 sampled }
    ensures value { result ≡ hosted (sheet_fields (holds_sheet buffer.old) sampled.answer) }
    ensures buffer_after { buffer.new ≡ sheet_after sampled.sheet buffer.old }
{
    let room = put_sheet(sampled.sheet, buffer);
    sheet_answer(sampled.answer, room)
}
