// The answers about files as numbers, for hosts in C.
#![tactic(auto)]

ghost use Rattle.std.specs.Prelude.{◌≡◌};
ghost use Rattle.file_read.specs.ReadFile.{start_fields, read_fields};
ghost use Rattle.file_judge.specs.JudgeFile.{judge_fields};
ghost use Rattle.file_show.specs.ShowFile.{show_fields};
ghost use Rattle.file_judge.specs.Searches.{counted_fields};
ghost use Rattle.c_answers.specs.Host.{hosted};
ghost use Rattle.c_answers.specs.Internal.{Fits32};
ghost use Rattle.c_judge.specs.Judged.{reported};
ghost use Rattle.c_files.specs.Start.{part_of};
ghost use Rattle.c_files.specs.Internal.{head_code, bare_answer};

use c_answers::Answer;
use conformance::Outcome;
use dataset::ReadError;
use display::{Drawn, ShowError};
use file_judge::CountedFile;
use file_read::FileError;
use meta::HeadError;

// Where a file's data set starts: code 0, or 15, 16 or 17 with start 0.
#[repr(C)]
#[derive(Clone, Copy)]
pub struct Part {
    pub code: u32,
    pub start: usize,
}

// The code of a refused head.
fn head_code(error: HeadError) -> u32
    ensures { result ≡ head_code error }
{
    match error {
        HeadError::NoMark => 15,
        HeadError::BadHead => 16,
        HeadError::OtherSyntax => 17,
    }
}

// What the bare call answers about the data set inside; or the code of a file that is refused without it.
fn bare_answer<A, E>(answer: Result<A, FileError<E>>) -> Result<Result<A, E>, u32>
    ensures { result ≡ bare_answer answer }
{
    match answer {
        Ok(done) => Ok(Ok(done)),
        Err(FileError::Refused(error)) => Ok(Err(error)),
        Err(FileError::Head(error)) => Err(head_code(error)),
        Err(FileError::OtherClass) => Err(18),
    }
}

// Where the data set starts, as the struct for hosts.
pub fn start_numbers(start: Result<usize, HeadError>) -> Part
    ensures { result ≡ part_of (start_fields start) }
{
    match start {
        Ok(from) => Part {
            code: 0,
            start: from,
        },
        Err(error) => Part {
            code: head_code(error),
            start: 0,
        },
    }
}

// The answers as the struct for hosts.
pub fn read_file_numbers(answer: Result<usize, FileError<ReadError>>) -> Answer
    requires { Fits32 (read_fields answer) }
    ensures { result ≡ hosted (read_fields answer) }
{
    match bare_answer(answer) {
        Ok(bare) => c_read::read_numbers(bare),
        Err(code) => c_answers::code_alone(code),
    }
}

fn judge_file_numbers(answer: Result<Outcome, FileError<ReadError>>) -> Answer
    requires { Fits32 (judge_fields answer) }
    ensures { result ≡ hosted (judge_fields answer) }
{
    match bare_answer(answer) {
        Ok(bare) => c_judge::judge_numbers(bare),
        Err(code) => c_answers::code_alone(code),
    }
}

pub fn counted_file_numbers(counted: CountedFile) -> Answer
    requires { Fits32 (judge_fields counted.answer) }
    ensures { result ≡ reported (counted_fields counted) }
{
    c_answers::with_searches(judge_file_numbers(counted.answer), counted.searches)
}

pub fn show_file_numbers(answer: Result<Drawn, FileError<ShowError>>) -> Answer
    requires { Fits32 (show_fields answer) }
    ensures { result ≡ hosted (show_fields answer) }
{
    match bare_answer(answer) {
        Ok(bare) => c_show::show_numbers(bare),
        Err(code) => c_answers::code_alone(code),
    }
}
