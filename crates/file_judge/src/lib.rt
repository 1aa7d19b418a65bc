// Judging files: the head, then the data set in place, then their SOP classes. specs/JudgeFile says what the calls answer and
// specs/Searches the sum; the row buffer is left as reading leaves it.
#![tactic(auto)]

ghost use Rattle.std.specs.Prelude.{◌≡◌};
ghost use Rattle.dataset.specs.Reading.{reading_of};
ghost use Rattle.basics.specs.Fields.{Answers};
ghost use Rattle.dataset.specs.Answer.{buffer_of};
ghost use Rattle.node.specs.Nodes.{nodes_of};
ghost use Rattle.searches.specs.Searches.{searches_of};
ghost use Rattle.file_read.specs.ReadFile.{rows_left};
ghost use Rattle.file_judge.specs.JudgeFile.{judge_part, judge_file_of, judge_fields};
ghost use Rattle.file_judge.specs.Searches.{searches_in, counted_file_of, counted_fields};
ghost use Rattle.file_judge.specs.Internal.{counted_part, row_count, LeftIn};

use conformance::Outcome;
use dataset::ReadError;
use file_read::FileError;
use node::DataSet;

// The answer of `judge_file`, and the sum of its searches: 0 with every answer but code 0.
#[derive(Clone, Copy)]
pub struct CountedFile {
    pub answer: Result<Outcome, FileError<ReadError>>,
    pub searches: usize,
}

// The number of rows of a data set that was judged.
fn row_count(outcome: Outcome) -> usize
    ensures { result ≡ row_count outcome }
{
    match outcome {
        Outcome::Accepted(n) => n,
        Outcome::Broken(n, _, _) => n,
    }
}

#[tactic(auto, unfolding(crate::specs::JudgeFile::judge_part))]
fn judge_part(bytes: &[u8], class: &[u8], rows: &mut [u32]) -> Result<Outcome, FileError<ReadError>>
    ensures value { result ≡ judge_part bytes.now class.now rows.old }
    ensures rows_after { rows.new ≡ buffer_of (reading_of bytes.now) rows.old }
{
    let outcome = conformance::judge(bytes, rows)?;
    let set = DataSet::new(bytes, &rows[..dataset::WIDTH * row_count(outcome)]);
    if !file_read::same_class(&set, class) {
        return Err(FileError::OtherClass);
    }
    Ok(outcome)
}

// The sum, with code 0; the row buffer is as judging left it.
fn searches_in(bytes: &[u8], rows: &[u32], answer: Result<Outcome, FileError<ReadError>>) -> usize
    requires { LeftIn bytes.now rows.now answer }
    ensures { result ≡ searches_in (searches_of (nodes_of bytes.now)) answer }
{
    match answer {
        Ok(outcome) => searches::reported(bytes, rows, Ok(outcome)),
        Err(_) => 0,
    }
}

fn count_part(bytes: &[u8], class: &[u8], rows: &mut [u32]) -> CountedFile
    ensures value { result ≡ counted_part bytes.now class.now rows.old }
    ensures rows_after { rows.new ≡ buffer_of (reading_of bytes.now) rows.old }
{
    let answer = judge_part(bytes, class, rows);
    let searches = searches_in(bytes, rows, answer);
    CountedFile { answer, searches }
}

// Reads a file's data set afresh and judges it, with no sum: the call as document 02, Q-1, has it. C hosts call the counted one below.
#[tactic(auto, using(basics::proofs::Promised::promised), unfolding(crate::specs::JudgeFile::judge_file_of, file_read::specs::ReadFile::rows_left))]
pub fn judge_file(file: &[u8], rows: &mut [u32]) -> Result<Outcome, FileError<ReadError>>
    ensures answers { Answers judge_fields result (judge_file_of file.now rows.old) }
    ensures rows_after { rows.new ≡ rows_left file.now rows.old }
{
    let head = meta::read_head(file)?;
    let class = &file[head.class.start..head.class.stop];
    judge_part(file_read::data_set(file, head.data_set), class, rows)
}

// Reads a file's data set afresh, judges it, and adds up its searches.
#[tactic(auto, using(basics::proofs::Promised::promised), unfolding(crate::specs::JudgeFile::judge_file_of, crate::specs::Searches::searches_file_of, file_read::specs::ReadFile::rows_left))]
pub fn judge_file_counted(file: &[u8], rows: &mut [u32]) -> CountedFile
    ensures answers { Answers counted_fields result (counted_file_of file.now rows.old) }
    ensures rows_after { rows.new ≡ rows_left file.now rows.old }
{
    match meta::read_head(file) {
        Err(error) => CountedFile {
            answer: Err(FileError::Head(error)),
            searches: 0,
        },
        Ok(head) => {
            let class = &file[head.class.start..head.class.stop];
            count_part(file_read::data_set(file, head.data_set), class, rows)
        }
    }
}
