// Reading files: the head, then the data set in place, then their SOP classes. specs/ReadFile says what each call answers and what its
// buffer then holds.
#![tactic(auto)]

ghost use Rattle.std.specs.Prelude.{◌≡◌, ◌≤◌, length};
ghost use Rattle.dataset.specs.Reading.{reading_of};
ghost use Rattle.basics.specs.Fields.{Answers};
ghost use Rattle.dataset.specs.Answer.{buffer_of};
ghost use Rattle.node.specs.Nodes.{nodes_of};
ghost use Rattle.file_read.specs.declared.FileError.TheVariants.{Head, Refused};
ghost use Rattle.file_read.specs.Part.{Rest};
ghost use Rattle.file_read.specs.ReadFile.{start_of, start_fields, same_class, read_part, read_file_of, read_fields, rows_left};

use basics::{tags, vrs};
use dataset::ReadError;
use meta::HeadError;
use node::DataSet;

// Why a call on a file is refused: by the head, codes 15 to 17; by another SOP class in the data set, code 18; or as the bare call on the
// data set is, whose error is E.
#[derive(Clone, Copy)]
pub enum FileError<E> {
    Head(HeadError),
    OtherClass,
    Refused(E),
}

impl<E> From<HeadError> for FileError<E> {
    ghost from_gives = { λ head error. error ≡ Head head };

    fn from(head: HeadError) -> FileError<E> {
        FileError::Head(head)
    }
}

impl From<ReadError> for FileError<ReadError> {
    ghost from_gives = { λ refusal error. error ≡ Refused refusal };

    fn from(refusal: ReadError) -> FileError<ReadError> {
        FileError::Refused(refusal)
    }
}

// Where a file's data set starts.
#[tactic(auto, using(basics::proofs::Promised::promised), unfolding(crate::specs::ReadFile::start_of))]
pub fn start_of(file: &[u8]) -> Result<usize, HeadError>
    ensures { Answers start_fields result (start_of file.now) }
{
    Ok(meta::read_head(file)?.data_set)
}

// The data set that starts there: a part of the lent file, not a copy.
pub fn data_set<'a>(file: &'a [u8], from: usize) -> &'a [u8]
    requires { from ≤ length file.now }
    ensures { Rest file.entry from result }
{
    &file[from..]
}

// Whether the data set names the SOP class.
#[tactic(auto, unfolding(crate::specs::ReadFile::same_class))]
pub fn same_class(set: &DataSet, class: &[u8]) -> bool
    ensures { result ≡ same_class class.now (nodes_of set.now) }
{
    element::has_root(set, tags::SOP_CLASS_UID, vrs::UI)
        && element::is_ui_root(set, tags::SOP_CLASS_UID, value::trim_end(class, 0))
}

#[tactic(auto, unfolding(crate::specs::ReadFile::read_part))]
fn read_part(bytes: &[u8], class: &[u8], rows: &mut [u32]) -> Result<usize, FileError<ReadError>>
    ensures value { result ≡ read_part bytes.now class.now rows.old }
    ensures rows_after { rows.new ≡ buffer_of (reading_of bytes.now) rows.old }
{
    let n = dataset::read(bytes, rows)?;
    let set = DataSet::new(bytes, &rows[..dataset::WIDTH * n]);
    if !same_class(&set, class) {
        return Err(FileError::OtherClass);
    }
    Ok(n)
}

// Reads a file's data set into rows.
#[tactic(auto, using(basics::proofs::Promised::promised), unfolding(crate::specs::ReadFile::read_file_of, crate::specs::ReadFile::rows_left))]
pub fn read_file(file: &[u8], rows: &mut [u32]) -> Result<usize, FileError<ReadError>>
    ensures answers { Answers read_fields result (read_file_of file.now rows.old) }
    ensures rows_after { rows.new ≡ rows_left file.now rows.old }
{
    let head = meta::read_head(file)?;
    let class = &file[head.class.start..head.class.stop];
    read_part(data_set(file, head.data_set), class, rows)
}
