// Showing files: the head, then the data set in place, then their SOP classes, then the frame. specs/ShowFile says what the call
// answers and what the image buffer then holds; the row buffer is left as reading leaves it.
#![tactic(auto)]

ghost use Rattle.std.specs.Prelude.{◌≡◌};
ghost use Rattle.dataset.specs.Reading.{reading_of};
ghost use Rattle.basics.specs.Fields.{Answers};
ghost use Rattle.dataset.specs.Answer.{buffer_of};
ghost use Rattle.file_read.specs.ReadFile.{rows_left};
ghost use Rattle.conformance.specs.declared.NotAccepted.TheVariants.{Unread};
ghost use Rattle.display.specs.declared.ShowError.TheVariants as show_error;
ghost use Rattle.file_read.specs.declared.FileError.TheVariants.{Refused};
ghost use Rattle.file_show.specs.Internal.{row_count};
ghost use Rattle.file_show.specs.ShowFile.{show_part, show_file_of, image_part, image_left, show_fields};

use conformance::{NotAccepted, Outcome};
use dataset::ReadError;
use display::{Drawn, ShowError};
use file_read::FileError;
use node::DataSet;

// The number of rows of a data set that was judged.
fn row_count(outcome: Outcome) -> usize
    ensures { result ≡ row_count outcome }
{
    match outcome {
        Outcome::Accepted(n) => n,
        Outcome::Broken(n, _, _) => n,
    }
}

// The error of a data set that cannot be read.
fn unread(error: ReadError) -> FileError<ShowError>
    ensures { result ≡ Refused (show_error.Refused (Unread error)) }
{
    FileError::Refused(ShowError::Refused(NotAccepted::Unread(error)))
}

#[tactic(auto, unfolding(crate::specs::ShowFile::show_part, crate::specs::ShowFile::image_part, display::specs::Show::show_of, display::specs::Show::image_of))]
fn show_part(
    bytes: &[u8],
    class: &[u8],
    frame: u64,
    rows: &mut [u32],
    image: &mut [u8],
) -> Result<Drawn, FileError<ShowError>>
    ensures value { result ≡ show_part bytes.now class.now frame rows.old image.old }
    ensures rows_after { rows.new ≡ buffer_of (reading_of bytes.now) rows.old }
    ensures image_after { image.new ≡ image_part bytes.now class.now frame rows.old image.old }
{
    let outcome = conformance::judge(bytes, rows).map_err(unread)?;
    let set = DataSet::new(bytes, &rows[..dataset::WIDTH * row_count(outcome)]);
    if !file_read::same_class(&set, class) {
        return Err(FileError::OtherClass);
    }
    match outcome {
        Outcome::Accepted(n) => {
            display::show_table(&set, frame as usize, n, image).map_err(FileError::Refused)
        }
        Outcome::Broken(n, rule, broken) => Err(FileError::Refused(ShowError::Refused(
            NotAccepted::Broken(n, rule, broken),
        ))),
    }
}

// Judges a file's data set afresh and draws a frame of it.
#[tactic(auto, using(basics::proofs::Promised::promised), unfolding(crate::specs::ShowFile::show_file_of, crate::specs::ShowFile::image_left, file_read::specs::ReadFile::rows_left))]
pub fn show_file(
    file: &[u8],
    frame: u64,
    rows: &mut [u32],
    image: &mut [u8],
) -> Result<Drawn, FileError<ShowError>>
    ensures answers { Answers show_fields result (show_file_of file.now frame rows.old image.old) }
    ensures rows_after { rows.new ≡ rows_left file.now rows.old }
    ensures image_after { image.new ≡ image_left file.now frame rows.old image.old }
{
    let head = meta::read_head(file)?;
    let class = &file[head.class.start..head.class.stop];
    show_part(
        file_read::data_set(file, head.data_set),
        class,
        frame,
        rows,
        image,
    )
}
