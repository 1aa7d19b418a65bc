// The library's calls for hosts in C, or in any language that can call C; include/luuxidgaan.h declares them. None has a `requires`: they
// take any bytes and any buffers. Each makes one call of the library and hands its answer over as numbers.
#![tactic(auto)]

ghost use Rattle.std.specs.Prelude.{◌≡◌};
ghost use Rattle.dataset.specs.Reading.{reading_of};
ghost use Rattle.dataset.specs.Answer.{answer_of, count_of, buffer_of};
ghost use Rattle.dataset.specs.Answer as reading;
ghost use Rattle.searches.specs.Reported.{counted_of};
ghost use Rattle.searches.specs.Reported as judging;
ghost use Rattle.display.specs.Show.{show_of, image_of};
ghost use Rattle.display.specs.Show as showing;
ghost use Rattle.file_read.specs.ReadFile.{start_of, start_fields, read_file_of, read_fields, rows_left};
ghost use Rattle.file_show.specs.ShowFile.{show_file_of, show_fields, image_left};
ghost use Rattle.file_judge.specs.Searches.{counted_file_of, counted_fields};
ghost use Rattle.sheet.specs.Answer.{sheet_of};
ghost use Rattle.compare.specs.Answer.{compare_of};
ghost use Rattle.compare.specs.Answer as comparing;
ghost use Rattle.linear.specs.Answer.{linear_of, values_left};
ghost use Rattle.linear.specs.Answer as mapping;
ghost use Rattle.squareroot.specs.SquareRoot.{root_level, root_entry};
ghost use Rattle.canonical.specs.Answer.{canonical_of, target_of};
ghost use Rattle.canonical.specs.Answer as writing;
ghost use Rattle.slip.specs.Slip as slips;
ghost use Rattle.c_answers.specs.Host.{host_version, hosted};
ghost use Rattle.c_judge.specs.Judged.{reported};
ghost use Rattle.c_files.specs.Start.{part_of};
ghost use Rattle.c_sheet.specs.Sheet.{sheet_fields, holds_sheet, sheet_after};
ghost use Rattle.c_compare.specs.Compared.{compared_of};
ghost use Rattle.c_canonical.specs.Rewritten.{rewritten_of};
ghost use Rattle.c_slips.specs.Slips.{verdict_in, hosted_slip};

use c_answers::Answer;
use c_canonical::Rewritten;
use c_compare::Compared;
use c_files::Part;
use c_slips::Slip;

// The version of the calls for hosts, XA_VERSION of the header.
#[unsafe(no_mangle)]
pub extern "C" fn xa_version() -> u32
    ensures { result ≡ host_version }
{
    c_answers::host_version()
}

// How many rows a data set has. No row is stored.
#[unsafe(no_mangle)]
pub extern "C" fn xa_count(bytes: &[u8]) -> Answer
    ensures { result ≡ hosted (reading.fields_of (count_of (reading_of bytes.now))) }
{
    c_read::read_numbers(dataset::count(bytes))
}

// Reads a data set into rows. Codes 1 to 8 leave the buffer as it was.
#[unsafe(no_mangle)]
pub extern "C" fn xa_read(bytes: &[u8], rows: &mut [u32]) -> Answer
    ensures value { result ≡ hosted (reading.fields_of (answer_of (reading_of bytes.now) rows.old)) }
    ensures rows_after { rows.new ≡ buffer_of (reading_of bytes.now) rows.old }
{
    c_read::read_numbers(dataset::read(bytes, rows))
}

// Reads a data set into rows and judges it; with code 0 the sum of its searches is named too. Codes 1 to 8 leave the
// buffer as it was.
#[unsafe(no_mangle)]
pub extern "C" fn xa_judge(bytes: &[u8], rows: &mut [u32]) -> Answer
    ensures value { result ≡ reported (judging.fields_of (counted_of bytes.now rows.old)) }
    ensures rows_after { rows.new ≡ buffer_of (reading_of bytes.now) rows.old }
{
    c_judge::counted_numbers(searches::judge_counted(bytes, rows))
}

// Reads a data set into rows, judges it and draws a frame of it, a byte for each sample. Codes 1 to 8 leave the row
// buffer as it was, every code but 0 the image buffer.
#[unsafe(no_mangle)]
pub extern "C" fn xa_show(bytes: &[u8], frame: u64, rows: &mut [u32], image: &mut [u8]) -> Answer
    ensures value { result ≡ hosted (showing.fields_of (show_of bytes.now frame rows.old image.old)) }
    ensures rows_after { rows.new ≡ buffer_of (reading_of bytes.now) rows.old }
    ensures image_after { image.new ≡ image_of bytes.now frame rows.old image.old }
{
    c_show::show_numbers(display::show(bytes, frame, rows, image))
}

// Where the data set of a file starts.
#[unsafe(no_mangle)]
pub extern "C" fn xa_data_set(file: &[u8]) -> Part
    ensures { result ≡ part_of (start_fields (start_of file.now)) }
{
    c_files::start_numbers(file_read::start_of(file))
}

// Reads a file's data set into rows. Codes 1 to 8 and 15 to 17 leave the buffer as it was.
#[unsafe(no_mangle)]
pub extern "C" fn xa_read_file(file: &[u8], rows: &mut [u32]) -> Answer
    ensures value { result ≡ hosted (read_fields (read_file_of file.now rows.old)) }
    ensures rows_after { rows.new ≡ rows_left file.now rows.old }
{
    c_files::read_file_numbers(file_read::read_file(file, rows))
}

// Reads a file's data set into rows and judges it; with code 0 the sum of its searches is named too. Codes 1 to 8 and
// 15 to 17 leave the buffer as it was.
#[unsafe(no_mangle)]
pub extern "C" fn xa_judge_file(file: &[u8], rows: &mut [u32]) -> Answer
    ensures value { result ≡ reported (counted_fields (counted_file_of file.now rows.old)) }
    ensures rows_after { rows.new ≡ rows_left file.now rows.old }
{
    c_files::counted_file_numbers(file_judge::judge_file_counted(file, rows))
}

// Judges a file's data set and draws a frame of it, a byte for each sample. Codes 1 to 8 and 15 to 17 leave the row buffer as it
// was, every code but 0 the image buffer.
#[unsafe(no_mangle)]
pub extern "C" fn xa_show_file(
    file: &[u8],
    frame: u64,
    rows: &mut [u32],
    image: &mut [u8],
) -> Answer
    ensures value { result ≡ hosted (show_fields (show_file_of file.now frame rows.old image.old)) }
    ensures rows_after { rows.new ≡ rows_left file.now rows.old }
    ensures image_after { image.new ≡ image_left file.now frame rows.old image.old }
{
    c_files::show_file_numbers(file_show::show_file(file, frame, rows, image))
}

// Reads a data set into rows, judges it and counts the grey levels of its frames `first` to `last`. A buffer for
// fewer than 260 numbers is left alone; any other gets the sheet, or zeros with every code but 0. Codes 1 to 8 leave the row buffer as
// it was.
#[unsafe(no_mangle)]
pub extern "C" fn xa_sheet(
    bytes: &[u8],
    first: u64,
    last: u64,
    rows: &mut [u32],
    buffer: &mut [u64],
) -> Answer
    ensures value { result ≡ hosted (sheet_fields (holds_sheet buffer.old) (sheet_of bytes.now first last rows.old).answer) }
    ensures rows_after { rows.new ≡ buffer_of (reading_of bytes.now) rows.old }
    ensures buffer_after { buffer.new ≡ sheet_after (sheet_of bytes.now first last rows.old).sheet buffer.old }
{
    c_sheet::sheet_numbers(sheet::sheet(bytes, first, last, rows), buffer)
}

// Reads a data set into rows, judges it and compares cells with a frame of it. Codes 1 to 8 leave the row buffer
// as it was.
#[unsafe(no_mangle)]
pub extern "C" fn xa_compare(
    bytes: &[u8],
    frame: u64,
    cells: &[u8],
    tolerance: u64,
    rows: &mut [u32],
) -> Compared
    ensures value { result ≡ compared_of (comparing.fields_of (compare_of bytes.now frame cells.now tolerance rows.old)) }
    ensures rows_after { rows.new ≡ buffer_of (reading_of bytes.now) rows.old }
{
    c_compare::compare_numbers(compare::compare(bytes, frame, cells, tolerance, rows))
}

// Reads a data set into rows, judges it and maps a frame of it by its TO_LINEAR item, a number for each sample. Codes 1
// to 8 leave the row buffer as it was, every code but 0 the values buffer.
#[unsafe(no_mangle)]
pub extern "C" fn xa_linear(
    bytes: &[u8],
    frame: u64,
    rows: &mut [u32],
    values: &mut [u16],
) -> Answer
    ensures value { result ≡ hosted (mapping.fields_of (linear_of bytes.now frame rows.old values.old)) }
    ensures rows_after { rows.new ≡ buffer_of (reading_of bytes.now) rows.old }
    ensures values_after { values.new ≡ values_left bytes.now frame rows.old values.old }
{
    c_linear::linear_numbers(linear::linear(bytes, frame, rows, values))
}

// The level of a 14-bit cell: the lowest 14 bits of a number.
#[unsafe(no_mangle)]
pub extern "C" fn xa_root_level(cell: u64) -> u8
    ensures { result ≡ root_level cell }
{
    c_linear::root_level(cell)
}

// The entry of a level.
#[unsafe(no_mangle)]
pub extern "C" fn xa_root_entry(level: u8) -> u16
    ensures { result ≡ root_entry level }
{
    squareroot::entry(level)
}

// Reads a data set into rows and writes its canonical form. Codes 1 to 8 leave the row buffer as it was, every code but
// 0 the target.
#[unsafe(no_mangle)]
pub extern "C" fn xa_canonical(bytes: &[u8], rows: &mut [u32], target: &mut [u8]) -> Rewritten
    ensures value { result ≡ rewritten_of (writing.fields_of (canonical_of bytes.now rows.old target.old)) }
    ensures rows_after { rows.new ≡ buffer_of (reading_of bytes.now) rows.old }
    ensures target_after { target.new ≡ target_of bytes.now rows.old target.old }
{
    c_canonical::canonical_numbers(canonical::write_canonical(bytes, rows, target))
}

// Writes the slip of the verdict in an answer over the first 17 bytes of the buffer, and answers the code: 0, 14 or 11. A refusal leaves
// the buffer as it was.
#[unsafe(no_mangle)]
pub extern "C" fn xa_write_slip(verdict: Answer, known: u32, slip: &mut [u8]) -> u32
    ensures value { result ≡ (slips.write_slip_fields (slips.write_of (verdict_in verdict known) slip.old)).code }
    ensures slip_after { slip.new ≡ slips.slip_buffer (verdict_in verdict known) slip.old }
{
    c_slips::write_slip(verdict, known, slip)
}

// The verdict that a slip records, or code 12, 13 or 14.
#[unsafe(no_mangle)]
pub extern "C" fn xa_read_slip(slip: &[u8]) -> Slip
    ensures { result ≡ hosted_slip (slips.read_slip_fields (slips.read_of slip.now)) }
{
    c_slips::read_slip(slip)
}
