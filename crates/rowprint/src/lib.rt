// The reading of a data set, printed to the writer `to`: `rows N` and a line for each row, or the refusal.
#![tactic(auto)]

ghost use Rattle.std.specs.Prelude.{◌≡◌, ◌+◌, ◌*◌, ◌≤◌, OnOk, length};
ghost use Rattle.std.specs.Io.KnownBytes.{Appends};
ghost use Rattle.dataset.specs.Reading.{reading_of};
ghost use Rattle.dataset.specs.Answer.{width, answer_of, buffer_of};
ghost use Rattle.rowprint.specs.Text.{hex_digit, heading, error_line, letter as Text·letter};
ghost use Rattle.rowprint.specs.Internal.{RowsHeld, Roomy};

use dataset::ReadError;
use printing::{print_code, print_unread};
use room::row_buffer;
use std::io;
use std::io::Write;

// A digit by itself: `heading` names all eight, where the text of `{:08X}` is a recursion on the whole number, which a proof would unroll.
fn hex_digit(n: u32) -> u8
    ensures { result ≡ hex_digit n }
{
    let d = (n % 16) as u8;
    if d < 10 { b'0' + d } else { b'A' - 10 + d }
}

fn letter(vr: u32, half: u32) -> u8
    ensures { result ≡ Text·letter vr half }
{
    if vr == 0 { b'-' } else { (half % 256) as u8 }
}

// How a row's line begins: the tag as eight hexadecimal digits, and the VR.
fn row_heading(tag: u32, vr: u32) -> [u8; 11]
    ensures { result ≡ heading tag vr }
{
    [
        hex_digit(tag >> 28),
        hex_digit(tag >> 24),
        hex_digit(tag >> 20),
        hex_digit(tag >> 16),
        hex_digit(tag >> 12),
        hex_digit(tag >> 8),
        hex_digit(tag >> 4),
        hex_digit(tag),
        b' ',
        letter(vr, vr >> 8),
        letter(vr, vr),
    ]
}

fn print_row<W: Write>(to: &mut W, row: &[u32]) -> io::Result<()>
    requires { width ≤ length row.now }
{
    to.write_all(&row_heading(row[0], row[dataset::VR]))?;
    writeln!(
        to,
        " {} {} {} {} {}",
        row[dataset::DEPTH],
        row[dataset::OFFSET],
        row[dataset::SIZE],
        row[dataset::DESCENDANTS],
        row[dataset::PARENT],
    )
}

fn print_rows<W: Write>(to: &mut W, rows: &[u32], n: usize) -> io::Result<()>
    requires { width * n ≤ length rows.now }
{
    writeln!(to, "rows {n}")?;
    for row in rows.chunks_exact(dataset::WIDTH).take(n) {
        print_row(to, row)?;
    }
    Ok(())
}

// Why a data set was not read, in a line.
pub fn print_error<W: Write>(to: &mut W, error: ReadError) -> io::Result<()>
    ensures { OnOk result (Appends (W.contents to.old) (W.contents to.new) (error_line error)) }
{
    match error {
        ReadError::Refused(refusal) => print_unread(to, refusal.fault.code(), refusal.offset),
        ReadError::TooLarge => print_code(to, 7),
        ReadError::NoRoom => print_code(to, 8),
    }
}

fn print_answer<W: Write>(
    to: &mut W,
    answer: Result<usize, ReadError>,
    rows: &[u32],
) -> io::Result<()>
    requires { RowsHeld answer rows.now }
{
    match answer {
        Ok(n) => print_rows(to, rows, n),
        Err(error) => print_error(to, error),
    }
}

// Reads a data set into a buffer with room for seven numbers for each 8 bytes of it, so the rows fit.
fn read_roomy(bytes: &[u8], rows: &mut [u32]) -> Result<usize, ReadError>
    requires { width * length bytes.now ≤ 8 * length rows.old }
    ensures value { result ≡ answer_of (reading_of bytes.now) rows.old }
    ensures rows_after { rows.new ≡ buffer_of (reading_of bytes.now) rows.old }
    ensures rows_held { RowsHeld result rows.new }
    ensures roomy { Roomy result }
{
    dataset::read(bytes, rows)
}

// Prints the reading of a data set of at most `room::MOST` bytes; for more, that it is too long.
pub fn print_reading<W: Write>(to: &mut W, bytes: &[u8]) -> io::Result<()> {
    if room::MOST < bytes.len() {
        return room::print_too_long(to, room::MOST);
    }
    let mut rows = row_buffer();
    print_answer(to, read_roomy(bytes, &mut rows), &rows)
}
