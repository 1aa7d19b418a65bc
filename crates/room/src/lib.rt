// Buffers for what a program reads from standard input, and for its rows; reading into one; and the line for an input that is too long.
// Separate functions make the buffers and state their lengths, so that no proof computes lengths from the arrays.
#![tactic(auto)]

ghost use Rattle.std.specs.Prelude.{◌≡◌, ◌<◌, ◌++◌, IfOk, OnOk, codes, length, take};
ghost use Rattle.std.specs.Io.{ReadsAtMost};
ghost use Rattle.std.specs.Io.KnownBytes.{Appends, Consumes, IsAtEnd};
ghost use Rattle.std.specs.Fmt.{decimal};

use std::io;
use std::io::{Read, Write};

// The most bytes that a program takes.
pub const MOST: usize = 65_536;

// One byte more than is taken, to detect an input that is too long.
const INPUT: usize = MOST + 1;

// The numbers of the rows of that many bytes: a row has seven numbers and takes at least 8 bytes of a data set.
const ROW_NUMBERS: usize = 7 * MOST / 8;

// A buffer for the bytes of the input.
pub fn input() -> [u8; INPUT]
    ensures { 65537 ≡ length result }
{
    [0; INPUT]
}

// A buffer for the rows of a data set.
pub fn row_buffer() -> [u32; ROW_NUMBERS]
    ensures { 57344 ≡ length result }
{
    [0; ROW_NUMBERS]
}

// A buffer for as many bytes as a program takes.
pub fn large_buffer() -> [u8; MOST]
    ensures { 65536 ≡ length result }
{
    [0; MOST]
}

// Reads until the buffer is full or the input ends, and returns how many bytes it put at the buffer's start. A read that fails ends it
// with that error. The bytes are the next ones of the reader, and only where it has no more are they fewer than the buffer takes.
pub fn read_full<R: Read>(from: &mut R, buffer: &mut [u8]) -> io::Result<usize>
    ensures within { ReadsAtMost result buffer.new }
    ensures bytes { IfOk result (λ n. Consumes (R.remaining from.old) (R.remaining from.new) (take n buffer.new)) }
    ensures all { IfOk result (λ n. n < length buffer.new → IsAtEnd (R.remaining from.new)) }
{
    // std's `read_to_end` would need a heap, and `read_exact` an input as long as the buffer.
    let mut done = 0;
    while done < buffer.len() {
        let n = from.read(&mut buffer[done..])?;
        if n == 0 {
            break;
        }
        done += n;
    }
    Ok(done)
}

// Says that the input has more bytes than are taken.
pub fn print_too_long<W: Write>(to: &mut W, most: usize) -> io::Result<()>
    ensures { OnOk result (Appends (W.contents to.old) (W.contents to.new) (codes "too long: at most " ++ (decimal most ++ codes " bytes\n"))) }
{
    writeln!(to, "too long: at most {most} bytes")
}
