// Prints what the drawing steps answer for each small case on standard input (crates/cases says what a case is). tests/make_steps_cases
// writes the cases, most of which are not accepted, and, by another program, the output that is expected.
#![tactic(auto)]

mod answers;
mod frames;

ghost use Rattle.std.specs.Prelude.{◌≡◌, length};

use cases::{case_at, print_rest};
use dataset::ReadError;
use node::DataSet;
use room::row_buffer;
use std::io;
use std::io::Write;

// All cases together.
fn input() -> [u8; 262_144]
    ensures { 262144 ≡ length result }
{
    [0; 262_144]
}

// A line for the data set, and one for each of the frames 0 to 4, some of which are in no data set.
fn print_steps<W: Write>(to: &mut W, set: &DataSet) -> io::Result<()> {
    let size = steps::geometry_of(set);
    let pixels = steps::pixel_element(set);
    answers::print_size(to, size)?;
    answers::print_inverse(to, steps::inverse_of(set))?;
    frames::print_pixels(to, set, pixels)?;
    for frame in 0..5 {
        frames::print_frame(to, set, size, pixels, frame)?;
    }
    Ok(())
}

fn print_case<W: Write>(to: &mut W, bytes: &[u8]) -> io::Result<()> {
    let mut rows = row_buffer();
    match dataset::read(bytes, &mut rows) {
        Ok(n) => {
            let set = DataSet::new(bytes, &rows[..dataset::WIDTH * n]);
            print_steps(to, &set)
        }
        Err(ReadError::Refused(_)) => to.write_all(b"unread\n"),
        Err(ReadError::TooLarge) => to.write_all(b"too large\n"),
        Err(ReadError::NoRoom) => to.write_all(b"no room\n"),
    }
}

fn print_cases<W: Write>(to: &mut W, cases: &[u8]) -> io::Result<()> {
    let mut at = 0;
    while let Some(case) = case_at(cases, at) {
        at = case.end;
        print_case(to, &cases[case.start..case.end])?;
    }
    print_rest(to, cases, at)
}

fn main(rt: HostRuntime) -> io::Result<()> {
    let mut bytes = input();
    let n = room::read_full(&mut rt.stdin(), &mut bytes)?;
    let mut to = rt.stdout();
    print_cases(&mut to, &bytes[..n])
}
