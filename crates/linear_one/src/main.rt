// Maps one frame of the data set on standard input back to beam intensity. Its one argument is the frame's number. It writes
// the numbers to standard output as a PGM image of 16 bits, the high byte first; or the refusal, in a line.
#![tactic(auto)]

ghost use Rattle.std.specs.Prelude.{◌*◌, ◌≤◌, length};

use conformance::NotAccepted;
use linear::LinearError;
use linear_small::Mapped;
use printing::{print_broken, print_code};
use room::input;
use rowprint::print_error;
use show_small::Sides;
use std::io;
use std::io::{Read, Write};

// The head of the image says its kind, its size, and the highest number.
fn print_image<W: Write>(to: &mut W, sides: Sides, values: &[u16]) -> io::Result<()>
    requires { sides.height * sides.width ≤ length values.now }
{
    let width = sides.width;
    let height = sides.height;
    writeln!(to, "P5\n{width} {height}\n65535")?;
    for value in &values[..height * width] {
        to.write_all(&value.to_be_bytes())?;
    }
    Ok(())
}

fn print_mapped<W: Write>(to: &mut W, mapped: Mapped, values: &[u16]) -> io::Result<()>
    requires { mapped.sides.height * mapped.sides.width ≤ length values.now }
{
    let answer = mapped.answer;
    let sides = mapped.sides;
    match answer {
        Ok(_) => print_image(to, sides, values),
        Err(LinearError::Refused(NotAccepted::Broken(rows, rule, frame))) => {
            print_broken(to, rows, rule, frame)
        }
        Err(LinearError::Refused(NotAccepted::Unread(error))) => print_error(to, error),
        Err(LinearError::NoFrame) => print_code(to, 10),
        Err(LinearError::NoItem) => print_code(to, 20),
        Err(LinearError::NoValuesRoom) => print_code(to, 11),
    }
}

fn map_frame<W: Write>(to: &mut W, bytes: &[u8], frame: u64) -> io::Result<()>
    requires { length bytes.now ≤ 65536 }
{
    // A number for each cell: an accepted object has at least as many bytes of pixel data.
    let mut values = [0; room::MOST];
    let mapped = linear_small::linear_small(bytes, frame, &mut values);
    print_mapped(to, mapped, &values)
}

// Reads the data set.
fn map_input<R: Read, W: Write>(from: &mut R, to: &mut W, frame: u64) -> io::Result<()> {
    let mut bytes = input();
    let n = room::read_full(from, &mut bytes)?;
    if room::MOST < n {
        return room::print_too_long(to, room::MOST);
    }
    map_frame(to, &bytes[..n], frame)
}

fn main(rt: HostRuntime) -> io::Result<()> {
    let mut to = rt.stdout();
    let Some(frame) = argument::read_frame(&rt, &mut to)? else {
        return Ok(());
    };
    map_input(&mut rt.stdin(), &mut to, frame)
}
