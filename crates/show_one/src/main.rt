// Draws one frame of the data set on standard input. Its one argument is the frame's number. It writes the image to standard output as a
// PGM, with a comment that says whether the frame is masked; or the refusal, in a line.
#![tactic(auto)]

ghost use Rattle.std.specs.Prelude.{◌*◌, ◌≤◌, length};

use conformance::NotAccepted;
use display::ShowError;
use printing::{print_broken, print_code};
use room::input;
use rowprint::print_error;
use show_small::{Shown, Sides};
use std::io;
use std::io::{Read, Write};

// The head of the image says its kind, masked or native, its size, and the highest level.
fn print_image<W: Write>(to: &mut W, masked: bool, sides: Sides, image: &[u8]) -> io::Result<()>
    requires { sides.height * sides.width ≤ length image.now }
{
    let kind = if masked { "masked" } else { "native" };
    let width = sides.width;
    let height = sides.height;
    writeln!(to, "P5\n# {kind}\n{width} {height}\n255")?;
    to.write_all(&image[..height * width])
}

fn print_shown<W: Write>(to: &mut W, shown: Shown, image: &[u8]) -> io::Result<()>
    requires { shown.sides.height * shown.sides.width ≤ length image.now }
{
    let answer = shown.answer;
    let sides = shown.sides;
    match answer {
        Ok(drawn) => print_image(to, drawn.masked, sides, image),
        Err(ShowError::Refused(NotAccepted::Broken(rows, rule, frame))) => {
            print_broken(to, rows, rule, frame)
        }
        Err(ShowError::Refused(NotAccepted::Unread(error))) => print_error(to, error),
        Err(ShowError::NoFrame) => print_code(to, 10),
        Err(ShowError::NoImageRoom) => print_code(to, 11),
    }
}

// The image buffer is large enough: an accepted object has at least as many bytes of pixel data.
fn show_frame<W: Write>(to: &mut W, bytes: &[u8], frame: u64) -> io::Result<()>
    requires { length bytes.now ≤ 65536 }
{
    let mut image = room::large_buffer();
    let shown = show_small::show_small(bytes, frame, &mut image);
    print_shown(to, shown, &image)
}

// Reads the data set.
fn show_input<R: Read, W: Write>(from: &mut R, to: &mut W, frame: u64) -> io::Result<()> {
    let mut bytes = input();
    let n = room::read_full(from, &mut bytes)?;
    if room::MOST < n {
        return room::print_too_long(to, room::MOST);
    }
    show_frame(to, &bytes[..n], frame)
}

fn main(rt: HostRuntime) -> io::Result<()> {
    let mut to = rt.stdout();
    let Some(frame) = argument::read_frame(&rt, &mut to)? else {
        return Ok(());
    };
    show_input(&mut rt.stdin(), &mut to, frame)
}
