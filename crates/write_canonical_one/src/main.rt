// Writes the canonical form of the data set on standard input to standard output. A refusal goes to standard error, and so does the
// message that the input is too long.
#![tactic(auto)]

ghost use Rattle.std.specs.Prelude.{◌≡◌, ◌*◌, ◌≤◌, length};
ghost use Rattle.dataset.specs.Answer.{width};
ghost use Rattle.canonical.specs.Answer.{canonical_of, target_of};
ghost use Rattle.write_canonical_one.specs.Internal.{Held, Roomy};

use canonical::{CanonicalError, Written};
use dataset::ReadError;
use printing::{print_code, print_unread};
use room::{input, large_buffer, row_buffer};
use std::io;
use std::io::Write;

// Writes the canonical form, with room for seven numbers for each 8 bytes and a target as long as the data set: both suffice.
fn write_roomy(bytes: &[u8], rows: &mut [u32], target: &mut [u8]) -> Result<Written, CanonicalError>
    requires { (width * length bytes.now ≤ 8 * length rows.old) × (length bytes.now ≤ length target.old) }
    ensures value { result ≡ canonical_of bytes.now rows.old target.old }
    ensures target_after { target.new ≡ target_of bytes.now rows.old target.old }
    ensures held { Held result target.new }
    ensures roomy { Roomy result }
{
    canonical::write_canonical(bytes, rows, target)
}

fn print_answer<W: Write, E: Write>(
    to: &mut W,
    errors: &mut E,
    answer: Result<Written, CanonicalError>,
    target: &[u8],
) -> io::Result<()>
    requires { Held answer target.now }
{
    match answer {
        Ok(written) => to.write_all(&target[..written.bytes]),
        Err(CanonicalError::Unread(ReadError::Refused(refusal))) => {
            print_unread(errors, refusal.fault.code(), refusal.offset)
        }
        Err(CanonicalError::Unread(ReadError::TooLarge)) => print_code(errors, 7),
        Err(CanonicalError::Unread(ReadError::NoRoom)) => print_code(errors, 8),
        Err(CanonicalError::NoTargetRoom(_)) => print_code(errors, 21),
    }
}

fn write_form<W: Write, E: Write>(to: &mut W, errors: &mut E, bytes: &[u8]) -> io::Result<()>
    requires { length bytes.now ≤ 65536 }
{
    let mut rows = row_buffer();
    let mut target = large_buffer();
    let answer = write_roomy(bytes, &mut rows, &mut target);
    print_answer(to, errors, answer, &target)
}

fn main(rt: HostRuntime) -> io::Result<()> {
    let mut bytes = input();
    let n = room::read_full(&mut rt.stdin(), &mut bytes)?;
    let mut to = rt.stdout();
    let mut errors = rt.stderr();
    if room::MOST < n {
        errors.write_all(b"too long: at most 65536 bytes\n")?;
        return Ok(());
    }
    write_form(&mut to, &mut errors, &bytes[..n])
}
