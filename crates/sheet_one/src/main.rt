// Prints the sampling sheet of all frames of the data set on standard input: 256 counts of how often each grey level was drawn, the
// number of native frames, the lowest and the highest level, and the sum of all levels, a number a line; or a refusal's code alone. More
// than 65,536 bytes are refused with code 7; code 8 never occurs.
#![tactic(auto)]

ghost use Rattle.std.specs.Prelude.{◌≡◌};
ghost use Rattle.sheet.specs.Answer.{fields_of};

use conformance::NotAccepted;
use dataset::ReadError;
use room::input;
use sheet::{Numbers, Sampled, SheetError};
use std::io;
use std::io::Write;

fn print_line<W: Write>(to: &mut W, n: u64) -> io::Result<()> {
    writeln!(to, "{n}")
}

fn print_numbers<W: Write>(to: &mut W, t: Numbers) -> io::Result<()> {
    for k in 0..sheet::NUMBERS {
        print_line(to, sheet::number_at(t, k))?;
    }
    Ok(())
}

fn print_sheet<W: Write>(to: &mut W, sampled: Sampled) -> io::Result<()>
    requires { (fields_of sampled.answer).code ≡ 8 → ⊥ }
{
    match sampled.answer {
        Ok(_) => print_numbers(to, sampled.sheet),
        Err(SheetError::Refused(NotAccepted::Broken(_, _, _))) => print_line(to, 9),
        Err(SheetError::Refused(NotAccepted::Unread(ReadError::Refused(refusal)))) => {
            print_line(to, refusal.fault.code() as u64)
        }
        Err(SheetError::Refused(NotAccepted::Unread(ReadError::TooLarge))) => print_line(to, 7),
        Err(SheetError::Refused(NotAccepted::Unread(ReadError::NoRoom))) => unreachable!(),
        Err(SheetError::WrongOrder) => print_line(to, 19),
        Err(SheetError::NoFrame) => print_line(to, 10),
    }
}

fn main(rt: HostRuntime) -> io::Result<()> {
    let mut bytes = input();
    let n = room::read_full(&mut rt.stdin(), &mut bytes)?;
    let mut to = rt.stdout();
    if room::MOST < n {
        return print_line(&mut to, 7);
    }
    print_sheet(&mut to, sheet_small::sheet_small(&bytes[..n]))
}
