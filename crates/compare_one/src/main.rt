// Compares another workstation's picture with one frame of a data set. Its arguments are the frame's number, the tolerance and the length
// of the data set; standard input has the data set and, after that many bytes, the cells, one byte each. It prints yes; or no with the
// first cell that is off and how many are off; or the refusal, in a line.
#![tactic(auto)]

use argument::{DIGITS, read_decimal};
use compare::{CompareError, Comparison};
use conformance::NotAccepted;
use printing::{print_broken, print_code};
use rowprint::print_error;
use std::env::{Env, FillError};
use std::io;
use std::io::{Read, Write};

// The most bytes of data set and cells together: no frame of such a data set has more cells than it has bytes.
const MOST_INPUT: usize = 131_072;

fn print_no<W: Write>(to: &mut W, first: usize, count: usize) -> io::Result<()> {
    writeln!(to, "no first {first} count {count}")
}

fn print_answer<W: Write>(to: &mut W, answer: Result<Comparison, CompareError>) -> io::Result<()> {
    match answer {
        Ok(Comparison::Same(_)) => writeln!(to, "yes"),
        Ok(Comparison::Differs(_, first, count)) => print_no(to, first, count),
        Err(CompareError::Refused(NotAccepted::Broken(rows, rule, frame))) => {
            print_broken(to, rows, rule, frame)
        }
        Err(CompareError::Refused(NotAccepted::Unread(error))) => print_error(to, error),
        Err(CompareError::NoFrame) => print_code(to, 10),
        Err(CompareError::WrongSize) => print_code(to, 22),
        Err(CompareError::WrongTolerance) => print_code(to, 23),
    }
}

// Splits the input at the data set's end.
fn compare_input<W: Write>(
    to: &mut W,
    input: &[u8],
    frame: u64,
    tolerance: u64,
    size: usize,
) -> io::Result<()> {
    if room::MOST < size {
        return writeln!(to, "too long: a data set of at most {} bytes", room::MOST);
    }
    if input.len() < size {
        return writeln!(to, "length: the input is shorter");
    }
    let (bytes, cells) = input.split_at(size);
    print_answer(
        to,
        compare_small::compare_small(bytes, frame, cells, tolerance),
    )
}

fn read_input<R: Read, W: Write>(
    from: &mut R,
    to: &mut W,
    frame: u64,
    tolerance: u64,
    size: u64,
) -> io::Result<()> {
    // One byte more than is taken, to detect an input that is too long.
    let mut bytes = [0; MOST_INPUT + 1];
    let n = room::read_full(from, &mut bytes)?;
    if MOST_INPUT < n {
        return room::print_too_long(to, MOST_INPUT);
    }
    compare_input(to, &bytes[..n], frame, tolerance, size as usize)
}

// Whether there is a k-th argument, however long, as in `argument`.
fn is_present(rt: &impl Env, k: usize) -> bool {
    let mut text = [0u8; DIGITS];
    !matches!(rt.arg(k, &mut text), Err(FillError::NotPresent))
}

// The k-th argument, if it is a number.
fn number(rt: &impl Env, k: usize) -> Option<u64> {
    let mut text = [0u8; DIGITS];
    let n = rt.arg(k, &mut text).ok()?;
    read_decimal(&text[..n]).ok()
}

fn wanted<W: Write>(to: &mut W) -> io::Result<()> {
    writeln!(
        to,
        "frame, tolerance and length of the data set: three numbers up to {} are wanted",
        u64::MAX,
    )
}

fn main(rt: HostRuntime) -> io::Result<()> {
    let mut to = rt.stdout();
    if !is_present(&rt, 3) || is_present(&rt, 4) {
        return wanted(&mut to);
    }
    let (Some(frame), Some(tolerance), Some(size)) = (
        number(&rt, 1),
        number(&rt, 2),
        number(&rt, 3),
    ) else {
        return wanted(&mut to);
    };
    read_input(&mut rt.stdin(), &mut to, frame, tolerance, size)
}
