// Prints the slip on standard input: a line of numbers, then what it means in words.
#![tactic(auto)]

use printing::print_field;
use std::io;
use std::io::Write;
use verdict::Verdict;

// Ends the line of numbers.
fn print_rows<W: Write>(to: &mut W, rows: Option<usize>) -> io::Result<()> {
    match rows {
        Some(n) => print_field(to, b" rows", n)?,
        None => write!(to, " rows not known")?,
    }
    writeln!(to)
}

fn print_breach<W: Write>(to: &mut W, v: Verdict) -> io::Result<()> {
    write!(to, "code {} rule {} frame {}", v.code, v.rule, v.frame)?;
    print_rows(to, v.rows)?;
    print_field(to, b"a rule is broken: rule", v.rule)?;
    if 0 < v.frame {
        print_field(to, b" at frame", v.frame)?;
    }
    writeln!(to)
}

fn print_unread<W: Write>(to: &mut W, v: Verdict) -> io::Result<()> {
    write!(to, "code {} place {}", v.code, v.offset)?;
    print_rows(to, v.rows)?;
    writeln!(
        to,
        "the data set could not be read: code {} at byte {}",
        v.code, v.offset,
    )
}

fn print_alone<W: Write>(to: &mut W, v: Verdict) -> io::Result<()> {
    print_field(to, b"code", v.code)?;
    print_rows(to, v.rows)?;
    let meaning = match v.code {
        0 => "accepted",
        7 => "the data set is too large",
        _ => "too little room for the rows",
    };
    writeln!(to, "{meaning}")
}

fn print_verdict<W: Write>(to: &mut W, v: Verdict) -> io::Result<()> {
    match v.code {
        0 | 7 | 8 => print_alone(to, v),
        9 => print_breach(to, v),
        _ => print_unread(to, v),
    }
}

fn print_refusal<W: Write>(to: &mut W, code: usize) -> io::Result<()> {
    let reason = match code {
        12 => "not a slip: wrong length or mark",
        13 => "unknown slip version",
        _ => "impossible fields",
    };
    writeln!(to, "refused: code {code}\n{reason}")
}

fn main(rt: HostRuntime) -> io::Result<()> {
    // A slip has at most 17 bytes; the rest of the array serves to detect a longer input.
    let mut buffer = [0u8; 64];
    let n = room::read_full(&mut rt.stdin(), &mut buffer)?;
    let mut to = rt.stdout();
    match slip::read_slip(&buffer[..n]) {
        Ok(v) => print_verdict(&mut to, v),
        Err(error) => print_refusal(&mut to, error.code().into()),
    }
}
