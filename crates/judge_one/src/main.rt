// Judges the data set on standard input: prints whether it is accepted, the numbers of the answer, and for a broken rule the frame's item
// and row, and what the rule asks.
#![tactic(auto)]

mod sentence;

use conformance::Outcome;
use dataset::ReadError;
use judge_small::Located;
use room::input;
use std::io;
use std::io::Write;

fn print_accepted<W: Write>(to: &mut W, rows: usize) -> io::Result<()> {
    writeln!(to, "accepted\ncode 0 rows {rows}")
}

// The frame's item in the data set and its row are left out if the rule does not concern a single frame.
fn print_broken<W: Write>(
    to: &mut W,
    rows: usize,
    rule: usize,
    frame: usize,
    row: usize,
) -> io::Result<()> {
    write!(to, "refused\ncode 9 rule {rule} frame {frame} rows {rows}")?;
    if row != 0 {
        write!(to, ", item {frame} of (5200,9230), row {row}")?;
    }
    writeln!(to)?;
    sentence::print_sentence(to, rule)
}

fn print_unread<W: Write>(to: &mut W, error: ReadError) -> io::Result<()> {
    writeln!(to, "refused")?;
    rowprint::print_error(to, error)
}

fn print_answer<W: Write>(to: &mut W, located: Located) -> io::Result<()> {
    let answer = located.answer;
    match answer {
        Ok(Outcome::Accepted(rows)) => print_accepted(to, rows),
        Ok(Outcome::Broken(rows, rule, frame)) => print_broken(to, rows, rule, frame, located.row),
        Err(error) => print_unread(to, error),
    }
}

fn main(rt: HostRuntime) -> io::Result<()> {
    let mut bytes = input();
    let n = room::read_full(&mut rt.stdin(), &mut bytes)?;
    let mut to = rt.stdout();
    if room::MOST < n {
        return room::print_too_long(&mut to, room::MOST);
    }
    print_answer(&mut to, judge_small::judge_located(&bytes[..n]))
}
