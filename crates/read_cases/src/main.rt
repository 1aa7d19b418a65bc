// Prints the reading of each small case on standard input (crates/cases says what a case is). tests/make_read_cases writes the cases and,
// by another program, the output that is expected.
#![tactic(auto)]

use cases::{case_at, print_rest};
use std::io;
use std::io::Write;

fn print_cases<W: Write>(to: &mut W, cases: &[u8]) -> io::Result<()> {
    let mut at = 0;
    while let Some(case) = case_at(cases, at) {
        at = case.end;
        rowprint::print_reading(to, &cases[case.start..case.end])?;
    }
    print_rest(to, cases, at)
}

fn main(rt: HostRuntime) -> io::Result<()> {
    let mut bytes = room::large_buffer();
    let n = room::read_full(&mut rt.stdin(), &mut bytes)?;
    let mut to = rt.stdout();
    print_cases(&mut to, &bytes[..n])
}
