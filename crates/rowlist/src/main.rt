// Prints the rows of the data set on standard input, or the refusal.
#![tactic(auto)]

use room::input;
use std::io;

fn main(rt: HostRuntime) -> io::Result<()> {
    let mut bytes = input();
    let n = room::read_full(&mut rt.stdin(), &mut bytes)?;
    let mut to = rt.stdout();
    rowprint::print_reading(&mut to, &bytes[..n])
}
