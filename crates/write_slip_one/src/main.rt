// Writes the slip of the verdict on the data set on standard input to standard output: 17 bytes. For an input that is too long there is
// only a message on standard error.
#![tactic(auto)]

ghost use Rattle.std.specs.Prelude.{◌≡◌, true, ◌≤◌, length};
ghost use Rattle.verdict.specs.Verdict.{writable};
ghost use Rattle.slip.specs.Slip.{slip_of};
ghost use Rattle.conformance.specs.Judging.{verdict_of};
ghost use Rattle.judge_small.specs.Printed.{judge_printed};

use room::input;
use std::io;
use std::io::Write;
use verdict::Verdict;

fn slip_of(v: Verdict) -> [u8; 17]
    requires { writable v ≡ true }
    ensures { result ≡ slip_of v }
{
    let mut slip = [0u8; 17];
    // Never refused: such a verdict has a slip, and it fits.
    let _ = slip::write_slip(v, &mut slip);
    slip
}

// The slip of a data set's verdict.
fn slip_for(bytes: &[u8]) -> [u8; 17]
    requires { length bytes.now ≤ 65536 }
    ensures { result ≡ slip_of (verdict_of (judge_printed bytes.now)) }
{
    slip_of(conformance::verdict_of(judge_small::judge_small(bytes)))
}

fn main(rt: HostRuntime) -> io::Result<()> {
    let mut bytes = input();
    let n = room::read_full(&mut rt.stdin(), &mut bytes)?;
    if room::MOST < n {
        return room::print_too_long(&mut rt.stderr(), room::MOST);
    }
    rt.stdout().write_all(&slip_for(&bytes[..n]))
}
