// Small cases one after the other, for the programs that run them: each is its size, in two bytes with the lower one first, and then
// its bytes.
#![tactic(auto)]

ghost use Rattle.std.specs.Prelude.{◌≤◌, ◌<◌, IfSome, OnOk, codes, length};
ghost use Rattle.std.specs.Io.KnownBytes.{Appends, Keeps};

use basics::u16_at;
use std::io;
use std::io::Write;

// Where the bytes of a case start and end. A struct of its own, since std's `Range` is not `Copy`.
#[derive(Clone, Copy)]
pub struct Case {
    pub start: usize,
    pub end: usize,
}

// Where the bytes of the case at a place are, if a whole one is there.
pub fn case_at(cases: &[u8], at: usize) -> Option<Case>
    requires { at ≤ length cases.now }
    ensures { IfSome result (λ case. (at < case.start) × ((case.start ≤ case.end) × (case.end ≤ length cases.now))) }
{
    if cases.len() - at < 2 {
        return None;
    }
    let start = at + 2;
    let size = u16_at(cases, at);
    if cases.len() - start < size {
        return None;
    }
    Some(Case {
        start,
        end: start + size,
    })
}

// Says so where bytes are left after the last whole case.
pub fn print_rest<W: Write>(to: &mut W, cases: &[u8], at: usize) -> io::Result<()>
    ensures rest { at < length cases.now → OnOk result (Appends (W.contents to.old) (W.contents to.new) (codes "the last case is cut short\n")) }
    ensures no_rest { length cases.now ≤ at → OnOk result (Keeps (W.contents to.old) (W.contents to.new)) }
{
    if at < cases.len() {
        writeln!(to, "the last case is cut short")?;
    }
    Ok(())
}
