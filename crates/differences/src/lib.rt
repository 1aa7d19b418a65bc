// A line of our picture against another workstation's cells: which are off, how many, and the first of them.
#![tactic(auto)]

ghost use Rattle.std.specs.Prelude.{◌≡◌, not, ◌+◌, ◌≤◌, ◌<◌, length, get_or};
ghost use Rattle.differences.specs.Differences.{within};
ghost use Rattle.differences.specs.Internal.{seen, along, none_off, LineOf};

// How many cells were off so far, and the first of them; 0 where none was.
#[derive(Clone, Copy)]
pub struct Differing {
    pub first: usize,
    pub count: usize,
}

// Nothing off yet.
pub fn none_off() -> Differing
    ensures { result ≡ none_off }
{
    Differing { first: 0, count: 0 }
}

// Two levels are not within the tolerance of each other.
fn is_off(ours: usize, theirs: usize, tolerance: usize) -> bool
    requires { (ours < 256) × ((theirs < 256) × (tolerance ≤ 255)) }
    ensures { result ≡ not (within tolerance ours theirs) }
{
    theirs + tolerance < ours || ours + tolerance < theirs
}

// One more cell, at a place.
#[tactic(auto, unfolding(crate::specs::Internal::seen))]
fn look(off: bool, place: usize, sofar: Differing) -> Differing
    requires { (sofar.count ≤ place) × (place < 18446744073709551615) }
    ensures { result ≡ seen off place sofar }
{
    if !off {
        return sofar;
    }
    Differing {
        first: if sofar.count == 0 { place } else { sofar.first },
        count: sofar.count + 1,
    }
}

// A line of ours against the cells from place `at` on.
pub fn compare_line(
    line: &[u8],
    cells: &[u8],
    at: usize,
    tolerance: usize,
    sofar: Differing,
) -> Differing
    requires { LineOf line.now cells.now at tolerance sofar }
    ensures { result
        ≡ along (λ k. not (within tolerance (get_or line.now k 0) (get_or cells.now (at + k) 0))) at
        (length line.now) sofar }
{
    let mut found = sofar;
    for k in 0..line.len() {
        let place = at + k;
        let off = is_off(usize::from(line[k]), usize::from(cells[place]), tolerance);
        found = look(off, place, found);
    }
    found
}
