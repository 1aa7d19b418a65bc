// The square root derivation of source document 002, 14 bits to 8, scaled so that p stands for p × p / 4.
#![tactic(auto)]

ghost use Rattle.std.specs.Prelude.{◌≡◌};
ghost use Rattle.squareroot.specs.SquareRoot.{root_level, root_entry};

// The entry of a level, worked out each time.
pub fn entry(p: u8) -> u16
    ensures { result ≡ root_entry p }
{
    let n = usize::from(p);
    ((n * n + 3) / 4) as u16
}

// The largest p with p × p ≤ 4v, for the lowest 14 bits v of the cell: low × low ≤ 4v < high × high, halved eight times.
pub fn level(v: usize) -> usize
    ensures { result ≡ root_level v }
{
    let t = 4 * (v % 16_384);
    let mut low: usize = 0;
    let mut high: usize = 256;
    while low + 1 < high {
        let middle = (low + high) / 2;
        if middle * middle <= t {
            low = middle;
        } else {
            high = middle;
        }
    }
    low
}
