// Comparing with a frame of a data set of at most 65,536 bytes with its own row buffer, for the program that compares.
#![tactic(auto)]

ghost use Rattle.std.specs.Prelude.{◌≡◌, ◌≤◌, length};
ghost use Rattle.compare_small.specs.Internal.{roomy_compare};

use compare::{CompareError, Comparison};
use room::row_buffer;

// What `compare` answers; never code 8.
pub fn compare_small(
    bytes: &[u8],
    frame: u64,
    cells: &[u8],
    tolerance: u64,
) -> Result<Comparison, CompareError>
    requires { length bytes.now ≤ 65536 }
    ensures { result ≡ roomy_compare bytes.now frame cells.now tolerance }
{
    let mut rows = row_buffer();
    compare::compare(bytes, frame, cells, tolerance, &mut rows)
}
