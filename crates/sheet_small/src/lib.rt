// The sheet of all frames of a data set of at most 65,536 bytes with its own row buffer, for the program that samples.
#![tactic(auto)]

ghost use Rattle.std.specs.Prelude.{◌≡◌, ◌≤◌, length};
ghost use Rattle.sheet.specs.Answer.{fields_of};
ghost use Rattle.sheet_small.specs.Printed.{whole_sheet};

use room::row_buffer;
use sheet::Sampled;

// The sheet of frames 1 to N. It is never refused with code 8, and has 256 counts.
pub fn sheet_small(bytes: &[u8]) -> Sampled
    requires { length bytes.now ≤ 65536 }
    ensures value { result ≡ whole_sheet bytes.now }
    ensures fact { (fields_of result.answer).code ≡ 8 → ⊥ }
    ensures counts_len { length result.sheet.counts ≡ 256 }
{
    let mut rows = row_buffer();
    sheet::whole(bytes, &mut rows)
}
