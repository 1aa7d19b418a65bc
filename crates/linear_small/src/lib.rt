// Mapping a frame of a data set of at most 65,536 bytes with its own row buffer, for the program that maps.
#![tactic(auto)]

ghost use Rattle.std.specs.Prelude.{◌≡◌, ◌*◌, ◌≤◌, length};
ghost use Rattle.linear_small.specs.Mapped.{linear_printed, values_printed};

use linear::LinearError;
use node::DataSet;
use room::row_buffer;
use show_small::{Sides, sides_of};

// The answer of `linear`, and the sides of the frame; 0 and 0 if no frame was mapped.
#[derive(Clone, Copy)]
pub struct Mapped {
    pub answer: Result<usize, LinearError>,
    pub sides: Sides,
}

// What `linear` answers and maps; never code 8. That there is room for the numbers follows from the first clause, and is
// stated for the callers that print them.
#[tactic(auto, using(crate::proofs::Roomy::mapping))]
pub fn linear_small(bytes: &[u8], frame: u64, values: &mut [u16]) -> Mapped
    requires { length bytes.now ≤ 65536 }
    ensures value { result ≡ linear_printed bytes.now frame values.old }
    ensures values_after { values.new ≡ values_printed bytes.now frame values.old }
    ensures width_in_bounds { result.sides.height * result.sides.width ≤ length values.old }
{
    let mut rows = row_buffer();
    let answer = linear::linear(bytes, frame, &mut rows, values);
    let Ok(count) = answer else {
        return Mapped {
            answer,
            sides: Sides::default(),
        };
    };
    let set = DataSet::new(bytes, &rows[..dataset::WIDTH * count]);
    Mapped {
        answer,
        sides: sides_of(&set),
    }
}
