// Drawing a frame of a data set of at most 65,536 bytes with its own row buffer, for the programs that draw.
#![tactic(auto)]

ghost use Rattle.std.specs.Prelude.{◌≡◌, ◌*◌, ◌≤◌, length};
ghost use Rattle.node.specs.Nodes.{nodes_of};
ghost use Rattle.show_small.specs.Shown.{sides_of, show_printed, image_printed};

use basics::tags;
use display::{Drawn, ShowError};
use node::DataSet;
use room::row_buffer;

// The sides of a frame: its Columns and Rows.
#[derive(Clone, Copy, Default)]
pub struct Sides {
    pub width: usize,
    pub height: usize,
}

// The answer of `show`, and the sides of the image; 0 and 0 if no frame was drawn.
#[derive(Clone, Copy)]
pub struct Shown {
    pub answer: Result<Drawn, ShowError>,
    pub sides: Sides,
}

// The sides of a frame, from the rows.
pub fn sides_of(set: &DataSet) -> Sides
    ensures { result ≡ sides_of (nodes_of set.now) }
{
    let width = element::us_root(set, tags::COLUMNS).unwrap_or(0);
    let height = element::us_root(set, tags::ROWS).unwrap_or(0);
    Sides { width, height }
}

// What `show` answers and draws; never code 8. That the image has room for what was drawn follows from the first clause, and
// is stated for the callers that print it.
#[tactic(auto, using(crate::proofs::Roomy::showing))]
pub fn show_small(bytes: &[u8], frame: u64, image: &mut [u8]) -> Shown
    requires { length bytes.now ≤ 65536 }
    ensures value { result ≡ show_printed bytes.now frame image.old }
    ensures image_after { image.new ≡ image_printed bytes.now frame image.old }
    ensures width_in_bounds { result.sides.height * result.sides.width ≤ length image.old }
{
    let mut rows = row_buffer();
    let answer = display::show(bytes, frame, &mut rows, image);
    let Ok(drawn) = answer else {
        return Shown {
            answer,
            sides: Sides::default(),
        };
    };
    let set = DataSet::new(bytes, &rows[..dataset::WIDTH * drawn.rows]);
    Shown {
        answer,
        sides: sides_of(&set),
    }
}
