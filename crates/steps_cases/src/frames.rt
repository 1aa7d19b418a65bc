// The steps of one frame, each asked separately, whatever the mask operation is. A step that is not asked is `-`.
ghost use Rattle.std.specs.Prelude.{◌≡◌, ◌≤◌, ◌<◌, length};
ghost use Rattle.value.specs.Internal.{Below};
ghost use Rattle.node.specs.Nodes.{nodes_of, members};
ghost use Rattle.element.specs.Frames.{frame_item};
ghost use Rattle.steps.specs.Steps.{applying_to};
ghost use Rattle.steps.specs.Internal.{FoundBelow, SizedSmall};

use crate::answers;
use basics::{tags, vrs};
use node::DataSet;
use pixel::Geometry;
use std::io;
use std::io::Write;
use steps::Operation;

// How many bytes of pixels there are.
pub fn print_pixels<W: Write>(to: &mut W, set: &DataSet, pixels: Option<usize>) -> io::Result<()>
    requires { Below (length (nodes_of set.now)) pixels }
{
    match pixels {
        Some(p) => {
            to.write_all(b" pixels")?;
            answers::print_number(to, set.value(p).len())?;
        }
        None => to.write_all(b" pixels lacks")?,
    }
    to.write_all(b"\n")
}

// Whether the whole frame lies inside the pixel bytes.
fn print_whole<W: Write>(
    to: &mut W,
    set: &DataSet,
    size: Option<Geometry>,
    pixels: Option<usize>,
    frame: usize,
) -> io::Result<()>
    requires { Below (length (nodes_of set.now)) pixels × (SizedSmall size × (frame < 5)) }
{
    let Some(g) = size else {
        to.write_all(b" -")?;
        return Ok(());
    };
    let Some(p) = pixels else {
        to.write_all(b" -")?;
        return Ok(());
    };
    if pixel::is_frame(g, set.value(p), frame) {
        to.write_all(b" whole")
    } else {
        to.write_all(b" part")
    }
}

// How many members there are from `from` up to `to`.
fn count_members(set: &DataSet, from: usize, to: usize) -> usize
    requires { to ≤ length (nodes_of set.now) }
    ensures { result ≡ length (members (nodes_of set.now) from to) }
{
    set.members(from, to).count()
}

fn print_operation<W: Write>(to: &mut W, operation: Option<Operation>) -> io::Result<()> {
    match operation {
        Some(Operation::Native) => to.write_all(b" NONE"),
        Some(Operation::Average) => to.write_all(b" AVG_SUB"),
        Some(Operation::Tid) => to.write_all(b" TID"),
        None => to.write_all(b" lacks"),
    }
}

fn print_numbers<W: Write>(to: &mut W, v: &[u8]) -> io::Result<()> {
    for k in 0..v.len() / 2 {
        answers::print_number(to, value::us_value(v, k))?;
    }
    Ok(())
}

// Step 3, AVG_SUB: the mask frames.
fn print_masks<W: Write>(to: &mut W, set: &DataSet, masks: Option<usize>) -> io::Result<()>
    requires { Below (length (nodes_of set.now)) masks }
{
    match masks {
        Some(k) => {
            to.write_all(b" masks")?;
            print_numbers(to, set.value(k))
        }
        None => to.write_all(b" masks lacks"),
    }
}

// Step 3, TID: the mask frame.
fn print_tid<W: Write>(to: &mut W, set: &DataSet, frame: usize, j: usize) -> io::Result<()>
    requires { (j < length (nodes_of set.now)) × (frame < 5) }
{
    let frames = element::frame_count(set);
    answers::print_tid(to, steps::tid_frame(set, frame, j, frames))
}

// Step 4. It is not asked for frame 0, which no data set has.
fn print_shift<W: Write>(
    to: &mut W,
    set: &DataSet,
    frame: usize,
    item: Option<usize>,
    j: usize,
) -> io::Result<()>
    requires { (j < length (nodes_of set.now))
        × ((item ≡ frame_item (nodes_of set.now) frame) × Below (length (nodes_of set.now)) item) }
{
    if frame == 0 {
        to.write_all(b" shift -")
    } else {
        answers::print_shift(to, steps::shift_for(set, frame, item, j))
    }
}

// Mask item j, which applies to the frame: its place among the mask items, its operation, and what steps 3 and 4 give.
fn print_item<W: Write>(
    to: &mut W,
    set: &DataSet,
    frame: usize,
    item: Option<usize>,
    j: usize,
) -> io::Result<()>
    requires { (j < length (nodes_of set.now))
        × ((item ≡ frame_item (nodes_of set.now) frame) × (Below (length (nodes_of set.now)) item × (frame < 5))) }
{
    let items = element::mask_items(set);
    to.write_all(b" item")?;
    answers::print_number(to, count_members(set, items.at, j) + 1)?;
    print_operation(to, steps::operation_of(set, j))?;
    print_masks(to, set, steps::average_element(set, j))?;
    print_tid(to, set, frame, j)?;
    print_shift(to, set, frame, item, j)
}

// Step 2 in any data set: it lacks something if the mask items are not a sequence, or if the search met a range that cannot be read.
#[tactic(auto, unfolding(steps::specs::Steps::applying_to))]
fn applying_to(set: &DataSet, frame: usize) -> Option<Option<usize>>
    ensures result_value { result ≡ applying_to (nodes_of set.now) frame }
    ensures found_below { FoundBelow (length (nodes_of set.now)) result }
{
    let Some(m) = set.find_root(tags::MASK_SUBTRACTION_SEQUENCE) else {
        return Some(None);
    };
    if set.vr(m) == vrs::SQ {
        let Some(j) = steps::first_holding(set, frame, m + 1, set.next(m)) else {
            return Some(None);
        };
        steps::range_holds(set, frame, j)?;
        Some(Some(j))
    } else {
        None
    }
}

// Steps 2 to 4.
fn print_mask<W: Write>(
    to: &mut W,
    set: &DataSet,
    frame: usize,
    item: Option<usize>,
) -> io::Result<()>
    requires { (item ≡ frame_item (nodes_of set.now) frame) × (Below (length (nodes_of set.now)) item × (frame < 5)) }
{
    match applying_to(set, frame) {
        Some(Some(j)) => print_item(to, set, frame, item, j),
        Some(None) => to.write_all(b" native"),
        None => to.write_all(b" lacks"),
    }
}

// Step 6, likewise. The library gives windows for at most 16 bits stored.
fn print_window<W: Write>(
    to: &mut W,
    set: &DataSet,
    size: Option<Geometry>,
    frame: usize,
    item: Option<usize>,
) -> io::Result<()>
    requires { SizedSmall size × ((item ≡ frame_item (nodes_of set.now) frame) × Below (length (nodes_of set.now)) item) }
{
    let Some(g) = size else {
        to.write_all(b" window -")?;
        return Ok(());
    };
    if frame == 0 || 16 < g.stored {
        to.write_all(b" window -")
    } else {
        answers::print_window(to, steps::window_for(set, frame, item, g.stored))
    }
}

pub fn print_frame<W: Write>(
    to: &mut W,
    set: &DataSet,
    size: Option<Geometry>,
    pixels: Option<usize>,
    frame: usize,
) -> io::Result<()>
    requires { Below (length (nodes_of set.now)) pixels × (SizedSmall size × (frame < 5)) }
{
    to.write_all(b"frame")?;
    answers::print_number(to, frame)?;
    print_whole(to, set, size, pixels, frame)?;
    let item = steps::item_at(set, frame);
    print_mask(to, set, frame, item)?;
    print_window(to, set, size, frame, item)?;
    to.write_all(b"\n")
}
