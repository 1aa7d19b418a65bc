// Steps 2 to 4 for all frames of an object at once: which mask item applies to each frame, and what each mask item says for all frames:
// its operation, and which item of the shared shift group names it. Each is worked out once, in time proportional to the frames, the
// pairs of the ranges, the items of the group and the bytes of the operations.
#![tactic(auto)]

ghost use Rattle.std.specs.Prelude.{◌≡◌, [], ◌+◌, ◌%◌, ◌≤◌, ◌<◌, leb, length, get_or, Option, Some};
ghost use Rattle.value.specs.Number.{us_values};
ghost use Rattle.node.specs.Nodes.{nodes_of, members};
ghost use Rattle.steps.specs.Internal.{IsTold};
ghost use Rattle.steps.specs.Steps.{is_in_pairs, range_holds, range_has};
ghost use Rattle.ranges.specs.Internal.{taken_by, item_of, Cleared, Marked, Covered, CoveredBy};
ghost use Rattle.ranges.specs.Internal.{CoveredAll, Tried, AllFound, LeftToFind, Answering, Applied, MarkRooms, Known};

use basics::{MOST_MASKS, tags};
use node::DataSet;
use steps::Told;

// The largest frame number.
const LAST_FRAME: u32 = basics::LAST_FRAME as u32;

// ---- Which mask item applies

fn clear(count: usize, cells: &mut [u32])
    requires { count ≤ length cells.old }
    ensures { Cleared count cells.new }
{
    cells[..count].fill(0);
}

// Marks at the first frame of each pair how far the pairs from it reach.
fn mark(v: &[u8], reach: &mut [u32])
    requires { (length v.now % 4 ≡ 0) × (65536 ≤ length reach.old) }
    ensures { Marked (us_values v.now) reach.old reach.new }
{
    let pairs = v.len() / 4;
    for k in 0..pairs {
        let first = value::us_value(v, 2 * k);
        let last = value::us_value(v, 2 * k + 1);
        reach[first] = reach[first].max(last as u32);
    }
}

// Takes a frame that no mask item has taken and that a pair reaches.
#[tactic(auto, unfolding(crate::specs::Internal::taken_by))]
fn taken(old: u32, frame: usize, far: u32, item: u32) -> u32
    ensures { result ≡ taken_by old (leb frame far) item }
{
    if old == 0 && frame <= far as usize {
        item
    } else {
        old
    }
}

// Goes along frames 1 to n with how far the pairs so far reach, and takes the frames that they hold. The two tables stay parameters here and
// below: each step lends them on, and a struct of two `&mut` slices would state in every contract what becomes of them.
fn cover(n: usize, item: u32, reach: &[u32], which: &mut [u32])
    requires { MarkRooms n reach.now which.old }
    ensures { Covered n item reach.now which.old which.new }
{
    let mut far = reach[0];
    for frame in 1..n + 1 {
        far = far.max(reach[frame]);
        which[frame] = taken(which[frame], frame, far, item);
    }
}

// Takes the frames that the pairs of a range hold.
fn cover_pairs(v: &[u8], n: usize, item: u32, reach: &mut [u32], which: &mut [u32])
    requires { (length v.now % 4 ≡ 0) × MarkRooms n reach.old which.old }
    ensures { CoveredBy (λ f. is_in_pairs f (us_values v.now)) n item which.old which.new }
{
    clear(n + 1, reach);
    mark(v, reach);
    cover(n, item, reach, which);
}

// Takes every frame.
fn cover_all(n: usize, item: u32, reach: &mut [u32], which: &mut [u32])
    requires { MarkRooms n reach.old which.old }
    ensures { CoveredAll n item which.old which.new }
{
    reach[0] = LAST_FRAME;
    cover(n, item, reach, which);
}

// Takes the frames that the range at node i holds. A range that cannot be read, which no accepted object has, holds no frame.
fn cover_range(set: &DataSet, i: usize, n: usize, item: u32, reach: &mut [u32], which: &mut [u32])
    requires { (i < length (nodes_of set.now)) × MarkRooms n reach.old which.old }
    ensures { Tried (λ f. range_has (nodes_of set.now) f (Some i)) n item which.old which.new }
{
    if element::has_pairs(set, i) {
        cover_pairs(set.value(i), n, item, reach, which);
    }
}

// Takes the frames that the range of mask item j holds.
fn cover_item(set: &DataSet, j: usize, n: usize, reach: &mut [u32], which: &mut [u32])
    requires { (j < length (nodes_of set.now)) × MarkRooms n reach.old which.old }
    ensures { Tried (λ f. range_holds (nodes_of set.now) f j) n (j + 1) which.old which.new }
{
    let item = (j + 1) as u32;
    match set.find_in_item(j, tags::APPLICABLE_FRAME_RANGE) {
        None => {
            cover_all(n, item, reach, which);
        }
        Some(i) => {
            cover_range(set, i, n, item, reach, which);
        }
    }
}

// Tries the mask items from `from` up to `to`, one after the other.
fn cover_items(
    set: &DataSet,
    from: usize,
    to: usize,
    n: usize,
    reach: &mut [u32],
    which: &mut [u32],
)
    requires { (to ≤ length (nodes_of set.now))
        × (MarkRooms n reach.old which.old
        × (Cleared (n + 1) which.old × AllFound (nodes_of set.now) n (members (nodes_of set.now) from to))) }
    ensures { LeftToFind (nodes_of set.now) n (members (nodes_of set.now) from to) [] which.new }
{
    for item in set.members(from, to) {
        cover_item(set, item, n, reach, which);
    }
}

// Step 2 for frames 1 to n: at each frame one more than the node of the mask item that applies, or 0. `reach` is room for marks.
// A number stands for an `Option` here, since 65,536 of those would take twice the room, and callers have no heap.
pub fn apply_all(set: &DataSet, n: usize, reach: &mut [u32], which: &mut [u32])
    requires { MarkRooms n reach.old which.old × Answering (nodes_of set.now) n }
    ensures { Applied (nodes_of set.now) n which.new }
{
    let items = element::mask_items(set);
    clear(n + 1, which);
    cover_items(set, items.at, items.end, n, reach, which);
}

// The mask item that applies to a frame, or none.
pub fn applying_at(which: &[u32], frame: usize) -> Option<usize>
    requires { frame < length which.now }
    ensures { result ≡ item_of (get_or which.now frame 0) }
{
    basics::wider(which[frame]).checked_sub(1)
}

// ---- What each mask item says

// A mask item, and what it says for all frames.
#[derive(Clone, Copy)]
pub struct ToldItem {
    pub item: usize,
    pub told: Told,
}

// What each mask item says, as far as there is room.
pub fn tell_all(set: &DataSet) -> [Option<ToldItem>; MOST_MASKS]
    ensures { Known (nodes_of set.now) result }
{
    let items = element::mask_items(set);
    let mut known = [None; MOST_MASKS];
    let mut masks = set.members(items.at, items.end);
    for entry in &mut known {
        let Some(item) = masks.next() else {
            break;
        };
        let told = steps::told_by(set, item);
        *entry = Some(ToldItem { item, told });
    }
    known
}

// What mask item j says: as recorded, otherwise worked out.
pub fn told_of(set: &DataSet, j: usize, known: &[Option<ToldItem>]) -> Told
    requires { (j < length (nodes_of set.now)) × Known (nodes_of set.now) known.now }
    ensures { IsTold (nodes_of set.now) j result }
{
    for &entry in known {
        match entry {
            Some(e) if e.item == j => return e.told,
            _ => {}
        }
    }
    steps::told_by(set, j)
}
