// The drawing steps, up to what is needed before the samples are drawn. Each answer is what its step gives, or `None` if the step lacks
// something. Where a step may also give that there is none, as for an item that names an ID, the answer is an `Option` in an `Option`.
#![tactic(auto)]

ghost use Rattle.std.specs.Prelude.{◌≡◌, ◌/◌, ◌%◌, ◌≤◌, ◌<◌, cond, ◌&&◌, length, eqb, leb, Some, None};
ghost use Rattle.value.specs.Text.{ascii, value_of, is_single};
ghost use Rattle.value.specs.Words.{is_word, is_function};
ghost use Rattle.value.specs.Number.{us_values, ss_limit, is_number, decimal_of};
ghost use Rattle.value.specs.Internal.{Below, SizeBelow};
ghost use Rattle.node.specs.Nodes.{nodes_of, members, inside};
ghost use Rattle.basics.specs.Tags.{FramePixelShiftSequence};
ghost use Rattle.element.specs.Frames.{frames_of, frame_item};
ghost use Rattle.steps.specs.Given.{need, check, then};
ghost use Rattle.steps.specs.Steps.{or_shared, group_for, is_in_pairs, range_has, range_holds, first_holding, applying_to, average_frames};
ghost use Rattle.steps.specs.Steps.{offset_at, offset_of, tid_frame, naming, own_in, item_shift_at, shift_from, shift_for, geometry_of};
ghost use Rattle.steps.specs.Steps.{pixels_of, window_in, window_on, window_for, inverse_of};
ghost use Rattle.steps.specs.Internal.{if_read, FoundBelow, GivesItem, value_found, frames_in, SizedSmall, shared_naming, shared_window};
ghost use Rattle.steps.specs.Internal.{ItemOf, IsShared, operation_of, IsTold};

use basics::{tags, vrs};
use node::DataSet;
use pixel::Geometry;
use shift::Shift;
use value::{Function, Signed};
use window::Window;

// ---- Answers

// What a mask item does with the frames it applies to: nothing, subtract the average of its mask frames, or subtract one frame.
#[derive(Clone, Copy)]
pub enum Operation {
    Native,
    Average,
    Tid,
}

// What a mask item says, the same for all frames: its operation, and which item of the shared shift group names its ID, if one does.
// Either is `None` where a step lacks something.
#[derive(Clone, Copy)]
pub struct Told {
    pub operation: Option<Operation>,
    pub shared: Option<Option<usize>>,
}

// ---- Functional groups of a frame

// The node of item f of the per-frame functional groups.
pub fn item_at(set: &DataSet, frame: usize) -> Option<usize>
    ensures value { result ≡ frame_item (nodes_of set.now) frame }
    ensures below { Below (length (nodes_of set.now)) result }
{
    if frame < 1 {
        return None;
    }
    let items = element::frame_items(set);
    set.members(items.at, items.end).nth(frame - 1)
}

// The shared functional group of the tag.
fn shared_group(set: &DataSet, tag: usize) -> Option<Option<usize>>
    ensures result_value { result ≡ or_shared (nodes_of set.now) tag None }
    ensures found_below { FoundBelow (length (nodes_of set.now)) result }
{
    let s = element::shared_item(set)?;
    Some(set.find_in_item(s, tag))
}

// A frame's functional group of the tag: that in its item, otherwise the shared one. Here and below `frame` says whose item `item` is; the
// two are no struct, since only the data set tells that they belong together.
#[tactic(auto, unfolding(crate::specs::Steps::group_for))]
pub fn group_for(
    set: &DataSet,
    frame: usize,
    item: Option<usize>,
    tag: usize,
) -> Option<Option<usize>>
    requires { ItemOf (nodes_of set.now) frame item }
    ensures result_value { result ≡ group_for (nodes_of set.now) frame tag }
    ensures found_below { FoundBelow (length (nodes_of set.now)) result }
{
    let i = item?;
    match set.find_in_item(i, tag) {
        None => shared_group(set, tag),
        Some(g) => Some(Some(g)),
    }
}

// ---- Step 2: the mask item that applies

// Whether a frame is between a first and a last one.
fn is_in_pair(frame: usize, a: usize, b: usize) -> bool
    ensures { result ≡ (leb a frame && leb frame b) }
{
    a <= frame && frame <= b
}

fn is_in_pairs(v: &[u8], frame: usize) -> bool
    requires { length v.now % 4 ≡ 0 }
    ensures { result ≡ is_in_pairs frame (us_values v.now) }
{
    let pairs = v.len() / 4;
    for k in 0..pairs {
        let first = value::us_value(v, 2 * k);
        let last = value::us_value(v, 2 * k + 1);
        if is_in_pair(frame, first, last) {
            return true;
        }
    }
    false
}

// Whether the range at node i holds a frame.
fn range_at(set: &DataSet, frame: usize, i: usize) -> Option<bool>
    requires { i < length (nodes_of set.now) }
    ensures { result ≡ range_has (nodes_of set.now) frame (Some i) }
{
    if element::has_pairs(set, i) {
        Some(is_in_pairs(set.value(i), frame))
    } else {
        None
    }
}

// Whether the range of mask item j holds a frame.
#[tactic(auto, unfolding(crate::specs::Steps::range_holds))]
pub fn range_holds(set: &DataSet, frame: usize, j: usize) -> Option<bool>
    requires { j < length (nodes_of set.now) }
    ensures { result ≡ range_holds (nodes_of set.now) frame j }
{
    match set.find_in_item(j, tags::APPLICABLE_FRAME_RANGE) {
        None => Some(true),
        Some(i) => range_at(set, frame, i),
    }
}

// The search: the first mask item from `from` up to `to` whose range does not leave the frame out, or none. If the range there can be
// read, it holds the frame.
pub fn first_holding(set: &DataSet, frame: usize, from: usize, to: usize) -> Option<usize>
    requires { to ≤ length (nodes_of set.now) }
    ensures result_value { if_read (nodes_of set.now) frame result ≡ first_holding (nodes_of set.now) frame (members (nodes_of set.now) from to) }
    ensures below { Below (length (nodes_of set.now)) result }
{
    for item in set.members(from, to) {
        let Some(holds) = range_holds(set, frame, item) else {
            return Some(item);
        };
        if holds {
            return Some(item);
        }
    }
    None // no range holds the frame
}

// Step 2: the mask item that applies to a frame, or none.
pub fn mask_item(set: &DataSet, frame: usize) -> Option<usize>
    requires { GivesItem (nodes_of set.now) frame }
    ensures frame_value { applying_to (nodes_of set.now) frame ≡ Some result }
    ensures below { Below (length (nodes_of set.now)) result }
{
    let items = element::mask_items(set);
    first_holding(set, frame, items.at, items.end)
}

// ---- Step 3: the mask frames

// What mask item j does.
#[tactic(auto, unfolding(crate::specs::Internal::operation_of, element::specs::Frames::operation_is))]
pub fn operation_of(set: &DataSet, j: usize) -> Option<Operation>
    requires { j < length (nodes_of set.now) }
    ensures { result ≡ operation_of (nodes_of set.now) j }
{
    if element::is_cs_item(set, j, tags::MASK_OPERATION, b"NONE") {
        Some(Operation::Native)
    } else if element::is_cs_item(set, j, tags::MASK_OPERATION, b"AVG_SUB") {
        Some(Operation::Average)
    } else if element::is_cs_item(set, j, tags::MASK_OPERATION, b"TID") {
        Some(Operation::Tid)
    } else {
        None
    }
}

// The element of an averaging mask item that has the mask frames.
#[tactic(auto, unfolding(crate::specs::Steps::average_frames))]
pub fn average_element(set: &DataSet, j: usize) -> Option<usize>
    requires { j < length (nodes_of set.now) }
    ensures result_value { frames_in (nodes_of set.now) result ≡ average_frames (nodes_of set.now) j }
    ensures below { Below (length (nodes_of set.now)) result }
{
    let k = element::find_vr_item(set, j, tags::MASK_FRAME_NUMBERS, vrs::US)?;
    let n = set.value(k).len();
    if n % 2 == 0 && 2 <= n { Some(k) } else { None }
}

// The offset at node k.
fn offset_at(set: &DataSet, k: usize) -> Option<Signed>
    requires { k < length (nodes_of set.now) }
    ensures result_value { result ≡ offset_at (nodes_of set.now) (Some k) }
    ensures size_below { SizeBelow ss_limit result }
{
    if set.vr(k) == vrs::SS {
        value::ss_of(set.value(k))
    } else {
        None
    }
}

// The offset of mask item j: 1 if it names none.
#[tactic(auto, unfolding(crate::specs::Steps::offset_of))]
fn offset_of(set: &DataSet, j: usize) -> Option<Signed>
    requires { j < length (nodes_of set.now) }
    ensures result_value { result ≡ offset_of (nodes_of set.now) j }
    ensures size_below { SizeBelow ss_limit result }
{
    match set.find_in_item(j, tags::TID_OFFSET) {
        None => Some(Signed::Plus(1)),
        Some(k) => offset_at(set, k),
    }
}

// A number x, if it is one of the frames; `frames` says how many there are.
fn among_frames(x: usize, frames: Option<usize>) -> Option<Option<usize>>
    ensures { result ≡ need frames (λ n. Some (cond (leb 1 x && leb x n) (Some x) None)) }
{
    let n = frames?;
    if 1 <= x && x <= n {
        Some(Some(x))
    } else {
        Some(None)
    }
}

// The mask frame that a TID mask item gives a frame; `frames` is Number of Frames.
#[tactic(auto, unfolding(crate::specs::Steps::tid_frame))]
pub fn tid_frame(
    set: &DataSet,
    frame: usize,
    j: usize,
    frames: Option<usize>,
) -> Option<Option<usize>>
    requires { (j < length (nodes_of set.now)) × ((frame < 4294967296) × (frames ≡ frames_of (nodes_of set.now))) }
    ensures { result ≡ tid_frame (nodes_of set.now) frame j }
{
    match offset_of(set, j)? {
        Signed::Plus(d) => among_frames(basics::less(frame, d), frames),
        Signed::Minus(d) => among_frames(frame + d, frames),
    }
}

// ---- Step 4: the shift

// The first item from `from` up to `to` that names the ID, or that none does. It walks as `first_holding` does; one walk for both would take
// the test as a closure and what it means as a ghost value, which is longer than this loop.
fn naming(set: &DataSet, id: usize, from: usize, to: usize) -> Option<Option<usize>>
    requires { to ≤ length (nodes_of set.now) }
    ensures result_value { result ≡ naming (nodes_of set.now) id (members (nodes_of set.now) from to) }
    ensures found_below { FoundBelow (length (nodes_of set.now)) result }
{
    for item in set.members(from, to) {
        let x = element::us_item(set, item, tags::SUBTRACTION_ITEM_ID)?;
        if x == id {
            return Some(Some(item));
        }
    }
    Some(None)
}

// The item of the shift group g that names the ID of mask item j.
fn own_in(set: &DataSet, j: usize, g: usize) -> Option<Option<usize>>
    requires { (j < length (nodes_of set.now)) × (g < length (nodes_of set.now)) }
    ensures result_value { result ≡ own_in (nodes_of set.now) j (Some g) }
    ensures found_below { FoundBelow (length (nodes_of set.now)) result }
{
    if set.vr(g) != vrs::SQ {
        return None;
    }
    let from = g + 1;
    let to = set.next(g);
    if to <= from {
        return None;
    }
    let id = element::us_item(set, j, tags::SUBTRACTION_ITEM_ID)?;
    naming(set, id, from, to)
}

// The same, for a frame that may have no shift group.
fn own(set: &DataSet, j: usize, group: Option<Option<usize>>) -> Option<Option<usize>>
    requires { (j < length (nodes_of set.now)) × FoundBelow (length (nodes_of set.now)) group }
    ensures result_value { result ≡ then group (own_in (nodes_of set.now) j) }
    ensures found_below { FoundBelow (length (nodes_of set.now)) result }
{
    match group? {
        Some(g) => own_in(set, j, g),
        None => Some(None),
    }
}

// The two numbers at node k, as a mask item's.
fn item_shift_at(set: &DataSet, k: usize) -> Option<Shift>
    requires { k < length (nodes_of set.now) }
    ensures { result ≡ item_shift_at (nodes_of set.now) (Some k) }
{
    let v = set.value(k);
    if set.vr(k) == vrs::FL && v.len() == 8 {
        Some(shift::item_shift(v))
    } else {
        None
    }
}

// The shift of mask item j itself.
fn item_shift_in(set: &DataSet, j: usize) -> Option<Shift>
    requires { j < length (nodes_of set.now) }
    ensures { result ≡ shift_from (nodes_of set.now) j None }
{
    match set.find_in_item(j, tags::MASK_SUB_PIXEL_SHIFT) {
        None => Some(Shift::None),
        Some(k) => item_shift_at(set, k),
    }
}

// The frame's own shift, in item k of its shift group.
fn frame_shift_in(set: &DataSet, j: usize, k: usize) -> Option<Shift>
    requires { k < length (nodes_of set.now) }
    ensures { result ≡ shift_from (nodes_of set.now) j (Some k) }
{
    let x = element::find_vr_item(set, k, tags::MASK_SUB_PIXEL_SHIFT, vrs::FL)?;
    let v = set.value(x);
    if v.len() == 8 {
        Some(shift::frame_shift(v))
    } else {
        None
    }
}

// The frame's own shift if it names one, otherwise that of mask item j.
fn shift_from(set: &DataSet, j: usize, named: Option<Option<usize>>) -> Option<Shift>
    requires { (j < length (nodes_of set.now)) × FoundBelow (length (nodes_of set.now)) named }
    ensures { result ≡ then named (shift_from (nodes_of set.now) j) }
{
    match named? {
        Some(k) => frame_shift_in(set, j, k),
        None => item_shift_in(set, j),
    }
}

// The item of the shared shift group that names the ID of mask item j: the same for every frame that has no group of its own.
fn shared_naming(set: &DataSet, j: usize) -> Option<Option<usize>>
    requires { j < length (nodes_of set.now) }
    ensures result_value { result ≡ shared_naming (nodes_of set.now) j }
    ensures found_below { FoundBelow (length (nodes_of set.now)) result }
{
    let group = shared_group(set, tags::FRAME_PIXEL_SHIFT_SEQUENCE);
    own(set, j, group)
}

// What mask item j says, the same for all frames.
pub fn told_by(set: &DataSet, j: usize) -> Told
    requires { j < length (nodes_of set.now) }
    ensures { IsTold (nodes_of set.now) j result }
{
    let operation = operation_of(set, j);
    let shared = shared_naming(set, j);
    Told { operation, shared }
}

// The value used if no mask item applies.
pub fn nothing_told() -> Told {
    Told {
        operation: Some(Operation::Native),
        shared: Some(None),
    }
}

// The item of a frame's shift group that names the ID of mask item j; `shared` is that of the shared one.
#[tactic(auto, unfolding(crate::specs::Steps::group_for))]
fn naming_for(
    set: &DataSet,
    frame: usize,
    item: Option<usize>,
    j: usize,
    shared: Option<Option<usize>>,
) -> Option<Option<usize>>
    requires { (j < length (nodes_of set.now))
        × (ItemOf (nodes_of set.now) frame item
        × IsShared (nodes_of set.now) j shared) }
    ensures result_value { result ≡ then (group_for (nodes_of set.now) frame FramePixelShiftSequence) (own_in (nodes_of set.now) j) }
    ensures found_below { FoundBelow (length (nodes_of set.now)) result }
{
    let i = item?;
    match set.find_in_item(i, tags::FRAME_PIXEL_SHIFT_SEQUENCE) {
        None => shared,
        Some(g) => own_in(set, j, g),
    }
}

// Step 4: the shift of a frame under mask item j; `item` is the frame's item, `shared` what the shared shift group names.
#[tactic(auto, unfolding(crate::specs::Steps::shift_for))]
pub fn shift_by(
    set: &DataSet,
    frame: usize,
    item: Option<usize>,
    j: usize,
    shared: Option<Option<usize>>,
) -> Option<Shift>
    requires { (j < length (nodes_of set.now))
        × (ItemOf (nodes_of set.now) frame item
        × IsShared (nodes_of set.now) j shared) }
    ensures { result ≡ shift_for (nodes_of set.now) frame j }
{
    let named = naming_for(set, frame, item, j, shared);
    shift_from(set, j, named)
}

// The same, with what the shared shift group names worked out here.
pub fn shift_for(set: &DataSet, frame: usize, item: Option<usize>, j: usize) -> Option<Shift>
    requires { (j < length (nodes_of set.now))
        × ItemOf (nodes_of set.now) frame item }
    ensures { result ≡ shift_for (nodes_of set.now) frame j }
{
    let shared = shared_naming(set, j);
    shift_by(set, frame, item, j, shared)
}

// ---- Step 6: the window

// A centre and a width, if both are numbers, and a function.
fn window_of(
    center: Option<Signed>,
    width: Option<Signed>,
    function: Option<Function>,
) -> Option<Window>
    ensures { result ≡ check (is_number center && (is_number width && is_function function)) (Some (record { center = center; width = width; function = function })) }
{
    if value::is_number(center) && value::is_number(width) && value::is_function(function) {
        Some(Window {
            center,
            width,
            function,
        })
    } else {
        None
    }
}

// The first value of a DS.
fn first_decimal(v: &[u8]) -> Option<Signed>
    ensures { result ≡ decimal_of (value_of v.now 0) }
{
    value::decimal_of(value::value_of(v, 0))
}

// The window in item j of a VOI group.
#[tactic(auto, unfolding(crate::specs::Steps::window_in))]
fn window_in(set: &DataSet, j: usize) -> Option<Window>
    requires { j < length (nodes_of set.now) }
    ensures { result ≡ window_in (nodes_of set.now) (inside (nodes_of set.now) j) }
{
    let c = element::find_vr_item(set, j, tags::WINDOW_CENTER, vrs::DS)?;
    let w = element::find_vr_item(set, j, tags::WINDOW_WIDTH, vrs::DS)?;
    let center = first_decimal(set.value(c));
    let width = first_decimal(set.value(w));
    window_of(center, width, element::function_in(set, j))
}

// The window of a VOI group.
fn window_at(set: &DataSet, stored: usize, g: usize) -> Option<Window>
    requires { g < length (nodes_of set.now) }
    ensures { result ≡ window_on (nodes_of set.now) stored (Some g) }
{
    let j = element::the_item(set, g)?;
    window_in(set, j)
}

// The window of the shared VOI group: the same for every frame that has no group of its own.
pub fn shared_window(set: &DataSet, stored: usize) -> Option<Window>
    requires { stored ≤ 16 }
    ensures { result ≡ shared_window (nodes_of set.now) stored }
{
    match shared_group(set, tags::FRAME_VOI_LUT_SEQUENCE)? {
        Some(g) => window_at(set, stored, g),
        None => Some(window::full_window(stored)),
    }
}

// Step 6: the window of a frame; `item` is the frame's item, `common` the window of the shared VOI group.
#[tactic(auto, unfolding(crate::specs::Steps::window_for, crate::specs::Steps::group_for))]
pub fn window_by(
    set: &DataSet,
    frame: usize,
    item: Option<usize>,
    stored: usize,
    common: Option<Window>,
) -> Option<Window>
    requires { ItemOf (nodes_of set.now) frame item × (common ≡ shared_window (nodes_of set.now) stored) }
    ensures { result ≡ window_for (nodes_of set.now) frame stored }
{
    let i = item?;
    match set.find_in_item(i, tags::FRAME_VOI_LUT_SEQUENCE) {
        None => common,
        Some(g) => window_at(set, stored, g),
    }
}

// The same, with the window of the shared group worked out here.
pub fn window_for(set: &DataSet, frame: usize, item: Option<usize>, stored: usize) -> Option<Window>
    requires { ItemOf (nodes_of set.now) frame item × (stored ≤ 16) }
    ensures { result ≡ window_for (nodes_of set.now) frame stored }
{
    let common = shared_window(set, stored);
    window_by(set, frame, item, stored, common)
}

// ---- Step 7: whether the image is inverted

fn inverse_by(v: &[u8]) -> Option<bool>
    ensures { result
        ≡ check (leb 1 (length v.now) && is_single v.now) (Some (is_word v.now (ascii "MONOCHROME1"))) }
{
    if 1 <= v.len() && value::is_single(v) {
        Some(value::is_word(v, b"MONOCHROME1"))
    } else {
        None
    }
}

// Step 7: MONOCHROME1 inverts.
#[tactic(auto, unfolding(crate::specs::Steps::inverse_of))]
pub fn inverse_of(set: &DataSet) -> Option<bool>
    ensures { result ≡ inverse_of (nodes_of set.now) }
{
    let i = element::find_vr_root(set, tags::PHOTOMETRIC_INTERPRETATION, vrs::CS)?;
    inverse_by(set.value(i))
}

// ---- The size of a frame, and the pixel bytes

// A geometry of whole bytes.
fn geometry_by(r: usize, c: usize, allocated: usize, stored: usize) -> Option<Geometry>
    requires { (r < 65536) × ((c < 65536) × ((allocated < 65536) × (stored < 65536))) }
    ensures result_value { result ≡ check (leb 8 allocated && eqb (allocated % 8) 0) (Some (record { rows = r; columns = c; width = allocated / 8; stored = stored })) }
    ensures sized_small { SizedSmall result }
{
    if 8 <= allocated && allocated % 8 == 0 {
        Some(Geometry {
            rows: r,
            columns: c,
            width: allocated / 8,
            stored,
        })
    } else {
        None
    }
}

// The size of a frame and of its samples.
#[tactic(auto, unfolding(crate::specs::Steps::geometry_of))]
pub fn geometry_of(set: &DataSet) -> Option<Geometry>
    ensures result_value { result ≡ geometry_of (nodes_of set.now) }
    ensures sized_small { SizedSmall result }
{
    let r = element::us_root(set, tags::ROWS)?;
    let c = element::us_root(set, tags::COLUMNS)?;
    let a = element::us_root(set, tags::BITS_ALLOCATED)?;
    let b = element::us_root(set, tags::BITS_STORED)?;
    geometry_by(r, c, a, b)
}

// The element of the pixel bytes.
#[tactic(auto, unfolding(crate::specs::Steps::pixels_of))]
pub fn pixel_element(set: &DataSet) -> Option<usize>
    ensures result_value { value_found (nodes_of set.now) result ≡ pixels_of (nodes_of set.now) }
    ensures below { Below (length (nodes_of set.now)) result }
{
    let p = set.find_root(tags::PIXEL_DATA)?;
    let vr = set.vr(p);
    if vr == vrs::OW || vr == vrs::OB {
        Some(p)
    } else {
        None
    }
}
