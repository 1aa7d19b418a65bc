// How far judging looks: the searches of document 02, each counted, and their sum, which `judge` reports for an accepted data set.
#![tactic(auto)]

ghost use Rattle.std.specs.Prelude.{◌≡◌, true, false, [], ◌+◌, ◌*◌, ◌^◌, ◌≤◌, ◌<◌, length, drop};
ghost use Rattle.node.specs.Nodes.{nodes_of, members};
ghost use Rattle.node.specs.Internal.{Ascends};
ghost use Rattle.value.specs.Internal.{Below};
ghost use Rattle.element.specs.Elements.{inside_of};
ghost use Rattle.element.specs.Frames.{shared_item, frame_items};
ghost use Rattle.searches.specs.Searches.{looked_in_each, frame_searches, over_frames, searches_of};
ghost use Rattle.searches.specs.Internal.{all_looked, rises, tags_above, group_at, over_group, over_groups, over_both, InShared, RowsLeft};
ghost use Rattle.dataset.specs.Reading.{reading_of};
ghost use Rattle.basics.specs.Fields.{Answers};
ghost use Rattle.dataset.specs.Answer.{buffer_of};
ghost use Rattle.searches.specs.Reported.{if_accepted, counted_of, fields_of};
ghost use Rattle.searches.specs.Plain.{Looks, LooksIn};

use basics::tags;
use conformance::Outcome;
use dataset::ReadError;
use node::DataSet;

// The tables of specs/Searches: the tags sought in the root, in ascending order.
const ROOT: [usize; 33] = [
    tags::IMAGE_TYPE,
    tags::SOP_CLASS_UID,
    tags::ACQUISITION_DATETIME,
    tags::MODALITY,
    tags::REFERENCED_OTHER_PLANE_SEQUENCE,
    tags::KVP,
    tags::RADIATION_SETTING,
    tags::RADIATION_MODE,
    tags::POSITIONER_TYPE,
    tags::CONTENT_QUALIFICATION,
    tags::EXPOSURE_TIME_IN_MS,
    tags::XRAY_TUBE_CURRENT_IN_MA,
    tags::EXPOSURE_IN_MAS,
    tags::PLANES_IN_ACQUISITION,
    tags::PLANE_IDENTIFICATION,
    tags::SAMPLES_PER_PIXEL,
    tags::PHOTOMETRIC_INTERPRETATION,
    tags::NUMBER_OF_FRAMES,
    tags::ROWS,
    tags::COLUMNS,
    tags::BITS_ALLOCATED,
    tags::BITS_STORED,
    tags::HIGH_BIT,
    tags::PIXEL_REPRESENTATION,
    tags::BURNED_IN_ANNOTATION,
    tags::LOSSY_IMAGE_COMPRESSION,
    tags::LOSSY_IMAGE_COMPRESSION_RATIO,
    tags::LOSSY_IMAGE_COMPRESSION_METHOD,
    tags::MASK_SUBTRACTION_SEQUENCE,
    tags::PRESENTATION_LUT_SHAPE,
    tags::SHARED_FUNCTIONAL_GROUPS_SEQUENCE,
    tags::PER_FRAME_FUNCTIONAL_GROUPS_SEQUENCE,
    tags::PIXEL_DATA,
];

// The tags sought in each mask item.
const MASK: [usize; 7] = [
    tags::MASK_OPERATION,
    tags::APPLICABLE_FRAME_RANGE,
    tags::MASK_FRAME_NUMBERS,
    tags::CONTRAST_FRAME_AVERAGING,
    tags::TID_OFFSET,
    tags::MASK_SUB_PIXEL_SHIFT,
    tags::SUBTRACTION_ITEM_ID,
];

// The groups of rules 28, 29, 30, 36, 37 and 39.
const CONTENT: usize = tags::FRAME_CONTENT_SEQUENCE;

const CHARACTERISTICS: usize = tags::XA_XRF_FRAME_CHARACTERISTICS_SEQUENCE;

const VOI: usize = tags::FRAME_VOI_LUT_SEQUENCE;

const SHIFTS: usize = tags::FRAME_PIXEL_SHIFT_SEQUENCE;

const PROPERTIES: usize = tags::FRAME_PIXEL_DATA_PROPERTIES_SEQUENCE;

const LUTS: usize = tags::PIXEL_INTENSITY_RELATIONSHIP_LUT_SEQUENCE;

// The tags sought in the items of the groups of rules 30, 37 and 39.
const WINDOW: [usize; 3] = [
    tags::WINDOW_CENTER,
    tags::WINDOW_WIDTH,
    tags::VOI_LUT_FUNCTION,
];

const SHIFT: [usize; 2] = [tags::SUBTRACTION_ITEM_ID, tags::MASK_SUB_PIXEL_SHIFT];

const RELATION: [usize; 1] = [tags::PIXEL_INTENSITY_RELATIONSHIP];

const TABLE: [usize; 3] = [tags::LUT_FUNCTION, tags::LUT_DESCRIPTOR, tags::LUT_DATA];

// What the plain search finds, and how many rows it looks at.
#[derive(Clone, Copy)]
struct Looked {
    pub found: Option<usize>,
    pub count: usize,
}

// A group that is sought at each frame: its tag, whether it is always sought in the shared item too, and the tags sought in its items.
#[derive(Clone, Copy)]
struct Group<'a> {
    tag: usize,
    always: bool,
    reads: &'a [usize],
    ghost few: { length reads.now ≤ 3 },
}

// A group in the shared item: the rows looked at to find it, and those looked at in its items.
#[derive(Clone, Copy)]
struct SharedGroup {
    pub looked: usize,
    pub read: usize,
}

// The answer of `judge`, and the sum of its searches: 0 with every answer but code 0.
#[derive(Clone, Copy)]
pub struct Counted {
    pub answer: Result<Outcome, ReadError>,
    pub searches: usize,
}

// The loop of `node::find_tag`, with a count of the rows that it looks at. (By hand as there: `within` of `Looks` says that what is found is
// before `to`, and of the members that `set.members` gives only that they are nodes is promised.)
fn look(set: &DataSet, from: usize, to: usize, wanted: usize) -> Looked
    requires { (to ≤ length (nodes_of set.now)) × Ascends (nodes_of set.now) 0 (members (nodes_of set.now) from to) }
    ensures { Looks (nodes_of set.now) wanted from to result }
{
    let mut count: usize = 0;
    let mut i = from;
    while i < to {
        let here = set.tag(i);
        count += 1;
        if wanted <= here {
            return if here == wanted {
                Looked {
                    found: Some(i),
                    count,
                }
            } else {
                Looked { found: None, count }
            };
        }
        i = set.next(i);
    }
    Looked { found: None, count }
}

// ---- Sums of searches

// All the tags, each sought among the members from `from` up to `to`.
fn look_all(set: &DataSet, from: usize, to: usize, wanted: &[usize]) -> usize
    requires { (to ≤ length (nodes_of set.now))
        × (Ascends (nodes_of set.now) 0 (members (nodes_of set.now) from to) × (length wanted.now ≤ 64)) }
    ensures { result ≡ all_looked (nodes_of set.now) wanted.now (members (nodes_of set.now) from to) }
{
    let mut sum: usize = 0;
    for &tag in wanted {
        sum += look(set, from, to, tag).count;
    }
    sum
}

// The tags from the first one above `here` on.
#[tactic(auto, unfolding(crate::specs::Internal::tags_above))]
fn tags_above(mut wanted: &[usize], here: usize) -> &[usize]
    ensures { result.now ≡ tags_above here wanted.now }
{
    while let [tag, rest @ ..] = wanted
        && *tag <= here
    {
        wanted = rest;
    }
    wanted
}

// As `look_all` in one walk, for ascending tags: those left are still sought, and each looks at the member.
fn look_along(set: &DataSet, from: usize, to: usize, wanted: &[usize]) -> usize
    requires { (to ≤ length (nodes_of set.now))
        × (Ascends (nodes_of set.now) 0 (members (nodes_of set.now) from to)
        × ((length wanted.now ≤ 64) × (rises 0 wanted.now ≡ true))) }
    ensures { result ≡ all_looked (nodes_of set.now) wanted.now (members (nodes_of set.now) from to) }
{
    let mut sum: usize = 0;
    let mut left = wanted;
    for member in set.members(from, to) {
        if left.is_empty() {
            break;
        }
        sum += left.len();
        left = tags_above(left, set.tag(member));
    }
    sum
}

// All the tags, in each item from `from` up to `to`.
fn look_each(set: &DataSet, from: usize, to: usize, wanted: &[usize]) -> usize
    requires { (to ≤ length (nodes_of set.now)) × (length wanted.now ≤ 64) }
    ensures { result ≡ looked_in_each (nodes_of set.now) wanted.now (members (nodes_of set.now) from to) }
{
    let mut sum: usize = 0;
    for item in set.members(from, to) {
        let end = set.next(item);
        sum += look_all(set, item + 1, end, wanted);
    }
    sum
}

// ---- A group over all frames

// All the tags, in each item of the group that was found.
fn look_group(set: &DataSet, found: Option<usize>, wanted: &[usize]) -> usize
    requires { Below (length (nodes_of set.now)) found × (length wanted.now ≤ 64) }
    ensures { result ≡ looked_in_each (nodes_of set.now) wanted.now (inside_of (nodes_of set.now) found) }
{
    match found {
        None => 0,
        Some(g) => {
            let end = set.next(g);
            look_each(set, g + 1, end, wanted)
        }
    }
}

// The plain search in an item.
fn look_item(set: &DataSet, item: usize, wanted: usize) -> Looked
    requires { item < length (nodes_of set.now) }
    ensures { LooksIn (nodes_of set.now) wanted item result }
{
    let end = set.next(item);
    look(set, item + 1, end, wanted)
}

// A group of which nothing is read, always sought in both items.
fn always<'a>(tag: usize) -> Group<'a>
    ensures tag { result.tag ≡ tag }
    ensures always { result.always ≡ true }
    ensures reads { result.reads.now ≡ [] }
{
    Group {
        tag,
        always: true,
        reads: &[],
    }
}

// A group that is sought in the shared item only where the frame's item lacks it.
fn unless_here<'a>(tag: usize, reads: &'a [usize]) -> Group<'a>
    requires { length reads.now ≤ 3 }
    ensures tag { result.tag ≡ tag }
    ensures always { result.always ≡ false }
    ensures reads { result.reads.now ≡ reads.now }
{
    Group {
        tag,
        always: false,
        reads,
    }
}

// A group in the shared item, worked out once for all frames.
fn shared_group(set: &DataSet, shared: usize, group: &Group) -> SharedGroup
    requires { shared < length (nodes_of set.now) }
    ensures { InShared (nodes_of set.now) group.now.tag group.now.reads.now shared result }
{
    let l = look_item(set, shared, group.tag);
    SharedGroup {
        looked: l.count,
        read: look_group(set, l.found, group.reads),
    }
}

// A group at the frame of the item: in the item and, if it is not there or always, in the shared item.
fn group_at(set: &DataSet, shared: usize, part: SharedGroup, group: &Group, item: usize) -> usize
    requires { (item < length (nodes_of set.now)) × InShared (nodes_of set.now) group.now.tag group.now.reads.now shared part }
    ensures { result ≡ group_at (nodes_of set.now) group.now.tag group.now.always group.now.reads.now shared item }
{
    let l = look_item(set, item, group.tag);
    let here = l.count;
    let found = l.found;
    match found {
        None => here + part.looked + part.read,
        Some(g) => {
            let read = look_group(set, Some(g), group.reads);
            if group.always {
                here + part.looked + read
            } else {
                here + read
            }
        }
    }
}

fn over_frames(set: &DataSet, shared: usize, group: &Group) -> usize
    requires { shared < length (nodes_of set.now) }
    ensures value { result ≡ over_group (nodes_of set.now) group.now.tag group.now.always group.now.reads.now shared (frame_items (nodes_of set.now)) }
    ensures upper_bound { result ≤ 2 ^ 57 }
{
    let part = shared_group(set, shared, group);
    let items = element::frame_items(set);
    let mut sum: usize = 0;
    for item in set.members(items.at, items.end) {
        sum += group_at(set, shared, part, group, item);
    }
    sum
}

// Rule 27: the elements of each frame's item, and those of the shared item for each frame. A loop of its own, since one function for both
// would take what is added as a closure, with the sum's limit in its contract.
fn both_items(set: &DataSet, shared: usize) -> usize
    requires { shared < length (nodes_of set.now) }
    ensures { result ≡ over_both (nodes_of set.now) shared (frame_items (nodes_of set.now)) }
{
    let own = element::count_items(set, shared);
    let items = element::frame_items(set);
    let mut sum: usize = 0;
    for item in set.members(items.at, items.end) {
        sum += element::count_items(set, item) + own;
    }
    sum
}

// Each group of the table over all frames.
fn groups_over(set: &DataSet, shared: usize) -> usize
    requires { shared < length (nodes_of set.now) }
    ensures value { result ≡ over_groups (nodes_of set.now) frame_searches shared (frame_items (nodes_of set.now)) }
    ensures upper_bound { result ≤ 7 * 2 ^ 57 }
{
    let window = WINDOW;
    let shift = SHIFT;
    let relation = RELATION;
    let table = TABLE;
    over_frames(set, shared, &always(CONTENT))
        + over_frames(set, shared, &unless_here(CHARACTERISTICS, &[]))
        + over_frames(set, shared, &unless_here(VOI, &window))
        + over_frames(set, shared, &unless_here(SHIFTS, &[]))
        + over_frames(set, shared, &unless_here(SHIFTS, &shift))
        + over_frames(set, shared, &unless_here(PROPERTIES, &relation))
        + over_frames(set, shared, &unless_here(LUTS, &table))
}

// Everything looked at for frames.
fn frames_sum(set: &DataSet) -> usize
    ensures value { result ≡ over_frames (nodes_of set.now) (shared_item (nodes_of set.now)) }
    ensures upper_bound { result ≤ 2 ^ 60 }
{
    match element::shared_item(set) {
        None => 0,
        Some(s) => both_items(set, s) + groups_over(set, s),
    }
}

// The sum of all searches.
fn sum(set: &DataSet) -> usize
    ensures { result ≡ searches_of (nodes_of set.now) }
{
    let root = ROOT;
    let mask = MASK;
    let masks = element::mask_items(set);
    let end = set.count();
    look_along(set, 0, end, &root) + look_each(set, masks.at, masks.end, &mask) + frames_sum(set)
}

// ---- What `judge` reports

// The sum, with code 0; the row buffer is as judging left it.
pub fn reported(bytes: &[u8], rows: &[u32], answer: Result<Outcome, ReadError>) -> usize
    requires { RowsLeft bytes.now rows.now answer }
    ensures { result ≡ if_accepted (searches_of (nodes_of bytes.now)) answer }
{
    match answer {
        Ok(Outcome::Accepted(n)) => sum(&DataSet::new(bytes, &rows[..dataset::WIDTH * n])),
        _ => 0,
    }
}

// Reads the data set, judges it, and adds up its searches.
pub fn judge_counted(bytes: &[u8], rows: &mut [u32]) -> Counted
    ensures answers { Answers fields_of result (counted_of bytes.now rows.old) }
    ensures rows_after { rows.new ≡ buffer_of (reading_of bytes.now) rows.old }
{
    let answer = conformance::judge(bytes, rows);
    let searches = reported(bytes, rows, answer);
    Counted { answer, searches }
}
