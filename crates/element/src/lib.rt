// Reads of one element by its tag, items of sequences, frames and their functional groups: the vocabulary of the rules and the drawing
// steps.
#![tactic(auto)]

ghost use Rattle.std.specs.Prelude.{◌≡◌, ◌+◌, ◌≤◌, ◌<◌, length, drop, Some};
ghost use Rattle.node.specs.Nodes.{nodes_of, members, root, inside};
ghost use Rattle.node.specs.Find.{absent, and_then, holds, find, of_vr, find_vr, has};
ghost use Rattle.value.specs.Internal.{Below, SizeBelow};
ghost use Rattle.value.specs.Number.{integer_limit, us_of};
ghost use Rattle.value.specs.Words.{is_word};
ghost use Rattle.element.specs.Elements.{value_at, us_in, cs_is, ui_is, one_item, the_item, items_in, has_pairs, function_on, function_in};
ghost use Rattle.element.specs.Frames.{as_count, frames_of, shared_item, frame_items, group_of, mask_items};
ghost use Rattle.element.specs.Internal.{Along};

use basics::{tags, vrs};
use node::DataSet;
use value::{Function, Signed};

// The items that are left of a sequence: from `at` up to `end`.
#[derive(Clone, Copy)]
pub struct Items {
    pub at: usize,
    pub end: usize,
}

// ---- At what a search found

// What was found, if it is of the VR.
fn vr_at(set: &DataSet, found: Option<usize>, vr: usize) -> Option<usize>
    requires { Below (length (nodes_of set.now)) found }
    ensures value { result ≡ and_then found (of_vr (nodes_of set.now) vr) }
    ensures below { Below (length (nodes_of set.now)) result }
{
    match found {
        None => None,
        Some(i) => { if set.vr(i) == vr { Some(i) } else { None } }
    }
}

// A single US.
fn us_at(set: &DataSet, found: Option<usize>) -> Option<usize>
    requires { Below (length (nodes_of set.now)) found }
    ensures value { result ≡ and_then found (λ i. us_of (value_at (nodes_of set.now) i)) }
    ensures below { Below 65536 result }
{
    match found {
        None => None,
        Some(i) => value::us_of(set.value(i)),
    }
}

// A CS that is the word.
fn is_cs_at(set: &DataSet, found: Option<usize>, word: &[u8]) -> bool
    requires { Below (length (nodes_of set.now)) found }
    ensures { result ≡ holds found (λ i. is_word (value_at (nodes_of set.now) i) word.now) }
{
    match found {
        None => false,
        Some(i) => value::is_word(set.value(i), word),
    }
}

// ---- In the root

// The element of the tag and VR.
pub fn find_vr_root(set: &DataSet, tag: usize, vr: usize) -> Option<usize>
    ensures value { result ≡ find_vr (nodes_of set.now) tag vr (root (nodes_of set.now)) }
    ensures below { Below (length (nodes_of set.now)) result }
{
    vr_at(set, set.find_root(tag), vr)
}

pub fn is_absent_root(set: &DataSet, tag: usize) -> bool
    ensures { result ≡ absent (find (nodes_of set.now) tag (root (nodes_of set.now))) }
{
    match set.find_root(tag) {
        None => true,
        Some(_) => false,
    }
}

pub fn has_root(set: &DataSet, tag: usize, vr: usize) -> bool
    ensures { result ≡ has (nodes_of set.now) tag vr (root (nodes_of set.now)) }
{
    match find_vr_root(set, tag, vr) {
        None => false,
        Some(i) => set.is_filled(i),
    }
}

pub fn us_root(set: &DataSet, tag: usize) -> Option<usize>
    ensures value { result ≡ us_in (nodes_of set.now) tag (root (nodes_of set.now)) }
    ensures below { Below 65536 result }
{
    us_at(set, find_vr_root(set, tag, vrs::US))
}

pub fn is_cs_root(set: &DataSet, tag: usize, word: &[u8]) -> bool
    ensures { result ≡ cs_is (nodes_of set.now) tag word.now (root (nodes_of set.now)) }
{
    is_cs_at(set, find_vr_root(set, tag, vrs::CS), word)
}

// A UI that is the UID.
pub fn is_ui_root(set: &DataSet, tag: usize, uid: &[u8]) -> bool
    ensures { result ≡ ui_is (nodes_of set.now) tag uid.now (root (nodes_of set.now)) }
{
    match find_vr_root(set, tag, vrs::UI) {
        None => false,
        Some(i) => value::is_uid(set.value(i), uid),
    }
}

// ---- In an item, or directly in another node

pub fn find_vr_item(set: &DataSet, item: usize, tag: usize, vr: usize) -> Option<usize>
    requires { item < length (nodes_of set.now) }
    ensures value { result ≡ find_vr (nodes_of set.now) tag vr (inside (nodes_of set.now) item) }
    ensures below { Below (length (nodes_of set.now)) result }
{
    vr_at(set, set.find_in_item(item, tag), vr)
}

pub fn us_item(set: &DataSet, item: usize, tag: usize) -> Option<usize>
    requires { item < length (nodes_of set.now) }
    ensures value { result ≡ us_in (nodes_of set.now) tag (inside (nodes_of set.now) item) }
    ensures below { Below 65536 result }
{
    us_at(set, find_vr_item(set, item, tag, vrs::US))
}

pub fn is_cs_item(set: &DataSet, item: usize, tag: usize, word: &[u8]) -> bool
    requires { item < length (nodes_of set.now) }
    ensures { result ≡ cs_is (nodes_of set.now) tag word.now (inside (nodes_of set.now) item) }
{
    is_cs_at(set, find_vr_item(set, item, tag, vrs::CS), word)
}

// ---- Items of a sequence

// How many members a node directly holds.
pub fn count_items(set: &DataSet, i: usize) -> usize
    requires { i < length (nodes_of set.now) }
    ensures { result ≡ length (inside (nodes_of set.now) i) }
{
    set.inside(i).count()
}

// The one item of a sequence.
pub fn the_item(set: &DataSet, i: usize) -> Option<usize>
    requires { i < length (nodes_of set.now) }
    ensures value { result ≡ the_item (nodes_of set.now) i }
    ensures below { Below (length (nodes_of set.now)) result }
{
    if set.vr(i) != vrs::SQ {
        return None;
    }
    let mut items = set.inside(i);
    let first = items.next()?;
    match items.next() {
        None => Some(first),
        Some(_) => None,
    }
}

// Whether a node is a sequence of one item.
pub fn is_one_item(set: &DataSet, i: usize) -> bool
    requires { i < length (nodes_of set.now) }
    ensures { result ≡ one_item (nodes_of set.now) i }
{
    match the_item(set, i) {
        None => false,
        Some(_) => true,
    }
}

// The items of the root's sequence of the tag, from the first; none if there is no such sequence.
fn items_root(set: &DataSet, tag: usize) -> Items
    ensures { Along (nodes_of set.now) (items_in (nodes_of set.now) tag (root (nodes_of set.now))) result }
{
    match find_vr_root(set, tag, vrs::SQ) {
        None => Items { at: 0, end: 0 },
        Some(i) => Items {
            at: i + 1,
            end: set.next(i),
        },
    }
}

// The items after the one at the cursor.
pub fn advance(set: &DataSet, c: Items) -> Items
    requires { c.end ≤ length (nodes_of set.now) }
    ensures { Along (nodes_of set.now) (drop 1 (members (nodes_of set.now) c.at c.end)) result }
{
    let at = c.at;
    let end = c.end;
    if at < end {
        Items {
            at: set.next(at),
            end,
        }
    } else {
        c
    }
}

// ---- Pairs of numbers

// Whether node i holds pairs of US numbers, at least one.
pub fn has_pairs(set: &DataSet, i: usize) -> bool
    requires { i < length (nodes_of set.now) }
    ensures { result ≡ has_pairs (nodes_of set.now) i }
{
    if set.vr(i) == vrs::US {
        let v = set.value(i);
        if 4 <= v.len() {
            v.len() % 4 == 0
        } else {
            false
        }
    } else {
        false
    }
}

// ---- The function of a window

// VOI LUT Function at node k.
fn function_at(set: &DataSet, k: usize) -> Option<Function>
    requires { k < length (nodes_of set.now) }
    ensures { result ≡ function_on (nodes_of set.now) (Some k) }
{
    if set.vr(k) == vrs::CS {
        value::function_of(set.value(k))
    } else {
        None
    }
}

// The function of the window in a VOI item.
pub fn function_in(set: &DataSet, item: usize) -> Option<Function>
    requires { item < length (nodes_of set.now) }
    ensures { result ≡ function_in (nodes_of set.now) (inside (nodes_of set.now) item) }
{
    match set.find_in_item(item, tags::VOI_LUT_FUNCTION) {
        None => Some(Function::Linear),
        Some(k) => function_at(set, k),
    }
}

// ---- Frames

// A signed number as a count: a negative one counts as 0.
fn as_count(n: Option<Signed>) -> Option<usize>
    requires { SizeBelow integer_limit n }
    ensures value { result ≡ as_count n }
    ensures below { Below integer_limit result }
{
    match n {
        Some(Signed::Plus(k)) => Some(k),
        Some(Signed::Minus(_)) => Some(0),
        None => None,
    }
}

// Number of Frames.
pub fn frame_count(set: &DataSet) -> Option<usize>
    ensures value { result ≡ frames_of (nodes_of set.now) }
    ensures below { Below integer_limit result }
{
    match find_vr_root(set, tags::NUMBER_OF_FRAMES, vrs::IS) {
        None => None,
        Some(i) => as_count(value::integer_of(set.value(i))),
    }
}

// The one item of the shared functional groups.
pub fn shared_item(set: &DataSet) -> Option<usize>
    ensures value { result ≡ shared_item (nodes_of set.now) }
    ensures below { Below (length (nodes_of set.now)) result }
{
    match set.find_root(tags::SHARED_FUNCTIONAL_GROUPS_SEQUENCE) {
        None => None,
        Some(i) => the_item(set, i),
    }
}

// The items of the per-frame functional groups, from the first.
pub fn frame_items(set: &DataSet) -> Items
    ensures { Along (nodes_of set.now) (frame_items (nodes_of set.now)) result }
{
    items_root(set, tags::PER_FRAME_FUNCTIONAL_GROUPS_SEQUENCE)
}

// The mask items, from the first.
pub fn mask_items(set: &DataSet) -> Items
    ensures { Along (nodes_of set.now) (mask_items (nodes_of set.now)) result }
{
    items_root(set, tags::MASK_SUBTRACTION_SEQUENCE)
}

// A frame's functional group of the tag: that in its item, else the shared one.
fn group_of(set: &DataSet, tag: usize, shared: usize, item: usize) -> Option<usize>
    requires { (shared < length (nodes_of set.now)) × (item < length (nodes_of set.now)) }
    ensures value { result ≡ group_of (nodes_of set.now) tag shared item }
    ensures below { Below (length (nodes_of set.now)) result }
{
    match set.find_in_item(item, tag) {
        Some(g) => Some(g),
        None => set.find_in_item(shared, tag),
    }
}
