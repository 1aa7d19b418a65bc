// Rules 31 to 36: the mask items, which are those of the root's Mask Subtraction Sequence.
#![tactic(auto)]

ghost use Rattle.std.specs.Prelude.{◌≡◌, ◌%◌, ◌≤◌, ◌<◌, ◌&&◌, length, leb};
ghost use Rattle.value.specs.Number.{us_values};
ghost use Rattle.node.specs.Nodes.{nodes_of, members, inside};
ghost use Rattle.node.specs.Find.{if_present, find};
ghost use Rattle.basics.specs.Tags.{ContrastFrameAveraging};
ghost use Rattle.element.specs.Elements.{every};
ghost use Rattle.element.specs.Frames.{mask_items};
ghost use Rattle.rules.specs.Mask.{is_operation, is_mask, rule31, pairs_fit, is_range, range_fits, rule32, all_frames, are_mask_frames, is_one};
ghost use Rattle.rules.specs.Mask.{average_fits, averages_fit, rule33, is_offset, offset_fits, rule34, is_shift_at, shift_fits, rule35, any_shift};
ghost use Rattle.rules.specs.Mask.{masks_have_ids, rule36};
ghost use Rattle.rules.specs.All.{rule_at};
ghost use Rattle.rules_mask.specs.Internal.{item_fits, has_shifts};

use basics::{tags, vrs};
use node::DataSet;

// What a rule asks of each mask item. Two of the rules need the number of frames. (No closure: the definition `item_fits` names the variants,
// and so no caller has to prove what its closure answers.)
#[derive(Clone, Copy)]
enum Question {
    Operation,
    Range(usize),
    Average(usize),
    Offset,
    Shift,
    Id,
}

// An element that may be absent is asked by a `match`: with `is_none_or` the check leaves a goal at each closure that calls a function.

// ---- One item and all items

fn item_fits(set: &DataSet, question: Question, item: usize) -> bool
    requires { item < length (nodes_of set.now) }
    ensures { result ≡ item_fits (nodes_of set.now) question item }
{
    match question {
        Question::Operation => is_operation(set, item),
        Question::Range(n) => range_fits(set, item, n),
        Question::Average(n) => averages_fit(set, item, n),
        Question::Offset => offset_fits(set, item),
        Question::Shift => shift_fits(set, item),
        Question::Id => ids::has_id(set, item),
    }
}

// Whether each item from `from` up to `to` satisfies the rule.
fn all_fit(set: &DataSet, question: Question, from: usize, to: usize) -> bool
    requires { to ≤ length (nodes_of set.now) }
    ensures { result ≡ every (item_fits (nodes_of set.now) question) (members (nodes_of set.now) from to) }
{
    set.members(from, to)
        .all(|item| item_fits(set, question, item))
}

// Whether each mask item satisfies the rule.
fn masks_fit(set: &DataSet, question: Question) -> bool
    ensures { result ≡ every (item_fits (nodes_of set.now) question) (mask_items (nodes_of set.now)) }
{
    let items = element::mask_items(set);
    all_fit(set, question, items.at, items.end)
}

// ---- Rule 31

// Whether a mask item's operation is NONE, AVG_SUB or TID.
#[tactic(auto, unfolding(rules::specs::Mask::is_operation, element::specs::Frames::operation_is))]
fn is_operation(set: &DataSet, item: usize) -> bool
    requires { item < length (nodes_of set.now) }
    ensures { result ≡ is_operation (nodes_of set.now) item }
{
    element::is_cs_item(set, item, tags::MASK_OPERATION, b"NONE")
        || element::is_cs_item(set, item, tags::MASK_OPERATION, b"AVG_SUB")
        || element::is_cs_item(set, item, tags::MASK_OPERATION, b"TID")
}

#[tactic(auto, unfolding(rules::specs::Mask::is_mask))]
fn is_mask(set: &DataSet, i: usize) -> bool
    requires { i < length (nodes_of set.now) }
    ensures { result ≡ is_mask (nodes_of set.now) i }
{
    if set.vr(i) != vrs::SQ {
        return false;
    }
    let n = element::count_items(set, i);
    let next = set.next(i);
    1 <= n && n <= basics::MOST_MASKS && all_fit(set, Question::Operation, i + 1, next)
}

// Rule 31: the Mask Subtraction Sequence, if present, and each item's Mask Operation.
#[tactic(auto, unfolding(rules::specs::Mask::rule31))]
fn rule_31(set: &DataSet) -> bool
    ensures { result ≡ rule31 (nodes_of set.now) }
{
    match set.find_root(tags::MASK_SUBTRACTION_SEQUENCE) {
        None => true,
        Some(i) => is_mask(set, i),
    }
}

// ---- Rule 32

// Whether a first and a last frame are in their order and among n frames.
fn pair_fits(a: usize, b: usize, n: usize) -> bool
    ensures { result ≡ (leb 1 a && (leb a b && leb b n)) }
{
    1 <= a && a <= b && b <= n
}

#[tactic(auto, using(crate::proofs::Laws::values_along), unfolding(rules::specs::Mask::pairs_fit))]
fn pairs_fit(v: &[u8], n: usize) -> bool
    requires { length v.now % 4 ≡ 0 }
    ensures { result ≡ pairs_fit n (us_values v.now) }
{
    for k in 0..v.len() / 4 {
        if !pair_fits(value::us_value(v, 2 * k), value::us_value(v, 2 * k + 1), n) {
            return false;
        }
    }
    true
}

#[tactic(auto, unfolding(rules::specs::Mask::is_range))]
fn is_range(set: &DataSet, i: usize, n: usize) -> bool
    requires { i < length (nodes_of set.now) }
    ensures { result ≡ is_range (nodes_of set.now) n i }
{
    element::has_pairs(set, i) && pairs_fit(set.value(i), n)
}

// Whether a mask item's Applicable Frame Range, if present, lies within n frames.
#[tactic(auto, unfolding(rules::specs::Mask::range_fits))]
fn range_fits(set: &DataSet, item: usize, n: usize) -> bool
    requires { item < length (nodes_of set.now) }
    ensures { result ≡ range_fits (nodes_of set.now) n item }
{
    match set.find_in_item(item, tags::APPLICABLE_FRAME_RANGE) {
        None => true,
        Some(i) => is_range(set, i, n),
    }
}

// Rule 32: Applicable Frame Range.
#[tactic(auto, unfolding(rules::specs::Mask::rule32))]
fn rule_32(set: &DataSet) -> bool
    ensures { result ≡ rule32 (nodes_of set.now) }
{
    let Some(n) = element::frame_count(set) else {
        return false;
    };
    masks_fit(set, Question::Range(n))
}

// ---- Rule 33

// Whether a number is one of n frames.
fn is_frame(x: usize, n: usize) -> bool
    ensures { result ≡ (leb 1 x && leb x n) }
{
    1 <= x && x <= n
}

#[tactic(auto, using(crate::proofs::Laws::values_along), unfolding(rules::specs::Mask::all_frames))]
fn all_frames(v: &[u8], n: usize) -> bool
    ensures { result ≡ all_frames n (us_values v.now) }
{
    for k in 0..v.len() / 2 {
        if !is_frame(value::us_value(v, k), n) {
            return false;
        }
    }
    true
}

#[tactic(auto, using(crate::proofs::Laws::values_along), unfolding(rules::specs::Mask::are_mask_frames))]
fn are_mask_frames(v: &[u8], n: usize) -> bool
    ensures { result ≡ are_mask_frames n v.now }
{
    let count = v.len() / 2;
    v.len() % 2 == 0 && 1 <= count && count <= basics::MOST_MASK_FRAMES && all_frames(v, n)
}

// Whether a node is a US that is 1.
#[tactic(auto, unfolding(rules::specs::Mask::is_one, node::specs::Find::of_vr))]
fn is_one(set: &DataSet, i: usize) -> bool
    requires { i < length (nodes_of set.now) }
    ensures { result ≡ is_one (nodes_of set.now) i }
{
    set.vr(i) == vrs::US && value::us_of(set.value(i)) == Some(1)
}

// Whether a mask item's Contrast Frame Averaging is absent or 1.
fn contrast_fits(set: &DataSet, item: usize) -> bool
    requires { item < length (nodes_of set.now) }
    ensures { result ≡ if_present (find (nodes_of set.now) ContrastFrameAveraging (inside (nodes_of set.now) item)) (is_one (nodes_of set.now)) }
{
    match set.find_in_item(item, tags::CONTRAST_FRAME_AVERAGING) {
        None => true,
        Some(i) => is_one(set, i),
    }
}

// What is asked of a mask item that averages.
#[tactic(auto, unfolding(rules::specs::Mask::average_fits))]
fn average_fits(set: &DataSet, item: usize, n: usize) -> bool
    requires { item < length (nodes_of set.now) }
    ensures { result ≡ average_fits (nodes_of set.now) n item }
{
    let Some(k) = element::find_vr_item(set, item, tags::MASK_FRAME_NUMBERS, vrs::US) else {
        return false;
    };
    are_mask_frames(set.value(k), n) && contrast_fits(set, item)
}

#[tactic(auto, unfolding(rules::specs::Mask::averages_fit, element::specs::Frames::operation_is))]
fn averages_fit(set: &DataSet, item: usize, n: usize) -> bool
    requires { item < length (nodes_of set.now) }
    ensures { result ≡ averages_fit (nodes_of set.now) n item }
{
    !element::is_cs_item(set, item, tags::MASK_OPERATION, b"AVG_SUB") || average_fits(set, item, n)
}

// Rule 33: AVG_SUB, its Mask Frame Numbers and Contrast Frame Averaging.
#[tactic(auto, unfolding(rules::specs::Mask::rule33))]
fn rule_33(set: &DataSet) -> bool
    ensures { result ≡ rule33 (nodes_of set.now) }
{
    let Some(n) = element::frame_count(set) else {
        return false;
    };
    masks_fit(set, Question::Average(n))
}

// ---- Rule 34

#[tactic(auto, unfolding(rules::specs::Mask::is_offset))]
fn is_offset(set: &DataSet, i: usize) -> bool
    requires { i < length (nodes_of set.now) }
    ensures { result ≡ is_offset (nodes_of set.now) i }
{
    set.vr(i) == vrs::SS && value::is_number(value::ss_of(set.value(i)))
}

// Whether the TID Offset of a mask item that is TID, if present, is one value.
#[tactic(auto, unfolding(rules::specs::Mask::offset_fits, element::specs::Frames::operation_is))]
fn offset_fits(set: &DataSet, item: usize) -> bool
    requires { item < length (nodes_of set.now) }
    ensures { result ≡ offset_fits (nodes_of set.now) item }
{
    if !element::is_cs_item(set, item, tags::MASK_OPERATION, b"TID") {
        return true;
    }
    match set.find_in_item(item, tags::TID_OFFSET) {
        None => true,
        Some(i) => is_offset(set, i),
    }
}

// Rule 34: TID and its offset.
#[tactic(auto, unfolding(rules::specs::Mask::rule34))]
fn rule_34(set: &DataSet) -> bool
    ensures { result ≡ rule34 (nodes_of set.now) }
{
    masks_fit(set, Question::Offset)
}

// ---- Rule 35

#[tactic(auto, unfolding(rules::specs::Mask::is_shift_at))]
fn is_shift_at(set: &DataSet, i: usize) -> bool
    requires { i < length (nodes_of set.now) }
    ensures { result ≡ is_shift_at (nodes_of set.now) i }
{
    set.vr(i) == vrs::FL && shift::is_shift(set.value(i))
}

// Whether a mask item's Mask Sub-pixel Shift, if present, is a shift that rule 35 accepts.
#[tactic(auto, unfolding(rules::specs::Mask::shift_fits))]
fn shift_fits(set: &DataSet, item: usize) -> bool
    requires { item < length (nodes_of set.now) }
    ensures { result ≡ shift_fits (nodes_of set.now) item }
{
    match set.find_in_item(item, tags::MASK_SUB_PIXEL_SHIFT) {
        None => true,
        Some(i) => is_shift_at(set, i),
    }
}

// Rule 35: Mask Sub-pixel Shift.
#[tactic(auto, unfolding(rules::specs::Mask::rule35))]
fn rule_35(set: &DataSet) -> bool
    ensures { result ≡ rule35 (nodes_of set.now) }
{
    masks_fit(set, Question::Shift)
}

// ---- Rule 36

// Whether an item has a Frame Pixel Shift group with items; `otherwise` if it has no such group at all.
#[tactic(auto, unfolding(crate::specs::Internal::has_shifts, node::specs::Find::of_vr))]
fn has_shifts(set: &DataSet, item: usize, otherwise: bool) -> bool
    requires { item < length (nodes_of set.now) }
    ensures { result ≡ has_shifts (nodes_of set.now) item otherwise }
{
    match set.find_in_item(item, tags::FRAME_PIXEL_SHIFT_SEQUENCE) {
        None => otherwise,
        Some(g) => set.vr(g) == vrs::SQ && set.is_filled(g),
    }
}

// Whether any frame has such a group: the first that has one ends the search. The shared group is looked up once.
fn any_shift(set: &DataSet, shared: usize) -> bool
    requires { shared < length (nodes_of set.now) }
    ensures { result ≡ any_shift (nodes_of set.now) shared }
{
    let shared_has = has_shifts(set, shared, false);
    let items = element::frame_items(set);
    set.members(items.at, items.end)
        .any(|item| has_shifts(set, item, shared_has))
}

// Whether every mask item has an ID, and no two the same.
#[tactic(auto, unfolding(rules::specs::Mask::masks_have_ids))]
fn masks_have_ids(set: &DataSet) -> bool
    ensures { result ≡ masks_have_ids (nodes_of set.now) }
{
    let items = element::mask_items(set);
    all_fit(set, Question::Id, items.at, items.end) && ids::are_unique_ids(set, items.at, items.end)
}

// Rule 36: IDs of the mask items, if any frame has a Frame Pixel Shift group.
#[tactic(auto, unfolding(rules::specs::Mask::rule36))]
fn rule_36(set: &DataSet) -> bool
    ensures { result ≡ rule36 (nodes_of set.now) }
{
    let Some(shared) = element::shared_item(set) else {
        return false;
    };
    !any_shift(set, shared) || masks_have_ids(set)
}

// ---- All six

// Whether a rule of the masks holds, by its number.
#[tactic(auto, unfolding(rules::specs::All::rule_at, rules::specs::All::rule_list))]
pub fn mask_rule(set: &DataSet, rule: usize) -> bool
    requires { (31 ≤ rule) × (rule ≤ 36) }
    ensures { result ≡ rule_at (nodes_of set.now) rule 0 }
{
    match rule {
        31 => rule_31(set),
        32 => rule_32(set),
        33 => rule_33(set),
        34 => rule_34(set),
        35 => rule_35(set),
        _ => rule_36(set),
    }
}
