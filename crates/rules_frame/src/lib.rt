// Rules 27 to 30, 37 and 39, which are asked at each frame, over a row table.
#![tactic(auto)]

ghost use Rattle.std.specs.Prelude.{◌≡◌, ◌+◌, ◌-◌, ◌≤◌, ◌<◌, ◌&&◌, eqb, length};
ghost use Rattle.value.specs.Text.{values_of};
ghost use Rattle.value.specs.Number.{all_decimals, all_widths};
ghost use Rattle.node.specs.Nodes.{nodes_of, members, inside};
ghost use Rattle.node.specs.Find.{absent, find};
ghost use Rattle.basics.specs.Tags.{FrameContentSequence};
ghost use Rattle.element.specs.Elements.{every};
ghost use Rattle.rules.specs.Frame.{repeats_shared, item27, item28, is_window, has_window, is_voi, is_shift_item, unique_ids, is_shift_group};
ghost use Rattle.intensity.specs.declared.Grade.TheVariants.{Plain};
ghost use Rattle.intensity.specs.Internal.{relation_in, table_in};
ghost use Rattle.rules_frame.specs.Internal.{is_repeated, group_tag, group_fits, group_holds, shared_ok, item_holds, shared_part};
ghost use Rattle.rules_frame.specs.Internal.{item_grades, item_rule};

use basics::{tags, vrs};
use intensity::Grade;
use node::DataSet;
use value::Function;

// What a rule asks of the shared item alone: for rules 27 to 30 and 37 whether it holds there; for rule 39 the grades of its two
// functional groups, the relationship and the LUTs.
#[derive(Clone, Copy)]
pub enum SharedPart {
    Holds(bool),
    Grades(Grade, Grade),
}

// ---- Rule 27: no sequence is both in the shared item and in the frame's item

// Whether node j is a sequence, and the first member from `k` up to `to` a sequence of the same tag.
#[tactic(auto, unfolding(crate::specs::Internal::is_repeated))]
fn is_repeated(set: &DataSet, j: usize, k: usize, to: usize) -> bool
    requires { (j < length (nodes_of set.now)) × (to ≤ length (nodes_of set.now)) }
    ensures { result ≡ is_repeated (nodes_of set.now) j (members (nodes_of set.now) k to) }
{
    if set.vr(j) != vrs::SQ {
        return false;
    }
    match set.first_is(k, to, set.tag(j)) {
        None => false,
        Some(i) => set.vr(i) == vrs::SQ,
    }
}

// Whether a sequence of the frame's item is in the shared item too. Tags ascend in an item, so one walk goes along both items, step by
// step; neither j nor k goes back, and the end of the shared one ends it. (By hand: two cursors that move in turn.)
fn repeats_narrow(set: &DataSet, shared: usize, item: usize) -> bool
    requires { (shared < length (nodes_of set.now)) × (item < length (nodes_of set.now)) }
    ensures { result ≡ repeats_shared (nodes_of set.now) shared item }
{
    let end = set.next(item);
    let to = set.next(shared);
    let mut j = item + 1;
    let mut k = shared + 1;
    while j < end {
        if to <= k {
            return false;
        }
        if set.tag(k) < set.tag(j) {
            k = set.next(k);
        } else {
            if is_repeated(set, j, k, to) {
                return true;
            }
            j = set.next(j);
        }
    }
    false
}

// The same, by halves in the shared one. (By hand: `reach` moves the cursor k, and the walk goes on from there.)
fn repeats_wide(set: &DataSet, shared: usize, item: usize) -> bool
    requires { (shared < length (nodes_of set.now)) × (item < length (nodes_of set.now)) }
    ensures { result ≡ repeats_shared (nodes_of set.now) shared item }
{
    let end = set.next(item);
    let to = set.next(shared);
    let first = shared + 1;
    let mut j = item + 1;
    let mut k = first;
    while j < end {
        k = set.reach(first, k, to, set.tag(j));
        if to <= k {
            return false;
        }
        if is_repeated(set, j, k, to) {
            return true;
        }
        j = set.next(j);
    }
    false
}

// A shared item of at most this many nodes, itself included, is walked step by step at each frame, which is faster there (bench/CHANGES.md).
const NARROW: usize = 64;

fn repeats_shared(set: &DataSet, shared: usize, item: usize) -> bool
    requires { (shared < length (nodes_of set.now)) × (item < length (nodes_of set.now)) }
    ensures { result ≡ repeats_shared (nodes_of set.now) shared item }
{
    let to = set.next(shared);
    if to - shared <= NARROW {
        repeats_narrow(set, shared, item)
    } else {
        repeats_wide(set, shared, item)
    }
}

#[tactic(auto, unfolding(rules::specs::Frame::item27))]
fn item_27(set: &DataSet, shared: usize, item: usize) -> bool
    requires { (shared < length (nodes_of set.now)) × (item < length (nodes_of set.now)) }
    ensures { result ≡ item27 (nodes_of set.now) shared item }
{
    !repeats_shared(set, shared, item)
}

// ---- Rule 28: Frame Content not in the shared item, and with one item in the frame's

fn is_content_absent(set: &DataSet, shared: usize) -> bool
    requires { shared < length (nodes_of set.now) }
    ensures { result ≡ absent (find (nodes_of set.now) FrameContentSequence (inside (nodes_of set.now) shared)) }
{
    set.find_in_item(shared, tags::FRAME_CONTENT_SEQUENCE)
        .is_none()
}

// `ok` is whether the shared item has no Frame Content.
#[tactic(auto, unfolding(rules::specs::Frame::item28))]
fn item_28(set: &DataSet, shared: usize, ok: bool, item: usize) -> bool
    requires { (item < length (nodes_of set.now))
        × (ok ≡ absent (find (nodes_of set.now) FrameContentSequence (inside (nodes_of set.now) shared))) }
    ensures { result ≡ item28 (nodes_of set.now) shared item }
{
    if !ok {
        return false;
    }
    match set.find_in_item(item, tags::FRAME_CONTENT_SEQUENCE) {
        None => false,
        Some(g) => element::is_one_item(set, g),
    }
}

// ---- Rule 30: Frame VOI LUT

// Centres and widths: equally many, each with its form.
fn are_pairs(least: usize, centers: &[u8], widths: &[u8]) -> bool
    ensures { result ≡ (eqb (length (values_of centers.now)) (length (values_of widths.now)) && (all_decimals centers.now && all_widths least widths.now)) }
{
    value::count_values(centers) == value::count_values(widths)
        && value::all_decimals(centers)
        && value::all_widths(widths, least)
}

#[tactic(auto, unfolding(rules::specs::Frame::is_window))]
fn is_window(f: Option<Function>, centers: &[u8], widths: &[u8]) -> bool
    ensures { result ≡ is_window f centers.now widths.now }
{
    value::is_function(f) && are_pairs(value::least_width(f), centers, widths)
}

#[tactic(auto, unfolding(rules::specs::Frame::has_window))]
fn has_window(set: &DataSet, item: usize) -> bool
    requires { item < length (nodes_of set.now) }
    ensures { result ≡ has_window (nodes_of set.now) (inside (nodes_of set.now) item) }
{
    let Some(c) = element::find_vr_item(set, item, tags::WINDOW_CENTER, vrs::DS) else {
        return false;
    };
    let Some(w) = element::find_vr_item(set, item, tags::WINDOW_WIDTH, vrs::DS) else {
        return false;
    };
    is_window(element::function_in(set, item), set.value(c), set.value(w))
}

#[tactic(auto, unfolding(rules::specs::Frame::is_voi))]
fn is_voi(set: &DataSet, group: usize) -> bool
    requires { group < length (nodes_of set.now) }
    ensures { result ≡ is_voi (nodes_of set.now) group }
{
    match element::the_item(set, group) {
        None => false,
        Some(j) => has_window(set, j),
    }
}

// ---- Rule 37: Frame Pixel Shift

#[tactic(auto, unfolding(rules::specs::Frame::is_shift_item))]
fn is_shift_item(set: &DataSet, item: usize) -> bool
    requires { item < length (nodes_of set.now) }
    ensures { result ≡ is_shift_item (nodes_of set.now) item }
{
    if !ids::has_id(set, item) {
        return false;
    }
    match element::find_vr_item(set, item, tags::MASK_SUB_PIXEL_SHIFT, vrs::FL) {
        None => false,
        Some(k) => shift::is_frame_shift(set.value(k)),
    }
}

// Whether every item from `from` up to `to` has an ID and a shift.
fn are_shift_items(set: &DataSet, from: usize, to: usize) -> bool
    requires { to ≤ length (nodes_of set.now) }
    ensures { result ≡ every (is_shift_item (nodes_of set.now)) (members (nodes_of set.now) from to) }
{
    set.members(from, to).all(|item| is_shift_item(set, item))
}

// No two items from `from` up to `to` have the same ID. A single item is not asked for its ID.
#[tactic(auto, unfolding(rules::specs::Frame::unique_ids))]
fn ids_differ(set: &DataSet, from: usize, to: usize) -> bool
    requires { (from < to) × (to ≤ length (nodes_of set.now)) }
    ensures { result ≡ unique_ids (nodes_of set.now) (members (nodes_of set.now) from to) }
{
    set.next(from) >= to || ids::are_unique_ids(set, from, to)
}

#[tactic(auto, unfolding(rules::specs::Frame::is_shift_group))]
fn is_shift_group(set: &DataSet, group: usize) -> bool
    requires { group < length (nodes_of set.now) }
    ensures { result ≡ is_shift_group (nodes_of set.now) group }
{
    let from = group + 1;
    let to = set.next(group);
    if set.vr(group) != vrs::SQ || from >= to {
        return false;
    }
    are_shift_items(set, from, to) && ids_differ(set, from, to)
}

// ---- The rules by their numbers

#[tactic(auto, unfolding(crate::specs::Internal::group_tag))]
fn group_tag(rule: usize) -> usize
    ensures { result ≡ group_tag rule }
{
    match rule {
        29 => tags::XA_XRF_FRAME_CHARACTERISTICS_SEQUENCE,
        30 => tags::FRAME_VOI_LUT_SEQUENCE,
        _ => tags::FRAME_PIXEL_SHIFT_SEQUENCE,
    }
}

// What rule 29, 30 or 37 asks of its functional group.
#[tactic(auto, unfolding(crate::specs::Internal::group_fits))]
fn group_fits(set: &DataSet, rule: usize, group: usize) -> bool
    requires { group < length (nodes_of set.now) }
    ensures { result ≡ group_fits (nodes_of set.now) rule group }
{
    match rule {
        29 => element::is_one_item(set, group),
        30 => is_voi(set, group),
        _ => is_shift_group(set, group),
    }
}

// The functional group of rule 29, 30 or 37 in an item; `otherwise` if the item has none.
#[tactic(auto, unfolding(crate::specs::Internal::group_holds))]
fn group_holds(set: &DataSet, rule: usize, item: usize, otherwise: bool) -> bool
    requires { item < length (nodes_of set.now) }
    ensures { result ≡ group_holds (nodes_of set.now) rule item otherwise }
{
    match set.find_in_item(item, group_tag(rule)) {
        None => otherwise,
        Some(g) => group_fits(set, rule, g),
    }
}

// What rules 27 to 30 and 37 ask of the shared item alone.
#[tactic(auto, unfolding(crate::specs::Internal::shared_ok))]
fn shared_ok(set: &DataSet, rule: usize, shared: usize) -> bool
    requires { shared < length (nodes_of set.now) }
    ensures { result ≡ shared_ok (nodes_of set.now) rule shared }
{
    match rule {
        27 => true,
        28 => is_content_absent(set, shared),
        _ => group_holds(set, rule, shared, true),
    }
}

// Rules 27 to 30 and 37 at a frame.
#[tactic(auto, unfolding(crate::specs::Internal::item_holds, crate::specs::Internal::shared_ok))]
fn item_holds(set: &DataSet, rule: usize, shared: usize, ok: bool, item: usize) -> bool
    requires { (shared < length (nodes_of set.now))
        × ((item < length (nodes_of set.now)) × (ok ≡ shared_ok (nodes_of set.now) rule shared)) }
    ensures { result ≡ item_holds (nodes_of set.now) rule shared item }
{
    match rule {
        27 => item_27(set, shared, item),
        28 => item_28(set, shared, ok, item),
        _ => group_holds(set, rule, item, ok),
    }
}

// ---- Rule 39: the grades of its two groups

// `relation` and `table` are the grades of the shared item's groups.
#[tactic(auto, unfolding(crate::specs::Internal::item_grades))]
fn item_39(set: &DataSet, shared: usize, relation: Grade, table: Grade, item: usize) -> bool
    requires { (item < length (nodes_of set.now))
        × ((relation ≡ relation_in (nodes_of set.now) shared Plain) × (table ≡ table_in (nodes_of set.now) shared Plain)) }
    ensures { result ≡ item_grades (nodes_of set.now) shared item }
{
    intensity::grades_agree(
        intensity::relation_in(set, item, relation),
        intensity::table_in(set, item, table),
    )
}

// ---- All of them

// What a rule asks of the shared item alone: worked out once for the rule.
#[tactic(auto, unfolding(crate::specs::Internal::shared_part))]
pub fn shared_part(set: &DataSet, rule: usize, shared: usize) -> SharedPart
    requires { shared < length (nodes_of set.now) }
    ensures { result ≡ shared_part (nodes_of set.now) rule shared }
{
    if rule == 39 {
        SharedPart::Grades(
            intensity::relation_in(set, shared, Grade::Plain),
            intensity::table_in(set, shared, Grade::Plain),
        )
    } else {
        SharedPart::Holds(shared_ok(set, rule, shared))
    }
}

// A rule at a frame: `shared` is the shared item, `part` the rule's part there, `item` the frame's item.
#[tactic(auto, unfolding(crate::specs::Internal::item_rule, crate::specs::Internal::shared_part))]
pub fn item_rule(set: &DataSet, rule: usize, shared: usize, part: SharedPart, item: usize) -> bool
    requires { (shared < length (nodes_of set.now))
        × ((item < length (nodes_of set.now)) × (part ≡ shared_part (nodes_of set.now) rule shared)) }
    ensures { result ≡ item_rule (nodes_of set.now) rule shared item }
{
    match part {
        SharedPart::Grades(relation, table) => item_39(set, shared, relation, table, item),
        SharedPart::Holds(ok) => item_holds(set, rule, shared, ok, item),
    }
}
