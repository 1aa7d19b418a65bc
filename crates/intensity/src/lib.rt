// Rule 39's two functional groups: the intensity relationship, and the TO_LINEAR item of the LUTs.
#![tactic(auto)]

ghost use Rattle.std.specs.Prelude.{◌≡◌, ◌≤◌, ◌<◌, length};
ghost use Rattle.node.specs.Nodes.{nodes_of, members};
ghost use Rattle.rules.specs.Intensity.{is_linear, linear_among, entry_count, is_lut, has_lut};
ghost use Rattle.intensity.specs.Internal.{grades_agree, relation_of, luts_of, table_of, relation_in, table_in, Stops};

use basics::{tags, u16_at, vrs};
use node::DataSet;

// ---- The TO_LINEAR items

#[tactic(auto, unfolding(rules::specs::Intensity::is_linear))]
fn is_linear(set: &DataSet, item: usize) -> bool
    requires { item < length (nodes_of set.now) }
    ensures { result ≡ is_linear (nodes_of set.now) item }
{
    element::is_cs_item(set, item, tags::LUT_FUNCTION, b"TO_LINEAR")
}

// The first TO_LINEAR item from `from` up to `to`; if there is none, a number not below `to`.
pub fn next_linear(set: &DataSet, from: usize, to: usize) -> usize
    requires { to ≤ length (nodes_of set.now) }
    ensures { Stops (nodes_of set.now) from to result }
{
    let mut j = from;
    while j < to {
        if is_linear(set, j) {
            return j;
        }
        j = set.next(j);
    }
    j
}

// How many entries a LUT Descriptor names: 0 stands for 65,536.
pub fn entry_count(descriptor: &[u8]) -> usize
    requires { 2 ≤ length descriptor.now }
    ensures value { result ≡ entry_count descriptor.now }
    ensures lower_bound { (1 ≤ result) × (result ≤ 65536) }
{
    let n = u16_at(descriptor, 0);
    if n == 0 { 65_536 } else { n }
}

// A descriptor of three numbers, the last 16, and two bytes for each entry.
#[tactic(auto, unfolding(rules::specs::Intensity::is_lut))]
fn is_lut(descriptor: &[u8], table: &[u8]) -> bool
    ensures { result ≡ is_lut descriptor.now table.now }
{
    descriptor.len() == 6
        && u16_at(descriptor, 4) == 16
        && table.len() == 2 * entry_count(descriptor)
}

#[tactic(auto, unfolding(rules::specs::Intensity::has_lut))]
fn has_lut(set: &DataSet, item: usize) -> bool
    requires { item < length (nodes_of set.now) }
    ensures { result ≡ has_lut (nodes_of set.now) item }
{
    let Some(d) = element::find_vr_item(set, item, tags::LUT_DESCRIPTOR, vrs::US) else {
        return false;
    };
    let Some(t) = element::find_vr_item(set, item, tags::LUT_DATA, vrs::OW) else {
        return false;
    };
    is_lut(set.value(d), set.value(t))
}

// ---- Grades of the two groups

// What one of the two groups comes to: broken; sound, with nothing of LOG; sound, and the relationship LOG or the LUTs with the TO_LINEAR
// item that LOG needs.
#[derive(Clone, Copy, PartialEq, Eq)]
pub enum Grade {
    Broken,
    Plain,
    Log,
}

// The items from `from` up to `to`: at most one is TO_LINEAR, and it has its LUT.
fn luts_of(set: &DataSet, from: usize, to: usize) -> Grade
    requires { to ≤ length (nodes_of set.now) }
    ensures { result ≡ luts_of (nodes_of set.now) (linear_among (nodes_of set.now) (members (nodes_of set.now) from to)) }
{
    let k = next_linear(set, from, to);
    if k >= to {
        return Grade::Plain;
    }
    let after = set.next(k);
    let other = next_linear(set, after, to);
    if other < to {
        return Grade::Broken;
    }
    if has_lut(set, k) {
        Grade::Log
    } else {
        Grade::Broken
    }
}

fn table_of(set: &DataSet, group: usize) -> Grade
    requires { group < length (nodes_of set.now) }
    ensures { result ≡ table_of (nodes_of set.now) group }
{
    let from = group + 1;
    let to = set.next(group);
    if set.vr(group) == vrs::SQ && from < to {
        luts_of(set, from, to)
    } else {
        Grade::Broken
    }
}

fn relation_of(set: &DataSet, group: usize) -> Grade
    requires { group < length (nodes_of set.now) }
    ensures { result ≡ relation_of (nodes_of set.now) group }
{
    match element::the_item(set, group) {
        None => Grade::Broken,
        Some(j) => {
            if element::is_cs_item(set, j, tags::PIXEL_INTENSITY_RELATIONSHIP, b"LOG") {
                Grade::Log
            } else {
                Grade::Plain
            }
        }
    }
}

// The grade of the relationship's group in an item; `otherwise` if the item has none. One function for this and `table_in` would take the
// tag and the grade's function besides, and be no shorter.
#[tactic(auto, unfolding(crate::specs::Internal::relation_in))]
pub fn relation_in(set: &DataSet, item: usize, otherwise: Grade) -> Grade
    requires { item < length (nodes_of set.now) }
    ensures { result ≡ relation_in (nodes_of set.now) item otherwise }
{
    match set.find_in_item(item, tags::FRAME_PIXEL_DATA_PROPERTIES_SEQUENCE) {
        None => otherwise,
        Some(g) => relation_of(set, g),
    }
}

#[tactic(auto, unfolding(crate::specs::Internal::table_in))]
pub fn table_in(set: &DataSet, item: usize, otherwise: Grade) -> Grade
    requires { item < length (nodes_of set.now) }
    ensures { result ≡ table_in (nodes_of set.now) item otherwise }
{
    match set.find_in_item(item, tags::PIXEL_INTENSITY_RELATIONSHIP_LUT_SEQUENCE) {
        None => otherwise,
        Some(g) => table_of(set, g),
    }
}

// Whether the two grades of a frame agree.
pub fn grades_agree(relation: Grade, table: Grade) -> bool
    ensures { result ≡ grades_agree relation table }
{
    match relation {
        Grade::Broken => false,
        Grade::Plain => table != Grade::Broken,
        Grade::Log => table == Grade::Log,
    }
}
