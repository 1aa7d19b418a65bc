// Subtraction Item IDs: whether an item has one, and whether no two items have the same.
#![tactic(auto)]

ghost use Rattle.std.specs.Prelude.{◌≡◌, ◌≤◌, ◌<◌, length};
ghost use Rattle.node.specs.Nodes.{nodes_of, members};
ghost use Rattle.rules.specs.Frame.{is_in, unique_ids, has_id};
ghost use Rattle.ids.specs.Internal.{AllZero, id_of, ids_of};

use basics::tags;
use node::DataSet;

// Up to this many items are compared in pairs; the IDs of more are marked in a table.
const FEW: usize = 16;

#[tactic(auto, unfolding(rules::specs::Frame::has_id))]
pub fn has_id(set: &DataSet, item: usize) -> bool
    requires { item < length (nodes_of set.now) }
    ensures { result ≡ has_id (nodes_of set.now) item }
{
    element::us_item(set, item, tags::SUBTRACTION_ITEM_ID).is_some()
}

// The ID of an item, 0 if it has none.
fn id_of(set: &DataSet, item: usize) -> usize
    requires { item < length (nodes_of set.now) }
    ensures value { result ≡ id_of (nodes_of set.now) item }
    ensures upper_bound { result < 65536 }
{
    element::us_item(set, item, tags::SUBTRACTION_ITEM_ID).unwrap_or(0)
}

// Whether an ID is among those of the items from `from` up to `to`.
fn is_among(set: &DataSet, from: usize, to: usize, id: usize) -> bool
    requires { to ≤ length (nodes_of set.now) }
    ensures { result ≡ is_in id (ids_of (nodes_of set.now) (members (nodes_of set.now) from to)) }
{
    set.members(from, to).any(|item| id_of(set, item) == id)
}

// No ID twice: each is compared with all that follow it. (A walk by hand, since the second one starts at the item after.)
#[tactic(auto, using(crate::proofs::Laws::members_along), unfolding(rules::specs::Frame::unique_ids, rules::specs::Frame::unique))]
fn are_unique_pairs(set: &DataSet, from: usize, to: usize) -> bool
    requires { to ≤ length (nodes_of set.now) }
    ensures { result ≡ unique_ids (nodes_of set.now) (members (nodes_of set.now) from to) }
{
    let mut at = from;
    while at < to {
        let next = set.next(at);
        if is_among(set, next, to, id_of(set, at)) {
            return false;
        }
        at = next;
    }
    true
}

// A table with no ID marked.
fn no_marks() -> [u8; 65536]
    ensures { AllZero 65536 result }
{
    [0; 65536]
}

// No ID twice: each is marked, and none may be marked already.
#[tactic(auto, using(crate::proofs::Laws::marks_along))]
fn are_unique_marks(set: &DataSet, from: usize, to: usize) -> bool
    requires { to ≤ length (nodes_of set.now) }
    ensures { result ≡ unique_ids (nodes_of set.now) (members (nodes_of set.now) from to) }
{
    let mut marks = no_marks();
    for item in set.members(from, to) {
        let id = id_of(set, item);
        if marks[id] != 0 {
            return false;
        }
        marks[id] = 1;
    }
    true
}

// Whether there are few items.
fn are_few(set: &DataSet, from: usize, to: usize) -> bool
    requires { to ≤ length (nodes_of set.now) }
{
    set.members(from, to).nth(FEW).is_none()
}

// No two of the items from `from` up to `to` have the same ID. (One without an ID counts as 0.)
pub fn are_unique_ids(set: &DataSet, from: usize, to: usize) -> bool
    requires { to ≤ length (nodes_of set.now) }
    ensures { result ≡ unique_ids (nodes_of set.now) (members (nodes_of set.now) from to) }
{
    if are_few(set, from, to) {
        are_unique_pairs(set, from, to)
    } else {
        are_unique_marks(set, from, to)
    }
}
