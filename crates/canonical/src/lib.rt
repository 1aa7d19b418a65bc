// The canonical form of a data set: defined lengths throughout and no delimiters. specs/Written.antt says what is written;
// `write_canonical`, at the end, is the public call.
#![tactic(auto)]

ghost use Rattle.std.specs.Prelude.{◌≡◌, ◌+◌, ◌-◌, ◌≤◌, ◌<◌, length, ltb};
ghost use Rattle.std.proofs.Math.Seq.{slice};
ghost use Rattle.dataset.specs.Reading.{reading_of};
ghost use Rattle.basics.specs.Limits.{largest};
ghost use Rattle.basics.specs.Fields.{Answers};
ghost use Rattle.dataset.specs.Answer.{buffer_of};
ghost use Rattle.node.specs.Nodes.{nodes_of, node_at};
ghost use Rattle.canonical.specs.Internal.{Put, Fitting, WroteNodes};
ghost use Rattle.canonical.specs.Answer.{canonical_of, target_of, fields_of};
ghost use Rattle.canonical.specs.declared.CanonicalError.TheVariants.{Unread};
ghost use Rattle.canonical.specs.Written.{length_of, header, head_size, own_size, written_size};
ghost use Rattle.basics.specs.Bytes.{IsBytes, le};

use dataset::{ReadError, WIDTH};
use node::DataSet;

// ---- Bytes into the target

// Bytes as they are: a value, and the parts of a header. One by one and not by `copy_from_slice`, since a host whose symbols are bound lazily
// pays the loader some 2,400 bytes of stack at the first call of `memcpy`.
fn put_bytes(target: &mut [u8], at: usize, bytes: &[u8])
    requires { at + length bytes.now ≤ length target.old }
    ensures { Put target.old target.new at bytes.now }
{
    for i in 0..bytes.len() {
        target[at + i] = bytes[i];
    }
}

// The lowest `size` bytes of a number, the lowest first.
fn put_number(target: &mut [u8], at: usize, size: usize, x: usize)
    requires within { at + size ≤ length target.old }
    requires sized { size ≤ 8 }
    ensures { Put target.old target.new at (le size x) }
{
    put_bytes(target, at, &x.to_le_bytes()[..size])
}

fn head_size(vr: usize) -> usize
    ensures { (result ≡ head_size vr) × ((8 ≤ result) × (result ≤ 12)) }
{
    if basics::vr_form(vr) == 2 { 12 } else { 8 }
}

// What follows the tag in a header of `head` bytes.
fn put_length(target: &mut [u8], at: usize, vr: usize, head: usize, size: usize)
    requires { (head ≡ head_size vr) × (at + head ≤ length target.old + 4) }
    ensures { Put target.old target.new at (length_of vr size) }
{
    if vr == 0 {
        put_number(target, at, 4, size)
    } else {
        put_bytes(target, at, &[(vr / 256 % 256) as u8, (vr % 256) as u8]);
        if head == 12 {
            put_number(target, at + 2, 2, 0);
            put_number(target, at + 4, 4, size)
        } else {
            put_number(target, at + 2, 2, size)
        }
    }
}

fn put_header(target: &mut [u8], at: usize, tag: usize, vr: usize, head: usize, size: usize)
    requires { (head ≡ head_size vr) × (at + head ≤ length target.old) }
    ensures { Put target.old target.new at (header tag vr size) }
{
    put_number(target, at, 2, tag / 65536);
    put_number(target, at + 2, 2, tag % 65536);
    put_length(target, at + 4, vr, head, size)
}

// ---- Sizes

// The bytes that node i takes by itself.
fn own_size(set: &DataSet, i: usize) -> usize
    requires { i < length (nodes_of set.now) }
    ensures { result ≡ own_size (node_at (nodes_of set.now) i) }
{
    head_size(set.vr(i)) + set.value(i).len()
}

// The bytes that the nodes from `from` up to `to` take together.
fn span(set: &DataSet, from: usize, to: usize) -> usize
    requires { (from ≤ to) × (to ≤ length (nodes_of set.now)) }
    ensures { (result ≡ written_size (slice from to (nodes_of set.now))) × (result ≤ largest) }
{
    let mut sum: usize = 0;
    for i in from..to {
        sum += own_size(set, i);
    }
    sum
}

// Whether a target of `room` bytes is too short.
fn lacks_room(set: &DataSet, room: usize) -> bool
    ensures { result ≡ ltb room (written_size (nodes_of set.now)) }
{
    room < span(set, 0, set.count())
}

// ---- Nodes into the target

// Writes the nodes from `from` up to `to`, and answers where the next one goes. What is below a node is written before its header, since
// its length is then known, and each node is written once. The calls are at most 17 deep: the first, and one for each of the 16 levels of
// sequences and items.
fn put_members(set: &DataSet, target: &mut [u8], from: usize, to: usize, start: usize) -> usize
    requires { Fitting (nodes_of set.now) target.old from to start }
    ensures { WroteNodes (nodes_of set.now) target.old target.new from start to result }
{
    let mut i = from;
    let mut at = start;
    while i < to {
        let tag = set.tag(i);
        let vr = set.vr(i);
        let next = set.next(i);
        let value = set.value(i);
        let head = head_size(vr);
        let inside = at + head;
        put_bytes(target, inside, value);
        let after = inside + value.len();
        if next == i + 1 {
            put_header(target, at, tag, vr, head, value.len());
            at = after;
            i = next;
            continue;
        }
        let end = put_members(set, target, i + 1, next, after);
        put_header(target, at, tag, vr, head, end - inside);
        at = end;
        i = next;
    }
    at
}

// ---- The call

// Each byte is below 256, as its type says: a fact for a caller's proof.
pub fn knows_bytes(bytes: &[u8])
    ensures { IsBytes bytes.now }
{}

// What `write_canonical` wrote: how many rows it read, and how many bytes the canonical form has.
#[derive(Clone, Copy, Debug, PartialEq, Eq)]
pub struct Written {
    pub rows: usize,
    pub bytes: usize,
}

// Why nothing was written: the data set was not read; or the target is shorter than the number of bytes that would be written, code 21.
#[derive(Clone, Copy, PartialEq, Eq)]
pub enum CanonicalError {
    Unread(ReadError),
    NoTargetRoom(usize),
}

impl From<ReadError> for CanonicalError {
    ghost from_gives = { λ unread error. error ≡ Unread unread };

    fn from(unread: ReadError) -> CanonicalError {
        CanonicalError::Unread(unread)
    }
}

// Reads the data set into the row buffer, and writes its canonical form into the target.
#[tactic(auto, unfolding(crate::specs::Answer::canonical_of, crate::specs::Answer::target_of))]
pub fn write_canonical(
    bytes: &[u8],
    rows: &mut [u32],
    target: &mut [u8],
) -> Result<Written, CanonicalError>
    ensures answers { Answers fields_of result (canonical_of bytes.now rows.old target.old) }
    ensures rows_after { rows.new ≡ buffer_of (reading_of bytes.now) rows.old }
    ensures target_after { target.new ≡ target_of bytes.now rows.old target.old }
{
    let n = dataset::read(bytes, rows)?;
    let set = DataSet::new(bytes, &rows[..WIDTH * n]);
    // The canonical form is never longer than the data set, so its length is added up only for a target that is shorter.
    if target.len() < bytes.len() && lacks_room(&set, target.len()) {
        return Err(CanonicalError::NoTargetRoom(span(&set, 0, n)));
    }
    Ok(Written {
        rows: n,
        bytes: put_members(&set, target, 0, n, 0),
    })
}
