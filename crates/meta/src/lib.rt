// The head of a file: where the data set starts, and where the SOP class is that the head names; or why it is refused. specs/Meta says
// what a head is, in the order of the paper; `read_head`, at the end, is the public call. The head's rows are not stored: a walk along
// its elements notes what is looked for.
#![tactic(auto)]

ghost use Rattle.std.specs.Prelude.{◌≡◌, ◌+◌, ◌-◌, ◌≤◌, false, length};
ghost use Rattle.dataset.specs.Reading.{depths, elements_at, value_run};
ghost use Rattle.dataset.specs.Header.{cursor};
ghost use Rattle.dataset.specs.Internal.{Walked, Ready, items_at};
ghost use Rattle.meta.specs.Meta.{start, is_marked, has_group_length, head_end, uid_at, noted, named, headed_of, meta_of};
ghost use Rattle.meta.specs.Internal.{UidWithin, PlacesWithin, FoundWithin, MetaWithin, walk_of};

use basics::{tags, vrs};
use dataset::{Cursor, DEPTHS, Head, Refusal, Walk};

// Where "DICM" stands: after 128 bytes of anything.
const MARK: usize = 128;

// Where the head's elements start: after it.
const START: usize = 132;

// Where a value starts and stops in the file.
#[derive(Clone, Copy, Debug, PartialEq, Eq)]
pub struct Place {
    pub start: usize,
    pub stop: usize,
}

// Where the two UIDs are among the head's elements at depth 0.
#[derive(Clone, Copy)]
struct HeadFindings {
    class: Option<Place>,
    syntax: Option<Place>,
}

// What a head says: where the data set starts, and where the SOP class is that the head names.
#[derive(Clone, Copy, Debug, PartialEq, Eq)]
pub struct FileHead {
    pub data_set: usize,
    pub class: Place,
}

// Why a head is refused: codes 15, 16, 17.
#[derive(Clone, Copy, Debug, PartialEq, Eq)]
pub enum HeadError {
    NoMark,
    BadHead,
    OtherSyntax,
}

#[tactic(auto, unfolding(crate::specs::Meta::is_marked))]
fn is_marked(file: &[u8]) -> bool
    ensures { result ≡ is_marked file.now }
{
    START <= file.len() && &file[MARK..START] == b"DICM".as_slice()
}

#[tactic(auto, unfolding(crate::specs::Meta::has_group_length))]
fn has_group_length(file: &[u8]) -> bool
    ensures { result ≡ has_group_length file.now }
{
    START + 12 <= file.len()
        && basics::tag_at(file, START) == tags::FILE_META_INFORMATION_GROUP_LENGTH
        && basics::vr_at(file, START + 4) == vrs::UL
        && basics::u16_at(file, START + 6) == 4
}

#[tactic(auto, unfolding(crate::specs::Meta::uid_at))]
fn uid_at(vr: usize, start: usize, stop: usize) -> Option<Place>
    requires { start ≤ stop }
    ensures value { result ≡ uid_at vr start (stop - start) }
    ensures uid_within { UidWithin stop result }
{
    if vr == vrs::UI && start < stop {
        Some(Place { start, stop })
    } else {
        None
    }
}

// What is found with one more element; nothing if one is of another group than 0002.
#[tactic(auto, unfolding(crate::specs::Meta::noted))]
fn note(
    found: Option<HeadFindings>,
    tag: usize,
    vr: usize,
    start: usize,
    stop: usize,
) -> Option<HeadFindings>
    requires { start ≤ stop }
    ensures { result ≡ noted found tag vr start (stop - start) }
{
    let found = found?;
    if tag / 65536 != 2 {
        return None;
    }
    let here = uid_at(vr, start, stop);
    Some(HeadFindings {
        class: if tag == tags::MEDIA_STORAGE_SOP_CLASS_UID {
            here
        } else {
            found.class
        },
        syntax: if tag == tags::TRANSFER_SYNTAX_UID {
            here
        } else {
            found.syntax
        },
    })
}

// A sequence of the head, item by item. There is no buffer for its rows, which are numbered from `first`. The readers of `dataset` have the
// same two functions: if this crate called theirs, the compiler would no longer inline them there, and reading a data set would take 8 to
// 37 % more instructions.
fn items(file: &[u8], c: Cursor, none: &mut [u32], first: usize) -> Result<Walk, Refusal>
    requires { Ready file.now c 7 first (length none.old) × (length none.old ≡ 0) }
    ensures { Walked (items_at 7 file.now first c) c first none.old none.new result }
{
    let mut here = c;
    let mut n = first;
    loop {
        match here.item(file) {
            Err(fault) => {
                return Err(Refusal {
                    fault,
                    offset: here.at,
                });
            }
            Ok(Head::End(_, _, next)) => {
                return Ok(Walk {
                    stop: here.at,
                    next: next.at,
                    rows: n,
                });
            }
            Ok(Head::Header(_, _, item)) => {
                let walk = dataset::read_item(file, item, DEPTHS - 1, none, n + 1)?;
                here = here.moved(walk.next);
                n = walk.rows;
            }
        }
    }
}

// The result of reading a value.
fn past(
    file: &[u8],
    vr: usize,
    value: Cursor,
    none: &mut [u32],
    first: usize,
) -> Result<Walk, Refusal>
    requires { Ready file.now value 7 first (length none.old) × (length none.old ≡ 0) }
    ensures { Walked (value_run depths file.now first vr value) value first none.old none.new result }
{
    if vr == vrs::SQ {
        items(file, value, none, first)
    } else {
        Ok(Walk {
            stop: value.end,
            next: value.end,
            rows: first,
        })
    }
}

// What is found in the head's elements up to `end`; nothing if they break a reading check or one is of another group than 0002. There is
// no buffer for their rows.
fn walk_head(file: &[u8], end: usize, none: &mut [u32]) -> Option<HeadFindings>
    requires { (start ≤ end) × ((end ≤ length file.now) × (length none.old ≡ 0)) }
    ensures value { result ≡ walk_of (elements_at depths file.now 0 (cursor start end false)) }
    ensures found_within { FoundWithin (length file.now) result }
{
    let mut here = Cursor {
        at: START,
        end,
        delimited: false,
    };
    let mut n: usize = 0;
    let mut least: usize = 0;
    let mut found = Some(HeadFindings {
        class: None,
        syntax: None,
    });
    loop {
        match here.element(file, least, DEPTHS) {
            Err(_) => return None,
            Ok(Head::End(_, _, _)) => return found,
            Ok(Head::Header(tag, vr, value)) => {
                let Ok(walk) = past(file, vr, value, none, n + 1) else {
                    return None;
                };
                found = note(found, tag, vr, value.at, walk.stop);
                here = here.moved(walk.next);
                n = walk.rows;
                least = tag + 1;
            }
        }
    }
}

// Both UIDs must be there, both single, and the second Explicit VR Little Endian.
fn names(file: &[u8], end: usize, found: HeadFindings) -> Result<FileHead, HeadError>
    requires { ((end ≡ head_end file.now) × (end ≤ length file.now)) × PlacesWithin (length file.now) found }
    ensures value { result ≡ named file.now found.class found.syntax }
    ensures meta_within { MetaWithin (length file.now) result }
{
    let class = found.class.ok_or(HeadError::BadHead)?;
    let syntax = found.syntax.ok_or(HeadError::BadHead)?;
    let syntax = &file[syntax.start..syntax.stop];
    if !value::is_single(&file[class.start..class.stop]) || !value::is_single(syntax) {
        return Err(HeadError::BadHead);
    }
    if !value::is_uid(syntax, b"1.2.840.10008.1.2.1") {
        return Err(HeadError::OtherSyntax);
    }
    Ok(FileHead {
        data_set: end,
        class,
    })
}

// The head of a file with a mark and a group length.
#[tactic(auto, unfolding(crate::specs::Meta::headed_of, crate::specs::Meta::head_of, crate::specs::Meta::head_end))]
fn headed(file: &[u8]) -> Result<FileHead, HeadError>
    requires { start + 12 ≤ length file.now }
    ensures value { result ≡ headed_of file.now }
    ensures meta_within { MetaWithin (length file.now) result }
{
    let end = START + 12 + basics::u32_at(file, START + 8);
    if file.len() < end {
        return Err(HeadError::BadHead);
    }
    let mut none = [0u32; 0];
    let found = walk_head(file, end, &mut none).ok_or(HeadError::BadHead)?;
    names(file, end, found)
}

// What the head of a file says.
#[tactic(auto, unfolding(crate::specs::Meta::meta_of, crate::specs::Meta::has_group_length))]
pub fn read_head(file: &[u8]) -> Result<FileHead, HeadError>
    ensures value { result ≡ meta_of file.now }
    ensures meta_within { MetaWithin (length file.now) result }
{
    if !is_marked(file) {
        return Err(HeadError::NoMark);
    }
    if !has_group_length(file) {
        return Err(HeadError::BadHead);
    }
    headed(file)
}
