// The reader of a data set in Explicit VR Little Endian: a row for each element and item, or the first refusal.
// specs/ says what a reading is, in the order of the paper; `count` and `read`, at the end, are the public calls.
#![tactic(auto)]

ghost use Rattle.std.specs.Prelude.{◌≡◌, ◌+◌, ◌-◌, ◌*◌, ◌≤◌, ◌<◌, [], ◌∷◌, length, false};
ghost use Rattle.std.proofs.lemmas.List.Edits.{sets};
ghost use Rattle.dataset.specs.Fault.{code_of};
ghost use Rattle.dataset.specs.Header.{cursor, moved, delimiter_by, nested_by, defined_by, long_by, typed_at, tagged_at, sized_by, member_at};
ghost use Rattle.dataset.specs.Header.{element_at, item_at};
ghost use Rattle.dataset.specs.Reading.{elements_at, value_run, reading_of};
ghost use Rattle.dataset.specs.declared.ReadError.TheVariants.{Refused};
ghost use Rattle.basics.specs.Vr.{SQ};
ghost use Rattle.basics.specs.Fields.{Answers};
ghost use Rattle.dataset.specs.Answer.{width, answer_of, count_of, buffer_of, flat, fields_of};
ghost use Rattle.dataset.specs.Internal.{Within, Begins, IsStorable, Walked, LeafWalked, Ready, items_at};

use basics::{LARGEST, tag_at, tags, u16_at, u32_at, vr_at, vr_form, vrs};

// How many numbers a row has, and the place of each; the tag is first.
pub const WIDTH: usize = 7;

pub const VR: usize = 1;

pub const DEPTH: usize = 2;

pub const OFFSET: usize = 3;

pub const SIZE: usize = 4;

pub const DESCENDANTS: usize = 5;

pub const PARENT: usize = 6;

// How deep sequences may nest.
pub const DEPTHS: usize = 8;

const UNDEFINED: usize = 0xFFFF_FFFF;

// An offset in the data set, the innermost known end, and whether a delimiter closes what is read here.
#[derive(Clone, Copy)]
pub struct Cursor {
    pub at: usize,
    pub end: usize,
    pub delimited: bool,
}

// Why a header is refused.
#[derive(Clone, Copy, PartialEq, Eq)]
pub enum Fault {
    // Bytes are missing up to the innermost known end, or a length reaches past it.
    CutShort,
    // The tag is not above the one before it in the same data set.
    NotAscending,
    // The VR is not one of those that are listed.
    UnlistedVr,
    // The length is odd.
    OddLength,
    // An item, a delimiter, an undefined length or reserved bytes that may not be there.
    NotDue,
    // A sequence at depth 8.
    TooDeep,
}

// A refusal: why, and at which offset.
#[derive(Clone, Copy, PartialEq, Eq)]
pub struct Refusal {
    pub fault: Fault,
    pub offset: usize,
}

// Why a data set has no rows: it is refused, larger than is read, or the buffer has no room for its rows.
#[derive(Clone, Copy, PartialEq, Eq)]
pub enum ReadError {
    Refused(Refusal),
    TooLarge,
    NoRoom,
}

// What is at a cursor: a header's tag and VR, with the cursor moved onto its value; or the end of what is read, with the cursor moved after
// it. An end has the tag of its delimiter and VR 0, or 0 for both at a known end. It has the fields of a header, in their order, because
// that makes the readers' loops faster.
#[derive(Clone, Copy)]
pub enum Head {
    Header(usize, usize, Cursor),
    End(usize, usize, Cursor),
}

// How far a walk along one level came: where its value stops, the offset after it, and the number of the next row.
#[derive(Clone, Copy)]
pub struct Walk {
    pub stop: usize,
    pub next: usize,
    pub rows: usize,
}

// The seven numbers of a row, in the order of the places above.
#[derive(Clone, Copy)]
pub struct Row {
    pub tag: usize,
    pub vr: usize,
    pub depth: usize,
    pub offset: usize,
    pub size: usize,
    pub descendants: usize,
    pub parent: usize,
}

impl Fault {
    // The number of the paper.
    pub fn code(self) -> usize
        ensures { result ≡ code_of self }
    {
        match self {
            Fault::CutShort => 1,
            Fault::NotAscending => 2,
            Fault::UnlistedVr => 3,
            Fault::OddLength => 4,
            Fault::NotDue => 5,
            Fault::TooDeep => 6,
        }
    }
}

impl From<Refusal> for ReadError {
    ghost from_gives = { λ refusal error. error ≡ Refused refusal };

    fn from(refusal: Refusal) -> ReadError {
        ReadError::Refused(refusal)
    }
}

// What reads one element's header is inlined into the walks, here and in `meta`: as a call it hands cursor and answer over in memory, and a
// head of many elements took half as many instructions more.
impl Cursor {
    // The cursor at the start of a data set of so many bytes.
    fn start(size: usize) -> Cursor
        ensures { result ≡ cursor 0 size false }
    {
        Cursor {
            at: 0,
            end: size,
            delimited: false,
        }
    }

    // The cursor at another offset of the same level.
    pub fn moved(self, at: usize) -> Cursor
        ensures { result ≡ moved self at }
    {
        Cursor {
            at,
            end: self.end,
            delimited: self.delimited,
        }
    }

    // The delimiter `due`, if one is due.
    #[tactic(auto, unfolding(crate::specs::Header::delimiter_by, crate::specs::Header::when))]
    #[inline(always)]
    fn delimiter(self, tag: usize, due: usize, len: usize) -> Result<Head, Fault>
        requires { self.at + 8 ≤ self.end }
        ensures value { result ≡ delimiter_by self tag due len }
        ensures within { Within self result }
    {
        if self.delimited && tag == due && len == 0 {
            Ok(Head::End(tag, 0, self.moved(self.at + 8)))
        } else {
            Err(Fault::NotDue)
        }
    }

    // A value within the cursor's end; a sequence needs a level below it.
    #[tactic(auto, unfolding(crate::specs::Header::nested_by, crate::specs::Header::when))]
    #[inline(always)]
    fn nested(self, tag: usize, vr: usize, levels: usize, value: Cursor) -> Result<Head, Fault>
        requires { (self.at + 8 ≤ value.at)
            × ((value.at ≤ value.end) × ((value.end ≤ self.end) × ((tag < 4294967296) × (vr < 65536)))) }
        ensures value { result ≡ nested_by tag vr levels value }
        ensures within { Within self result }
    {
        if vr == vrs::SQ && levels == 0 {
            Err(Fault::TooDeep)
        } else {
            Ok(Head::Header(tag, vr, value))
        }
    }

    // A value of a defined length.
    #[tactic(auto, unfolding(crate::specs::Header::defined_by, crate::specs::Header::when))]
    #[inline(always)]
    fn defined(
        self,
        tag: usize,
        vr: usize,
        start: usize,
        len: usize,
        levels: usize,
    ) -> Result<Head, Fault>
        requires { (self.at + 8 ≤ start) × ((start ≤ self.end) × ((tag < 4294967296) × (vr < 65536))) }
        ensures value { result ≡ defined_by self tag vr start len levels }
        ensures within { Within self result }
    {
        if len % 2 == 1 {
            return Err(Fault::OddLength);
        }
        if self.end - start < len {
            return Err(Fault::CutShort);
        }
        let value = Cursor {
            at: start,
            end: start + len,
            delimited: false,
        };
        self.nested(tag, vr, levels, value)
    }

    // A value with a 32-bit length, which may be undefined.
    #[tactic(auto, unfolding(crate::specs::Header::long_by, crate::specs::Header::when))]
    #[inline(always)]
    fn long(
        self,
        tag: usize,
        vr: usize,
        start: usize,
        len: usize,
        levels: usize,
    ) -> Result<Head, Fault>
        requires { (self.at + 8 ≤ start) × ((start ≤ self.end) × ((tag < 4294967296) × (vr < 65536))) }
        ensures value { result ≡ long_by self tag vr start len levels }
        ensures within { Within self result }
    {
        if len == UNDEFINED {
            if vr == vrs::SQ {
                let value = Cursor {
                    at: start,
                    end: self.end,
                    delimited: true,
                };
                return self.nested(tag, vr, levels, value);
            }
            return Err(Fault::NotDue);
        }
        self.defined(tag, vr, start, len, levels)
    }

    // Checks 4 to 8 of an element of the tag, VR and form, with the 16 bits after the VR.
    #[tactic(auto, unfolding(crate::specs::Header::typed_at, crate::specs::Header::when))]
    #[inline(always)]
    pub fn typed(
        self,
        s: &[u8],
        tag: usize,
        vr: usize,
        form: usize,
        short: usize,
        levels: usize,
    ) -> Result<Head, Fault>
        requires { (self.at + 8 ≤ self.end) × ((self.end ≤ length s.now) × ((tag < 4294967296) × (vr < 65536))) }
        ensures value { result ≡ typed_at s.now self tag vr form short levels }
        ensures within { Within self result }
    {
        if form == 0 {
            return Err(Fault::UnlistedVr);
        }
        if form == 1 {
            return self.defined(tag, vr, self.at + 8, short, levels);
        }
        if self.end - self.at < 12 {
            return Err(Fault::CutShort);
        }
        if short == 0 {
            self.long(tag, vr, self.at + 12, u32_at(s, self.at + 8), levels)
        } else {
            Err(Fault::NotDue)
        }
    }

    // Checks 2 to 8 of an element of the tag.
    #[tactic(auto, unfolding(crate::specs::Header::tagged_at, crate::specs::Header::when))]
    #[inline(always)]
    fn tagged(self, s: &[u8], tag: usize, least: usize, levels: usize) -> Result<Head, Fault>
        requires { (self.at + 8 ≤ self.end) × ((self.end ≤ length s.now) × (tag < 4294967296)) }
        ensures value { result ≡ tagged_at s.now self tag least levels }
        ensures within { Within self result }
    {
        if tag / 65536 == tags::ITEM_GROUP {
            return self.delimiter(tag, tags::ITEM_DELIMITER, u32_at(s, self.at + 4));
        }
        if tag < least {
            return Err(Fault::NotAscending);
        }
        let vr = vr_at(s, self.at + 4);
        self.typed(s, tag, vr, vr_form(vr), u16_at(s, self.at + 6), levels)
    }

    // Check 7 of an item of the 32-bit length.
    #[tactic(auto, unfolding(crate::specs::Header::sized_by, crate::specs::Header::when))]
    fn sized(self, len: usize) -> Result<Head, Fault>
        requires { self.at + 8 ≤ self.end }
        ensures value { result ≡ sized_by self len }
        ensures within { Within self result }
    {
        if len == UNDEFINED {
            let value = Cursor {
                at: self.at + 8,
                end: self.end,
                delimited: true,
            };
            return Ok(Head::Header(tags::ITEM, 0, value));
        }
        self.defined(tags::ITEM, 0, self.at + 8, len, 0)
    }

    // Checks 2 and 7 of a header among items with the tag.
    #[tactic(auto, unfolding(crate::specs::Header::member_at, crate::specs::Header::when))]
    fn member(self, s: &[u8], tag: usize) -> Result<Head, Fault>
        requires { (self.at + 8 ≤ self.end) × (self.end ≤ length s.now) }
        ensures value { result ≡ member_at s.now self tag }
        ensures within { Within self result }
    {
        if tag == tags::ITEM {
            return self.sized(u32_at(s, self.at + 4));
        }
        self.delimiter(tag, tags::SEQUENCE_DELIMITER, u32_at(s, self.at + 4))
    }

    // Whether there is a header, with 8 bytes at least; or else the known end is reached exactly. Any other end is refused.
    #[tactic(auto, unfolding(crate::specs::Header::header_by, crate::specs::Header::when))]
    #[inline(always)]
    fn has_header(self) -> Result<bool, Fault>
        requires { self.at ≤ self.end }
        ensures { Begins self result }
    {
        if self.at == self.end {
            return if self.delimited {
                Err(Fault::CutShort)
            } else {
                Ok(false)
            };
        }
        if self.end - self.at < 8 {
            return Err(Fault::CutShort);
        }
        Ok(true)
    }

    // What is at the cursor among elements; tags below `least` are refused, and `levels` more levels are permitted.
    #[inline(always)]
    pub fn element(self, s: &[u8], least: usize, levels: usize) -> Result<Head, Fault>
        requires { (self.at ≤ self.end) × (self.end ≤ length s.now) }
        ensures value { result ≡ element_at s.now self least levels }
        ensures within { Within self result }
    {
        if !self.has_header()? {
            return Ok(Head::End(0, 0, self));
        }
        self.tagged(s, tag_at(s, self.at), least, levels)
    }

    // What is at the cursor among items.
    pub fn item(self, s: &[u8]) -> Result<Head, Fault>
        requires { (self.at ≤ self.end) × (self.end ≤ length s.now) }
        ensures value { result ≡ item_at s.now self }
        ensures within { Within self result }
    {
        if !self.has_header()? {
            return Ok(Head::End(0, 0, self));
        }
        self.member(s, tag_at(s, self.at))
    }
}

// Writes row n, if the buffer has room for it. Seven writes: one copy of an array takes 12 % more instructions to read a data set.
fn put_row(rows: &mut [u32], n: usize, row: Row)
    requires header { 8 * n + 8 ≤ row.offset }
    requires storable { width * n + width ≤ length rows.old → IsStorable row }
    ensures { width * n + width ≤ length rows.old → rows.new ≡ sets rows.old (width * n) (flat (row ∷ [])) }
{
    let i = WIDTH * n;
    if i + WIDTH <= rows.len() {
        rows[i] = row.tag as u32;
        rows[i + VR] = row.vr as u32;
        rows[i + DEPTH] = row.depth as u32;
        rows[i + OFFSET] = row.offset as u32;
        rows[i + SIZE] = row.size as u32;
        rows[i + DESCENDANTS] = row.descendants as u32;
        rows[i + PARENT] = row.parent as u32;
    }
}

// Each walk goes along one level, from a cursor at its start: `levels` more levels are permitted below it, and `first` is the number of
// its first row, which is the number from 1 of the row that holds it.

// An item without sequences, element by element: the readers below call each other only for an item that has one. It is abandoned at a
// sequence (`None`), and what was written so far is written again.
fn read_leaf(
    s: &[u8],
    c: Cursor,
    levels: usize,
    rows: &mut [u32],
    first: usize,
) -> Result<Option<Walk>, Refusal>
    requires { Ready s.now c levels first (length rows.old) }
    ensures { LeafWalked (elements_at levels s.now first c) c first rows.old rows.new result }
{
    let mut here = c;
    let mut n = first;
    let mut least: usize = 0;
    loop {
        match here.element(s, least, levels) {
            Err(fault) => {
                return Err(Refusal {
                    fault,
                    offset: here.at,
                });
            }
            Ok(Head::End(_, _, next)) => {
                return Ok(Some(Walk {
                    stop: here.at,
                    next: next.at,
                    rows: n,
                }));
            }
            Ok(Head::Header(tag, vr, value)) => {
                if vr == vrs::SQ {
                    return Ok(None);
                }
                let row = Row {
                    tag,
                    vr,
                    depth: DEPTHS - levels,
                    offset: value.at,
                    size: value.end - value.at,
                    descendants: 0,
                    parent: first,
                };
                put_row(rows, n, row);
                here = here.moved(value.end);
                n += 1;
                least = tag + 1;
            }
        }
    }
}

// The four readers call each other: an item has elements, an element a value, a sequence's value is its members, and a member that
// contains sequences is an item again. At each item the cursor has fewer bytes left (`end - at`), by at least a header; and no more than 8
// levels are permitted.

// An item, or the whole data set, element by element.
#[cycle(readers)]
pub fn read_item(
    s: &[u8],
    c: Cursor,
    levels: usize,
    rows: &mut [u32],
    first: usize,
) -> Result<Walk, Refusal>
    requires { Ready s.now c levels first (length rows.old) }
    ensures { Walked (elements_at levels s.now first c) c first rows.old rows.new result }
{
    let mut here = c;
    let mut n = first;
    let mut least: usize = 0;
    loop {
        match here.element(s, least, levels) {
            Err(fault) => {
                return Err(Refusal {
                    fault,
                    offset: here.at,
                });
            }
            Ok(Head::End(_, _, next)) => {
                return Ok(Walk {
                    stop: here.at,
                    next: next.at,
                    rows: n,
                });
            }
            Ok(Head::Header(tag, vr, value)) => {
                let walk = read_value(s, vr, value, levels, rows, n + 1)?;
                let row = Row {
                    tag,
                    vr,
                    depth: DEPTHS - levels,
                    offset: value.at,
                    size: walk.stop - value.at,
                    descendants: walk.rows - n - 1,
                    parent: first,
                };
                put_row(rows, n, row);
                here = here.moved(walk.next);
                n = walk.rows;
                least = tag + 1;
            }
        }
    }
}

// An element's value: a sequence's members, one level deeper; any other value has no rows, and ends at its end.
#[cycle(readers)]
fn read_value(
    s: &[u8],
    vr: usize,
    value: Cursor,
    levels: usize,
    rows: &mut [u32],
    first: usize,
) -> Result<Walk, Refusal>
    requires ready { Ready s.now value levels first (length rows.old) }
    requires leveled { vr ≡ SQ → 1 ≤ levels }
    ensures { Walked (value_run levels s.now first vr value) value first rows.old rows.new result }
{
    if vr == vrs::SQ {
        read_sequence(s, value, levels - 1, rows, first)
    } else {
        Ok(Walk {
            stop: value.end,
            next: value.end,
            rows: first,
        })
    }
}

// A sequence, item by item.
#[cycle(readers)]
fn read_sequence(
    s: &[u8],
    c: Cursor,
    levels: usize,
    rows: &mut [u32],
    first: usize,
) -> Result<Walk, Refusal>
    requires { Ready s.now c levels first (length rows.old) }
    ensures { Walked (items_at levels s.now first c) c first rows.old rows.new result }
{
    let mut here = c;
    let mut n = first;
    loop {
        match here.item(s) {
            Err(fault) => {
                return Err(Refusal {
                    fault,
                    offset: here.at,
                });
            }
            Ok(Head::End(_, _, next)) => {
                return Ok(Walk {
                    stop: here.at,
                    next: next.at,
                    rows: n,
                });
            }
            Ok(Head::Header(tag, vr, item)) => {
                let walk = read_member(s, item, levels, rows, n + 1)?;
                let row = Row {
                    tag,
                    vr,
                    depth: DEPTHS - levels,
                    offset: item.at,
                    size: walk.stop - item.at,
                    descendants: walk.rows - n - 1,
                    parent: first,
                };
                put_row(rows, n, row);
                here = here.moved(walk.next);
                n = walk.rows;
            }
        }
    }
}

// An item of a sequence. One without sequences is read at once.
#[cycle(readers)]
fn read_member(
    s: &[u8],
    c: Cursor,
    levels: usize,
    rows: &mut [u32],
    first: usize,
) -> Result<Walk, Refusal>
    requires { Ready s.now c levels first (length rows.old) }
    ensures { Walked (elements_at levels s.now first c) c first rows.old rows.new result }
{
    match read_leaf(s, c, levels, rows, first)? {
        Some(walk) => Ok(walk),
        None => read_item(s, c, levels, rows, first),
    }
}

// How many rows a data set has, so that a caller can lend `read` the room that it needs. No row is stored.
pub fn count(bytes: &[u8]) -> Result<usize, ReadError>
    ensures { Answers fields_of result (count_of (reading_of bytes.now)) }
{
    if LARGEST < bytes.len() {
        return Err(ReadError::TooLarge);
    }
    let walk = read_item(bytes, Cursor::start(bytes.len()), DEPTHS, &mut [], 0)?;
    Ok(walk.rows)
}

// Reads a data set into rows, and returns how many there are. An error leaves the buffer as it was: the first walk gets no buffer and only
// counts, and the second writes the rows once they are known to fit.
pub fn read(bytes: &[u8], rows: &mut [u32]) -> Result<usize, ReadError>
    ensures answers { Answers fields_of result (answer_of (reading_of bytes.now) rows.old) }
    ensures rows_after { rows.new ≡ buffer_of (reading_of bytes.now) rows.old }
{
    if LARGEST < bytes.len() {
        return Err(ReadError::TooLarge);
    }
    let c = Cursor::start(bytes.len());
    let counted = read_item(bytes, c, DEPTHS, &mut [], 0)?;
    if rows.len() / WIDTH < counted.rows {
        return Err(ReadError::NoRoom);
    }
    let written = read_item(bytes, c, DEPTHS, rows, 0)?;
    Ok(written.rows)
}
