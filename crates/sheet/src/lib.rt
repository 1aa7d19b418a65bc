// The sampling sheet: how often each grey level was drawn over frames a to b of an accepted object.
#![tactic(auto)]

ghost use Rattle.std.specs.Prelude.{◌≡◌, true, cond, ℕ, ◌+◌, ◌-◌, ◌*◌, ◌≤◌, ◌<◌, length, get_or, drop, Err};
ghost use Rattle.dataset.specs.Reading.{reading_of};
ghost use Rattle.basics.specs.Fields.{Answers};
ghost use Rattle.dataset.specs.Answer.{buffer_of};
ghost use Rattle.value.specs.Internal.{Below};
ghost use Rattle.value.specs.Number.{us_values, number_or0};
ghost use Rattle.shift.specs.Internal.{ShortMoves};
ghost use Rattle.node.specs.Nodes.{nodes_of};
ghost use Rattle.element.specs.Internal.{Along};
ghost use Rattle.element.specs.Elements.{value_at};
ghost use Rattle.element.specs.Frames.{frames_of, frame_items};
ghost use Rattle.conformance.specs.declared.Finding.TheVariants as finding;
ghost use Rattle.conformance.specs.Judging.{finding_of};
ghost use Rattle.window.specs.Internal.{Drawable, shade_places};
ghost use Rattle.pixel.specs.Pixel.{samples_of};
ghost use Rattle.pixel.specs.Internal.{masked_shade, Masks};
ghost use Rattle.lines.specs.Internal.{shades_of, LinesReady, WayReady, way_shade};
ghost use Rattle.basics.specs.Lists.{up_to};
ghost use Rattle.ranges.specs.Internal.{Known};
ghost use Rattle.display.specs.Internal.{is_masked, shade_by, MasksReady, ToldBy, IsObject, IsScene, IsPixels, IsItem, IsPlan, PlanReady};
ghost use Rattle.display.specs.Show.{image_size, picture_of};
ghost use Rattle.sheet.specs.Sheet.{levels_of, natives_of, counts_of, frames_sheet, no_sheet, numbers_in};
ghost use Rattle.sheet.specs.Answer.{accepted_answer, with_sheet, sheet_of, sampled_fields};
ghost use Rattle.sheet.specs.Sampling.{total};
ghost use Rattle.sheet.specs.Internal.{tallied, Room, Few, First, Last, IsAhead, RangeReady, LineRooms, IsHeld, IsNothing};
ghost use Rattle.sheet.specs.Internal.{first_in, last_in};

use conformance::NotAccepted;
use display::{Masking, Plan, Scene};
use element::Items;
use lines::{Shades, Way};
use node::DataSet;
use pixel::Geometry;
use ranges::ToldItem;
use shift::Moves;
use steps::Told;
use window::Window;

// How many numbers a sheet has.
pub const NUMBERS: usize = 260;

// Why there is no sheet: codes 1 to 9 of judging; code 19; code 10.
#[derive(Clone, Copy)]
pub enum SheetError {
    Refused(NotAccepted),
    WrongOrder,
    NoFrame,
}

// 256 counts of levels, the number of native frames, the lowest and the highest level, and the sum of all levels.
#[derive(Clone, Copy)]
pub struct Numbers {
    pub counts: [u64; 256],
    pub natives: usize,
    pub lowest: usize,
    pub highest: usize,
    pub sum: usize,
}

// Which frames a sheet is of: all, or those from one number to another.
#[derive(Clone, Copy)]
enum Span {
    All,
    From(usize, usize),
}

// An answer, with the number of rows, and the sheet that comes with it.
#[derive(Clone, Copy)]
pub struct Sampled {
    pub answer: Result<usize, SheetError>,
    pub sheet: Numbers,
}

// ---- Counting levels

// The counts with the levels of a line: handed on by value, one place changed for each cell.
fn tally(counts: [u64; 256], line: &[u8]) -> [u64; 256]
    requires { Room counts (length line.now) }
    ensures { result ≡ tallied line.now counts }
{
    let mut sofar = counts;
    for &y in line {
        sofar[usize::from(y)] += 1;
    }
    sofar
}

// The counts with the levels of all lines of a frame, drawn by its way.
fn count_lines(
    way: Way,
    pixels: &[u8],
    g: Geometry,
    frame: usize,
    masks: &[u8],
    shades: Shades,
    table: &[u8],
    upper: &mut [u32],
    lower: &mut [u32],
    line: &mut [u8],
    counts: [u64; 256],
) -> [u64; 256]
    requires { LinesReady pixels.now g frame shades table.now upper.old lower.old line.old
        × (WayReady way pixels.now g masks.now shades.filled 0 upper.old lower.old × Room counts (samples_of g)) }
    ensures { result
        ≡ tallied (up_to (way_shade way (shades_of shades g.stored) g pixels.now frame (us_values masks.now))
        (samples_of g)) counts }
{
    let columns = g.columns;
    let mut sofar = counts;
    for row in 0..g.rows {
        lines::draw_line(
            way, pixels, g, frame, masks, row, shades, table, upper, lower, line,
        );
        let next = tally(sofar, &line[..columns]);
        sofar = next;
    }
    sofar
}

// The counts with the levels of a masked frame.
fn count_masked(
    pixels: &[u8],
    g: Geometry,
    frame: usize,
    masks: &[u8],
    moves: Moves,
    shades: Shades,
    table: &[u8],
    upper: &mut [u32],
    lower: &mut [u32],
    line: &mut [u8],
    counts: [u64; 256],
) -> [u64; 256]
    requires { LinesReady pixels.now g frame shades table.now upper.old lower.old line.old
        × (Masks pixels.now g masks.now × (ShortMoves moves × Room counts (samples_of g))) }
    ensures { result
        ≡ tallied (up_to (masked_shade (shades_of shades g.stored) g pixels.now frame (us_values masks.now) moves)
        (samples_of g)) counts }
{
    let way = lines::masked_way(pixels, g, masks, moves, shades.filled, lower);
    count_lines(
        way, pixels, g, frame, masks, shades, table, upper, lower, line, counts,
    )
}

// ---- What is worked out ahead of the frames

// What the mask item that applies says, as recorded.
fn told_here(set: &DataSet, applies: Option<usize>, known: &[Option<ToldItem>]) -> Told
    requires { Below (length (nodes_of set.now)) applies × Known (nodes_of set.now) known.now }
    ensures { ToldBy (nodes_of set.now) applies result }
{
    match applies {
        Some(j) => ranges::told_of(set, j, known),
        None => steps::nothing_told(),
    }
}

// The plan of a frame, from what was worked out for all frames at once.
fn plan_at(
    set: &DataSet,
    c: Scene,
    frame: usize,
    n: usize,
    item: Option<usize>,
    which: &[u32],
    known: &[Option<ToldItem>],
) -> Plan
    requires { IsObject set.now n
        × (IsScene (nodes_of set.now) c
        × (IsItem (nodes_of set.now) frame item
        × ((1 ≤ frame) × ((frame ≤ n) × IsAhead (nodes_of set.now) n which.now known.now)))) }
    ensures { IsPlan (nodes_of set.now) frame c.g.stored result }
{
    let applies = ranges::applying_at(which, frame);
    let told = told_here(set, applies, known);
    display::plan_of(set, c, frame, n, item, applies, told)
}

// The item of a frame, at a cursor that moves along the items with the frames.
fn item_here(set: &DataSet, items: Items, frame: usize) -> Option<usize>
    requires { Along (nodes_of set.now) (drop (frame - 1) (frame_items (nodes_of set.now))) items × (1 ≤ frame) }
    ensures { IsItem (nodes_of set.now) frame result }
{
    if items.at < items.end {
        Some(items.at)
    } else {
        None
    }
}

// ---- The table of levels

// The shades of the previous frame, and how many cells were computed from its window so far.
#[derive(Clone, Copy)]
struct Held {
    pub shades: Shades,
    pub spent: usize,
}

// Shades for a window that will have drawn the given number of cells. A table is filled only when that is at least its number of places.
fn shades_by(window: Window, stored: usize, inverse: bool, spent: usize, table: &mut [u8]) -> Held
    requires { Drawable window × ((1 ≤ stored) × ((stored ≤ 16) × (length table.old ≡ shade_places))) }
    ensures { (result.shades.window ≡ window) × IsHeld stored inverse result table.new }
{
    let filled = window::power(stored + 1) <= spent;
    if filled {
        lines::fill(window, stored, inverse, table);
    }
    Held {
        shades: Shades {
            window,
            inverse,
            filled,
        },
        spent: if filled { 0 } else { spent },
    }
}

// The shades of a frame with the given number of cells: those of the previous frame, if its window is the same.
fn shades_for(
    window: Window,
    stored: usize,
    inverse: bool,
    cells: usize,
    held: Held,
    table: &mut [u8],
) -> Held
    requires { Drawable window
        × ((1 ≤ stored) × ((stored ≤ 16)
        × ((length table.old ≡ shade_places) × ((cells ≤ 4294836225) × IsHeld stored inverse held table.old)))) }
    ensures { (result.shades.window ≡ window) × IsHeld stored inverse result table.new }
{
    if window != held.shades.window {
        return shades_by(window, stored, inverse, cells, table);
    }
    if held.shades.filled {
        return held;
    }
    shades_by(window, stored, inverse, held.spent + cells, table)
}

// ---- Frames

// The pixel bytes. `value_part` and not `DataSet::value`, since the theorem FrameBytes speaks of the part that it hands out.
fn pixels_of<'a, 'b>(set: &DataSet<'a, 'b>, p: usize) -> &'a [u8]
    requires { IsPixels (nodes_of set.now) p }
    ensures { result.now ≡ value_at (nodes_of set.now) p }
{
    frame::value_part(set.bytes(), set.rows(), p)
}

// The counts with the levels of a frame, whatever masks it.
fn count_frame(
    set: &DataSet,
    c: Scene,
    frame: usize,
    masking: Masking,
    shades: Shades,
    table: &[u8],
    upper: &mut [u32],
    lower: &mut [u32],
    line: &mut [u8],
    counts: [u64; 256],
) -> [u64; 256]
    requires { IsPixels (nodes_of set.now) c.p
        × (LinesReady (value_at (nodes_of set.now) c.p) c.g frame shades table.now upper.old lower.old line.old
        × (MasksReady (nodes_of set.now) (value_at (nodes_of set.now) c.p) c.g masking × Room counts (samples_of c.g))) }
    ensures { result
        ≡ tallied (up_to (shade_by (nodes_of set.now) (shades_of shades c.g.stored) c.g
        (value_at (nodes_of set.now) c.p) frame masking) (samples_of c.g)) counts }
{
    let g = c.g;
    let pixels = pixels_of(set, c.p);
    match masking {
        Masking::Native => count_lines(
            Way::Native,
            pixels,
            g,
            frame,
            b"",
            shades,
            table,
            upper,
            lower,
            line,
            counts,
        ),
        Masking::Average(k, m) => {
            let masks = set.value(k);
            count_masked(
                pixels, g, frame, masks, m, shades, table, upper, lower, line, counts,
            )
        }
        Masking::One(t, m) => {
            let one = (t as u16).to_le_bytes();
            count_masked(
                pixels, g, frame, &one, m, shades, table, upper, lower, line, counts,
            )
        }
    }
}

// 1 for a frame that takes no mask, else 0.
fn native_number(masking: Masking) -> usize
    ensures { result ≡ cond (is_masked masking) 0 1 }
{
    match masking {
        Masking::Native => 1,
        Masking::Average(..) | Masking::One(..) => 0,
    }
}

// What was counted so far, and the shades of the last frame.
#[derive(Clone, Copy)]
struct Counted {
    pub counts: [u64; 256],
    pub natives: usize,
    pub held: Held,
}

// Counts a frame of an accepted object by its plan.
fn count_picture(
    set: &DataSet,
    c: Scene,
    frame: usize,
    n: usize,
    own: Plan,
    sofar: Counted,
    table: &mut [u8],
    upper: &mut [u32],
    lower: &mut [u32],
    line: &mut [u8],
) -> Counted
    requires { PlanReady set.now n c frame own
        × (LineRooms table.old upper.old lower.old line.old
        × (IsHeld c.g.stored c.inverse sofar.held table.old
        × ((sofar.natives < 65536) × Room sofar.counts (image_size (nodes_of set.now))))) }
    ensures { (result.counts ≡ tallied (picture_of (nodes_of set.now) frame).samples sofar.counts)
        × ((result.natives ≡ cond (picture_of (nodes_of set.now) frame).masked 0 1 + sofar.natives)
        × IsHeld c.g.stored c.inverse result.held table.new) }
{
    let held = shades_for(
        own.window,
        c.g.stored,
        c.inverse,
        c.g.rows * c.g.columns,
        sofar.held,
        table,
    );
    let old = sofar.counts;
    let counts = count_frame(
        set,
        c,
        frame,
        own.masking,
        held.shades,
        table,
        upper,
        lower,
        line,
        old,
    );
    Counted {
        counts,
        natives: native_number(own.masking) + sofar.natives,
        held,
    }
}

// Nothing counted, and no table filled.
fn nothing(stored: usize, inverse: bool) -> Counted
    requires { stored ≤ 16 }
    ensures { IsNothing stored inverse result }
{
    Counted {
        counts: [0; 256],
        natives: 0,
        held: Held {
            shades: Shades {
                window: window::full_window(stored),
                inverse,
                filled: false,
            },
            spent: 0,
        },
    }
}

// Counts frames a to b: each item is stepped to once, and every frame uses the same buffers.
fn count_frames(
    set: &DataSet,
    c: Scene,
    n: usize,
    start: Items,
    a: usize,
    b: usize,
    which: &[u32],
    known: &[Option<ToldItem>],
    table: &mut [u8],
    upper: &mut [u32],
    lower: &mut [u32],
    line: &mut [u8],
) -> Counted
    requires { RangeReady set.now n c start a b
        × (LineRooms table.old upper.old lower.old line.old
        × IsAhead (nodes_of set.now) n which.now known.now) }
    ensures { (result.counts ≡ counts_of (levels_of (nodes_of set.now) a (b - a + 1)))
        × (result.natives ≡ natives_of (nodes_of set.now) a (b - a + 1)) }
{
    let mut items = start;
    let mut sofar = nothing(c.g.stored, c.inverse);
    for frame in a..b + 1 {
        let item = item_here(set, items, frame);
        let own = plan_at(set, c, frame, n, item, which, known);
        let next = count_picture(set, c, frame, n, own, sofar, table, upper, lower, line);
        sofar = next;
        items = element::advance(set, items);
    }
    sofar
}

// The same, working out here what all frames share. `upper` has room for the marks of ranges.
fn count_all(
    set: &DataSet,
    c: Scene,
    n: usize,
    start: Items,
    a: usize,
    b: usize,
    table: &mut [u8],
    upper: &mut [u32],
    lower: &mut [u32],
    line: &mut [u8],
) -> Counted
    requires { RangeReady set.now n c start a b × LineRooms table.old upper.old lower.old line.old }
    ensures { (result.counts ≡ counts_of (levels_of (nodes_of set.now) a (b - a + 1)))
        × (result.natives ≡ natives_of (nodes_of set.now) a (b - a + 1)) }
{
    let mut which = [0; 65536];
    ranges::apply_all(set, n, upper, &mut which);
    let known = ranges::tell_all(set);
    count_frames(
        set, c, n, start, a, b, &which, &known, table, upper, lower, line,
    )
}

// The items from frame a's on.
fn items_from(set: &DataSet, a: usize) -> Items
    requires { 1 ≤ a }
    ensures { Along (nodes_of set.now) (drop (a - 1) (frame_items (nodes_of set.now))) result }
{
    let mut items = element::frame_items(set);
    for frame in 1..a {
        items = element::advance(set, items);
    }
    items
}

// ---- The other numbers, from the counts

// The sum of level times count.
fn weighted(counts: [u64; 256]) -> usize
    requires { Few counts }
    ensures { result ≡ total (λ y. y * get_or counts y 0) 256 }
{
    let mut sum = 0;
    for (y, &count) in counts.iter().enumerate() {
        sum += y * count as usize;
    }
    sum
}

// The first level with a count above 0.
fn first_drawn(counts: [u64; 256]) -> usize
    ensures { First counts result }
{
    counts.iter().position(|&n| 0 < n).unwrap_or(255)
}

// The last one.
fn last_drawn(counts: [u64; 256]) -> usize
    ensures { Last counts result }
{
    counts.iter().rposition(|&n| 0 < n).unwrap_or(0)
}

// The sheet of frames a to b of an accepted object of n frames. All buffers are made here, once.
fn sample_frames(set: &DataSet, n: usize, a: usize, b: usize) -> Numbers
    requires { IsObject set.now n × ((1 ≤ a) × ((a ≤ b) × (b ≤ n))) }
    ensures { result ≡ frames_sheet (nodes_of set.now) a b }
{
    let mut table: [u8; window::PLACES] = [0; window::PLACES];
    let mut upper: [u32; pixel::LONGEST] = [0; pixel::LONGEST];
    let mut lower: [u32; pixel::LONGEST] = [0; pixel::LONGEST];
    let mut line: [u8; 65535] = [0; 65535];
    let c = display::scene_of(set, n);
    let start = items_from(set, a);
    let done = count_all(
        set, c, n, start, a, b, &mut table, &mut upper, &mut lower, &mut line,
    );
    let counts = done.counts;
    Numbers {
        counts,
        natives: done.natives,
        lowest: first_drawn(counts),
        highest: last_drawn(counts),
        sum: weighted(counts),
    }
}

// ---- The call

// A sheet of zeros with a refusal.
fn refused(error: SheetError) -> Sampled
    ensures { result ≡ record { answer = Err error; sheet = no_sheet } }
{
    Sampled {
        answer: Err(error),
        sheet: Numbers {
            counts: [0; 256],
            natives: 0,
            lowest: 0,
            highest: 0,
            sum: 0,
        },
    }
}

// The sheet of frames of an accepted object whose number of rows is given: codes 19 and 10, or the sheet.
// It has the buffers of a sheet, a megabyte of stack; out of line, so that judging does not take its own stack on top of that.
#[inline(never)]
#[tactic(auto, unfolding(crate::specs::Answer::accepted_answer))]
fn sheet_table(set: &DataSet, first: usize, last: usize, count: usize) -> Sampled
    requires { ((i : ℕ) → get_or set.now i 0 < 256) × (finding_of (nodes_of set.now) ≡ finding.Accepted) }
    ensures { result
        ≡ with_sheet (nodes_of set.now) first last (accepted_answer (nodes_of set.now) first last count) }
{
    if last < first {
        return refused(SheetError::WrongOrder);
    }
    let Some(n) = element::frame_count(set) else {
        return refused(SheetError::NoFrame);
    };
    if first < 1 || n < last {
        return refused(SheetError::NoFrame);
    }
    Sampled {
        answer: Ok(count),
        sheet: sample_frames(set, n, first, last),
    }
}

// The number of frames, which an accepted object has.
fn last_frame(set: &DataSet) -> usize
    ensures { result ≡ number_or0 (frames_of (nodes_of set.now)) }
{
    element::frame_count(set).unwrap_or(0)
}

// The same, for the frames of a span.
fn sheet_span(set: &DataSet, span: Span, count: usize) -> Sampled
    requires { ((i : ℕ) → get_or set.now i 0 < 256) × (finding_of (nodes_of set.now) ≡ finding.Accepted) }
    ensures { result
        ≡ with_sheet (nodes_of set.now) (first_in span) (last_in (nodes_of set.now) span)
        (accepted_answer (nodes_of set.now) (first_in span) (last_in (nodes_of set.now) span) count) }
{
    let (first, last) = match span {
        Span::All => (1, last_frame(set)),
        Span::From(first, last) => (first, last),
    };
    sheet_table(set, first, last, count)
}

// Judges the data set afresh and counts the levels of the frames of a span.
#[tactic(auto, using(display::proofs::Judged::judging), unfolding(crate::specs::Answer::sheet_of))]
fn judged_sheet(bytes: &[u8], span: Span, rows: &mut [u32]) -> Sampled
    ensures answers { Answers sampled_fields result
        (sheet_of bytes.now (first_in span) (last_in (nodes_of bytes.now) span) rows.old) }
    ensures rows_after { rows.new ≡ buffer_of (reading_of bytes.now) rows.old }
{
    match conformance::accept(bytes, rows) {
        Err(refusal) => refused(SheetError::Refused(refusal)),
        Ok(count) => {
            let set = DataSet::new(bytes, &rows[..dataset::WIDTH * count]);
            sheet_span(&set, span, count)
        }
    }
}

// The sheet of frames `first` to `last`.
pub fn sheet(bytes: &[u8], first: u64, last: u64, rows: &mut [u32]) -> Sampled
    ensures answers { Answers sampled_fields result (sheet_of bytes.now first last rows.old) }
    ensures rows_after { rows.new ≡ buffer_of (reading_of bytes.now) rows.old }
{
    judged_sheet(bytes, Span::From(first as usize, last as usize), rows)
}

// The sheet of all frames, from 1 to the number of frames.
pub fn whole(bytes: &[u8], rows: &mut [u32]) -> Sampled
    ensures answers { Answers sampled_fields result
        (sheet_of bytes.now 1 (number_or0 (frames_of (nodes_of bytes.now))) rows.old) }
    ensures rows_after { rows.new ≡ buffer_of (reading_of bytes.now) rows.old }
{
    judged_sheet(bytes, Span::All, rows)
}

// Number k of a sheet, in the order named; 0 beyond the last.
pub fn number_at(t: Numbers, k: usize) -> u64
    ensures { result ≡ get_or (numbers_in t) k 0 }
{
    match k {
        0..=255 => t.counts[k],
        256 => t.natives as u64,
        257 => t.lowest as u64,
        258 => t.highest as u64,
        259 => t.sum as u64,
        _ => 0,
    }
}
