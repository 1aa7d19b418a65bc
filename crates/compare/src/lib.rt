// Compares another workstation's picture of a frame with ours, cell by cell. No image is kept: each line is drawn by itself.
#![tactic(auto)]

ghost use Rattle.std.specs.Prelude.{◌≡◌, ℕ, ◌≤◌, ◌<◌, get_or};
ghost use Rattle.dataset.specs.Reading.{reading_of};
ghost use Rattle.basics.specs.Fields.{Answers};
ghost use Rattle.dataset.specs.Answer.{buffer_of};
ghost use Rattle.value.specs.Number.{us_values};
ghost use Rattle.shift.specs.Internal.{ShortMoves};
ghost use Rattle.node.specs.Nodes.{nodes_of};
ghost use Rattle.element.specs.Elements.{value_at};
ghost use Rattle.conformance.specs.declared.Finding.TheVariants as finding;
ghost use Rattle.conformance.specs.Judging.{finding_of};
ghost use Rattle.pixel.specs.Pixel.{samples_of};
ghost use Rattle.pixel.specs.Internal.{masked_shade, Masks};
ghost use Rattle.lines.specs.Internal.{shades_of, LinesReady, WayReady, way_shade};
ghost use Rattle.display.specs.Internal.{shade_by, MasksReady, IsObject, IsPixels, PlanReady};
ghost use Rattle.display.specs.Show.{image_size, picture_of};
ghost use Rattle.differences.specs.Differences.{is_off};
ghost use Rattle.differences.specs.Internal.{along, none_off, met, Against};
ghost use Rattle.compare.specs.declared.CompareError.TheVariants.{Refused};
ghost use Rattle.compare.specs.Answer.{accepted_answer, compare_of, fields_of};

use conformance::NotAccepted;
use differences::Differing;
use display::{Masking, Plan, Scene};
use lines::{Shades, Way};
use node::DataSet;
use pixel::Geometry;
use shift::Moves;

// The largest tolerance.
const MOST: usize = 255;

// What comparing came to, with the number of rows: no cell is off; or the first cell that is off and how many are off.
#[derive(Clone, Copy)]
pub enum Comparison {
    Same(usize),
    Differs(usize, usize, usize),
}

// Why nothing was compared: codes 1 to 9 of judging; codes 10, 22 and 23.
#[derive(Clone, Copy)]
pub enum CompareError {
    Refused(NotAccepted),
    NoFrame,
    WrongSize,
    WrongTolerance,
}

impl From<NotAccepted> for CompareError {
    ghost from_gives = { λ refusal error. error ≡ Refused refusal };

    fn from(refusal: NotAccepted) -> CompareError {
        CompareError::Refused(refusal)
    }
}

// ---- A frame, line by line

// All lines of a frame, drawn by its way.
fn compare_lines(
    way: Way,
    pixels: &[u8],
    g: Geometry,
    frame: usize,
    masks: &[u8],
    shades: Shades,
    table: &[u8],
    upper: &mut [u32],
    lower: &mut [u32],
    line: &mut [u8],
    cells: &[u8],
    tolerance: usize,
) -> Differing
    requires { LinesReady pixels.now g frame shades table.now upper.old lower.old line.old
        × (WayReady way pixels.now g masks.now shades.filled 0 upper.old lower.old
        × Against cells.now tolerance (samples_of g)) }
    ensures { result
        ≡ met tolerance (way_shade way (shades_of shades g.stored) g pixels.now frame (us_values masks.now))
        cells.now (samples_of g) }
{
    let height = g.rows;
    let columns = g.columns;
    let mut sofar = differences::none_off();
    for row in 0..height {
        lines::draw_line(
            way, pixels, g, frame, masks, row, shades, table, upper, lower, line,
        );
        let next = differences::compare_line(
            &line[..columns],
            cells,
            row * columns,
            tolerance,
            sofar,
        );
        sofar = next;
    }
    sofar
}

// A masked frame.
fn compare_masked(
    pixels: &[u8],
    g: Geometry,
    frame: usize,
    masks: &[u8],
    moves: Moves,
    shades: Shades,
    table: &[u8],
    upper: &mut [u32],
    lower: &mut [u32],
    line: &mut [u8],
    cells: &[u8],
    tolerance: usize,
) -> Differing
    requires { LinesReady pixels.now g frame shades table.now upper.old lower.old line.old
        × (Masks pixels.now g masks.now × (ShortMoves moves × Against cells.now tolerance (samples_of g))) }
    ensures { result
        ≡ met tolerance (masked_shade (shades_of shades g.stored) g pixels.now frame (us_values masks.now) moves)
        cells.now (samples_of g) }
{
    let way = lines::masked_way(pixels, g, masks, moves, shades.filled, lower);
    compare_lines(
        way, pixels, g, frame, masks, shades, table, upper, lower, line, cells, tolerance,
    )
}

// The pixel bytes. `value_part` and not `DataSet::value`, since the theorem FrameBytes speaks of the part that it hands out.
fn pixels_of<'a, 'b>(set: &DataSet<'a, 'b>, p: usize) -> &'a [u8]
    requires { IsPixels (nodes_of set.now) p }
    ensures { result.now ≡ value_at (nodes_of set.now) p }
{
    frame::value_part(set.bytes(), set.rows(), p)
}

// A frame, whatever masks it.
fn compare_frame(
    set: &DataSet,
    c: Scene,
    frame: usize,
    masking: Masking,
    shades: Shades,
    table: &[u8],
    upper: &mut [u32],
    lower: &mut [u32],
    line: &mut [u8],
    cells: &[u8],
    tolerance: usize,
) -> Differing
    requires { IsPixels (nodes_of set.now) c.p
        × (LinesReady (value_at (nodes_of set.now) c.p) c.g frame shades table.now upper.old lower.old line.old
        × (MasksReady (nodes_of set.now) (value_at (nodes_of set.now) c.p) c.g masking
        × Against cells.now tolerance (samples_of c.g))) }
    ensures { result
        ≡ met tolerance (shade_by (nodes_of set.now) (shades_of shades c.g.stored) c.g
        (value_at (nodes_of set.now) c.p) frame masking) cells.now (samples_of c.g) }
{
    let g = c.g;
    let pixels = pixels_of(set, c.p);
    match masking {
        Masking::Native => compare_lines(
            Way::Native,
            pixels,
            g,
            frame,
            b"",
            shades,
            table,
            upper,
            lower,
            line,
            cells,
            tolerance,
        ),
        Masking::Average(k, m) => {
            let masks = set.value(k);
            compare_masked(
                pixels, g, frame, masks, m, shades, table, upper, lower, line, cells, tolerance,
            )
        }
        Masking::One(t, m) => {
            let one = (t as u16).to_le_bytes();
            compare_masked(
                pixels, g, frame, &one, m, shades, table, upper, lower, line, cells, tolerance,
            )
        }
    }
}

// The same, with all buffers made here and the table of levels filled.
fn compare_planned(
    set: &DataSet,
    c: Scene,
    frame: usize,
    own: Plan,
    n: usize,
    cells: &[u8],
    tolerance: usize,
) -> Differing
    requires { PlanReady set.now n c frame own × Against cells.now tolerance (image_size (nodes_of set.now)) }
    ensures { result
        ≡ along (is_off tolerance (picture_of (nodes_of set.now) frame).samples cells.now) 0
        (image_size (nodes_of set.now)) none_off }
{
    let mut table: [u8; window::PLACES] = [0; window::PLACES];
    let mut upper: [u32; pixel::LONGEST] = [0; pixel::LONGEST];
    let mut lower: [u32; pixel::LONGEST] = [0; pixel::LONGEST];
    let mut line: [u8; 65535] = [0; 65535];
    let g = c.g;
    let window = own.window;
    let masking = own.masking;
    let inverse = c.inverse;
    lines::fill(window, g.stored, inverse, &mut table);
    let shades = Shades {
        window,
        inverse,
        filled: true,
    };
    compare_frame(
        set, c, frame, masking, shades, &table, &mut upper, &mut lower, &mut line, cells, tolerance,
    )
}

// A frame of an accepted object of n frames, by its plan.
fn compare_picture(
    set: &DataSet,
    frame: usize,
    n: usize,
    cells: &[u8],
    tolerance: usize,
) -> Differing
    requires { IsObject set.now n × ((1 ≤ frame) × ((frame ≤ n) × Against cells.now tolerance (image_size (nodes_of set.now)))) }
    ensures { result
        ≡ along (is_off tolerance (picture_of (nodes_of set.now) frame).samples cells.now) 0
        (image_size (nodes_of set.now)) none_off }
{
    let scene = display::scene_of(set, n);
    let own = display::plan_for(set, scene, frame, n);
    compare_planned(set, scene, frame, own, n, cells, tolerance)
}

// ---- The call

// Compares a frame of an accepted object whose number of rows is given: codes 10, 22 and 23, or yes or no.
#[tactic(auto, using(differences::proofs::Places::seen_all), unfolding(crate::specs::Answer::accepted_answer, crate::specs::Answer::compared_by))]
fn compare_table(
    set: &DataSet,
    frame: usize,
    cells: &[u8],
    tolerance: usize,
    count: usize,
) -> Result<Comparison, CompareError>
    requires { ((i : ℕ) → get_or set.now i 0 < 256) × (finding_of (nodes_of set.now) ≡ finding.Accepted) }
    ensures { result ≡ accepted_answer (nodes_of set.now) frame cells.now tolerance count }
{
    let n = element::frame_count(set).ok_or(CompareError::NoFrame)?;
    if frame < 1 || n < frame {
        return Err(CompareError::NoFrame);
    }
    if cells.len() != display::image_size(set) {
        return Err(CompareError::WrongSize);
    }
    if MOST < tolerance {
        return Err(CompareError::WrongTolerance);
    }
    let found = compare_picture(set, frame, n, cells, tolerance);
    Ok(if found.count == 0 {
        Comparison::Same(count)
    } else {
        Comparison::Differs(count, found.first, found.count)
    })
}

// Judges the data set afresh and compares cells with a frame of it.
#[tactic(auto, using(display::proofs::Judged::judging), unfolding(crate::specs::Answer::compare_of))]
pub fn compare(
    bytes: &[u8],
    frame: u64,
    cells: &[u8],
    tolerance: u64,
    rows: &mut [u32],
) -> Result<Comparison, CompareError>
    ensures answers { Answers fields_of result (compare_of bytes.now frame cells.now tolerance rows.old) }
    ensures rows_after { rows.new ≡ buffer_of (reading_of bytes.now) rows.old }
{
    let count = conformance::accept(bytes, rows)?;
    let set = DataSet::new(bytes, &rows[..dataset::WIDTH * count]);
    compare_table(&set, frame as usize, cells, tolerance as usize, count)
}
