// Lines of a frame's picture, each drawn separately from the frame's own bytes.
#![tactic(auto)]

ghost use Rattle.std.specs.Prelude.{◌≡◌, ◌+◌, ◌-◌, ◌*◌, ◌/◌, ◌^◌, ◌≤◌, length};
ghost use Rattle.value.specs.Number.{us_values};
ghost use Rattle.shift.specs.Shift.{shift_unit};
ghost use Rattle.shift.specs.Internal.{ShortMoves};
ghost use Rattle.window.specs.Internal.{Drawable, shade_at, Filled, shade_places};
ghost use Rattle.pixel.specs.Internal.{Shaped, Masks, painted, native_shade, longest_row, RowLies, plain_place, mask_place, quarter_shade};
ghost use Rattle.pixel.specs.Internal.{Subtracts, shifted, Averaged};
ghost use Rattle.lines.specs.Internal.{Shaded, shades_of, LineReady, WholeReady, QuartersReady, WayReady, way_shade, WayOf};

use pixel::Geometry;
use shift::Moves;
use window::Window;

// How cells become levels: by a window, inverted or not, and whether a table is filled with its levels.
#[derive(Clone, Copy)]
pub struct Shades {
    pub window: Window,
    pub inverse: bool,
    pub filled: bool,
}

// How the lines of a frame are drawn: without a mask, with a mask moved by whole pixels, or with mask rows blended two at a time. The
// numbers are offsets down and to the right, in quarters.
#[derive(Clone, Copy)]
pub enum Way {
    Native,
    Whole(usize, usize),
    Quarters(usize, usize),
}

// Fills a table with the level of every place.
pub fn fill(window: Window, stored: usize, inverse: bool, table: &mut [u8])
    requires { Drawable window × ((1 ≤ stored) × ((stored ≤ 16) × (length table.old ≡ shade_places))) }
    ensures { Filled (shade_at window stored inverse) (2 ^ (stored + 1) - 1) table.new }
{
    let half = window::power(stored - 1);
    let least = window::power(stored) - 1;
    let n = window::power(stored + 1) - 1;
    for i in 0..n {
        table[i] = window::shade(window, i + half, least, inverse);
    }
}

// ---- Lines that take no mask

// The levels of a line, each worked out from the window.
fn plain_by_window(line: &[u8], g: Geometry, window: Window, inverse: bool, levels: &mut [u8])
    requires { RowLies line.now g 0 × (Drawable window × (g.columns ≤ length levels.old)) }
    ensures { levels.new
        ≡ painted (λ c. shade_at window g.stored inverse (plain_place g line.now c)) g.columns levels.old }
{
    let columns = g.columns;
    let half = pixel::power(g.stored - 1);
    let low = pixel::power(g.stored) - 1;
    let middle = low - half;
    for c in 0..columns {
        let place = pixel::sample(line, g, low, c) + middle;
        levels[c] = window::shade(window, place + half, low, inverse);
    }
}

// A line of a frame that takes no mask.
fn native_line(
    pixels: &[u8],
    g: Geometry,
    frame: usize,
    row: usize,
    shades: Shades,
    table: &[u8],
    levels: &mut [u8],
)
    requires { LineReady pixels.now g frame row levels.old × Shaded shades g.stored table.now }
    ensures { levels.new
        ≡ painted (λ c. native_shade (shades_of shades g.stored) g pixels.now frame (row * g.columns + c)) g.columns
        levels.old }
{
    let line = frame::frame_line(pixels, g.rows, g.columns, g.width, frame, row);
    if shades.filled {
        pixel::plain_row(line, g, table, levels);
    } else {
        plain_by_window(line, g, shades.window, shades.inverse, levels);
    }
}

// ---- Lines that take a mask

// A line of a frame whose mask is moved by whole pixels; `sums` is room for a row and its edges.
fn whole_line(
    pixels: &[u8],
    g: Geometry,
    frame: usize,
    masks: &[u8],
    down: usize,
    right: usize,
    row: usize,
    shades: Shades,
    table: &[u8],
    sums: &mut [u32],
    levels: &mut [u8],
)
    requires { LineReady pixels.now g frame row levels.old
        × (Shaded shades g.stored table.now × WholeReady pixels.now g masks.now down right shades.filled sums.old) }
    ensures { levels.new
        ≡ painted (λ c. quarter_shade (shades_of shades g.stored) g pixels.now frame (us_values masks.now) down right
        (row * g.columns + c)) g.columns levels.old }
{
    let rows = g.rows;
    let line = frame::frame_line(pixels, rows, g.columns, g.width, frame, row);
    pixel::mask_row(
        pixels,
        g,
        masks,
        pixel::moved(down / pixel::UNIT, rows, row),
        sums,
    );
    pixel::draw_row(
        line,
        g,
        masks.len() / 2,
        right / pixel::UNIT,
        table,
        sums,
        levels,
    );
}

// The levels of a line from a row of mask values, each worked out from the window.
fn masked_by_window(
    line: &[u8],
    g: Geometry,
    s: usize,
    masks: &[u32],
    window: Window,
    inverse: bool,
    levels: &mut [u8],
)
    requires { Subtracts line.now g s masks.now levels.old × Drawable window }
    ensures { levels.new
        ≡ painted (λ c. shade_at window g.stored inverse (mask_place g line.now masks.now s c)) g.columns
        levels.old }
{
    let columns = g.columns;
    let half = pixel::power(g.stored - 1);
    let low = pixel::power(g.stored) - 1;
    for c in 0..columns {
        let place = pixel::sample(line, g, low, c) + low - masks[s + c] as usize;
        levels[c] = window::shade(window, place + half, low, inverse);
    }
}

// A line of a frame from two mask rows, blended. `lower` holds the row that this line takes as its upper one, and afterwards the one for
// the next line.
fn quarter_line(
    pixels: &[u8],
    g: Geometry,
    frame: usize,
    masks: &[u8],
    down: usize,
    right: usize,
    row: usize,
    shades: Shades,
    table: &[u8],
    upper: &mut [u32],
    lower: &mut [u32],
    levels: &mut [u8],
)
    requires { LineReady pixels.now g frame row levels.old
        × (Shaded shades g.stored table.now × QuartersReady pixels.now g masks.now down right row upper.old lower.old) }
    ensures levels_after { levels.new
        ≡ painted (λ c. quarter_shade (shades_of shades g.stored) g pixels.now frame (us_values masks.now) down right
        (row * g.columns + c)) g.columns levels.old }
    ensures averaged { Averaged pixels.now g (us_values masks.now) (shifted (down / shift_unit) g.rows (row + 1))
        lower.new }
{
    let rows = g.rows;
    let columns = g.columns;
    let s = right / pixel::UNIT;
    let w = pixel::weights((down % pixel::UNIT) as u32, (right % pixel::UNIT) as u32);
    let line = frame::frame_line(pixels, rows, columns, g.width, frame, row);
    pixel::copy(columns + pixel::EDGES, lower, upper);
    pixel::average_row(
        pixels,
        g,
        masks,
        pixel::moved(down / pixel::UNIT + 1, rows, row),
        lower,
    );
    pixel::blend_all(g, s, w, lower, upper);
    if shades.filled {
        pixel::masked_row(line, g, s, upper, table, levels);
    } else {
        masked_by_window(line, g, s, upper, shades.window, shades.inverse, levels);
    }
}

// ---- Any line

// The way to draw a masked frame, chosen once. A whole shift takes one mask row for each line if a table is filled; any other takes two,
// and `lower` is then left with the first line's upper row.
pub fn masked_way(
    pixels: &[u8],
    g: Geometry,
    masks: &[u8],
    moves: Moves,
    filled: bool,
    lower: &mut [u32],
) -> Way
    requires { Shaped g × (Masks pixels.now g masks.now × (ShortMoves moves × (longest_row ≤ length lower.old))) }
    ensures { WayOf result pixels.now g masks.now filled moves lower.new }
{
    let down = pixel::offset_of(moves.vertical);
    let right = pixel::offset_of(moves.horizontal);
    if filled && down % pixel::UNIT == 0 && right % pixel::UNIT == 0 {
        return Way::Whole(down, right);
    }
    pixel::average_row(
        pixels,
        g,
        masks,
        pixel::moved(down / pixel::UNIT, g.rows, 0),
        lower,
    );
    Way::Quarters(down, right)
}

// A line of a frame, drawn by the frame's way. `upper` and `lower` are room for mask rows and their edges, as far as the way takes any.
pub fn draw_line(
    way: Way,
    pixels: &[u8],
    g: Geometry,
    frame: usize,
    masks: &[u8],
    row: usize,
    shades: Shades,
    table: &[u8],
    upper: &mut [u32],
    lower: &mut [u32],
    levels: &mut [u8],
)
    requires { LineReady pixels.now g frame row levels.old
        × (Shaded shades g.stored table.now
        × WayReady way pixels.now g masks.now shades.filled row upper.old lower.old) }
    ensures levels_after { levels.new
        ≡ painted (λ c. way_shade way (shades_of shades g.stored) g pixels.now frame (us_values masks.now)
        (row * g.columns + c)) g.columns levels.old }
    ensures way_ready { WayReady way pixels.now g masks.now shades.filled (row + 1) upper.new
        lower.new }
{
    match way {
        Way::Native => native_line(pixels, g, frame, row, shades, table, levels),
        Way::Whole(down, right) => whole_line(
            pixels, g, frame, masks, down, right, row, shades, table, upper, levels,
        ),
        Way::Quarters(down, right) => quarter_line(
            pixels, g, frame, masks, down, right, row, shades, table, upper, lower, levels,
        ),
    }
}
