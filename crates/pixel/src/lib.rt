// Samples of frames, averages of mask frames, and drawing a row from a table of shades.
#![tactic(auto)]

ghost use Rattle.std.specs.Prelude.{◌≡◌, ℕ, ◌+◌, ◌-◌, ◌*◌, ◌/◌, ◌^◌, ◌≤◌, ◌<◌, min, length, get_or};
ghost use Rattle.window.specs.Internal.{shade_places};
ghost use Rattle.value.specs.Internal.{SizeBelow};
ghost use Rattle.value.specs.Number.{us_values};
ghost use Rattle.basics.specs.Limits.{most_mask_frames};
ghost use Rattle.shift.specs.Shift.{shift_unit, largest_shift};
ghost use Rattle.shift.specs.Internal.{too_far};
ghost use Rattle.pixel.specs.Pixel.{is_frame, average_of, weights_of, blend_of, cell_at};
ghost use Rattle.pixel.specs.Internal.{painted, edges, largest_side, largest_sample, largest_sum, Masks, SmallProducts, Shaped};
ghost use Rattle.pixel.specs.Internal.{plain_place, mask_place, Lies, RowLies, OffsetOf, shifted, Summed, Spread, Averaged, Cells};
ghost use Rattle.pixel.specs.Internal.{Weights, painted_from, row_shade, Drawn, Blends, blends_at, Subtracts};

use basics::u16_at;
use value::{Signed, us_value};

// The size of a frame, the bytes of a sample and the bits stored in it.
#[derive(Clone, Copy)]
pub struct Geometry {
    pub rows: usize,
    pub columns: usize,
    pub width: usize,
    pub stored: usize,
}

// 2^32, by which an average is divided after a multiplication.
const SCALE: usize = 4294967296;

// The largest move to either side, and so the room at either edge of a row.
const MARGIN: usize = 64;

// Moves and offsets count quarters of a pixel.
pub const UNIT: usize = 4;

// A whole pixel and the largest move, in quarters.
const WHOLE: u32 = UNIT as u32;

const LARGEST_MOVE: usize = UNIT * MARGIN;

// A row's room beside its columns: the two edges, and one place more for the right neighbour.
pub const EDGES: usize = 2 * MARGIN + 1;

// The most rows and columns of a frame: each number is a US.
const LARGEST_SIDE: usize = 65_535;

// The longest row with its edges.
pub const LONGEST: usize = LARGEST_SIDE + EDGES;

// ---- Frames

// Whether the whole frame k lies inside the pixel bytes.
pub fn is_frame(g: Geometry, pixels: &[u8], k: usize) -> bool
    requires { SmallProducts g k }
    ensures { result ≡ is_frame g pixels.now k }
{
    1 <= k && k * (g.rows * g.columns) * g.width <= pixels.len()
}

// ---- Samples

// 2^n; `window::power` promises bounds beside it, up to n = 17.
pub fn power(n: usize) -> usize
    requires { n ≤ 16 }
    ensures { result ≡ 2 ^ n }
{
    1 << n
}

// Sample j of all frames, without the bits that are not stored.
pub fn sample(pixels: &[u8], g: Geometry, low: usize, j: usize) -> usize
    requires { Lies pixels.now g low j }
    ensures { (result ≡ cell_at g pixels.now j) × (result ≤ low) }
{
    if g.width == 1 {
        usize::from(pixels[j]) & low
    } else {
        u16_at(pixels, 2 * j) & low
    }
}

// Draws a row of a frame that takes no mask.
pub fn plain_row(line: &[u8], g: Geometry, table: &[u8], levels: &mut [u8])
    requires { RowLies line.now g 0 × ((shade_places ≤ length table.now) × (g.columns ≤ length levels.old)) }
    ensures { levels.new ≡ painted (λ c. get_or table.now (plain_place g line.now c) 0) g.columns levels.old }
{
    let columns = g.columns;
    let low = power(g.stored) - 1;
    let middle = low - power(g.stored - 1);
    for c in 0..columns {
        levels[c] = table[sample(line, g, low, c) + middle];
    }
}

// ---- Moves

// The offset of a move, in quarters: the largest move minus the move, since a move down or to the right takes samples from above or from
// the left.
pub fn offset_of(m: Option<Signed>) -> usize
    requires { SizeBelow too_far m }
    ensures { OffsetOf m result }
{
    match m {
        Some(Signed::Plus(n)) => LARGEST_MOVE - n,
        Some(Signed::Minus(n)) => LARGEST_MOVE + n,
        None => LARGEST_MOVE,
    }
}

// The place that place i takes by an offset, among `size` places.
pub fn moved(s: usize, size: usize, i: usize) -> usize
    requires { (i < size) × ((size ≤ largest_side) × (s ≤ edges)) }
    ensures { (result ≡ shifted s size i) × (result < size) }
{
    (i + s).saturating_sub(MARGIN).min(size - 1)
}

// ---- Sums of a row

// Sets `count` sums from place `at` on.
fn fill(at: usize, count: usize, value: u32, sums: &mut [u32])
    requires { at + count ≤ length sums.old }
    ensures { sums.new ≡ painted_from (λ _. value) at count sums.old }
{
    for k in 0..count {
        sums[at + k] = value;
    }
}

// Adds the samples of a row, the first of which is sample `from`, to its sums.
fn add_row(pixels: &[u8], g: Geometry, from: usize, sums: &mut [u32])
    requires { RowLies pixels.now g from × ((c : ℕ) → c < g.columns → (c < length sums.old) × (get_or sums.old c 0 < 4294901760)) }
    ensures { sums.new ≡ painted (λ c. get_or sums.old c 0 + cell_at g pixels.now (from + c)) g.columns sums.old }
{
    let columns = g.columns;
    let low = power(g.stored) - 1;
    for c in 0..columns {
        sums[c] += sample(pixels, g, low, from + c) as u32;
    }
}

// The sums of the mask frames' samples in a row.
fn sum_row(pixels: &[u8], g: Geometry, masks: &[u8], row: usize, sums: &mut [u32])
    requires { Shaped g × (Masks pixels.now g masks.now × ((row < g.rows) × (g.columns ≤ length sums.old))) }
    ensures { Summed pixels.now g (us_values masks.now) row sums.new }
{
    let columns = g.columns;
    let n = g.rows * columns;
    let at = row * columns;
    fill(0, columns, 0, sums);
    for k in (0..masks.len() / 2).rev() {
        add_row(pixels, g, (us_value(masks, k) - 1) * n + at, sums);
    }
}

// Puts the first sum before the row and the last one after it, so that drawing meets no edge.
fn spread(columns: usize, sums: &mut [u32])
    requires { (1 ≤ columns) × (columns + edges ≤ length sums.old) }
    ensures { (j : ℕ) → j < columns + edges
        → get_or sums.new j 0 ≡ get_or sums.old (largest_shift + min (j - largest_shift) (columns - 1)) 0 }
{
    let first = sums[MARGIN];
    let end = MARGIN + columns;
    let last = sums[end - 1];
    fill(0, MARGIN, first, sums);
    fill(end, MARGIN + 1, last, sums);
}

// The sums of the mask frames' samples in a row, with its edges.
pub fn mask_row(pixels: &[u8], g: Geometry, masks: &[u8], row: usize, sums: &mut [u32])
    requires { Shaped g × (Masks pixels.now g masks.now × ((row < g.rows) × (g.columns + edges ≤ length sums.old))) }
    ensures { Spread pixels.now g (us_values masks.now) row sums.new }
{
    sum_row(pixels, g, masks, row, &mut sums[MARGIN..]);
    spread(g.columns, sums);
}

// ---- Masked frames

// floor((2 sum + n) / 2n), by a multiplication.
fn average(sum: usize, n: usize, factor: usize) -> usize
    requires { (1 ≤ n) × ((n ≤ most_mask_frames) × ((sum ≤ largest_sum) × (factor ≡ 4294967296 / (2 * n) + 1))) }
    ensures { result ≡ average_of sum n }
{
    (2 * sum + n) * factor / SCALE
}

// Draws a row of a frame from the sums of a row of n mask frames and the offset to the right.
pub fn draw_row(
    line: &[u8],
    g: Geometry,
    n: usize,
    s: usize,
    table: &[u8],
    sums: &[u32],
    levels: &mut [u8],
)
    requires { Drawn line.now g n s table.now sums.now levels.old }
    ensures { levels.new ≡ painted (row_shade table.now g line.now sums.now n s) g.columns levels.old }
{
    let columns = g.columns;
    let low = power(g.stored) - 1;
    let factor = SCALE / (2 * n) + 1;
    for c in 0..columns {
        let mask = average(sums[c + s] as usize, n, factor);
        levels[c] = table[sample(line, g, low, c) + low - mask];
    }
}

// ---- Blending

// A row of sums of n mask frames' samples becomes a row of averages.
fn average_all(n: usize, count: usize, sums: &mut [u32])
    requires { (1 ≤ n)
        × ((n ≤ most_mask_frames) × ((count ≤ length sums.old) × ((j : ℕ) → j < count → get_or sums.old j 0 ≤ largest_sum))) }
    ensures { sums.new ≡ painted (λ j. average_of (get_or sums.old j 0) n) count sums.old }
{
    let factor = SCALE / (2 * n) + 1;
    for j in 0..count {
        sums[j] = average(sums[j] as usize, n, factor) as u32;
    }
}

// The averages of the mask frames' samples in a row, with its edges.
pub fn average_row(pixels: &[u8], g: Geometry, masks: &[u8], row: usize, cells: &mut [u32])
    requires { Shaped g × (Masks pixels.now g masks.now × ((row < g.rows) × (g.columns + edges ≤ length cells.old))) }
    ensures { Averaged pixels.now g (us_values masks.now) row cells.new }
{
    let columns = g.columns;
    mask_row(pixels, g, masks, row, cells);
    average_all(masks.len() / 2, columns + EDGES, cells);
}

pub fn copy(count: usize, from: &[u32], to: &mut [u32])
    requires { (count ≤ length from.now) × (count ≤ length to.old) }
    ensures { to.new ≡ painted (λ j. get_or from.now j 0) count to.old }
{
    // One by one: `copy_from_slice` calls `memmove`, which the archive for C would then need from outside.
    for j in 0..count {
        to[j] = from[j];
    }
}

// The four weights, in reading order, for a quarters down and b to the right.
pub fn weights(a: u32, b: u32) -> [u32; 4]
    requires { (a < shift_unit) × (b < shift_unit) }
    ensures { result ≡ weights_of a b }
{
    [
        (WHOLE - a) * (WHOLE - b),
        (WHOLE - a) * b,
        a * (WHOLE - b),
        a * b,
    ]
}

// The four neighbouring mask cells, two by two, by the four weights, in sixteenths, rounded.
fn blended(block: [[u32; 2]; 2], weights: [u32; 4]) -> u32
    requires { Cells largest_sample block × Weights weights }
    ensures { result ≡ blend_of block weights }
{
    (block[0][0] * weights[0]
        + block[0][1] * weights[1]
        + block[1][0] * weights[2]
        + block[1][1] * weights[3]
        + 8)
        / 16
}

// Blends two rows of averages by the offset to the right and the weights; the row of mask values replaces the upper one.
pub fn blend_all(g: Geometry, s: usize, w: [u32; 4], lower: &[u32], upper: &mut [u32])
    requires { Blends g s w upper.old lower.now }
    ensures { upper.new ≡ painted_from (blends_at upper.old lower.now w s) s g.columns upper.old }
{
    let columns = g.columns;
    for c in 0..columns {
        let j = s + c;
        upper[j] = blended([[upper[j], upper[j + 1]], [lower[j], lower[j + 1]]], w);
    }
}

// Draws a row of a frame from a row of mask values that begin at an offset.
pub fn masked_row(
    line: &[u8],
    g: Geometry,
    s: usize,
    masks: &[u32],
    table: &[u8],
    levels: &mut [u8],
)
    requires { Subtracts line.now g s masks.now levels.old × (shade_places ≤ length table.now) }
    ensures { levels.new ≡ painted (λ c. get_or table.now (mask_place g line.now masks.now s c) 0) g.columns levels.old }
{
    let columns = g.columns;
    let low = power(g.stored) - 1;
    for c in 0..columns {
        levels[c] = table[sample(line, g, low, c) + low - masks[s + c] as usize];
    }
}
