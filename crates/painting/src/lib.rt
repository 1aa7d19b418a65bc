// A frame's picture painted line by line, each line drawn into its own part of the image.
#![tactic(auto)]

ghost use Rattle.std.specs.Prelude.{◌≡◌, true};
ghost use Rattle.value.specs.Number.{us_values};
ghost use Rattle.shift.specs.Internal.{ShortMoves};
ghost use Rattle.pixel.specs.Pixel.{samples_of};
ghost use Rattle.pixel.specs.Internal.{painted, native_shade, masked_shade, Masks};
ghost use Rattle.lines.specs.Internal.{shades_of, Shaded, WayReady, way_shade};
ghost use Rattle.painting.specs.Internal.{CanPaint};

use lines::{Shades, Way};
use pixel::Geometry;
use shift::Moves;

// Paints all lines of a frame by its way.
fn paint_lines(
    way: Way,
    pixels: &[u8],
    g: Geometry,
    frame: usize,
    masks: &[u8],
    shades: Shades,
    table: &[u8],
    upper: &mut [u32],
    lower: &mut [u32],
    image: &mut [u8],
)
    requires { CanPaint pixels.now g frame image.old
        × (Shaded shades g.stored table.now × WayReady way pixels.now g masks.now shades.filled 0 upper.old lower.old) }
    ensures { image.new
        ≡ painted (way_shade way (shades_of shades g.stored) g pixels.now frame (us_values masks.now)) (samples_of g)
        image.old }
{
    let height = g.rows;
    let columns = g.columns;
    for row in 0..height {
        let at = row * columns;
        lines::draw_line(
            way,
            pixels,
            g,
            frame,
            masks,
            row,
            shades,
            table,
            upper,
            lower,
            &mut image[at..],
        );
    }
}

// Paints a frame that takes no mask, and so no room for mask rows.
pub fn paint_native(
    pixels: &[u8],
    g: Geometry,
    frame: usize,
    shades: Shades,
    table: &[u8],
    image: &mut [u8],
)
    requires { CanPaint pixels.now g frame image.old × Shaded shades g.stored table.now }
    ensures { image.new
        ≡ painted (native_shade (shades_of shades g.stored) g pixels.now frame) (samples_of g) image.old }
{
    let mut upper: [u32; 1] = [0; 1];
    let mut lower: [u32; 1] = [0; 1];
    paint_lines(
        Way::Native,
        pixels,
        g,
        frame,
        b"",
        shades,
        table,
        &mut upper,
        &mut lower,
        image,
    );
}

// Paints a frame minus the average of its mask frames, moved by quarters.
pub fn paint_masked(
    pixels: &[u8],
    g: Geometry,
    frame: usize,
    masks: &[u8],
    moves: Moves,
    shades: Shades,
    table: &[u8],
    image: &mut [u8],
)
    requires { CanPaint pixels.now g frame image.old
        × (Masks pixels.now g masks.now × (ShortMoves moves × (Shaded shades g.stored table.now × (shades.filled ≡ true)))) }
    ensures { image.new
        ≡ painted (masked_shade (shades_of shades g.stored) g pixels.now frame (us_values masks.now) moves)
        (samples_of g) image.old }
{
    let mut upper: [u32; pixel::LONGEST] = [0; pixel::LONGEST];
    let mut lower: [u32; pixel::LONGEST] = [0; pixel::LONGEST];
    let way = lines::masked_way(pixels, g, masks, moves, shades.filled, &mut lower);
    paint_lines(
        way, pixels, g, frame, masks, shades, table, &mut upper, &mut lower, image,
    );
}
