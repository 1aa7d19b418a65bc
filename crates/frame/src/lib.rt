// A frame looked at as its own part of the pixel bytes: the bytes of a line, in the data set as lent.
#![tactic(auto)]

ghost use Rattle.std.specs.Prelude.{◌+◌, ◌-◌, ◌*◌, ◌≤◌, ◌<◌, length};
ghost use Rattle.dataset.specs.Tree.{rows_of, row_at};
ghost use Rattle.node.specs.Nodes.{nodes_of};
ghost use Rattle.node.specs.Internal.{Table};
ghost use Rattle.frame.specs.View.{Part, IsView, frame_size};
ghost use Rattle.frame.specs.Internal.{Fits};

use dataset::WIDTH;

// A frame: its bytes, the number of its rows and of its columns. Public, since display/specs/FrameBytes speaks of it.
#[derive(Clone, Copy)]
pub struct FrameView<'a> {
    pub samples: &'a [u8],
    pub rows: usize,
    pub columns: usize,
}

// ---- Slices and numbers

// Block k of blocks of `size` bytes.
fn block(s: &[u8], size: usize, k: usize) -> &[u8]
    requires { k * size + size ≤ length s.now }
    ensures { Part s.entry (k * size) size result }
{
    let from = k * size;
    let to = from + size;
    &s[from..to]
}

// The bytes of a frame.
fn frame_part(pixels: &[u8], rows: usize, columns: usize, width: usize, frame: usize) -> &[u8]
    requires { Fits rows columns width frame (length pixels.now) }
    ensures { Part pixels.entry ((frame - 1) * frame_size rows columns width) (frame_size rows columns width) result }
{
    block(pixels, rows * columns * width, frame - 1)
}

// The bytes of a line of a frame's bytes.
fn line_part(samples: &[u8], columns: usize, width: usize, row: usize) -> &[u8]
    requires { row * (columns * width) + columns * width ≤ length samples.now }
    ensures { Part samples.entry (row * (columns * width)) (columns * width) result }
{
    block(samples, columns * width, row)
}

// ---- The view: each function makes it or takes it apart

// The frame's bytes, with its size.
fn view<'a>(
    pixels: &'a [u8],
    rows: usize,
    columns: usize,
    width: usize,
    frame: usize,
) -> FrameView<'a>
    requires { Fits rows columns width frame (length pixels.now) }
    ensures { IsView pixels.entry rows columns width frame result }
{
    let samples = frame_part(pixels, rows, columns, width, frame);
    FrameView {
        samples,
        rows,
        columns,
    }
}

// A line of the frame.
fn line<'a>(v: FrameView<'a>, width: usize, row: usize) -> &'a [u8]
    requires { row * (v.columns * width) + v.columns * width ≤ length v.samples.now }
    ensures { Part v.entry.samples (row * (v.entry.columns * width)) (v.entry.columns * width) result }
{
    line_part(v.samples, v.columns, width, row)
}

// A line of a frame, through its view.
pub fn frame_line<'a>(
    pixels: &'a [u8],
    rows: usize,
    columns: usize,
    width: usize,
    frame: usize,
    row: usize,
) -> &'a [u8]
    requires { Fits rows columns width frame (length pixels.now) × (row < rows) }
    ensures { Part pixels.entry ((frame - 1) * frame_size rows columns width + row * (columns * width)) (columns * width) result }
{
    line(view(pixels, rows, columns, width, frame), width, row)
}

// ---- In the data set as lent

// The value of row p, a part of the data set. It takes the bytes and the rows, and no `DataSet`, since it promises where the bytes lie.
pub fn value_part<'a, 'b>(bytes: &'a [u8], rows: &'b [u32], p: usize) -> &'a [u8]
    requires { Table bytes.now rows.now × (p < length (nodes_of bytes.now)) }
    ensures { Part bytes.entry (row_at (rows_of bytes.now) p).offset (row_at (rows_of bytes.now) p).size result }
{
    let start = rows[WIDTH * p + dataset::OFFSET] as usize;
    let end = start + rows[WIDTH * p + dataset::SIZE] as usize;
    &bytes[start..end]
}
