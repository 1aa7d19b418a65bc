// Draws a frame of an accepted data set.
#![tactic(auto)]

ghost use Rattle.std.specs.Prelude.{◌≡◌, ℕ, ◌*◌, ◌≤◌, ◌<◌, true, false, ◌++◌, length, drop, get_or, Some};
ghost use Rattle.value.specs.Number.{number_or0};
ghost use Rattle.conformance.specs.declared.Finding.TheVariants as finding;
ghost use Rattle.dataset.specs.Reading.{reading_of};
ghost use Rattle.basics.specs.Fields.{Answers};
ghost use Rattle.dataset.specs.Answer.{buffer_of};
ghost use Rattle.conformance.specs.Judging.{finding_of};
ghost use Rattle.display.specs.declared.ShowError.TheVariants.{Refused};
ghost use Rattle.display.specs.Show.{image_size, image_by, picture_of, accepted_answer, show_of, image_of, fields_of};
ghost use Rattle.display.specs.Internal.{IsObject, IsScene, IsItem, IsApplying, IsPlan, Gives, GivesMoves, GivesInverse, average_by};
ghost use Rattle.display.specs.Internal.{DrawReady, tid_by, masking_of, MaskingBelow, ToldBy, is_masked, shade_by, MasksReady};
ghost use Rattle.value.specs.Internal.{Below};
ghost use Rattle.node.specs.Nodes.{nodes_of};
ghost use Rattle.element.specs.Frames.{frame_item, frames_of};
ghost use Rattle.element.specs.Elements.{value_at};
ghost use Rattle.pixel.specs.Pixel.{samples_of};
ghost use Rattle.pixel.specs.Internal.{painted};
ghost use Rattle.lines.specs.Internal.{shades_of, Shaded};
ghost use Rattle.painting.specs.Internal.{CanPaint};
ghost use Rattle.steps.specs.Steps.{applying_to, inverse_of, moves_for, mask_by, mask_for};
ghost use Rattle.steps.specs.Internal.{IsShared, IsTold};

use basics::tags;
use conformance::NotAccepted;
use lines::Shades;
use node::DataSet;
use pixel::Geometry;
use shift::Moves;
use steps::{Operation, Told};
use window::Window;

// What was drawn: the number of rows, and whether the picture is masked.
#[derive(Clone, Copy)]
pub struct Drawn {
    pub rows: usize,
    pub masked: bool,
}

// Why nothing was drawn: codes 1 to 9 of judging; code 10; code 11.
#[derive(Clone, Copy)]
pub enum ShowError {
    Refused(NotAccepted),
    NoFrame,
    NoImageRoom,
}

impl From<NotAccepted> for ShowError {
    ghost from_gives = { λ refusal error. error ≡ Refused refusal };

    fn from(refusal: NotAccepted) -> ShowError {
        ShowError::Refused(refusal)
    }
}

// What masks a frame: nothing; the frames that an element lists, moved; or one frame, moved.
#[derive(Clone, Copy)]
pub enum Masking {
    Native,
    Average(usize, Moves),
    One(usize, Moves),
}

// In an accepted object no step lacks anything, so what it answers is unwrapped.

// Step 4: how far mask item j is moved at the frame.
#[tactic(auto, using(crate::proofs::Answering::moves))]
fn moves_for(
    set: &DataSet,
    frame: usize,
    item: Option<usize>,
    j: usize,
    shared: Option<Option<usize>>,
) -> Moves
    requires item { IsItem (nodes_of set.now) frame item }
    requires within { j < length (nodes_of set.now) }
    requires gives { GivesMoves (moves_for (nodes_of set.now) frame j) }
    requires names { IsShared (nodes_of set.now) j shared }
    ensures { moves_for (nodes_of set.now) frame j ≡ Some result }
{
    shift::short_moves_of(steps::shift_by(set, frame, item, j, shared).unwrap())
}

// Steps 3 and 4 for the mask item that applies.
#[tactic(auto, using(crate::proofs::Answering::operations))]
fn mask_by(
    set: &DataSet,
    frame: usize,
    item: Option<usize>,
    j: usize,
    told: Told,
    n: usize,
) -> Masking
    requires item { IsItem (nodes_of set.now) frame item }
    requires within { j < length (nodes_of set.now) }
    requires small { frame < 4294967296 }
    requires gives { Gives n (mask_by (nodes_of set.now) frame j) }
    requires tells { IsTold (nodes_of set.now) j told }
    requires frames { frames_of (nodes_of set.now) ≡ Some n }
    ensures result_value { Some (masking_of (nodes_of set.now) result) ≡ mask_by (nodes_of set.now) frame j }
    ensures masking_below { MaskingBelow (length (nodes_of set.now)) result }
{
    match told.operation.unwrap() {
        Operation::Native => Masking::Native,
        Operation::Average => {
            let k = steps::average_element(set, j).unwrap();
            Masking::Average(k, moves_for(set, frame, item, j, told.shared))
        }
        Operation::Tid => match steps::tid_frame(set, frame, j, Some(n)).unwrap() {
            None => Masking::Native,
            Some(t) => Masking::One(t, moves_for(set, frame, item, j, told.shared)),
        },
    }
}

// What the mask item that applies says, the same for all frames.
fn told_for(set: &DataSet, applies: Option<usize>) -> Told
    requires { Below (length (nodes_of set.now)) applies }
    ensures { ToldBy (nodes_of set.now) applies result }
{
    match applies {
        Some(j) => steps::told_by(set, j),
        None => steps::nothing_told(),
    }
}

// Steps 3 and 4 once it is known which mask item applies and what it says, the same for all frames. If none applies the frame is native.
#[tactic(auto, using(crate::proofs::Answering::applications))]
fn mask_on(
    set: &DataSet,
    frame: usize,
    item: Option<usize>,
    applies: Option<usize>,
    told: Told,
    n: usize,
) -> Masking
    requires item { IsItem (nodes_of set.now) frame item }
    requires small { frame < 4294967296 }
    requires gives { Gives n (mask_for (nodes_of set.now) frame) }
    requires applying { IsApplying (nodes_of set.now) frame applies told }
    requires frames { frames_of (nodes_of set.now) ≡ Some n }
    ensures result_value { Some (masking_of (nodes_of set.now) result) ≡ mask_for (nodes_of set.now) frame }
    ensures masking_below { MaskingBelow (length (nodes_of set.now)) result }
{
    let Some(j) = applies else {
        return Masking::Native;
    };
    mask_by(set, frame, item, j, told, n)
}

// Paints the frame's samples, from a table filled with shades; answers whether it is masked.
fn paint(
    set: &DataSet,
    frame: usize,
    g: Geometry,
    p: usize,
    masking: Masking,
    shades: Shades,
    table: &[u8],
    image: &mut [u8],
) -> bool
    requires { (p < length (nodes_of set.now))
        × (CanPaint (value_at (nodes_of set.now) p) g frame image.old
        × (MasksReady (nodes_of set.now) (value_at (nodes_of set.now) p) g masking
        × (Shaded shades g.stored table.now × (shades.filled ≡ true)))) }
    ensures value { result ≡ is_masked masking }
    ensures image_after { image.new ≡ painted (shade_by (nodes_of set.now) (shades_of shades g.stored) g (value_at (nodes_of set.now) p) frame masking) (samples_of g) image.old }
{
    let pixels = set.value(p);
    match masking {
        Masking::Native => {
            painting::paint_native(pixels, g, frame, shades, table, image);
            false
        }
        Masking::Average(k, m) => {
            painting::paint_masked(pixels, g, frame, set.value(k), m, shades, table, image);
            true
        }
        Masking::One(t, m) => {
            let one = (t as u16).to_le_bytes();
            painting::paint_masked(pixels, g, frame, &one, m, shades, table, image);
            true
        }
    }
}

// Step 7: whether the picture is inverted.
fn is_inverse(set: &DataSet) -> bool
    requires { GivesInverse (inverse_of (nodes_of set.now)) }
    ensures { inverse_of (nodes_of set.now) ≡ Some result }
{
    steps::inverse_of(set).unwrap()
}

// ---- What is worked out once for an object, and once for a frame

// What all frames of an object share: the size of a frame, the pixel bytes' row, whether pictures are inverted, and the window of
// the frames that have none of their own.
#[derive(Clone, Copy)]
pub struct Scene {
    pub g: Geometry,
    pub p: usize,
    pub inverse: bool,
    pub window: Option<Window>,
}

// What a frame has of its own: its window, and what masks it.
#[derive(Clone, Copy)]
pub struct Plan {
    pub window: Window,
    pub masking: Masking,
}

pub fn scene_of(set: &DataSet, n: usize) -> Scene
    requires { IsObject set.now n }
    ensures { IsScene (nodes_of set.now) result }
{
    let g = steps::geometry_of(set).unwrap();
    let p = set.find_root(tags::PIXEL_DATA).unwrap();
    Scene {
        g,
        p,
        inverse: is_inverse(set),
        window: steps::shared_window(set, g.stored),
    }
}

pub fn plan_of(
    set: &DataSet,
    c: Scene,
    frame: usize,
    n: usize,
    item: Option<usize>,
    applies: Option<usize>,
    told: Told,
) -> Plan
    requires { IsObject set.now n
        × (IsScene (nodes_of set.now) c
        × (IsItem (nodes_of set.now) frame item
        × ((1 ≤ frame) × ((frame ≤ n) × IsApplying (nodes_of set.now) frame applies told)))) }
    ensures { IsPlan (nodes_of set.now) frame c.g.stored result }
{
    Plan {
        window: steps::window_by(set, frame, item, c.g.stored, c.window).unwrap(),
        masking: mask_on(set, frame, item, applies, told, n),
    }
}

// The plan of one frame, with all that it needs worked out here.
pub fn plan_for(set: &DataSet, c: Scene, frame: usize, n: usize) -> Plan
    requires { IsObject set.now n × (IsScene (nodes_of set.now) c × ((1 ≤ frame) × (frame ≤ n))) }
    ensures { IsPlan (nodes_of set.now) frame c.g.stored result }
{
    let item = steps::item_at(set, frame);
    let applies = steps::mask_item(set, frame);
    let told = told_for(set, applies);
    plan_of(set, c, frame, n, item, applies, told)
}

// Draws a frame of an accepted object of n frames; answers whether it is masked.
fn draw(set: &DataSet, frame: usize, n: usize, image: &mut [u8]) -> bool
    requires { DrawReady set.now frame n image.old }
    ensures value { result ≡ (picture_of (nodes_of set.now) frame).masked }
    ensures image_after { image.new ≡ (picture_of (nodes_of set.now) frame).samples ++ drop (length (picture_of (nodes_of set.now) frame).samples) image.old }
{
    let c = scene_of(set, n);
    let own = plan_for(set, c, frame, n);
    let mut table = [0; window::PLACES];
    lines::fill(own.window, c.g.stored, c.inverse, &mut table);
    let shades = Shades {
        window: own.window,
        inverse: c.inverse,
        filled: true,
    };
    paint(set, frame, c.g, c.p, own.masking, shades, &table, image)
}

// Rows times Columns.
pub fn image_size(set: &DataSet) -> usize
    ensures { result ≡ image_size (nodes_of set.now) }
{
    let height = element::us_root(set, tags::ROWS).unwrap_or(0);
    let width = element::us_root(set, tags::COLUMNS).unwrap_or(0);
    height * width
}

// Shows a frame of an accepted object whose number of rows is given: codes 10 and 11, or the picture.
#[tactic(auto, unfolding(crate::specs::Show::accepted_answer))]
pub fn show_table(
    set: &DataSet,
    frame: usize,
    count: usize,
    image: &mut [u8],
) -> Result<Drawn, ShowError>
    requires { ((i : ℕ) → get_or set.now i 0 < 256) × (finding_of (nodes_of set.now) ≡ finding.Accepted) }
    ensures value { result ≡ accepted_answer (nodes_of set.now) frame image.old count }
    ensures image_after { image.new ≡ image_by (picture_of (nodes_of set.now) frame) image.old result }
{
    let n = element::frame_count(set).ok_or(ShowError::NoFrame)?;
    if frame < 1 || n < frame {
        return Err(ShowError::NoFrame);
    }
    if image.len() < image_size(set) {
        return Err(ShowError::NoImageRoom);
    }
    Ok(Drawn {
        rows: count,
        masked: draw(set, frame, n, image),
    })
}

// Judges the data set afresh and draws a frame of it.
#[tactic(auto, using(crate::proofs::Judged::judging), unfolding(crate::specs::Show::show_of, crate::specs::Show::image_of))]
pub fn show(
    bytes: &[u8],
    frame: u64,
    rows: &mut [u32],
    image: &mut [u8],
) -> Result<Drawn, ShowError>
    ensures answers { Answers fields_of result (show_of bytes.now frame rows.old image.old) }
    ensures rows_after { rows.new ≡ buffer_of (reading_of bytes.now) rows.old }
    ensures image_after { image.new ≡ image_of bytes.now frame rows.old image.old }
{
    let count = conformance::accept(bytes, rows)?;
    let set = DataSet::new(bytes, &rows[..dataset::WIDTH * count]);
    show_table(&set, frame as usize, count, image)
}
