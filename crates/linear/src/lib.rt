// Maps a frame of an accepted data set back to beam intensity.
#![tactic(auto)]

ghost use Rattle.std.specs.Prelude.{◌≡◌, ℕ, ◌+◌, ◌*◌, ◌≤◌, ◌<◌, ◌++◌, length, drop, get_or, Some};
ghost use Rattle.conformance.specs.declared.Finding.TheVariants as finding;
ghost use Rattle.basics.specs.Bytes.{le16};
ghost use Rattle.dataset.specs.Reading.{reading_of};
ghost use Rattle.basics.specs.Fields.{Answers};
ghost use Rattle.dataset.specs.Answer.{buffer_of};
ghost use Rattle.conformance.specs.Judging.{finding_of};
ghost use Rattle.node.specs.Nodes.{nodes_of};
ghost use Rattle.pixel.specs.Pixel.{samples_of, sample_at};
ghost use Rattle.pixel.specs.Internal.{painted};
ghost use Rattle.steps.specs.Internal.{FoundBelow};
ghost use Rattle.linear.specs.declared.LinearError.TheVariants.{Refused};
ghost use Rattle.linear.specs.Mapping.{linear_on, linear_for, place_among, entry_at, mapping_by};
ghost use Rattle.linear.specs.Answer.{entries_in, entries_of, accepted_answer, linear_of, values_by, values_left, fields_of};
ghost use Rattle.linear.specs.Internal.{MapReady, Mappable};

use basics::{tags, u16_at, vrs};
use conformance::NotAccepted;
use node::DataSet;
use pixel::Geometry;

// Why nothing was mapped: codes 1 to 9 of judging; code 10; code 20; code 11.
#[derive(Clone, Copy)]
pub enum LinearError {
    Refused(NotAccepted),
    NoFrame,
    NoItem,
    NoValuesRoom,
}

impl From<NotAccepted> for LinearError {
    ghost from_gives = { λ refusal error. error ≡ Refused refusal };

    fn from(refusal: NotAccepted) -> LinearError {
        LinearError::Refused(refusal)
    }
}

// ---- The TO_LINEAR item

// The first TO_LINEAR item of a group, or that it has none.
fn linear_on(set: &DataSet, group: usize) -> Option<Option<usize>>
    requires { group < length (nodes_of set.now) }
    ensures result_value { result ≡ linear_on (nodes_of set.now) (Some group) }
    ensures found_below { FoundBelow (length (nodes_of set.now)) result }
{
    if set.vr(group) != vrs::SQ {
        return None;
    }
    let to = set.next(group);
    let j = intensity::next_linear(set, group + 1, to);
    Some((j < to).then_some(j))
}

// The frame's TO_LINEAR item, or that it has none.
#[tactic(auto, unfolding(crate::specs::Mapping::linear_for))]
fn linear_for(set: &DataSet, frame: usize) -> Option<Option<usize>>
    ensures result_value { result ≡ linear_for (nodes_of set.now) frame }
    ensures found_below { FoundBelow (length (nodes_of set.now)) result }
{
    let item = steps::item_at(set, frame);
    let tag = tags::PIXEL_INTENSITY_RELATIONSHIP_LUT_SEQUENCE;
    match steps::group_for(set, frame, item, tag)? {
        Some(g) => linear_on(set, g),
        None => Some(None),
    }
}

// ---- Cells to entries

// The place of cell x's entry.
#[tactic(auto, unfolding(crate::specs::Mapping::place_among))]
fn place(from: usize, count: usize, x: usize) -> usize
    requires { (1 ≤ count) × ((count ≤ 65536) × (from < 65536)) }
    ensures { (result ≡ place_among from count x) × (result < count) }
{
    x.saturating_sub(from).min(count - 1)
}

fn entry(entries: &[u8], k: usize) -> u16
    requires { 2 * k + 2 ≤ length entries.now }
    ensures { result ≡ le16 entries.now (2 * k) }
{
    u16_at(entries, 2 * k) as u16
}

// The entries of the frame's cells.
#[tactic(auto, using(crate::proofs::Laws::cells), unfolding(pixel::specs::Internal::painted))]
fn map_cells(
    pixels: &[u8],
    g: Geometry,
    frame: usize,
    descriptor: &[u8],
    entries: &[u8],
    values: &mut [u16],
)
    requires { MapReady pixels.now g frame descriptor.now entries.now values.old }
    ensures { values.new ≡ painted (λ i. entry_at descriptor.now entries.now (sample_at g pixels.now frame i)) (samples_of g) values.old }
{
    let n = g.rows * g.columns;
    let first = (frame - 1) * n;
    let low = pixel::power(g.stored) - 1;
    let from = u16_at(descriptor, 2);
    let count = intensity::entry_count(descriptor);
    for i in 0..n {
        let x = pixel::sample(pixels, g, low, first + i);
        values[i] = entry(entries, place(from, count, x));
    }
}

// Maps a frame of an accepted object by its TO_LINEAR item.
fn map(set: &DataSet, frame: usize, item: usize, values: &mut [u16])
    requires { (item < length (nodes_of set.now)) × Mappable (nodes_of set.now) frame item (length values.old) }
    ensures { values.new ≡ entries_in (mapping_by (nodes_of set.now) frame item) ++ drop (length (entries_in (mapping_by (nodes_of set.now) frame item))) values.old }
{
    let g = steps::geometry_of(set).unwrap();
    let p = steps::pixel_element(set).unwrap();
    let d = element::find_vr_item(set, item, tags::LUT_DESCRIPTOR, vrs::US).unwrap();
    let t = element::find_vr_item(set, item, tags::LUT_DATA, vrs::OW).unwrap();
    map_cells(set.value(p), g, frame, set.value(d), set.value(t), values);
}

// ---- The call

// Maps a frame of an accepted object whose number of rows is given: codes 10, 20 and 11, or the numbers.
#[tactic(auto, unfolding(crate::specs::Answer::accepted_answer, crate::specs::Mapping::has_linear_item))]
fn linear_table(
    set: &DataSet,
    frame: usize,
    count: usize,
    values: &mut [u16],
) -> Result<usize, LinearError>
    requires { ((i : ℕ) → get_or set.now i 0 < 256) × (finding_of (nodes_of set.now) ≡ finding.Accepted) }
    ensures value { result ≡ accepted_answer (nodes_of set.now) frame values.old count }
    ensures values_after { values.new ≡ values_by (entries_of (nodes_of set.now) frame) values.old result }
{
    let n = element::frame_count(set).ok_or(LinearError::NoFrame)?;
    if frame < 1 || n < frame {
        return Err(LinearError::NoFrame);
    }
    let Some(Some(j)) = linear_for(set, frame) else {
        return Err(LinearError::NoItem);
    };
    if values.len() < display::image_size(set) {
        return Err(LinearError::NoValuesRoom);
    }
    map(set, frame, j, values);
    Ok(count)
}

// Judges the data set afresh and maps a frame of it; answers its number of rows.
#[tactic(auto, using(display::proofs::Judged::judging), unfolding(crate::specs::Answer::linear_of, crate::specs::Answer::values_left))]
pub fn linear(
    bytes: &[u8],
    frame: u64,
    rows: &mut [u32],
    values: &mut [u16],
) -> Result<usize, LinearError>
    ensures answers { Answers fields_of result (linear_of bytes.now frame rows.old values.old) }
    ensures rows_after { rows.new ≡ buffer_of (reading_of bytes.now) rows.old }
    ensures values_after { values.new ≡ values_left bytes.now frame rows.old values.old }
{
    let count = conformance::accept(bytes, rows)?;
    let set = DataSet::new(bytes, &rows[..dataset::WIDTH * count]);
    linear_table(&set, frame as usize, count, values)
}
