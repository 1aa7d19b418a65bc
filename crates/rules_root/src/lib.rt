// Rules 1 to 26, about elements of the root, and rule 38, about the pixel data: whether each holds for a data set.
#![tactic(auto)]

ghost use Rattle.std.specs.Prelude.{◌≡◌, ◌*◌, ◌≤◌, ◌<◌, length, eqb, leb};
ghost use Rattle.value.specs.Number.{integer_limit};
ghost use Rattle.node.specs.Nodes.{nodes_of, root};
ghost use Rattle.node.specs.Find.{holds};
ghost use Rattle.element.specs.Elements.{us_in};
ghost use Rattle.rules.specs.Root.{is_xa, is_xrf, image_type_is, is_image_type, planes_are, is_other_plane, photometric_is, bits_fit, lossy_is};
ghost use Rattle.rules.specs.Root.{is_original, has_radiation, has_exposure, rule1, rule2, rule3, rule4, rule5, rule6, rule7, rule8, rule9};
ghost use Rattle.rules.specs.Root.{rule10, rule11, rule12, rule13, rule14, rule15, rule16, rule17, rule18, rule19, rule20, rule21, rule22};
ghost use Rattle.rules.specs.Root.{rule23, rule24, rule25, rule26};
ghost use Rattle.rules.specs.Pixels.{padded, is_pixel_vr, is_pixel_data, rule38};
ghost use Rattle.rules.specs.All.{rule_at};

use basics::{tags, vrs};
use node::DataSet;

// ---- Words of several rules

// The SOP class is Enhanced XA.
#[tactic(auto, unfolding(rules::specs::Root::is_xa))]
fn is_xa(set: &DataSet) -> bool
    ensures { result ≡ is_xa (nodes_of set.now) }
{
    element::is_ui_root(set, tags::SOP_CLASS_UID, b"1.2.840.10008.5.1.4.1.1.12.1.1")
}

// The SOP class is Enhanced XRF.
#[tactic(auto, unfolding(rules::specs::Root::is_xrf))]
fn is_xrf(set: &DataSet) -> bool
    ensures { result ≡ is_xrf (nodes_of set.now) }
{
    element::is_ui_root(set, tags::SOP_CLASS_UID, b"1.2.840.10008.5.1.4.1.1.12.2.1")
}

// Value 1 of Image Type is the word.
#[tactic(auto, unfolding(rules::specs::Root::image_type_is))]
fn image_type_is(set: &DataSet, word: &[u8]) -> bool
    ensures { result ≡ image_type_is (nodes_of set.now) word.now }
{
    let Some(i) = element::find_vr_root(set, tags::IMAGE_TYPE, vrs::CS) else {
        return false;
    };
    value::is_word_at(set.value(i), 0, word)
}

#[tactic(auto, unfolding(rules::specs::Root::is_original))]
fn is_original(set: &DataSet) -> bool
    ensures { result ≡ is_original (nodes_of set.now) }
{
    image_type_is(set, b"ORIGINAL")
}

#[tactic(auto, unfolding(rules::specs::Root::planes_are))]
fn planes_are(set: &DataSet, word: &[u8]) -> bool
    ensures { result ≡ planes_are (nodes_of set.now) word.now }
{
    element::is_cs_root(set, tags::PLANES_IN_ACQUISITION, word)
}

#[tactic(auto, unfolding(rules::specs::Root::photometric_is))]
fn photometric_is(set: &DataSet, word: &[u8]) -> bool
    ensures { result ≡ photometric_is (nodes_of set.now) word.now }
{
    element::is_cs_root(set, tags::PHOTOMETRIC_INTERPRETATION, word)
}

#[tactic(auto, unfolding(rules::specs::Root::lossy_is))]
fn lossy_is(set: &DataSet, word: &[u8]) -> bool
    ensures { result ≡ lossy_is (nodes_of set.now) word.now }
{
    element::is_cs_root(set, tags::LOSSY_IMAGE_COMPRESSION, word)
}

// ---- What kind of image, and of which planes

// Rule 1: SOP Class UID.
#[tactic(auto, unfolding(rules::specs::Root::rule1))]
fn rule_1(set: &DataSet) -> bool
    ensures { result ≡ rule1 (nodes_of set.now) }
{
    is_xa(set) || is_xrf(set)
}

// Rule 2: Modality.
#[tactic(auto, unfolding(rules::specs::Root::rule2))]
fn rule_2(set: &DataSet) -> bool
    ensures { result ≡ rule2 (nodes_of set.now) }
{
    let word = if is_xrf(set) { b"RF" } else { b"XA" };
    element::is_cs_root(set, tags::MODALITY, word)
}

#[tactic(auto, unfolding(rules::specs::Root::is_image_type))]
fn is_image_type(v: &[u8]) -> bool
    ensures { result ≡ is_image_type v.now }
{
    4 <= value::count_values(v)
        && value::is_word_at(v, 3, b"NONE")
        && (value::is_word_at(v, 0, b"ORIGINAL")
            || value::is_word_at(v, 0, b"DERIVED")
            || value::is_word_at(v, 0, b"MIXED"))
}

// Rule 3: Image Type.
#[tactic(auto, unfolding(rules::specs::Root::rule3))]
fn rule_3(set: &DataSet) -> bool
    ensures { result ≡ rule3 (nodes_of set.now) }
{
    let Some(i) = element::find_vr_root(set, tags::IMAGE_TYPE, vrs::CS) else {
        return false;
    };
    is_image_type(set.value(i))
}

// Rule 4: Planes in Acquisition.
#[tactic(auto, unfolding(rules::specs::Root::rule4))]
fn rule_4(set: &DataSet) -> bool
    ensures { result ≡ rule4 (nodes_of set.now) }
{
    planes_are(set, b"SINGLE PLANE") || planes_are(set, b"BIPLANE") || planes_are(set, b"UNDEFINED")
}

// Rule 5: planes are UNDEFINED only in a derived image.
#[tactic(auto, unfolding(rules::specs::Root::rule5))]
fn rule_5(set: &DataSet) -> bool
    ensures { result ≡ rule5 (nodes_of set.now) }
{
    !planes_are(set, b"UNDEFINED") || image_type_is(set, b"DERIVED")
}

// Rule 6: Plane Identification.
#[tactic(auto, unfolding(rules::specs::Root::rule6))]
fn rule_6(set: &DataSet) -> bool
    ensures { result ≡ rule6 (nodes_of set.now) }
{
    if planes_are(set, b"UNDEFINED") {
        element::is_absent_root(set, tags::PLANE_IDENTIFICATION)
    } else {
        element::has_root(set, tags::PLANE_IDENTIFICATION, vrs::CS)
    }
}

#[tactic(auto, unfolding(rules::specs::Root::is_other_plane))]
fn is_other_plane(v: &[u8]) -> bool
    ensures { result ≡ is_other_plane v.now }
{
    value::is_single(v) && !value::is_word(v, b"MONOPLANE")
}

// Rule 7: with BIPLANE the plane is not MONOPLANE.
#[tactic(auto, unfolding(rules::specs::Root::rule7))]
fn rule_7(set: &DataSet) -> bool
    ensures { result ≡ rule7 (nodes_of set.now) }
{
    if !planes_are(set, b"BIPLANE") {
        return true;
    }
    let Some(i) = element::find_vr_root(set, tags::PLANE_IDENTIFICATION, vrs::CS) else {
        return false;
    };
    is_other_plane(set.value(i))
}

// Rule 8: Acquisition DateTime.
#[tactic(auto, unfolding(rules::specs::Root::rule8))]
fn rule_8(set: &DataSet) -> bool
    ensures { result ≡ rule8 (nodes_of set.now) }
{
    element::has_root(set, tags::ACQUISITION_DATETIME, vrs::DT)
}

// ---- How the samples are stored

// Rule 9: Samples per Pixel.
#[tactic(auto, unfolding(rules::specs::Root::rule9))]
fn rule_9(set: &DataSet) -> bool
    ensures { result ≡ rule9 (nodes_of set.now) }
{
    element::us_root(set, tags::SAMPLES_PER_PIXEL) == Some(1)
}

// Rule 10: Photometric Interpretation.
#[tactic(auto, unfolding(rules::specs::Root::rule10))]
fn rule_10(set: &DataSet) -> bool
    ensures { result ≡ rule10 (nodes_of set.now) }
{
    photometric_is(set, b"MONOCHROME1") || photometric_is(set, b"MONOCHROME2")
}

// A US of at least 1.
fn is_above_zero(set: &DataSet, tag: usize) -> bool
    ensures { result ≡ holds (us_in (nodes_of set.now) tag (root (nodes_of set.now))) (λ n. leb 1 n) }
{
    element::us_root(set, tag).is_some_and(|n| 1 <= n)
}

// Rule 11: Rows, Columns.
#[tactic(auto, unfolding(rules::specs::Root::rule11))]
fn rule_11(set: &DataSet) -> bool
    ensures { result ≡ rule11 (nodes_of set.now) }
{
    is_above_zero(set, tags::ROWS) && is_above_zero(set, tags::COLUMNS)
}

#[tactic(auto, unfolding(rules::specs::Root::bits_fit))]
fn bits_fit(allocated: usize, stored: usize) -> bool
    ensures { result ≡ bits_fit allocated stored }
{
    (allocated == 8 && stored == 8) || (allocated == 16 && 9 <= stored && stored <= 16)
}

// Rule 12: Bits Allocated, Bits Stored.
#[tactic(auto, unfolding(rules::specs::Root::rule12))]
fn rule_12(set: &DataSet) -> bool
    ensures { result ≡ rule12 (nodes_of set.now) }
{
    let Some(allocated) = element::us_root(set, tags::BITS_ALLOCATED) else {
        return false;
    };
    let Some(stored) = element::us_root(set, tags::BITS_STORED) else {
        return false;
    };
    bits_fit(allocated, stored)
}

// Rule 13: High Bit.
#[tactic(auto, unfolding(rules::specs::Root::rule13))]
fn rule_13(set: &DataSet) -> bool
    ensures { result ≡ rule13 (nodes_of set.now) }
{
    let Some(high) = element::us_root(set, tags::HIGH_BIT) else {
        return false;
    };
    let Some(stored) = element::us_root(set, tags::BITS_STORED) else {
        return false;
    };
    high + 1 == stored
}

// Rule 14: Pixel Representation.
#[tactic(auto, unfolding(rules::specs::Root::rule14))]
fn rule_14(set: &DataSet) -> bool
    ensures { result ≡ rule14 (nodes_of set.now) }
{
    element::us_root(set, tags::PIXEL_REPRESENTATION) == Some(0)
}

// Rule 15: Number of Frames.
#[tactic(auto, unfolding(rules::specs::Root::rule15))]
fn rule_15(set: &DataSet) -> bool
    ensures { result ≡ rule15 (nodes_of set.now) }
{
    element::frame_count(set).is_some_and(|n| 1 <= n && n <= basics::LAST_FRAME)
}

// ---- What the image is made for, and how it is shown

// Rule 16: Content Qualification.
#[tactic(auto, unfolding(rules::specs::Root::rule16))]
fn rule_16(set: &DataSet) -> bool
    ensures { result ≡ rule16 (nodes_of set.now) }
{
    element::is_cs_root(set, tags::CONTENT_QUALIFICATION, b"PRODUCT")
        || element::is_cs_root(set, tags::CONTENT_QUALIFICATION, b"RESEARCH")
        || element::is_cs_root(set, tags::CONTENT_QUALIFICATION, b"SERVICE")
}

// Rule 17: Burned In Annotation.
#[tactic(auto, unfolding(rules::specs::Root::rule17))]
fn rule_17(set: &DataSet) -> bool
    ensures { result ≡ rule17 (nodes_of set.now) }
{
    element::is_cs_root(set, tags::BURNED_IN_ANNOTATION, b"NO")
}

// Rule 18: Lossy Image Compression.
#[tactic(auto, unfolding(rules::specs::Root::rule18))]
fn rule_18(set: &DataSet) -> bool
    ensures { result ≡ rule18 (nodes_of set.now) }
{
    lossy_is(set, b"00") || lossy_is(set, b"01")
}

// Rule 19: Lossy Image Compression Ratio and Method.
#[tactic(auto, unfolding(rules::specs::Root::rule19))]
fn rule_19(set: &DataSet) -> bool
    ensures { result ≡ rule19 (nodes_of set.now) }
{
    if lossy_is(set, b"01") {
        element::has_root(set, tags::LOSSY_IMAGE_COMPRESSION_RATIO, vrs::DS)
            && element::has_root(set, tags::LOSSY_IMAGE_COMPRESSION_METHOD, vrs::CS)
    } else {
        element::is_absent_root(set, tags::LOSSY_IMAGE_COMPRESSION_RATIO)
            && element::is_absent_root(set, tags::LOSSY_IMAGE_COMPRESSION_METHOD)
    }
}

// Rule 20: Referenced Other Plane Sequence.
#[tactic(auto, unfolding(rules::specs::Root::rule20))]
fn rule_20(set: &DataSet) -> bool
    ensures { result ≡ rule20 (nodes_of set.now) }
{
    if !planes_are(set, b"BIPLANE") {
        return element::is_absent_root(set, tags::REFERENCED_OTHER_PLANE_SEQUENCE);
    }
    let Some(i) = set.find_root(tags::REFERENCED_OTHER_PLANE_SEQUENCE) else {
        return false;
    };
    element::is_one_item(set, i)
}

// Rule 21: Presentation LUT Shape.
#[tactic(auto, unfolding(rules::specs::Root::rule21))]
fn rule_21(set: &DataSet) -> bool
    ensures { result ≡ rule21 (nodes_of set.now) }
{
    let word: &[u8] = if photometric_is(set, b"MONOCHROME1") {
        b"INVERSE"
    } else {
        b"IDENTITY"
    };
    element::is_cs_root(set, tags::PRESENTATION_LUT_SHAPE, word)
}

// ---- How an original image was exposed

#[tactic(auto, unfolding(rules::specs::Root::has_radiation))]
fn has_radiation(set: &DataSet) -> bool
    ensures { result ≡ has_radiation (nodes_of set.now) }
{
    element::has_root(set, tags::KVP, vrs::DS)
        && element::has_root(set, tags::RADIATION_MODE, vrs::CS)
        && (element::is_cs_root(set, tags::RADIATION_SETTING, b"SC")
            || element::is_cs_root(set, tags::RADIATION_SETTING, b"GR"))
}

// Rule 22: KVP, Radiation Mode and Radiation Setting of an original image.
#[tactic(auto, unfolding(rules::specs::Root::rule22))]
fn rule_22(set: &DataSet) -> bool
    ensures { result ≡ rule22 (nodes_of set.now) }
{
    !is_original(set) || has_radiation(set)
}

#[tactic(auto, unfolding(rules::specs::Root::has_exposure))]
fn has_exposure(set: &DataSet) -> bool
    ensures { result ≡ has_exposure (nodes_of set.now) }
{
    element::has_root(set, tags::EXPOSURE_IN_MAS, vrs::FD)
        || (element::has_root(set, tags::EXPOSURE_TIME_IN_MS, vrs::FD)
            && element::has_root(set, tags::XRAY_TUBE_CURRENT_IN_MA, vrs::FD))
}

// Rule 23: the exposure of an original image.
#[tactic(auto, unfolding(rules::specs::Root::rule23))]
fn rule_23(set: &DataSet) -> bool
    ensures { result ≡ rule23 (nodes_of set.now) }
{
    !is_original(set) || has_exposure(set)
}

// Rule 24: Positioner Type of an original XRF image.
#[tactic(auto, unfolding(rules::specs::Root::rule24))]
fn rule_24(set: &DataSet) -> bool
    ensures { result ≡ rule24 (nodes_of set.now) }
{
    !is_original(set) || !is_xrf(set) || element::is_cs_root(set, tags::POSITIONER_TYPE, b"COLUMN")
}

// ---- Functional groups

// Rule 25: the shared functional groups have one item.
#[tactic(auto, unfolding(rules::specs::Root::rule25))]
fn rule_25(set: &DataSet) -> bool
    ensures { result ≡ rule25 (nodes_of set.now) }
{
    element::shared_item(set).is_some()
}

// Rule 26: the per-frame functional groups have an item for each frame.
#[tactic(auto, unfolding(rules::specs::Root::rule26))]
fn rule_26(set: &DataSet) -> bool
    ensures { result ≡ rule26 (nodes_of set.now) }
{
    let Some(groups) = element::find_vr_root(
        set,
        tags::PER_FRAME_FUNCTIONAL_GROUPS_SEQUENCE,
        vrs::SQ,
    ) else {
        return false;
    };
    let Some(frames) = element::frame_count(set) else {
        return false;
    };
    element::count_items(set, groups) == frames
}

// ---- Pixel data

#[tactic(auto, unfolding(rules::specs::Pixels::is_pixel_vr))]
fn is_pixel_vr(vr: usize, allocated: usize) -> bool
    ensures { result ≡ is_pixel_vr vr allocated }
{
    vr == vrs::OW || (vr == vrs::OB && allocated == 8)
}

// Whether a length is that of `count` parts of a size, plus 1 if odd. A product that does not fit a usize is above every length.
fn is_padded(length: usize, count: usize, size: usize) -> bool
    ensures { result ≡ eqb length (padded (count * size)) }
{
    let Some(whole) = count.checked_mul(size) else {
        return false;
    };
    whole <= length && length - whole == whole % 2
}

#[tactic(auto, unfolding(rules::specs::Pixels::is_pixel_data))]
fn is_pixel_data(
    set: &DataSet,
    frames: usize,
    height: usize,
    width: usize,
    allocated: usize,
    i: usize,
) -> bool
    requires { (i < length (nodes_of set.now))
        × ((frames < integer_limit) × ((height < 65536) × ((width < 65536) × (allocated < 65536)))) }
    ensures { result ≡ is_pixel_data (nodes_of set.now) frames height width allocated i }
{
    is_pixel_vr(set.vr(i), allocated)
        && is_padded(set.value(i).len(), frames * height, width * (allocated / 8))
}

// Rule 38: Pixel Data.
#[tactic(auto, unfolding(rules::specs::Pixels::rule38, rules::specs::All::rule_at, rules::specs::All::rule_list))]
pub fn rule_38(set: &DataSet) -> bool
    ensures value { result ≡ rule38 (nodes_of set.now) }
    ensures value_2 { result ≡ rule_at (nodes_of set.now) 38 0 }
{
    let Some(frames) = element::frame_count(set) else {
        return false;
    };
    let Some(height) = element::us_root(set, tags::ROWS) else {
        return false;
    };
    let Some(width) = element::us_root(set, tags::COLUMNS) else {
        return false;
    };
    let Some(allocated) = element::us_root(set, tags::BITS_ALLOCATED) else {
        return false;
    };
    let Some(i) = set.find_root(tags::PIXEL_DATA) else {
        return false;
    };
    is_pixel_data(set, frames, height, width, allocated, i)
}

// ---- By their numbers

// Whether a rule from 1 to 26 holds. A rule is known by its number, as in `rule_at`, so each arm is one number.
#[tactic(auto, unfolding(rules::specs::All::rule_at, rules::specs::All::rule_list))]
pub fn root_rule(set: &DataSet, rule: usize) -> bool
    requires { (1 ≤ rule) × (rule ≤ 26) }
    ensures { result ≡ rule_at (nodes_of set.now) rule 0 }
{
    match rule {
        1 => rule_1(set),
        2 => rule_2(set),
        3 => rule_3(set),
        4 => rule_4(set),
        5 => rule_5(set),
        6 => rule_6(set),
        7 => rule_7(set),
        8 => rule_8(set),
        9 => rule_9(set),
        10 => rule_10(set),
        11 => rule_11(set),
        12 => rule_12(set),
        13 => rule_13(set),
        14 => rule_14(set),
        15 => rule_15(set),
        16 => rule_16(set),
        17 => rule_17(set),
        18 => rule_18(set),
        19 => rule_19(set),
        20 => rule_20(set),
        21 => rule_21(set),
        22 => rule_22(set),
        23 => rule_23(set),
        24 => rule_24(set),
        25 => rule_25(set),
        _ => rule_26(set),
    }
}
