// What each rule asks, in a line that can be quoted to the sender. A wrong VR breaks a rule too, so each attribute is named with its VR.

use std::io;
use std::io::Write;

// The sentence of rule 1, of rule 2, and so on.
const SENTENCES: [&str; 39] = [
    "SOP Class UID (0008,0016) UI must be Enhanced XA, 1.2.840.10008.5.1.4.1.1.12.1.1, or Enhanced XRF, 1.2.840.10008.5.1.4.1.1.12.2.1.",
    "Modality (0008,0060) CS must be XA in an XA object and RF in an XRF object.",
    "Image Type (0008,0008) CS must have at least four values, the first ORIGINAL, DERIVED or MIXED and the fourth NONE.",
    "Planes in Acquisition (0018,9410) CS must be SINGLE PLANE, BIPLANE or UNDEFINED.",
    "Planes in Acquisition (0018,9410) may be UNDEFINED only where the first value of Image Type (0008,0008) is DERIVED.",
    "Where Planes in Acquisition (0018,9410) is UNDEFINED, Plane Identification (0018,9457) must be absent, whatever its VR; otherwise it must be a CS with a value.",
    "Where Planes in Acquisition (0018,9410) is BIPLANE, Plane Identification (0018,9457) CS must be one value, and not MONOPLANE.",
    "Acquisition DateTime (0008,002A) DT must have a value.",
    "Samples per Pixel (0028,0002) US must be 1.",
    "Photometric Interpretation (0028,0004) CS must be MONOCHROME1 or MONOCHROME2.",
    "Rows (0028,0010) US and Columns (0028,0011) US must each be one number, at least 1.",
    "Bits Allocated (0028,0100) US and Bits Stored (0028,0101) US must be 8 with 8, or 16 with 9 to 16.",
    "High Bit (0028,0102) US must be one less than Bits Stored (0028,0101).",
    "Pixel Representation (0028,0103) US must be 0.",
    "Number of Frames (0028,0008) IS must be one whole number from 1 to 65535, written as 1 to 11 digits, with or without a sign in front.",
    "Content Qualification (0018,9004) CS must be PRODUCT, RESEARCH or SERVICE.",
    "Burned In Annotation (0028,0301) CS must be NO.",
    "Lossy Image Compression (0028,2110) CS must be 00 or 01.",
    "Lossy Image Compression Ratio (0028,2112) DS and Method (0028,2114) CS must both have a value where Lossy Image Compression (0028,2110) is 01, and both be absent, whatever their VR, where it is 00.",
    "Referenced Other Plane Sequence (0008,9410) must be an SQ with one item where Planes in Acquisition (0018,9410) is BIPLANE, and otherwise be absent, whatever its VR.",
    "Presentation LUT Shape (2050,0020) CS must be IDENTITY where Photometric Interpretation (0028,0004) is MONOCHROME2, and INVERSE where it is MONOCHROME1.",
    "In an ORIGINAL image KVP (0018,0060) DS and Radiation Mode (0018,115A) CS must each have a value, and Radiation Setting (0018,1155) CS must be SC or GR.",
    "In an ORIGINAL image Exposure in mAs (0018,9332) FD must have a value, or both Exposure Time in ms (0018,9328) FD and X-Ray Tube Current in mA (0018,9330) FD.",
    "In an ORIGINAL image of an XRF object Positioner Type (0018,1508) CS must be COLUMN.",
    "Shared Functional Groups Sequence (5200,9229) SQ must have one item.",
    "Per-frame Functional Groups Sequence (5200,9230) SQ must have one item for each frame, as many as Number of Frames (0028,0008) says.",
    "No sequence may be both in the shared item (5200,9229) and in the frame's own item of Per-frame Functional Groups Sequence (5200,9230).",
    "Frame Content Sequence (0020,9111) must be absent from the shared item (5200,9229), whatever its VR, and be an SQ with one item in the frame's own item of (5200,9230).",
    "Where the frame has XA/XRF Frame Characteristics Sequence (0018,9412), it must be an SQ with one item.",
    "Where the frame has Frame VOI LUT Sequence (0028,9132), it must be an SQ with one item, with one or more values of Window Center (0028,1050) DS and as many of Window Width (0028,1051) DS, each a decimal number of at most 16 characters that is a whole number of millionths, below one million in size; VOI LUT Function (0028,1056) CS absent or one value, LINEAR or LINEAR_EXACT; every width at least 1, or above 0 with LINEAR_EXACT.",
    "Mask Subtraction Sequence (0028,6100), if present, must be an SQ of 1 to 16 items, each with a Mask Operation (0028,6101) CS of NONE, AVG_SUB or TID.",
    "Applicable Frame Range (0028,6102) in a mask item, if present, must be US and one or more pairs of a first and a last frame, the first not above the last, both from 1 to Number of Frames (0028,0008).",
    "A mask item whose Mask Operation (0028,6101) is AVG_SUB must have 1 to 64 Mask Frame Numbers (0028,6110) US from 1 to Number of Frames (0028,0008); its Contrast Frame Averaging (0028,6112), if present, must be US and 1.",
    "In a mask item whose Mask Operation (0028,6101) is TID, TID Offset (0028,6120), if present, must be SS and one value.",
    "Mask Sub-pixel Shift (0028,6114) in a mask item, if present, must be FL and two numbers from -64 to 64, each a whole multiple of 1/4.",
    "Where a frame has Frame Pixel Shift Sequence (0028,9415), every mask item must have a Subtraction Item ID (0028,9416) US of one number, no two the same.",
    "Where the frame has Frame Pixel Shift Sequence (0028,9415), it must be an SQ of one or more items, each with a Subtraction Item ID (0028,9416) US of one number that no other has and a Mask Sub-pixel Shift (0028,6114) FL of two numbers from -64 to 64, each a whole multiple of 1/4.",
    "Pixel Data (7FE0,0010) must be OW, or OB where Bits Allocated (0028,0100) is 8, and as long as Number of Frames (0028,0008) x Rows (0028,0010) x Columns (0028,0011) x bytes per sample, plus 1 if that is odd.",
    "Where the frame has Frame Pixel Data Properties Sequence (0028,9443), it must be an SQ with one item; where the frame has Pixel Intensity Relationship LUT Sequence (0028,9422), it must be an SQ of one or more items, at most one of them with LUT Function (0028,9474) CS TO_LINEAR, and it must be there with one where Pixel Intensity Relationship (0028,1040) CS is LOG; a TO_LINEAR item must have a LUT Descriptor (0028,3002) US of three numbers, the last 16, and LUT Data (0028,3006) OW of two bytes for each entry, where a first number of 0 stands for 65536 entries.",
];

// The sentence of a rule from 1 to 39; another number gets no rule's sentence.
pub fn print_sentence<W: Write>(to: &mut W, rule: usize) -> io::Result<()> {
    match rule {
        1..=39 => writeln!(to, "{}", SENTENCES[rule - 1]),
        _ => writeln!(to, "no such rule"),
    }
}
