// Tags by their PS3.6 keywords.
pub const FILE_META_INFORMATION_GROUP_LENGTH: usize = 0x0002_0000;

pub const MEDIA_STORAGE_SOP_CLASS_UID: usize = 0x0002_0002;

pub const TRANSFER_SYNTAX_UID: usize = 0x0002_0010;

pub const IMAGE_TYPE: usize = 0x0008_0008;

pub const SOP_CLASS_UID: usize = 0x0008_0016;

pub const ACQUISITION_DATETIME: usize = 0x0008_002A;

pub const MODALITY: usize = 0x0008_0060;

pub const REFERENCED_OTHER_PLANE_SEQUENCE: usize = 0x0008_9410;

pub const KVP: usize = 0x0018_0060;

pub const RADIATION_SETTING: usize = 0x0018_1155;

pub const RADIATION_MODE: usize = 0x0018_115A;

pub const POSITIONER_TYPE: usize = 0x0018_1508;

pub const CONTENT_QUALIFICATION: usize = 0x0018_9004;

pub const EXPOSURE_TIME_IN_MS: usize = 0x0018_9328;

pub const XRAY_TUBE_CURRENT_IN_MA: usize = 0x0018_9330;

pub const EXPOSURE_IN_MAS: usize = 0x0018_9332;

pub const PLANES_IN_ACQUISITION: usize = 0x0018_9410;

pub const XA_XRF_FRAME_CHARACTERISTICS_SEQUENCE: usize = 0x0018_9412;

pub const PLANE_IDENTIFICATION: usize = 0x0018_9457;

pub const FRAME_CONTENT_SEQUENCE: usize = 0x0020_9111;

pub const SAMPLES_PER_PIXEL: usize = 0x0028_0002;

pub const PHOTOMETRIC_INTERPRETATION: usize = 0x0028_0004;

pub const NUMBER_OF_FRAMES: usize = 0x0028_0008;

pub const ROWS: usize = 0x0028_0010;

pub const COLUMNS: usize = 0x0028_0011;

pub const BITS_ALLOCATED: usize = 0x0028_0100;

pub const BITS_STORED: usize = 0x0028_0101;

pub const HIGH_BIT: usize = 0x0028_0102;

pub const PIXEL_REPRESENTATION: usize = 0x0028_0103;

pub const BURNED_IN_ANNOTATION: usize = 0x0028_0301;

pub const PIXEL_INTENSITY_RELATIONSHIP: usize = 0x0028_1040;

pub const WINDOW_CENTER: usize = 0x0028_1050;

pub const WINDOW_WIDTH: usize = 0x0028_1051;

pub const VOI_LUT_FUNCTION: usize = 0x0028_1056;

pub const LOSSY_IMAGE_COMPRESSION: usize = 0x0028_2110;

pub const LOSSY_IMAGE_COMPRESSION_RATIO: usize = 0x0028_2112;

pub const LOSSY_IMAGE_COMPRESSION_METHOD: usize = 0x0028_2114;

pub const LUT_DESCRIPTOR: usize = 0x0028_3002;

pub const LUT_DATA: usize = 0x0028_3006;

pub const MASK_SUBTRACTION_SEQUENCE: usize = 0x0028_6100;

pub const MASK_OPERATION: usize = 0x0028_6101;

pub const APPLICABLE_FRAME_RANGE: usize = 0x0028_6102;

pub const MASK_FRAME_NUMBERS: usize = 0x0028_6110;

pub const CONTRAST_FRAME_AVERAGING: usize = 0x0028_6112;

pub const MASK_SUB_PIXEL_SHIFT: usize = 0x0028_6114;

pub const TID_OFFSET: usize = 0x0028_6120;

pub const FRAME_VOI_LUT_SEQUENCE: usize = 0x0028_9132;

pub const FRAME_PIXEL_SHIFT_SEQUENCE: usize = 0x0028_9415;

pub const SUBTRACTION_ITEM_ID: usize = 0x0028_9416;

pub const PIXEL_INTENSITY_RELATIONSHIP_LUT_SEQUENCE: usize = 0x0028_9422;

pub const FRAME_PIXEL_DATA_PROPERTIES_SEQUENCE: usize = 0x0028_9443;

pub const LUT_FUNCTION: usize = 0x0028_9474;

pub const PRESENTATION_LUT_SHAPE: usize = 0x2050_0020;

pub const SHARED_FUNCTIONAL_GROUPS_SEQUENCE: usize = 0x5200_9229;

pub const PER_FRAME_FUNCTIONAL_GROUPS_SEQUENCE: usize = 0x5200_9230;

pub const PIXEL_DATA: usize = 0x7FE0_0010;

// Item, Item Delimitation Item and Sequence Delimitation Item, and their group.
pub const ITEM: usize = 0xFFFE_E000;

pub const ITEM_DELIMITER: usize = 0xFFFE_E00D;

pub const SEQUENCE_DELIMITER: usize = 0xFFFE_E0DD;

pub const ITEM_GROUP: usize = 0xFFFE;
