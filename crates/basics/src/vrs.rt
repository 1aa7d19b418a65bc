// The VRs that code names, by their letters.
pub const CS: usize = 0x4353;

pub const DS: usize = 0x4453;

pub const DT: usize = 0x4454;

pub const FD: usize = 0x4644;

pub const FL: usize = 0x464C;

pub const IS: usize = 0x4953;

pub const OB: usize = 0x4F42;

pub const OW: usize = 0x4F57;

pub const SQ: usize = 0x5351;

pub const SS: usize = 0x5353;

pub const UI: usize = 0x5549;

pub const UL: usize = 0x554C;

pub const US: usize = 0x5553;
