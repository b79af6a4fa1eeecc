// A macroblock's record, and the block in which it travels.
ghost use Rattle.record.specs.Equality.{is_same_record_decides, is_same_flags_decides, is_same_block_decides};

use exact::Exact;

// The recoding data of one macroblock (SMPTE 327M). A vector mvrst has r for the vector, s for its direction, and t = 0 for
// its horizontal component, 1 for the vertical. Every number has a width of its own, which may be less than its type's.
#[derive(Clone, Copy, Default, PartialEq, Eq)]
pub struct Record {
    pub mb_quant: bool,
    pub mb_mfwd: bool,
    pub mb_mbwd: bool,
    pub mb_pattern: bool,
    pub mb_intra: bool,
    pub dct_type: bool,
    pub mv000: i16,
    pub mv001: i16,
    pub mv010: i16,
    pub mv011: i16,
    pub mv100: i16,
    pub mv101: i16,
    pub mv110: i16,
    pub mv111: i16,
    pub motion_type: u8,
    pub skipped_mb: bool,
    pub num_other_bits: u8,
    pub slice_start_flag: bool,
    pub num_mv_bits: u8,
    pub q_scale_code: u8,
    pub mb_vert_field_sel: u8,
    pub num_coef_bits: u16,
    pub coded_block_pattern: u8,
}

// The flags that every block of a picture has alike.
#[derive(Clone, Copy, Default, PartialEq, Eq)]
pub struct PictureFlags {
    pub fr_fl_srib: bool,
    pub top_field_first: bool,
    pub repeat_first_field: bool,
    pub chroma_422_420: bool,
    pub q_scale_type: bool,
}

// What the data rows of a block spell.
#[derive(Clone, Copy, PartialEq, Eq)]
pub struct Block {
    pub picture: PictureFlags,
    pub reference: u16,
    pub element: u32,
    pub record: Record,
}

// `==` compares every part, so it holds of a record and itself, and of no two others.
impl Exact for Record {
    ghost exact = { is_same_record_decides };
}

impl Exact for PictureFlags {
    ghost exact = { is_same_flags_decides };
}

impl Exact for Block {
    ghost exact = { is_same_block_decides };
}
