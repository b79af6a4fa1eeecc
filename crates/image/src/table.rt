// The table of a picture's image: which bits each parameter has (SMPTE 351M, table 4).
ghost use Rattle.std.specs.Prelude.{◌≡◌, ◌+◌, ◌≤◌};
ghost use Rattle.image.specs.Table.{table, row_of, parameter_of, category_number, Gapless};

// How the value of a parameter is come by: it is in the stream where this picture has it; it is repeated from an earlier picture where this
// one lacks it; or it is derived for each picture.
#[derive(Clone, Copy, Debug, PartialEq, Eq)]
pub enum Category {
    Stream,
    Repeated,
    Derived,
}

// Which bits of an image a parameter has, and its category. The spare bits and the check have none.
#[derive(Clone, Copy, Debug, PartialEq, Eq)]
pub struct Parameter {
    pub first_bit: u16,
    pub width: u16,
    pub category: Option<Category>,
}

impl Parameter {
    // Its category as the standard numbers it, 1 to 3, and 0 for none.
    pub fn category_number(&self) -> u8
        ensures { result ≡ category_number self.now.category }
    {
        match self.category {
            None => 0,
            Some(Category::Stream) => 1,
            Some(Category::Repeated) => 2,
            Some(Category::Derived) => 3,
        }
    }
}

// What the code asks of an image, by name.
#[derive(Clone, Copy)]
pub(crate) enum Name {
    MpegStandardFlag,
    ChromaFormat,
    PictureStructure,
    TopFieldFirst,
    QScaleType,
    RepeatFirstField,
    Spare,
    Check,
}

impl Name {
    // The parameter of that name.
    pub(crate) fn parameter(self) -> Parameter
        ensures is { result ≡ parameter_of self }
        ensures inside { result.first_bit + result.width ≤ 4320 }
        ensures narrow { result.width ≤ 41 }
    {
        parameters()[self.row()]
    }

    // Its row of the table, counted from 0.
    fn row(self) -> usize
        ensures { result ≡ row_of self }
    {
        match self {
            Name::MpegStandardFlag => 0,
            Name::ChromaFormat => 15,
            Name::PictureStructure => 39,
            Name::TopFieldFirst => 40,
            Name::QScaleType => 43,
            Name::RepeatFirstField => 46,
            Name::Spare => 76,
            Name::Check => 78,
        }
    }
}

// The table. It runs from bit 0 to bit 4319 without gap or overlap.
pub fn parameters() -> &'static [Parameter; 79]
    ensures rows { result.now ≡ table }
    ensures gapless { Gapless result.now }
{
    rows()
}

fn rows() -> &'static [Parameter; 79]
    ensures { result.now ≡ table }
{
    &TABLE
}

// A line for each parameter: its first bit, its width and its category.
macro_rules! table {
    ($($first_bit:literal, $width:literal, $category:expr;)*) => {
        [$(Parameter { first_bit: $first_bit, width: $width, category: $category },)*]
    };
}

static TABLE: [Parameter; 79] = table![
    0, 1, Some(Category::Derived); // MPEG standard flag
    1, 1, Some(Category::Derived); // red_bw_flag
    2, 3, Some(Category::Derived); // red_bw_indicator
    5, 2, Some(Category::Derived); // header present flags: sequence header, GOP header
    7, 16, Some(Category::Derived); // extension start code flags
    23, 3, Some(Category::Derived); // other start codes: user_data_start_code, sequence_error_code, sequence_end_code
    // sequence header
    26, 14, Some(Category::Repeated); // horizontal_size
    40, 14, Some(Category::Repeated); // vertical_size
    54, 4, Some(Category::Repeated); // aspect_ratio_information
    58, 4, Some(Category::Repeated); // frame_rate_code
    62, 30, Some(Category::Repeated); // bit_rate
    92, 18, Some(Category::Repeated); // vbv_buffer_size
    110, 1, Some(Category::Repeated); // constrained_parameters_flag
    // sequence extension
    111, 8, Some(Category::Repeated); // profile_and_level_indication
    119, 1, Some(Category::Repeated); // progressive_sequence
    120, 2, Some(Category::Repeated); // chroma_format
    122, 1, Some(Category::Repeated); // low_delay
    // sequence display extension
    123, 3, Some(Category::Repeated); // video_format
    126, 1, Some(Category::Repeated); // color_description
    127, 8, Some(Category::Repeated); // color_primaries
    135, 8, Some(Category::Repeated); // transfer_characteristics
    143, 8, Some(Category::Repeated); // matrix_coefficients
    151, 14, Some(Category::Repeated); // display_horizontal_size
    165, 14, Some(Category::Repeated); // display_vertical_size
    // group of pictures header
    179, 25, Some(Category::Repeated); // time_code
    204, 1, Some(Category::Repeated); // closed_gop
    205, 1, Some(Category::Repeated); // broken_link
    // picture header
    206, 10, Some(Category::Stream); // temporal_reference
    216, 3, Some(Category::Stream); // picture_coding_type
    219, 16, Some(Category::Stream); // vbv_delay
    235, 1, Some(Category::Stream); // full_pel_forward_vector
    236, 3, Some(Category::Stream); // forward_f_code
    239, 1, Some(Category::Stream); // full_pel_backward_vector
    240, 3, Some(Category::Stream); // backward_f_code
    // picture coding extension
    243, 4, Some(Category::Stream); // forward_horizontal_f_code
    247, 4, Some(Category::Stream); // forward_vertical_f_code
    251, 4, Some(Category::Stream); // backward_horizontal_f_code
    255, 4, Some(Category::Stream); // backward_vertical_f_code
    259, 2, Some(Category::Stream); // intra_dc_precision
    261, 2, Some(Category::Stream); // picture_structure
    263, 1, Some(Category::Stream); // top_field_first
    264, 1, Some(Category::Stream); // frame_pred_frame_dct
    265, 1, Some(Category::Stream); // concealment_motion_vectors
    266, 1, Some(Category::Stream); // q_scale_type
    267, 1, Some(Category::Stream); // intra_vlc_format
    268, 1, Some(Category::Stream); // alternate_scan
    269, 1, Some(Category::Stream); // repeat_first_field
    270, 1, Some(Category::Stream); // chroma_420_type
    271, 1, Some(Category::Stream); // progressive_frame
    272, 1, Some(Category::Stream); // composite_display_flag
    273, 1, Some(Category::Stream); // v_axis
    274, 3, Some(Category::Stream); // field_sequence
    277, 1, Some(Category::Stream); // sub_carrier
    278, 7, Some(Category::Stream); // burst_amplitude
    285, 8, Some(Category::Stream); // sub_carrier_phase
    // quant matrix extension
    293, 1, Some(Category::Stream); // load_intra_quantizer_matrix
    294, 1, Some(Category::Stream); // load_non_intra_quantizer_matrix
    295, 1, Some(Category::Stream); // load_chroma_intra_quantizer_matrix
    296, 1, Some(Category::Stream); // load_chroma_non_intra_quantizer_matrix
    297, 512, Some(Category::Repeated); // intra_quantizer_matrix
    809, 512, Some(Category::Repeated); // non_intra_quantizer_matrix
    1321, 512, Some(Category::Repeated); // chroma_intra_quantizer_matrix
    1833, 512, Some(Category::Repeated); // chroma_non_intra_quantizer_matrix
    // picture display extension
    2345, 16, Some(Category::Repeated); // frame_center_horizontal_offset_1
    2361, 16, Some(Category::Repeated); // frame_center_vertical_offset_1
    2377, 16, Some(Category::Repeated); // frame_center_horizontal_offset_2
    2393, 16, Some(Category::Repeated); // frame_center_vertical_offset_2
    2409, 16, Some(Category::Repeated); // frame_center_horizontal_offset_3
    2425, 16, Some(Category::Repeated); // frame_center_vertical_offset_3
    // copyright extension
    2441, 1, Some(Category::Repeated); // copyright_flag
    2442, 8, Some(Category::Repeated); // copyright_identifier
    2450, 1, Some(Category::Repeated); // original_or_copy
    2451, 64, Some(Category::Repeated); // copyright_number
    // time stamps
    2515, 2, Some(Category::Stream); // PTS_DTS_flag
    2517, 33, Some(Category::Repeated); // PTS
    2550, 33, Some(Category::Repeated); // DTS
    // the rest
    2583, 41, None; // spare
    2624, 1664, Some(Category::Repeated); // user data
    4288, 32, None; // check
];
