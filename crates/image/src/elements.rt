// The elements of an image, and the image that elements join to.
ghost use Rattle.std.specs.Prelude.{◌≡◌, ◌+◌, ◌*◌, ◌<◌, slice_index};
ghost use Rattle.image.specs.Elements.{element_of, elements_of, byte_of, joined, JoiningUndoes, TakingUndoes};

// The image that elements join to. Taking it apart gives them back, and joining the elements of any 540 bytes gives those back.
pub fn join(elements: &[u32; 135]) -> [u8; 540]
    ensures bytes { result ≡ joined elements.now }
    ensures back { elements_of result ≡ elements.now }
    ensures joining { JoiningUndoes }
    ensures taking { TakingUndoes }
{
    bytes_of(elements)
}

fn bytes_of(elements: &[u32; 135]) -> [u8; 540]
    ensures { result ≡ joined elements.now }
{
    std::array::from_fn(|k| byte_of(elements, k))
}

// Byte k of the image: of element k / 4, byte k % 4, the high one first.
fn byte_of(elements: &[u32; 135], k: usize) -> u8
    requires { k < 540 }
    ensures { result ≡ byte_of elements.now k }
{
    elements[k / 4].to_be_bytes()[k % 4]
}

// The elements of an image. Joining them gives it back.
pub(crate) fn elements_of(bytes: &[u8; 540]) -> [u32; 135]
    ensures elements { result ≡ elements_of bytes.now }
    ensures back { joined result ≡ bytes.now }
{
    std::array::from_fn(|i| element_of(bytes, i))
}

// Element i.
pub(crate) fn element_of(bytes: &[u8; 540], i: usize) -> u32
    requires { i < 135 }
    ensures { result ≡ element_of bytes.now i }
{
    word(bytes, 4 * i)
}

// The four bytes from a place on as a number, the high one first.
fn word(bytes: &[u8; 540], first: usize) -> u32
    requires { first + 3 < 540 }
    ensures { result ≡ ((slice_index bytes.now first * 256 + slice_index bytes.now (first + 1)) * 256 + slice_index bytes.now (first + 2)) * 256 + slice_index bytes.now (first + 3) }
{
    u32::from_be_bytes([
        bytes[first],
        bytes[first + 1],
        bytes[first + 2],
        bytes[first + 3],
    ])
}
