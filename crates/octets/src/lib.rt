// Bytes at a place of a slice, and big-endian numbers, on all inputs: past the end there are zeros, and a store does nothing.
// The laws of lists and of xor that other crates cite stand in this crate's proofs/.
#![tactic(auto)]

ghost use Rattle.std.specs.Prelude.{◌≡◌, get_or, set};
ghost use Rattle.octets.specs.Bytes.{be16_at, be32_at};

pub fn byte_at(bytes: &[u8], at: usize) -> u8
    ensures { result ≡ get_or bytes.now at 0 }
{
    bytes.get(at).copied().unwrap_or(0)
}

// Layouts give their offsets as `u8`, so that what `u32_at` adds to one doesn't overflow. A function generic over `Into<usize>` would name
// the byte's place only through that trait's ghost member: no plainer.
pub fn u8_at(bytes: &[u8], at: u8) -> u8
    ensures { result ≡ get_or bytes.now at 0 }
{
    byte_at(bytes, usize::from(at))
}

// Here and in `u32_at` one comparison serves all bytes of a number that does not run past the end. They are two functions: with the
// length as a const parameter, what `from_fn` gives stayed open.
pub fn be16_at(bytes: &[u8], at: usize) -> u16
    ensures { result ≡ be16_at bytes.now at }
{
    match bytes.get(at..) {
        Some([high, low, ..]) => u16::from_be_bytes([*high, *low]),
        _ => u16::from_be_bytes([byte_at(bytes, at), 0]),
    }
}

pub fn u16_at(bytes: &[u8], at: u8) -> u16
    ensures { result ≡ be16_at bytes.now at }
{
    be16_at(bytes, usize::from(at))
}

pub fn u32_at(bytes: &[u8], at: u8) -> u32
    ensures { result ≡ be32_at bytes.now at }
{
    let place = usize::from(at);
    match bytes.get(place..) {
        Some([first, second, third, last, ..]) => {
            u32::from_be_bytes([*first, *second, *third, *last])
        }
        _ => u32::from_be_bytes(std::array::from_fn(|i| byte_at(bytes, place + i))),
    }
}

pub fn put_byte(bytes: &mut [u8], at: usize, value: u8)
    ensures { bytes.new ≡ set bytes.old at value }
{
    // Not by `get_mut`: of what it lends from, the library doesn't say what it is after the write.
    if at < bytes.len() {
        bytes[at] = value;
    }
}
