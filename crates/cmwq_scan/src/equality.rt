//! Whether two words are the same, by few loads.
ghost use Rattle.std.specs.Int.{from_le_bytes, w32, w64};
ghost use Rattle.std.specs.Prelude.{◌≡◌, ◌+◌, ◌≤◌, drop, length, take};
ghost use Rattle.std.specs.Str.{bytes_eq};

/// Whether both words are the same.
///
/// Where they are of one length, four to sixteen bytes, the first four or eight are compared as one number, and so are the last, some of which may be
/// among the first.
#[inline(always)]
pub fn is_same(one: &[u8], other: &[u8]) -> bool
    ensures { result ≡ bytes_eq one.now other.now }
{
    let len = one.len();
    if len != other.len() {
        return false;
    }
    if len < 4 || len > 16 {
        return is_same_at_any_length(one, other);
    }
    if len < 8 {
        let last = len - 4;
        return four_from(one, 0) == four_from(other, 0)
            && four_from(one, last) == four_from(other, last);
    }
    let last = len - 8;
    eight_from(one, 0) == eight_from(other, 0) && eight_from(one, last) == eight_from(other, last)
}

/// The same, whatever their lengths are.
#[inline(never)]
fn is_same_at_any_length(one: &[u8], other: &[u8]) -> bool
    ensures { result ≡ bytes_eq one.now other.now }
{
    one == other
}

/// The four bytes from this place on, as a number.
#[inline(always)]
fn four_from(bytes: &[u8], from: usize) -> u32
    requires { from + 4 ≤ length bytes.now }
    ensures { result ≡ from_le_bytes w32 (take 4 (drop from bytes.now)) }
{
    match bytes[from..].first_chunk::<4>() {
        Some(four) => u32::from_le_bytes(*four),
        None => unreachable!(),
    }
}

/// The eight bytes from this place on, as a number.
#[inline(always)]
fn eight_from(bytes: &[u8], from: usize) -> u64
    requires { from + 8 ≤ length bytes.now }
    ensures { result ≡ from_le_bytes w64 (take 8 (drop from bytes.now)) }
{
    match bytes[from..].first_chunk::<8>() {
        Some(eight) => u64::from_le_bytes(*eight),
        None => unreachable!(),
    }
}
