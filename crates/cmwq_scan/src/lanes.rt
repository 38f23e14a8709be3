//! Bytes sixteen at a time, and sixty-four.
ghost use Rattle.cmwq_grammar.specs.Cutting.{is_blank};
ghost use Rattle.memchr.specs.Find.{Nowhere, Passes, is_byte};
ghost use Rattle.cmwq_scan.specs.Lanes.{first_set};
ghost use Rattle.std.specs.Prelude.{◌≡◌, ◌+◌, ◌<◌, ◌≤◌, length};

use std::simd::prelude::*;

/// How many bytes are looked at together.
pub(crate) const LANES: usize = 16;

/// How many of a line's bytes are looked at together.
pub(crate) const WIDE: usize = 64;

/// How many of the bytes from this place on, up to sixteen, stand before a blank.
pub(crate) fn run_before_blank(bytes: &[u8], from: usize) -> usize
    requires { from + LANES ≤ length bytes.now }
    ensures few { result ≤ LANES }
    ensures passed { Nowhere (Passes is_blank bytes.now) from (from + result) }
    ensures blank { result < LANES → Passes is_blank bytes.now (from + result) }
{
    let lanes = u8x16::from_slice(&bytes[from..]);
    let blanks = lanes.simd_eq(u8x16::splat(b' ')) | lanes.simd_eq(u8x16::splat(b'\t'));
    first_set(blanks.to_bitmask(), LANES)
}

/// How many of the first bytes, up to sixty-four, stand before the one that is wanted.
#[inline(always)]
pub(crate) fn run_before(wanted: u8, bytes: &[u8]) -> usize
    requires { WIDE ≤ length bytes.now }
    ensures few { result ≤ WIDE }
    ensures passed { Nowhere (Passes (is_byte wanted) bytes.now) 0 result }
    ensures found { result < WIDE → Passes (is_byte wanted) bytes.now result }
{
    let lanes = u8x64::from_slice(bytes);
    let found = lanes.simd_eq(u8x64::splat(wanted));
    first_set(found.to_bitmask(), WIDE)
}

/// The place of the lowest bit that is set, or the number of lanes.
#[inline(always)]
fn first_set(mask: u64, lanes: usize) -> usize
    ensures { result ≡ first_set mask lanes }
{
    if mask == 0 {
        lanes
    } else {
        mask.trailing_zeros() as usize
    }
}
