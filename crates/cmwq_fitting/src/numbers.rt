//! Which numbers fit a place.
ghost use Rattle.cmwq_fitting.specs.NumberLimits.{IsLimits, number_fits};
ghost use Rattle.std.specs.Prelude.{◌≡◌, ◌≤◌, ◌<◌, ◌+◌, IfOk, false, true};

use crate::gap::Gap;
use cmwq_types::NoMemory;
use std::alloc::Global;

/// The least and the greatest number that may stand at a place.
#[derive(Clone, Copy, PartialEq, Eq)]
pub struct Limits {
    pub low: u64,
    pub high: u64,
}

/// More than any number of a text may be.
const TOO_GREAT: u64 = 4_294_967_296;

/// The numbers that fit the place, if some do. It fails only for want of memory.
pub(crate) fn number_limits(alloc: Global, gap: &Gap<'_>) -> Result<Option<Limits>, NoMemory>
    ensures { IfOk result (λ limits. IsLimits gap.now.line gap.now.front.now limits) }
{
    let low = if gap.fits_number(alloc, 0)? {
        0
    } else if gap.fits_number(alloc, 1)? {
        1
    } else {
        return Ok(None);
    };
    if gap.fits_number(alloc, TOO_GREAT)? {
        return Ok(None);
    }
    let high = greatest(alloc, gap, low)?;
    Ok(Some(Limits { low, high }))
}

/// A number that fits the place while the next one doesn't, from this one on, which fits.
fn greatest(alloc: Global, gap: &Gap<'_>, low: u64) -> Result<u64, NoMemory>
    requires low { number_fits gap.now.line gap.now.front.now low ≡ true }
    requires small { low ≤ 1 }
    requires too_great { number_fits gap.now.line gap.now.front.now TOO_GREAT ≡ false }
    ensures fits { IfOk result (λ high. number_fits gap.now.line gap.now.front.now high ≡ true) }
    ensures behind { IfOk result (λ high. number_fits gap.now.line gap.now.front.now (high + 1) ≡ false) }
    ensures in_order { IfOk result (λ high. low ≤ high) }
{
    let mut fits = low;
    let mut fails = TOO_GREAT;
    while fits + 1 < fails {
        let middle = (fits + fails) / 2;
        if gap.fits_number(alloc, middle)? {
            fits = middle;
        } else {
            fails = middle;
        }
    }
    Ok(fits)
}
