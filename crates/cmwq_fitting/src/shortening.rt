//! Names that are cut so that they fit.
ghost use Rattle.cmwq_fitting.specs.Fitting.{fits};
ghost use Rattle.cmwq_fitting.specs.Shortened.{name_at, name_number, shortened};
ghost use Rattle.std.specs.Prelude.{◌≡◌, IfOk, option_map, take};

use crate::gap::Gap;
use cmwq_types::NoMemory;
use std::alloc::Global;

/// How many forms of a name are tried.
const FORMS: usize = 10;

/// Returns the first form of the name that fits the place: cut to 15 bytes, else to 14 and a digit.
pub(crate) fn name_at(
    alloc: Global,
    gap: &Gap<'_>,
    name: &[u8],
) -> Result<Option<Vec<u8>>, NoMemory>
    ensures { IfOk result (λ fitting. option_map (λ fitting. fitting.items) fitting ≡ name_at gap.now.line gap.now.front.now name.now) }
{
    match name_number(alloc, gap, name)? {
        Some(number) => Ok(Some(shortened(alloc, name, number)?)),
        None => Ok(None),
    }
}

/// Returns the number of the first form of the name that fits the place.
fn name_number(alloc: Global, gap: &Gap<'_>, name: &[u8]) -> Result<Option<usize>, NoMemory>
    ensures { IfOk result (λ number. number ≡ name_number gap.now.line gap.now.front.now name.now) }
{
    for number in 0..FORMS {
        if fits_shortened(alloc, gap, name, number)? {
            return Ok(Some(number));
        }
    }
    Ok(None)
}

/// Returns whether this form of the name fits the place.
fn fits_shortened(
    alloc: Global,
    gap: &Gap<'_>,
    name: &[u8],
    number: usize,
) -> Result<bool, NoMemory>
    ensures { IfOk result (λ fits_it. fits_it ≡ fits gap.now.line gap.now.front.now (shortened name.now number)) }
{
    let short = shortened(alloc, name, number)?;
    gap.fits(alloc, &short)
}

/// Returns the name in this form.
fn shortened(alloc: Global, name: &[u8], number: usize) -> Result<Vec<u8>, NoMemory>
    ensures { IfOk result (λ short. short.items ≡ shortened name.now number) }
{
    if number == 0 {
        return Ok(Vec::from_slice(alloc, front_of(name, 15))?);
    }
    let digits = format!(in alloc; "{number}")?;
    let mut short = Vec::from_slice(alloc, front_of(name, 14))?;
    short.extend_from_slice(digits.as_bytes())?;
    Ok(short)
}

/// Returns the bytes, up to so many.
#[tactic(auto, using(crate::proofs::FrontLemmas::short_front))]
pub fn front_of(bytes: &[u8], most: usize) -> &[u8]
    ensures { result.now ≡ take most bytes.now }
{
    if bytes.len() > most {
        bytes.split_at(most).0
    } else {
        bytes
    }
}
