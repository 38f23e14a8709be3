//! A place of a line, and whether a word fits there.
ghost use Rattle.cmwq_fitting.specs.Fitting.{fits, line_goes_on, has_bad_flags, is_bad_flags, lacks_word, may_end, text_fault};
ghost use Rattle.cmwq_grammar.specs.Meaning.{fault_at};
ghost use Rattle.std.specs.Fmt.{decimal};
ghost use Rattle.std.specs.Prelude.{◌≡◌, IfOk, option_map};

use crate::faults::{TextFault, text_fault};
use cmwq_grammar::Why;
use cmwq_types::{Fault, NoMemory};
use std::alloc::Global;

/// A place of a line at which a word may stand.
#[derive(Clone, Copy)]
pub struct Gap<'t> {
    /// The text up to it.
    pub(crate) front: &'t [u8],
    /// The line, counted from 1.
    pub(crate) line: u32,
    /// The fault that the text up to it has.
    fault: Option<TextFault>,
    ghost judged: { option_map (λ fault. fault_at fault.line fault.why) fault ≡ text_fault front.now },
}

impl<'t> Gap<'t> {
    /// The place of this line up to which the text goes. It fails only for want of memory.
    pub fn new(alloc: Global, front: &'t [u8], line: u32) -> Result<Gap<'t>, NoMemory>
        ensures { IfOk result (λ gap. (gap.front.now ≡ front.now) × (gap.line ≡ line)) }
    {
        let fault = text_fault(alloc, front)?;
        Ok(Gap { front, line, fault })
    }

    /// Whether the word fits: with it, the line has no fault but that a further word is missing, or that a queue's max and flags don't go
    /// together where they didn't before. It fails only for want of memory.
    pub fn fits(&self, alloc: Global, word: &[u8]) -> Result<bool, NoMemory>
        ensures { IfOk result (λ fits_it. fits_it ≡ fits self.now.line self.now.front.now word.now) }
    {
        let mut text = Vec::from_slice(alloc, self.front)?;
        text.push(b' ')?;
        text.extend_from_slice(word)?;
        let fault = text_fault(alloc, &text)?;
        Ok(line_goes_on(self.line, has_bad_flags(self.fault), fault))
    }

    /// Whether this number fits.
    pub(crate) fn fits_number(&self, alloc: Global, n: u64) -> Result<bool, NoMemory>
        ensures { IfOk result (λ fits_it. fits_it ≡ fits self.now.line self.now.front.now (decimal n)) }
    {
        let number = format!(in alloc; "{n}")?;
        self.fits(alloc, number.as_bytes())
    }

    /// Whether the line may end there.
    pub(crate) fn may_end(&self) -> bool
        ensures { result ≡ may_end self.now.line self.now.front.now }
    {
        match self.fault {
            None => true,
            Some(fault) => fault.line > self.line,
        }
    }
}

/// Whether with this fault the line goes on.
fn line_goes_on(line: u32, did_not_go: bool, fault: Option<TextFault>) -> bool
    ensures { result ≡ line_goes_on line did_not_go (option_map (λ fault. fault_at fault.line fault.why) fault) }
{
    match fault {
        None => true,
        Some(fault) => {
            line < fault.line || (lacks_word(fault.why) || (did_not_go && is_bad_flags(fault.why)))
        }
    }
}

/// Whether a queue's max and flags don't go together.
fn has_bad_flags(fault: Option<TextFault>) -> bool
    ensures { result ≡ has_bad_flags (option_map (λ fault. fault_at fault.line fault.why) fault) }
{
    match fault {
        None => false,
        Some(fault) => is_bad_flags(fault.why),
    }
}

fn is_bad_flags(why: Why) -> bool
    ensures { result ≡ is_bad_flags why }
{
    match why {
        Why::Fault(Fault::BadFlags) => true,
        _ => false,
    }
}

fn lacks_word(why: Why) -> bool
    ensures { result ≡ lacks_word why }
{
    match why {
        Why::MissingWord => true,
        _ => false,
    }
}
