//! What has to come from outside before a wait can end.
ghost use Rattle.cmwq_flush_waits.specs.FlushText.{needs_text, text_if};
ghost use Rattle.std.specs.Prelude.{◌≡◌, ◌++◌, OnOk, string_bytes};

use cmwq_types::NoMemory;

/// What has to come from outside before a wait can end.
#[derive(Clone, Copy, PartialEq, Eq)]
pub(crate) struct Needs {
    /// A thaw.
    pub(crate) thaw: bool,
    /// The end of the shortage of memory.
    pub(crate) memory: bool,
    /// More steps than the scenario has.
    pub(crate) steps: bool,
}

impl Needs {
    /// Appends that the wait doesn't end by itself, and for want of what; nothing where nothing is wanted.
    pub(crate) fn push(self, text: &mut String) -> Result<(), NoMemory>
        ensures { OnOk result (string_bytes text.new ≡ string_bytes text.old ++ needs_text self) }
    {
        if !(self.thaw || self.memory || self.steps) {
            return Ok(());
        }
        text.push_str(", not by itself:")?;
        text.push_str(text_if(self.thaw, " frozen"))?;
        text.push_str(text_if(self.memory, " pressure"))?;
        text.push_str(text_if(self.steps, " spent"))?;
        Ok(())
    }
}

fn text_if(given: bool, word: &'static str) -> &'static str
    ensures { result.now ≡ text_if given word.now }
{
    if given { word } else { "" }
}
