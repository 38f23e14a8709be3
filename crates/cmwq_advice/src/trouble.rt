//! Why a file can't be read or made.
ghost use Rattle.cmwq_advice.specs.Advice.{trouble_line, trouble_words};
ghost use Rattle.std.specs.Prelude.{◌≡◌, IfOk};

use cmwq_types::NoMemory;
use std::alloc::Global;

/// Why a file can't be read or made, as far as the system tells.
#[derive(Clone, Copy, PartialEq, Eq)]
pub enum Trouble {
    /// No file has the path.
    NoFile,
    /// The folder in which the file would be isn't there.
    NoFolder,
    /// A file has the path already, and isn't to be overwritten.
    IsThere,
    /// The image would be written over the scenario's own text.
    IsInput,
    /// The trace would be written over the scenario's own text.
    IsTraceInput,
    /// It is a folder.
    IsFolder,
    /// Whoever runs the program may not do that.
    Denied,
    /// It is there, and can't be read.
    Unreadable,
    /// It can't be written, or not to its end.
    Unwritable,
}

impl Trouble {
    /// What is said of it behind the file's path.
    fn words(self) -> &'static str
        ensures { result.now ≡ trouble_words self }
    {
        match self {
            Trouble::NoFile => ": no such file",
            Trouble::NoFolder => ": no such folder",
            Trouble::IsThere => " exists already; new doesn't overwrite it",
            Trouble::IsInput => " is the scenario's own text; asm doesn't overwrite it",
            Trouble::IsTraceInput => " is the scenario's own text; trace doesn't overwrite it",
            Trouble::IsFolder => " is a folder",
            Trouble::Denied => ": permission denied",
            Trouble::Unreadable => ": it can't be read",
            Trouble::Unwritable => ": it can't be written",
        }
    }

    /// The line that tells of it, for the file of this path. It fails only for want of memory.
    pub(crate) fn line(self, alloc: Global, file: &str) -> Result<Vec<u8>, NoMemory>
        ensures { IfOk result (λ line. line.items ≡ trouble_line file.now self) }
    {
        let mut line = String::from_str(alloc, "  ")?;
        line.push_str(file)?;
        line.push_str(self.words())?;
        line.push_str("\n")?;
        Ok(line.into_bytes())
    }
}
