//! Where files are opened and made.
ghost use Rattle.cmwq_command.specs.Opening.{looked_at};
ghost use Rattle.std.specs.Prelude.{◌≡◌, ℕ, IfErr, IfOk, IfSome, List, None, Option, Some, false, option_map};

use cmwq_advice::Trouble;
use cmwq_play::{Marked, PlayError, Sink, Source};
use cmwq_request::request::STANDARD_INPUT;
use std::fs::{File, metadata};
use std::io;
use std::io::{ErrorKind, Read};
use std::os::unix::fs::MetadataExt;
use std::rt::Files;

/// Where files are opened to be read and made to be written.
pub trait FileStore {
    /// A file that is read.
    type Reader: Source + Drop;
    /// A file that is written.
    type Writer: Sink + Drop;

    /// What the file of this path has, where that is known.
    ghost bytes: { Self → List ℕ → Option (List ℕ) };

    /// The file of this path, opened to be read. The only error is `Read`.
    fn open(&self, path: &str) -> Result<Self::Reader, PlayError>
        ensures sound { IfOk result (λ reader. Self.Reader.failed reader ≡ false) }
        ensures bytes { IfOk result (λ reader. IfSome (bytes self.now path.now) (λ all. Self.Reader.remaining reader ≡ Some all)) }
        ensures why { IfErr result (λ error. error ≡ PlayError.Read) };

    /// The file of this path, made anew to be written; what it had is lost. The only error is `Write`.
    fn make(&self, path: &str) -> Result<Self::Writer, PlayError>
        ensures sound { IfOk result (λ writer. Self.Writer.failed writer ≡ false) }
        ensures why { IfErr result (λ error. error ≡ PlayError.Write) };

    /// What the file of this path has, where that was read before and is kept. Only of what is kept it is known what it has.
    fn kept(&self, path: &str) -> Option<&[u8]>
        ensures { option_map (λ bytes. bytes.now) result ≡ bytes self.now path.now };

    /// Returns whether both paths are those of one regular file that is there, e.g. `-` and a file that standard input is read from. It
    /// returns false for what can't be looked at.
    fn is_one_file(&self, one: &str, other: &str) -> bool;

    /// Why the file of this path can't be read, as far as can be seen.
    fn trouble_with_reading(&self, path: &str) -> Trouble;

    /// Why the file of this path, which mustn't be there yet if it is to be new, can't be made, as far as can be seen.
    fn trouble_with_making(&self, path: &str, is_new: bool) -> Trouble;

    /// The file of this path, made to be written, where there is none yet. The only error is `Write`.
    fn make_new(&self, path: &str) -> Result<Self::Writer, PlayError>
        ensures sound { IfOk result (λ writer. Self.Writer.failed writer ≡ false) }
        ensures why { IfErr result (λ error. error ≡ PlayError.Write) };
}

/// A file that was opened to be read, or what standard input had.
#[derive(Drop)]
pub enum Opened<'a, F> {
    /// The file.
    File(F),
    /// What is left of standard input's bytes.
    Input(&'a [u8]),
}

impl<F: Read> Read for Opened<'_, F> {
    ghost use Rattle.cmwq_command.specs.Opening.{opened_bytes};

    ghost remaining = { λ opened. opened_bytes F.remaining opened };

    fn read(&mut self, buf: &mut [u8]) -> io::Result<usize> {
        match self {
            Opened::File(file) => file.read(buf),
            Opened::Input(bytes) => bytes.read(buf),
        }
    }
}

/// The system's files, of which nothing is known, but for standard input, which stands as `-`.
#[derive(Clone, Copy)]
pub struct Disk<'a, R> {
    /// What gives access to them.
    pub rt: &'a R,
    /// The bytes of standard input, where a command reads it as a file and it could be read.
    pub input: Option<&'a [u8]>,
}

impl<'a, R: Files> FileStore for Disk<'a, R> {
    type Reader = Marked<Opened<'a, R::File>>;

    type Writer = Marked<R::File>;

    ghost use Rattle.cmwq_command.specs.Opening.{input_bytes};
    ghost use Rattle.std.specs.Prelude.{option_map};

    ghost bytes = { λ disk path. input_bytes (option_map (λ bytes. bytes.now) disk.input) path };

    fn open(&self, path: &str) -> Result<Marked<Opened<'a, R::File>>, PlayError> {
        if path == STANDARD_INPUT {
            return match self.input {
                Some(bytes) => Ok(Marked::new(Opened::Input(bytes))),
                None => Err(PlayError::Read),
            };
        }
        let file = File::open(self.rt, path).map_err(|_| PlayError::Read)?;
        Ok(Marked::new(Opened::File(file)))
    }

    fn make(&self, path: &str) -> Result<Marked<R::File>, PlayError> {
        let file = File::create(self.rt, path).map_err(|_| PlayError::Write)?;
        Ok(Marked::new(file))
    }

    fn kept(&self, path: &str) -> Option<&[u8]> {
        if path == STANDARD_INPUT {
            self.input
        } else {
            None
        }
    }

    fn is_one_file(&self, one: &str, other: &str) -> bool {
        match (
            metadata(self.rt, looked_at(one)),
            metadata(self.rt, looked_at(other)),
        ) {
            (Ok(one), Ok(other)) => {
                one.is_file() && one.dev() == other.dev() && one.ino() == other.ino()
            }
            _ => false,
        }
    }

    fn trouble_with_reading(&self, path: &str) -> Trouble {
        if path == STANDARD_INPUT {
            return Trouble::Unreadable;
        }
        match File::open(self.rt, path) {
            Err(error) => trouble_with_opening(error.kind()),
            Ok(_) if is_folder(self.rt, path) => Trouble::IsFolder,
            Ok(_) => Trouble::Unreadable,
        }
    }

    fn trouble_with_making(&self, path: &str, is_new: bool) -> Trouble {
        if is_new && has_something(self.rt, path) {
            return Trouble::IsThere;
        }
        if is_folder(self.rt, path) {
            return Trouble::IsFolder;
        }
        match path.rsplit_once('/') {
            Some((folder, _)) if !folder.is_empty() && !is_folder(self.rt, folder) => {
                Trouble::NoFolder
            }
            _ => Trouble::Unwritable,
        }
    }

    fn make_new(&self, path: &str) -> Result<Marked<R::File>, PlayError> {
        let file = File::create_new(self.rt, path).map_err(|_| PlayError::Write)?;
        Ok(Marked::new(file))
    }
}

/// Returns the path by which the system tells what the file is.
fn looked_at(path: &str) -> &str
    ensures { result.now ≡ looked_at path.now }
{
    if path == STANDARD_INPUT {
        "/proc/self/fd/0"
    } else {
        path
    }
}

/// Why a file can't be opened, by what the system says.
fn trouble_with_opening(kind: ErrorKind) -> Trouble {
    match kind {
        ErrorKind::NotFound | ErrorKind::NotADirectory => Trouble::NoFile,
        ErrorKind::PermissionDenied => Trouble::Denied,
        ErrorKind::IsADirectory => Trouble::IsFolder,
        _ => Trouble::Unreadable,
    }
}

/// Whether a folder has the path, or a file that isn't empty. One that is empty may have been made just now, and couldn't be written.
fn has_something<R: Files>(rt: &R, path: &str) -> bool {
    match metadata(rt, path) {
        Ok(found) => found.is_dir() || found.len() > 0,
        Err(_) => false,
    }
}

/// Whether the path is that of a folder.
fn is_folder<R: Files>(rt: &R, path: &str) -> bool {
    match metadata(rt, path) {
        Ok(found) => found.is_dir(),
        Err(_) => false,
    }
}
