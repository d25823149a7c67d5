// What a program reads: standard input, or a file.
ghost use Rattle.std.specs.Prelude.{◌≡◌, IsErrAnd, MatchResult, IsUtf8};
ghost use Rattle.std.specs.IoError.{error_kind};
ghost use Rattle.std.specs.Io.KnownBytes.{Keeps};

use std::fs::{File, Files};
use std::io;
use std::io::{Error, ErrorKind, Read, Stdin};

#[derive(Drop)]
pub enum Source {
    Input(Stdin),
    Opened(File),
}

impl Read for Source {
    fn read(&mut self, buf: &mut [u8]) -> io::Result<usize> {
        match self {
            Source::Input(input) => input.read(buf),
            Source::Opened(file) => file.read(buf),
        }
    }
}

// A file's name as the library takes it.
fn path_of(name: &[u8]) -> io::Result<&str>
    ensures { MatchResult result (λ path. path.now ≡ name.now) (λ e. (¬ (IsUtf8 name.now)) × (error_kind e ≡ ErrorKind.InvalidInput)) }
{
    match str::from_utf8(name) {
        Ok(path) => Ok(path),
        Err(_) => Err(Error::from(ErrorKind::InvalidInput)),
    }
}

// Opens a file to be read; a name that is not UTF-8 is refused.
pub fn open<R: Files>(rt: &R, name: &[u8]) -> io::Result<R::File>
    ensures { ¬ (IsUtf8 name.now) → IsErrAnd result (λ e. error_kind e ≡ ErrorKind.InvalidInput) }
{
    File::open(rt, path_of(name)?)
}

// Opens a file to be written, which is made, or emptied where it is there; a name that is not UTF-8 is refused.
pub fn create<R: Files>(rt: &R, name: &[u8]) -> io::Result<R::File>
    ensures { ¬ (IsUtf8 name.now) → IsErrAnd result (λ e. error_kind e ≡ ErrorKind.InvalidInput) }
{
    File::create(rt, path_of(name)?)
}

// Whether what was opened can be read, which a folder cannot. No byte is taken.
pub fn try_reading<R: Read>(source: &mut R) -> io::Result<()>
    ensures { Keeps (R.remaining source.old) (R.remaining source.new) }
{
    let mut none = [0u8; 1];
    source.read(&mut none[..0])?;
    Ok(())
}
