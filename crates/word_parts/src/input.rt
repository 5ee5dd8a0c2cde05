//! What a trace is read from: standard input, or a file. And where an order is written to.
ghost use Rattle.std.specs.Prelude.{ℕ, List, IfOk, IsSome, OnErr, option_map, ⊤};
ghost use Rattle.word_parts.specs.Input.{IsInput, IsList, NamesStandard};

use either::Either;
use std::fs::File;
use std::io::{Empty, ErrorKind, Read, Write};
use std::{fs, io};

/// Where files are opened.
pub trait Files {
    /// A file that is open for reading.
    type Open: Read + Drop;

    // What may come of opening the file of this path.
    ghost opens: { Self → List ℕ → Self.Open → Type 0 };

    // What it means that the file of this path has these bytes, and no others.
    ghost saved: { Self → List ℕ → List ℕ → Type 0 };

    /// Opens the file of this path for reading.
    fn open(&self, path: &str) -> io::Result<Self::Open>
        ensures { IfOk result (λ file. opens self.now path.now file) };

    /// Writes the bytes to the file of this path, which is made, or replaced as a whole.
    fn save(&self, path: &str, bytes: &[u8]) -> io::Result<()>
        ensures { IfOk result (λ x. saved self.now path.now bytes.now) };

    /// Makes the folder of this path. Where there is one already that is no failure.
    fn make_folder(&self, path: &str) -> io::Result<()>;
}

// Writes the bytes to the file of this path, which is made, or emptied first.
fn write_file(files: &HostRuntime, path: &str, bytes: &[u8]) -> io::Result<()> {
    let mut file = File::create(files, path)?;
    file.write_all(bytes)
}

// The same by a file beside it, which takes its name once it is whole: so nobody finds half of it there.
fn replace(files: &HostRuntime, path: &str, bytes: &[u8]) -> io::Result<()> {
    let Ok(part) = format!(in files.alloc(); "{path}.part") else {
        return Err(io::Error::from(ErrorKind::OutOfMemory));
    };
    write_file(files, part.as_str(), bytes)?;
    fs::rename(files, part.as_str(), path)
}

impl Files for HostRuntime {
    type Open = File;

    ghost opens = { λ files path file. ⊤ };

    ghost saved = { λ files path bytes. ⊤ };

    fn open(&self, path: &str) -> io::Result<File> {
        File::open(self, path)
    }

    fn save(&self, path: &str, bytes: &[u8]) -> io::Result<()> {
        match fs::symlink_metadata(self, path) {
            Ok(known) if !known.is_file() => write_file(self, path, bytes),
            _ => replace(self, path, bytes),
        }
    }

    fn make_folder(&self, path: &str) -> io::Result<()> {
        match fs::create_dir(self, path) {
            Err(error) if error.kind() != io::ErrorKind::AlreadyExists => Err(error),
            _ => Ok(()),
        }
    }
}

/// The file that is named, or standard input where none is, or `-`. An `Err` is the file's: it can't
/// be opened.
pub fn input<I: Read + Drop, F: Files>(
    files: &F,
    standard: I,
    name: Option<&str>,
) -> io::Result<Either<I, F::Open>>
    ensures ok { IfOk result (λ i. IsInput standard (λ path file. F.opens files.now path file)
        (option_map (λ n. n.now) name.entry) i) }
    ensures err { OnErr result (NamesStandard (option_map (λ n. n.now) name.entry) → ⊥) }
{
    match name {
        None | Some("-") => Ok(Either::Left(standard)),
        Some(path) => {
            let file = files.open(path)?;
            Ok(Either::Right(file))
        }
    }
}

/// The list of mappings that is named, or an empty one where none is. An `Err` is the file's: it can't be opened.
pub fn list<F: Files>(files: &F, name: Option<&str>) -> io::Result<Either<Empty, F::Open>>
    ensures ok { IfOk result (λ i. IsList {E = Empty} (λ path file. F.opens files.now path file)
        (option_map (λ n. n.now) name.entry) i) }
    ensures err { OnErr result (IsSome name.entry) }
{
    match name {
        None => Ok(Either::Left(io::empty())),
        Some(path) => {
            let list = files.open(path)?;
            Ok(Either::Right(list))
        }
    }
}
