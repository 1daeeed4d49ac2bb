//! A file that stands under its name when all of it is written, and not before.

ghost use Rattle.std.specs.Prelude.{◌≡◌, ◌⊎◌, IfErr, OnOk};

use std::alloc::{AllocError, Global};
use std::fs::{File, Metadata, OpenFile, OpenOptions};
use std::io::{ErrorKind, Write};
use std::os::unix::fs::{MetadataExt, OpenOptionsExt, chown};
use std::path::{Path, PathBuf};
use std::rt::Files;
use std::{fs, io};
use sw_rows::{Counted, Refusal, Sink};

/// Who may read and write a file that was not there, but for what the system takes from every new file.
const NEW_MODE: u32 = 0o666;

/// Who may read and write what replaces a file, until it gets the permissions of that.
const OWN_MODE: u32 = 0o600;

/// How many names are tried for what is begun.
const MOST_NAMES: u32 = 10_000;

/// What is begun beside a name, and what is known of the file that has the name.
#[derive(Drop)]
struct Begun {
    path: PathBuf,
    name: PathBuf,
    replaced: Option<Metadata>,
}

/// A file that is being written. Where its name is that of a regular file, or of none, it is written beside it under
/// another name, `sideways.N.part`, and gets its own at `end`; until then, and where it is refused, the name has what it
/// had. A device or a pipe is written in place.
#[derive(Drop)]
pub struct NewFile<F: Write + OpenFile + Drop> {
    sink: Counted<F>,
    begun: Option<Begun>,
}

/// What an error of the system is told as, where a file was to be written.
fn refusal_of(error: &io::Error) -> Refusal
    ensures { (result ≡ Refusal.NoMemory) ⊎ (result ≡ Refusal.Output) }
{
    if error.kind() == ErrorKind::OutOfMemory {
        Refusal::NoMemory
    } else {
        Refusal::Output
    }
}

/// The name of what is begun beside a name, by its number.
fn name_beside(alloc: Global, name: Path<'_>, number: u32) -> Result<PathBuf, AllocError> {
    let last = format!(in alloc; "sideways.{number}.part")?;
    name.with_file_name(alloc, last.as_str())
}

/// Makes a file beside a name, under the first such name that no file has.
fn create_beside<R: Files>(
    rt: &R,
    alloc: Global,
    name: Path<'_>,
    mode: u32,
) -> io::Result<(PathBuf, R::File)> {
    let mut how = OpenOptions::new();
    how.write(true).create_new(true).mode(mode);
    for number in 1..=MOST_NAMES {
        let path = name_beside(alloc, name, number)?;
        match how.open(rt, path.as_path()) {
            Ok(file) => return Ok((path, file)),
            Err(error) if error.kind() == ErrorKind::AlreadyExists => {}
            Err(error) => return Err(error),
        }
    }
    Err(io::Error::from(ErrorKind::AlreadyExists))
}

/// Begins a file beside a name.
fn begin_beside<R: Files>(
    rt: &R,
    alloc: Global,
    name: PathBuf,
    mode: u32,
    replaced: Option<Metadata>,
) -> io::Result<NewFile<R::File>> {
    let (path, file) = create_beside(rt, alloc, name.as_path(), mode)?;
    let begun = Begun {
        path,
        name,
        replaced,
    };
    Ok(NewFile {
        sink: Counted::new(file),
        begun: Some(begun),
    })
}

/// Begins a file in place of one that is there, beside the name that links lead to. One that may not be written is not
/// replaced.
fn begin_instead<R: Files>(rt: &R, alloc: Global, path: &str) -> io::Result<NewFile<R::File>> {
    let old = OpenOptions::new().write(true).open(rt, path)?;
    let replaced = old.metadata()?;
    let name = rt.canonicalize(alloc, path)?;
    begin_beside(rt, alloc, name, OWN_MODE, Some(replaced))
}

/// Begins a file that is written in place.
fn begin_in_place<R: Files>(rt: &R, path: &str) -> io::Result<NewFile<R::File>> {
    let file = File::create(rt, path)?;
    Ok(NewFile {
        sink: Counted::new(file),
        begun: None,
    })
}

/// Begins a file that is not there. A link that leads nowhere makes the file that it leads to.
fn begin_fresh<R: Files>(rt: &R, alloc: Global, path: &str) -> io::Result<NewFile<R::File>> {
    if fs::symlink_metadata(rt, path).is_ok() {
        return begin_in_place(rt, path);
    }
    let name = PathBuf::from_str(alloc, path)?;
    begin_beside(rt, alloc, name, NEW_MODE, None)
}

/// Begins a file of a name.
fn begin_named<R: Files>(rt: &R, alloc: Global, path: &str) -> io::Result<NewFile<R::File>> {
    match fs::metadata(rt, path) {
        Ok(found) if found.is_file() => begin_instead(rt, alloc, path),
        Ok(_) => begin_in_place(rt, path),
        Err(error) if error.kind() == ErrorKind::NotFound => begin_fresh(rt, alloc, path),
        Err(error) => Err(error),
    }
}

/// Gives what replaces a file the permissions of that, and its owner where the system lets it.
fn keep_owner<R: Files>(
    rt: &R,
    file: &R::File,
    path: Path<'_>,
    replaced: &Metadata,
) -> io::Result<()> {
    let _ = chown(rt, path, Some(replaced.uid()), Some(replaced.gid()));
    file.set_permissions(replaced.permissions())
}

/// Puts what was written under its name.
fn put_in_place<R: Files>(rt: &R, file: &R::File, begun: &Begun) -> io::Result<()> {
    if let Some(replaced) = &begun.replaced {
        keep_owner(rt, file, begun.path.as_path(), replaced)?;
    }
    file.sync_all()?;
    fs::rename(rt, begun.path.as_path(), begun.name.as_path())
}

/// Puts what was written under its name, or tells why it was not.
fn end_begun<R: Files>(
    rt: &R,
    file: &R::File,
    begun: &Begun,
    written: Result<(), Refusal>,
) -> Result<(), Refusal>
    ensures refused { IfErr written (λ e. result ≡ Err e) }
    ensures why { OnOk written (IfErr result (λ e. (e ≡ Refusal.NoMemory) ⊎ (e ≡ Refusal.Output))) }
{
    match written {
        Ok(()) => match put_in_place(rt, file, begun) {
            Ok(()) => Ok(()),
            Err(error) => Err(refusal_of(&error)),
        },
        Err(refusal) => Err(refusal),
    }
}

/// Begins a file of a name. Refused `Output` where it cannot be made or written, and `NoMemory`; then the name has what
/// it had, and nothing stands beside it.
pub fn begin_file<R: Files>(rt: &R, alloc: Global, path: &str) -> Result<NewFile<R::File>, Refusal>
    ensures { IfErr result (λ e. (e ≡ Refusal.NoMemory) ⊎ (e ≡ Refusal.Output)) }
{
    match begin_named(rt, alloc, path) {
        Ok(file) => Ok(file),
        Err(error) => Err(refusal_of(&error)),
    }
}

impl<F: Write + OpenFile + Drop> NewFile<F> {
    /// Ends the file, of which all was written or something refused. What was written gets the name, once the system has
    /// it on the disk; a refusal is handed back, and what was begun is taken away. Refused `Output` where it cannot get
    /// the name. Takes no memory.
    pub fn end<R: Files<File = F>>(
        self,
        rt: &R,
        written: Result<(), Refusal>,
    ) -> Result<(), Refusal>
        ensures refused { IfErr written (λ e. result ≡ Err e) }
        ensures why { OnOk written (IfErr result (λ e. (e ≡ Refusal.NoMemory) ⊎ (e ≡ Refusal.Output))) }
    {
        let NewFile { sink, begun } = self;
        let Some(begun) = begun else {
            return written;
        };
        let ended = end_begun(rt, &sink.inner, &begun, written);
        if ended.is_err() {
            let _ = fs::remove_file(rt, begun.path.as_path());
        }
        ended
    }
}

impl<F: Write + OpenFile + Drop> Sink for NewFile<F> {
    ghost taken = { λ s. F.contents s.sink.inner };

    ghost failed = { λ s. s.sink.failures };

    fn write_some(&mut self, buf: &[u8]) -> io::Result<usize> {
        self.sink.write_some(buf)
    }

    fn failures(&self) -> u64 {
        self.sink.failures()
    }
}
