//! Which file a path leads to.

use std::fs;
use std::os::unix::fs::MetadataExt;
use std::path::Path;
use std::rt::Files;

/// A regular file, by its device and its number there.
#[derive(Clone, Copy, PartialEq, Eq)]
pub struct FileId {
    device: u64,
    number: u64,
}

impl FileId {
    /// The regular file that a path leads to; none where there is no file, one of another kind, or one that the system
    /// does not tell of.
    pub fn of<R: Files>(rt: &R, path: &str) -> Option<FileId> {
        match fs::metadata(rt, path) {
            Ok(found) if found.is_file() => Some(FileId {
                device: found.dev(),
                number: found.ino(),
            }),
            _ => None,
        }
    }

    /// Whether a path leads to this file.
    pub fn is_at<R: Files>(self, rt: &R, path: &str) -> bool {
        FileId::of(rt, path) == Some(self)
    }
}

/// The folder in which the last name of a path stands, by its device and its number there.
fn folder_of<R: Files>(rt: &R, path: Path<'_>) -> Option<(u64, u64)> {
    let folder = match path.parent()?.as_str() {
        "" => ".",
        folder => folder,
    };
    let found = fs::metadata(rt, folder).ok()?;
    Some((found.dev(), found.ino()))
}

/// Whether two paths have the same last name in the same folder.
fn share_name<R: Files>(rt: &R, first: Path<'_>, second: Path<'_>) -> bool {
    let folder = folder_of(rt, first);
    first.file_name() == second.file_name() && folder.is_some() && folder == folder_of(rt, second)
}

/// Whether files that are written under two paths would be one: both lead to one regular file, or have the same last name
/// in the same folder, whether a file stands there or not. Devices and pipes are no files that are written over.
pub fn would_be_one<R: Files>(rt: &R, first: &str, second: &str) -> bool {
    match (FileId::of(rt, first), FileId::of(rt, second)) {
        (Some(id), Some(other)) => id == other,
        (None, None) if fs::metadata(rt, first).is_err() => {
            share_name(rt, Path::new(first), Path::new(second))
        }
        _ => false,
    }
}
