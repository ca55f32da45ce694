//! Where a file is made that is not there yet.

use std::fs::{self, Metadata};
use std::io::{self, ErrorKind};
use std::os::unix::fs::MetadataExt;
use std::path::{Path, PathBuf};

/// The most links that are followed, one after another: as many as Linux follows.
const MAX_LINKS: u32 = 40;

/// The device and the inode of a file, which no other file has.
pub fn node_of(metadata: &Metadata) -> (u64, u64) {
    (metadata.dev(), metadata.ino())
}

/// Where the link at a path leads to.
fn behind_link(rt: &HostRuntime, path: &Path, link: &PathBuf) -> io::Result<PathBuf> {
    match path.parent() {
        Some(folder) => Ok(folder.join(rt.alloc(), link)?),
        None => Ok(link.to_path_buf(rt.alloc())?),
    }
}

/// The path behind all links that are at the end of a path.
fn followed(rt: &HostRuntime, path: &str) -> io::Result<PathBuf> {
    let mut path = Path::new(path).to_path_buf(rt.alloc())?;
    for _ in 0..MAX_LINKS {
        let Ok(link) = fs::read_link(rt, &path) else {
            return Ok(path);
        };
        path = behind_link(rt, &path.as_path(), &link)?;
    }
    Err(io::Error::from(ErrorKind::Other))
}

/// The device and the inode of the folder of a path.
fn folder_of(rt: &HostRuntime, path: &Path) -> io::Result<(u64, u64)> {
    let metadata = match path.parent() {
        Some(folder) if !folder.as_str().is_empty() => fs::metadata(rt, folder)?,
        _ => fs::metadata(rt, ".")?,
    };
    Ok(node_of(&metadata))
}

/// Whether one file would be made at both paths: in one folder, by one name.
fn is_one(rt: &HostRuntime, path: &Path, other: &Path) -> io::Result<bool> {
    Ok(path.file_name() == other.file_name() && folder_of(rt, path)? == folder_of(rt, other)?)
}

/// Whether one file would be made at both paths, where no file is there yet.
pub fn are_one_place(rt: &HostRuntime, path: &str, other: &str) -> io::Result<bool> {
    let (path, other) = (followed(rt, path)?, followed(rt, other)?);
    is_one(rt, &path.as_path(), &other.as_path())
}
