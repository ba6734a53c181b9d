//! Checks of the files that a command left in a folder.

use crate::folder::Folder;
use crate::patches::patched;
use anyhow::Result;
use std::io;

/// Whether a file that must not exist exists.
pub(crate) fn is_there(rt: &impl Print, folder: &Folder, name: &str) -> io::Result<bool> {
    let is_there = folder.get(name).is_some();
    if is_there {
        let title = folder.title.as_str();
        println!(rt; "{title}: there is a file {name}")?;
    }
    Ok(is_there)
}

/// Whether a file is missing, or has other bytes than the other file.
pub(crate) fn is_unlike(rt: &impl Print, folder: &Folder, name: &str, other: &str) -> Result<bool> {
    let is_unlike = folder.get(name) != Some(folder.bytes(other)?);
    if is_unlike {
        let title = folder.title.as_str();
        println!(rt; "{title}: {name} is not {other}")?;
    }
    Ok(is_unlike)
}

/// Whether a file has other bytes than these at some places.
pub(crate) fn is_other(rt: &impl Print, folder: &Folder, name: &str, places: &str) -> Result<bool> {
    let bytes = folder.bytes(name)?;
    let wanted = patched(folder.alloc, bytes, places)?;
    let is_other = bytes != wanted.as_slice();
    if is_other {
        let title = folder.title.as_str();
        println!(rt; "{title}: {name} has other bytes than {places}")?;
    }
    Ok(is_other)
}
