//! The files in folders, for the option `--recursive`.

use std::alloc::AllocError;
use std::collections::BTreeMap;
use std::fs;
use std::fs::Files;
use std::io::{ErrorKind, Read, Result as IoResult};

/// The files that names represent.
#[derive(Drop)]
pub(crate) struct Found {
    /// Their names, in order.
    pub files: Vec<String>,
    /// The list of further files, if one is named.
    pub list: Option<String>,
    /// The names among them that can't be opened, and why, where that is known already.
    unopened: BTreeMap<String, ErrorKind>,
    /// How many devices, pipes and sockets are in the folders.
    pub devices: usize,
}

/// A name in a folder.
#[derive(Drop)]
struct Entry {
    /// The name with those of its folders, and U+FFFD in place of what is no UTF-8 text.
    path: String,
    is_text: bool,
}

/// What a name is of.
#[derive(Clone, Copy)]
enum Sort {
    Folder,
    /// A file, or what can't be looked at, so that opening it says why.
    File,
    /// A link, which is passed over.
    Link,
    /// A device, a pipe or a socket, which is left out, because reading it might never end.
    Device,
}

/// A copy of a name.
fn name_copy(rt: &HostRuntime, name: &str) -> Result<String, AllocError> {
    String::from_str(rt.alloc(), name)
}

impl Found {
    /// No files.
    pub(crate) fn new(rt: &HostRuntime) -> Found {
        Found {
            files: Vec::new(rt.alloc()),
            list: None,
            unopened: BTreeMap::new(rt.alloc()),
            devices: 0,
        }
    }

    /// Adds a file.
    fn push(&mut self, name: String) -> Result<(), AllocError> {
        match self.files.push(name) {
            Ok(()) => Ok(()),
            Err(_) => Err(AllocError),
        }
    }

    /// Notes why a file can't be opened, whichever file has its name.
    pub(crate) fn note(
        &mut self,
        rt: &HostRuntime,
        name: &str,
        why: ErrorKind,
    ) -> Result<(), AllocError> {
        match self.unopened.insert(name_copy(rt, name)?, why) {
            Ok(_) => Ok(()),
            Err(_) => Err(AllocError),
        }
    }

    /// Why the file of this name can't be opened, where that is known already.
    pub(crate) fn why(&self, name: &str) -> Option<ErrorKind> {
        self.unopened.get(name).copied()
    }
}

/// What an entry of a folder is.
fn sort_of(rt: &HostRuntime, path: &str) -> Sort {
    match fs::symlink_metadata(rt, path) {
        Ok(metadata) if metadata.is_dir() => Sort::Folder,
        Ok(metadata) if metadata.is_symlink() => Sort::Link,
        Ok(metadata) if !metadata.is_file() => Sort::Device,
        _ => Sort::File,
    }
}

/// Whether a word names a folder, by a link too.
fn is_folder(rt: &HostRuntime, word: &str) -> bool {
    match fs::metadata(rt, word) {
        Ok(metadata) => metadata.is_dir(),
        Err(_) => false,
    }
}

/// What comes between a folder and a name in it.
fn slash_after(folder: &str) -> &'static str {
    if folder.ends_with('/') { "" } else { "/" }
}

/// The names in a folder, each ended by a NUL.
fn names_in(rt: &HostRuntime, path: &str) -> IoResult<Vec<u8>> {
    // The system follows a link where a slash comes after it.
    let slash = slash_after(path);
    let mut folder = rt.open_dir(format!(in rt.alloc(); "{path}{slash}")?.as_str())?;
    let mut names = Vec::new(rt.alloc());
    let mut piece = [0; 4096];
    for _ in 0..usize::MAX {
        let count = folder.read(&mut piece)?;
        if count == 0 {
            break;
        }
        names.extend_from_slice(&piece[..count])?;
    }
    Ok(names)
}

/// Whether a name is that of a file or a folder, and not `.` or `..`.
fn is_proper(name: &[u8]) -> bool {
    !name.is_empty() && name != b".".as_slice() && name != b"..".as_slice()
}

/// The names that are listed, in their order byte by byte.
fn sorted_names<'a>(rt: &HostRuntime, listed: &'a [u8]) -> Result<Vec<&'a [u8]>, AllocError> {
    let mut names = Vec::new(rt.alloc());
    for name in listed.split(|byte| *byte == 0) {
        if is_proper(name) && names.push(name).is_err() {
            return Err(AllocError);
        }
    }
    names.sort_unstable();
    Ok(names)
}

/// A name in a folder.
fn entry_in(rt: &HostRuntime, folder: &str, name: &[u8]) -> Result<Entry, AllocError> {
    let text = String::from_utf8_lossy(rt.alloc(), name)?;
    let (slash, text) = (slash_after(folder), text.as_str());
    Ok(Entry {
        path: format!(in rt.alloc(); "{folder}{slash}{text}")?,
        is_text: str::from_utf8(name).is_ok(),
    })
}

/// Adds the names in a folder to those that are left, so that the least of them is the next.
fn push_entries(
    rt: &HostRuntime,
    folder: &str,
    listed: &[u8],
    left: &mut Vec<Entry>,
) -> Result<(), AllocError> {
    let names = sorted_names(rt, listed)?;
    for name in names.as_slice().iter().rev() {
        if left.push(entry_in(rt, folder, name)?).is_err() {
            return Err(AllocError);
        }
    }
    Ok(())
}

/// Adds what is in a folder to what is left; a folder that can't be read is a file that can't be opened.
fn open_folder(
    rt: &HostRuntime,
    path: String,
    left: &mut Vec<Entry>,
    found: &mut Found,
) -> Result<(), AllocError> {
    match names_in(rt, path.as_str()) {
        Ok(listed) => push_entries(rt, path.as_str(), listed.as_slice(), left),
        Err(error) if matches!(error.kind(), ErrorKind::OutOfMemory) => Err(AllocError),
        Err(error) => {
            found.note(rt, path.as_str(), error.kind())?;
            found.push(path)
        }
    }
}

/// Takes an entry of a folder.
fn take_entry(
    rt: &HostRuntime,
    entry: Entry,
    left: &mut Vec<Entry>,
    found: &mut Found,
) -> Result<(), AllocError> {
    let Entry { path, is_text } = entry;
    if !is_text {
        found.note(rt, path.as_str(), ErrorKind::InvalidData)?;
        return found.push(path);
    }
    match sort_of(rt, path.as_str()) {
        Sort::Folder => open_folder(rt, path, left, found),
        Sort::File => found.push(path),
        Sort::Link => Ok(()),
        Sort::Device => {
            found.devices = found.devices.saturating_add(1);
            Ok(())
        }
    }
}

/// Takes all that is in a folder and below it.
fn take_folder(rt: &HostRuntime, word: &str, found: &mut Found) -> Result<(), AllocError> {
    let mut left = Vec::new(rt.alloc());
    open_folder(rt, name_copy(rt, word)?, &mut left, found)?;
    for _ in 0..usize::MAX {
        let Some(entry) = left.pop() else {
            break;
        };
        take_entry(rt, entry, &mut left, found)?;
    }
    Ok(())
}

/// Adds the list that a plan names, if it names one.
pub(crate) fn take_list(
    rt: &HostRuntime,
    from: Option<&str>,
    found: &mut Found,
) -> Result<(), AllocError> {
    if let Some(name) = from {
        found.list = Some(name_copy(rt, name)?);
    }
    Ok(())
}

/// Adds the files that the words name: each word that names a folder represents the files in it and below it, in the order of their names, byte by byte.
/// Links in a folder are passed over; devices, pipes and sockets in one are left out and counted.
pub(crate) fn take_words(
    rt: &HostRuntime,
    words: &[&str],
    found: &mut Found,
) -> Result<(), AllocError> {
    for word in words {
        if *word != "-" && found.why(word).is_none() && is_folder(rt, word) {
            take_folder(rt, word, found)?;
        } else {
            found.push(name_copy(rt, word)?)?;
        }
    }
    Ok(())
}
