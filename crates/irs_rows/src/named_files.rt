//! The files that the words of a command name, in memory.
//!
//! A word is the name of a file of `data/`. `spaces:COUNT` is a file of COUNT spaces, and
//! `front:COUNT:NAME` is the first COUNT bytes of the file that is named. `built:NAME` is the file
//! that is built from it (`built_files`). A word that names no file names one that is missing.
use crate::built_files::built;
use anyhow::{Context, Result};
use irs_cli::{MemFiles, SureFiles};
use std::alloc::Global;
use std::fs;

/// A file of `count` spaces.
pub fn spaces(alloc: Global, count: u32) -> Result<Vec<u8>> {
    Ok(vec![in alloc; b' '; count as usize]?)
}

// The bytes of a file of `data/`, none where there is no such file.
fn data_file(rt: &HostRuntime, name: &str) -> Result<Option<Vec<u8>>> {
    if fs::exists(rt, name)? {
        Ok(Some(fs::read(rt, name)?))
    } else {
        Ok(None)
    }
}

// The first bytes of a file: a text has their number and the name.
fn front(rt: &HostRuntime, text: &str) -> Result<Option<Vec<u8>>> {
    let (count, name) = text.split_once(':').context("no name")?;
    let mut bytes = data_file(rt, name)?.context("no file")?;
    bytes.truncate(count.parse::<usize>()?);
    Ok(Some(bytes))
}

// The file that is built from the file of that name.
fn built_file(rt: &HostRuntime, name: &str) -> Result<Option<Vec<u8>>> {
    let bytes = data_file(rt, name)?.context("no file")?;
    Ok(Some(built(rt.alloc(), str::from_utf8(&bytes)?)?))
}

/// The bytes of the file that a word names, none where it is missing.
pub fn file_of(rt: &HostRuntime, word: &str) -> Result<Option<Vec<u8>>> {
    if let Some(count) = word.strip_prefix("spaces:") {
        Ok(Some(spaces(rt.alloc(), count.parse::<u32>()?)?))
    } else if let Some(text) = word.strip_prefix("front:") {
        front(rt, text)
    } else if let Some(name) = word.strip_prefix("built:") {
        built_file(rt, name)
    } else {
        data_file(rt, word)
    }
}

/// The files that words name.
pub fn files_of(rt: &HostRuntime, words: &[String]) -> Result<MemFiles> {
    let mut files = MemFiles::new(rt.alloc());
    for word in words {
        if let Some(bytes) = file_of(rt, word)? {
            files.add(word, &bytes)?;
        }
    }
    Ok(files)
}

/// The files that words name; a missing one is empty.
pub fn sure_files_of(rt: &HostRuntime, words: &[String]) -> Result<SureFiles> {
    let mut files = SureFiles::new(rt.alloc());
    for word in words {
        if let Some(bytes) = file_of(rt, word)? {
            files.add(word, &bytes)?;
        }
    }
    Ok(files)
}
