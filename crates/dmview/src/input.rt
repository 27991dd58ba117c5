//! The files of a run, and whether they are captures.
use crate::capture::{FRONT_LEN, is_capture_front};
use anyhow::{Context, Result};
use clap::ArgMatches;
use dm_view_lines::Inputs;
use std::alloc::{AllocError, Global};
use std::collections::VecDeque;
use std::fs::File;
use std::io::{Chain, Read};
use std::mem;

/// Opens a file. A directory is refused, as a read of it would be.
fn open_file(rt: &HostRuntime, name: &str) -> Result<File> {
    let mut file = File::open(rt, name).context(format_args!("dmview: {name}"))?;
    let mut none = [0u8; 0];
    let tried = file.read(&mut none);
    tried.context(format_args!("dmview: {name}"))?;
    Ok(file)
}

/// Opens the texts of dictionaries, so that one that isn't there is told before anything is read.
pub fn open_dictionary_files(rt: &HostRuntime, names: &[&str]) -> Result<Vec<File>> {
    let mut files = Vec::new(rt.alloc());
    for name in names {
        let file = open_file(rt, name)?;
        files
            .push(file)
            .map_err(AllocError::from)
            .context("dmview")?;
    }
    Ok(files)
}

/// Opens the files that are said, one after the other.
pub fn open_input_files(rt: &HostRuntime, names: &[&str]) -> Result<VecDeque<File>> {
    let mut files = VecDeque::new(rt.alloc());
    for name in names {
        let file = open_file(rt, name)?;
        files
            .push_back(file)
            .map_err(AllocError::from)
            .context("dmview")?;
    }
    Ok(files)
}

/// A file behind octets that were read of it already.
pub type Opened = Chain<VecDeque<u8>, File>;

/// A file, with these octets of its front.
pub fn file_with_front(front: VecDeque<u8>, file: File) -> Opened {
    front.chain(file)
}

/// The lines of all files, one after the other, with a line feed behind the last one of a file that lacks it; of the
/// first file these octets were read.
pub fn files_joined_as_lines(
    alloc: Global,
    front: VecDeque<u8>,
    files: VecDeque<File>,
) -> Result<Inputs<Opened>> {
    let mut inputs = Inputs::new(alloc);
    let mut front = front;
    for file in files {
        let read = mem::replace(&mut front, VecDeque::new(alloc));
        inputs
            .push_as_lines(file_with_front(read, file))
            .context("dmview")?;
    }
    drop(front);
    Ok(inputs)
}

/// Whether the first file begins as a capture, by octets at its front, which are read and appended to `front`; false
/// where none is named.
fn read_whether_first_file_is_capture(
    rt: &HostRuntime,
    files: &mut VecDeque<File>,
    front: &mut VecDeque<u8>,
    names: &[&str],
) -> Result<bool> {
    let (Some(file), Some(name)) = (files.front_mut(), names.first()) else {
        return Ok(false);
    };
    let mut octets = Vec::new(rt.alloc());
    let read = file.take(FRONT_LEN as u64).read_to_end(&mut octets);
    read.context(format_args!("dmview: {name}"))?;
    for octet in &octets {
        front
            .push_back(*octet)
            .map_err(AllocError::from)
            .context("dmview")?;
    }
    is_capture_front(rt.alloc(), octets.as_slice()).context("dmview")
}

/// Whether the input is captures: where an option says so, or none says else and the first file that is named begins as
/// one. Standard input isn't looked at.
pub fn are_captures(
    rt: &HostRuntime,
    matches: &ArgMatches<'_>,
    files: &mut VecDeque<File>,
    front: &mut VecDeque<u8>,
    names: &[&str],
) -> Result<bool> {
    if matches.get_flag("capture") {
        return Ok(true);
    }
    if matches.get_flag("hex") || matches.get_flag("stream") {
        return Ok(false);
    }
    read_whether_first_file_is_capture(rt, files, front, names)
}
