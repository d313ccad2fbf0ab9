//! One row of the table.

use orbit_cli::{Status, orbit};
use std::alloc::{AllocError, Global};
use t_ports::memory::{MemFolder, MemSink};

// Puts the text of a piece, where `|` stands for a line feed.
fn put(text: &mut Vec<u8>, piece: &str) -> Result<(), AllocError> {
    for byte in piece.as_bytes() {
        text.push(if *byte == b'|' { b'\n' } else { *byte })?;
    }
    Ok(())
}

// Puts a count and a piece, divided by a blank, as the piece so many times.
fn put_repeated(text: &mut Vec<u8>, repeated: &str) -> Result<(), AllocError> {
    let Some((count, piece)) = repeated.split_once(' ') else {
        return put(text, repeated);
    };
    for _ in 0..count.parse::<u32>().unwrap_or(0) {
        put(text, piece)?;
    }
    Ok(())
}

// The text that a line stands for.
fn text_of(alloc: Global, line: &str) -> Result<Vec<u8>, AllocError> {
    let mut text = Vec::new(alloc);
    for part in line.split('{') {
        match part.split_once('}') {
            Some((repeated, rest)) => {
                put_repeated(&mut text, repeated)?;
                put(&mut text, rest)?;
            }
            None => put(&mut text, part)?,
        }
    }
    Ok(text)
}

fn words_of(alloc: Global) -> Result<Vec<String>, AllocError> {
    let mut words = Vec::new(alloc);
    words.push(String::from_str(alloc, "check")?)?;
    words.push(String::from_str(alloc, "a.t")?)?;
    Ok(words)
}

fn sink(alloc: Global) -> Result<MemSink, AllocError> {
    match MemSink::new(alloc, 1000, Vec::new(alloc)) {
        Ok(sink) => Ok(sink),
        Err(_) => Err(AllocError),
    }
}

// A folder with the text as its one file.
fn folder_of(alloc: Global, text: &[u8]) -> Result<MemFolder, AllocError> {
    let mut folder = MemFolder::new(alloc, Vec::new(alloc));
    match folder.add("a.t", text) {
        Ok(()) => Ok(folder),
        Err(_) => Err(AllocError),
    }
}

// A line without its line feed.
fn bare(line: &[u8]) -> &[u8] {
    match line {
        [text @ .., b'\n'] => text,
        _ => line,
    }
}

/// What `check` answers for the text of a line.
pub fn answer(alloc: Global, line: &str) -> Result<Vec<u8>, AllocError> {
    let mut folder = folder_of(alloc, &text_of(alloc, line)?)?;
    let (mut out, mut err) = (sink(alloc)?, sink(alloc)?);
    let status = orbit(alloc, &words_of(alloc)?, &mut folder, &mut out, &mut err);
    if status == Status::Done {
        return Vec::from_slice(alloc, bare(out.bytes()));
    }
    let mut text = format!(in alloc; "{} ", status.number())?.into_bytes();
    text.extend_from_slice(bare(err.bytes()))?;
    Ok(text)
}
