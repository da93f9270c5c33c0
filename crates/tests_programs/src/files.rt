//! The files of a test.
//!
//! A test runs in a folder of its own that it may write to, so a file is named by its number, without a folder.

use std::{fs, io};

/// The first line of a file of integers.
pub const HEADER: &str = "%%MatrixMarket matrix coordinate integer general\n";

/// Writes a file with these bytes. Returns its path.
pub fn file(rt: &HostRuntime, number: usize, bytes: &[u8]) -> io::Result<String> {
    let path = format!(in rt.alloc(); "{number}.mtx")?;
    fs::write(rt, path.as_str(), bytes)?;
    Ok(path)
}

/// Writes a file whose text is the header and these lines. Returns its path.
pub fn matrix(rt: &HostRuntime, number: usize, lines: &str) -> io::Result<String> {
    let text = format!(in rt.alloc(); "{HEADER}{lines}")?;
    file(rt, number, text.as_bytes())
}

/// Writes files with these bytes. Returns their paths.
pub fn files(rt: &HostRuntime, texts: &[&[u8]]) -> io::Result<Vec<String>> {
    let mut paths = Vec::new(rt.alloc());
    for bytes in texts {
        paths.push(file(rt, paths.len(), bytes)?)?;
    }
    Ok(paths)
}

/// Writes files whose texts are the header and these lines. Returns their paths.
pub fn matrices(rt: &HostRuntime, texts: &[&str]) -> io::Result<Vec<String>> {
    let mut paths = Vec::new(rt.alloc());
    for lines in texts {
        paths.push(matrix(rt, paths.len(), lines)?)?;
    }
    Ok(paths)
}
