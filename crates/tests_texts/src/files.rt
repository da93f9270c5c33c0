//! Files: read and written, missing, a folder, and a full device.
//!
//! A test runs in a folder of its own that it may write to, so a file is named without a folder.

use crate::matrices::list;
use sparse_algebra::scalar::W64;
use sparse_coo_dense::coo::CooMatrix;
use sparse_io::{
    Banner, MatrixMarketErrorKind, load_coo_from_matrix_market_file, save_to_matrix_market_file,
    save_to_matrix_market_file_with,
};
use std::fs::{self, remove_file};
use std::io::ErrorKind;

/// The kind of the refusal of a file, read as i32.
pub fn refusal(rt: &HostRuntime, path: &str) -> Option<MatrixMarketErrorKind> {
    match load_coo_from_matrix_market_file::<i32>(rt, path) {
        Ok(_) => None,
        Err(error) => Some(error.kind()),
    }
}

// Whether a file means this list.
fn is_read(rt: &HostRuntime, path: &str, matrix: &CooMatrix<W64>) -> bool {
    match load_coo_from_matrix_market_file::<W64>(rt, path) {
        Ok(again) => again == *matrix,
        Err(_) => false,
    }
}

// Whether a list that is written to a file is read from it again.
fn is_kept(rt: &HostRuntime, path: &str) -> bool {
    match list(rt.alloc(), 2, 3, &[(1, 2, -5), (0, 0, 7)]) {
        Ok(matrix) => {
            save_to_matrix_market_file(rt, &matrix, path).is_ok() && is_read(rt, path, &matrix)
        }
        Err(_) => false,
    }
}

#[test]
fn reads_what_it_wrote(rt: HostRuntime) {
    assert!(rt; is_kept(&rt, "written.mtx"));
    assert!(rt; remove_file(&rt, "written.mtx").is_ok());
}

// Whether a file's text begins so.
fn begins(rt: &HostRuntime, path: &str, start: &str) -> bool {
    match fs::read_to_string(rt, path) {
        Ok(text) => text.as_str().starts_with(start),
        Err(_) => false,
    }
}

// Whether the file of a list begins with the word of this banner, and with `%%matrixmarket` if there is none.
fn begins_as_asked(rt: &HostRuntime, path: &str) -> bool {
    let Ok(matrix) = list(rt.alloc(), 1, 1, &[(0, 0, 1)]) else {
        return false;
    };
    save_to_matrix_market_file_with(rt, &matrix, path, Banner::MixedCase).is_ok()
        && begins(
            rt,
            path,
            "%%MatrixMarket matrix coordinate integer general\n",
        )
        && save_to_matrix_market_file_with(rt, &matrix, path, Banner::LowerCase).is_ok()
        && begins(
            rt,
            path,
            "%%matrixmarket matrix coordinate integer general\n",
        )
        && save_to_matrix_market_file(rt, &matrix, path).is_ok()
        && begins(
            rt,
            path,
            "%%matrixmarket matrix coordinate integer general\n",
        )
}

// No contract says what a file has.
#[test]
fn files_begin_with_the_word_that_is_asked_for(rt: HostRuntime) {
    assert!(rt; begins_as_asked(&rt, "first.mtx"));
    assert!(rt; remove_file(&rt, "first.mtx").is_ok());
}

#[test]
fn refuses_files_that_cannot_be_read(rt: HostRuntime) {
    let missing = MatrixMarketErrorKind::IOError(ErrorKind::NotFound);
    assert!(rt; refusal(&rt, "/nonexistent/file.mtx") == Some(missing));
    let folder = MatrixMarketErrorKind::IOError(ErrorKind::IsADirectory);
    assert!(rt; refusal(&rt, "/tmp") == Some(folder));
}

// Whether a list of one triplet is refused by a file for this reason.
fn is_refused(rt: &HostRuntime, path: &str, kind: MatrixMarketErrorKind) -> bool {
    let Ok(matrix) = list(rt.alloc(), 1, 1, &[(0, 0, 1)]) else {
        return false;
    };
    match save_to_matrix_market_file(rt, &matrix, path) {
        Ok(()) => false,
        Err(error) => error.kind() == kind,
    }
}

#[test]
fn refuses_a_full_device(rt: HostRuntime) {
    let full = MatrixMarketErrorKind::IOError(ErrorKind::StorageFull);
    assert!(rt; is_refused(&rt, "/dev/full", full));
}
