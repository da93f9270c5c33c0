//! JSON texts that are refused: deep nesting, and each proper prefix of a text.

use sparse_serde::{CooData, CsrData};
use std::alloc::{AllocError, Global};

// Appends a character this often.
fn push_each(text: &mut String, character: char, count: usize) -> Result<(), AllocError> {
    for _ in 0..count {
        text.push(character)?;
    }
    Ok(())
}

// Appends a text whose values are lists nested to this depth.
fn push_nested(text: &mut String, depth: usize) -> Result<(), AllocError> {
    text.push_str(r#"{"nrows":1,"ncols":1,"row_indices":[0],"col_indices":[0],"values":"#)?;
    push_each(text, '[', depth)?;
    push_each(text, ']', depth)?;
    text.push('}')?;
    Ok(())
}

// Whether a text nested to this depth is refused.
fn nested_is_unread(alloc: Global, depth: usize) -> bool {
    let mut text = String::new(alloc);
    match push_nested(&mut text, depth) {
        Ok(()) => serde_json::from_str::<CooData<i32>>(alloc, &text).is_err(),
        Err(_error) => false,
    }
}

const DEPTHS: &[usize] = &[2, 127, 128, 100_000];

#[test]
fn deep_nesting_is_unread(rt: HostRuntime) {
    for depth in DEPTHS {
        assert!(rt; nested_is_unread(rt.alloc(), *depth), "{depth}");
    }
}

const WHOLE: &str =
    r#"{"nrows":2,"ncols":20,"row_offsets":[0,1,2],"col_indices":[10,11],"values":[-12,13]}"#;

fn is_read(alloc: Global, bytes: &[u8]) -> bool {
    serde_json::from_slice::<CsrData<i32>>(alloc, bytes).is_ok()
}

// Whether each proper prefix of the text is refused, and the text is read.
fn reads_whole_alone(alloc: Global, text: &str) -> bool {
    let bytes = text.as_bytes();
    for end in 0..bytes.len() {
        if is_read(alloc, &bytes[..end]) {
            return false;
        }
    }
    is_read(alloc, bytes)
}

#[test]
fn a_cut_text_is_unread(rt: HostRuntime) {
    assert!(rt; reads_whole_alone(rt.alloc(), WHOLE));
}
