//! What `mtxkit` says of itself.

use crate::mtxkit::{Answer, answered};
use std::alloc::AllocError;
use std::process::ExitCode;

// Whether a command wrote a text that contains this one, and nothing else, with status 0.
fn has_told(answer: Answer<Vec<u8>>, text: &str) -> bool {
    let contains = match str::from_utf8(&answer.out) {
        Ok(help) => help.contains(text),
        Err(_) => false,
    };
    contains && answer.err.is_empty() && answer.status == ExitCode::SUCCESS
}

// Whether help is written to the output and contains this text.
fn helps(rt: &HostRuntime, words: &[&str], text: &str) -> Result<bool, AllocError> {
    let answer = answered(rt, words, &[], &[])?;
    Ok(has_told(answer, text))
}

// Words, and a part of the help that they ask for.
const HELP: [(&[&str], &str); 5] = [
    (&["--help"], "\n  spy        Writes a picture"),
    (&["help"], "\n  spy        Writes a picture"),
    (&["solve", "--help"], "998244353, 1000000007,"),
    (
        &["help", "solve"],
        "Usage: mtxkit solve [OPTIONS] <A> <B>\n",
    ),
    (&["--version"], "mtxkit 0.1.0\n"),
];

#[test]
fn help_names_commands_moduli_and_the_version(rt: HostRuntime) {
    for (words, text) in HELP {
        assert!(rt; matches!(helps(&rt, words, text), Ok(true)), "{text}");
    }
}
