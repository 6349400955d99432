// What standard error gets where a call of the system fails.
#![tactic(auto)]

use std::io::{Cursor, Write};
use std::{io, str};

// The longest text of a failure, and more than that.
const ROOM: usize = 256;

// Writes a line: what failed, a colon and the system's words for it, without the number that `io::Error` prints behind them.
pub fn fail(rt: &impl Eprint, what: &str, failure: &io::Error) {
    let mut buffer = [0u8; ROOM];
    let mut cursor = Cursor::new(&mut buffer[..]);
    let _ = write!(cursor, "{failure}");
    let text = str::from_utf8(&buffer).unwrap_or("");
    let words = match text.split_once(" (os error ") {
        Some((words, _)) => words,
        None => text.trim_end_matches('\0'),
    };
    let _ = eprintln!(rt; "{what}: {words}");
}
