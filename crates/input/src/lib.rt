// Reading to the end of the input, or until the buffer is full, with the failure where a read fails.
#![tactic(auto)]

ghost use Rattle.std.specs.Prelude.{◌≡◌, ◌≤◌, ◌<◌, length, take, IsNone};
ghost use Rattle.std.specs.Io.KnownBytes.{Consumes, IsAtEnd};

use std::io;
use std::io::Read;

// How many bytes were read, and the failure behind them, if a read failed: no Result, as the bytes before a failure count too.
#[derive(Clone, Copy)]
pub struct Input {
    pub length: usize,
    pub failure: Option<io::Error>,
}

// Reads until nothing more comes.
pub fn read_all<R: Read>(reader: &mut R, file: &mut [u8]) -> Input
    ensures within { result.length ≤ length file.old }
    ensures bytes { Consumes (R.remaining reader.old) (R.remaining reader.new) (take result.length file.new) }
    ensures end { IsNone result.failure → result.length < length file.old → IsAtEnd (R.remaining reader.new) }
{
    let mut done = 0;
    while done < file.len() {
        match reader.read(&mut file[done..]) {
            Ok(0) => break,
            Ok(more) => done += more,
            Err(failure) => {
                return Input {
                    length: done,
                    failure: Some(failure),
                };
            }
        }
    }
    Input {
        length: done,
        failure: None,
    }
}
