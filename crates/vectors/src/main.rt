// Prints what the program prints of each file that the arguments name, behind the file's name. An accepted file is read into elements and written again, and each of its requests is stepped to; a line says so if other bytes or decisions come out. Of the file `lists` it prints what the writer answers for each of its lists.
#![tactic(auto, using(reader::proofs::FileRead::unread))]

mod encoded;
mod lending;
mod stepping;

ghost use Rattle.std.specs.Prelude.{◌≤◌, length};

use failures::fail;
use std::env::FillError;
use std::io::Read;
use std::rt::{Env, Files};
use std::{fs, io, str};

// The system's number for a name that is too long.
const NAME_TOO_LONG: i32 = 36;

// Whether a line that starts with this byte is an attribute line.
fn is_attribute(first: u8) -> bool {
    first == b'A' || first == b'M'
}

// Where the attribute lines end: at the first line that is none.
fn attribute_lines_end(file: &[u8]) -> usize
    ensures { result ≤ length file.now }
{
    let mut at = 0;
    while at < file.len() {
        if !is_attribute(file[at]) {
            return at;
        }
        let end = text::end_of(file, at, b'\n');
        if end == file.len() {
            return at;
        }
        at = end + 1;
    }
    at
}

// Whether a file comes out of the writer as it went into the reader; refused ones count.
fn written_again(file: &[u8]) -> bool {
    let n = match lists::read_elements(file, 64) {
        Ok(elements) => elements.len,
        Err(_) => return true,
    };
    let all = lending::listed(file);
    let header = attribute_lines_end(file);
    let mut out = [0u8; 16384];
    let written = lists::write_list(&file[..header], &all[..n], &mut out);
    if written.number != 0 {
        return false;
    }
    let length = written.second as usize;
    if 16384 < length {
        return false;
    }
    comparing::same(file, &out[..length])
}

// What is to be printed of a policy file.
fn print_report<P: Print, R: Read>(rt: &P, source: &mut R) -> io::Result<()> {
    let mut file = [0u8; 16385];
    let n = input::read_all(source, &mut file).length;
    let mut out = [0u8; 65536];
    let printed = program::print(&file[..n], &mut out);
    rt.write_all(&out[..printed])?;
    if !written_again(&file[..n]) {
        rt.write_all(b"written otherwise\n")?;
    }
    if !stepping::stepped(&file[..n], &out[..printed]) {
        rt.write_all(b"stepped otherwise\n")?;
    }
    Ok(())
}

// A file's name, and what is to be printed of it.
fn print_file<R: Files + Print + Eprint>(rt: &R, name: &str) -> io::Result<()> {
    let mut file = match fs::open(rt, name) {
        Ok(file) => file,
        Err(failure) => {
            fail(rt, name, &failure);
            return Ok(());
        }
    };
    println!(rt; "{name}")?;
    if comparing::same(name.as_bytes(), b"lists") {
        encoded::print_lists(rt, &mut file)
    } else {
        print_report(rt, &mut file)
    }
}

// The same of an argument, where it is a name that a file can have.
fn print_argument<R: Files + Print + Eprint>(rt: &R, argument: &[u8]) -> io::Result<()> {
    match str::from_utf8(argument) {
        Ok(name) => print_file(rt, name),
        Err(_) => {
            fail(
                rt,
                "argument",
                &io::Error::from(io::ErrorKind::InvalidFilename),
            );
            Ok(())
        }
    }
}

fn main(rt: HostRuntime) -> io::Result<()> {
    for i in 1..usize::MAX {
        let mut argument = [0u8; 4096];
        match rt.arg(i, &mut argument) {
            Ok(n) => print_argument(&rt, &argument[..n])?,
            Err(FillError::TooLong) => {
                fail(
                    &rt,
                    "argument",
                    &io::Error::from_raw_os_error(NAME_TOO_LONG),
                );
            }
            Err(FillError::NotPresent) => break,
        }
    }
    Ok(())
}
