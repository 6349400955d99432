// Lists for the writer, as tests/reference/make_lists.c stores them in a file.
ghost use Rattle.std.specs.Prelude.{◌≤◌, ◌<◌};

use crate::lending;
use meaning::{Element, Obligation, Word};
use std::io;
use std::io::Read;

// A number of two bytes, the higher first, as make_lists.c stores it.
fn pair(high: u8, low: u8) -> usize
    ensures { result < 65536 }
{
    usize::from(u16::from_be_bytes([high, low]))
}

// The numbers are the file's, as make_lists.c stores them: `table` has its own, which may change apart from them.
fn word_of(number: u8) -> Word {
    match number {
        0 => Word::Permit,
        1 => Word::Deny,
        2 => Word::DenyOverrides,
        3 => Word::PermitOverrides,
        4 => Word::FirstApplicable,
        _ => Word::OnlyOneApplicable,
    }
}

// The 16 bytes from a place on.
fn name_of(bytes: &[u8; 69], at: usize) -> [u8; 16]
    requires { at ≤ 51 }
{
    let mut name = [0u8; 16];
    name.copy_from_slice(&bytes[at..at + 16]);
    name
}

fn masks_of(bytes: &[u8; 69]) -> [u16; 6] {
    let mut masks = [0u16; 6];
    for i in 0..6 {
        masks[i] = pair(bytes[20 + 2 * i], bytes[21 + 2 * i]) as u16;
    }
    masks
}

// A place for an obligation: name, the name's length, word.
fn obligation_of(bytes: &[u8; 69], at: usize) -> Obligation
    requires { at ≤ 51 }
{
    let name = name_of(bytes, at);
    let word = word_of(bytes[at + 17]);
    Obligation {
        name,
        len: bytes[at + 16],
        word,
    }
}

// The next element of a file: kind, depth, name, the name's length, word, masks, the count of obligations, and two places.
fn read_element<R: Read>(source: &mut R) -> Element {
    let mut bytes = [0u8; 69];
    input::read_all(source, &mut bytes);
    let kind = lists::kind_at(bytes[0]);
    let name = name_of(&bytes, 2);
    let word = word_of(bytes[19]);
    let masks = masks_of(&bytes);
    let first = obligation_of(&bytes, 33);
    let second = obligation_of(&bytes, 51);
    Element {
        kind,
        depth: bytes[1],
        name,
        len: bytes[18],
        word,
        masks,
        obligations: bytes[32],
        first,
        second,
    }
}

// The next elements of a file, as many as the list has places.
fn read_elements<R: Read>(source: &mut R, list: &mut [Element]) {
    for place in list {
        *place = read_element(source);
    }
}

// What a lent buffer holds at first.
fn pattern() -> [u8; 65536] {
    let mut out = [0u8; 65536];
    for i in 0..65536 {
        out[i] = (i % 251) as u8;
    }
    out
}

// A sum over bytes that tells their order too.
fn sum(bytes: &[u8]) -> u64 {
    let mut total: u64 = 0;
    for b in bytes {
        total = mixed(total, *b);
    }
    total
}

fn mixed(total: u64, b: u8) -> u64
    requires { total < 4294967291 }
    ensures { result < 4294967291 }
{
    (257 * total + b as u64 + 1) % 4294967291
}

// Writes a list, and prints the answer and the sum of the buffer.
fn print_written<P: Print>(
    rt: &P,
    header: &[u8],
    list: &[Element],
    out: &mut [u8],
) -> io::Result<()> {
    let answer = lists::write_list(header, list, out);
    let number = answer.number;
    let second = answer.second;
    let total = sum(out);
    println!(rt; "{number}\t{second}\t{total}")
}

// The next list of a file.
fn print_list<P: Print, R: Read>(rt: &P, source: &mut R) -> io::Result<()> {
    let mut sizes = [0u8; 6];
    input::read_all(source, &mut sizes);
    let lines = pair(sizes[0], sizes[1]);
    let room = pair(sizes[2], sizes[3]);
    let n = pair(sizes[4], sizes[5]);
    if 66 < n {
        return Ok(());
    }
    let mut header = [0u8; 65536];
    input::read_all(source, &mut header[..lines]);
    let mut places = lending::blanks();
    read_elements(source, &mut places[..n]);
    let mut out = pattern();
    print_written(rt, &header[..lines], &places[..n], &mut out[..room])
}

// Every list of a file.
pub(crate) fn print_lists<P: Print, R: Read>(rt: &P, source: &mut R) -> io::Result<()> {
    let mut sizes = [0u8; 2];
    input::read_all(source, &mut sizes);
    for _ in 0..pair(sizes[0], sizes[1]) {
        print_list(rt, source)?;
    }
    Ok(())
}
