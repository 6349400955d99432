// Lists of elements that the caller lends: a file read into one, and one written as a file.
#![tactic(auto, using(reader::proofs::FileRead::unread))]

mod element;

ghost use Rattle.std.specs.Prelude.{◌≡◌, ◌++◌, reverse, ◌≤◌, ◌<◌, length, drop};
ghost use Rattle.meaning.specs.Operations.{read_answer, read_lent, write_answer, write_lent};
ghost use Rattle.meaning.specs.Claims.Texts.{All};
ghost use Rattle.meaning.specs.Claims.Writing.{Shaped};
ghost use Rattle.layout.specs.Places.{elements_to};
ghost use Rattle.elements.specs.Listed.{elements_of};
ghost use Rattle.lists.specs.Listed.{Filled, Listed};

pub use element::kind_at;
use elements::Elements;
use layout::ElementPlaces;
use meaning::{Answer, Element};
use refusals::{Refusal, Refused};
use table::Row;

// The elements of a file that was read.
fn all_elements(file: &[u8], table: &[Row], places: &[ElementPlaces], n: usize) -> Elements
    requires { Filled file.now table.now places.now n }
    ensures { (elements_of result ≡ reverse (elements_to file.now table.now places.now n)) × (result.len ≡ n) }
{
    let mut all = Elements::none();
    for i in 0..n {
        all.push(element::element_at(file, table, places, i));
    }
    all
}

// Reads a file for a list of `room` places: its elements by value, or the refusal.
pub fn read_elements(file: &[u8], room: usize) -> Result<Elements, Refused>
    ensures { Listed file.now room result }
{
    let mut table = [Row::NONE; 64];
    let mut places = [ElementPlaces::NONE; 64];
    let n = reader::read(file, &mut table, &mut places)?.elements;
    if room < n {
        return Err(Refused {
            why: Refusal::ShortList,
            second: n as u32,
        });
    }
    Ok(all_elements(file, &table, &places, n))
}

// The elements go to the start of the list; the places behind them are as they were.
fn fill(list: &mut [Element], elements: &[Element])
    requires { length elements.now ≤ length list.old }
    ensures { list.new ≡ elements.now ++ drop (length elements.now) list.old }
{
    list[..elements.len()].copy_from_slice(elements);
}

// Reads a policy file into a list. A refusal, also of a list that is too short, leaves the list as it was.
pub fn read_list(file: &[u8], list: &mut [Element]) -> Answer
    ensures { (result ≡ read_answer file.now list.old) × (list.new ≡ read_lent file.now list.old) }
{
    match read_elements(file, list.len()) {
        Ok(elements) => {
            fill(list, elements.as_slice());
            Answer {
                number: 0,
                second: elements.len as u32,
            }
        }
        Err(refused) => refused.into(),
    }
}

// Writes the file of some attribute lines and a list into a buffer. A refusal leaves the buffer as it was. The last part is what the elements' type says: 16 name bytes, six masks and 16 name bytes in each place.
pub fn write_list(header: &[u8], list: &[Element], out: &mut [u8]) -> Answer
    ensures { (result ≡ write_answer header.now list.now out.old) × (out.new ≡ write_lent header.now list.now out.old) × (result.number ≡ 0 → All Shaped list.now) }
{
    writing::write(header, list, out)
}
