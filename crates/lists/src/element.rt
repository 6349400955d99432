// One element by value, from where it and its obligations stand in a file and in the table.
// (File, table and places go on as reading filled them: a `PolicyFile` has the policy's shape besides, which nothing here looks at.)
ghost use Rattle.std.specs.Prelude.{◌≡◌, ◌+◌, ◌≤◌, ◌<◌, length};
ghost use Rattle.meaning.specs.Model.{padded};
ghost use Rattle.table.specs.Rows.{depth_of, Rows};
ghost use Rattle.layout.specs.Places.{kind_at, effect_at, element_in, NameAt, Obliged};
ghost use Rattle.lists.specs.Listed.{place_in};

use layout::ElementPlaces;
use meaning::{Element, Kind, Obligation, Word};
use table::Row;

// The kind of a line that starts with the byte.
pub fn kind_at(b: u8) -> Kind
    ensures { result ≡ kind_at b }
{
    match b {
        b'S' => Kind::Set,
        b'P' => Kind::Policy,
        _ => Kind::Rule,
    }
}

// A name, and zero bytes behind it.
fn padded_name(name: &[u8]) -> [u8; 16]
    requires { length name.now ≤ 16 }
    ensures { result ≡ padded 16 name.now }
{
    let mut all = [0u8; 16];
    all[..name.len()].copy_from_slice(name);
    all
}

// The effect that starts with the byte.
fn effect_at(b: u8) -> Word
    ensures { result ≡ effect_at b }
{
    match b {
        b'p' => Word::Permit,
        _ => Word::Deny,
    }
}

// What place k for an obligation of element i holds.
fn obligation_at(file: &[u8], places: &[ElementPlaces], i: usize, k: usize) -> Obligation
    requires { Obliged file.now places.now i × (k < 2) }
    ensures { result ≡ place_in file.now places.now i k }
{
    let at = places[i].obligation(k);
    if at.is_none() {
        return elements::unused();
    }
    let name = padded_name(&file[at.start..at.end]);
    let word = effect_at(file[at.end + 1]);
    Obligation {
        name,
        len: (at.end - at.start) as u8,
        word,
    }
}

// Element i.
pub(crate) fn element_at(file: &[u8], table: &[Row], places: &[ElementPlaces], i: usize) -> Element
    requires { NameAt file.now places.now i × Obliged file.now places.now i × Rows table.now (i + 1) × (depth_of table.now i ≤ 7) }
    ensures { result ≡ element_in file.now table.now places.now i }
{
    let line = places[i].start;
    let start = line + 4;
    let end = places[i].name_end;
    let kind = kind_at(file[line]);
    let name = padded_name(&file[start..end]);
    let word = table::word_at(table, i);
    let masks = table::masks_at(table, i);
    let first = obligation_at(file, places, i, 0);
    let second = obligation_at(file, places, i, 1);
    Element {
        kind,
        depth: table::depth_at(table, i) as u8,
        name,
        len: (end - start) as u8,
        word,
        masks,
        obligations: places[i].obligation_count() as u8,
        first,
        second,
    }
}
