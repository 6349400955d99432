// The elements by their places: the search for a name, and one element more.
// (File and places go on as two: the reader asks for a known name while it still fills the places, so no `PolicyFile` stands yet.)
ghost use Rattle.std.specs.Prelude.{◌≡◌, ◌+◌, ◌≤◌, ◌<◌, length};
ghost use Rattle.meaning.specs.Text.{last_below, among_names};
ghost use Rattle.laws.specs.Found.{found};
ghost use Rattle.table.specs.Rows.{Rows, with_row};
ghost use Rattle.layout.specs.Places.{name_in, names_to, has_name, with_name, Named, NameAt};

use crate::ElementPlaces;
use table::Row;

// The place of the last element that has this name.
pub fn element_named(file: &[u8], places: &[ElementPlaces], n: usize, name: &[u8]) -> Option<usize>
    requires { Named file.now places.now n }
    ensures { result ≡ found (last_below (has_name file.now places.now name.now) n) }
{
    for i in (0..n).rev() {
        let end = places[i].name_end;
        if names::ends_otherwise(file, end, name) {
            continue;
        }
        let start = places[i].start + 4;
        if names::same_name(name, &file[start..end]) {
            return Some(i);
        }
    }
    None
}

// Whether an element has this name.
pub fn known_element(file: &[u8], places: &[ElementPlaces], n: usize, name: &[u8]) -> bool
    requires { Named file.now places.now n }
    ensures { result ≡ among_names name.now (names_to file.now places.now n) }
{
    element_named(file, places, n, name).is_some()
}

// The name of element i.
pub fn element_name<'a>(file: &'a [u8], places: &[ElementPlaces], i: usize) -> &'a [u8]
    requires { NameAt file.now places.now i }
    ensures result_value { result.now ≡ name_in file.now places.now i }
    ensures within { length result.now ≤ 16 }
{
    let start = places[i].start + 4;
    let end = places[i].name_end;
    &file[start..end]
}

// Puts an element's row into the table and its places beside it.
pub fn put_element(
    table: &mut [Row],
    places: &mut [ElementPlaces],
    i: usize,
    row: Row,
    start: usize,
    name_end: usize,
)
    requires { Rows table.old (i + 1) × (i < length places.old) }
    ensures table_after { table.new ≡ with_row table.old i row }
    ensures places_after { places.new ≡ with_name places.old i start name_end }
{
    table::put_row(table, i, row);
    places[i] = ElementPlaces {
        start,
        name_end,
        ..places[i]
    };
}
