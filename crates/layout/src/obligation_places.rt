// The obligations of the elements by their places.
// (File and places go on as two: the reader asks for a known name while it still fills the places, so no `PolicyFile` stands yet.)
ghost use Rattle.std.specs.Prelude.{◌≡◌, map, ◌<◌, length};
ghost use Rattle.meaning.specs.Text.{same_name, among_names};
ghost use Rattle.meaning.specs.Model.{obligation_name};
ghost use Rattle.layout.specs.Places.{part, obligation_start, obligation_end, obligations_in, with_obligation, Obliged};

use crate::{ElementPlaces, Span};

// Whether the obligation at place k of element i has this name.
fn has_obligation(file: &[u8], places: &[ElementPlaces], i: usize, k: usize, name: &[u8]) -> bool
    requires { Obliged file.now places.now i × (k < 2) }
    ensures { result ≡ same_name name.now (part file.now (obligation_start places.now i k) (obligation_end places.now i k)) }
{
    let at = places[i].obligation(k);
    names::same_name(name, &file[at.start..at.end])
}

// Whether an obligation of element i has this name.
pub fn known_obligation(file: &[u8], places: &[ElementPlaces], i: usize, name: &[u8]) -> bool
    requires { Obliged file.now places.now i }
    ensures { result ≡ among_names name.now (map obligation_name (obligations_in file.now places.now i)) }
{
    let count = places[i].obligation_count();
    if count == 0 {
        return false;
    }
    if has_obligation(file, places, i, 0, name) {
        return true;
    }
    if count == 1 {
        return false;
    }
    has_obligation(file, places, i, 1, name)
}

// Puts where the name of an obligation of element i stands, at its place k.
pub fn put_obligation(places: &mut [ElementPlaces], i: usize, k: usize, name: Span)
    requires { (i < length places.old) × (k < 2) }
    ensures { places.new ≡ with_obligation places.old i k name }
{
    if k == 0 {
        places[i].first = name;
    } else {
        places[i].second = name;
    }
}
