// The attributes of two files that are to be joined: which differ, and where each file has those of the joined file.
#![tactic(auto)]

ghost use Rattle.std.specs.Prelude.{◌≡◌, ◌+◌, ◌≤◌, ◌<◌, set, IfSome};
ghost use Rattle.meaning.specs.Text.{any};
ghost use Rattle.meaning.specs.Joining.{both, differs, first_differing, place_in};
ghost use Rattle.laws.specs.Found.{found};
ghost use Rattle.layout.specs.Places.{attribute_at, attributes_of, Standing, AllStanding};
ghost use Rattle.joined_attributes.specs.Placing.{listed, places_in};

use layout::Attributes;

// One of two files that are to be joined: where its attributes stand in it, and where the lines behind theirs start.
#[derive(Clone, Copy)]
pub struct Part<'a> {
    pub file: &'a [u8],
    pub attributes: Attributes,
    pub from: usize,
}

// For each attribute of the joined file its place among those of one file, or their count where that file lacks it; zeros behind the last. An
// array and a length, without a heap; the definition `listed` goes over these two.
#[derive(Clone, Copy)]
pub struct Placing {
    pub places: [usize; 12],
    pub len: usize,
}

// Whether attribute j of the second file differs from attribute i of the first, which has an equal name.
fn differ(first: &Part, i: usize, second: &Part, j: usize) -> bool
    requires { (i < 6) × Standing first.now.file.now first.now.attributes i × (j < 6) × Standing second.now.file.now second.now.attributes j }
    ensures { result ≡ differs (attribute_at second.now.file.now second.now.attributes j) (attribute_at first.now.file.now first.now.attributes i) }
{
    let a = &first.attributes;
    let b = &second.attributes;
    if !layout::has_name(first.file, a, i, b.name(second.file, j)) {
        return false;
    }
    let other = b.all[j];
    if a.all[i].several != other.several {
        return true;
    }
    !comparing::same(b.values(second.file, j), a.values(first.file, i))
}

// Whether attribute j of the second file differs from one of the first.
fn differ_any(first: &Part, second: &Part, j: usize) -> bool
    requires { AllStanding first.now.file.now first.now.attributes × (j < 6) × Standing second.now.file.now second.now.attributes j }
    ensures { result ≡ any (differs (attribute_at second.now.file.now second.now.attributes j)) (attributes_of first.now.file.now first.now.attributes) }
{
    for i in 0..first.attributes.len {
        if differ(first, i, second, j) {
            return true;
        }
    }
    false
}

// The line, from 1, of the second file's first attribute that differs from one of the first.
pub fn first_differing(first: &Part, second: &Part) -> Option<usize>
    requires { AllStanding first.now.file.now first.now.attributes × AllStanding second.now.file.now second.now.attributes }
    ensures value { result ≡ found (first_differing (attributes_of first.now.file.now first.now.attributes) 1 (attributes_of second.now.file.now second.now.attributes)) }
    ensures within { IfSome result (λ line. line ≤ 6) }
{
    for j in 0..second.attributes.len {
        if differ_any(first, second, j) {
            return Some(j + 1);
        }
    }
    None
}

// One place more.
fn put_place(p: &mut Placing, place: usize)
    requires { p.old.len < 12 }
    ensures { p.new ≡ record { places = set p.old.places p.old.len place; len = p.old.len + 1 } }
{
    p.places[p.len] = place;
    p.len += 1;
}

// The place of the attribute of this name among those of a file, or their count: a number, since the definition `place_in` gives that
// number too.
fn place_in(own: &Part, name: &[u8]) -> usize
    requires { AllStanding own.now.file.now own.now.attributes }
    ensures { result ≡ place_in (attributes_of own.now.file.now own.now.attributes) name.now }
{
    layout::attribute_named(own.file, &own.attributes, name).unwrap_or(own.attributes.len)
}

// Where the attributes of the first file stand among those of a file.
fn of_first(first: &Part, own: &Part) -> Placing
    requires { AllStanding first.now.file.now first.now.attributes × AllStanding own.now.file.now own.now.attributes }
    ensures { result ≡ listed (places_in (attributes_of own.now.file.now own.now.attributes) (attributes_of first.now.file.now first.now.attributes)) }
{
    let a = &first.attributes;
    let mut p = Placing {
        places: [0; 12],
        len: 0,
    };
    for i in 0..a.len {
        put_place(&mut p, place_in(own, a.name(first.file, i)));
    }
    p
}

// Where all attributes of the joined file stand among those of a file, which is one of the two.
pub fn places_in<'a>(first: &Part<'a>, second: &Part<'a>, own: &Part<'a>) -> Placing
    requires { AllStanding first.now.file.now first.now.attributes × AllStanding second.now.file.now second.now.attributes × AllStanding own.now.file.now own.now.attributes }
    ensures value { result ≡ listed (places_in (attributes_of own.now.file.now own.now.attributes) (both (attributes_of first.now.file.now first.now.attributes) (attributes_of second.now.file.now second.now.attributes))) }
    ensures within { result.len ≤ 12 }
{
    let b = &second.attributes;
    let mut p = of_first(first, own);
    for j in 0..b.len {
        let name = b.name(second.file, j);
        if layout::known_attribute(first.file, &first.attributes, name) {
            continue;
        }
        put_place(&mut p, place_in(own, name));
    }
    p
}
