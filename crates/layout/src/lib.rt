// How a file's attributes and elements lie: places in the file, the table of the elements, and what placing the next needs.
#![tactic(auto)]

mod element_places;
mod growing;
mod obligation_places;

ghost use Rattle.std.specs.Prelude.{◌≡◌, map, ◌-◌, ◌≤◌, ◌<◌, IfSome, not, eqb};
ghost use Rattle.meaning.specs.Text.{same_name, among_names};
ghost use Rattle.meaning.specs.Model.{choices_of};
ghost use Rattle.layout.specs.Places.{attribute_at, attributes_of, Standing, AllStanding, FewValues, sizes_of, values_in, severals_at, counts_at, no_attributes, added, place_named, obligation_place, count_at};

pub use element_places::{element_name, element_named, known_element, put_element};
pub use growing::{well_placed, with_element};
use meaning::Kind;
pub use obligation_places::{known_obligation, put_obligation};
use table::{Row, Shape};

// Where an attribute stands, and whether it may have several values in a request: the start of its name, of its first value, the end of its
// line; and its value count.
#[derive(Clone, Copy)]
pub struct AttributePlace {
    pub several: bool,
    pub name: usize,
    pub values: usize,
    pub end: usize,
    pub count: usize,
}

// The attributes so far, by their places. (An array and how many: what was read is copied out of the state, as an `ArrayVec` can't be.)
#[derive(Clone, Copy)]
pub struct Attributes {
    pub all: [AttributePlace; 6],
    pub len: usize,
}

// From where to where in a file.
#[derive(Clone, Copy)]
pub struct Span {
    pub start: usize,
    pub end: usize,
}

// Where an element stands in a file: the start of its line, the end of its name, and the names of its two obligations; one that ends at 0 is none: `Span::is_none` says so once, for code and contracts alike.
#[derive(Clone, Copy)]
pub struct ElementPlaces {
    pub start: usize,
    pub name_end: usize,
    pub first: Span,
    pub second: Span,
}

// The elements so far: how many, the last one's depth, and for each depth the kind of the nearest.
#[derive(Clone, Copy)]
pub struct Tree {
    pub len: usize,
    pub depth: usize,
    pub kinds: [Option<Kind>; 8],
}

// A policy file that was read: its bytes, where its elements and their obligations stand there, the table of the elements, and the policy's shape.
#[derive(Clone, Copy)]
pub struct PolicyFile<'a> {
    pub file: &'a [u8],
    pub places: &'a [ElementPlaces],
    pub table: &'a [Row],
    pub shape: Shape,
}

// How many choices an attribute of so many values has in the space: its values, or their non-empty sets.
pub fn choices(several: bool, values: usize) -> usize
    requires { values ≤ 16 }
    ensures { result ≡ choices_of several values }
{
    if several {
        return (1usize << values) - 1;
    }
    values
}

impl Attributes {
    // No attribute.
    pub fn none() -> Attributes
        ensures { result ≡ no_attributes }
    {
        let nowhere = AttributePlace {
            several: false,
            name: 0,
            values: 0,
            end: 0,
            count: 0,
        };
        Attributes {
            all: [nowhere; 6],
            len: 0,
        }
    }

    // One more behind them.
    pub fn push(&mut self, place: AttributePlace)
        requires { self.old.len < 6 }
        ensures { self.new ≡ added self.old place }
    {
        self.all[self.len] = place;
        self.len += 1;
    }

    // Whether each may have several values in a request.
    pub fn severals(&self) -> [bool; 6]
        ensures { result ≡ severals_at self.now }
    {
        self.all.map(|place| place.several)
    }

    // How many values each has.
    pub fn counts(&self) -> [usize; 6]
        ensures { result ≡ counts_at self.now }
    {
        self.all.map(|place| place.count)
    }

    // How many choices each has in the space; zeros behind the last.
    pub fn sizes(&self) -> [usize; 6]
        requires { (self.now.len ≤ 6) × FewValues self.now }
        ensures { result ≡ sizes_of self.now }
    {
        let mut sizes: [usize; 6] = [0; 6];
        for i in 0..self.len {
            sizes[i] = choices(self.all[i].several, self.all[i].count);
        }
        sizes
    }

    // The name of attribute i.
    pub fn name<'a>(&self, file: &'a [u8], i: usize) -> &'a [u8]
        requires { (i < 6) × Standing file.now self.now i }
        ensures { result.now ≡ (attribute_at file.now self.now i).name }
    {
        let start = self.all[i].name;
        let end = self.all[i].values - 1;
        &file[start..end]
    }

    // The values of attribute i, parted by tabs.
    pub fn values<'a>(&self, file: &'a [u8], i: usize) -> &'a [u8]
        requires { (i < 6) × Standing file.now self.now i }
        ensures { result.now ≡ values_in file.now self.now i }
    {
        &file[self.all[i].values..self.all[i].end]
    }
}

impl Span {
    const NONE: Span = Span { start: 0, end: 0 };

    // Whether it stands for no obligation.
    pub fn is_none(self) -> bool
        ensures { result ≡ eqb self.end 0 }
    {
        self.end == 0
    }
}

impl ElementPlaces {
    // Those of no element.
    pub const NONE: ElementPlaces = ElementPlaces {
        start: 0,
        name_end: 0,
        first: Span::NONE,
        second: Span::NONE,
    };

    // The name of the obligation at place k.
    pub fn obligation(self, k: usize) -> Span
        ensures { result ≡ obligation_place self k }
    {
        if k == 0 { self.first } else { self.second }
    }

    // Whether there are any obligations.
    pub fn has_obligations(self) -> bool
        ensures { result ≡ not (eqb self.first.end 0) }
    {
        !self.first.is_none()
    }

    // How many obligations there are.
    #[tactic(auto, unfolding(crate::specs::Places::count_at))]
    pub fn obligation_count(self) -> usize
        ensures value { result ≡ count_at self }
        ensures within { result ≤ 2 }
    {
        if self.first.is_none() {
            return 0;
        }
        if self.second.is_none() {
            return 1;
        }
        2
    }
}

// Whether attribute i has this name.
// (File and attributes go on as two, here and below: the reader asks while it still fills the attributes.)
pub fn has_name(file: &[u8], a: &Attributes, i: usize, name: &[u8]) -> bool
    requires { (i < 6) × Standing file.now a.now i }
    ensures { result ≡ same_name name.now (attribute_at file.now a.now i).name }
{
    names::same_name(name, a.name(file, i))
}

// The place of the first attribute that has this name.
pub fn attribute_named(file: &[u8], a: &Attributes, name: &[u8]) -> Option<usize>
    requires { AllStanding file.now a.now }
    ensures value { result ≡ place_named (attributes_of file.now a.now) name.now }
    ensures within { IfSome result (λ i. i < a.now.len) }
{
    for i in 0..a.len {
        if has_name(file, a, i, name) {
            return Some(i);
        }
    }
    None
}

// Whether an attribute has this name.
pub fn known_attribute(file: &[u8], a: &Attributes, name: &[u8]) -> bool
    requires { AllStanding file.now a.now }
    ensures { result ≡ among_names name.now (map (λ b. b.name) (attributes_of file.now a.now)) }
{
    attribute_named(file, a, name).is_some()
}
