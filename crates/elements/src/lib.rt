// A list of elements by value, as many as a file may have and one more, which is refused; and a full mask.
#![tactic(auto)]

ghost use Rattle.std.specs.Prelude.{◌≡◌, ◌-◌, ◌^◌, ◌≤◌, ◌<◌};
ghost use Rattle.meaning.specs.Model.{unused};
ghost use Rattle.elements.specs.Listed.{no_elements, with_element, elements_of};

use meaning::{Element, Kind, Obligation, Word};

// The first `len` elements; the places behind them don't matter. An array and how many, without a heap; the definitions
// (`elements_of`) go over these two.
#[derive(Clone, Copy)]
pub struct Elements {
    pub all: [Element; 65],
    pub len: usize,
}

// A place for an obligation that holds none.
pub fn unused() -> Obligation
    ensures { result ≡ unused }
{
    Obligation {
        name: [0u8; 16],
        len: 0,
        word: Word::Permit,
    }
}

impl Elements {
    // No elements.
    pub fn none() -> Elements
        ensures { result ≡ no_elements }
    {
        let first = unused();
        let second = unused();
        let blank = Element {
            kind: Kind::Rule,
            depth: 0,
            name: [0u8; 16],
            len: 0,
            word: Word::Permit,
            masks: [0u16; 6],
            obligations: 0,
            first,
            second,
        };
        let all = [blank; 65];
        Elements { all, len: 0 }
    }

    // One element more.
    pub fn push(&mut self, e: Element)
        requires { self.old.len < 65 }
        ensures { self.new ≡ with_element self.old e }
    {
        self.all[self.len] = e;
        self.len += 1;
    }

    // The elements themselves, no more than there are places.
    pub fn as_slice(&self) -> &[Element]
        ensures { result.now ≡ elements_of self.now }
    {
        let count = self.len.min(65);
        &self.all[..count]
    }
}

// The mask of so many values, all of them.
pub fn full_mask(count: usize) -> u16
    requires { count ≤ 16 }
    ensures { result ≡ (2 ^ count) - 1 }
{
    ((1u32 << count) - 1) as u16
}
