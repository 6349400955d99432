// The obligations that come with a decision, as text: names with a newline after each, by the marks that `chains` lays down.
#![tactic(auto)]

ghost use Rattle.std.specs.Prelude.{◌≡◌, ◌+◌, ◌≤◌, ◌<◌, ◌^◌, length};
ghost use Rattle.meaning.specs.Text.{same};
ghost use Rattle.meaning.specs.Model.{word_text, decision_text};
ghost use Rattle.layout.specs.Places.{effect_at, obligations_in, Obliged};
ghost use Rattle.printing.specs.Puts.{Puts};
ghost use Rattle.obligations.specs.Given.{spelling, slot_text, given_text, effect, marks_in, any_obliged, Giving};

use layout::ElementPlaces;
use printing::Sink;

// Whether the effect that starts with this byte is the one that permits, or the one that denies.
fn spells(byte: u8, permit: bool) -> bool
    ensures { result ≡ same (word_text (effect_at byte)) (decision_text (effect permit)) }
{
    if byte == 112 {
        return permit;
    }
    !permit
}

// A word of 64 requests for each of n elements, whose obligations lie in a file: bit v marks those that come with request v.
#[derive(Clone, Copy)]
pub struct Marks<'a> {
    pub file: &'a [u8],
    pub places: &'a [ElementPlaces],
    pub n: usize,
    pub words: &'a [u64],
}

impl<'a> Marks<'a> {
    // Stores the name in place k of element i's obligations, if there is one and its effect is that one.
    fn put_obligation(&self, i: usize, k: usize, permit: bool, sink: &mut Sink)
        requires { Obliged self.now.file.now self.now.places.now i × (k < 2) × (sink.old.at + 17 < 2 ^ 64) }
        ensures { Puts sink.old (slot_text (effect permit) self.now.file.now self.now.places.now i k) sink.new × (sink.new.at ≤ sink.old.at + 17) }
    {
        let name = self.places[i].obligation(k);
        if name.is_none() {
            return;
        }
        if !spells(self.file[name.end + 1], permit) {
            return;
        }
        sink.put_field(&self.file[name.start..name.end], 10);
    }

    // Stores those of element i.
    fn put_own(&self, i: usize, permit: bool, sink: &mut Sink)
        requires { Obliged self.now.file.now self.now.places.now i × (sink.old.at + 34 < 2 ^ 64) }
        ensures { Puts sink.old (spelling (effect permit) (obligations_in self.now.file.now self.now.places.now i)) sink.new × (sink.new.at ≤ sink.old.at + 34) }
    {
        self.put_obligation(i, 0, permit, sink);
        self.put_obligation(i, 1, permit, sink);
    }

    // Stores the obligations of the elements in whose word bit v is set.
    pub fn put(&self, v: usize, permit: bool, sink: &mut Sink)
        requires { Giving self.now.file.now self.now.places.now self.now.words.now self.now.n v × (sink.old.at + 2176 < 2 ^ 64) }
        ensures { Puts sink.old (given_text (effect permit) (marks_in self.now.words.now v) self.now.file.now self.now.places.now self.now.n) sink.new × (sink.new.at ≤ sink.old.at + 2176) }
    {
        for i in 0..self.n {
            if (self.words[i] >> v) % 2 == 1 {
                self.put_own(i, permit, sink);
            }
        }
    }

    // Whether two such texts, of two files or of one, are the same bytes: both are laid down and compared.
    pub fn same(&self, other: &Marks, v: usize, permit: bool) -> bool
        requires { Giving self.now.file.now self.now.places.now self.now.words.now self.now.n v × Giving other.now.file.now other.now.places.now other.now.words.now other.now.n v }
        ensures { result ≡ same (given_text (effect permit) (marks_in self.now.words.now v) self.now.file.now self.now.places.now self.now.n) (given_text (effect permit) (marks_in other.now.words.now v) other.now.file.now other.now.places.now other.now.n) }
    {
        let mut one = [0u8; 2176];
        let mut two = [0u8; 2176];
        let mut sink = Sink {
            out: &mut one,
            at: 0,
        };
        self.put(v, permit, &mut sink);
        let end = sink.at;
        let mut other_sink = Sink {
            out: &mut two,
            at: 0,
        };
        other.put(v, permit, &mut other_sink);
        let other_end = other_sink.at;
        comparing::same(&one[0..end], &two[0..other_end])
    }
}

// Whether one of n elements has obligations.
pub fn any_obligations(places: &[ElementPlaces], n: usize) -> bool
    requires { n ≤ length places.now }
    ensures { result ≡ any_obliged places.now n }
{
    for i in (0..n).rev() {
        if places[i].has_obligations() {
            return true;
        }
    }
    false
}
