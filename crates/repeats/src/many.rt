// Whether one of many fields stands twice, without comparing each with each: fields are passed from the last to the first, and one that has no mark among those passed is not among them.
ghost use Rattle.std.specs.Prelude.{◌≡◌, not, cond, [], ◌∷◌, ◌≤◌, length};
ghost use Rattle.meaning.specs.Text.{among_names, repeated, cut, tab};
ghost use Rattle.repeats.specs.Marks.{marked, with_mark, first_at, others_at, Kept, Caught, LastField, Passing};

use crate::{has, marks};
use marks::Marks;

// Where a field starts, and its hash.
#[derive(Clone, Copy)]
struct Hashed {
    start: usize,
    hash: usize,
}

// The field that ends at this place.
fn last_field(s: &[u8], end: usize) -> Hashed
    requires { (end ≤ length s.now) × (first_at s.now end ≡ []) }
    ensures { LastField s.now end result.start result.hash }
{
    let mut hash = 0;
    for i in (0..end).rev() {
        let b = s[i];
        if b == b'\t' {
            return Hashed { start: i + 1, hash };
        }
        hash = marks::hash_step(b, hash);
    }
    Hashed { start: 0, hash }
}

// Passes a hash: a suspect, if it was marked before.
fn suspect(passed: &mut Marks, suspects: &mut Marks, h: usize)
    ensures passed_after { passed.new.words ≡ with_mark passed.old.words h }
    ensures suspects_after { suspects.new.words ≡ cond (marked passed.old.words h) (with_mark suspects.old.words h) suspects.old.words }
{
    if passed.note(h) {
        suspects.mark(h);
    }
}

// Marks every field that stands again behind, and few others.
fn mark_suspects(fields: &[u8], suspects: &mut Marks)
    requires { length suspects.old.words ≡ 256 }
    ensures { Caught suspects.new.words (cut tab fields.now) }
{
    let mut passed = Marks::NONE;
    let mut end = fields.len();
    loop {
        let last = last_field(fields, end);
        suspect(&mut passed, suspects, last.hash);
        if last.start == 0 {
            return;
        }
        end = last.start - 1;
    }
}

// Whether the field that starts here stands again behind.
fn stands_again(fields: &[u8], at: usize) -> bool
    requires { at ≤ length fields.now }
    ensures { result ≡ among_names (first_at fields.now at) (others_at fields.now at) }
{
    let e = text::end_of(fields, at, b'\t');
    if e == fields.len() {
        return false;
    }
    let next = e + 1;
    has(&fields[next..], &fields[at..e])
}

// The same of a field that is passed: looked for only if it is a suspect, and is marked among the suspects passed.
fn passes_again(fields: &[u8], at: usize, h: usize, suspects: &Marks, passed: &mut Marks) -> bool
    requires { Passing fields.now at h suspects.now.words passed.old.words }
    ensures value { result ≡ among_names (first_at fields.now at) (others_at fields.now at) }
    ensures kept { Kept (marked suspects.now.words) passed.new.words (first_at fields.now at ∷ others_at fields.now at) }
{
    if !suspects.marked(h) {
        return false;
    }
    if !passed.note(h) {
        return false;
    }
    stands_again(fields, at)
}

// Whether no suspect stands again behind.
fn none_again(fields: &[u8], suspects: &Marks) -> bool
    requires { Caught suspects.now.words (cut tab fields.now) }
    ensures { result ≡ not (repeated (cut tab fields.now)) }
{
    let mut passed = Marks::NONE;
    let mut end = fields.len();
    loop {
        let last = last_field(fields, end);
        let start = last.start;
        if passes_again(fields, start, last.hash, suspects, &mut passed) {
            return false;
        }
        if start == 0 {
            return true;
        }
        end = start - 1;
    }
}

// Whether no field stands twice.
pub fn many_distinct(fields: &[u8]) -> bool
    ensures { result ≡ not (repeated (cut tab fields.now)) }
{
    let mut suspects = Marks::NONE;
    mark_suspects(fields, &mut suspects);
    none_again(fields, &suspects)
}
