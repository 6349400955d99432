// What the single fields of a line stand for.
#![tactic(auto)]

ghost use Rattle.std.specs.Prelude.{◌≡◌, [], ◌∷◌, map, ◌≤◌, length, IfSome};
ghost use Rattle.meaning.specs.Text.{same, cut, tab, comma};
ghost use Rattle.meaning.specs.Reading.{depth_of, word_of, mask_of, target_of};
ghost use Rattle.laws.specs.Found.{found};
ghost use Rattle.syntax.specs.Fields.{spelt, line_kind};

use meaning::{Kind, Word};

// A line by its first field; an attribute line with whether its attribute takes several values in a request.
#[derive(Clone, Copy)]
pub enum LineKind {
    Attribute(bool),
    Tree(Kind),
    Obligation,
    Other,
}

// A line by its letter.
fn letter_kind(letter: u8) -> LineKind
    ensures { result ≡ line_kind (letter ∷ []) }
{
    match letter {
        b'R' => LineKind::Tree(Kind::Rule),
        b'P' => LineKind::Tree(Kind::Policy),
        b'S' => LineKind::Tree(Kind::Set),
        b'A' => LineKind::Attribute(false),
        b'M' => LineKind::Attribute(true),
        b'O' => LineKind::Obligation,
        _ => LineKind::Other,
    }
}

pub fn line_kind(first: &[u8]) -> LineKind
    ensures { result ≡ line_kind first.now }
{
    if first.len() != 1 {
        return LineKind::Other;
    }
    letter_kind(first[0])
}

// The depth that a field stands for; 8 where it is not one digit 0 to 7. A number, since the definition gives that number too, and
// every depth above 7 is refused alike.
pub fn depth_of(f: &[u8]) -> usize
    ensures value { result ≡ depth_of f.now }
    ensures within { result ≤ 8 }
{
    if f.len() != 1 {
        return 8;
    }
    let b = f[0];
    if b < b'0' {
        return 8;
    }
    if b'7' < b {
        return 8;
    }
    (b - b'0') as usize
}

// The effect that a rule's word names. Words are byte strings here, the form that docs/DECISIONS.md names, and this function and
// the next differ in nothing else.
fn effect_of(w: &[u8]) -> Option<Word>
    ensures { result ≡ found (word_of Kind.Rule w.now) }
{
    if comparing::same(b"permit", w) {
        return Some(Word::Permit);
    }
    if comparing::same(b"deny", w) {
        return Some(Word::Deny);
    }
    None
}

// The algorithm that a set's word names.
fn algorithm_of(w: &[u8]) -> Option<Word>
    ensures { result ≡ found (word_of Kind.Set w.now) }
{
    if comparing::same(b"deny-overrides", w) {
        return Some(Word::DenyOverrides);
    }
    if comparing::same(b"permit-overrides", w) {
        return Some(Word::PermitOverrides);
    }
    if comparing::same(b"first-applicable", w) {
        return Some(Word::FirstApplicable);
    }
    if comparing::same(b"only-one-applicable", w) {
        return Some(Word::OnlyOneApplicable);
    }
    None
}

// The word that a field names, if its kind may have it.
pub fn word_of(kind: Kind, w: &[u8]) -> Option<Word>
    ensures { result ≡ found (word_of kind w.now) }
{
    match kind {
        Kind::Rule => effect_of(w),
        Kind::Set => algorithm_of(w),
        Kind::Policy => match algorithm_of(w) {
            // only-one-applicable is for sets
            Some(Word::OnlyOneApplicable) => None,
            word => word,
        },
    }
}

// Whether two names are equal: to the byte, or letter case aside.
// (A flag, and no test that is lent: contracts speak of `spelt exact`, and would have to say of any test what it makes of two names.)
fn equal(exact: bool, a: &[u8], b: &[u8]) -> bool
    ensures { result ≡ same (spelt exact a.now) (spelt exact b.now) }
{
    if exact {
        return comparing::same(a, b);
    }
    names::same_name(a, b)
}

// The mask of the names in `field`, matched along the values once; none where they are not values in declared order, each once.
// A target spells them to the byte, a request's set letter case aside.
pub fn names_mask(values: &[u8], field: &[u8], exact: bool) -> Option<u16>
    requires { length (cut tab values.now) ≤ 16 }
    ensures value { result ≡ found (mask_of (map (spelt exact) (cut tab values.now)) (map (spelt exact) (cut comma field.now))) }
    ensures some_bit { IfSome result (λ mask. 1 ≤ mask) }
{
    let mut at = 0;
    let mut name = 0;
    let mut end = text::end_of(field, 0, b',');
    let mut bit: u32 = 1;
    let mut taken: u32 = 0;
    loop {
        let e = text::end_of(values, at, b'\t');
        if equal(exact, &values[at..e], &field[name..end]) {
            taken += bit;
            if end == field.len() {
                return Some(taken as u16);
            }
            // the field's next name may be long: it is looked for only where a value is left
            if e == values.len() {
                return None;
            }
            name = end + 1;
            end = text::end_of(field, name, b',');
        } else if e == values.len() {
            return None;
        }
        at = e + 1;
        bit *= 2;
    }
}

// The mask of a target field of an attribute with n values, their names parted by tabs; none where the target is bad.
// (The full mask is `elements::full_mask` too: one line, and no crate with code stands below both.)
pub fn target_mask(values: &[u8], n: usize, field: &[u8]) -> Option<u16>
    requires { (n ≡ length (cut tab values.now)) × (n ≤ 16) }
    ensures { result ≡ found (target_of (cut tab values.now) field.now) }
{
    let full = ((1u32 << n) - 1) as u16;
    if comparing::same(field, b"*") {
        return Some(full);
    }
    names_mask(values, field, true).filter(|mask| *mask != full)
}
