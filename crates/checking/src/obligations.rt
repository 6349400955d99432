// The tests of an element's two places for obligations, and of the obligations in them.
ghost use Rattle.std.specs.Prelude.{◌≡◌, map, ◌≤◌};
ghost use Rattle.meaning.specs.Text.{among_names};
ghost use Rattle.meaning.specs.Model.{obligation_name, word_text};
ghost use Rattle.meaning.specs.Reading.{Sofar, lowest, other_content, bad_unused, may_have_obligations, obligation_tests};
ghost use Rattle.meaning.specs.Claims.Texts.{All};
ghost use Rattle.refusals.specs.Numbers.{number_in};
ghost use Rattle.checking.specs.Tested.{carrying, listed, obligations_read, CheckedAs};

use crate::parts;
use meaning::{Element, Kind, Obligation, Word};
use refusals::{Refusal, Refused};

// Whether a place for an obligation holds something.
fn other_content(place: Obligation) -> bool
    ensures { result ≡ other_content place }
{
    if place.len != 0 {
        return true;
    }
    if parts::non_zero(&place.name) {
        return true;
    }
    place.word != Word::Permit
}

// 3: whether a place from the count on holds something.
pub(crate) fn bad_unused(e: Element) -> bool
    ensures { result ≡ bad_unused e }
{
    let places = [e.first, e.second];
    let used = e.obligations as usize;
    places.iter().skip(used).any(|place| other_content(*place))
}

// 4: whether the obligation before has the same name.
fn known(before: Option<Obligation>, o: Obligation) -> bool
    requires { All (λ other. other.len ≤ 16) (listed before) × (o.len ≤ 16) }
    ensures { result ≡ among_names (obligation_name o) (map obligation_name (listed before)) }
{
    match before {
        Some(other) => parts::same_stored(o.name, o.len, other.name, other.len),
        None => false,
    }
}

// 14: whether an element of this kind may have obligations.
fn may_have(kind: Kind) -> bool
    ensures { result ≡ may_have_obligations kind }
{
    kind != Kind::Rule
}

// The first of 3, 4, 14 and 7 that refuses the obligation o behind the one before.
fn test_obligation(kind: Kind, before: Option<Obligation>, o: Obligation) -> Result<(), Refusal>
    requires { All (λ other. other.len ≤ 16) (listed before) }
    ensures { number_in result ≡ lowest (obligation_tests (carrying kind (listed before)) (word_text o.word) o) }
{
    if parts::bad_stored(o.name, o.len) {
        return Err(Refusal::BadName);
    }
    if known(before, o) {
        return Err(Refusal::KnownName);
    }
    if !may_have(kind) {
        return Err(Refusal::NoObligation);
    }
    if !parts::word_fits(Kind::Rule, o.word) {
        return Err(Refusal::BadWord);
    }
    Ok(())
}

// Tests the obligations of the element on a line, on the lines behind it; the third is refused.
pub(crate) fn check_obligations(e: Element, line: u32) -> Result<(), Refused>
    requires { line ≤ 196 }
    ensures { (s : Sofar) → CheckedAs result (obligations_read line s e) }
{
    let first = e.first;
    if e.obligations == 0 {
        return Ok(());
    }
    parts::on_line(test_obligation(e.kind, None, first), line + 1)?;
    if e.obligations == 1 {
        return Ok(());
    }
    parts::on_line(test_obligation(e.kind, Some(first), e.second), line + 2)?;
    if e.obligations == 2 {
        return Ok(());
    }
    Err(Refused {
        why: Refusal::NoObligation,
        second: line + 3,
    })
}
