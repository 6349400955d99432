// What elements and obligations have in common: a stored name and a word.
ghost use Rattle.std.specs.Prelude.{◌≡◌, not, ◌≤◌, take, IsErr};
ghost use Rattle.meaning.specs.Text.{is_none, same_name};
ghost use Rattle.meaning.specs.Model.{word_text};
ghost use Rattle.meaning.specs.Reading.{word_of, non_zero, bad_stored};
ghost use Rattle.refusals.specs.Numbers.{number_in};
ghost use Rattle.checking.specs.Tested.{number_told, line_told};

use meaning::{Kind, Word};
use refusals::{Refusal, Refused};

// Whether a number is not zero.
pub(crate) fn non_zero(bytes: &[u8]) -> bool
    ensures { result ≡ non_zero bytes.now }
{
    bytes.iter().any(|b| *b != 0)
}

// 3: whether the length or the name is bad, or a byte behind the name is not zero.
pub(crate) fn bad_stored(name: [u8; 16], stored: u8) -> bool
    ensures { result ≡ bad_stored stored name }
{
    let len = stored as usize;
    if len < 1 {
        return true;
    }
    if 16 < len {
        return true;
    }
    if !names::is_name(&name[..len]) {
        return true;
    }
    non_zero(&name[len..])
}

// 4: whether two stored names are equal.
pub(crate) fn same_stored(first: [u8; 16], m: u8, second: [u8; 16], n: u8) -> bool
    requires { (m ≤ 16) × (n ≤ 16) }
    ensures { result ≡ same_name (take m first) (take n second) }
{
    let first_end = m as usize;
    let second_end = n as usize;
    names::same_name(&first[..first_end], &second[..second_end])
}

// 7: whether the word is one of those allowed for the kind.
pub(crate) fn word_fits(kind: Kind, word: Word) -> bool
    ensures { result ≡ not (is_none (word_of kind (word_text word))) }
{
    match kind {
        Kind::Rule => matches!(word, Word::Permit | Word::Deny),
        Kind::Policy => matches!(
            word,
            Word::DenyOverrides | Word::PermitOverrides | Word::FirstApplicable
        ),
        Kind::Set => !matches!(word, Word::Permit | Word::Deny),
    }
}

// A refusal with its line.
pub(crate) fn on_line(tested: Result<(), Refusal>, line: u32) -> Result<(), Refused>
    ensures number { number_told result ≡ number_in tested }
    ensures line { IsErr result → line_told result ≡ line }
{
    tested.map_err(|why| Refused { why, second: line })
}
