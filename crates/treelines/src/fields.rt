// The fields of the lines of elements and obligations, but for the targets.
ghost use Rattle.std.specs.Prelude.{◌≡◌, [], ◌∷◌, ◌++◌, ◌+◌, ◌≤◌, take};
ghost use Rattle.meaning.specs.Text.{tab};
ghost use Rattle.meaning.specs.Model.{kind_text, word_text};
ghost use Rattle.printing.specs.Puts.{Puts};

use meaning::{Kind, Word};
use printing::Sink;

// The letter of a kind. Letters and words are byte strings, the form that docs/DECISIONS.md names.
fn letter(kind: Kind) -> &'static [u8]
    ensures { result.now ≡ kind_text kind }
{
    match kind {
        Kind::Set => b"S",
        Kind::Policy => b"P",
        Kind::Rule => b"R",
    }
}

// The letter of a kind, and a tab.
pub(crate) fn put_kind(kind: Kind, sink: &mut Sink)
    requires { sink.old.at ≤ 4000000000 }
    ensures { Puts sink.old (kind_text kind ++ (tab ∷ [])) sink.new × (sink.new.at ≤ sink.old.at + 2) }
{
    sink.put_field(letter(kind), b'\t');
}

// A stored name, and a tab.
pub(crate) fn put_name(name: [u8; 16], len: u8, sink: &mut Sink)
    requires { (len ≤ 16) × (sink.old.at ≤ 4000000000) }
    ensures { Puts sink.old (take len name ++ (tab ∷ [])) sink.new × (sink.new.at ≤ sink.old.at + 17) }
{
    let end = len as usize;
    sink.put_field(&name[..end], b'\t');
}

// A word as it is spelled.
fn spelling(word: Word) -> &'static [u8]
    ensures { result.now ≡ word_text word }
{
    match word {
        Word::Permit => b"permit",
        Word::Deny => b"deny",
        Word::DenyOverrides => b"deny-overrides",
        Word::PermitOverrides => b"permit-overrides",
        Word::FirstApplicable => b"first-applicable",
        Word::OnlyOneApplicable => b"only-one-applicable",
    }
}

// A word.
pub(crate) fn put_word(word: Word, sink: &mut Sink)
    requires { sink.old.at ≤ 4000000000 }
    ensures { Puts sink.old (word_text word) sink.new × (sink.new.at ≤ sink.old.at + 19) }
{
    sink.put_bytes(spelling(word));
}
