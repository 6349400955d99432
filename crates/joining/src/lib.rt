// Two files joined into a lent buffer.
#![tactic(auto, using(reader::proofs::FileRead::unread))]

ghost use Rattle.std.specs.Prelude.{◌≡◌, ◌≤◌, length};
ghost use Rattle.meaning.specs.Operations.{join_answer, join_lent};
ghost use Rattle.joining.specs.Held.{FileHeld, Accepted};

use joined_attributes::Part;
use layout::ElementPlaces;
use meaning::{Answer, Kind};
use printing::{Sink, Text};
use refusals::{Refusal, Refused};
use table::Row;

// A text no longer than a file, as it is told.
#[derive(Clone, Copy)]
struct Joined<'a> {
    text: &'a [u8],
    ghost short: { length text.now ≤ 16384 },
}

impl Text for Joined<'_> {
    ghost text = { λ t. t.text.now };

    fn put(&self, sink: &mut Sink) {
        sink.put_bytes(self.text);
    }
}

// A text: what reading it refuses, or the text in a lent buffer.
fn accept(text: &[u8], out: &mut [u8]) -> Answer
    requires { length text.now ≤ 16384 }
    ensures { Accepted text.now out.old out.new result }
{
    let mut table = [Row::NONE; 64];
    let mut places = [ElementPlaces::NONE; 64];
    match reader::read(text, &mut table, &mut places) {
        Ok(_) => printing::answer(&Joined { text }, out),
        Err(refused) => refused.into(),
    }
}

// Two files that were read. The text is laid down
// here and read as any file is: nothing but the reader says whether it is accepted.
fn join_both<'a>(first: &Part<'a>, second: &Part<'a>, word: &[u8], out: &mut [u8]) -> Answer
    requires { FileHeld first.now.file.now first.now.attributes first.now.from × FileHeld second.now.file.now second.now.attributes second.now.from }
    ensures value { result ≡ join_answer first.now.file.now second.now.file.now word.now out.old }
    ensures out_after { out.new ≡ join_lent first.now.file.now second.now.file.now word.now out.old }
{
    if let Some(line) = joined_attributes::first_differing(first, second) {
        let refused = Refused {
            why: Refusal::OtherAttribute,
            second: line as u32,
        };
        return refused.into();
    }
    if syntax::word_of(Kind::Set, word).is_none() {
        let joined = joined_attributes::places_in(first, second, first);
        let refused = Refused {
            why: Refusal::BadWord,
            second: (joined.len + 1) as u32,
        };
        return refused.into();
    }
    let mut text = [0u8; 16384];
    let mut sink = Sink {
        out: &mut text,
        at: 0,
    };
    joined_text::put_joined(first, second, word, &mut sink);
    let needed = sink.at;
    if 16384 < needed {
        let refused = Refused {
            why: Refusal::LongFile,
            second: 0,
        };
        return refused.into();
    }
    accept(&text[..needed], out)
}

// A file that was read, and a second one, joined in a lent buffer.
pub fn join(first: &Part, second: &[u8], word: &[u8], out: &mut [u8]) -> Answer
    requires { FileHeld first.now.file.now first.now.attributes first.now.from }
    ensures value { result ≡ join_answer first.now.file.now second.now word.now out.old }
    ensures out_after { out.new ≡ join_lent first.now.file.now second.now word.now out.old }
{
    let mut table = [Row::NONE; 64];
    let mut places = [ElementPlaces::NONE; 64];
    match reader::read(second, &mut table, &mut places) {
        Ok(policy) => {
            let other = Part {
                file: second,
                attributes: policy.attributes,
                from: places[0].start,
            };
            join_both(first, &other, word, out)
        }
        Err(refused) => refused.into(),
    }
}
