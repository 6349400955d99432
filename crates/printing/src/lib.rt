// Text laid into a lent buffer. What does not fit is not stored, and the place moves on all the same: with an empty buffer the same code counts.
#![tactic(auto)]

ghost use Rattle.std.specs.Prelude.{◌≡◌, ℕ, List, ◌+◌, ◌/◌, ◌≤◌, ◌<◌, ◌^◌, [], ◌∷◌, ◌++◌, length};
ghost use Rattle.meaning.specs.Text.{decimal};
ghost use Rattle.meaning.specs.Model.{decision_text};
ghost use Rattle.printing.specs.Decisions.{decision_from};
ghost use Rattle.printing.specs.Puts.{Puts};
ghost use Rattle.printing.specs.Fitted.{text_told, Fitted};

use meaning::{Answer, Decision};
use refusals::{Refusal, Refused};

// A text in the making: a lent buffer, and the place behind what was laid down.
#[derive(Drop)]
pub struct Sink<'a> {
    pub out: &'a mut [u8],
    pub at: usize,
}

impl<'a> Sink<'a> {
    // Stores a byte.
    pub fn put(&mut self, b: u8)
        requires { self.old.at + 1 < 2 ^ 64 }
        ensures { Puts self.old (b ∷ []) self.new }
    {
        if self.at < self.out.len() {
            self.out[self.at] = b;
        }
        self.at += 1;
    }

    // Stores bytes one behind the other: those that fit.
    pub fn put_bytes(&mut self, bytes: &[u8])
        requires { self.old.at + length bytes.now < 2 ^ 64 }
        ensures { Puts self.old bytes.now self.new }
    {
        if self.at < self.out.len() {
            let fit = bytes.len().min(self.out.len() - self.at);
            self.out[self.at..self.at + fit].copy_from_slice(&bytes[..fit]);
        }
        self.at += bytes.len();
    }

    // Stores a number in decimal. (No `Display`, here and for a decision: what does not fit is counted, and the contract says each byte.)
    pub fn put_decimal(&mut self, number: usize)
        requires { self.old.at + number + 2 < 2 ^ 64 }
        ensures { Puts self.old (decimal number) self.new × (self.new.at ≤ self.old.at + number / 10 + 1) }
    {
        if 10 <= number {
            self.put_decimal(number / 10);
        }
        self.put(48 + (number % 10) as u8);
    }

    // Stores bytes and the byte that ends them.
    pub fn put_field(&mut self, bytes: &[u8], end: u8)
        requires { self.old.at + length bytes.now + 1 < 2 ^ 64 }
        ensures { Puts self.old (bytes.now ++ (end ∷ [])) self.new }
    {
        self.put_bytes(bytes);
        self.put(end);
    }

    // Stores a number in decimal and the byte that ends it.
    pub fn put_number(&mut self, number: usize, end: u8)
        requires { self.old.at + number + 3 < 2 ^ 64 }
        ensures { Puts self.old (decimal number ++ (end ∷ [])) self.new × (self.new.at ≤ self.old.at + number / 10 + 2) }
    {
        self.put_decimal(number);
        self.put(end);
    }

    // Stores a decision's text and the byte that ends it.
    pub fn put_decision(&mut self, decision: Decision, end: u8)
        requires { self.old.at + 15 < 2 ^ 64 }
        ensures { Puts self.old (decision_text decision ++ (end ∷ [])) self.new × (self.new.at ≤ self.old.at + 15) }
    {
        let text: &[u8] = match decision {
            Decision::Permit => b"permit",
            Decision::Deny => b"deny",
            Decision::NotApplicable => b"not-applicable",
            Decision::Indeterminate => b"indeterminate",
        };
        self.put_field(text, end);
    }
}

// The decision of that number, for callers that hold numbers: each from 3 on is Indeterminate.
pub fn decision_of_number(number: u8) -> Decision
    ensures { result ≡ decision_from number }
{
    match number {
        0 => Decision::Permit,
        1 => Decision::Deny,
        2 => Decision::NotApplicable,
        _ => Decision::Indeterminate,
    }
}

// The answer for a text of so many bytes, and a buffer that has so many.
pub fn text_answer(needed: usize, room: usize) -> Answer
    requires { needed < 4294967296 }
    ensures { result ≡ text_told needed room }
{
    if needed <= room {
        return Answer {
            number: 0,
            second: needed as u32,
        };
    }
    let refused = Refused {
        why: Refusal::ShortBuffer,
        second: needed as u32,
    };
    Answer::from(refused)
}

// What can be told as text. (A trait: of a sink behind the call of a closure nothing is known.)
pub trait Text {
    // its bytes
    ghost text: { Self → List ℕ };

    // Puts it into a sink, from the start.
    fn put(&self, sink: &mut Sink)
        requires { sink.old.at ≡ 0 }
        ensures puts { Puts sink.old (text self.now) sink.new }
        ensures short { sink.new.at < 4294967296 };
}

// The answer for a text: it is counted with no buffer first, and written where it fits.
pub fn answer<T: Text>(text: &T, out: &mut [u8]) -> Answer
    ensures { Fitted out.old (T.text text.now) out.new result }
{
    let mut none = [0u8; 0];
    let mut count = Sink {
        out: &mut none,
        at: 0,
    };
    text.put(&mut count);
    let needed = count.at;
    let room = out.len();
    let answer = text_answer(needed, room);
    if answer.number == 0 {
        text.put(&mut Sink { out, at: 0 });
    }
    answer
}
