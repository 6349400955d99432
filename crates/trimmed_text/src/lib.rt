// The text of the lines left, by the places of the elements and their flags; specs/ and proofs/ say what trimming on flags is.
#![tactic(auto)]

ghost use Rattle.std.specs.Prelude.{◌≡◌, ◌*◌, ◌≤◌, ◌<◌, ◌+◌, ◌^◌, length};
ghost use Rattle.printing.specs.Puts.{Puts};
ghost use Rattle.trimmed_text.specs.Copied.{lines_end, copied, Copies, Piece};

use layout::{ElementPlaces, PolicyFile};
use printing::{Sink, Text};

// The lines of a policy file that flags leave, one flag for each element.
#[derive(Clone, Copy)]
pub struct KeptText<'a> {
    pub policy: PolicyFile<'a>,
    pub struck: &'a [u8],
    ghost copies: { Copies policy.file.now policy.places.now struck.now policy.shape.n },
    ghost short: { length policy.file.now < 4294967296 },
}

impl Text for KeptText<'_> {
    ghost text = { λ t. copied t.policy.file.now t.policy.places.now t.struck.now t.policy.shape.n };

    fn put(&self, sink: &mut Sink) {
        put_text(&self.policy, self.struck, sink);
    }
}

// Where element i's lines end: where the next element starts, or the file ends.
pub fn lines_end(file: &[u8], places: &[ElementPlaces], n: usize, i: usize) -> usize
    requires { (n ≤ length places.now) × (i < n) }
    ensures { result ≡ lines_end file.now places.now n i }
{
    if i + 1 < n {
        return places[i + 1].start;
    }
    file.len()
}

// Where what is left of element i's lines ends: where they start if it is struck, else where they end.
fn piece_end(policy: &PolicyFile, struck: &[u8], i: usize) -> usize
    requires { Copies policy.now.file.now policy.now.places.now struck.now policy.now.shape.n × (i < policy.now.shape.n) }
    ensures { Piece policy.now.file.now policy.now.places.now struck.now policy.now.shape.n i result }
{
    let places = policy.places;
    if struck[i] != 0 {
        return places[i].start;
    }
    lines_end(policy.file, places, policy.shape.n, i)
}

// Puts the bytes before the first element's line, and the lines left. (Of any file, so not of a `KeptText`, whose file is short.)
pub fn put_text(policy: &PolicyFile, struck: &[u8], sink: &mut Sink)
    requires { Copies policy.now.file.now policy.now.places.now struck.now policy.now.shape.n × (sink.old.at + length policy.now.file.now < 2 ^ 64) }
    ensures { Puts sink.old (copied policy.now.file.now policy.now.places.now struck.now policy.now.shape.n) sink.new × (sink.new.at ≤ sink.old.at + length policy.now.file.now) }
{
    let file = policy.file;
    let first = policy.places[0].start;
    sink.put_bytes(&file[0..first]);
    for i in 0..policy.shape.n {
        let start = policy.places[i].start;
        let end = piece_end(policy, struck, i);
        sink.put_bytes(&file[start..end]);
    }
}
