// The text of two files that are joined. Each function puts a part into a sink; what does not fit is counted alone.
// (The places of the joined attributes and a file's own count go on as two: `put_targets` alone looks at them, and a struct of both would say nothing more.)
#![tactic(auto)]

mod attributes;
mod lines;

ghost use Rattle.std.specs.Prelude.{◌+◌, ◌≤◌, length, drop};
ghost use Rattle.meaning.specs.Text.{gathered};
ghost use Rattle.meaning.specs.Trimming.{file_lines};
ghost use Rattle.meaning.specs.Joining.{joined_text};
ghost use Rattle.layout.specs.Places.{attributes_of};
ghost use Rattle.printing.specs.Puts.{Puts};
ghost use Rattle.joined_text.specs.Lines.{places_of, deeper_placed, Behind, Joinable};

use joined_attributes::{Part, Placing};
use printing::Sink;

// The lines of a file from `from` on, each one deeper, by the places of the joined attributes among its own `n`.
fn put_tree(file: &[u8], from: usize, p: &Placing, n: usize, sink: &mut Sink)
    requires { Behind file.now from × (p.now.len ≤ 12) × (sink.old.at ≤ 1000000) }
    ensures { Puts sink.old (gathered (deeper_placed (places_of p.now) n) (file_lines (drop from file.now))) sink.new × (sink.new.at ≤ sink.old.at + 524288) }
{
    let mut start = from;
    while start < file.len() {
        let to = text::end_of(file, start, b'\n');
        lines::put_line(&file[start..to], p, n, sink);
        start = to + 1;
    }
}

// The joined text.
pub fn put_joined<'a>(first: &Part<'a>, second: &Part<'a>, word: &[u8], sink: &mut Sink)
    requires { Joinable first.now.file.now first.now.attributes first.now.from × Joinable second.now.file.now second.now.attributes second.now.from × (length word.now ≤ 32) × (sink.old.at ≤ 1000) }
    ensures { Puts sink.old (joined_text word.now first.now.file.now (attributes_of first.now.file.now first.now.attributes) second.now.file.now (attributes_of second.now.file.now second.now.attributes)) sink.new }
{
    let p = joined_attributes::places_in(first, second, first);
    let q = joined_attributes::places_in(first, second, second);
    attributes::put_attributes(first, sink);
    attributes::put_alone(first, second, sink);
    attributes::put_set(word, p.len, sink);
    put_tree(first.file, first.from, &p, first.attributes.len, sink);
    put_tree(second.file, second.from, &q, second.attributes.len, sink);
}
