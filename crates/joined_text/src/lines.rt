// A line of a file in the joined one: a tree line is one deeper, with a target at each of the joined attributes.
ghost use Rattle.std.specs.Prelude.{◌∷◌, ◌+◌, ◌*◌, ◌≤◌, length};
ghost use Rattle.meaning.specs.Text.{gathered, cut, tab, line};
ghost use Rattle.printing.specs.Puts.{Puts};
ghost use Rattle.joined_text.specs.Lines.{places_of, placed_target, head_text, deepened, deeper_placed, Fits};

use joined_attributes::Placing;
use printing::Sink;
use tree_fields::HeadedLine;

// The target at place k of a file's own n, with a tab before it; `*` where k is none of them.
fn put_target(targets: &[u8], k: usize, n: usize, sink: &mut Sink)
    requires { (length targets.now ≤ 16384) × (sink.old.at ≤ 3000000) }
    ensures { Puts sink.old (tab ∷ placed_target n (cut tab targets.now) k) sink.new × (sink.new.at ≤ sink.old.at + length targets.now + 2) }
{
    sink.put(b'\t');
    if k < n {
        sink.put_bytes(fields::field(targets, k));
    } else {
        sink.put(b'*');
    }
}

// The targets of a line, by the places of the joined attributes among a file's own n.
fn put_targets(targets: &[u8], p: &Placing, n: usize, sink: &mut Sink)
    requires { (length targets.now ≤ 16384) × (p.now.len ≤ 12) × (sink.old.at ≤ 2000000) }
    ensures { Puts sink.old (gathered (λ k. tab ∷ placed_target n (cut tab targets.now) k) (places_of p.now)) sink.new × (sink.new.at ≤ sink.old.at + 12 * (length targets.now + 2)) }
{
    for i in 0..p.len {
        put_target(targets, p.places[i], n, sink);
    }
}

// The fields before the targets of a tree line, one deeper.
fn put_head(l: &HeadedLine, sink: &mut Sink)
    requires { (length l.now.text.now ≤ 16384) × (sink.old.at ≤ 1600000) }
    ensures { Puts sink.old (head_text (cut tab l.now.text.now)) sink.new × (sink.new.at ≤ sink.old.at + 3 * length l.now.text.now + 5) }
{
    let depth = syntax::depth_of(l.depth());
    sink.put_field(l.letter(), b'\t');
    sink.put_number(depth + 1, b'\t');
    sink.put_field(l.name(), b'\t');
    sink.put_bytes(l.word());
}

// A tree line, one deeper.
fn put_deeper(row: &[u8], p: &Placing, n: usize, sink: &mut Sink)
    requires { (5 ≤ length (cut tab row.now)) × (length row.now ≤ 16384) × (p.now.len ≤ 12) × (sink.old.at ≤ 1600000) }
    ensures { Puts sink.old (line (deepened (places_of p.now) n (cut tab row.now))) sink.new × (sink.new.at ≤ sink.old.at + 16 * (length row.now + 2)) }
{
    let l = HeadedLine::of(row);
    put_head(&l, sink);
    put_targets(l.targets(), p, n, sink);
    sink.put(b'\n');
}

// A line behind a file's attribute lines: that of an obligation stays as it is.
pub(crate) fn put_line(row: &[u8], p: &Placing, n: usize, sink: &mut Sink)
    requires { Fits row.now × (length row.now ≤ 16384) × (p.now.len ≤ 12) × (sink.old.at ≤ 1600000) }
    ensures { Puts sink.old (deeper_placed (places_of p.now) n row.now) sink.new × (sink.new.at ≤ sink.old.at + 16 * (length row.now + 2)) }
{
    let to = text::end_of(row, 0, b'\t');
    if comparing::same(&row[0..to], b"O") {
        sink.put_field(row, b'\n');
    } else {
        put_deeper(row, p, n, sink);
    }
}
