// The fields of lines: names of elements, one or several.
ghost use Rattle.std.specs.Prelude.{[], ◌∷◌, ◌++◌, ◌+◌, ◌*◌, ◌-◌, ◌≤◌};
ghost use Rattle.meaning.specs.Text.{newline};
ghost use Rattle.meaning.specs.Report.{or_dash};
ghost use Rattle.layout.specs.Places.{name_in, NameAt, Naming};
ghost use Rattle.printing.specs.Puts.{Puts};
ghost use Rattle.report_lines.specs.Lines.{names_of, later_names};

use layout::PolicyFile;
use printing::Sink;

// The name of element i.
fn put_name(policy: &PolicyFile, i: usize, sink: &mut Sink)
    requires { NameAt policy.now.file.now policy.now.places.now i × (sink.old.at ≤ 4294967296) }
    ensures { Puts sink.old (name_in policy.now.file.now policy.now.places.now i) sink.new × (sink.new.at ≤ sink.old.at + 16) }
{
    sink.put_bytes(layout::element_name(policy.file, policy.places, i));
}

// The name of element i and the byte that ends it.
pub(crate) fn put_named(policy: &PolicyFile, i: usize, end: u8, sink: &mut Sink)
    requires { NameAt policy.now.file.now policy.now.places.now i × (sink.old.at ≤ 4294967296) }
    ensures { Puts sink.old (name_in policy.now.file.now policy.now.places.now i ++ (end ∷ [])) sink.new × (sink.new.at ≤ sink.old.at + 17) }
{
    put_name(policy, i, sink);
    sink.put(end);
}

// The names of the elements from `from` on whose bits are set, a comma before each.
fn put_later_names(policy: &PolicyFile, word: u64, from: usize, sink: &mut Sink)
    requires { Naming policy.now.file.now policy.now.places.now policy.now.shape.n × (from ≤ policy.now.shape.n) × (sink.old.at ≤ 4000000000) }
    ensures { Puts sink.old (later_names policy.now.file.now policy.now.places.now policy.now.shape.n word from) sink.new × (sink.new.at ≤ sink.old.at + 17 * (policy.now.shape.n - from)) }
{
    let n = policy.shape.n;
    for i in from..n {
        if !rows::has(word, i) {
            continue;
        }
        sink.put(b',');
        put_name(policy, i, sink);
    }
}

// The names of the elements whose bits are set, parted by commas, or `-`; and a newline.
pub(crate) fn put_names(policy: &PolicyFile, word: u64, sink: &mut Sink)
    requires { Naming policy.now.file.now policy.now.places.now policy.now.shape.n × (sink.old.at ≤ 3000000000) }
    ensures { Puts sink.old (or_dash (names_of policy.now.file.now policy.now.places.now policy.now.shape.n word) ++ (newline ∷ [])) sink.new × (sink.new.at ≤ sink.old.at + 1200) }
{
    let n = policy.shape.n;
    for i in 0..n {
        if rows::has(word, i) {
            put_name(policy, i, sink);
            put_later_names(policy, word, i + 1, sink);
            sink.put(10);
            return;
        }
    }
    sink.put_field(b"-", 10);
}
