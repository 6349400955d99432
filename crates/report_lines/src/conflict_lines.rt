// The lines of conflicts, `C`.
ghost use Rattle.std.specs.Prelude.{◌≡◌, true, ◌+◌, ◌≤◌, ◌<◌};
ghost use Rattle.layout.specs.Places.{NameAt, Naming};
ghost use Rattle.printing.specs.Puts.{Puts};
ghost use Rattle.report_lines.specs.Lines.{is_parent, conflict_row, later_lines, pair_lines};

use crate::fields;
use layout::PolicyFile;
use printing::Sink;

// A conflict of two children of a parent, and the request that shows it.
#[derive(Clone, Copy)]
struct Conflict {
    parent: usize,
    earlier: usize,
    later: usize,
    request: usize,
}

fn put_conflict(policy: &PolicyFile, c: Conflict, sink: &mut Sink)
    requires { NameAt policy.now.file.now policy.now.places.now c.parent × NameAt policy.now.file.now policy.now.places.now c.earlier × NameAt policy.now.file.now policy.now.places.now c.later × (c.request < 4096) × (sink.old.at ≤ 2000000000) }
    ensures { Puts sink.old (conflict_row policy.now.file.now policy.now.places.now c) sink.new × (sink.new.at ≤ sink.old.at + 500) }
{
    sink.put_field(b"C", 9);
    fields::put_named(policy, c.parent, 9, sink);
    fields::put_named(policy, c.earlier, 9, sink);
    fields::put_named(policy, c.later, 9, sink);
    sink.put_number(c.request, 10);
}

// The lines of the conflicts of j with the later children of its parent, i.
fn put_later(
    policy: &PolicyFile,
    parents: &[Option<usize>; 64],
    pairs: &[[u16; 64]; 64],
    i: usize,
    j: usize,
    sink: &mut Sink,
)
    requires { Naming policy.now.file.now policy.now.places.now policy.now.shape.n × (policy.now.shape.space ≤ 4096) × (j < policy.now.shape.n) × (i < policy.now.shape.n) × (is_parent parents.now j i ≡ true) × (sink.old.at ≤ 1500000000) }
    ensures { Puts sink.old (later_lines policy.now.file.now policy.now.places.now policy.now.shape.n parents.now pairs.now policy.now.shape.space i j) sink.new × (sink.new.at ≤ sink.old.at + 32000) }
{
    let shape = policy.shape;
    let n = shape.n;
    for k in j + 1..n {
        if parents[k] != Some(i) {
            continue;
        }
        let request = pairs[j][k] as usize;
        if shape.space <= request {
            continue;
        }
        let conflict = Conflict {
            parent: i,
            earlier: j,
            later: k,
            request,
        };
        put_conflict(policy, conflict, sink);
    }
}

// The lines of the conflicts of the children of i.
pub(crate) fn put_pairs(
    policy: &PolicyFile,
    parents: &[Option<usize>; 64],
    pairs: &[[u16; 64]; 64],
    i: usize,
    sink: &mut Sink,
)
    requires { Naming policy.now.file.now policy.now.places.now policy.now.shape.n × (policy.now.shape.space ≤ 4096) × (i < policy.now.shape.n) × (sink.old.at ≤ 1400000000) }
    ensures { Puts sink.old (pair_lines policy.now.file.now policy.now.places.now policy.now.shape.n parents.now pairs.now policy.now.shape.space i) sink.new × (sink.new.at ≤ sink.old.at + 2048000) }
{
    let n = policy.shape.n;
    for j in 0..n {
        if parents[j] != Some(i) {
            continue;
        }
        put_later(policy, parents, pairs, i, j, sink);
    }
}
