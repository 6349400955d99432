// The report's lines, from what was found of a policy. Each function puts a text into a sink; over an empty buffer it counts.
// (What was found goes on as `reporting` laid it down, list by list: every kind of line takes others.)
#![tactic(auto)]

mod conflict_lines;
mod fields;
mod rule_lines;
mod segment_lines;

ghost use Rattle.std.specs.Prelude.{◌+◌, ◌≤◌};
ghost use Rattle.layout.specs.Places.{Naming};
ghost use Rattle.printing.specs.Puts.{Puts};
ghost use Rattle.report_lines.specs.Lines.{segment_text, conflict_text, struck_text, kept_text};
ghost use Rattle.report_lines.specs.Ready.{Ordered};

use layout::PolicyFile;
use meaning::Decision;
use printing::Sink;
use segment_lines::Segment;

// The lines of all segments, `G`: a request with a size is the first of its segment.
pub fn put_segments(
    policy: &PolicyFile,
    words: &[u64; 4096],
    sizes: &[u16; 4096],
    decided: &[Decision; 4096],
    sink: &mut Sink,
)
    requires { Naming policy.now.file.now policy.now.places.now policy.now.shape.n × (policy.now.shape.space ≤ 4096) × (sink.old.at ≤ 1000000000) }
    ensures { Puts sink.old (segment_text policy.now.file.now policy.now.places.now policy.now.shape.n words.now sizes.now decided.now policy.now.shape.space) sink.new × (sink.new.at ≤ sink.old.at + 40960000) }
{
    let space = policy.shape.space;
    for m in 0..space {
        let size = sizes[m];
        if size == 0 {
            continue;
        }
        let segment = Segment {
            first: m,
            size,
            decision: decided[m],
            word: words[m],
        };
        segment_lines::put_segment(policy, segment, sink);
    }
}

// The lines of all conflicts, `C`.
pub fn put_conflicts(
    policy: &PolicyFile,
    parents: &[Option<usize>; 64],
    pairs: &[[u16; 64]; 64],
    sink: &mut Sink,
)
    requires { Naming policy.now.file.now policy.now.places.now policy.now.shape.n × (policy.now.shape.space ≤ 4096) × (sink.old.at ≤ 1200000000) }
    ensures { Puts sink.old (conflict_text policy.now.file.now policy.now.places.now policy.now.shape.n parents.now pairs.now policy.now.shape.space) sink.new × (sink.new.at ≤ sink.old.at + 131072000) }
{
    let n = policy.shape.n;
    for i in 0..n {
        conflict_lines::put_pairs(policy, parents, pairs, i, sink);
    }
}

// The lines of the rules struck, `X`, in the order of their places.
pub fn put_struck(policy: &PolicyFile, order: &[u8], sink: &mut Sink)
    requires { Ordered policy.now.file.now policy.now.places.now order.now × (sink.old.at ≤ 2000000000) }
    ensures { Puts sink.old (struck_text policy.now.file.now policy.now.places.now order.now) sink.new × (sink.new.at ≤ sink.old.at + 32000) }
{
    for i in order {
        rule_lines::put_struck_rule(policy, *i, sink);
    }
}

// The lines of the rules kept, `K`.
pub fn put_kept(policy: &PolicyFile, shown: &[Option<usize>; 64], sink: &mut Sink)
    requires { Naming policy.now.file.now policy.now.places.now policy.now.shape.n × (policy.now.shape.space ≤ 4096) × (sink.old.at ≤ 2100000000) }
    ensures { Puts sink.old (kept_text policy.now.file.now policy.now.places.now policy.now.shape.n shown.now policy.now.shape.space) sink.new × (sink.new.at ≤ sink.old.at + 32000) }
{
    let n = policy.shape.n;
    for i in 0..n {
        rule_lines::put_kept_rule(policy, shown, i, sink);
    }
}
