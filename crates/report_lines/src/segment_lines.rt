// The line of a segment, `G`.
ghost use Rattle.std.specs.Prelude.{◌+◌, ◌≤◌, ◌<◌};
ghost use Rattle.layout.specs.Places.{Naming};
ghost use Rattle.printing.specs.Puts.{Puts};
ghost use Rattle.report_lines.specs.Lines.{segment_row};

use crate::fields;
use layout::PolicyFile;
use meaning::Decision;
use printing::Sink;

// A segment: its first request, how many it has, their decision, and the word of the elements that apply to them.
#[derive(Clone, Copy)]
pub(crate) struct Segment {
    pub first: usize,
    pub size: u16,
    pub decision: Decision,
    pub word: u64,
}

pub(crate) fn put_segment(policy: &PolicyFile, segment: Segment, sink: &mut Sink)
    requires { Naming policy.now.file.now policy.now.places.now policy.now.shape.n × (segment.first < 4096) × (sink.old.at ≤ 2000000000) }
    ensures { Puts sink.old (segment_row policy.now.file.now policy.now.places.now policy.now.shape.n segment) sink.new × (sink.new.at ≤ sink.old.at + 10000) }
{
    sink.put_field(b"G", 9);
    sink.put_number(segment.first, 9);
    sink.put_number(segment.size as usize, 9);
    sink.put_decision(segment.decision, 9);
    fields::put_names(policy, segment.word, sink);
}
