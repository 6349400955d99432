// The lines of rules: struck, `X`, and kept, `K`.
ghost use Rattle.std.specs.Prelude.{◌+◌, ◌≤◌, ◌<◌};
ghost use Rattle.layout.specs.Places.{NameAt};
ghost use Rattle.printing.specs.Puts.{Puts};
ghost use Rattle.report_lines.specs.Lines.{struck_line, kept_line};

use crate::fields;
use layout::PolicyFile;
use printing::Sink;

// The line of element i, which is struck.
pub(crate) fn put_struck_rule(policy: &PolicyFile, i: u8, sink: &mut Sink)
    requires { NameAt policy.now.file.now policy.now.places.now i × (sink.old.at ≤ 4000000000) }
    ensures { Puts sink.old (struck_line policy.now.file.now policy.now.places.now i) sink.new × (sink.new.at ≤ sink.old.at + 500) }
{
    sink.put_field(b"X", 9);
    fields::put_named(policy, i as usize, 10, sink);
}

// The line of element i, if a request needs it.
pub(crate) fn put_kept_rule(
    policy: &PolicyFile,
    shown: &[Option<usize>; 64],
    i: usize,
    sink: &mut Sink,
)
    requires { NameAt policy.now.file.now policy.now.places.now i × (i < 64) × (policy.now.shape.space ≤ 4096) × (sink.old.at ≤ 3000000000) }
    ensures { Puts sink.old (kept_line policy.now.file.now policy.now.places.now shown.now policy.now.shape.space i) sink.new × (sink.new.at ≤ sink.old.at + 500) }
{
    let Some(m) = shown[i] else {
        return;
    };
    if policy.shape.space <= m {
        return;
    }
    sink.put_field(b"K", 9);
    fields::put_named(policy, i, 9, sink);
    sink.put_number(m, 10);
}
