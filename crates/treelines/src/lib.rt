// Attribute lines and elements as a file in canonical form. Each function puts a text into a sink; over an empty buffer it counts.
#![tactic(auto)]

mod fields;
mod obligations;
mod targets;

ghost use Rattle.std.specs.Prelude.{◌++◌, ◌+◌, ◌≤◌, ◌<◌};
ghost use Rattle.meaning.specs.Text.{gathered, line};
ghost use Rattle.meaning.specs.Writing.{element_fields, element_lines};
ghost use Rattle.layout.specs.Places.{attributes_of};
ghost use Rattle.printing.specs.Puts.{Puts};
ghost use Rattle.treelines.specs.Writable.{Headed, Small, Writable};

use layout::Attributes;
use meaning::Element;
use printing::Sink;

// Attribute lines, and the attributes that stand in them.
#[derive(Clone, Copy)]
pub struct AttributeLines<'a> {
    pub text: &'a [u8],
    pub attributes: Attributes,
    pub ghost headed: { Headed text.now attributes },
}

// The own line of an element.
fn put_element(lines: &AttributeLines, e: Element, sink: &mut Sink)
    requires { Small e × (sink.old.at ≤ 1000000000) }
    ensures { Puts sink.old (line (element_fields (attributes_of lines.now.text.now lines.now.attributes) e)) sink.new × (sink.new.at ≤ sink.old.at + 100000) }
{
    fields::put_kind(e.kind, sink);
    sink.put_number(e.depth as usize, b'\t');
    fields::put_name(e.name, e.len, sink);
    fields::put_word(e.word, sink);
    targets::put_targets(lines, e, sink);
    sink.put(b'\n');
}

// The lines of an element: its own, and those of its obligations.
fn put_lines(lines: &AttributeLines, e: Element, sink: &mut Sink)
    requires { Small e × (sink.old.at ≤ 1000000000) }
    ensures { Puts sink.old (element_lines (attributes_of lines.now.text.now lines.now.attributes) e) sink.new × (sink.new.at ≤ sink.old.at + 100100) }
{
    put_element(lines, e, sink);
    obligations::put_obligations(e, sink);
}

// The file of attribute lines and a list of elements, as one text.
pub fn put_file(lines: &AttributeLines, list: &[Element], sink: &mut Sink)
    requires { Writable list.now × (sink.old.at ≤ 900000000) }
    ensures { Puts sink.old (lines.now.text.now ++ gathered (element_lines (attributes_of lines.now.text.now lines.now.attributes)) list.now) sink.new × (sink.new.at ≤ sink.old.at + 7000000) }
{
    sink.put_bytes(lines.text);
    for e in list {
        put_lines(lines, *e, sink);
    }
}
