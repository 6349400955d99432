// The targets of an element: a mask of values for each attribute.
ghost use Rattle.std.specs.Prelude.{◌≡◌, cond, ◌∷◌, ◌+◌, ◌≤◌, length};
ghost use Rattle.meaning.specs.Text.{gathered, cut, join, tab, comma};
ghost use Rattle.meaning.specs.Writing.{value_names, target_text, target_texts};
ghost use Rattle.layout.specs.Places.{attributes_of};
ghost use Rattle.printing.specs.Puts.{Puts};

use crate::AttributeLines;
use meaning::Element;
use printing::Sink;

// The name of a value, with a comma before it if it is not the first.
fn put_value(name: &[u8], later: bool, sink: &mut Sink)
    requires { (length name.now ≤ 16384) × (sink.old.at ≤ 4000000000) }
    ensures { Puts sink.old (cond later (comma ∷ name.now) name.now) sink.new × (sink.new.at ≤ sink.old.at + length name.now + 1) }
{
    if later {
        sink.put(b',');
    }
    sink.put_bytes(name);
}

// The names of the values whose bits are set, parted by commas. In `values` they are parted by tabs.
fn put_values(values: &[u8], mask: u16, sink: &mut Sink)
    requires { (length values.now ≤ 16384) × (sink.old.at ≤ 3000000000) }
    ensures { Puts sink.old (join comma (value_names (cut tab values.now) mask)) sink.new × (sink.new.at ≤ sink.old.at + 16385) }
{
    let mut start = 0;
    let mut left = mask;
    let mut later = false;
    loop {
        let behind = text::end_of(values, start, b'\t');
        if left % 2 == 1 {
            put_value(&values[start..behind], later, sink);
            later = true;
        }
        if behind == values.len() {
            return;
        }
        start = behind + 1;
        left = left / 2;
    }
}

// A target: `*` of a full mask, else the names of the mask's values.
fn put_target(values: &[u8], count: usize, mask: u16, sink: &mut Sink)
    requires { (count ≡ length (cut tab values.now)) × (count ≤ 16) × (length values.now ≤ 16384) × (sink.old.at ≤ 3000000000) }
    ensures { Puts sink.old (target_text (cut tab values.now) mask) sink.new × (sink.new.at ≤ sink.old.at + 16385) }
{
    if mask == elements::full_mask(count) {
        sink.put_bytes(b"*");
    } else {
        put_values(values, mask, sink);
    }
}

// The target of each attribute, with a tab before it.
pub(crate) fn put_targets(lines: &AttributeLines, e: Element, sink: &mut Sink)
    requires { sink.old.at ≤ 2000000000 }
    ensures { Puts sink.old (gathered (λ t. tab ∷ t) (target_texts (attributes_of lines.now.text.now lines.now.attributes) e.masks)) sink.new × (sink.new.at ≤ sink.old.at + 98316) }
{
    let a = &lines.attributes;
    let masks = e.masks;
    for i in 0..a.len {
        sink.put(b'\t');
        put_target(a.values(lines.text, i), a.all[i].count, masks[i], sink);
    }
}
