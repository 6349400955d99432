// The lines of an element's obligations.
ghost use Rattle.std.specs.Prelude.{◌+◌, ◌≤◌};
ghost use Rattle.meaning.specs.Text.{gathered, line};
ghost use Rattle.meaning.specs.Model.{obligations_of};
ghost use Rattle.meaning.specs.Writing.{obligation_fields};
ghost use Rattle.printing.specs.Puts.{Puts};
ghost use Rattle.treelines.specs.Writable.{Small};

use crate::fields;
use meaning::{Element, Obligation};
use printing::Sink;

// The line of an obligation: `O`, its name and its effect.
fn put_obligation(o: Obligation, sink: &mut Sink)
    requires { (o.len ≤ 16) × (sink.old.at ≤ 2000000000) }
    ensures { Puts sink.old (line (obligation_fields o)) sink.new × (sink.new.at ≤ sink.old.at + 40) }
{
    sink.put_field(b"O", b'\t');
    fields::put_name(o.name, o.len, sink);
    fields::put_word(o.word, sink);
    sink.put(b'\n');
}

// The lines of all obligations of an element, at most two.
pub(crate) fn put_obligations(e: Element, sink: &mut Sink)
    requires { Small e × (sink.old.at ≤ 1500000000) }
    ensures { Puts sink.old (gathered (λ o. line (obligation_fields o)) (obligations_of e)) sink.new × (sink.new.at ≤ sink.old.at + 80) }
{
    if e.obligations > 0 {
        put_obligation(e.first, sink);
    }
    if e.obligations > 1 {
        put_obligation(e.second, sink);
    }
}
