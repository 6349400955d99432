// The attribute lines that the writer takes: where the attributes stand in them, or the refusal.
#![tactic(auto)]

ghost use Rattle.std.specs.Prelude.{◌≡◌, ◌≤◌, length};
ghost use Rattle.meaning.specs.declared.Kind.{Kind};
ghost use Rattle.meaning.specs.Text.{cut, tab};
ghost use Rattle.meaning.specs.Model.{◌then◌};
ghost use Rattle.meaning.specs.Reading.{Sofar, read_text, short};
ghost use Rattle.meaning.specs.Writing.{header_tests};
ghost use Rattle.refusals.specs.Numbers.{number_of};
ghost use Rattle.attribute_lines.specs.Sofar.{TreeLine, ObligationLine, refusal_by};
ghost use Rattle.attribute_lines.specs.Steps.{EndedLine};
ghost use Rattle.header.specs.Among.{Among, Past};
ghost use Rattle.header.specs.Told.{HeaderAs};

use attribute_lines::State;
use layout::Attributes;
use refusals::{Refusal, Refused};
use syntax::LineKind;

// What refuses a tree line of so many fields behind so many attributes.
fn tree_refusal(line: &[u8], attributes: usize, fields: usize) -> Refusal
    requires { (attributes ≤ 6) × ((k : Kind) × TreeLine (cut tab line.now) k fields) }
    ensures { (s : Sofar) → length s.attributes ≡ attributes → number_of result ≡ refusal_by header_tests s (cut tab line.now) }
{
    if fields != 4 + attributes {
        return Refusal::BadLine;
    }
    if !names::is_name(fields::field(line, 2)) {
        return Refusal::BadName;
    }
    Refusal::Misplaced
}

// What refuses an obligation's line of so many fields.
fn obligation_refusal(line: &[u8], fields: usize) -> Refusal
    requires { ObligationLine (cut tab line.now) fields }
    ensures { (s : Sofar) → number_of result ≡ refusal_by header_tests s (cut tab line.now) }
{
    if fields != 3 {
        return Refusal::BadLine;
    }
    if !names::is_name(fields::field(line, 1)) {
        return Refusal::BadName;
    }
    Refusal::NoObligation
}

// One line, which a newline at `end` ends.
fn header_line(header: &[u8], st: &mut State, end: usize) -> Result<(), Refusal>
    requires { Among header.now st.old × EndedLine header.now st.old end }
    ensures { Past header.now st.old end st.new result }
{
    let line = &header[st.at..end];
    let shape = attribute_lines::line_shape(line);
    let kind = shape.kind;
    let fields = shape.fields;
    match kind {
        LineKind::Attribute(several) => {
            attribute_lines::attribute_line(header, st, end, several, fields)
        }
        LineKind::Tree(_) => Err(tree_refusal(line, st.attributes.len, fields)),
        LineKind::Obligation => Err(obligation_refusal(line, fields)),
        LineKind::Other => Err(Refusal::BadLine),
    }
}

// The attributes that attribute lines hold, or the refusal.
pub fn read_header(header: &[u8]) -> Result<Attributes, Refused>
    ensures { HeaderAs header.now result (short header.now then (read_text header_tests)) }
{
    let mut st = attribute_lines::start();
    if 16384 < header.len() {
        return Err(Refused {
            why: Refusal::LongFile,
            second: 0,
        });
    }
    loop {
        let at = st.at;
        let line = st.line as u32;
        let end = text::end_of(header, at, 10);
        if end == header.len() {
            if at != end {
                return Err(Refused {
                    why: Refusal::BadLine,
                    second: line,
                });
            }
            return Ok(st.attributes);
        }
        // no `?` behind `map_err`, which no longer carries what the call ensures
        if let Err(why) = header_line(header, &mut st, end) {
            return Err(Refused { why, second: line });
        }
    }
}
