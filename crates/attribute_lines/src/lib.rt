// The lines of a policy file: what any line is by its first field, and the step over an attribute line.
#![tactic(auto)]

ghost use Rattle.std.specs.Prelude.{◌≡◌};
ghost use Rattle.meaning.specs.Text.{cut, tab};
ghost use Rattle.meaning.specs.Model.{most_values};
ghost use Rattle.refusals.specs.Numbers.{number_in};
ghost use Rattle.layout.specs.Places.{part};
ghost use Rattle.attribute_lines.specs.Sofar.{Tested, AttributeRefusal, AttributeLine, CountIs, shape_of};
ghost use Rattle.attribute_lines.specs.Steps.{InFile, EndedLine, beginning, AttributeStep};

use layout::{AttributePlace, Attributes, Tree};
use refusals::Refusal;
use syntax::LineKind;

// Where the reader stands: the next line's start and number, what was read, and the space so far.
#[derive(Clone, Copy)]
pub struct State {
    pub at: usize,
    pub line: usize,
    pub attributes: Attributes,
    pub space: usize,
    pub tree: Tree,
}

// What a line is by its first field, and how many fields it has; other where test 2 refuses it whatever stands before.
#[derive(Clone, Copy)]
pub struct LineShape {
    pub kind: LineKind,
    pub fields: usize,
}

// The state before the first line.
pub fn start() -> State
    ensures { result ≡ beginning }
{
    let attributes = Attributes::none();
    let tree = Tree {
        len: 0,
        depth: 0,
        kinds: [None; 8],
    };
    State {
        at: 0,
        line: 1,
        attributes,
        space: 1,
        tree,
    }
}

// The most values that an attribute may have.
fn most_values(several: bool) -> usize
    ensures { result ≡ most_values several }
{
    if several { 12 } else { 16 }
}

// The lowest of 3 to 6 that refuses an attribute line of so many fields.
fn attribute_refusal(
    file: &[u8],
    st: &State,
    several: bool,
    line: &[u8],
    fields: usize,
) -> Result<(), Refusal>
    requires { Tested file.now st.now.attributes st.now.space (cut tab line.now) fields }
    ensures { AttributeRefusal file.now st.now.attributes st.now.space st.now.tree.len several (cut tab line.now) fields (number_in result) }
{
    if !names::all_names(text::from_field(line, 1)) {
        return Err(Refusal::BadName);
    }
    if layout::known_attribute(file, &st.attributes, fields::field(line, 1)) {
        return Err(Refusal::KnownName);
    }
    if !repeats::all_distinct(text::from_field(line, 2)) {
        return Err(Refusal::KnownName);
    }
    if 6 <= st.attributes.len {
        return Err(Refusal::TooMany);
    }
    let values = fields - 2;
    if most_values(several) < values {
        return Err(Refusal::TooMany);
    }
    if 4096 < st.space * layout::choices(several, values) {
        return Err(Refusal::TooMany);
    }
    if st.tree.len != 0 {
        return Err(Refusal::Misplaced);
    }
    Ok(())
}

// An attribute line of so many fields. (The state is changed in place: to hand it on would copy it at every line.)
pub fn attribute_line(
    file: &[u8],
    st: &mut State,
    end: usize,
    several: bool,
    fields: usize,
) -> Result<(), Refusal>
    requires { InFile file.now st.old × EndedLine file.now st.old end × AttributeLine several (cut tab (part file.now st.old.at end)) fields }
    ensures { AttributeStep file.now st.old end several fields st.new result }
{
    let at = st.at;
    let line = &file[at..end];
    attribute_refusal(file, st, several, line, fields)?;
    let name = fields::field(line, 1);
    let first = at + 3 + name.len();
    let values = fields - 2;
    st.attributes.push(AttributePlace {
        several,
        name: at + 2,
        values: first,
        end,
        count: values,
    });
    st.space *= layout::choices(several, values);
    st.at = end + 1;
    st.line += 1;
    Ok(())
}

// The shape of a line whose fields were counted.
pub fn shape_of(line: &[u8], fields: usize) -> LineShape
    requires { CountIs (cut tab line.now) fields }
    ensures { result ≡ shape_of (cut tab line.now) }
{
    if fields < 3 {
        return LineShape {
            kind: LineKind::Other,
            fields,
        };
    }
    let kind = syntax::line_kind(fields::field(line, 0));
    LineShape { kind, fields }
}

// The shape of any line.
pub fn line_shape(line: &[u8]) -> LineShape
    ensures { result ≡ shape_of (cut tab line.now) }
{
    shape_of(line, text::count_fields(line))
}
