// Reading a policy file in one pass: where its attributes and elements stand, the table of its elements, or the refusal.
#![tactic(auto)]

ghost use Rattle.std.specs.Prelude.{◌≡◌, ◌≤◌, length};
ghost use Rattle.meaning.specs.Text.{cut, tab};
ghost use Rattle.table.specs.Rows.{Rows};
ghost use Rattle.layout.specs.Places.{part, FewValues, Clear};
ghost use Rattle.attribute_lines.specs.Sofar.{CountIs};
ghost use Rattle.attribute_lines.specs.Steps.{BeforeLine, EndedLine, StepIs};
ghost use Rattle.reader.specs.Told.{LineAt, policy_shape, ended_at, ReadIs};

use attribute_lines::State;
use layout::{Attributes, ElementPlaces};
use refusals::{Refusal, Refused};
use syntax::LineKind;
use table::{Row, Shape};
use text::Counted;

// A policy that was read from a file: its attributes, how many requests they make, and how many elements there are.
#[derive(Clone, Copy)]
pub struct Policy {
    pub attributes: Attributes,
    pub space: usize,
    pub elements: usize,
}

impl Policy {
    // Its shape.
    pub fn shape(&self) -> Shape
        requires { (self.now.attributes.len ≤ 6) × FewValues self.now.attributes }
        ensures { result ≡ policy_shape self.now }
    {
        let attributes = &self.attributes;
        Shape {
            n: self.elements,
            several: attributes.severals(),
            counts: attributes.sizes(),
            len: attributes.len,
            space: self.space,
        }
    }
}

// The line at a place: where it ends, and how many fields it has.
fn line_at(file: &[u8], at: usize) -> Counted
    requires { at ≤ length file.now }
    ensures { LineAt file.now at result.end result.fields }
{
    let found = text::first_line(&file[at..]);
    let end = at + found.end;
    let fields = found.fields;
    Counted { end, fields }
}

// One line of so many fields, which a newline at `end` ends.
// (Table and places are lent to be written: a struct of both would have to promise at each step that it holds the same two.)
fn read_line(
    file: &[u8],
    st: &mut State,
    end: usize,
    fields: usize,
    table: &mut [Row],
    places: &mut [ElementPlaces],
) -> Result<(), Refusal>
    requires { BeforeLine file.now table.old places.old st.old × EndedLine file.now st.old end × CountIs (cut tab (part file.now st.old.at end)) fields }
    ensures { StepIs file.now table.old places.old table.new places.new st.old end st.new result }
{
    let shape = attribute_lines::shape_of(&file[st.at..end], fields);
    let kind = shape.kind;
    let fields = shape.fields;
    match kind {
        LineKind::Attribute(several) => {
            attribute_lines::attribute_line(file, st, end, several, fields)
        }
        LineKind::Tree(k) => element_lines::tree_line(file, st, end, k, fields, table, places),
        LineKind::Obligation => obligation_lines::obligation_line(file, st, end, fields, places),
        LineKind::Other => Err(Refusal::BadLine),
    }
}

// What stands behind the last newline, and the end of the file.
fn finish(st: &State, end: usize) -> Result<Policy, Refused>
    requires { st.now.line ≤ 16385 }
    ensures { result ≡ ended_at st.now end }
{
    if st.at != end {
        return Err(Refused {
            why: Refusal::BadLine,
            second: st.line as u32,
        });
    }
    let elements = st.tree.len;
    if elements == 0 {
        return Err(Refused {
            why: Refusal::NoElement,
            second: 0,
        });
    }
    Ok(Policy {
        attributes: st.attributes,
        space: st.space,
        elements,
    })
}

// (`header::read_header` has this loop's head alone: its lines are other ones, of which nothing is laid down.)
// Reads a file into the table and the places, which have no obligation before; a refused one up to the line that is refused.
pub fn read(file: &[u8], table: &mut [Row], places: &mut [ElementPlaces]) -> Result<Policy, Refused>
    requires { Rows table.old 64 × (64 ≤ length places.old) × Clear places.old 0 }
    ensures { ReadIs file.now table.old places.old table.new places.new result }
{
    if 16384 < file.len() {
        return Err(Refused {
            why: Refusal::LongFile,
            second: 0,
        });
    }
    let mut st = attribute_lines::start();
    loop {
        let found = line_at(file, st.at);
        let end = found.end;
        if end == file.len() {
            return finish(&st, end);
        }
        // no `?` behind `map_err`, which no longer carries what the call ensures
        if let Err(why) = read_line(file, &mut st, end, found.fields, table, places) {
            return Err(Refused {
                why,
                second: st.line as u32,
            });
        }
    }
}
