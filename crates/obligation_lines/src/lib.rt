// An obligation's line: its tests, and its name's place laid down behind the nearest element's other obligations.
// (State and places are lent to be changed: a struct of both would have to promise at each step that it holds the same two.)
#![tactic(auto)]

ghost use Rattle.std.specs.Prelude.{◌≤◌};
ghost use Rattle.meaning.specs.Text.{cut, tab};
ghost use Rattle.refusals.specs.Numbers.{number_in};
ghost use Rattle.layout.specs.Places.{part};
ghost use Rattle.attribute_lines.specs.Sofar.{ObligationLine};
ghost use Rattle.attribute_lines.specs.Steps.{InFile, EndedLine};
ghost use Rattle.obligation_lines.specs.Obligations.{AllObliged, ObligationRefusal, ObligationStep};

use attribute_lines::State;
use layout::{ElementPlaces, Span, Tree};
use meaning::Kind;
use refusals::Refusal;

// The lowest of 3, 4, 14 and 7 that refuses an obligation's line, in that order.
fn obligation_refusal(
    file: &[u8],
    places: &[ElementPlaces],
    tree: Tree,
    line: &[u8],
) -> Result<(), Refusal>
    requires { (tree.depth ≤ 7) × AllObliged file.now places.now tree.len }
    ensures { ObligationRefusal file.now places.now tree (cut tab line.now) (number_in result) }
{
    let name = fields::field(line, 1);
    if !names::is_name(name) {
        return Err(Refusal::BadName);
    }
    if tree.len == 0 {
        return Err(Refusal::NoObligation);
    }
    let last = tree.len - 1;
    if layout::known_obligation(file, places, last, name) {
        return Err(Refusal::KnownName);
    }
    // the nearest element is a rule
    if tree.kinds[tree.depth] == Some(Kind::Rule) {
        return Err(Refusal::NoObligation);
    }
    if 2 <= places[last].obligation_count() {
        return Err(Refusal::NoObligation);
    }
    if syntax::word_of(Kind::Rule, fields::field(line, 2)).is_none() {
        return Err(Refusal::BadWord);
    }
    Ok(())
}

// An obligation's line of so many fields.
pub fn obligation_line(
    file: &[u8],
    st: &mut State,
    end: usize,
    fields: usize,
    places: &mut [ElementPlaces],
) -> Result<(), Refusal>
    requires { InFile file.now st.old × EndedLine file.now st.old end × ObligationLine (cut tab (part file.now st.old.at end)) fields × AllObliged file.now places.old st.old.tree.len }
    ensures { ObligationStep file.now places.old places.new st.old end st.new result }
{
    if fields != 3 {
        return Err(Refusal::BadLine);
    }
    let at = st.at;
    let tree = st.tree;
    let line = &file[at..end];
    obligation_refusal(file, places, tree, line)?;
    let last = tree.len - 1;
    let count = places[last].obligation_count();
    let start = at + 2;
    let name = Span {
        start,
        end: start + fields::field(line, 1).len(),
    };
    layout::put_obligation(places, last, count, name);
    st.at = end + 1;
    st.line += 1;
    Ok(())
}
