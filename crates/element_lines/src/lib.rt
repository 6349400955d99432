// A tree line: its tests, its masks, and its element laid down behind the others.
#![tactic(auto)]

ghost use Rattle.std.specs.Prelude.{◌≡◌, [], ◌+◌, ◌≤◌, length, get_or, IfOk};
ghost use Rattle.std.proofs.Math.Option.{some};
ghost use Rattle.meaning.specs.Text.{cut, tab};
ghost use Rattle.meaning.specs.Reading.{depth_of, word_of, Sofar, lowest};
ghost use Rattle.refusals.specs.Numbers.{number_in};
ghost use Rattle.table.specs.Rows.{row_of, with_row};
ghost use Rattle.layout.specs.Nearest.{grown};
ghost use Rattle.layout.specs.Places.{part, with_name, Named};
ghost use Rattle.element_lines.specs.Elements.{element_from, Behind, earlier_tests, Fits};
ghost use Rattle.attribute_lines.specs.Sofar.{TreeLine};
ghost use Rattle.attribute_lines.specs.Steps.{BeforeLine, EndedLine, StepIs};

use attribute_lines::State;
use layout::{ElementPlaces, Tree};
use meaning::{Kind, Word};
use refusals::Refusal;
use table::Row;
use tree_fields::HeadedLine;

// A tree line of this kind.
#[derive(Clone, Copy)]
struct KindLine<'a> {
    kind: Kind,
    line: HeadedLine<'a>,
}

// The word of a tree line, or the lowest of 3 to 7 that refuses the line.
fn element_word(
    file: &[u8],
    st: &State,
    places: &[ElementPlaces],
    l: KindLine,
) -> Result<Word, Refusal>
    requires { Named file.now places.now st.now.tree.len × (st.now.tree.depth ≤ 7) × ((s : Sofar) × Behind file.now st.now.attributes places.now st.now.tree s) }
    ensures refusal { let l = l.entry in (s : Sofar) → Behind file.now st.now.attributes places.now st.now.tree s
        → number_in result ≡ lowest (earlier_tests s (get_or (cut tab l.line.text.now) 3 []) (element_from s.attributes l.kind (cut tab l.line.text.now))) }
    ensures word { let l = l.entry in IfOk result (λ word. word_of l.kind (get_or (cut tab l.line.text.now) 3 []) ≡ some word) }
{
    let name = l.line.name();
    if !names::is_name(name) {
        return Err(Refusal::BadName);
    }
    if layout::known_element(file, places, st.tree.len, name) {
        return Err(Refusal::KnownName);
    }
    if 64 <= st.tree.len {
        return Err(Refusal::TooMany);
    }
    if st.attributes.len == 0 {
        return Err(Refusal::Misplaced);
    }
    let depth = syntax::depth_of(l.line.depth());
    if !layout::well_placed(l.kind, depth, st.tree) {
        return Err(Refusal::Misplaced);
    }
    syntax::word_of(l.kind, l.line.word()).ok_or(Refusal::BadWord)
}

// Lays the element of a tree line down behind the others; what is given is the tree with it.
fn lay_element(
    st: &State,
    l: KindLine,
    word: Word,
    masks: [u16; 6],
    table: &mut [Row],
    places: &mut [ElementPlaces],
) -> Tree
    requires { Fits table.old places.old st.now (cut tab l.line.text.now) }
    ensures value { let l = l.entry in result ≡ grown st.now.tree l.kind (depth_of (get_or (cut tab l.line.text.now) 1 [])) }
    ensures table_after { let l = l.entry in table.new ≡ with_row table.old st.now.tree.len (row_of (some word) (depth_of (get_or (cut tab l.line.text.now) 1 [])) masks) }
    ensures places_after { let l = l.entry in places.new ≡ with_name places.old st.now.tree.len st.now.at (st.now.at + 4 + length (get_or (cut tab l.line.text.now) 2 [])) }
{
    let at = st.at;
    let depth = syntax::depth_of(l.line.depth());
    let name = l.line.name();
    let row = Row::new(word, depth as u16, masks);
    layout::put_element(table, places, st.tree.len, row, at, at + 4 + name.len());
    layout::with_element(st.tree, l.kind, depth)
}

// A tree line of this kind and of so many fields.
// (Seven parameters: the state, and what an element is laid into, are lent by the reader.)
pub fn tree_line(
    file: &[u8],
    st: &mut State,
    end: usize,
    kind: Kind,
    fields: usize,
    table: &mut [Row],
    places: &mut [ElementPlaces],
) -> Result<(), Refusal>
    requires { BeforeLine file.now table.old places.old st.old × EndedLine file.now st.old end × TreeLine (cut tab (part file.now st.old.at end)) kind fields }
    ensures { StepIs file.now table.old places.old table.new places.new st.old end st.new result }
{
    if fields != 4 + st.attributes.len {
        return Err(Refusal::BadLine);
    }
    let line = HeadedLine::of(&file[st.at..end]);
    let l = KindLine { kind, line };
    let word = element_word(file, st, places, l)?;
    let Some(masks) = line.masks(file, &st.attributes) else {
        return Err(Refusal::BadTarget);
    };
    st.tree = lay_element(st, l, word, masks, table, places);
    st.at = end + 1;
    st.line += 1;
    Ok(())
}
