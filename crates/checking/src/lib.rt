// The tests of each element of a list by value and of its obligations, as the writer makes them before it writes.
#![tactic(auto)]

mod obligations;
mod parts;

ghost use Rattle.std.specs.Prelude.{◌≡◌, ◌||◌, List, [], map, suc, ◌+◌, ◌*◌, ◌≤◌, take, length, IsOk};
ghost use Rattle.meaning.specs.Text.{among_names};
ghost use Rattle.meaning.specs.Model.{Attribute, name_of, word_text};
ghost use Rattle.meaning.specs.Reading.{lowest, bad_name, bad_unused, bad_masks, element_tests};
ghost use Rattle.meaning.specs.Writing.{read_element, read_elements};
ghost use Rattle.meaning.specs.Claims.Texts.{All};
ghost use Rattle.meaning.specs.Claims.Writing.{Shaped};
ghost use Rattle.refusals.specs.Numbers.{number_in};
ghost use Rattle.layout.specs.Places.{value_counts};
ghost use Rattle.checking.specs.Tested.{FewValues, earlier, ShortNames, Begun, behind, CheckedAs};

use layout::Tree;
use meaning::Element;
use refusals::{Refusal, Refused};

// How many values each of so many attributes has.
#[derive(Clone, Copy)]
pub struct ValueCounts {
    pub counts: [usize; 6],
    pub len: usize,
    pub ghost few: { FewValues counts len },
}

impl ValueCounts {
    // 8: whether a mask is empty or has a bit too high, or one behind the last attribute is not zero.
    fn bad_masks(&self, masks: [u16; 6]) -> bool
        ensures { (attrs : List Attribute) → take self.now.len self.now.counts ≡ value_counts attrs → result ≡ bad_masks attrs masks }
    {
        for i in 0..self.len {
            let mask = masks[i];
            if mask == 0 {
                return true;
            }
            if elements::full_mask(self.counts[i]) < mask {
                return true;
            }
        }
        masks[self.len..].iter().any(|mask| *mask != 0)
    }
}

// 3 of an element.
fn bad_record(e: Element) -> bool
    ensures { result ≡ (bad_name e || bad_unused e) }
{
    let name = e.name;
    if parts::bad_stored(name, e.len) {
        return true;
    }
    obligations::bad_unused(e)
}

// 4: whether an element before has the name of e.
fn known(before: &[Element], e: Element) -> bool
    requires { (e.len ≤ 16) × ShortNames before.now (length before.now) }
    ensures { result ≡ among_names (name_of e) (map name_of (earlier before.now (length before.now))) }
{
    for other in before {
        if parts::same_stored(e.name, e.len, other.name, other.len) {
            return true;
        }
    }
    false
}

// The lowest of 3 to 8 that refuses the element e behind those that the tree stands for.
fn test_element(
    values: &ValueCounts,
    all: &[Element],
    tree: Tree,
    e: Element,
) -> Result<(), Refusal>
    requires { Begun all.now tree }
    ensures { (attrs : List Attribute) → take values.now.len values.now.counts ≡ value_counts attrs → number_in result ≡ lowest (element_tests (behind attrs all.now tree.len) (word_text e.word) e) }
{
    if bad_record(e) {
        return Err(Refusal::BadName);
    }
    if known(&all[..tree.len], e) {
        return Err(Refusal::KnownName);
    }
    if 64 <= tree.len {
        return Err(Refusal::TooMany);
    }
    if values.len == 0 {
        return Err(Refusal::Misplaced);
    }
    if !layout::well_placed(e.kind, e.depth as usize, tree) {
        return Err(Refusal::Misplaced);
    }
    if !parts::word_fits(e.kind, e.word) {
        return Err(Refusal::BadWord);
    }
    if values.bad_masks(e.masks) {
        return Err(Refusal::BadTarget);
    }
    Ok(())
}

// Tests the element e on its line, and its obligations on the lines behind it.
fn check_element(
    values: &ValueCounts,
    all: &[Element],
    tree: Tree,
    e: Element,
    line: u32,
) -> Result<(), Refused>
    requires { Begun all.now tree × (line ≤ 7 + 3 * tree.len) }
    ensures shaped { Shaped e }
    ensures told { (attrs : List Attribute) → take values.now.len values.now.counts ≡ value_counts attrs → CheckedAs result (read_element line (behind attrs all.now tree.len) e) }
{
    parts::on_line(test_element(values, all, tree, e), line)?;
    obligations::check_obligations(e, line)
}

// Tests the elements of a list in order, behind attributes of these value counts. What their Rattle type says of good ones, their sizes, is told, too.
pub fn check_elements(values: &ValueCounts, list: &[Element]) -> Result<(), Refused>
    ensures shaped { IsOk result → All Shaped list.now }
    ensures told { (attrs : List Attribute) → take values.now.len values.now.counts ≡ value_counts attrs → CheckedAs result (read_elements (suc values.now.len) (record { attributes = attrs; before = [] }) list.now) }
{
    let mut tree = Tree {
        len: 0,
        depth: 0,
        kinds: [None; 8],
    };
    let mut line = values.len as u32 + 1;
    for e in list {
        check_element(values, list, tree, *e, line)?;
        tree = layout::with_element(tree, e.kind, e.depth as usize);
        line += 1 + u32::from(e.obligations);
    }
    Ok(())
}
