// The elements of a policy, lent as a table with a row for each, and a flag for each: one that is not 0 strikes its element.
// (Flags stay numbers: the functions on them that docs/ARCHITECTURE.md names take any, and a `bool` would ask more of callers. A table and how many of its rows are the policy's go on as two for the same reason: it may have more.)
#![tactic(auto)]

ghost use Rattle.std.specs.Prelude.{◌≡◌, ◌+◌, ◌≤◌, ◌<◌, length, IfSome};
ghost use Rattle.std.proofs.Math.Option.{some};
ghost use Rattle.meaning.specs.Deciding.{matches};
ghost use Rattle.requests.specs.Values.{values_of, severals_of};
ghost use Rattle.laws.specs.Found.{found};
ghost use Rattle.table.specs.Rows.{Rows, algorithm_at, word_at, number_of_word, row_of, word_number, depth_of, masks_at, element_at, with_row};
ghost use Rattle.table.specs.Tree.{parent_of, over_of, Over, rule_left, next_child, Room};

use meaning::Word;
use requests::Request;

// A policy's shape: `n` elements; at which of `len` attributes a request has sets of values, how many choices each has, and
// their product, the number of requests. Arrays of six and `len`, as a request has them, which lies as in C.
#[derive(Clone, Copy)]
pub struct Shape {
    pub n: usize,
    pub several: [bool; 6],
    pub counts: [usize; 6],
    pub len: usize,
    pub space: usize,
}

// An element's row: its word's number, its depth and its masks.
#[derive(Clone, Copy)]
pub struct Row {
    // a number, since the functions below take a table of any numbers
    pub word: u16,
    pub depth: u16,
    pub masks: [u16; 6],
}

impl Row {
    pub const NONE: Row = Row {
        word: 0,
        depth: 0,
        masks: [0; 6],
    };

    pub fn new(word: Word, depth: u16, masks: [u16; 6]) -> Row
        ensures { result ≡ row_of (some word) depth masks }
    {
        Row {
            word: number_of(word),
            depth,
            masks,
        }
    }
}

// The number of a word.
fn number_of(word: Word) -> u16
    ensures { result ≡ number_of_word (some word) }
{
    match word {
        Word::Permit => 0,
        Word::Deny => 1,
        Word::DenyOverrides => 2,
        Word::PermitOverrides => 3,
        Word::FirstApplicable => 4,
        Word::OnlyOneApplicable => 5,
    }
}

// The word of that number.
fn word_of(number: u16) -> Word
    ensures { result ≡ word_at number }
{
    match number {
        0 => Word::Permit,
        1 => Word::Deny,
        2 => Word::DenyOverrides,
        3 => Word::PermitOverrides,
        4 => Word::FirstApplicable,
        _ => Word::OnlyOneApplicable,
    }
}

// The combining algorithm of that number; every number from 3 on is the last one's.
pub fn algorithm_of_number(number: usize) -> Word
    ensures { result ≡ algorithm_at number }
{
    match number {
        0 => Word::DenyOverrides,
        1 => Word::PermitOverrides,
        2 => Word::FirstApplicable,
        _ => Word::OnlyOneApplicable,
    }
}

// Element i's word, its depth and its masks.
#[tactic(auto, unfolding(crate::specs::Rows::word_number))]
pub fn word_at(table: &[Row], i: usize) -> Word
    requires { Rows table.now (i + 1) }
    ensures { result ≡ word_at (word_number table.now i) }
{
    word_of(table[i].word)
}

#[tactic(auto, unfolding(crate::specs::Rows::depth_of))]
pub fn depth_at(table: &[Row], i: usize) -> usize
    requires { Rows table.now (i + 1) }
    ensures { (result ≡ depth_of table.now i) × (result < 65536) }
{
    usize::from(table[i].depth)
}

#[tactic(auto, unfolding(crate::specs::Rows::masks_at))]
pub fn masks_at(table: &[Row], i: usize) -> [u16; 6]
    requires { Rows table.now (i + 1) }
    ensures { result ≡ masks_at table.now i }
{
    table[i].masks
}

// Whether a request matches element i's own target.
#[tactic(auto, unfolding(crate::specs::Rows::element_at, crate::specs::Rows::masks_at))]
pub fn matches(table: &[Row], i: usize, q: Request) -> bool
    requires { Rows table.now (i + 1) × (q.len ≤ 6) }
    ensures { result ≡ matches (severals_of q) (values_of q) (element_at table.now i) }
{
    q.matches(&table[i].masks)
}

// Puts an element's row into the table.
pub fn put_row(table: &mut [Row], i: usize, row: Row)
    requires { Rows table.old (i + 1) }
    ensures { table.new ≡ with_row table.old i row }
{
    table[i] = row;
}

// Whether element i is a rule that is not struck.
pub fn is_left(table: &[Row], struck: &[u8], i: usize) -> bool
    requires { Rows table.now (i + 1) × (i < length struck.now) }
    ensures { result ≡ rule_left table.now struck.now i }
{
    struck[i] == 0 && matches!(word_at(table, i), Word::Permit | Word::Deny)
}

// The parent of element i: the nearest earlier element of depth one less.
pub fn parent(table: &[Row], i: usize) -> Option<usize>
    requires { Rows table.now (i + 1) }
    ensures value { result ≡ found (parent_of table.now i) }
    ensures earlier { IfSome result (λ up. up < i) }
{
    let depth = depth_at(table, i);
    for j in (0..i).rev() {
        if depth_at(table, j) + 1 == depth {
            return Some(j);
        }
    }
    None
}

// The nearest earlier element that is less deep, or the element itself where there is none: a number, since the definition `over_of`
// gives that number too.
pub fn over(table: &[Row], i: usize) -> usize
    requires { Rows table.now (i + 1) }
    ensures value { result ≡ over_of table.now i }
    ensures above { Over table.now result i }
{
    let depth = depth_at(table, i);
    for j in (0..i).rev() {
        if depth_at(table, j) < depth {
            return j;
        }
    }
    i
}

// The next child at the depth that is not struck, from `from` on; none where an element of a lower depth, or no element, comes first.
pub fn next_child(
    table: &[Row],
    struck: &[u8],
    n: usize,
    from: usize,
    depth: usize,
) -> Option<usize>
    requires { Room table.now struck.now n from }
    ensures value { result ≡ found (next_child table.now struck.now n depth from) }
    ensures within { IfSome result (λ at. (from ≤ at) × (at < n)) }
{
    for at in from..n {
        let live = struck[at] == 0;
        if live {
            let d = depth_at(table, at);
            if d < depth {
                return None;
            }
            if d == depth {
                return Some(at);
            }
        }
    }
    None
}
