// Which requests match each element's own target, 64 requests in a word.
// (A plane, a size, a mask and a count go on as they are: each function is a step of one walk, and a struct of them would be built anew at every step.)
#![tactic(auto)]

ghost use Rattle.std.specs.Prelude.{◌≡◌, true, false, cond, ◌&&◌, ◌||◌, ◌++◌, ℕ, ◌+◌, ◌-◌, ◌*◌, ◌/◌, ◌%◌, ◌≤◌, ◌<◌, length, take, drop, get_or};
ghost use Rattle.meaning.specs.Model.{product};
ghost use Rattle.meaning.specs.Deciding.{bit, in_field, within, request_of};
ghost use Rattle.table.specs.Shape.{CountsSets};
ghost use Rattle.matching.specs.Planes.{laid, raised, Moved, Clear, Plane};
ghost use Rattle.matching.specs.Hits.{Rest, Matchable, HitsLaid};

use table::{Row, Shape};

// A word moved up by s bits, the highest bits of the word before it coming in.
fn moved(word: u64, before: u64, s: usize) -> u64
    requires { s < 64 }
    ensures { (v : ℕ) → v < 64 → Moved word before s result v }
{
    (word << s) | ((before >> 1) >> (63 - s))
}

// Word k of the plane moved up by s bits.
fn word_moved(plane: &[u64; 64], k: usize, s: usize) -> u64
    requires { (k < 64) × (s < 64) }
    ensures { (v : ℕ) → v < 64 → bit result v ≡ raised plane.now s (64 * k + v) }
{
    if k == 0 {
        moved(plane[0], 0, s)
    } else {
        moved(plane[k], plane[k - 1], s)
    }
}

// Lays a plane of `size` bits, moved up by `at`, over another one.
fn lay(plane: &[u64; 64], size: usize, at: usize, to: &mut [u64])
    requires { (at + size ≤ 4096) × Clear plane.now size × (length to.old ≡ 64) }
    ensures { (m : ℕ) → m < 4096 → laid to.new m ≡ (laid to.old m || raised plane.now at m) }
{
    let first = at / 64;
    let s = at % 64;
    for w in first..(at + size + 63) / 64 {
        to[w] |= word_moved(plane, w - first, s);
    }
}

// A plane with itself laid over it, moved up by `at`.
fn again(plane: &[u64; 64], size: usize, at: usize) -> [u64; 64]
    requires { (at + size ≤ 4096) × Clear plane.now size × (length plane.now ≡ 64) }
    ensures { (m : ℕ) → m < 4096 → laid result m ≡ (laid plane.now m || raised plane.now at m) }
{
    let mut to = *plane;
    lay(plane, size, at, &mut to);
    to
}

// The plane of one attribute more: request m has value m / size of it, and the later ones are those of request m % size.
fn spread_values(plane: &[u64; 64], size: usize, mask: u16, count: usize) -> [u64; 64]
    requires { (0 < size) × (count * size ≤ 4096) × Clear plane.now size }
    ensures { Plane result (count * size) (λ m. bit mask (m / size) && laid plane.now (m % size)) }
{
    let mut to = [0u64; 64];
    let mut rest = mask;
    let mut at = 0;
    for _v in 0..count {
        if rest % 2 == 1 {
            lay(plane, size, at, &mut to);
        }
        rest /= 2;
        at += size;
    }
    to
}

// The sets of k values, `sets`, and those that have the next value too: if it is in the mask (`taken`) all of these match,
// else those that match without it. `all` has the plane 2^k times, which are `width` bits.
fn with_value(
    sets: &[u64; 64],
    all: &[u64; 64],
    size: usize,
    width: usize,
    taken: bool,
) -> [u64; 64]
    requires { (size ≤ width) × (width - size + width ≤ 4096) × Clear sets.now (width - size) × Clear all.now width × (length sets.now ≡ 64) }
    ensures { (m : ℕ) → m < 4096 → laid result m ≡ (laid sets.now m || cond taken (raised all.now (width - size) m) (raised sets.now width m)) }
{
    if taken {
        let mut to = *sets;
        lay(all, width, width - size, &mut to);
        return to;
    }
    again(sets, width - size, width)
}

// The plane of one attribute more at which requests have sets: request m has set m / size. Value by value, by doubling:
// `copies` is 2^k for k values, whose sets are one less.
fn spread_sets(plane: &[u64; 64], size: usize, mask: u16, count: usize) -> [u64; 64]
    requires { (0 < size) × (0 < count) × (count * size ≤ 4096) × Clear plane.now size × (length plane.now ≡ 64) × CountsSets count }
    ensures { Plane result (count * size) (λ m. in_field true mask (m / size) && laid plane.now (m % size)) }
{
    let mut sets = [0u64; 64];
    let mut all = *plane;
    let mut rest = mask;
    let mut copies = 1;
    loop {
        let width = copies * size;
        sets = with_value(&sets, &all, size, width, rest % 2 == 1);
        copies *= 2;
        if count < copies {
            return sets;
        }
        all = again(&all, width, width);
        rest /= 2;
    }
}

// The plane of one attribute more, of either kind.
fn spread(plane: &[u64; 64], size: usize, several: bool, mask: u16, count: usize) -> [u64; 64]
    requires { (0 < size) × (0 < count) × (count * size ≤ 4096) × Clear plane.now size × (length plane.now ≡ 64) × (several ≡ true → CountsSets count) }
    ensures { Plane result (count * size) (λ m. in_field several mask (m / size) && laid plane.now (m % size)) }
{
    if several {
        return spread_sets(plane, size, mask, count);
    }
    spread_values(plane, size, mask, count)
}

// The requests that match the masks, from the last attribute to the first.
fn match_masks(masks: [u16; 6], several: [bool; 6], counts: [usize; 6], len: usize) -> [u64; 64]
    requires { (len ≤ 6) × (0 < product (take len counts)) × (product (take len counts) ≤ 4096) × ((i : ℕ) → i < len → get_or several i false ≡ true → CountsSets (get_or counts i 0)) }
    ensures { Plane result (product (take len counts)) (λ m. within (take len several) masks (request_of (take len counts) m)) }
{
    let mut plane = [0u64; 64];
    plane[0] = 1;
    let mut size = 1;
    for a in (0..len).rev() {
        let count = counts[a];
        plane = spread(&plane, size, several[a], masks[a], count);
        size = count * size;
    }
    plane
}

// Copies the first `words` words of a plane to those of an element's row; all words behind them stay.
pub fn copy_plane(plane: &[u64; 64], words: usize, row: &mut [u64])
    requires { (words ≤ 64) × (words ≤ length row.old) }
    ensures { row.new ≡ take words plane.now ++ drop words row.old }
{
    row[..words].copy_from_slice(&plane[..words]);
}

// Lays down which requests match each element's own target, a row for each. All other words stay.
pub fn match_all(table: &[Row], shape: Shape, hits: &mut [[u64; 64]])
    requires { Matchable table.now shape hits.old }
    ensures { HitsLaid table.now hits.new shape × Rest shape.n shape.space hits.old hits.new }
{
    let words = (shape.space + 63) / 64;
    for i in 0..shape.n {
        let plane = match_masks(
            table::masks_at(table, i),
            shape.several,
            shape.counts,
            shape.len,
        );
        copy_plane(&plane, words, &mut hits[i]);
    }
}
