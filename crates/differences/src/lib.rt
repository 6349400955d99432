// Which requests get something else under other flags, over a policy's file and a lent table of its elements: the first that gets another decision, or other obligations.
#![tactic(auto)]

ghost use Rattle.std.specs.Prelude.{◌≡◌, true, ℕ, ◌+◌, ◌*◌, ◌≤◌, ◌<◌, length};
ghost use Rattle.meaning.specs.Text.{first_from};
ghost use Rattle.meaning.specs.Deciding.{bit};
ghost use Rattle.laws.specs.Found.{found};
ghost use Rattle.table.specs.Shape.{hit_of};
ghost use Rattle.outcomes.specs.Decided.{differs_at};
ghost use Rattle.outcomes.specs.Changes.{InBlock};
ghost use Rattle.obligations.specs.Given.{any_obliged, Giving};
ghost use Rattle.differences.specs.Apart.{apart, Compared, Suspects, Untouched, Touched};
ghost use Rattle.differences.specs.Marks.{Marked, LikeMarks, others_given, Among};

use blocks::{Block, Effects};
use layout::{ElementPlaces, PolicyFile};
use obligations::Marks;

// A policy file, with which requests match its elements and what each request gets, by words of 64, and whether an element has obligations.
// (It is written out where it is built: the equations of a constructor would have to be carried through each proof.)
#[derive(Clone, Copy)]
pub struct PolicyOutcomes<'a> {
    pub policy: PolicyFile<'a>,
    pub hits: &'a [[u64; 64]],
    pub outcomes: &'a [Effects],
    pub obliged: bool,
    pub ghost told: { obliged ≡ any_obliged policy.places.now policy.shape.n },
}

// The requests on which an element that has obligations is marked in one of the two and not in the other.
fn unlike(places: &[ElementPlaces], n: usize, one: &[u64], other: &[u64]) -> u64
    requires { (n ≤ length places.now) × (n ≤ length one.now) × (n ≤ length other.now) }
    ensures { Marked places.now n one.now other.now result }
{
    let mut word = 0;
    for i in 0..n {
        if places[i].has_obligations() {
            word |= one[i] ^ other[i];
        }
    }
    word
}

// The requests of `on` whose bit of the word is that of request v.
fn like_bit(word: u64, v: usize, on: u64) -> u64
    requires { v < 64 }
    ensures { (u : ℕ) → bit result u ≡ true → (bit on u ≡ true) × (bit word u ≡ bit word v) }
{
    if (word >> v) % 2 == 1 {
        return on & word;
    }
    blocks::without(on, word)
}

// The requests of `on` that have the marks of request v.
fn like_marks(words: &[u64], n: usize, v: usize, on: u64) -> u64
    requires { (v < 64) × (n ≤ length words.now) }
    ensures { LikeMarks words.now n v on result }
{
    let mut like = on;
    for i in 0..n {
        like = like_bit(words[i], v, like);
    }
    like
}

// The requests of the block that match an element struck.
fn touched(struck: &[u8], hits: &[[u64; 64]], n: usize, block: usize) -> u64
    requires { (n ≤ length struck.now) × (n ≤ 64) × (n ≤ length hits.now) × (block < 64) }
    ensures { Touched struck.now hits.now n block result }
{
    let mut word = 0;
    for i in 0..n {
        if struck[i] != 0 {
            word |= hits[i][block];
        }
    }
    word
}

impl<'a> PolicyOutcomes<'a> {
    // (What it takes beside the policy stands for this comparison alone, so no struct holds it.)
    // The first request from `from` on, of 64 at most and below `bound`, that is among those of `on` and gets other obligations by the one marks than by the other. The requests of `permits` are permitted, the others denied. Requests with the marks and the decision of one that was compared need no comparison.
    fn first_given(
        &self,
        one: &[u64],
        other: &[u64],
        permits: u64,
        on: u64,
        from: usize,
        bound: usize,
    ) -> Option<usize>
        requires { let p = self.now.policy in Giving p.file.now p.places.now one.now p.shape.n 0 × (p.shape.n ≤ length other.now) × (from < 4096) }
        ensures { let p = self.now.policy in Among (others_given p.file.now p.places.now p.shape.n one.now other.now permits) on from bound result }
    {
        let policy = self.policy;
        let n = policy.shape.n;
        let ones = Marks {
            file: policy.file,
            places: policy.places,
            n,
            words: one,
        };
        let others = Marks {
            file: policy.file,
            places: policy.places,
            n,
            words: other,
        };
        let mut left = on;
        for v in 0..64 {
            if bound <= from + v {
                return None;
            }
            if (left >> v) % 2 != 1 {
                continue;
            }
            let permit = (permits >> v) % 2 == 1;
            if !ones.same(&others, v, permit) {
                return Some(from + v);
            }
            let decided = like_bit(permits, v, left);
            let like = like_marks(other, n, v, like_marks(one, n, v, decided));
            left = blocks::without(left, like);
        }
        None
    }

    // The first request of the block that gets another decision under `struck` than under `before`, or other obligations. `first` is the first that gets another decision, and outside `on` no request gets anything else.
    fn obligation_difference(
        &self,
        before: &[u8],
        struck: &[u8],
        block: usize,
        on: u64,
        first: Option<usize>,
    ) -> Option<usize>
        requires { let p = self.now.policy in Compared p.file.now p.places.now p.table.now before.now struck.now self.now.hits.now self.now.outcomes.now p.shape × (64 * block < p.shape.space) × Suspects p.file.now p.places.now p.table.now before.now struck.now p.shape block on × InBlock (differs_at p.table.now p.shape.n (hit_of p.shape) self.now.outcomes.now struck.now) p.shape.space block first }
        ensures { let p = self.now.policy in InBlock (apart p.file.now p.places.now p.table.now p.shape.n (hit_of p.shape) before.now struck.now) p.shape.space block result }
    {
        let policy = self.policy;
        let n = policy.shape.n;
        let mut one = [0u64; 64];
        let mut other = [0u64; 64];
        let with = Block {
            table: policy.table,
            struck: before,
            hits: self.hits,
            n,
            block,
        };
        let without = Block {
            table: policy.table,
            struck,
            hits: self.hits,
            n,
            block,
        };
        chains::ask_all(&with, &mut one);
        chains::ask_all(&without, &mut other);
        let suspect = on & unlike(policy.places, n, &one, &other);
        let bound = first.unwrap_or(policy.shape.space);
        let given = self.first_given(
            &one,
            &other,
            self.outcomes[block].permits,
            suspect,
            64 * block,
            bound,
        );
        given.or(first)
    }

    // The same, where the first that gets another decision is to be found; the outcomes are those under `before`.
    pub fn difference_in(
        &self,
        before: &[u8],
        struck: &[u8],
        block: usize,
        on: u64,
    ) -> Option<usize>
        requires { let p = self.now.policy in Compared p.file.now p.places.now p.table.now before.now struck.now self.now.hits.now self.now.outcomes.now p.shape × (64 * block < p.shape.space) × Suspects p.file.now p.places.now p.table.now before.now struck.now p.shape block on }
        ensures { let p = self.now.policy in InBlock (apart p.file.now p.places.now p.table.now p.shape.n (hit_of p.shape) before.now struck.now) p.shape.space block result }
    {
        let policy = self.policy;
        let first = outcomes::change_in(
            policy.table,
            struck,
            self.hits,
            policy.shape,
            self.outcomes,
            block,
        );
        if !self.obliged {
            return first;
        }
        self.obligation_difference(before, struck, block, on, first)
    }
}

// The first request of all that gets another decision under `struck` than under `before`, or other obligations; the outcomes are those under `before`. Only requests that match an element struck can.
// (With `trials::first_change` it shares the `for` over blocks alone.)
pub fn first_difference(
    policy: PolicyFile,
    hits: &[[u64; 64]],
    outcomes: &[Effects],
    before: &[u8],
    struck: &[u8],
) -> Option<usize>
    requires { let p = policy in Compared p.file.now p.places.now p.table.now before.now struck.now hits.now outcomes.now p.shape × Untouched p.file.now p.places.now p.table.now before.now struck.now p.shape }
    ensures { let p = policy.entry in result ≡ found (first_from (apart p.file.now p.places.now p.table.now p.shape.n (hit_of p.shape) before.now struck.now) 0 p.shape.space) }
{
    let shape = policy.shape;
    let o = PolicyOutcomes {
        policy,
        hits,
        outcomes,
        obliged: obligations::any_obligations(policy.places, shape.n),
    };
    for block in 0..(shape.space + 63) / 64 {
        let on = touched(struck, hits, shape.n, block);
        if on == 0 {
            continue;
        }
        if let Some(first) = o.difference_in(before, struck, block, on) {
            return Some(first);
        }
    }
    None
}
