// Replies on 64 requests at once: a word has a bit for each request of a block.
#![tactic(auto)]

ghost use Rattle.std.specs.Prelude.{◌≡◌, ℕ, ◌≤◌, ◌<◌, Bool, not, cond, ◌&&◌, [], ◌∷◌};
ghost use Rattle.meaning.specs.declared.Element.{Element};
ghost use Rattle.meaning.specs.declared.Word.TheVariants.{DenyOverrides, PermitOverrides, FirstApplicable, OnlyOneApplicable};
ghost use Rattle.meaning.specs.Deciding.{bit, is, combined};
ghost use Rattle.table.specs.Rows.{algorithm_of};
ghost use Rattle.table.specs.Words.{word_in};
ghost use Rattle.decisions.specs.Replies.{next_of, step_of, replies_from, reply_at};
ghost use Rattle.blocks.specs.Bits.{decision_bit, reply_bit, Answers, Fits, Lowest};

use meaning::{Decision, Word};
use table::Row;

// Which requests are permitted and which denied: both is indeterminate, none not-applicable.
#[derive(Clone, Copy, PartialEq, Eq)]
pub struct Effects {
    pub permits: u64,
    pub denies: u64,
}

impl Effects {
    pub const NONE: Effects = Effects {
        permits: 0,
        denies: 0,
    };

    // Permit on these requests, or deny, and nothing on the others.
    pub fn permit(requests: u64) -> Effects
        ensures { (v : ℕ) → decision_bit result v ≡ cond (bit requests v) Decision.Permit Decision.NotApplicable }
    {
        Effects {
            permits: requests,
            denies: 0,
        }
    }

    pub fn deny(requests: u64) -> Effects
        ensures { (v : ℕ) → decision_bit result v ≡ cond (bit requests v) Decision.Deny Decision.NotApplicable }
    {
        Effects {
            permits: 0,
            denies: requests,
        }
    }

    // The requests whose decision is permit, and those whose decision is deny.
    pub fn permitted(self) -> u64
        ensures { (v : ℕ) → bit result v ≡ (bit self.permits v && not (bit self.denies v)) }
    {
        without(self.permits, self.denies)
    }

    pub fn denied(self) -> u64
        ensures { (v : ℕ) → bit result v ≡ (bit self.denies v && not (bit self.permits v)) }
    {
        without(self.denies, self.permits)
    }
}

// Which requests match an element's own target, and what it gives on them.
#[derive(Clone, Copy)]
pub struct Replies {
    pub matched: u64,
    pub given: Effects,
}

impl Replies {
    // Those of no children.
    pub const NONE: Replies = Replies {
        matched: 0,
        given: Effects::NONE,
    };
}

// One of at most 64 blocks of requests, over the first `n` elements of a table: a flag for each, and a row of 64 words for each, of which one tells which of the block's requests match its own target.
#[derive(Clone, Copy)]
pub struct Block<'a> {
    pub table: &'a [Row],
    pub struck: &'a [u8],
    pub hits: &'a [[u64; 64]],
    pub n: usize,
    pub block: usize,
    pub ghost fits: { Fits table.now struck.now hits.now n block },
}

// The bits of a word that another one does not have.
pub fn without(word: u64, other: u64) -> u64
    ensures { (v : ℕ) → bit result v ≡ (bit word v && not (bit other v)) }
{
    word ^ (word & other)
}

// The requests on which two give another decision.
pub fn differing(one: Effects, other: Effects) -> u64
    ensures { (v : ℕ) → bit result v ≡ not (is (decision_bit one v) (decision_bit other v)) }
{
    (one.permits ^ other.permits) | (one.denies ^ other.denies)
}

// The children so far and one more, by the algorithms that look at decisions alone.
// (The first two are no twins: a child that is indeterminate is a deny for deny-overrides, and neither for the other.)
fn deny_overrides(so_far: Effects, child: Effects) -> Effects
    ensures { (v : ℕ) → decision_bit result v ≡ next_of DenyOverrides (decision_bit so_far v) (decision_bit child v) }
{
    let denies = so_far.denies | child.denies;
    let permits = without(so_far.permits | child.permits, denies);
    Effects { permits, denies }
}

fn permit_overrides(so_far: Effects, child: Effects) -> Effects
    ensures { (v : ℕ) → decision_bit result v ≡ next_of PermitOverrides (decision_bit so_far v) (decision_bit child v) }
{
    let permitted = so_far.permitted() | child.permitted();
    let denied = so_far.denied() | child.denied();
    Effects {
        permits: permitted | without(so_far.permits | child.permits, denied),
        denies: without(so_far.denies | child.denies, permitted),
    }
}

fn first_applicable(so_far: Effects, child: Effects) -> Effects
    ensures { (v : ℕ) → decision_bit result v ≡ next_of FirstApplicable (decision_bit so_far v) (decision_bit child v) }
{
    let settled = so_far.permits | so_far.denies;
    Effects {
        permits: so_far.permits | without(child.permits, settled),
        denies: so_far.denies | without(child.denies, settled),
    }
}

// By only-one-applicable: where both match it is indeterminate.
fn only_one(so_far: Replies, child: Replies) -> Effects
    ensures { (v : ℕ) → decision_bit result v ≡ combined OnlyOneApplicable (reply_bit so_far v ∷ reply_bit child v ∷ []) }
{
    let both = so_far.matched & child.matched;
    let earlier = without(so_far.matched, both);
    let later = without(child.matched, both);
    let first = so_far.given;
    let second = child.given;
    Effects {
        permits: both | ((first.permits & earlier) | (second.permits & later)),
        denies: both | ((first.denies & earlier) | (second.denies & later)),
    }
}

// The decision of the children so far and one more.
// (Words are compared: a `match` becomes a jump through a table, for each child.)
fn next(algorithm: Word, so_far: Replies, child: Replies) -> Effects
    ensures { (v : ℕ) → decision_bit result v ≡ combined (algorithm_of algorithm) (reply_bit so_far v ∷ reply_bit child v ∷ []) }
{
    if algorithm == Word::DenyOverrides {
        return deny_overrides(so_far.given, child.given);
    }
    if algorithm == Word::PermitOverrides {
        return permit_overrides(so_far.given, child.given);
    }
    if algorithm == Word::FirstApplicable {
        return first_applicable(so_far.given, child.given);
    }
    only_one(so_far, child)
}

// The children so far and one more, taken as one.
pub fn step(algorithm: Word, so_far: Replies, child: Replies) -> Replies
    ensures { (v : ℕ) → reply_bit result v ≡ step_of (algorithm_of algorithm) (reply_bit so_far v) (reply_bit child v) }
{
    Replies {
        matched: so_far.matched | child.matched,
        given: next(algorithm, so_far, child),
    }
}

impl Block<'_> {
    // The requests that match element i's own target.
    pub fn matched(&self, i: usize) -> u64
        requires { i < self.now.n }
        ensures { result ≡ word_in self.now.hits.now i self.now.block }
    {
        self.hits[i][self.block]
    }

    // The replies of element `at`: behind it stand its children, and what comes after them.
    #[cycle(fold_reply)]
    #[inline]
    pub fn reply(&self, at: usize) -> Replies
        requires { at < self.now.n }
        ensures { (v : ℕ) (hit : Element → Bool) → Answers self.now.table.now self.now.hits.now self.now.n self.now.block v hit → reply_bit result v ≡ reply_at hit self.now.table.now self.now.struck.now self.now.n at }
    {
        let matched = self.matched(at);
        if matched == 0 {
            return Replies::NONE;
        }
        let given = match table::word_at(self.table, at) {
            Word::Permit => Effects::permit(matched),
            Word::Deny => Effects::deny(matched),
            algorithm => {
                let depth = table::depth_at(self.table, at) + 1;
                let given = self.fold(at + 1, depth, algorithm);
                Effects {
                    permits: matched & given.permits,
                    denies: matched & given.denies,
                }
            }
        };
        Replies { matched, given }
    }

    // What the algorithm gives of the children at the depth from `from` on, up to the first element of a lower depth.
    // (Kept out of `reply`, so that a rule is asked with no call.)
    #[cycle(fold_reply)]
    #[inline(never)]
    fn fold(&self, from: usize, depth: usize, algorithm: Word) -> Effects
        requires { from ≤ self.now.n }
        ensures { (v : ℕ) (hit : Element → Bool) → Answers self.now.table.now self.now.hits.now self.now.n self.now.block v hit → decision_bit result v ≡ combined (algorithm_of algorithm) (replies_from hit self.now.table.now self.now.struck.now self.now.n depth from) }
    {
        // kept at hand: its rows alone are looked at where deeper elements are passed over
        let table = self.table;
        let mut so_far = Replies::NONE;
        for at in from..self.n {
            if self.struck[at] == 0 {
                let d = table::depth_at(table, at);
                if d < depth {
                    return so_far.given;
                }
                if d == depth && self.matched(at) != 0 {
                    so_far = step(algorithm, so_far, self.reply(at));
                }
            }
        }
        so_far.given
    }
}

// The decision on the request whose bit is v.
pub fn decision_of(effects: Effects, v: usize) -> Decision
    requires { v < 64 }
    ensures { result ≡ decision_bit effects v }
{
    let permitted = (effects.permits >> v) % 2 == 1;
    let denied = (effects.denies >> v) % 2 == 1;
    match (permitted, denied) {
        (true, true) => Decision::Indeterminate,
        (true, false) => Decision::Permit,
        (false, true) => Decision::Deny,
        (false, false) => Decision::NotApplicable,
    }
}

// The lowest bit that is set.
pub fn lowest(word: u64) -> u32
    requires { 0 < word }
    ensures { Lowest word result }
{
    u64::trailing_zeros(word)
}
