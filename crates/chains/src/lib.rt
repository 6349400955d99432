// Which elements, with every element above them, were asked and gave the policy's decision, on 64 requests at once.
#![tactic(auto)]

ghost use Rattle.std.specs.Prelude.{◌≡◌, ℕ, ◌≤◌, length};
ghost use Rattle.meaning.specs.Deciding.{bit};
ghost use Rattle.blocks.specs.Bits.{decision_bit};
ghost use Rattle.chains.specs.Chain.{alike, settles, Marks, ChainLaid};

use blocks::{Block, Effects};
use meaning::Word;

// The requests on which both give permit, or both deny.
fn agreed(first: Effects, other: Effects) -> u64
    ensures { (v : ℕ) → bit result v ≡ alike (decision_bit first v) (decision_bit other v) }
{
    (first.permitted() & other.permitted()) | (first.denied() & other.denied())
}

// The requests on which what a child gives settles the answer, by its parent's word: deny or indeterminate, permit, or any decision.
// (Words are compared, as in `blocks`.)
fn settled(word: Word, child: Effects) -> u64
    ensures { (v : ℕ) → bit result v ≡ settles word (decision_bit child v) }
{
    if word == Word::DenyOverrides {
        return child.denies;
    }
    if word == Word::PermitOverrides {
        return child.permitted();
    }
    if word == Word::FirstApplicable {
        return child.permits | child.denies;
    }
    0
}

// Children to ask: their depth, their parent's word, the requests, and what the first element gives on them.
#[derive(Clone, Copy)]
struct Asking {
    depth: usize,
    word: Word,
    on: u64,
    first: Effects,
}

// Asks the children from `from` on; sets the bits of those on which a child gives what the first element gives, and asks its own children on them.
fn ask(b: &Block, from: usize, a: Asking, given: &mut [u64])
    requires { (from ≤ b.now.n) × (b.now.n ≤ length given.old) }
    ensures { Marks b.now.table.now b.now.struck.now b.now.hits.now b.now.n b.now.block from a.depth a.word a.on a.first given.old given.new }
{
    if matches!(a.word, Word::Permit | Word::Deny) {
        return;
    }
    let mut left = a.on;
    let mut behind = from;
    while let Some(at) = table::next_child(b.table, b.struck, b.n, behind, a.depth) {
        if left == 0 {
            return;
        }
        let gives = b.reply(at).given;
        let same = left & agreed(a.first, gives);
        given[at] |= same;
        let below = Asking {
            depth: table::depth_at(b.table, at) + 1,
            word: table::word_at(b.table, at),
            on: same,
            first: a.first,
        };
        behind = at + 1;
        ask(b, behind, below, given);
        let ended = settled(a.word, gives);
        left = blocks::without(left, ended);
    }
}

// Lays down, for each element, the requests on which the first element gives permit or deny, and it, with every element above it, was asked and gave the same. The words behind stay.
pub fn ask_all(b: &Block, given: &mut [u64])
    requires { (1 ≤ b.now.n) × (b.now.n ≤ length given.old) }
    ensures { ChainLaid b.now.table.now b.now.struck.now b.now.hits.now b.now.n b.now.block given.old given.new }
{
    given[..b.n].fill(0);
    let first = b.reply(0).given;
    let asked = Asking {
        depth: table::depth_at(b.table, 0),
        word: Word::FirstApplicable,
        on: agreed(first, first),
        first,
    };
    ask(b, 0, asked, given);
}
