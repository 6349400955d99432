// On which requests a rule moves the decision of the element over it, 64 requests at once.
#![tactic(auto)]

ghost use Rattle.std.specs.Prelude.{◌≡◌, ℕ, Bool, not};
ghost use Rattle.meaning.specs.declared.Element.{Element};
ghost use Rattle.meaning.specs.Deciding.{bit, is};
ghost use Rattle.table.specs.Rows.{algorithm_number};
ghost use Rattle.blocks.specs.Bits.{decision_bit, reply_bit, Answers};
ghost use Rattle.moves.specs.Moved.{effect_reply, moved_at, Child, Sided, Own};

use blocks::{Block, Effects, Replies};
use meaning::Word;

// What the children passed give with the rule, which is taken first by those before it, and without it.
#[derive(Clone, Copy)]
struct Sides {
    with: Replies,
    without: Replies,
}

// What a rule with this word gives where it matches.
fn effect(word: Word, matched: u64) -> Replies
    ensures { ((v : ℕ) → reply_bit result v ≡ effect_reply word (bit matched v)) × (result.matched ≡ matched) }
{
    let given = match word {
        Word::Permit => Effects::permit(matched),
        Word::Deny => Effects::deny(matched),
        _ => Effects::NONE,
    };
    Replies { matched, given }
}

// Both sides behind one child more, which stands before the rule or behind it.
fn next_sides(algorithm: Word, sides: Sides, child: Replies, own: Replies, earlier: bool) -> Sides
    ensures { (v : ℕ) → Sided (algorithm_number algorithm) earlier (reply_bit sides.with v) (reply_bit sides.without v) (reply_bit child v) (reply_bit own v) (reply_bit result.with v) (reply_bit result.without v) }
{
    let without = blocks::step(algorithm, sides.without, child);
    let with = if earlier {
        blocks::step(algorithm, without, own)
    } else {
        blocks::step(algorithm, sides.with, child)
    };
    Sides { with, without }
}

// The requests on which the two sides decide otherwise.
fn differing(sides: Sides) -> u64
    ensures { (v : ℕ) → bit result v ≡ not (is (decision_bit sides.with.given v) (decision_bit sides.without.given v)) }
{
    blocks::differing(sides.with.given, sides.without.given)
}

// The requests on which the children of `up` give another decision with the rule than without it.
fn still_moved(b: &Block, up: usize, rule: usize, own: Replies) -> u64
    requires { Child b.now.table.now b.now.struck.now b.now.n up rule × Own b.now.table.now b.now.hits.now b.now.n b.now.block up rule own }
    ensures { (v : ℕ) (hit : Element → Bool) → Answers b.now.table.now b.now.hits.now b.now.n b.now.block v hit → bit result v ≡ moved_at hit b.now.table.now b.now.struck.now b.now.n up rule }
{
    let algorithm = table::word_at(b.table, up);
    let depth = table::depth_at(b.table, rule);
    let mut sides = Sides {
        with: own,
        without: Replies::NONE,
    };
    let mut apart = own.matched;
    for at in up + 1..b.n {
        let live = b.struck[at] == 0;
        if live {
            let d = table::depth_at(b.table, at);
            if d < depth {
                return apart;
            }
            if d == depth && b.matched(at) & apart != 0 {
                let child = b.reply(at);
                sides = next_sides(algorithm, sides, child, own, at < rule);
                apart &= differing(sides);
                if apart == 0 {
                    return 0;
                }
            }
        }
    }
    apart
}

// The requests of a block on which the element over a rule, whose flag is set, decides otherwise without the rule.
pub fn moved(b: &Block, up: usize, rule: usize) -> u64
    requires { Child b.now.table.now b.now.struck.now b.now.n up rule }
    ensures { (v : ℕ) (hit : Element → Bool) → Answers b.now.table.now b.now.hits.now b.now.n b.now.block v hit → bit result v ≡ moved_at hit b.now.table.now b.now.struck.now b.now.n up rule }
{
    let reach = b.matched(rule) & b.matched(up);
    if reach == 0 {
        return 0;
    }
    let own = effect(table::word_at(b.table, rule), reach);
    still_moved(b, up, rule, own)
}
