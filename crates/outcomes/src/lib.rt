// What each request gets, laid down by words of 64 requests, and where it is another than before.
#![tactic(auto)]

ghost use Rattle.std.specs.Prelude.{◌≡◌, ◌++◌, map, ◌*◌, ◌≤◌, ◌<◌, length, drop};
ghost use Rattle.meaning.specs.Text.{counting};
ghost use Rattle.meaning.specs.Deciding.{decision_number};
ghost use Rattle.table.specs.Shape.{hit_of};
ghost use Rattle.matching.specs.Hits.{Rest, HitsLaid};
ghost use Rattle.outcomes.specs.Decided.{none_struck, outcome_at, decided_at, differs_at};
ghost use Rattle.outcomes.specs.PolicyTable.{PolicyTable, OutcomesLaid, OutcomesRest};
ghost use Rattle.outcomes.specs.Changes.{Other, InBlock};

use blocks::{Block, Effects};
use meaning::Decision;
use table::{Row, Shape};

// Lays down what each request gets, a block of 64 at a time. What stands behind the blocks stays.
fn decide_all(
    table: &[Row],
    struck: &[u8],
    hits: &[[u64; 64]],
    shape: Shape,
    outcomes: &mut [Effects],
)
    requires { PolicyTable table.now struck.now shape × HitsLaid table.now hits.now shape × (64 ≤ length outcomes.old) }
    ensures { OutcomesLaid table.now struck.now outcomes.new shape × OutcomesRest shape.space outcomes.old outcomes.new }
{
    for block in 0..(shape.space + 63) / 64 {
        let b = Block {
            table,
            struck,
            hits,
            n: shape.n,
            block,
        };
        outcomes[block] = b.reply(0).given;
    }
}

// Lays down which requests match each element's own target, and what each request gets. All other words, and what stands behind the blocks, stay.
// (Table, flags and shape are handed on as they come: the functions here, in `matching` and in `rows` each take another part of them.)
pub fn find_outcomes(
    table: &[Row],
    struck: &[u8],
    shape: Shape,
    hits: &mut [[u64; 64]],
    outcomes: &mut [Effects],
)
    requires { PolicyTable table.now struck.now shape × (64 ≤ length hits.old) × (64 ≤ length outcomes.old) }
    ensures { HitsLaid table.now hits.new shape × Rest shape.n shape.space hits.old hits.new × OutcomesLaid table.now struck.now outcomes.new shape × OutcomesRest shape.space outcomes.old outcomes.new }
{
    matching::match_all(table, shape, hits);
    decide_all(table, struck, hits, shape, outcomes);
}

// Lays down what each request gets, by the effects that tell it. What lies behind them stays.
pub fn tell_all(outcomes: &[Effects], space: usize, decided: &mut [Decision])
    requires { (64 ≤ length outcomes.now) × (space ≤ 4096) × (space ≤ length decided.old) }
    ensures { decided.new ≡ map (outcome_at outcomes.now) (counting 0 space) ++ drop space decided.old }
{
    for m in 0..space {
        decided[m] = blocks::decision_of(outcomes[m / 64], m % 64);
    }
}

// Lays down what each request gets where no element is struck. What lies behind them stays.
pub fn decide_requests(table: &[Row], shape: Shape, decided: &mut [Decision])
    requires { PolicyTable table.now none_struck shape × (shape.space ≤ length decided.old) }
    ensures { decided.new ≡ map (decided_at table.now shape.n (hit_of shape) none_struck) (counting 0 shape.space) ++ drop shape.space decided.old }
{
    let struck = [0u8; 64];
    let mut hits = [[0u64; 64]; 64];
    let mut outcomes = [Effects::NONE; 64];
    find_outcomes(table, &struck, shape, &mut hits, &mut outcomes);
    tell_all(&outcomes, shape.space, decided);
}

// The same by the decisions' numbers. What lies behind them stays.
pub fn number_requests(table: &[Row], shape: Shape, decided: &mut [u8])
    requires { PolicyTable table.now none_struck shape × (shape.space ≤ length decided.old) }
    ensures { decided.new ≡ map (λ m. decision_number (decided_at table.now shape.n (hit_of shape) none_struck m)) (counting 0 shape.space) ++ drop shape.space decided.old }
{
    let mut given = [Decision::NotApplicable; 4096];
    decide_requests(table, shape, &mut given);
    for m in 0..shape.space {
        decided[m] = decisions::decision_number(given[m]) as u8;
    }
}

// The first request from `from` on, of 64 at most, whose bits in the two tell another decision.
fn first_other(given: Effects, before: Effects, from: usize, space: usize) -> Option<usize>
    requires { from < space × (space ≤ 4096) }
    ensures { Other given before from space result }
{
    for v in 0..64 {
        if space <= from + v {
            return None;
        }
        if blocks::decision_of(given, v) != blocks::decision_of(before, v) {
            return Some(from + v);
        }
    }
    None
}

// The first request of the block that gets another decision than the one laid down.
pub fn change_in(
    table: &[Row],
    struck: &[u8],
    hits: &[[u64; 64]],
    shape: Shape,
    outcomes: &[Effects],
    block: usize,
) -> Option<usize>
    requires { PolicyTable table.now struck.now shape × HitsLaid table.now hits.now shape × (64 ≤ length outcomes.now) × (64 * block < shape.space) }
    ensures { InBlock (differs_at table.now shape.n (hit_of shape) outcomes.now struck.now) shape.space block result }
{
    let b = Block {
        table,
        struck,
        hits,
        n: shape.n,
        block,
    };
    let given = b.reply(0).given;
    let before = outcomes[block];
    if given == before {
        return None;
    }
    first_other(given, before, 64 * block, shape.space)
}
