// Whether a rule does work: what requests get with it and without it, over a policy's file, a lent table of its elements and a flag for each. One that is not 0 strikes its element.
// (Flags and a rule go on beside the outcomes: the flags are lent to be changed, and changed back, around each try.)
#![tactic(auto)]

mod trial;

ghost use Rattle.std.specs.Prelude.{◌≡◌, true, false, ◌++◌, map, ◌+◌, ◌≤◌, ◌<◌, length, drop};
ghost use Rattle.meaning.specs.Text.{counting, first_from};
ghost use Rattle.table.specs.Rows.{Rows};
ghost use Rattle.laws.specs.Found.{found};
ghost use Rattle.table.specs.Tree.{rule_left};
ghost use Rattle.table.specs.Shape.{hit_of};
ghost use Rattle.outcomes.specs.PolicyTable.{PolicyTable};
ghost use Rattle.trials.specs.Decided.{apart_at, first_change_at, shown_at, needless_at};
ghost use Rattle.trials.specs.Steady.{Steady};
ghost use Rattle.trials.specs.Trial.{Grouped, Laid, Trial, Tries, Tells};

use blocks::Effects;
use differences::PolicyOutcomes;
use layout::PolicyFile;
use meaning::Word;
use table::Row;

// What trying an element tells: it is no rule that is left, a needless rule, or one that a request needs.
#[derive(Clone, Copy)]
pub enum Tried {
    Other,
    Needless,
    Needed(usize),
}

// The element whose child a rule is, if it looks at its children's decisions alone.
fn group_over(table: &[Row], rule: usize) -> Option<usize>
    requires { Rows table.now (rule + 1) }
    ensures { Grouped table.now rule result }
{
    let up = table::over(table, rule);
    if table::depth_at(table, up) + 1 != table::depth_at(table, rule) {
        return None;
    }
    match table::word_at(table, up) {
        Word::DenyOverrides | Word::PermitOverrides | Word::FirstApplicable => Some(up),
        _ => None,
    }
}

// The first request that gets another decision than the one laid down, or other obligations. Only requests that match the rule can.
// (With `differences::first_difference` it shares the `for` over blocks alone.)
fn first_change(o: &PolicyOutcomes, struck: &[u8], up: Option<usize>, rule: usize) -> Option<usize>
    requires { let p = o.now.policy in Trial p.file.now p.places.now p.table.now struck.now o.now.hits.now o.now.outcomes.now p.shape rule × Grouped p.table.now rule up }
    ensures { let p = o.now.policy in result ≡ found (first_from (apart_at p.file.now p.places.now p.table.now p.shape.n (hit_of p.shape) struck.now rule) 0 p.shape.space) }
{
    for block in 0..(o.policy.shape.space + 63) / 64 {
        if o.hits[rule][block] == 0 {
            continue;
        }
        if let Some(first) = trial::change_at(o, struck, up, rule, block) {
            return Some(first);
        }
    }
    None
}

// A request that gets another decision than the one laid down, or other obligations, without the rule: one of the hint's block, else the first of all. A hint may be no request.
fn some_change(o: &PolicyOutcomes, struck: &[u8], rule: usize, hint: Option<usize>) -> Option<usize>
    requires { let p = o.now.policy in Trial p.file.now p.places.now p.table.now struck.now o.now.hits.now o.now.outcomes.now p.shape rule }
    ensures { let p = o.now.policy in Tries (apart_at p.file.now p.places.now p.table.now p.shape.n (hit_of p.shape) struck.now rule) p.shape.space result }
{
    let shape = o.policy.shape;
    let up = group_over(o.policy.table, rule);
    if let Some(hint) = hint {
        if hint < shape.space {
            if let Some(near) = trial::change_at(o, struck, up, rule, hint / 64) {
                return Some(near);
            }
        }
    }
    first_change(o, struck, up, rule)
}

// Tries element i: whether it is a rule without which every request gets the same decision and the same obligations; the decisions with it are laid down.
pub fn try_rule(o: &PolicyOutcomes, struck: &mut [u8], i: usize, hint: Option<usize>) -> Tried
    requires { let p = o.now.policy in Laid p.file.now p.places.now p.table.now struck.old o.now.hits.now o.now.outcomes.now p.shape × (i < p.shape.n) }
    ensures { let p = o.now.policy in Tells p.file.now p.places.now p.table.now struck.old p.shape i result × (struck.new ≡ struck.old) }
{
    if !table::is_left(o.policy.table, struck, i) {
        return Tried::Other;
    }
    struck[i] = 1;
    let change = some_change(o, struck, i, hint);
    struck[i] = 0;
    match change {
        Some(m) => Tried::Needed(m),
        None => Tried::Needless,
    }
}

// The same from the policy file alone: the decisions with the rule are found first, and no hint is given.
pub fn is_needless(policy: PolicyFile, struck: &mut [u8], i: usize) -> bool
    requires { Steady policy.file.now policy.places.now policy.table.now policy.shape × PolicyTable policy.table.now struck.old policy.shape × (i < policy.shape.n) }
    ensures { let p = policy.entry in (result ≡ needless_at p.file.now p.places.now p.table.now p.shape.n (hit_of p.shape) p.shape.space struck.old i) × (struck.new ≡ struck.old) }
{
    let shape = policy.shape;
    let mut hits = [[0u64; 64]; 64];
    let mut outcomes = [Effects::NONE; 64];
    outcomes::find_outcomes(policy.table, struck, shape, &mut hits, &mut outcomes);
    let obliged = obligations::any_obligations(policy.places, shape.n);
    let o = PolicyOutcomes {
        policy,
        hits: &hits,
        outcomes: &outcomes,
        obliged,
    };
    match try_rule(&o, struck, i, None) {
        Tried::Needless => true,
        Tried::Needed(_) => false,
        Tried::Other => false,
    }
}

// The first request that gets another decision, or other obligations, without the rule.
fn needed_by(o: &PolicyOutcomes, struck: &mut [u8], rule: usize) -> Option<usize>
    requires { let p = o.now.policy in Laid p.file.now p.places.now p.table.now struck.old o.now.hits.now o.now.outcomes.now p.shape × (rule < p.shape.n) × (rule_left p.table.now struck.old rule ≡ true) }
    ensures { let p = o.now.policy in (result ≡ found (first_change_at p.file.now p.places.now p.table.now p.shape.n (hit_of p.shape) p.shape.space struck.old rule)) × (struck.new ≡ struck.old) }
{
    let up = group_over(o.policy.table, rule);
    struck[rule] = 1;
    let shown = first_change(o, struck, up, rule);
    struck[rule] = 0;
    shown
}

// The same for every element, none for one that is no rule left.
fn shown_by(o: &PolicyOutcomes, struck: &mut [u8], i: usize) -> Option<usize>
    requires { let p = o.now.policy in Laid p.file.now p.places.now p.table.now struck.old o.now.hits.now o.now.outcomes.now p.shape × (i < p.shape.n) }
    ensures { let p = o.now.policy in (result ≡ found (shown_at p.file.now p.places.now p.table.now p.shape.n (hit_of p.shape) p.shape.space struck.old i)) × (struck.new ≡ struck.old) }
{
    if !table::is_left(o.policy.table, struck, i) {
        return None;
    }
    needed_by(o, struck, i)
}

// Lays down for each rule left the first request that gets another decision, or other obligations, without it, and none for every other element. What lies behind them stays.
pub fn needed_all(o: &PolicyOutcomes, struck: &mut [u8], shown: &mut [Option<usize>])
    requires { let p = o.now.policy in Laid p.file.now p.places.now p.table.now struck.old o.now.hits.now o.now.outcomes.now p.shape × (p.shape.n ≤ length shown.old) }
    ensures { let p = o.now.policy in (shown.new ≡ map (λ i. found (shown_at p.file.now p.places.now p.table.now p.shape.n (hit_of p.shape) p.shape.space struck.old i)) (counting 0 p.shape.n) ++ drop p.shape.n shown.old) × (struck.new ≡ struck.old) }
{
    for i in 0..o.policy.shape.n {
        shown[i] = shown_by(o, struck, i);
    }
}
