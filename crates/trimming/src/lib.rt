// Which rules trimming strikes, over a policy's file, a lent table of its elements and a flag for each: one that is not 0 strikes its element.
#![tactic(auto)]

ghost use Rattle.std.specs.Prelude.{◌≡◌, ◌+◌, ◌*◌, ◌≤◌, ◌<◌, length};
ghost use Rattle.laws.specs.Found.{found};
ghost use Rattle.table.specs.Shape.{hit_of};
ghost use Rattle.matching.specs.Hits.{bit_of};
ghost use Rattle.outcomes.specs.PolicyTable.{PolicyTable};
ghost use Rattle.trials.specs.Steady.{Steady};
ghost use Rattle.trials.specs.Trial.{Laid};
ghost use Rattle.trimming.specs.Decided.{next_at, trimming_at};
ghost use Rattle.trimming.specs.Known.{HintsFit, Known, Forgets};
ghost use Rattle.trimming.specs.Trims.{Trims};

use blocks::Effects;
use differences::PolicyOutcomes;
use layout::PolicyFile;
use trials::Tried;

// What earlier tries tell of a rule: a request that got something else without it when it was tried last, and whether that still holds. A known rule needs no other try.
#[derive(Clone, Copy)]
struct Hint {
    request: u16,
    known: bool,
}

impl Hint {
    const NONE: Hint = Hint {
        request: 0,
        known: false,
    };
}

// The last needless rule.
fn next_rule(o: &PolicyOutcomes, struck: &mut [u8], hints: &mut [Hint]) -> Option<usize>
    requires { let p = o.now.policy in Laid p.file.now p.places.now p.table.now struck.old o.now.hits.now o.now.outcomes.now p.shape × (p.shape.n ≤ length hints.old) × Known p.file.now p.places.now p.table.now p.shape struck.old hints.old }
    ensures { let p = o.now.policy in (result ≡ found (next_at p.file.now p.places.now p.table.now p.shape.n (hit_of p.shape) p.shape.space struck.old)) × (struck.new ≡ struck.old) × Known p.file.now p.places.now p.table.now p.shape struck.old hints.new }
{
    for i in (0..o.policy.shape.n).rev() {
        let hint = hints[i];
        if hint.known {
            continue;
        }
        match trials::try_rule(o, struck, i, Some(hint.request as usize)) {
            Tried::Needless => return Some(i),
            Tried::Needed(m) => {
                hints[i] = Hint {
                    request: m as u16,
                    known: true,
                };
            }
            Tried::Other => continue,
        }
    }
    None
}

// The last needless rule, from the policy file alone: the decisions are found first, and no rule is known to be needed.
pub fn next_struck(policy: PolicyFile, struck: &mut [u8]) -> Option<usize>
    requires { Steady policy.file.now policy.places.now policy.table.now policy.shape × PolicyTable policy.table.now struck.old policy.shape }
    ensures { let p = policy.entry in (result ≡ found (next_at p.file.now p.places.now p.table.now p.shape.n (hit_of p.shape) p.shape.space struck.old)) × (struck.new ≡ struck.old) }
{
    let shape = policy.shape;
    let mut hits = [[0u64; 64]; 64];
    let mut outcomes = [Effects::NONE; 64];
    outcomes::find_outcomes(policy.table, struck, shape, &mut hits, &mut outcomes);
    let obliged = obligations::any_obligations(policy.places, shape.n);
    let o = PolicyOutcomes {
        policy,
        hits: &hits,
        outcomes: &outcomes,
        obliged,
    };
    let mut hints = [Hint::NONE; 64];
    next_rule(&o, struck, &mut hints)
}

// Whether request m matches the rule.
fn matches_rule(hits: &[[u64; 64]], rule: usize, m: usize) -> bool
    requires { (m < 4096) × (rule < length hits.now) }
    ensures { result ≡ bit_of hits.now rule m }
{
    (hits[rule][m / 64] >> (m % 64)) % 2 == 1
}

// Forgets the rules that are known by a request which matches the rule struck.
fn forget(hits: &[[u64; 64]], n: usize, rule: usize, hints: &mut [Hint])
    requires { (rule < length hits.now) × (n ≤ length hints.old) × HintsFit n hints.old }
    ensures { Forgets hits.now n rule hints.old hints.new }
{
    for i in 0..n {
        let hint = hints[i];
        if !hint.known {
            continue;
        }
        if !matches_rule(hits, rule, hint.request as usize) {
            continue;
        }
        hints[i].known = false;
    }
}

// Strikes the last needless rule while there is one. The places struck are laid down in order; how many, is the result.
fn strike_rules(
    o: &PolicyOutcomes,
    struck: &mut [u8],
    hints: &mut [Hint],
    order: &mut [u8],
) -> usize
    requires { let p = o.now.policy in Laid p.file.now p.places.now p.table.now struck.old o.now.hits.now o.now.outcomes.now p.shape × (p.shape.n ≤ length hints.old) × Known p.file.now p.places.now p.table.now p.shape struck.old hints.old × (p.shape.n ≤ length order.old) }
    ensures { let p = o.now.policy in Trims p.file.now p.places.now p.table.now o.now.outcomes.now p.shape struck.old struck.new order.old order.new result }
{
    let n = o.policy.shape.n;
    for count in 0..n {
        let Some(next) = next_rule(o, struck, hints) else {
            return count;
        };
        struck[next] = 1;
        order[count] = next as u8;
        forget(o.hits, n, next, hints);
    }
    n
}

// The same, with hints of its own, and no rule known to be needed.
pub fn trim_flags(
    policy: PolicyFile,
    hits: &[[u64; 64]],
    outcomes: &[Effects],
    struck: &mut [u8],
    order: &mut [u8],
) -> usize
    requires { let p = policy in Laid p.file.now p.places.now p.table.now struck.old hits.now outcomes.now p.shape × (p.shape.n ≤ length order.old) }
    ensures { let p = policy.entry in Trims p.file.now p.places.now p.table.now outcomes.now p.shape struck.old struck.new order.old order.new result }
{
    let obliged = obligations::any_obligations(policy.places, policy.shape.n);
    let o = PolicyOutcomes {
        policy,
        hits,
        outcomes,
        obliged,
    };
    let mut hints = [Hint::NONE; 64];
    strike_rules(&o, struck, &mut hints, order)
}

// Strikes every rule that trimming strikes.
pub fn strike(policy: PolicyFile, struck: &mut [u8])
    requires { Steady policy.file.now policy.places.now policy.table.now policy.shape × PolicyTable policy.table.now struck.old policy.shape }
    ensures { let p = policy.entry in struck.new ≡ (trimming_at p.file.now p.places.now p.table.now p.shape.n (hit_of p.shape) p.shape.space p.shape.n struck.old).flags }
{
    let shape = policy.shape;
    let mut hits = [[0u64; 64]; 64];
    let mut outcomes = [Effects::NONE; 64];
    outcomes::find_outcomes(policy.table, struck, shape, &mut hits, &mut outcomes);
    let mut order = [0u8; 64];
    trim_flags(policy, &hits, &outcomes, struck, &mut order);
}
