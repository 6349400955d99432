// One rule tried on the requests of one block: the first that gets another decision, or other obligations, without it.
ghost use Rattle.std.specs.Prelude.{◌≡◌, ◌*◌, ◌≤◌, ◌<◌, length, IfSome};
ghost use Rattle.table.specs.Shape.{hit_of};
ghost use Rattle.moves.specs.Moved.{kept, Child};
ghost use Rattle.outcomes.specs.Changes.{InBlock};
ghost use Rattle.differences.specs.Apart.{Suspects};
ghost use Rattle.trials.specs.Decided.{apart_at};
ghost use Rattle.trials.specs.Trial.{Grouped, Trial, Copied, Reached};

use blocks::Block;
use differences::PolicyOutcomes;

// Copies n flags.
fn copy_flags(struck: &[u8], n: usize, copy: &mut [u8])
    requires { (n ≤ length struck.now) × (n ≤ length copy.old) }
    ensures { Copied struck.now n copy.new × (length copy.new ≡ length copy.old) }
{
    copy[..n].copy_from_slice(&struck[..n]);
}

// The first request of the block that gets another decision than the one laid down, or other obligations. Outside `on` no request gets anything else; only where the file has obligations are flags copied.
fn change_among(
    o: &PolicyOutcomes,
    struck: &[u8],
    rule: usize,
    block: usize,
    on: u64,
) -> Option<usize>
    requires { let p = o.now.policy in Trial p.file.now p.places.now p.table.now struck.now o.now.hits.now o.now.outcomes.now p.shape rule × (64 * block < p.shape.space) × Suspects p.file.now p.places.now p.table.now (kept struck.now rule) struck.now p.shape block on }
    ensures { let p = o.now.policy in InBlock (apart_at p.file.now p.places.now p.table.now p.shape.n (hit_of p.shape) struck.now rule) p.shape.space block result }
{
    let shape = o.policy.shape;
    if !o.obliged {
        return outcomes::change_in(o.policy.table, struck, o.hits, shape, o.outcomes, block);
    }
    let mut kept = [0u8; 64];
    copy_flags(struck, shape.n, &mut kept);
    kept[rule] = 0;
    o.difference_in(&kept, struck, block, on)
}

// The requests of the block that may get something else without the rule: those on which it moves what the element over it decides; where there is none, those that match it.
fn reached(b: &Block, up: Option<usize>, rule: usize) -> u64
    requires { (rule < b.now.n) × IfSome up (λ i. Child b.now.table.now b.now.struck.now b.now.n i rule) }
    ensures { Reached b.now.table.now b.now.struck.now b.now.hits.now b.now.n b.now.block up rule result }
{
    match up {
        Some(group) => moves::moved(b, group, rule),
        None => b.matched(rule),
    }
}

// The first request of the block that gets another decision than the one laid down, or other obligations. The first element is asked only where the rule moves what the element over it decides.
pub(crate) fn change_at(
    o: &PolicyOutcomes,
    struck: &[u8],
    up: Option<usize>,
    rule: usize,
    block: usize,
) -> Option<usize>
    requires { let p = o.now.policy in Trial p.file.now p.places.now p.table.now struck.now o.now.hits.now o.now.outcomes.now p.shape rule × Grouped p.table.now rule up × (64 * block < p.shape.space) }
    ensures { let p = o.now.policy in InBlock (apart_at p.file.now p.places.now p.table.now p.shape.n (hit_of p.shape) struck.now rule) p.shape.space block result }
{
    let shape = o.policy.shape;
    let b = Block {
        table: o.policy.table,
        struck,
        hits: o.hits,
        n: shape.n,
        block,
    };
    let moved = reached(&b, up, rule);
    if moved == 0 {
        return None;
    }
    if up == Some(0) {
        return Some(64 * block + blocks::lowest(moved) as usize);
    }
    change_among(o, struck, rule, block, moved)
}
