// Decisions: what the elements of a policy, lent as a table of numbers, give on a request.
#![tactic(auto)]

ghost use Rattle.std.specs.Prelude.{◌≡◌, [], ◌∷◌, ◌+◌, ◌≤◌, ◌<◌, get_or};
ghost use Rattle.meaning.specs.declared.Word.TheVariants.{OnlyOneApplicable};
ghost use Rattle.meaning.specs.Deciding.{decision_number, matches, combined, first_decision};
ghost use Rattle.requests.specs.Values.{values_of, severals_of};
ghost use Rattle.table.specs.Rows.{algorithm_at, algorithm_number, algorithm_of};
ghost use Rattle.table.specs.Tree.{left, Room};
ghost use Rattle.decisions.specs.Replies.{reply_of, next_of, step_of, replies_from, reply_at};

use meaning::Decision::{Deny, Indeterminate, NotApplicable, Permit};
use meaning::{Decision, Word};
use requests::Request;
use table::Row;

// Whether an element's own target matches, and its decision.
#[derive(Clone, Copy)]
pub struct Reply {
    pub matched: bool,
    pub decision: Decision,
}

// The reply of an element that a request does not match, and of no children.
const UNMATCHED: Reply = Reply {
    matched: false,
    decision: NotApplicable,
};

// The next decision, by algorithm, decision so far and child's decision, these in the order of `Decision`.
// (The paper names this form, a table of constants, so it is no `match`.)
const NEXT: [[[Decision; 4]; 4]; 3] = [
    // deny-overrides
    [
        [Permit, Deny, Permit, Deny],
        [Deny, Deny, Deny, Deny],
        [Permit, Deny, NotApplicable, Deny],
        [Deny, Deny, Deny, Deny],
    ],
    // permit-overrides
    [
        [Permit, Permit, Permit, Permit],
        [Permit, Deny, Deny, Deny],
        [Permit, Deny, NotApplicable, Indeterminate],
        [Permit, Deny, Indeterminate, Indeterminate],
    ],
    // first-applicable
    [
        [Permit, Permit, Permit, Permit],
        [Deny, Deny, Deny, Deny],
        [Permit, Deny, NotApplicable, Indeterminate],
        [Indeterminate, Indeterminate, Indeterminate, Indeterminate],
    ],
];

// A decision's number, as C callers get it: written out, so that it does not hang on the order of `Decision`.
pub fn decision_number(d: Decision) -> usize
    ensures { (result ≡ decision_number d) × (result < 4) }
{
    match d {
        Permit => 0,
        Deny => 1,
        NotApplicable => 2,
        Indeterminate => 3,
    }
}

fn next(algorithm: usize, so_far: Decision, child: Decision) -> Decision
    requires { algorithm < 3 }
    ensures { result ≡ next_of (algorithm_at algorithm) so_far child }
{
    NEXT[algorithm][decision_number(so_far)][decision_number(child)]
}

// The decision of the children so far and one more by only-one-applicable.
fn only_one(so_far: Reply, child: Reply) -> Decision
    ensures { result ≡ combined OnlyOneApplicable (reply_of so_far ∷ reply_of child ∷ []) }
{
    match (so_far.matched, child.matched) {
        (true, true) => Indeterminate,
        (true, false) => so_far.decision,
        (false, true) => child.decision,
        (false, false) => NotApplicable,
    }
}

// An algorithm's number: its place in the table of those that look at decisions alone, and 3 for any other word.
// (Words are compared: a `match` becomes a jump through a table, for each child.)
fn algorithm_number(algorithm: Word) -> usize
    ensures { result ≡ algorithm_number algorithm }
{
    if algorithm == Word::DenyOverrides {
        return 0;
    }
    if algorithm == Word::PermitOverrides {
        return 1;
    }
    if algorithm == Word::FirstApplicable {
        return 2;
    }
    3
}

// The children so far and one more, taken as one.
fn step(algorithm: Word, so_far: Reply, child: Reply) -> Reply
    ensures { reply_of result ≡ step_of (algorithm_of algorithm) (reply_of so_far) (reply_of child) }
{
    let number = algorithm_number(algorithm);
    let decision = if number < 3 {
        next(number, so_far.decision, child.decision)
    } else {
        only_one(so_far, child)
    };
    Reply {
        matched: so_far.matched || child.matched,
        decision,
    }
}

// A request asked of the first n elements of a table, but for those whose flag is not 0.
#[derive(Clone, Copy)]
struct Asking<'a> {
    table: &'a [Row],
    struck: &'a [u8],
    n: usize,
    q: Request,
}

// Decides element `at`: behind it stand its children, and what comes after them.
// (It and `fold` call each other: the paper names this form.)
#[cycle(decide_at_fold)]
fn decide_at(a: &Asking, at: usize) -> Reply
    requires { Room a.now.table.now a.now.struck.now a.now.n (at + 1) × (a.now.q.len ≤ 6) }
    ensures { reply_of result ≡ reply_at (matches (severals_of a.now.q) (values_of a.now.q)) a.now.table.now a.now.struck.now a.now.n at }
{
    if !table::matches(a.table, at, a.q) {
        return UNMATCHED;
    }
    let decision = match table::word_at(a.table, at) {
        Word::Permit => Permit,
        Word::Deny => Deny,
        algorithm => {
            let depth = table::depth_at(a.table, at) + 1;
            fold(a, at + 1, depth, algorithm)
        }
    };
    Reply {
        matched: true,
        decision,
    }
}

// What the algorithm gives of the children at the depth from `from` on, up to the first element of a lower depth.
#[cycle(decide_at_fold)]
fn fold(a: &Asking, from: usize, depth: usize, algorithm: Word) -> Decision
    requires { Room a.now.table.now a.now.struck.now a.now.n from × (a.now.q.len ≤ 6) }
    ensures { result ≡ combined (algorithm_of algorithm) (replies_from (matches (severals_of a.now.q) (values_of a.now.q)) a.now.table.now a.now.struck.now a.now.n depth from) }
{
    let mut so_far = UNMATCHED;
    let mut behind = from;
    while let Some(at) = table::next_child(a.table, a.struck, a.n, behind, depth) {
        let child = decide_at(a, at);
        so_far = step(algorithm, so_far, child);
        behind = at + 1;
    }
    so_far.decision
}

// The decision of the policy: of its first element, which is not struck.
pub fn decide(table: &[Row], struck: &[u8], n: usize, q: Request) -> Decision
    requires { Room table.now struck.now n 1 × (q.len ≤ 6) × (get_or struck.now 0 0 ≡ 0) }
    ensures { result ≡ first_decision (matches (severals_of q) (values_of q)) (left table.now struck.now 0 n) }
{
    let a = Asking {
        table,
        struck,
        n,
        q,
    };
    decide_at(&a, 0).decision
}
