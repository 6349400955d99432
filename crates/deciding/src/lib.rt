// What one request gets: its decision, and the obligations that come with it in a lent buffer.
#![tactic(auto)]

ghost use Rattle.std.specs.Prelude.{◌≡◌, ℕ, ◌≤◌, ◌<◌, length, get_or, replicate};
ghost use Rattle.meaning.specs.Deciding.{matches, bit};
ghost use Rattle.requests.specs.Values.{values_of, severals_of};
ghost use Rattle.table.specs.Rows.{Rows};
ghost use Rattle.blocks.specs.Bits.{Answers};
ghost use Rattle.chains.specs.Chain.{chained};
ghost use Rattle.obligations.specs.Given.{given_text, effect, marks_in, Giving};
ghost use Rattle.deciding.specs.Told.{deciding, Effect, outcome_on, Told, Asking};

use blocks::Block;
use layout::PolicyFile;
use meaning::{Answer, Decided, Decision};
use obligations::Marks;
use printing::{Sink, Text};
use requests::Request;
use table::Row;

// The word whose lowest bit says this.
fn bit_of(told: bool) -> u64
    ensures { bit result 0 ≡ told }
{
    u64::from(told)
}

// Lays down for each element whether the request matches its own target: in bit 0 of its first word.
fn match_one(table: &[Row], n: usize, q: Request, hits: &mut [[u64; 64]])
    requires { Rows table.now n × (n ≤ length hits.old) × (q.len ≤ 6) }
    ensures { Answers table.now hits.new n 0 0 (matches (severals_of q) (values_of q)) × (length hits.new ≡ length hits.old) }
{
    for i in 0..n {
        hits[i][0] = bit_of(table::matches(table, i, q));
    }
}

// Lays down which elements gave the request's decision: in bit 0 of a word for each.
fn ask_one(table: &[Row], n: usize, q: Request, given: &mut [u64])
    requires { Rows table.now n × (1 ≤ n) × (n ≤ 64) × (q.len ≤ 6) × (n ≤ length given.old) }
    ensures { ((i : ℕ) → i < n → bit (get_or given.new i 0) 0 ≡ chained (matches (severals_of q) (values_of q)) table.now (replicate 64 0) n i) × (length given.new ≡ length given.old) }
{
    let struck = [0u8; 64];
    let mut hits = [[0u64; 64]; 64];
    match_one(table, n, q, &mut hits);
    let b = Block {
        table,
        struck: &struck,
        hits: &hits,
        n,
        block: 0,
    };
    chains::ask_all(&b, given);
}

// The obligations that come with one request: those of the elements whose word has bit 0 set, and whose effect this is.
#[derive(Clone, Copy)]
struct Given<'a> {
    marks: Marks<'a>,
    permit: bool,
    ghost giving: { Giving marks.file.now marks.places.now marks.words.now marks.n 0 },
}

impl Text for Given<'_> {
    ghost text = { λ g. given_text (effect g.permit) (marks_in g.marks.words.now 0) g.marks.file.now g.marks.places.now g.marks.n };

    fn put(&self, sink: &mut Sink) {
        self.marks.put(0, self.permit, sink);
    }
}

// The answer of a decision whose obligations were told.
fn with_decision(told: Answer, decision: Decision) -> Decided
    ensures { result ≡ deciding told decision }
{
    if told.number == 0 {
        return Decided {
            number: 0,
            second: decisions::decision_number(decision) as u32,
            length: told.second,
        };
    }
    Decided {
        number: told.number,
        second: told.second,
        length: 0,
    }
}

// The answer of a request that is permitted or denied.
fn give(policy: PolicyFile, q: Request, decision: Decision, out: &mut [u8]) -> Decided
    requires { Asking policy.file.now policy.table.now policy.places.now policy.shape.n q × Effect decision × (decision ≡ (outcome_on policy.file.now policy.table.now policy.places.now policy.shape.n q).decision) }
    ensures { let p = policy.entry in Told out.old out.new (outcome_on p.file.now p.table.now p.places.now p.shape.n q) result }
{
    let n = policy.shape.n;
    let mut words = [0u64; 64];
    ask_one(policy.table, n, q, &mut words);
    let given = Given {
        marks: Marks {
            file: policy.file,
            places: policy.places,
            n,
            words: &words,
        },
        permit: decision == Decision::Permit,
    };
    with_decision(printing::answer(&given, out), decision)
}

// The answer of a request: its decision, and how many bytes of obligations stand in the buffer.
pub fn answer(policy: PolicyFile, q: Request, out: &mut [u8]) -> Decided
    requires { Asking policy.file.now policy.table.now policy.places.now policy.shape.n q }
    ensures { let p = policy.entry in Told out.old out.new (outcome_on p.file.now p.table.now p.places.now p.shape.n q) result }
{
    let n = policy.shape.n;
    let struck = [0u8; 64];
    let decision = decisions::decide(policy.table, &struck, n, q);
    let none = Answer {
        number: 0,
        second: 0,
    };
    match decision {
        Decision::Permit | Decision::Deny => {}
        Decision::NotApplicable | Decision::Indeterminate => return with_decision(none, decision),
    }
    if !obligations::any_obligations(policy.places, n) {
        return with_decision(none, decision);
    }
    give(policy, q, decision, out)
}
