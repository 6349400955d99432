// The pairs of values of an attribute that get another decision than one of the two alone, as lines. With an empty buffer the same code counts.
#![tactic(auto)]

ghost use Rattle.std.specs.Prelude.{◌≡◌, ◌+◌, ◌*◌, ◌-◌, ◌≤◌, ◌<◌, not, ◌&&◌, take, drop};
ghost use Rattle.meaning.specs.Model.{product};
ghost use Rattle.meaning.specs.Deciding.{is, members};
ghost use Rattle.meaning.specs.ValuePairs.{several_at};
ghost use Rattle.meaning.specs.Operations.{value_pairs_answer, value_pairs_lent};
ghost use Rattle.laws.proofs.Requests.{Positive};
ghost use Rattle.layout.specs.Places.{attributes_of, AllStanding};
ghost use Rattle.printing.specs.Puts.{Puts};
ghost use Rattle.value_pairs.specs.Lines.{later_bit, pair_line, value_lines, pair_lines};
ghost use Rattle.value_pairs.specs.Held.{place_or13, PolicyDecided};

use layout::{Attributes, PolicyFile};
use meaning::{Answer, Decision};
use printing::{Sink, Text};
use refusals::{Refusal, Refused};

// The place of the attribute of an `M` line that has this name.
fn several_at(file: &[u8], a: &Attributes, name: &[u8]) -> Option<usize>
    requires { AllStanding file.now a.now }
    ensures { several_at 0 name.now (attributes_of file.now a.now) ≡ place_or13 result }
{
    let len = a.len;
    for i in 0..len {
        if !a.all[i].several {
            continue;
        }
        if layout::has_name(file, a, i, name) {
            return Some(i);
        }
    }
    None
}

// How many choices the attributes from a place on have.
fn choices_from(counts: [usize; 6], from: usize, len: usize) -> usize
    requires { (from ≤ len) × (len ≤ 6) × Positive (take len counts) × (product (take len counts) ≤ 4096) }
    ensures { result ≡ product (drop from (take len counts)) }
{
    let mut total: usize = 1;
    for i in (from..len).rev() {
        total *= counts[i];
    }
    total
}

// The later value's bit, if a set has two values.
fn later_bit(set: usize) -> Option<usize>
    requires { (1 ≤ set) × (set ≤ 4095) }
    ensures { result ≡ later_bit (members (set - 1)) }
{
    let later = set & (set - 1);
    if later == 0 {
        return None;
    }
    if (later & (later - 1)) != 0 {
        return None;
    }
    Some(later)
}

// Whether the decision with both values is another than with one of them alone.
fn differs(both: Decision, earlier: Decision, later: Decision) -> bool
    ensures { result ≡ not (is both earlier && is both later) }
{
    if both == earlier {
        return both != later;
    }
    true
}

// The requests' decisions, and how the sets of an attribute lie among them: a run of `behind` requests has one choice of
// the attributes before and one set, set `run % size`, whose mask is one more.
#[derive(Clone, Copy)]
struct Pairs<'a> {
    decided: &'a [Decision; 4096],
    size: usize,
    behind: usize,
    runs: usize,
    ghost inside: { (1 ≤ size) × (size ≤ 4095) × (runs * behind ≤ 4096) },
}

impl Pairs<'_> {
    // The line of request n, if its decision is another than with one of its two values alone: the request with the
    // earlier alone is `high` numbers before it, the one with the later alone `low`.
    fn put_pair(&self, n: usize, low: usize, high: usize, sink: &mut Sink)
        requires { (n < 4096) × (low ≤ n) × (high ≤ n) × (sink.old.at ≤ 2000000000) }
        ensures { Puts sink.old (pair_line self.now.decided.now low high n) sink.new × (sink.new.at ≤ sink.old.at + 500) }
    {
        let both = self.decided[n];
        let earlier = self.decided[n - high];
        let later = self.decided[n - low];
        if !differs(both, earlier, later) {
            return;
        }
        sink.put_field(b"D", 9);
        sink.put_number(n, 9);
        sink.put_decision(both, 9);
        sink.put_decision(earlier, 9);
        sink.put_decision(later, 10);
    }

    // The lines of the run from request `first` on, whose set has two values.
    fn put_values(&self, first: usize, low: usize, high: usize, sink: &mut Sink)
        requires { (first + self.now.behind ≤ 4096) × (low ≤ first) × (high ≤ first) × (sink.old.at ≤ 1000000000) }
        ensures { Puts sink.old (value_lines self.now.decided.now first low high self.now.behind) sink.new × (sink.new.at ≤ sink.old.at + 500 * self.now.behind) }
    {
        for k in 0..self.behind {
            self.put_pair(first + k, low, high, sink);
        }
    }
}

impl Text for Pairs<'_> {
    ghost text = { λ p. pair_lines p.decided.now p.size p.behind p.runs };

    fn put(&self, sink: &mut Sink) {
        let behind = self.behind;
        for run in 0..self.runs {
            let set = run % self.size + 1;
            let Some(high) = later_bit(set) else {
                continue;
            };
            let low = set - high;
            self.put_values(run * behind, low * behind, high * behind, sink);
        }
    }
}

// The lines of the attribute that has the name, in a lent buffer, for a policy file that was read.
pub fn tell(policy: PolicyFile, attributes: &Attributes, name: &[u8], out: &mut [u8]) -> Answer
    requires { PolicyDecided policy.file.now attributes.now policy.table.now policy.shape }
    ensures value { result ≡ value_pairs_answer policy.entry.file.now name.now out.old }
    ensures out_after { out.new ≡ value_pairs_lent policy.entry.file.now name.now out.old }
{
    let Some(place) = several_at(policy.file, attributes, name) else {
        return Refused {
            why: Refusal::NoSuchAttribute,
            second: 0,
        }
        .into();
    };
    let shape = policy.shape;
    let mut decided = [Decision::Permit; 4096];
    outcomes::decide_requests(policy.table, shape, &mut decided);
    let counts = shape.counts;
    let size = counts[place];
    let behind = choices_from(counts, place + 1, shape.len);
    let runs = shape.space / behind;
    let pairs = Pairs {
        decided: &decided,
        size,
        behind,
        runs,
    };
    printing::answer(&pairs, out)
}
