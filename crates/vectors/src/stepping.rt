// Steps through every request of a policy file: each has its number, and the decision that the report gives its segment.
ghost use Rattle.std.specs.Prelude.{◌*◌, ◌≤◌, ◌<◌};
ghost use Rattle.table.specs.Rows.{Rows};
ghost use Rattle.outcomes.specs.PolicyTable.{PolicyTable};

use layout::ElementPlaces;
use meaning::Decision;
use requests::Request;
use table::{Row, Shape};

// The decision of a word, if it is one's.
fn decision_of(word: &[u8]) -> Option<Decision> {
    if comparing::same(word, b"permit") {
        return Some(Decision::Permit);
    }
    if comparing::same(word, b"deny") {
        return Some(Decision::Deny);
    }
    if comparing::same(word, b"not-applicable") {
        return Some(Decision::NotApplicable);
    }
    if comparing::same(word, b"indeterminate") {
        return Some(Decision::Indeterminate);
    }
    None
}

fn digit(b: u8) -> usize
    ensures { result < 16 }
{
    (b % 16) as usize
}

// A request's number in decimal; 4,096 or more for one that is none: `lay_decision` tests it against its places anyway.
fn number_of(digits: &[u8]) -> usize {
    let mut number = 0;
    for b in digits {
        if 4096 <= number {
            return number;
        }
        number = 10 * number + digit(*b);
    }
    number
}

// Lays down what a `G` line says: the decision of its segment, at the segment's first request.
fn lay_decision(line: &[u8], told: &mut [Option<Decision>]) {
    if !comparing::same(fields::field(line, 0), b"G") {
        return;
    }
    let first = number_of(fields::field(line, 1));
    if first < told.len() {
        told[first] = decision_of(fields::field(line, 3));
    }
}

// The same for each line of a report.
fn lay_decisions(report: &[u8], told: &mut [Option<Decision>]) {
    let mut at = 0;
    while at < report.len() {
        let end = text::end_of(report, at, b'\n');
        lay_decision(&report[at..end], told);
        if end == report.len() {
            return;
        }
        at = end + 1;
    }
}

// Whether element i applies to a request, where the word tells it of those before it.
fn applies(table: &[Row], n: usize, q: Request, word: u64, i: usize) -> bool
    requires { Rows table.now n × (n ≤ 64) × (i < n) × (q.len ≤ 6) }
{
    if !table::matches(table, i, q) {
        return false;
    }
    match table::parent(table, i) {
        Some(up) => rows::has(word, up),
        None => true,
    }
}

// The elements that apply to a request, a bit for each.
fn applying(table: &[Row], n: usize, q: Request) -> u64
    requires { Rows table.now n × (n ≤ 64) × (q.len ≤ 6) }
{
    let mut word: u64 = 0;
    for i in 0..n {
        if applies(table, n, q, word, i) {
            word |= 1u64 << i;
        }
    }
    word
}

// The first request to which the same elements apply as to request m.
fn first_alike(words: &[u64; 4096], m: usize) -> usize
    requires { m < 4096 }
    ensures { result ≤ m }
{
    let word = words[m];
    words[..m].iter().position(|w| *w == word).unwrap_or(m)
}

// Goes from request 0 to the last one and back to the first, and holds each to its number; where the decisions are told, to that of its segment, too.
fn step_all(
    table: &[Row],
    struck: &[u8],
    shape: Shape,
    told: Option<&[Option<Decision>; 4096]>,
) -> bool
    requires { PolicyTable table.now struck.now shape }
{
    let n = shape.n;
    let counts = shape.counts;
    let mut words = [0u64; 4096];
    let mut q = requests::request_of(0, shape.several, counts, shape.len);
    for m in 0..shape.space {
        if q.number(counts) != m {
            return false;
        }
        words[m] = applying(table, n, q);
        let first = first_alike(&words, m);
        let decision = decisions::decide(table, struck, n, q);
        if let Some(told) = told {
            if told[first] != Some(decision) {
                return false;
            }
        }
        q = q.next(counts);
    }
    q.number(counts) == 0
}

// Whether all requests of a file are as its report says; refused files count, and of one that has no report the numbers.
pub(crate) fn stepped(file: &[u8], report: &[u8]) -> bool {
    let mut table = [Row::NONE; 64];
    let mut places = [ElementPlaces::NONE; 64];
    let shape = match reader::read(file, &mut table, &mut places) {
        Ok(policy) => policy.shape(),
        Err(_) => return true,
    };
    let struck = [0u8; 64];
    let mut laid = [None; 4096];
    lay_decisions(report, &mut laid);
    let refused = comparing::same(fields::field(report, 0), b"E");
    let told = if refused { None } else { Some(&laid) };
    step_all(&table, &struck, shape, told)
}
