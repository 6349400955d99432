// The report of a policy that was read: everything is found once, then the same code counts the text and writes it.
#![tactic(auto)]

ghost use Rattle.std.specs.Prelude.{◌++◌, ◌≡◌, ◌+◌, ◌≤◌, ◌<◌, length, take};
ghost use Rattle.meaning.specs.Operations.{report_answer, report_lent};
ghost use Rattle.table.specs.Shape.{hit_of};
ghost use Rattle.layout.specs.Places.{Naming};
ghost use Rattle.matching.specs.Hits.{HitsLaid};
ghost use Rattle.outcomes.specs.PolicyTable.{PolicyTable, OutcomesLaid};
ghost use Rattle.outcomes.specs.Decided.{none_struck};
ghost use Rattle.trials.specs.Trial.{Laid};
ghost use Rattle.trimmed_text.specs.Held.{PolicyHeld};
ghost use Rattle.report_lines.specs.Lines.{segment_text, conflict_text, struck_text, kept_text};
ghost use Rattle.report_lines.specs.Ready.{Ordered};
ghost use Rattle.reporting.specs.Found.{SegmentsFound, ConflictsFound, RulesFound};

use blocks::Effects;
use differences::PolicyOutcomes;
use layout::PolicyFile;
use meaning::{Answer, Decision};
use printing::{Sink, Text};
use report_lines::{put_conflicts, put_kept, put_segments, put_struck};
use table::{Row, Shape};

// Lays down which requests match each element, and what each request gets.
fn find_decisions(table: &[Row], shape: Shape, hits: &mut [[u64; 64]], outcomes: &mut [Effects])
    requires { PolicyTable table.now none_struck shape × (64 ≤ length hits.old) × (64 ≤ length outcomes.old) }
    ensures { HitsLaid table.now hits.new shape × OutcomesLaid table.now none_struck outcomes.new shape }
{
    let struck = [0u8; 64];
    outcomes::find_outcomes(table, &struck, shape, hits, outcomes);
}

// What is found of each request: the word of the elements that apply to it, the size of the segment that it starts, else 0, and its decision.
// (Three lists, which three crates lay down, each one whole: as one list of structs they would take more of the controller's memory, by the padding.)
#[derive(Drop)]
struct Segments {
    words: [u64; 4096],
    sizes: [u16; 4096],
    decided: [Decision; 4096],
}

impl Segments {
    fn find(&mut self, o: &PolicyOutcomes)
        requires { let p = o.now.policy in Laid p.file.now p.places.now p.table.now none_struck o.now.hits.now o.now.outcomes.now p.shape × (64 ≤ length o.now.hits.now) }
        ensures { let p = o.now.policy in SegmentsFound p.table.now p.shape.n (hit_of p.shape) p.shape.space self.new.words self.new.sizes self.new.decided }
    {
        let shape = o.policy.shape;
        let n = shape.n;
        let space = shape.space;
        outcomes::tell_all(o.outcomes, space, &mut self.decided);
        let mut applied = [[0u64; 64]; 64];
        rows::apply_all(o.policy.table, o.hits, shape, &mut applied);
        segments::words_all(&applied, n, space, &mut self.words);
        segments::size_all(&self.words, space, &mut self.sizes);
    }
}

// Each element's parent, and for each pair of siblings the request that shows their conflict, in the row of the earlier one.
#[derive(Drop)]
struct Conflicts {
    parents: [Option<usize>; 64],
    pairs: [[u16; 64]; 64],
}

impl Conflicts {
    fn find(&mut self, o: &PolicyOutcomes)
        requires { let p = o.now.policy in Laid p.file.now p.places.now p.table.now none_struck o.now.hits.now o.now.outcomes.now p.shape × (64 ≤ length o.now.hits.now) }
        ensures { let p = o.now.policy in ConflictsFound p.table.now p.shape.n (hit_of p.shape) p.shape.space self.new.parents self.new.pairs }
    {
        let table = o.policy.table;
        let shape = o.policy.shape;
        let n = shape.n;
        let struck = [0u8; 64];
        let mut applied = [[0u64; 64]; 64];
        let mut permits = [[0u64; 64]; 64];
        let mut denies = [[0u64; 64]; 64];
        rows::apply_all(table, o.hits, shape, &mut applied);
        rows::give_all(table, &struck, o.hits, shape, &mut permits, &mut denies);
        rows::parent_all(table, n, &mut self.parents);
        let rows = conflicts::Rows {
            applied: &applied,
            permits: &permits,
            denies: &denies,
            space: shape.space,
        };
        rows.pair_all(&self.parents, n, &mut self.pairs);
    }
}

// The rules struck, in order, how many they are, and for each rule kept the request that needs it.
#[derive(Drop)]
struct Rules {
    order: [u8; 64],
    count: usize,
    shown: [Option<usize>; 64],
}

impl Rules {
    fn find(&mut self, o: &PolicyOutcomes)
        requires { let p = o.now.policy in Laid p.file.now p.places.now p.table.now none_struck o.now.hits.now o.now.outcomes.now p.shape }
        ensures { let p = o.now.policy in RulesFound p.file.now p.places.now p.table.now p.shape.n (hit_of p.shape) p.shape.space self.new.order self.new.shown self.new.count }
    {
        let mut struck = [0u8; 64];
        self.count = trimming::trim_flags(
            o.policy,
            o.hits,
            o.outcomes,
            &mut struck,
            &mut self.order,
        );
        trials::needed_all(o, &mut struck, &mut self.shown);
    }
}

// The lines of all that was found, one kind behind the other.
#[derive(Clone, Copy)]
struct Lines<'a> {
    policy: PolicyFile<'a>,
    segments: &'a Segments,
    conflicts: &'a Conflicts,
    rules: &'a Rules,
    ghost naming: { Naming policy.file.now policy.places.now policy.shape.n },
    ghost small: { policy.shape.space ≤ 4096 },
    ghost counted: { rules.now.count ≤ length rules.now.order },
    ghost ordered: { Ordered policy.file.now policy.places.now (take rules.now.count rules.now.order) },
}

impl Text for Lines<'_> {
    ghost text = { λ t. let f = t.policy.file.now in let places = t.policy.places.now in let n = t.policy.shape.n in let space = t.policy.shape.space in segment_text f places n t.segments.now.words t.segments.now.sizes t.segments.now.decided space ++ (conflict_text f places n t.conflicts.now.parents t.conflicts.now.pairs space ++ (struck_text f places (take t.rules.now.count t.rules.now.order) ++ kept_text f places n t.rules.now.shown space)) };

    fn put(&self, sink: &mut Sink) {
        let policy = &self.policy;
        let segments = self.segments;
        put_segments(
            policy,
            &segments.words,
            &segments.sizes,
            &segments.decided,
            sink,
        );
        put_conflicts(policy, &self.conflicts.parents, &self.conflicts.pairs, sink);
        put_struck(policy, &self.rules.order[..self.rules.count], sink);
        put_kept(policy, &self.rules.shown, sink);
    }
}

// Finds what there is to report besides decisions and conflicts, and answers with the lines.
fn write_lines(o: &PolicyOutcomes, conflicts: &Conflicts, out: &mut [u8]) -> Answer
    requires { let p = o.now.policy in PolicyHeld p.file.now p.table.now p.places.now p.shape × HitsLaid p.table.now o.now.hits.now p.shape × (64 ≤ length o.now.hits.now) × OutcomesLaid p.table.now none_struck o.now.outcomes.now p.shape × ConflictsFound p.table.now p.shape.n (hit_of p.shape) p.shape.space conflicts.now.parents conflicts.now.pairs }
    ensures value { result ≡ report_answer o.now.policy.file.now out.old }
    ensures out_after { out.new ≡ report_lent o.now.policy.file.now out.old }
{
    let mut segments = Segments {
        words: [0; 4096],
        sizes: [0; 4096],
        decided: [Decision::Permit; 4096],
    };
    segments.find(o);
    let mut rules = Rules {
        order: [0; 64],
        count: 0,
        shown: [None; 64],
    };
    rules.find(o);
    let lines = Lines {
        policy: o.policy,
        segments: &segments,
        conflicts,
        rules: &rules,
    };
    printing::answer(&lines, out)
}

// The report of the policy that was read from a file, in a lent buffer.
pub fn report(policy: PolicyFile, out: &mut [u8]) -> Answer
    requires { PolicyHeld policy.file.now policy.table.now policy.places.now policy.shape }
    ensures value { result ≡ report_answer policy.entry.file.now out.old }
    ensures out_after { out.new ≡ report_lent policy.entry.file.now out.old }
{
    let mut hits = [[0u64; 64]; 64];
    let mut outcomes = [Effects::NONE; 64];
    find_decisions(policy.table, policy.shape, &mut hits, &mut outcomes);
    let o = PolicyOutcomes {
        policy,
        hits: &hits,
        outcomes: &outcomes,
        obliged: obligations::any_obligations(policy.places, policy.shape.n),
    };
    // Their rows are gone from the stack before the segments' words lie on it.
    let mut conflicts = Conflicts {
        parents: [None; 64],
        pairs: [[0; 64]; 64],
    };
    conflicts.find(&o);
    write_lines(&o, &conflicts, out)
}
