// Whether a proposal is accepted beside a file that was read.
#![tactic(auto, using(reader::proofs::FileRead::unread))]

ghost use Rattle.std.specs.Prelude.{◌≡◌, suc, ◌+◌, ◌≤◌, ◌<◌, length};
ghost use Rattle.meaning.specs.Text.{first_from};
ghost use Rattle.meaning.specs.Operations.{accept_answer};
ghost use Rattle.laws.specs.Found.{found};
ghost use Rattle.table.specs.Shape.{hit_of};
ghost use Rattle.outcomes.specs.Decided.{none_struck};
ghost use Rattle.outcomes.specs.PolicyTable.{PolicyTable};
ghost use Rattle.differences.specs.Apart.{Untouched};
ghost use Rattle.trials.specs.Decided.{needless_at};
ghost use Rattle.trials.specs.Steady.{Steady};
ghost use Rattle.trials.specs.Trial.{Laid};
ghost use Rattle.trimmed_text.specs.Held.{PolicyHeld};
ghost use Rattle.refusals.specs.Numbers.{answer_of};
ghost use Rattle.accepting.specs.Judged.{lines_from, judged_at, LeavesOthersOut};

use blocks::Effects;
use differences::PolicyOutcomes;
use layout::{ElementPlaces, PolicyFile};
use meaning::Answer;
use refusals::{Refusal, Refused};
use table::{Row, Shape};
use trials::Tried;

// The line of element i, from 1, in what the flags leave behind so many attribute lines.
fn line_of(places: &[ElementPlaces], struck: &[u8], attributes: usize, i: usize) -> usize
    requires { (i ≤ length places.now) × (i ≤ length struck.now) × (i ≤ 64) × (attributes ≤ 6) }
    ensures { (result ≡ suc (attributes + lines_from places.now struck.now 0 i)) × (result ≤ 199) }
{
    let mut line = attributes + 1;
    for j in 0..i {
        if struck[j] != 0 {
            continue;
        }
        line += 1 + places[j].obligation_count();
    }
    line
}

// The topmost needless rule; the decisions are laid down.
fn first_needless(o: &PolicyOutcomes, struck: &mut [u8]) -> Option<usize>
    requires { let p = o.now.policy in Laid p.file.now p.places.now p.table.now struck.old o.now.hits.now o.now.outcomes.now p.shape }
    ensures { let p = o.now.policy in (result ≡ found (first_from (needless_at p.file.now p.places.now p.table.now p.shape.n (hit_of p.shape) p.shape.space struck.old) 0 p.shape.n)) × (struck.new ≡ struck.old) }
{
    for i in 0..o.policy.shape.n {
        match trials::try_rule(o, struck, i, None) {
            Tried::Needless => return Some(i),
            Tried::Needed(_) => continue,
            Tried::Other => continue,
        }
    }
    None
}

// What a proposal gets that is the file's lines without those of the rules struck. The decisions of the file are laid down once; where the proposal gives the same, they are its own.
fn judge(policy: PolicyFile, struck: &mut [u8]) -> Answer
    requires { let p = policy in Steady p.file.now p.places.now p.table.now p.shape × PolicyTable p.table.now none_struck p.shape × PolicyTable p.table.now struck.old p.shape × Untouched p.file.now p.places.now p.table.now none_struck struck.old p.shape }
    ensures { let p = policy.entry in (result ≡ judged_at p.file.now p.places.now p.table.now p.shape struck.old) × (struck.new ≡ struck.old) }
{
    let shape = policy.shape;
    let none = [0u8; 64];
    let mut hits = [[0u64; 64]; 64];
    let mut outcomes = [Effects::NONE; 64];
    outcomes::find_outcomes(policy.table, &none, shape, &mut hits, &mut outcomes);
    let first = differences::first_difference(policy, &hits, &outcomes, &none, struck);
    if let Some(request) = first {
        let refused = Refused {
            why: Refusal::OtherOutcome,
            second: request as u32,
        };
        return refused.into();
    }
    let obliged = obligations::any_obligations(policy.places, shape.n);
    let o = PolicyOutcomes {
        policy,
        hits: &hits,
        outcomes: &outcomes,
        obliged,
    };
    let Some(rule) = first_needless(&o, struck) else {
        return Answer {
            number: 0,
            second: 0,
        };
    };
    let refused = Refused {
        why: Refusal::NeedlessRule,
        second: line_of(policy.places, struck, shape.len, rule) as u32,
    };
    refused.into()
}

// What a proposal gets that leaves out more than rule lines, or has other ones: its own refusal, or its first other line.
fn refuse(file: &[u8], proposal: &[u8]) -> Refused
    requires { LeavesOthersOut file.now proposal.now }
    ensures { answer_of result ≡ accept_answer file.now proposal.now }
{
    let mut table = [Row::NONE; 64];
    let mut places = [ElementPlaces::NONE; 64];
    match reader::read(proposal, &mut table, &mut places) {
        Ok(_) => Refused {
            why: Refusal::OtherLine,
            second: other_lines::first_other(file, proposal).unwrap_or(0) as u32,
        },
        Err(refused) => refused,
    }
}

// The answer to a proposal beside the file. One that is the file's lines without those of some rules is a policy file, so it is not read: the flags of these rules stand for it.
pub fn accept(policy: PolicyFile, proposal: &[u8]) -> Answer
    requires { PolicyHeld policy.file.now policy.table.now policy.places.now policy.shape }
    ensures { result ≡ accept_answer policy.entry.file.now proposal.now }
{
    let mut struck = [0u8; 64];
    if left_out::leave_out(policy, proposal, &mut struck) {
        judge(policy, &mut struck)
    } else {
        refuse(policy.file, proposal).into()
    }
}
