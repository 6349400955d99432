// Trimming rule by rule, for the policy that was read from a file: the next rule shown, and a rule struck by its name.
#![tactic(auto)]

ghost use Rattle.std.specs.Prelude.{◌≡◌};
ghost use Rattle.std.specs.Option.{ForSome};
ghost use Rattle.meaning.specs.Operations.{next_rule_answer, next_rule_lent, strike_answer, strike_lent};
ghost use Rattle.layout.specs.Places.{NameAt};
ghost use Rattle.trimmed_text.specs.Held.{PolicyHeld};
ghost use Rattle.rule_by_rule.specs.Shown.{name_or_none};

use layout::PolicyFile;
use meaning::Answer;
use printing::{Sink, Text};
use refusals::{Refusal, Refused};
use trimmed_text::KeptText;

// The name of the element that comes next, or nothing where there is none.
#[derive(Clone, Copy)]
struct NextName<'a> {
    policy: PolicyFile<'a>,
    next: Option<usize>,
    ghost named: { ForSome next (λ i. NameAt policy.file.now policy.places.now i) },
}

impl Text for NextName<'_> {
    ghost text = { λ t. name_or_none t.policy.file.now t.policy.places.now t.next };

    fn put(&self, sink: &mut Sink) {
        if let Some(i) = self.next {
            sink.put_bytes(layout::element_name(self.policy.file, self.policy.places, i));
        }
    }
}

// The name of the rule that trimming would strike next, in a lent buffer; no byte where no rule is needless.
pub fn show(policy: PolicyFile, out: &mut [u8]) -> Answer
    requires { PolicyHeld policy.file.now policy.table.now policy.places.now policy.shape }
    ensures value { result ≡ next_rule_answer policy.entry.file.now out.old }
    ensures out_after { out.new ≡ next_rule_lent policy.entry.file.now out.old }
{
    let mut struck = [0u8; 64];
    let next = trimming::next_struck(policy, &mut struck);
    printing::answer(&NextName { policy, next }, out)
}

// The file without the line of the needless rule that has this name, in a lent buffer; refused where there is no such rule.
pub fn strike(policy: PolicyFile, rule: &[u8], out: &mut [u8]) -> Answer
    requires { PolicyHeld policy.file.now policy.table.now policy.places.now policy.shape }
    ensures value { result ≡ strike_answer policy.entry.file.now rule.now out.old }
    ensures out_after { out.new ≡ strike_lent policy.entry.file.now rule.now out.old }
{
    let none = Refused {
        why: Refusal::NoSuchRule,
        second: 0,
    };
    let file = policy.file;
    let places = policy.places;
    let n = policy.shape.n;
    let Some(i) = layout::element_named(file, places, n, rule) else {
        return none.into();
    };
    let mut struck = [0u8; 64];
    if !trials::is_needless(policy, &mut struck, i) {
        return none.into();
    }
    struck[i] = 1;
    let kept = KeptText {
        policy,
        struck: &struck,
    };
    printing::answer(&kept, out)
}
