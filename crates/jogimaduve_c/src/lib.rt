// The operations as C functions, each by the library's function of its name.
#![tactic(auto)]

ghost use Rattle.std.specs.Prelude.{◌≡◌};
ghost use Rattle.meaning.specs.Operations.{decide_answer, decide_lent, trim_answer, trim_lent, next_rule_answer, next_rule_lent, strike_answer, strike_lent, step_answer, step_lent, accept_answer, join_answer, join_lent, report_answer, report_lent, value_pairs_answer, value_pairs_lent};

use meaning::{Answer, Decided, Stepped};

// What a policy file decides on a request line, and in a lent buffer the obligations that come with it.
#[unsafe(no_mangle)]
pub extern "C" fn jogimaduve_decide(file: &[u8], request: &[u8], out: &mut [u8]) -> Decided
    ensures value { result ≡ decide_answer file.now request.now out.old }
    ensures out_after { out.new ≡ decide_lent file.now request.now out.old }
{
    jogimaduve::jogimaduve_decide(file, request, out)
}

// The trimmed text of a policy file, in a lent buffer.
#[unsafe(no_mangle)]
pub extern "C" fn jogimaduve_trim(file: &[u8], out: &mut [u8]) -> Answer
    ensures value { result ≡ trim_answer file.now out.old }
    ensures out_after { out.new ≡ trim_lent file.now out.old }
{
    jogimaduve::jogimaduve_trim(file, out)
}

// The name of the rule that trimming a policy file would strike next, in a lent buffer.
#[unsafe(no_mangle)]
pub extern "C" fn jogimaduve_next_rule(file: &[u8], out: &mut [u8]) -> Answer
    ensures value { result ≡ next_rule_answer file.now out.old }
    ensures out_after { out.new ≡ next_rule_lent file.now out.old }
{
    jogimaduve::jogimaduve_next_rule(file, out)
}

// A policy file without the line of a needless rule, which is given by its name, in a lent buffer.
#[unsafe(no_mangle)]
pub extern "C" fn jogimaduve_strike(file: &[u8], rule: &[u8], out: &mut [u8]) -> Answer
    ensures value { result ≡ strike_answer file.now rule.now out.old }
    ensures out_after { out.new ≡ strike_lent file.now rule.now out.old }
{
    jogimaduve::jogimaduve_strike(file, rule, out)
}

// Strikes, in place, the rule that trimming a policy file would strike next.
#[unsafe(no_mangle)]
pub extern "C" fn jogimaduve_step(text: &mut [u8]) -> Stepped
    ensures value { result ≡ step_answer text.old }
    ensures text_after { text.new ≡ step_lent text.old }
{
    jogimaduve::jogimaduve_step(text)
}

// Whether a proposal for the trimmed policy of a policy file, the original, is sound.
#[unsafe(no_mangle)]
pub extern "C" fn jogimaduve_accept(original: &[u8], proposal: &[u8]) -> Answer
    ensures { result ≡ accept_answer original.now proposal.now }
{
    jogimaduve::jogimaduve_accept(original, proposal)
}

// Two policy files joined as the two children of a set with this algorithm word, in a lent buffer.
#[unsafe(no_mangle)]
pub extern "C" fn jogimaduve_join(
    first: &[u8],
    second: &[u8],
    word: &[u8],
    out: &mut [u8],
) -> Answer
    ensures value { result ≡ join_answer first.now second.now word.now out.old }
    ensures out_after { out.new ≡ join_lent first.now second.now word.now out.old }
{
    jogimaduve::jogimaduve_join(first, second, word, out)
}

// The report of a policy file, in a lent buffer.
#[unsafe(no_mangle)]
pub extern "C" fn jogimaduve_report(file: &[u8], out: &mut [u8]) -> Answer
    ensures value { result ≡ report_answer file.now out.old }
    ensures out_after { out.new ≡ report_lent file.now out.old }
{
    jogimaduve::jogimaduve_report(file, out)
}

// The pairs of values of an `M` attribute that get another decision than one of the two alone, in a lent buffer.
#[unsafe(no_mangle)]
pub extern "C" fn jogimaduve_value_pairs(file: &[u8], attribute: &[u8], out: &mut [u8]) -> Answer
    ensures value { result ≡ value_pairs_answer file.now attribute.now out.old }
    ensures out_after { out.new ≡ value_pairs_lent file.now attribute.now out.old }
{
    jogimaduve::jogimaduve_value_pairs(file, attribute, out)
}
