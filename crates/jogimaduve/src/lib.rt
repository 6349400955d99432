// The operations for C callers.
#![tactic(auto, using(reader::proofs::FileRead::unread))]

ghost use Rattle.std.specs.Prelude.{◌≡◌, ◌≤◌};
ghost use Rattle.meaning.specs.Operations.{decide_answer, decide_lent, trim_answer, trim_lent, next_rule_answer, next_rule_lent, strike_answer, strike_lent, step_answer, step_lent, accept_answer, join_answer, join_lent, report_answer, report_lent, value_pairs_answer, value_pairs_lent};
ghost use Rattle.layout.specs.Places.{FewValues};
ghost use Rattle.reader.specs.Told.{policy_shape};
ghost use Rattle.refusals.specs.Numbers.{number_of};

use joined_attributes::Part;
use layout::{ElementPlaces, PolicyFile};
use meaning::{Answer, Decided, Stepped};
use reader::Policy;
use refusals::Refused;
use table::Row;
use trimmed_text::KeptText;

// The policy file that was read, by what reading laid down.
fn held<'a>(
    file: &'a [u8],
    places: &'a [ElementPlaces],
    table: &'a [Row],
    policy: &Policy,
) -> PolicyFile<'a>
    requires { (policy.now.attributes.len ≤ 6) × FewValues policy.now.attributes }
    ensures { result ≡ record { file = file.entry; places = places.entry; table = table.entry; shape = policy_shape policy.now } }
{
    PolicyFile {
        file,
        places,
        table,
        shape: policy.shape(),
    }
}

// The answer of a request that is not decided.
fn undecided(refused: Refused) -> Decided
    ensures { result ≡ record { number = number_of refused.why; second = refused.second; length = 0 } }
{
    Decided {
        number: refused.why.number(),
        second: refused.second,
        length: 0,
    }
}

// What a policy file decides on a request line, and in a lent buffer the obligations that come with it.
pub fn jogimaduve_decide(file: &[u8], request: &[u8], out: &mut [u8]) -> Decided
    ensures value { result ≡ decide_answer file.now request.now out.old }
    ensures out_after { out.new ≡ decide_lent file.now request.now out.old }
{
    let mut table = [Row::NONE; 64];
    let mut places = [ElementPlaces::NONE; 64];
    let policy = match reader::read(file, &mut table, &mut places) {
        Ok(policy) => policy,
        Err(refused) => return undecided(refused),
    };
    match request_lines::request_line(file, &policy.attributes, request) {
        Ok(q) => deciding::answer(held(file, &places, &table, &policy), q, out),
        Err(refused) => undecided(refused),
    }
}

// The trimmed text of a policy file, in a lent buffer.
pub fn jogimaduve_trim(file: &[u8], out: &mut [u8]) -> Answer
    ensures value { result ≡ trim_answer file.now out.old }
    ensures out_after { out.new ≡ trim_lent file.now out.old }
{
    let mut table = [Row::NONE; 64];
    let mut places = [ElementPlaces::NONE; 64];
    let policy = match reader::read(file, &mut table, &mut places) {
        Ok(policy) => policy,
        Err(refused) => return refused.into(),
    };
    let policy = held(file, &places, &table, &policy);
    let mut struck = [0u8; 64];
    trimming::strike(policy, &mut struck);
    let kept = KeptText {
        policy,
        struck: &struck,
    };
    printing::answer(&kept, out)
}

// The name of the rule that trimming a policy file would strike next, in a lent buffer.
pub fn jogimaduve_next_rule(file: &[u8], out: &mut [u8]) -> Answer
    ensures value { result ≡ next_rule_answer file.now out.old }
    ensures out_after { out.new ≡ next_rule_lent file.now out.old }
{
    let mut table = [Row::NONE; 64];
    let mut places = [ElementPlaces::NONE; 64];
    match reader::read(file, &mut table, &mut places) {
        Ok(policy) => rule_by_rule::show(held(file, &places, &table, &policy), out),
        Err(refused) => refused.into(),
    }
}

// A policy file without the line of a needless rule, which is given by its name, in a lent buffer.
pub fn jogimaduve_strike(file: &[u8], rule: &[u8], out: &mut [u8]) -> Answer
    ensures value { result ≡ strike_answer file.now rule.now out.old }
    ensures out_after { out.new ≡ strike_lent file.now rule.now out.old }
{
    let mut table = [Row::NONE; 64];
    let mut places = [ElementPlaces::NONE; 64];
    match reader::read(file, &mut table, &mut places) {
        Ok(policy) => rule_by_rule::strike(held(file, &places, &table, &policy), rule, out),
        Err(refused) => refused.into(),
    }
}

// Strikes, in place, the rule that trimming a policy file would strike next.
pub fn jogimaduve_step(text: &mut [u8]) -> Stepped
    ensures value { result ≡ step_answer text.old }
    ensures text_after { text.new ≡ step_lent text.old }
{
    let mut table = [Row::NONE; 64];
    let mut places = [ElementPlaces::NONE; 64];
    match reader::read(text, &mut table, &mut places) {
        Ok(policy) => held_state::step(text, &table, &places, policy.shape()),
        Err(refused) => Stepped {
            number: refused.why.number(),
            second: refused.second,
            struck: 0,
        },
    }
}

// Whether a proposal for the trimmed policy of a policy file, the original, is sound.
pub fn jogimaduve_accept(original: &[u8], proposal: &[u8]) -> Answer
    ensures { result ≡ accept_answer original.now proposal.now }
{
    let mut table = [Row::NONE; 64];
    let mut places = [ElementPlaces::NONE; 64];
    match reader::read(original, &mut table, &mut places) {
        Ok(policy) => accepting::accept(held(original, &places, &table, &policy), proposal),
        Err(refused) => refused.into(),
    }
}

// Two policy files joined as the two children of a set with this algorithm word, in a lent buffer.
pub fn jogimaduve_join(first: &[u8], second: &[u8], word: &[u8], out: &mut [u8]) -> Answer
    ensures value { result ≡ join_answer first.now second.now word.now out.old }
    ensures out_after { out.new ≡ join_lent first.now second.now word.now out.old }
{
    let mut table = [Row::NONE; 64];
    let mut places = [ElementPlaces::NONE; 64];
    match reader::read(first, &mut table, &mut places) {
        Ok(policy) => {
            let part = Part {
                file: first,
                attributes: policy.attributes,
                from: places[0].start,
            };
            joining::join(&part, second, word, out)
        }
        Err(refused) => refused.into(),
    }
}

// The report of a policy file, in a lent buffer.
pub fn jogimaduve_report(file: &[u8], out: &mut [u8]) -> Answer
    ensures value { result ≡ report_answer file.now out.old }
    ensures out_after { out.new ≡ report_lent file.now out.old }
{
    let mut table = [Row::NONE; 64];
    let mut places = [ElementPlaces::NONE; 64];
    match reader::read(file, &mut table, &mut places) {
        Ok(policy) => reporting::report(held(file, &places, &table, &policy), out),
        Err(refused) => refused.into(),
    }
}

// The pairs of values of an `M` attribute that get another decision than one of the two alone, in a lent buffer.
pub fn jogimaduve_value_pairs(file: &[u8], attribute: &[u8], out: &mut [u8]) -> Answer
    ensures value { result ≡ value_pairs_answer file.now attribute.now out.old }
    ensures out_after { out.new ≡ value_pairs_lent file.now attribute.now out.old }
{
    let mut table = [Row::NONE; 64];
    let mut places = [ElementPlaces::NONE; 64];
    match reader::read(file, &mut table, &mut places) {
        Ok(policy) => value_pairs::tell(
            held(file, &places, &table, &policy),
            &policy.attributes,
            attribute,
            out,
        ),
        Err(refused) => refused.into(),
    }
}
