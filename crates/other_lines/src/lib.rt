// The lines of a proposal beside those of its original: the first that isn't the next original line.
#![tactic(auto)]

ghost use Rattle.std.specs.Prelude.{◌≡◌, ◌≤◌, length, IfSome};
ghost use Rattle.meaning.specs.Trimming.{rule_line, file_lines};
ghost use Rattle.meaning.specs.Accepting.{first_other};
ghost use Rattle.text.specs.Ended.{Ended};
ghost use Rattle.other_lines.specs.Told.{line_told};

// Whether a line is a rule's: its first field is `R`.
fn rule_line(line: &[u8]) -> bool
    ensures { result ≡ rule_line line.now }
{
    let to = text::end_of(line, 0, b'\t');
    comparing::same(&line[0..to], b"R")
}

// The first line of the proposal, from 1, that isn't the next original line, rule lines skipped as needed; none where all its
// lines match, whether or not a non-rule line of the original is left over.
pub fn first_other(original: &[u8], proposal: &[u8]) -> Option<usize>
    requires { Ended original.now × Ended proposal.now × (length proposal.now ≤ 16384) }
    ensures value { result ≡ line_told (first_other 1 (file_lines original.now) (file_lines proposal.now)) }
    ensures within { IfSome result (λ line. line ≤ 16385) }
{
    let mut at = 0;
    let mut from = 0;
    let mut line = 1;
    while from < proposal.len() {
        let to = text::end_of(proposal, from, b'\n');
        if at == original.len() {
            return Some(line);
        }
        let end = text::end_of(original, at, b'\n');
        if comparing::same(&original[at..end], &proposal[from..to]) {
            at = end + 1;
            from = to + 1;
            line += 1;
            continue;
        }
        if !rule_line(&original[at..end]) {
            return Some(line);
        }
        at = end + 1;
    }
    None
}
