// Which rules a proposal leaves out of a file that was read, by a flag for each element: one that is not 0 strikes its element.
#![tactic(auto)]

ghost use Rattle.std.specs.Prelude.{◌≡◌, ◌+◌, ◌-◌, ◌≤◌, length};
ghost use Rattle.meaning.specs.Text.{same};
ghost use Rattle.table.specs.Rows.{Rows};
ghost use Rattle.layout.specs.Places.{part};
ghost use Rattle.trimmed_text.specs.Copied.{Copies};
ghost use Rattle.left_out.specs.Leaving.{leaving};

use layout::PolicyFile;
use meaning::Word;

// Whether the text from `at` on begins with the file's bytes from `start` to `end`.
fn begins(text: &[u8], at: usize, file: &[u8], start: usize, end: usize) -> bool
    requires { (at ≤ length text.now) × (start ≤ end) × (end ≤ length file.now) }
    ensures { result ≡ same (part text.now at (at + (end - start))) (part file.now start end) }
{
    let size = end - start;
    if text.len() - at < size {
        return false;
    }
    comparing::same(&text[at..at + size], &file[start..end])
}

// Sets the flag of each rule whose line the proposal leaves out, up to the first line of another element that it lacks. Whether it is the file's lines without those, is the result.
pub fn leave_out(policy: PolicyFile, proposal: &[u8], struck: &mut [u8]) -> bool
    requires { Copies policy.file.now policy.places.now struck.old policy.shape.n × Rows policy.table.now policy.shape.n }
    ensures { let p = policy.entry in let left = leaving p.file.now p.places.now p.table.now p.shape.n proposal.now struck.old in (result ≡ left.whole) × (struck.new ≡ left.flags) }
{
    let file = policy.file;
    let places = policy.places;
    let n = policy.shape.n;
    let first = places[0].start;
    if !begins(proposal, 0, file, 0, first) {
        return false;
    }
    let mut at = first;
    for i in 0..n {
        let start = places[i].start;
        let end = trimmed_text::lines_end(file, places, n, i);
        if begins(proposal, at, file, start, end) {
            at += end - start;
            continue;
        }
        match table::word_at(policy.table, i) {
            Word::Permit | Word::Deny => struck[i] = 1,
            _ => return false,
        }
    }
    at == proposal.len()
}
