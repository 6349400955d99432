// Trimming as a held state, for the policy that was read from a text: a step strikes the next rule in place.
#![tactic(auto)]

ghost use Rattle.std.specs.Prelude.{◌≡◌, ◌≤◌, length};
ghost use Rattle.meaning.specs.Operations.{step_answer, step_lent};
ghost use Rattle.trimmed_text.specs.Held.{PolicyHeld};
ghost use Rattle.held_state.specs.Closed.{closed};

use layout::{ElementPlaces, PolicyFile};
use meaning::Stepped;
use table::{Row, Shape};

// Moves the bytes from `end` on down to `start`. What then lies behind them stays as it was.
fn close_gap(text: &mut [u8], start: usize, end: usize)
    requires { (start ≤ end) × (end ≤ length text.old) }
    ensures { text.new ≡ closed text.old start end }
{
    text.copy_within(end.., start);
}

// Strikes the rule that trimming would strike next, in place; where no rule is needless the text stays.
// The text is lent to be changed, so no `PolicyFile` can be handed in: one is made for the search alone.
pub fn step(text: &mut [u8], table: &[Row], places: &[ElementPlaces], shape: Shape) -> Stepped
    requires { PolicyHeld text.old table.now places.now shape }
    ensures value { result ≡ step_answer text.old }
    ensures text_after { text.new ≡ step_lent text.old }
{
    let n = shape.n;
    let mut struck = [0u8; 64];
    let policy = PolicyFile {
        file: text,
        places,
        table,
        shape,
    };
    let found = trimming::next_struck(policy, &mut struck);
    let size = text.len();
    let Some(next) = found else {
        return Stepped {
            number: 0,
            second: size as u32,
            struck: 0,
        };
    };
    let start = places[next].start;
    let end = trimmed_text::lines_end(text, places, n, next);
    close_gap(text, start, end);
    Stepped {
        number: 0,
        second: (size - (end - start)) as u32,
        struck: 1,
    }
}
