// Whether a name stands twice among the fields of a line.
#![tactic(auto)]

mod many;
mod marks;

ghost use Rattle.std.specs.Prelude.{◌≡◌, not};
ghost use Rattle.meaning.specs.Text.{among_names, repeated, cut, tab};

fn has(fields: &[u8], name: &[u8]) -> bool
    ensures { result ≡ among_names name.now (cut tab fields.now) }
{
    names::find(fields, name).is_some()
}

// Whether no field stands twice, by comparing each with those behind it.
fn few_distinct(fields: &[u8]) -> bool
    ensures { result ≡ not (repeated (cut tab fields.now)) }
{
    let mut at = 0;
    loop {
        let e = text::end_of(fields, at, b'\t');
        if e == fields.len() {
            return true;
        }
        let next = e + 1;
        if has(&fields[next..], &fields[at..e]) {
            return false;
        }
        at = next;
    }
}

// Whether no field stands twice. 16 names of 16 bytes are few: an attribute line that has more to compare is refused for something.
pub fn all_distinct(fields: &[u8]) -> bool
    ensures { result ≡ not (repeated (cut tab fields.now)) }
{
    if fields.len() < 272 {
        return few_distinct(fields);
    }
    many::many_distinct(fields)
}
