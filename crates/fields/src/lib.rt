// Fields taken from a line from left to right: a reader holds the line's slice and a place.
// The methods and `field` are thin: the work is in `field_at` and `place_after`, functions on a slice and a number, over the cursor `text::end_of`.
#![tactic(auto)]

ghost use Rattle.std.specs.Prelude.{◌≡◌, [], get_or};
ghost use Rattle.meaning.specs.Text.{cut, tab};
ghost use Rattle.fields.specs.Places.{field_at, place_after};

// `at` is where a field starts, or past the end of the line where no field is left. A slice and a place, the form that
// docs/DECISIONS.md names.
#[derive(Clone, Copy)]
pub struct Fields<'a> {
    pub line: &'a [u8],
    pub at: usize,
}

// The field at a place, or an empty text where none is left.
fn field_at(line: &[u8], at: usize) -> &[u8]
    ensures { result.now ≡ field_at line.now at }
{
    if line.len() < at {
        return &line[0..0];
    }
    let e = text::end_of(line, at, b'\t');
    &line[at..e]
}

// The place of the field behind the one at a place.
fn place_after(line: &[u8], at: usize) -> usize
    ensures { result ≡ place_after line.now at }
{
    if line.len() < at {
        return at;
    }
    text::end_of(line, at, b'\t') + 1
}

impl<'a> Fields<'a> {
    // A reader at the first field of a line.
    pub fn start(line: &'a [u8]) -> Fields<'a>
        ensures { (result.line ≡ line.entry) × (result.at ≡ 0) }
    {
        Fields { line, at: 0 }
    }

    // The field at hand.
    pub fn current(self) -> &'a [u8]
        ensures { result.now ≡ field_at self.entry.line.now self.entry.at }
    {
        field_at(self.line, self.at)
    }

    // The reader at the next field.
    pub fn advance(self) -> Fields<'a>
        ensures { (result.line ≡ self.entry.line) × (result.at ≡ place_after self.entry.line.now self.entry.at) }
    {
        let at = place_after(self.line, self.at);
        Fields {
            line: self.line,
            at,
        }
    }
}

// Field k of a line, or an empty text where it has fewer.
pub fn field(line: &[u8], k: usize) -> &[u8]
    ensures { result.now ≡ get_or (cut tab line.now) k [] }
{
    let mut r = Fields::start(line);
    for _i in 0..k {
        r = r.advance();
    }
    r.current()
}
