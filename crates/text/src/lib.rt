// Bytes of a text: where pieces, lines and fields end, and how many there are.
#![tactic(auto)]

mod runs;

ghost use Rattle.std.specs.Prelude.{◌≡◌, cond, [], ◌+◌, ◌≤◌, ◌<◌, length, drop, get_or};
ghost use Rattle.meaning.specs.Text.{all, cut, newline, tab, is_field};
ghost use Rattle.text.specs.Runs.{FirstLine};
ghost use Rattle.text.specs.Alike.{Alike};

// Where the piece that starts at `at` ends: the place of the next `sep`, or the length.
pub fn end_of(s: &[u8], at: usize, sep: u8) -> usize
    requires { at ≤ length s.now }
    ensures value { result ≡ at + length (get_or (cut sep (drop at s.now)) 0 []) }
    ensures within { (at ≤ result) × (result ≤ length s.now) }
{
    runs::first_from(s, at, |b| b == sep)
}

// How many pieces the text has: one more than there are bytes `sep`. (A `for`: `filter().count()` took two to five times as long.)
pub fn count_pieces(s: &[u8], sep: u8) -> usize
    ensures { result ≡ length (cut sep s.now) }
{
    let mut pieces = 1;
    for b in s {
        if *b == sep {
            pieces += 1;
        }
    }
    pieces
}

// How many fields a line has, or 0 where one of them is empty or has another byte: a number, since the definition `CountIs`
// (`attribute_lines`) has 0 for such a line too. One pass over the bytes.
pub fn count_fields(line: &[u8]) -> usize
    ensures value { result ≡ cond (all is_field (cut tab line.now)) (length (cut tab line.now)) 0 }
    ensures few { result ≤ length line.now + 1 }
{
    let mut ended = 0;
    let mut at = 0;
    loop {
        let e = runs::visible_to(line, at);
        if e == at {
            return 0;
        }
        if e == line.len() {
            return ended + 1;
        }
        if line[e] != b'\t' {
            return 0;
        }
        ended += 1;
        at = e + 1;
    }
}

// Where a line ends, and how many fields it has, 0 for a bad line, as `count_fields` tells it.
#[derive(Clone, Copy)]
pub struct Counted {
    pub end: usize,
    pub fields: usize,
}

// A line whose byte at e is wrong.
fn wrong_line(s: &[u8], e: usize) -> Counted
    requires { e ≤ length s.now }
    ensures { (result.end ≡ e + length (get_or (cut newline (drop e s.now)) 0 [])) × (result.end ≤ length s.now) × (result.fields ≡ 0) }
{
    let end = end_of(s, e, b'\n');
    Counted { end, fields: 0 }
}

// The line that a text starts with: where it ends, and how many fields it has where a newline ends it, else 0. One pass over the bytes.
pub fn first_line(s: &[u8]) -> Counted
    ensures { FirstLine s.now result.end result.fields }
{
    let mut ended = 0;
    let mut at = 0;
    loop {
        let e = runs::visible_to(s, at);
        if e == s.len() {
            return Counted { end: e, fields: 0 };
        }
        let b = s[e];
        if at == e {
            return wrong_line(s, e);
        }
        if b == b'\n' {
            let fields = ended + 1;
            return Counted { end: e, fields };
        }
        if b != b'\t' {
            return wrong_line(s, e);
        }
        ended += 1;
        at = e + 1;
    }
}

// A line from its field k on.
pub fn from_field(line: &[u8], k: usize) -> &[u8]
    requires { k < length (cut tab line.now) }
    ensures { cut tab result.now ≡ drop k (cut tab line.now) }
{
    let mut at = 0;
    for _n in 0..k {
        at = end_of(line, at, b'\t') + 1;
    }
    &line[at..]
}

// Whether a test passes at each place of two texts of one length. From the last byte: names that are alike mostly differ in a
// number at the end.
pub fn alike<F: Fn(u8, u8) -> bool>(a: &[u8], b: &[u8], test: F) -> bool
    requires may { F.IsAlwaysCallable test }
    requires one_length { length a.now ≡ length b.now }
    ensures { Alike (F.post test) a.now b.now result }
{
    for i in (0..a.len()).rev() {
        if !test(a[i], b[i]) {
            return false;
        }
    }
    true
}
