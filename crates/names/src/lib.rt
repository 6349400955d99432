// Names: what is one, which are equal, and where one stands among the fields of a line.
#![tactic(auto)]

ghost use Rattle.std.specs.Prelude.{◌≡◌, ℕ, ◌≤◌, ◌<◌, eqb, length};
ghost use Rattle.meaning.specs.Text.{all, folded, same_name, cut, tab, name_byte, is_name};
ghost use Rattle.meaning.specs.Deciding.{value_of};
ghost use Rattle.laws.specs.Found.{found};
ghost use Rattle.names.specs.Ends.{ends_otherwise};

// Whether two bytes differ at most in letter case.
fn same_letter(x: u8, y: u8) -> bool
    ensures { result ≡ eqb (folded x) (folded y) }
{
    x.eq_ignore_ascii_case(&y)
}

// Whether two names are equal: they differ at most in letter case. Nothing else calls names equal; a target's are compared to
// the byte, in `syntax`.
pub fn same_name(a: &[u8], b: &[u8]) -> bool
    ensures { result ≡ same_name a.now b.now }
{
    if a.len() != b.len() {
        return false;
    }
    text::alike(a, b, |x, y| same_letter(x, y))
}

// Whether the texts that end at this place end otherwise than the name: a quick test that tells most names apart.
pub fn ends_otherwise(s: &[u8], end: usize, name: &[u8]) -> bool
    requires { (1 ≤ end) × (end ≤ length s.now) }
    ensures { result ≡ ends_otherwise s.now end name.now }
{
    if name.len() == 0 {
        return false;
    }
    let last = name.len() - 1;
    let own = name[last];
    let other = s[end - 1];
    own | 32 != other | 32
}

fn name_byte(b: u8) -> bool
    ensures { result ≡ name_byte b }
{
    b.is_ascii_alphanumeric() || b == b'-'
}

// Whether a text is a name: its length and first byte first, then every byte. (A `for`: over `all` the proof did not close.)
pub fn is_name(s: &[u8]) -> bool
    ensures { result ≡ is_name s.now }
{
    if s.len() < 1 {
        return false;
    }
    if 16 < s.len() {
        return false;
    }
    if s[0] == b'-' {
        return false;
    }
    for b in s {
        if !name_byte(*b) {
            return false;
        }
    }
    true
}

// Whether every field is a name. (`find` and `repeats::few_distinct` go over fields so too: what they ask, and when they end, differs.)
pub fn all_names(fields: &[u8]) -> bool
    ensures { result ≡ all is_name (cut tab fields.now) }
{
    let mut at = 0;
    loop {
        let e = text::end_of(fields, at, b'\t');
        if !is_name(&fields[at..e]) {
            return false;
        }
        if e == fields.len() {
            return true;
        }
        at = e + 1;
    }
}

// The place, from 0, of the first field that has this name.
pub fn find(fields: &[u8], name: &[u8]) -> Option<usize>
    ensures value { result ≡ found (value_of 0 name.now (cut tab fields.now)) }
    ensures within { (v : ℕ) → result ≡ Some v → v < length (cut tab fields.now) }
{
    let mut at = 0;
    let mut n = 0;
    loop {
        let e = text::end_of(fields, at, b'\t');
        if same_name(name, &fields[at..e]) {
            return Some(n);
        }
        if e == fields.len() {
            return None;
        }
        at = e + 1;
        n += 1;
    }
}
