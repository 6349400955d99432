// Texts compared byte for byte, those of 8 to 16 bytes by two words: the compiler makes one load of a word.
#![tactic(auto)]

ghost use Rattle.std.specs.Prelude.{◌≡◌, ◌+◌, ◌*◌, ◌≤◌, ◌<◌, length};
ghost use Rattle.meaning.specs.Text.{same};
ghost use Rattle.comparing.specs.Words.{word_at, BytesAt};

// A byte below the others of a number.
fn below(b: u8, h: u64) -> u64
    requires { h < 72057594037927936 }
    ensures { (result ≡ b + 256 * h) × (b < 256) }
{
    b as u64 + 256 * h
}

// Eight bytes as one number, the lowest first. Written out, which the compiler makes one load: a loop over bytes is what `same_bytes`
// is for, on long texts.
fn word(s: &[u8], i: usize) -> u64
    requires { i + 8 ≤ length s.now }
    ensures value { result ≡ word_at s.now i }
    ensures bytes { BytesAt s.now i }
{
    let h = below(s[i + 7], 0);
    let h = below(s[i + 6], h);
    let h = below(s[i + 5], h);
    let h = below(s[i + 4], h);
    let h = below(s[i + 3], h);
    let h = below(s[i + 2], h);
    let h = below(s[i + 1], h);
    below(s[i], h)
}

// Whether two texts of one length are equal.
fn same_bytes(a: &[u8], b: &[u8]) -> bool
    requires { length a.now ≡ length b.now }
    ensures { result ≡ same a.now b.now }
{
    text::alike(a, b, |x, y| x == y)
}

// The same for 8 bytes or more. Two words, which may overlap, have all bytes of a name.
fn same_long(a: &[u8], b: &[u8]) -> bool
    requires { (length a.now ≡ length b.now) × (8 ≤ length a.now) }
    ensures { result ≡ same a.now b.now }
{
    if 16 < a.len() {
        return same_bytes(a, b);
    }
    let last = a.len() - 8;
    if word(a, last) != word(b, last) {
        return false;
    }
    if word(a, 0) != word(b, 0) {
        return false;
    }
    true
}

// Whether two texts are equal byte for byte. Short ones are compared here, where it is inlined; those of 8 to 16 bytes by two words.
// (`a == b` proves alone; it was tried, and reading the largest of bench's files took 18 percent longer.)
pub fn same(a: &[u8], b: &[u8]) -> bool
    ensures { result ≡ same a.now b.now }
{
    if a.len() != b.len() {
        return false;
    }
    if a.len() < 8 {
        return same_bytes(a, b);
    }
    same_long(a, b)
}
