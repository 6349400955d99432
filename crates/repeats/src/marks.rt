// Sets of names by their hashes.
ghost use Rattle.std.specs.Prelude.{◌≡◌, ◌<◌};
ghost use Rattle.repeats.specs.Marks.{hash_step, is_set, with_bit, marked, with_mark};

// The hash of a name, from that of all its bytes but the first: one for both cases of a letter.
pub fn hash_step(b: u8, h: usize) -> usize
    ensures { result ≡ hash_step b h }
{
    (h % 4294967296 + (b | 32) as usize) * 374761393
}

// A set of names, by two bits for each: a name that is in the set has both.
#[derive(Drop)]
pub struct Marks {
    words: [u64; 256],
}

impl Marks {
    // The set of none.
    pub const NONE: Marks = Marks { words: [0; 256] };

    fn is_set(&self, p: usize) -> bool
        requires { p < 16384 }
        ensures { result ≡ is_set self.now.words p }
    {
        (self.words[p / 64] >> (p % 64)) % 2 == 1
    }

    fn set_bit(&mut self, p: usize)
        requires { p < 16384 }
        ensures { self.new.words ≡ with_bit self.old.words p }
    {
        self.words[p / 64] |= 1u64 << (p % 64);
    }

    // Whether both bits of a hash are set.
    pub fn marked(&self, h: usize) -> bool
        ensures { result ≡ marked self.now.words h }
    {
        self.is_set(h / 262144 % 16384) && self.is_set(h % 16384)
    }

    // Sets both bits of a hash.
    pub fn mark(&mut self, h: usize)
        ensures { self.new.words ≡ with_mark self.old.words h }
    {
        self.set_bit(h / 262144 % 16384);
        self.set_bit(h % 16384);
    }

    // Sets them, and says whether they were set before.
    pub fn note(&mut self, h: usize) -> bool
        ensures { (result ≡ marked self.old.words h) × (self.new.words ≡ with_mark self.old.words h) }
    {
        let before = self.marked(h);
        self.mark(h);
        before
    }
}
