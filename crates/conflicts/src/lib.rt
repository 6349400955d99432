// Conflicts: the first request that shows each, by the rows of a parent and two of its children.
#![tactic(auto)]

ghost use Rattle.std.specs.Prelude.{◌≡◌, ℕ, ◌<◌};
ghost use Rattle.meaning.specs.Text.{first_from};
ghost use Rattle.laws.specs.Found.{found};
ghost use Rattle.table.specs.Words.{word_in};
ghost use Rattle.conflicts.specs.Pairs.{shown_by, Later, PairsOf, Pairs, OthersStay, Laid, Pairing};

// On which of so many requests each element applies, permits and denies: a row of bits for each.
#[derive(Clone, Copy)]
pub struct Rows<'a> {
    pub applied: &'a [[u64; 64]],
    pub permits: &'a [[u64; 64]],
    pub denies: &'a [[u64; 64]],
    pub space: usize,
}

impl Rows<'_> {
    // The first request that shows a conflict of j and k under i.
    fn first_shown(&self, i: usize, j: usize, k: usize) -> Option<usize>
        requires { let r = self.now in Laid r.applied.now r.permits.now r.denies.now r.space × (i < 64) × (j < 64) × (k < 64) }
        ensures { let r = self.now in result ≡ found (first_from (shown_by r.applied.now r.permits.now r.denies.now i j k) 0 r.space) }
    {
        let blocks = (self.space + 63) / 64;
        for b in 0..blocks {
            let first = self.permits[j][b] & self.denies[k][b];
            let second = self.denies[j][b] & self.permits[k][b];
            let word = self.applied[i][b] & (first | second);
            if word != 0 {
                let m = 64 * b + blocks::lowest(word) as usize;
                if m < self.space {
                    return Some(m);
                }
                return None;
            }
        }
        None
    }

    // Lays down in row j, for each later child k of j's parent, the first request that shows a conflict of j and k, or the number of requests. All other places stay.
    // (The number stands for none: 64 times 64 options would take twice the controller's memory.)
    fn pair_later(&self, parents: &[Option<usize>], n: usize, j: usize, pairs: &mut [[u16; 64]])
        requires { let r = self.now in Pairing parents.now r.applied.now r.permits.now r.denies.now n r.space pairs.old × (j < n) }
        ensures { let r = self.now in PairsOf parents.now (shown_by r.applied.now r.permits.now r.denies.now) n r.space pairs.new j × ((l k : ℕ) → (l ≡ j → (i : ℕ) → Later parents.now n i j k → ⊥) → word_in pairs.new l k ≡ word_in pairs.old l k) }
    {
        let parent = match parents[j] {
            Some(parent) if parent < n => parent,
            _ => return,
        };
        for k in j + 1..n {
            if parents[k] != Some(parent) {
                continue;
            }
            let shown = self.first_shown(parent, j, k);
            pairs[j][k] = shown.unwrap_or(self.space) as u16;
        }
    }

    // The same for each j. Only places of later children are set.
    pub fn pair_all(&self, parents: &[Option<usize>], n: usize, pairs: &mut [[u16; 64]])
        requires { let r = self.now in Pairing parents.now r.applied.now r.permits.now r.denies.now n r.space pairs.old }
        ensures { let r = self.now in Pairs parents.now (shown_by r.applied.now r.permits.now r.denies.now) n r.space pairs.new × OthersStay parents.now n pairs.old pairs.new }
    {
        for j in 0..n {
            self.pair_later(parents, n, j, pairs);
        }
    }
}
