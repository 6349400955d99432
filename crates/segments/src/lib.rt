// Segments: rows turned round give each request the word of its elements; equal words are one segment.
#![tactic(auto)]

ghost use Rattle.std.specs.Prelude.{◌≡◌, ◌++◌, map, ◌+◌, ◌*◌, ◌^◌, ◌≤◌, ◌<◌, length, drop};
ghost use Rattle.meaning.specs.Text.{counting, first_from};
ghost use Rattle.laws.specs.Found.{found};
ghost use Rattle.table.specs.Tree.{place_or};
ghost use Rattle.segments.specs.Across.{word_across, Column};
ghost use Rattle.segments.specs.Sizes.{alike, size_at};
ghost use Rattle.segments.specs.Turning.{Mask, ExchangedWord, Exchanged, Turned};
ghost use Rattle.segments.specs.Chains.{bucket_of, Chained};

// The words of one block, one for each element.
fn column(rows: &[[u64; 64]], n: usize, block: usize) -> [u64; 64]
    requires { (n ≤ 64) × (block < 64) × (n ≤ length rows.now) }
    ensures { Column rows.now n block result }
{
    let mut words = [0u64; 64];
    for i in 0..n {
        words[i] = rows[i][block];
    }
    words
}

// Word k of 64, with digit s of the words' and the bits' numbers exchanged: j is 2 to the s.
fn exchange(words: &[u64; 64], k: usize, s: usize, j: usize, mask: u64) -> u64
    requires { (k < 64) × (s < 6) × (j ≡ 2 ^ s) × Mask s mask }
    ensures { ExchangedWord s k words.now result }
{
    let word = words[k];
    if (k >> s) % 2 == 0 {
        (word & mask) | ((words[k + j] & mask) << j)
    } else {
        ((words[k - j] >> j) & mask) | (word ^ (word & mask))
    }
}

// All 64 words.
fn exchanged(words: &[u64; 64], s: usize, j: usize, mask: u64) -> [u64; 64]
    requires { (s < 6) × (j ≡ 2 ^ s) × Mask s mask }
    ensures { Exchanged s words.now result }
{
    let mut to = [0u64; 64];
    for k in 0..64 {
        to[k] = exchange(words, k, s, j, mask);
    }
    to
}

// 64 words turned round, digit by digit.
fn turned(words: &[u64; 64]) -> [u64; 64]
    ensures { Turned words.now result }
{
    let first = exchanged(words, 0, 1, 6148914691236517205);
    let second = exchanged(&first, 1, 2, 3689348814741910323);
    let third = exchanged(&second, 2, 4, 1085102592571150095);
    let fourth = exchanged(&third, 3, 8, 71777214294589695);
    let fifth = exchanged(&fourth, 4, 16, 281470681808895);
    exchanged(&fifth, 5, 32, 4294967295)
}

// Lays down the word of each request: the elements whose bit for it is set. What lies behind them stays.
pub fn words_all(rows: &[[u64; 64]], n: usize, space: usize, words: &mut [u64])
    requires { (n ≤ 64) × (space ≤ 4096) × (n ≤ length rows.now) × (space ≤ length words.old) }
    ensures { words.new ≡ map (word_across rows.now n) (counting 0 space) ++ drop space words.old }
{
    let mut block = [0u64; 64];
    for m in 0..space {
        if m % 64 == 0 {
            let elements = column(rows, n, m / 64);
            block = turned(&elements);
        }
        words[m] = block[m % 64];
    }
}

// The bucket of a word. heads has for each bucket 1 + the last request that opened a segment in it, links for each of these requests the same before it; 0 where there is none.
// (They stay numbers with 0 for none: as options they would take twice the controller's memory.)
fn bucket(word: u64) -> usize
    ensures { (result ≡ bucket_of word) × (result < 1021) }
{
    (word % 1021) as usize
}

// The first request before m that has its word: only the chain of the word's bucket is looked at.
fn first_alike(words: &[u64], heads: &[u16; 1021], links: &[u16; 4096], m: usize) -> Option<usize>
    requires { Chained words.now heads.now links.now m × (m < length words.now) × (m < 4096) }
    ensures { result ≡ found (first_from (alike words.now m) 0 m) }
{
    let word = words[m];
    let head = bucket(word);
    let mut next = heads[head] as usize;
    while 0 < next {
        let k = next - 1;
        if words[k] == word {
            return Some(k);
        }
        next = links[k] as usize;
    }
    None
}

// The same, or m, which is chained if it is the first of its segment.
fn enter(words: &[u64], heads: &mut [u16; 1021], links: &mut [u16; 4096], m: usize) -> usize
    requires { Chained words.now heads.old links.old m × (m < length words.now) × (m < 4096) }
    ensures { (result ≡ place_or m (first_from (alike words.now m) 0 m)) × (result ≤ m) × Chained words.now heads.new links.new (m + 1) }
{
    if let Some(first) = first_alike(words, heads, links, m) {
        return first;
    }
    let head = bucket(words[m]);
    links[m] = heads[head];
    heads[head] = (m + 1) as u16;
    m
}

// Lays down how many requests have the same word as each request that is the first of its segment, 0 for the others.
pub fn size_all(words: &[u64], space: usize, sizes: &mut [u16])
    requires { (space ≤ length words.now) × (space ≤ length sizes.old) × (space ≤ 4096) }
    ensures { sizes.new ≡ map (size_at words.now space) (counting 0 space) ++ drop space sizes.old }
{
    let mut heads = [0u16; 1021];
    let mut links = [0u16; 4096];
    for m in 0..space {
        let first = enter(words, &mut heads, &mut links, m);
        sizes[m] = 0;
        sizes[first] += 1;
    }
}
