// Rows of 64 words for each element, a bit for each request: which requests it applies to, permits, denies; and each element's parent.
#![tactic(auto)]

ghost use Rattle.std.specs.Prelude.{◌≡◌, ◌++◌, map, ℕ, ◌+◌, ◌*◌, ◌≤◌, ◌<◌, length, get_or, drop};
ghost use Rattle.std.specs.Int.Bits.{bit_and};
ghost use Rattle.meaning.specs.Text.{counting};
ghost use Rattle.meaning.specs.Deciding.{bit};
ghost use Rattle.laws.specs.Found.{found};
ghost use Rattle.table.specs.Tree.{parent_of};
ghost use Rattle.table.specs.Rows.{Rows};
ghost use Rattle.table.specs.Shape.{hit_of};
ghost use Rattle.matching.specs.Hits.{Rest};
ghost use Rattle.rows.specs.Rows.{Applied, Given, Narrowed, AppliedRow, Rowed, Marked};

use blocks::Block;
use meaning::Decision;
use table::{Row, Shape};

// Whether bit i of the word is set.
pub fn has(word: u64, i: usize) -> bool
    requires { i < 64 }
    ensures { result ≡ bit word i }
{
    (word >> i) % 2 == 1
}

// Keeps of a row the bits that another one has too.
fn narrow(own: &[u64; 64], blocks: usize, row: &mut [u64])
    requires { (blocks ≤ 64) × (blocks ≤ length row.old) }
    ensures { (b : ℕ) → b < blocks → get_or row.new b 0 ≡ bit_and (get_or row.old b 0) (get_or own.now b 0) }
{
    for b in 0..blocks {
        row[b] &= own[b];
    }
}

// Keeps of a row the requests to which element i applies: that match its own target, and to which its parent applies.
// (It calls itself on the parent: the paper names this form.)
fn apply(table: &[Row], hits: &[[u64; 64]], n: usize, blocks: usize, i: usize, row: &mut [u64])
    requires { Rowed table.now hits.now n blocks × (i < n) × (blocks ≤ length row.old) }
    ensures { Narrowed table.now hits.now n blocks i row.old row.new }
{
    narrow(&hits[i], blocks, row);
    if let Some(up) = table::parent(table, i) {
        apply(table, hits, n, blocks, up, row);
    }
}

// The requests to which element i applies.
fn row_of(table: &[Row], hits: &[[u64; 64]], n: usize, blocks: usize, i: usize) -> [u64; 64]
    requires { Rowed table.now hits.now n blocks × (i < n) }
    ensures { AppliedRow table.now hits.now n blocks i result }
{
    let mut row = [18446744073709551615u64; 64];
    apply(table, hits, n, blocks, i, &mut row);
    row
}

// Lays down the requests to which each element applies. All other words stay.
pub fn apply_all(table: &[Row], hits: &[[u64; 64]], shape: Shape, applied: &mut [[u64; 64]])
    requires { Marked table.now shape hits.now × (64 ≤ length applied.old) }
    ensures { Applied table.now shape.n (hit_of shape) shape.space applied.new × Rest shape.n shape.space applied.old applied.new }
{
    let n = shape.n;
    let blocks = (shape.space + 63) / 64;
    for i in 0..n {
        let row = row_of(table, hits, n, blocks, i);
        matching::copy_plane(&row, blocks, &mut applied[i]);
    }
}

// Lays down the requests on which each element gives permit, and those on which it gives deny. All other words stay.
pub fn give_all(
    table: &[Row],
    struck: &[u8],
    hits: &[[u64; 64]],
    shape: Shape,
    permits: &mut [[u64; 64]],
    denies: &mut [[u64; 64]],
)
    requires { Marked table.now shape hits.now × (shape.n ≤ length struck.now) × (64 ≤ length permits.old) × (64 ≤ length denies.old) }
    ensures { Given Decision.Permit table.now struck.now shape.n (hit_of shape) shape.space permits.new × Given Decision.Deny table.now struck.now shape.n (hit_of shape) shape.space denies.new × Rest shape.n shape.space permits.old permits.new × Rest shape.n shape.space denies.old denies.new }
{
    let n = shape.n;
    let blocks = (shape.space + 63) / 64;
    for i in 0..n {
        for block in 0..blocks {
            let b = Block {
                table,
                struck,
                hits,
                n,
                block,
            };
            let given = b.reply(i).given;
            permits[i][block] = given.permitted();
            denies[i][block] = given.denied();
        }
    }
}

// Lays down the parent of each element. What lies behind them stays.
pub fn parent_all(table: &[Row], n: usize, parents: &mut [Option<usize>])
    requires { Rows table.now n × (n ≤ length parents.old) }
    ensures { parents.new ≡ map (λ i. found (parent_of table.now i)) (counting 0 n) ++ drop n parents.old }
{
    for child in 0..n {
        parents[child] = table::parent(table, child);
    }
}
