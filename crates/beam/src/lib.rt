// Beams by value: of the 32 places of an array the first so many count, and the rest is whatever it is. No length lies
// inside: the survey has it.
#![tactic(auto)]

ghost use Rattle.std.specs.Prelude.{◌≡◌, [], ◌∷◌, ◌++◌, ℕ, ◌+◌, ◌-◌, ◌*◌, ◌≤◌, length, get_or, take, drop};
ghost use Rattle.word.specs.Limits.{widest};
ghost use Rattle.signal.specs.Signal.{copies, sum_from, sums};
ghost use Rattle.cells.specs.Cells.{part, store};

use word::add;
use word::limits::BEAM;

// One signal, at all places: a beam is then stored and read in the same parts, and no read waits for a store of another width.
pub fn one(x: u32) -> [u32; BEAM]
    ensures { take 1 result ≡ x ∷ [] }
{
    [x; BEAM]
}

// The entry at `at` of the first n, and 0 past those.
pub fn entry(a: &[u32], n: usize, at: usize) -> u32
    ensures { result ≡ get_or (take n a.now) at 0 }
{
    if n <= at {
        return 0;
    }
    a.get(at).copied().unwrap_or(0)
}

// The first n of a, then the first m of b.
pub fn joined(a: [u32; BEAM], n: usize, b: [u32; BEAM], m: usize) -> [u32; BEAM]
    requires { n + m ≤ widest }
    ensures { take (n + m) result ≡ take n a ++ take m b }
{
    let mut r = a;
    let end = n + m;
    r[n..end].copy_from_slice(&b[..m]);
    r
}

// What comes after the first n of a.
pub fn after(a: [u32; BEAM], n: usize) -> [u32; BEAM]
    requires { n ≤ widest }
    ensures { take (widest - n) result ≡ drop n a }
{
    let mut r = a;
    let rest = BEAM - n;
    r[..rest].copy_from_slice(&a[n..]);
    r
}

// The first b of a again and again, n in all.
pub fn repeated(a: [u32; BEAM], b: usize, n: usize) -> [u32; BEAM]
    requires { (b ≤ widest) × (n ≤ widest) }
    ensures { (k : ℕ) → k * b ≡ n → take n result ≡ copies k (take b a) }
{
    let mut r = a;
    for i in b..n {
        r[i] = r[i - b];
    }
    r
}

// acc and k more of the first m of a, b apart from `at` on, added up.
fn sum(a: &[u32], m: usize, k: usize, b: usize, acc: u32, at: usize) -> u32
    requires { (k ≤ widest) × (b ≤ widest) × (at ≤ 64) }
    ensures { result ≡ sum_from k b acc at (take m a.now) }
{
    let mut total = acc;
    let mut next = at;
    for i in 0..k {
        total = add(total, entry(a, m, next));
        next += b;
    }
    total
}

// The first m of a added onto b: output i, i+b, i+2b and so on.
pub fn merged(a: [u32; BEAM], m: usize, b: usize) -> [u32; BEAM]
    requires { (b ≤ m) × (m ≤ widest) }
    ensures { take b result ≡ sums m b (take m a) }
{
    if b == 0 {
        return a;
    }
    let more = m / b - 1;
    let mut r = a;
    for i in 0..b {
        let first = entry(&a, m, i);
        r[i] = sum(&a, m, more, b, first, i + b);
    }
    r
}

// The n cells from base on.
pub fn fetched(cells: &[u32], base: usize, n: usize) -> [u32; BEAM]
    requires { (n ≤ widest) × (base + n ≤ length cells.now) }
    ensures { take n result ≡ part base n cells.now }
{
    let mut r = [0u32; BEAM];
    let end = base + n;
    r[..n].copy_from_slice(&cells[base..end]);
    r
}

// The first n of a into the cells from base on.
pub fn keep(cells: &mut [u32], base: usize, n: usize, a: [u32; BEAM])
    requires { (n ≤ widest) × (base + n ≤ length cells.old) }
    ensures { cells.new ≡ store base (take n a) cells.old }
{
    keep_list(cells, base, &a[..n]);
}

// A list, kept from `base` on. One by one: where walks record, `copy_from_slice` would become a call of memmove, which
// nothing else in the archive for C needs.
pub fn keep_list(cells: &mut [u32], base: usize, list: &[u32])
    requires { base + length list.now ≤ length cells.old }
    ensures { cells.new ≡ store base list.now cells.old }
{
    for i in 0..list.len() {
        cells[base + i] = list[i];
    }
}
