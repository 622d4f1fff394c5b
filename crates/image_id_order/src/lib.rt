// Rows of two numbers: whether no two are the same, in a time that goes by how many there are and not by the numbers. The rows are put in order
// without a promise, and the order is tested.
#![tactic(auto)]

mod sorting;

ghost use Rattle.std.specs.Prelude.{◌≡◌, true, ◌<◌, ◌≤◌, length};
ghost use Rattle.image_id_order.specs.Rows.{row_at, OneEach, Twice, Told, Ascends, Covers};

use sorting::sort;

// The most rows.
pub const MOST: usize = 1456;

// What a test tells: no two are the same, two are, or nothing.
#[derive(Clone, Copy)]
pub enum Verdict {
    Apart,
    Shared,
    Unsure,
}

// Whether a row comes before another one.
fn is_below(high: &[u64], low: &[u64], a: usize, b: usize) -> bool
    requires { (a < length high.now) × (b < length high.now) × (length low.now ≡ length high.now) }
    ensures { result ≡ true → row_at high.now low.now a < row_at high.now low.now b }
{
    let x = low[a];
    let y = low[b];
    if high[a] == high[b] {
        return x < y;
    }
    high[a] < high[b]
}

// Up to where each row of an order comes after the one before it. The place of each such row is put into `rank`.
fn ascends_to(high: &[u64], low: &[u64], order: &[usize; MOST], rank: &mut [usize; MOST]) -> usize
    requires { (length low.now ≡ length high.now) × (length high.now ≤ 1456) }
    ensures { (0 < result) × Ascends high.now low.now order.now result }
{
    let n = high.len();
    let mut j = 1;
    while j < n {
        let a = order[j - 1];
        let b = order[j];
        if a >= n {
            return j;
        }
        if b >= n {
            return j;
        }
        if !is_below(high, low, a, b) {
            return j;
        }
        rank[b] = j;
        j += 1;
    }
    j
}

// Whether each of the first `n` numbers is in an order, at the place that `rank` has for it.
fn covers(order: &[usize; MOST], rank: &[usize; MOST], n: usize) -> bool
    requires { n ≤ 1456 }
    ensures { result ≡ true → Covers order.now n n }
{
    let mut i = 0;
    while i < n {
        let j = rank[i];
        if j >= n {
            return false;
        }
        if order[j] != i {
            return false;
        }
        i += 1;
    }
    true
}

// What two rows tell by themselves: that two are the same, or nothing.
fn compare_rows(high: &[u64], low: &[u64], a: usize, b: usize) -> Verdict
    requires { length low.now ≡ length high.now }
    ensures { Told result (OneEach high.now low.now) (Twice high.now low.now) Unit }
{
    let n = high.len();
    if a >= n {
        return Verdict::Unsure;
    }
    if b >= n {
        return Verdict::Unsure;
    }
    if a == b {
        return Verdict::Unsure;
    }
    if high[a] != high[b] {
        return Verdict::Unsure;
    }
    if low[a] != low[b] {
        return Verdict::Unsure;
    }
    Verdict::Shared
}

// What an order of the rows tells.
fn judge(high: &[u64], low: &[u64], order: &[usize; MOST], rank: &mut [usize; MOST]) -> Verdict
    requires { (length low.now ≡ length high.now) × (length high.now ≤ 1456) }
    ensures { Told result (OneEach high.now low.now) (Twice high.now low.now) Unit }
{
    let n = high.len();
    let j = ascends_to(high, low, order, rank);
    if j < n {
        return compare_rows(high, low, order[j - 1], order[j]);
    }
    if !covers(order, rank, n) {
        return Verdict::Unsure;
    }
    Verdict::Apart
}

// Whether no two rows are the same. Where the order is right, as it is, the answer is not `Unsure`.
pub fn rows_apart(high: &[u64], low: &[u64]) -> Verdict
    requires { (length low.now ≡ length high.now) × (length high.now ≤ 1456) }
    ensures { Told result (OneEach high.now low.now) (Twice high.now low.now) Unit }
{
    let mut order = [0usize; MOST];
    sort(high, low, &mut order);
    let mut rank = [0usize; MOST];
    judge(high, low, &order, &mut rank)
}
