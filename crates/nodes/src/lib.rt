// Lists of nodes, eight bytes each, by their numbers.
#![tactic(auto)]

ghost use Rattle.std.specs.Prelude.{◌≡◌, ◌+◌, ◌/◌, ◌≤◌, ◌<◌, length, take, drop, get_or};
ghost use Rattle.model.specs.Nodes.{nodes_from, nodes_of, is_among, no_repeats, outside as outside_of};

// Puts the numbers of a list's nodes into the first places of `nodes`. How many there are.
pub fn load(nodes: &mut [u64], v: &[u8]) -> usize
    requires { length v.now / 8 ≤ length nodes.old }
    ensures { (result ≡ length v.now / 8) × (take result nodes.new ≡ nodes_from result v.now) }
{
    let count = v.len() / 8;
    for (i, node) in nodes[..count].iter_mut().enumerate() {
        *node = wire::get(v, i * 8, 8);
    }
    count
}

// Whether a number is among some.
pub fn among(nodes: &[u64], n: u64) -> bool
    ensures { result ≡ is_among n nodes.now }
{
    nodes.contains(&n)
}

// How many of some numbers are not among others.
pub fn outside(nodes: &[u64], others: &[u64]) -> usize
    ensures { result ≡ outside_of others.now nodes.now }
{
    nodes.iter().filter(|n| !among(others, **n)).count()
}

// How many nodes of a list are not in another one: all of them where that one is empty.
pub fn outside_in(v: &[u8], w: &[u8]) -> usize
    requires { (length v.now / 8 ≤ 64) × (length w.now / 8 ≤ 64) }
    ensures { result ≡ outside_of (nodes_of w.now) (nodes_of v.now) }
{
    if w.is_empty() {
        return v.len() / 8;
    }
    let mut list = [0; 64];
    let count = load(&mut list, v);
    let mut others = [0; 64];
    let more = load(&mut others, w);
    outside(&list[..count], &others[..more])
}

// Whether the node at a place of a list comes again behind it.
fn comes_again(v: &[u8], at: usize) -> bool
    requires { at < length v.now / 8 }
    ensures { result ≡ is_among (get_or (nodes_of v.now) at 0) (drop (at + 1) (nodes_of v.now)) }
{
    let node = wire::get(v, at * 8, 8);
    (at + 1..v.len() / 8).any(|i| wire::get(v, i * 8, 8) == node)
}

// Whether no node of a list comes twice.
pub fn apart_in(v: &[u8]) -> bool
    ensures { result ≡ no_repeats (nodes_of v.now) }
{
    (0..v.len() / 8).all(|i| !comes_again(v, i))
}
