//! Times in a complete binary tree of minima, kept in one slice. Node 1 is the root, the children of node `at` are
//! `2 * at` and `2 * at + 1`, and the second half of the slice are the leaves. An inner node holds the earliest time of
//! its two children, where no time comes after every time.
ghost use Rattle.std.specs.Prelude.{◌≡◌, ℕ, ◌+◌, ◌*◌, ◌^◌, ◌<◌, ◌≤◌, ◌≢◌, length, true, false, None, MatchOption, slice_set, if◌then◌else◌};
ghost use Rattle.lease_table.specs.Times.{time_at, earlier_of, is_due_at, IsTree, IsFirstDue};

fn earlier(left: Option<u64>, right: Option<u64>) -> Option<u64>
    ensures { result ≡ earlier_of left right }
{
    match (left, right) {
        (Some(left), Some(right)) => Some(left.min(right)),
        (Some(left), None) => Some(left),
        (None, _) => right,
    }
}

fn is_due(time: Option<u64>, now: u64) -> bool
    ensures { result ≡ is_due_at now time }
{
    match time {
        Some(time) => time <= now,
        None => false,
    }
}

fn renew(nodes: &mut [Option<u64>], at: usize)
    requires { 2 * at + 1 < length nodes.old }
    ensures { nodes.new ≡ slice_set nodes.old at (earlier_of (time_at nodes.old (2 * at)) (time_at nodes.old (2 * at + 1))) }
{
    nodes[at] = earlier(nodes[2 * at], nodes[2 * at + 1]);
}

/// Makes the inner nodes from the leaves.
pub(crate) fn build(nodes: &mut [Option<u64>], leaves: usize)
    requires { length nodes.old ≡ 2 * leaves }
    ensures tree { IsTree leaves nodes.new }
    ensures kept { (k : ℕ) → leaves ≤ k → time_at nodes.new k ≡ time_at nodes.old k }
{
    let mut at = leaves;
    while at > 1 {
        at -= 1;
        renew(nodes, at);
    }
}

/// Changes one leaf.
pub(crate) fn put(nodes: &mut [Option<u64>], leaves: usize, leaf: usize, time: Option<u64>)
    requires tree { IsTree leaves nodes.old }
    requires leaf { leaf < leaves }
    ensures tree { IsTree leaves nodes.new }
    ensures put { time_at nodes.new (leaves + leaf) ≡ time }
    ensures kept { (k : ℕ) → leaves ≤ k → k ≢ leaves + leaf → time_at nodes.new k ≡ time_at nodes.old k }
{
    let mut at = leaves + leaf;
    nodes[at] = time;
    while at > 1 {
        at /= 2;
        renew(nodes, at);
    }
}

// The first child whose time has come, where that of the node has.
fn due_child(nodes: &[Option<u64>], at: usize, now: u64) -> usize
    requires { 2 * at + 1 < length nodes.now }
    ensures { result ≡ (if is_due_at now (time_at nodes.now (2 * at)) then 2 * at else 2 * at + 1) }
{
    if is_due(nodes[2 * at], now) {
        2 * at
    } else {
        2 * at + 1
    }
}

/// The first leaf whose time has come.
pub(crate) fn first_due(nodes: &[Option<u64>], height: u32, now: u64) -> Option<usize>
    requires tree { IsTree (2 ^ height) nodes.now }
    ensures first { MatchOption result
        ((k : ℕ) → k < 2 ^ height → is_due_at now (time_at nodes.now (2 ^ height + k)) ≡ false)
        (λ leaf. IsFirstDue now height nodes.now leaf) }
{
    if !is_due(nodes[1], now) {
        return None;
    }
    let mut at = 1;
    for level in 0..height {
        at = due_child(nodes, at, now);
    }
    Some(at - nodes.len() / 2)
}
