//! The tree over a row: node 1 is its root, and each node has the earlier of the moments of its two children.

ghost use Rattle.std.specs.Prelude.{◌≡◌, ◌+◌, ◌*◌, ◌^◌, ◌<◌, ◌≤◌, ℕ, length};
ghost use Rattle.std.specs.Prelude.{drop, slice_set, vec_len, MatchOption, None};
ghost use Rattle.due_rows.specs.Moments.{is_due, earlier, moment_at, IsFirstDue, NoneIsDue};
ghost use Rattle.due_rows.specs.Trees.{AreJoined};

/// Whether there is a moment, and it has come.
pub(crate) fn is_due(moment: Option<u64>, now: u64) -> bool
    ensures { result ≡ is_due now moment }
{
    match moment {
        Some(moment) => moment <= now,
        None => false,
    }
}

/// The earlier of two moments, where there are any.
fn earlier(one: Option<u64>, other: Option<u64>) -> Option<u64>
    ensures { result ≡ earlier one other }
{
    match (one, other) {
        (Some(one), Some(other)) => Some(if one <= other { one } else { other }),
        (Some(one), None) => Some(one),
        (None, other) => other,
    }
}

/// The first node of a level, from this one on, whose moment has come. The level ends before `end`, and has `above`
/// levels above it.
pub(crate) fn first_due_node(
    nodes: &[Option<u64>],
    now: u64,
    from: usize,
    end: usize,
    above: usize,
) -> Option<usize>
    requires joined { AreJoined nodes.now }
    requires level { end ≡ 2 ^ (above + 1) }
    requires within { end ≤ length nodes.now }
    requires some { 1 ≤ from }
    requires to_the_end { from ≤ end }
    ensures { MatchOption result (NoneIsDue now from end nodes.now) (IsFirstDue now from end nodes.now) }
{
    if from == end {
        return None;
    }
    if is_due(nodes[from], now) {
        return Some(from);
    }
    if above == 0 {
        return None;
    }
    let parent = first_due_node(nodes, now, (from + 1) / 2, end / 2, above - 1)?;
    let left = 2 * parent;
    if is_due(nodes[left], now) {
        Some(left)
    } else {
        Some(left + 1)
    }
}

/// Gives a leaf this moment, and each node above it the earlier of its children's.
pub(crate) fn put(nodes: &mut Vec<Option<u64>>, half: usize, leaf: usize, moment: Option<u64>)
    requires joined { AreJoined nodes.old.items }
    requires sized { length nodes.old.items ≡ 2 * half }
    requires is_leaf { half ≤ leaf }
    requires within { leaf < 2 * half }
    ensures joined { AreJoined nodes.new.items }
    ensures leaves { drop half nodes.new.items ≡ drop half (slice_set nodes.old.items leaf moment) }
    ensures sized { length nodes.new.items ≡ 2 * half }
{
    nodes[leaf] = moment;
    let mut node = leaf;
    while node > 1 {
        node /= 2;
        nodes[node] = earlier(nodes[2 * node], nodes[2 * node + 1]);
    }
}
