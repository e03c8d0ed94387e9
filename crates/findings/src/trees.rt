// A tree of keys: at the root, which is node 1, stands no more than at any leaf. Below node k stand
// the nodes 2 k and 2 k + 1, and the leaves are nodes 32 to 63.
ghost use Rattle.std.specs.Prelude.{◌≡◌, ◌≢◌, ℕ, ◌+◌, ◌<◌, ◌≤◌, length, slice_index_or};
ghost use Rattle.findings.specs.Trees.{IsTree, LeavesUnder};

// Raises a leaf, and what stands above it.
pub(crate) fn raise(keys: &mut [u32; 64], leaf: usize, key: u32)
    requires outer { 32 ≤ leaf }
    requires within { leaf < 64 }
    requires more { slice_index_or keys.old leaf 0 ≤ key }
    requires tree { IsTree keys.old }
    ensures tree { IsTree keys.new }
    ensures there { slice_index_or keys.new leaf 0 ≡ key }
    ensures others { (k : ℕ) → 32 ≤ k → k ≢ leaf → slice_index_or keys.new k 0 ≡ slice_index_or keys.old k 0 }
{
    keys[leaf] = key;
    let mut node = leaf;
    let mut least = key;
    for _ in 0..5 {
        let other = keys[4 * (node / 2) + 1 - node];
        node /= 2;
        least = least.min(other);
        keys[node] = least;
    }
}

// Keys of which the leaves tell the instants of a list, each with its place, and the others nothing yet.
fn leaves(nexts: &[u32]) -> [u32; 64]
    requires few { length nexts.now ≤ 32 }
    requires near { (k : ℕ) → k < length nexts.now → slice_index_or nexts.now k 0 ≤ 16777217 }
    ensures zero { (k : ℕ) → k < 32 → slice_index_or result k 0 ≡ 0 }
    ensures leaves { LeavesUnder nexts.now result }
{
    let mut keys = [0; 64];
    keys[32..].fill(u32::MAX);
    for (place, next) in nexts.iter().enumerate() {
        keys[32 + place] = next * 32 + place as u32;
    }
    keys
}

// Puts at a node the lesser of what stands below it.
fn settle(keys: &mut [u32; 64], node: usize)
    requires inner { node < 32 }
    requires tree { IsTree keys.old }
    ensures tree { IsTree keys.new }
    ensures leaves { (k : ℕ) → 32 ≤ k → slice_index_or keys.new k 0 ≡ slice_index_or keys.old k 0 }
{
    keys[node] = keys[2 * node].min(keys[2 * node + 1]);
}

// The tree whose leaves tell the instants of a list, each with its place.
pub(crate) fn planted(nexts: &[u32]) -> [u32; 64]
    requires few { length nexts.now ≤ 32 }
    requires near { (k : ℕ) → k < length nexts.now → slice_index_or nexts.now k 0 ≤ 16777217 }
    ensures tree { IsTree result }
    ensures leaves { LeavesUnder nexts.now result }
{
    let mut keys = leaves(nexts);
    for node in (1..32).rev() {
        settle(&mut keys, node);
    }
    keys
}
