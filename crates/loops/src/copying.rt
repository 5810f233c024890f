//! States in the place of vertices.
ghost use Rattle.std.specs.Prelude.{◌≡◌, ◌+◌, ◌-◌, ◌<◌, ◌≤◌, length, take, drop};
ghost use Rattle.loops.specs.Words.{overwritten, states_from};

// Writes the state of each vertex in the words from `at` to before `end` in the place of the vertex.
pub(crate) fn to_states(words: &mut [u32], at: usize, end: usize, size: u32, masks: u32)
    requires sizes { (0 < size) × (0 < masks) }
    requires room { (at ≤ end) × (end ≤ length words.old) }
    ensures { words.new ≡ overwritten at (states_from size masks (take (end - at) (drop at words.old))) words.old }
{
    // An index loop: once an `iter_mut` is over, a proof knows how many words there are and not what they hold.
    for i in at..end {
        words[i] = words[i] % size / masks;
    }
}

// Writes the state of each of the first `count` vertices of a list into the words from `at` on.
pub(crate) fn copy_states(
    list: &[u32],
    count: usize,
    size: u32,
    masks: u32,
    words: &mut [u32],
    at: usize,
)
    requires sizes { (0 < size) × (0 < masks) }
    requires room { (count ≤ length list.now) × (at + count ≤ length words.old) }
    ensures { words.new ≡ overwritten at (states_from size masks (take count list.now)) words.old }
{
    for (i, n) in list[..count].iter().enumerate() {
        words[at + i] = *n % size / masks;
    }
}
