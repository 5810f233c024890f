//! The words of a store, written and read.
ghost use Rattle.std.specs.Prelude.{◌≡◌, ◌&&◌, nat_le, nat_lt, take, drop, filter, min, slice_index};
ghost use Rattle.std.specs.List.{reduce};
ghost use Rattle.models.specs.Tables.{pair_word, seconds, state_word};

// The word that says a state's label and flags.
pub fn state_word(label: u16, flags: u8) -> u32
    ensures { result ≡ state_word label flags }
{
    label as u32 + 65536 * flags as u32
}

// The word that says a pair of states.
pub fn pair_word(from: u16, to: u16) -> u32
    ensures { result ≡ pair_word from to }
{
    from as u32 + 65536 * to as u32
}

// The word at a place, and 0 past the end.
pub fn word_at(store: &[u32], at: u32) -> u32
    ensures { result ≡ slice_index store.now at }
{
    store.get(at as usize).copied().unwrap_or(0)
}

// The words from the place `from` on, `count` of them as far as the store has them.
pub fn part(store: &[u32], from: usize, count: usize) -> &[u32]
    ensures { result.now ≡ take count (drop from store.now) }
{
    let rest = &store[from.min(store.len())..];
    &rest[..count.min(rest.len())]
}

// The lowest second state, from `t` to below `n`, of the pairs' words whose first state is `s`.
pub fn lowest(words: &[u32], s: u32, t: u32, n: u32) -> Option<u32>
    ensures { result ≡ reduce min (filter (λ u. nat_le t u && nat_lt u n) (seconds s words.now)) }
{
    words
        .iter()
        .filter(|word| **word % 65536 == s)
        .map(|word| *word / 65536)
        .filter(|u| t <= *u && *u < n)
        .min()
}
