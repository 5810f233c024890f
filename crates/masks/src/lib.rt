//! Words as sets of small numbers.
#![tactic(auto)]

ghost use Rattle.std.specs.Prelude.{◌≡◌, ℕ, ◌+◌, ◌-◌, ◌*◌, ◌^◌, ◌<◌, ◌≤◌, ◌==◌, if◌then◌else◌, nat_lt};
ghost use Rattle.masks.specs.Masks.{bit};

// Whether bit `k` of a word is set, where the word has such a bit.
pub fn at(word: u32, k: u32) -> bool
    requires { k < 32 }
    ensures { result ≡ bit word k }
{
    (word >> k) % 2 == 1
}

// Whether bit `k` of a word is set; a word has no bit 32 or above.
pub fn has(word: u32, k: u32) -> bool
    ensures { result ≡ bit word k }
{
    k < 32 && at(word, k)
}

// The word with bit `k` as it is told, and its other bits as they were.
pub fn put(word: u32, k: u32, value: bool) -> u32
    requires { k < 32 }
    ensures bits { (j : ℕ) → bit result j ≡ (if j == k then value else bit word j) }
    ensures number { result + (if bit word k then 2 ^ k else 0) ≡ word + (if value then 2 ^ k else 0) }
{
    if value {
        word | (1 << k)
    } else {
        word & !(1 << k)
    }
}

// The word with bit `k` more, above all its bits, or not.
pub fn with(word: u32, k: u32, value: bool) -> u32
    requires place { k < 32 }
    requires low { word < 2 ^ k }
    ensures bits { (j : ℕ) → bit result j ≡ (if j == k then value else bit word j) }
    ensures number { result ≡ (if value then 1 else 0) * 2 ^ k + word }
{
    if value { word | (1 << k) } else { word }
}

// The mask of n bits, of which `test` says which are set.
pub fn mask<F: Fn(u8) -> bool>(n: u8, test: F) -> u32
    requires few { n ≤ 32 }
    requires asked { (i : ℕ) → i < n → F.pre test i }
    ensures fits { result < 2 ^ n }
    ensures bits { (i : ℕ) → i < n → F.post test i (bit result i) }
{
    let mut all = 0;
    for i in 0..n {
        all = with(all, i as u32, test(i));
    }
    all
}

// The word whose bits below `k` are those of `low`, and whose bits from `k` on are those of `high`.
pub fn join(low: u32, k: u32, high: u32) -> u32
    requires place { k < 32 }
    requires low { low < 2 ^ k }
    requires high { high * 2 ^ k < 2 ^ 32 }
    ensures bits { (j : ℕ) → bit result j ≡ (if nat_lt j k then bit low j else bit high (j - k)) }
    ensures number { result ≡ high * 2 ^ k + low }
{
    low | (high << k)
}
