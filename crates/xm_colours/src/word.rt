//! Sets of up to 64 colours, as words: bit `d` of a word says that colour `d` is in.

ghost use Rattle.std.specs.Prelude.{◌≡◌, ◌≢◌, ◌↔◌, ℕ, ◌<◌, ◌≤◌, true, length, IfNone, IfSome};
ghost use Rattle.xm_colours.specs.Inner.Refusing.{IsFirstMissing, IsWithin};
ghost use Rattle.xm_colours.specs.Inner.Words.{holds, set_below};
ghost use Rattle.xm_model.specs.Membership.{IsIn};

/// Whether the colour is in.
pub fn contains(word: u64, colour: u8) -> bool
    requires { colour < 64 }
    ensures { result ≡ holds word colour }
{
    (word >> colour) & 1 == 1
}

/// The set with this colour as well.
pub fn with(word: u64, colour: u8) -> u64
    requires { colour < 64 }
    ensures same { holds result colour ≡ true }
    ensures others { (e : ℕ) → e ≢ colour → holds result e ≡ holds word e }
{
    word | (1 << colour)
}

/// How many colours below `n` are in.
#[tactic(auto, using(crate::proofs::Words::count_more, crate::proofs::Words::count_le))]
pub fn count_below(word: u64, n: u8) -> u32
    requires { n ≤ 64 }
    ensures number { result ≡ length (set_below word n) }
    ensures few { result ≤ n }
{
    let mut count = 0;
    for colour in 0..n {
        if contains(word, colour) {
            count += 1;
        }
    }
    count
}

/// The set of these colours; those from 64 on are left out.
pub fn set_from(colours: &[u8]) -> u64
    ensures { (d : ℕ) → d < 64 → (holds result d ≡ true) ↔ IsIn colours.now d }
{
    let mut word = 0;
    for colour in colours {
        if *colour < 64 {
            word = with(word, *colour);
        }
    }
    word
}

/// The least colour that is in the first set and not in the other.
pub fn first_missing(word: u64, other: u64) -> Option<u8>
    ensures none { IfNone result (IsWithin word other) }
    ensures some { IfSome result (IsFirstMissing word other) }
{
    let missing = word & !other;
    if missing == 0 {
        None
    } else {
        Some(missing.trailing_zeros() as u8)
    }
}
