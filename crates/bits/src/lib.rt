// Bits of 16-bit words, bytes, sets of roles, and words of a lent slice masked or gathered.
// The definitions that the contracts cite are in specs/; their laws, and the proofs, in proofs/.
#![tactic(auto)]

ghost use Rattle.std.specs.Prelude.{◌≡◌, false, ℕ, ◌+◌, ◌-◌, ◌*◌, ◌<◌, ◌≤◌, length, get_or};
ghost use Rattle.bits.specs.Bit.{bit, with_bit, without_bit, Lowest};
ghost use Rattle.bits.specs.RoleSet.{in_set, size, Row, Added, Union};
ghost use Rattle.bits.specs.Update.{Masked};
ghost use Rattle.bits.specs.Stride.{in_stride};
ghost use Rattle.bits.specs.Gather.{gather, outside, RowGathered};

use std::array;

// Numbers of bits, roles and issuers stay plain numbers with the clause `< 16`, here and above: loops count them and words are indexed by
// them, so a type of their own would be made and taken apart again at each call.
pub fn has_bit(w: u16, n: u8) -> bool
    requires { n < 16 }
    ensures { result ≡ bit w n }
{
    (w >> n) % 2 == 1
}

pub fn with_bit(w: u16, n: u8) -> u16
    requires { n < 16 }
    ensures { result ≡ with_bit w n }
{
    w | (1u16 << n)
}

pub fn without_bit(w: u16, n: u8) -> u16
    requires { n < 16 }
    ensures { result ≡ without_bit w n }
{
    w & !(1u16 << n)
}

// The lowest bit of a word that has one.
pub fn lowest_bit(w: u16) -> u8
    requires { w ≡ 0 → ⊥ }
    ensures { Lowest w result }
{
    w.trailing_zeros() as u8
}

// A word from its two bytes, the low one first.
pub fn two_bytes(low: u8, high: u8) -> u16
    ensures { result ≡ low + 256 * high }
{
    u16::from_le_bytes([low, high])
}

// The byte at a place, or 0 past the end.
pub fn byte_at(bytes: &[u8], place: usize) -> u8
    ensures { result ≡ get_or bytes.now place 0 }
{
    bytes.get(place).copied().unwrap_or(0)
}

// A set of roles: a word for each issuer, with bit r for role r.
#[derive(Clone, Copy)]
pub struct RoleSet {
    pub words: [u16; 16],
}

impl RoleSet {
    pub fn empty() -> Self
        ensures { (i r : ℕ) → in_set result.words i r ≡ false }
    {
        RoleSet { words: [0u16; 16] }
    }

    // The set that sixteen words are, from state[at] on. Here and below a row is a slice and a place, and not an array of its own:
    // each caller would have to cut it out of the state, and the law test would cut out 512 of them.
    pub fn row(state: &[u16], at: usize) -> Self
        requires { at + 16 ≤ length state.now }
        ensures { Row state.now at result.words }
    {
        RoleSet {
            words: *state[at..at + 16].as_array().unwrap(),
        }
    }

    // Whether role r of issuer i is in the set.
    pub fn has(self, i: usize, r: u8) -> bool
        requires { (i < 16) × (r < 16) }
        ensures { result ≡ in_set self.words i r }
    {
        has_bit(self.words[i], r)
    }

    // The set with role r of issuer i.
    pub fn add(mut self, i: usize, r: u8) -> Self
        requires { (i < 16) × (r < 16) }
        ensures { Added i r self.words result.words }
    {
        self.words[i] = with_bit(self.words[i], r);
        self
    }

    pub fn union(self, other: RoleSet) -> Self
        ensures { Union self.words other.words result.words }
    {
        RoleSet {
            words: array::from_fn(|i| self.words[i] | other.words[i]),
        }
    }

    // The bits of its words in one.
    pub fn gather(self) -> u16
        ensures { result ≡ gather 16 (λ i. get_or self.words i 0) }
    {
        self.words.iter().fold(0, |found, w| found | w)
    }

    // How many roles are in it.
    pub fn count(self) -> u16
        ensures { result ≡ size self.words }
    {
        self.words.iter().map(|w| w.count_ones() as u16).sum()
    }
}

// Mask the words at from, from + STEP, .., from + STEP * (count - 1).
pub fn mask_every<const STEP: usize>(state: &mut [u16], from: usize, count: usize, mask: u16)
    requires { (0 < STEP) × (from + STEP * count ≤ length state.old + STEP - 1) }
    ensures { Masked (in_stride STEP from count) mask state.old state.new }
{
    for n in 0..count {
        state[from + STEP * n] &= mask;
    }
}

// The bits of sixteen words, from state[at] on, that are not bits of the allowed words.
pub fn gather_row(state: &[u16], at: usize, allowed: RoleSet) -> u16
    requires { at + 16 ≤ length state.now }
    ensures { result ≡ gather 16 (λ i. outside (get_or state.now (at + i) 0) (get_or allowed.words i 0)) }
{
    stray_row(state, at, allowed, RoleSet::empty()).gather()
}

// The bits found so far, and those of sixteen words from state[at] on that are not bits of the allowed words, each in its place.
pub fn stray_row(state: &[u16], at: usize, allowed: RoleSet, found: RoleSet) -> RoleSet
    requires { at + 16 ≤ length state.now }
    ensures { RowGathered state.now at allowed.words found.words result.words }
{
    RoleSet {
        words: array::from_fn(|i| found.words[i] | (state[at + i] & !allowed.words[i])),
    }
}
