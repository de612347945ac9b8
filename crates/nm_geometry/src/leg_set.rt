//! Sets of a mirror's legs.
ghost use Rattle.std.specs.Prelude.{◌≡◌, ◌<◌, ◌↔◌, ◌&&◌, ◌||◌, IsTrue, false, not, replicate};
ghost use Rattle.std.specs.Prelude.{length, slice_set};
ghost use Rattle.std.specs.Int.{bit_at};
ghost use Rattle.nm_geometry.specs.LegSets.{AreBitsOf, HasSome, has, legs_where};

use std::marker::Model;

/// A set of a mirror's legs. Contracts see of each of eight legs whether it is in the set.
#[derive(Clone, Copy, Drop, PartialEq, Eq)]
pub struct LegSet {
    legs: [bool; 8],
}

impl Model for LegSet {
    ghost use Rattle.std.specs.Prelude.{◌≡◌, Bool, List, length};

    ghost Value = { List Bool };

    ghost view = { λ set. set.legs };

    ghost invariant = { λ set. length set.legs ≡ 8 };

    ghost inverse = { λ legs. record { legs = legs } };
}

// Whether the leg is in the set.
fn is_in(legs: &[bool; 8], leg: usize) -> bool
    ensures { result ≡ has leg legs.now }
{
    leg < 8 && legs[leg]
}

// Whether the leg is in one set or the other.
fn is_in_either(one: &[bool; 8], other: &[bool; 8], leg: usize) -> bool
    ensures { result ≡ (has leg one.now || has leg other.now) }
{
    is_in(one, leg) || is_in(other, leg)
}

// The legs of one set or the other.
fn either(one: &[bool; 8], other: &[bool; 8]) -> [bool; 8]
    ensures { result ≡ legs_where (λ leg. has leg one.now || has leg other.now) }
{
    [
        is_in_either(one, other, 0),
        is_in_either(one, other, 1),
        is_in_either(one, other, 2),
        is_in_either(one, other, 3),
        is_in_either(one, other, 4),
        is_in_either(one, other, 5),
        is_in_either(one, other, 6),
        is_in_either(one, other, 7),
    ]
}

// Whether the leg is in both sets.
fn is_in_both(one: &[bool; 8], other: &[bool; 8], leg: usize) -> bool
    ensures { result ≡ (has leg one.now && has leg other.now) }
{
    is_in(one, leg) && is_in(other, leg)
}

// The legs of both sets.
fn both(one: &[bool; 8], other: &[bool; 8]) -> [bool; 8]
    ensures { result ≡ legs_where (λ leg. has leg one.now && has leg other.now) }
{
    [
        is_in_both(one, other, 0),
        is_in_both(one, other, 1),
        is_in_both(one, other, 2),
        is_in_both(one, other, 3),
        is_in_both(one, other, 4),
        is_in_both(one, other, 5),
        is_in_both(one, other, 6),
        is_in_both(one, other, 7),
    ]
}

// Whether the leg is in the one set and not in the other.
fn is_in_one(one: &[bool; 8], other: &[bool; 8], leg: usize) -> bool
    ensures { result ≡ (has leg one.now && not (has leg other.now)) }
{
    is_in(one, leg) && !is_in(other, leg)
}

// The legs of the one set that are not in the other.
fn but(one: &[bool; 8], other: &[bool; 8]) -> [bool; 8]
    ensures { result ≡ legs_where (λ leg. has leg one.now && not (has leg other.now)) }
{
    [
        is_in_one(one, other, 0),
        is_in_one(one, other, 1),
        is_in_one(one, other, 2),
        is_in_one(one, other, 3),
        is_in_one(one, other, 4),
        is_in_one(one, other, 5),
        is_in_one(one, other, 6),
        is_in_one(one, other, 7),
    ]
}

// Whether this bit of the byte is set.
fn is_bit(bits: u8, at: usize) -> bool
    requires { at < 8 }
    ensures { IsTrue result ↔ (bit_at bits at ≡ 1) }
{
    (bits >> at) & 1 == 1
}

impl LegSet {
    /// The set without legs.
    pub fn none() -> LegSet
        ensures { result ≡ replicate 8 false }
    {
        LegSet { legs: [false; 8] }
    }

    /// The set of which this says of each leg whether it is in it.
    pub fn of(legs: [bool; 8]) -> LegSet
        ensures { result ≡ legs }
    {
        LegSet { legs }
    }

    /// The set of the legs whose bits are set in this byte, the lowest for leg 0.
    pub fn of_bits(bits: u8) -> LegSet
        ensures { AreBitsOf result bits }
    {
        let mut legs = [false; 8];
        'legs: for leg in 0..8 {
            legs[leg] = is_bit(bits, leg);
        }
        LegSet { legs }
    }

    /// Whether the leg is in the set; none past the eighth is.
    pub fn has(&self, leg: usize) -> bool
        ensures { result ≡ has leg self.now }
    {
        is_in(&self.legs, leg)
    }

    /// Says that it has a place for each of eight legs, and does nothing: for proofs.
    pub fn eight_legs(&self)
        ensures { length self.now ≡ 8 }
    {
        let _ = &self.legs;
    }

    /// Has the leg be in the set, or not.
    pub fn set(&mut self, leg: usize, is_in: bool)
        requires { leg < 8 }
        ensures { self.new ≡ slice_set self.old leg is_in }
    {
        self.legs[leg] = is_in;
    }

    /// Whether it has a leg.
    pub fn has_some(&self) -> bool
        ensures { IsTrue result ↔ HasSome self.now }
    {
        'legs: for leg in 0..8 {
            if self.legs[leg] {
                return true;
            }
        }
        false
    }

    /// The legs of one set or the other.
    pub fn or(&self, other: &LegSet) -> LegSet
        ensures { result ≡ legs_where (λ leg. has leg self.now || has leg other.now) }
    {
        LegSet::of(either(&self.legs, &other.legs))
    }

    /// The legs of both sets.
    pub fn and(&self, other: &LegSet) -> LegSet
        ensures { result ≡ legs_where (λ leg. has leg self.now && has leg other.now) }
    {
        LegSet::of(both(&self.legs, &other.legs))
    }

    /// The legs of this set that are not in the other.
    pub fn without(&self, other: &LegSet) -> LegSet
        ensures { result ≡ legs_where (λ leg. has leg self.now && not (has leg other.now)) }
    {
        LegSet::of(but(&self.legs, &other.legs))
    }

    /// The byte with a bit for each leg of the set, the lowest for leg 0.
    pub fn bits(&self) -> u8
        ensures { AreBitsOf self.now result }
    {
        let mut bits = 0u8;
        'legs: for leg in 0..8 {
            if self.legs[leg] {
                bits |= 1 << leg;
            }
        }
        bits
    }
}
