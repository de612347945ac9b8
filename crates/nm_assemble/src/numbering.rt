//! Legs' numbers, as their superblocks say them.
ghost use Rattle.std.specs.Prelude.{◌≡◌, ◌<◌, ◌≤◌, ◌+◌, ◌↔◌, ℕ, IsTrue, IfOk, IfErr, IfNone};
ghost use Rattle.std.specs.Prelude.{IfSome, None};
ghost use Rattle.nm_assemble.specs.Numbering.{AreApart, AreNumbers, IsLast, IsMisnumbered};
ghost use Rattle.nm_assemble.specs.Numbering.{IsSaid, Says, number_of};

/// Why legs have no numbers.
#[derive(Clone, Copy, PartialEq, Eq)]
pub enum Misnumbered {
    /// Both legs say this number.
    Twice(usize, usize, u8),
    /// The leg says this number, and there are no more legs than that.
    Beyond(usize, u8),
    /// No number is left for a leg that says none.
    NoneLeft,
}

// Whether some leg says this number.
fn is_said(said: &[Option<u8>; 8], number: u8) -> bool
    ensures { IsTrue result ↔ IsSaid 8 number said.now }
{
    'legs: for leg in 0..8 {
        if said[leg] == Some(number) {
            return true;
        }
    }
    false
}

// The first number from this one on, below the count, that no leg says.
fn free_from(said: &[Option<u8>; 8], from: u8, count: u8) -> Option<u8>
    ensures some { IfSome result (λ number. (from ≤ number) × (number < count)
        × (IsSaid 8 number said.now → ⊥)) }
    ensures none { IfNone result ((number : ℕ) → from ≤ number → number < count
        → IsSaid 8 number said.now) }
{
    'numbers: for number in from..count {
        if !is_said(said, number) {
            return Some(number);
        }
    }
    None
}

// The first leg after this one that says this number.
fn second_of(said: &[Option<u8>; 8], leg: usize, number: u8) -> Option<usize>
    requires { leg < 8 }
    ensures some { IfSome result (λ other. (leg < other) × (other < 8)
        × Says other number said.now) }
    ensures none { IfNone result (IsLast leg number said.now) }
{
    'others: for other in leg + 1..8 {
        if said[other] == Some(number) {
            return Some(other);
        }
    }
    None
}

// Refuses a number of this leg that is not below the count, or that a later leg says.
fn check_number(said: &[Option<u8>; 8], leg: usize, count: u8) -> Result<(), Misnumbered>
    requires { leg < 8 }
    ensures ok { IfOk result (λ _. (number : ℕ) → Says leg number said.now
        → (number < count) × IsLast leg number said.now) }
    ensures refused { IfErr result (IsMisnumbered count said.now) }
{
    let Some(number) = said[leg] else {
        return Ok(());
    };
    if number >= count {
        return Err(Misnumbered::Beyond(leg, number));
    }
    match second_of(said, leg, number) {
        Some(other) => Err(Misnumbered::Twice(leg, other, number)),
        None => Ok(()),
    }
}

// Refuses a number that is not below the count, or that two legs say.
fn check_numbers(said: &[Option<u8>; 8], count: u8) -> Result<(), Misnumbered>
    ensures ok { IfOk result (λ _. AreApart 8 count said.now) }
    ensures refused { IfErr result (IsMisnumbered count said.now) }
{
    'legs: for leg in 0..8 {
        check_number(said, leg, count)?;
    }
    Ok(())
}

/// The numbers of so many legs: each has the one that it says, and the others have those that are
/// left, in their order. Refused are two legs that say one number, and a number that is not below
/// the count.
pub fn leg_numbers(said: &[Option<u8>; 8], count: u8) -> Result<[u8; 8], Misnumbered>
    requires { count ≤ 8 }
    ensures apart { IfOk result (λ _. AreApart 8 count said.now) }
    ensures numbers { IfOk result (AreNumbers count count said.now) }
    ensures refused { IfErr result (IsMisnumbered count said.now) }
{
    check_numbers(said, count)?;
    let mut numbers = [0; 8];
    let mut next = 0;
    'legs: for leg in 0..count as usize {
        let (number, after) = number_for(said, leg, next, count)?;
        numbers[leg] = number;
        next = after;
    }
    Ok(numbers)
}

// The number of this leg: where it says none the first one from the next on that no leg says; and
// the next one from then on.
fn number_for(
    said: &[Option<u8>; 8],
    leg: usize,
    next: u8,
    count: u8,
) -> Result<(u8, u8), Misnumbered>
    requires { leg < 8 }
    ensures own { IfOk result (λ found. (number : ℕ) → Says leg number said.now
        → (found.0 ≡ number) × (found.1 ≡ next)) }
    ensures left { IfOk result (λ found. number_of leg said.now ≡ None
        → (next ≤ found.0) × (found.0 < count) × (found.1 ≡ found.0 + 1)
        × (IsSaid 8 found.0 said.now → ⊥)) }
    ensures refused { IfErr result (IsMisnumbered count said.now) }
{
    if let Some(number) = said[leg] {
        return Ok((number, next));
    }
    match free_from(said, next, count) {
        Some(number) => Ok((number, number + 1)),
        None => Err(Misnumbered::NoneLeft),
    }
}
