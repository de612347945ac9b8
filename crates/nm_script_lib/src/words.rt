//! Reads the words of a line, one after the other.
ghost use Rattle.std.specs.Prelude.{◌≡◌, ℕ, ◌+◌, ◌*◌, ◌-◌, ◌<◌, ◌≤◌, ◌^◌, ◌&&◌, ◌==◌, nat_lt};
ghost use Rattle.std.specs.Prelude.{nat_le, Bool, List, [], ◌∷◌, Option, length, position};
ghost use Rattle.std.specs.Prelude.{MatchBool, ◌≢◌, IfSome};
ghost use Rattle.std.specs.Option.{option_copied};
ghost use Rattle.nm_script_lib.specs.Forms.{Number, Below, Within, Byte};
ghost use Rattle.nm_script_lib.specs.Reading.{pieces, pieces_of_rest, rest_size, number_of};
ghost use Rattle.nm_script_lib.specs.Reading.{byte_of, hex_digit_of, word_at, value_at, policy_at};
ghost use Rattle.nm_script_lib.specs.Reading.{is_word, Gives, rest_words};

use nm_choice::Policy;
use std::str::from_utf8;

/// The index of the first byte `at`.
fn place_of(text: &[u8], at: u8) -> Option<usize>
    ensures { result ≡ position (λ b. b == at) text.now }
{
    text.iter().position(|byte| *byte == at)
}

/// The bytes before the first `at`, and those after it if there is one.
pub fn cut(text: &[u8], at: u8) -> (&[u8], Option<&[u8]>)
    ensures pieces { pieces at text.now
        ≡ result.0.now ∷ pieces_of_rest at (option_copied result.1) }
    ensures rest { rest_size (option_copied result.1) ≤ length text.now }
{
    match place_of(text, at) {
        Some(place) => (&text[..place], Some(&text[place + 1..])),
        None => (text, None),
    }
}

/// Whether a word is this one.
pub fn is_word(word: &[u8], name: &[u8]) -> bool
    ensures { result ≡ is_word word.now name.now }
{
    word == name
}

/// The number that a word of decimal digits spells, below 2^64. `parse` alone would take a plus
/// before them.
fn number_of(word: &[u8]) -> Option<u64>
    ensures { result ≡ number_of word.now }
{
    if word.starts_with(b"+") {
        return None;
    }
    match from_utf8(word) {
        Ok(text) => text.parse().ok(),
        Err(_) => None,
    }
}

/// The value of a lower-case hexadecimal digit.
fn hex_digit_of(byte: u8) -> Option<u8>
    ensures { result ≡ hex_digit_of byte }
{
    match byte {
        b'0'..=b'9' => Some(byte - b'0'),
        b'a'..=b'f' => Some(byte - b'a' + 10),
        _ => None,
    }
}

/// The byte that two lower-case hexadecimal digits spell.
#[tactic(auto, unfolding(crate::specs::Reading::byte_of))]
fn byte_of(word: &[u8]) -> Option<u8>
    ensures { result ≡ byte_of word.now }
{
    match word {
        [high, low] => {
            let high = hex_digit_of(*high)?;
            let low = hex_digit_of(*low)?;
            Some(high * 16 + low)
        }
        _ => None,
    }
}

/// The words of a line that are still to be read.
#[derive(Clone, Copy)]
pub struct Words<'a> {
    rest: Option<&'a [u8]>,
}

impl<'a> Words<'a> {
    /// The words of a line, between its spaces.
    pub fn of(line: &'a [u8]) -> Words<'a>
        ensures { rest_words result ≡ pieces 32 line.now }
    {
        Words { rest: Some(line) }
    }

    /// The next word.
    pub fn next(&mut self) -> Option<&'a [u8]>
        ensures first { Gives (option_copied result) (rest_words self.new)
            (word_at (rest_words self.old)) }
        ensures words { IfSome result (λ word.
            rest_words self.old ≡ word.now ∷ rest_words self.new) }
    {
        let (word, rest) = cut(self.rest?, b' ');
        self.rest = rest;
        Some(word)
    }

    /// The next word, as a number of 64 bits.
    #[tactic(auto, unfolding(crate::specs::Reading::value_at))]
    pub fn number(&mut self) -> Option<u64>
        ensures { Gives result (rest_words self.new) (value_at Number (rest_words self.old)) }
    {
        let word = self.next()?;
        number_of(word)
    }

    /// The next word, as a number from `least` to `most`.
    #[tactic(auto, unfolding(crate::specs::Reading::value_at))]
    pub fn within(&mut self, least: u64, most: u64) -> Option<u64>
        ensures read { Gives result (rest_words self.new)
            (value_at (Within least most) (rest_words self.old)) }
        ensures range { IfSome result (λ n. (least ≤ n) × (n ≤ most)) }
    {
        let word = self.next()?;
        let number = number_of(word)?;
        if number < least || most < number {
            return None;
        }
        Some(number)
    }

    /// The next word, as a number below `limit`.
    #[tactic(auto, unfolding(crate::specs::Reading::value_at))]
    pub fn below(&mut self, limit: u64) -> Option<u64>
        ensures read { Gives result (rest_words self.new)
            (value_at (Below limit) (rest_words self.old)) }
        ensures range { IfSome result (λ n. n < limit) }
    {
        let word = self.next()?;
        let number = number_of(word)?;
        if number < limit { Some(number) } else { None }
    }

    /// The next word, as a number from `least` to `most`, of 16 bits.
    pub fn within_u16(&mut self, least: u16, most: u16) -> Option<u16>
        ensures read { Gives result (rest_words self.new)
            (value_at (Within least most) (rest_words self.old)) }
        ensures range { IfSome result (λ n. (least ≤ n) × (n ≤ most)) }
    {
        let number = self.within(u64::from(least), u64::from(most))?;
        Some(number as u16)
    }

    /// The next word, as a number below a limit of 16 bits.
    pub fn below_u16(&mut self, limit: u16) -> Option<u16>
        ensures read { Gives result (rest_words self.new)
            (value_at (Below limit) (rest_words self.old)) }
        ensures range { IfSome result (λ n. n < limit) }
    {
        let found = self.below(u64::from(limit))?;
        Some(found as u16)
    }

    /// The next word, as a number below a limit of 8 bits.
    pub fn below_u8(&mut self, limit: u8) -> Option<u8>
        ensures { Gives result (rest_words self.new)
            (value_at (Below limit) (rest_words self.old)) }
    {
        let number = self.below(u64::from(limit))?;
        Some(number as u8)
    }

    /// The next word, as a byte in two hexadecimal digits.
    #[tactic(auto, unfolding(crate::specs::Reading::value_at))]
    pub fn byte(&mut self) -> Option<u8>
        ensures { Gives result (rest_words self.new) (value_at Byte (rest_words self.old)) }
    {
        let word = self.next()?;
        byte_of(word)
    }

    /// The next word, as a policy.
    #[tactic(auto, unfolding(crate::specs::Reading::policy_at))]
    pub fn policy(&mut self) -> Option<Policy>
        ensures { Gives result (rest_words self.new) (policy_at (rest_words self.old)) }
    {
        let word = self.next()?;
        if is_word(word, b"rr") {
            Some(Policy::RoundRobin)
        } else if is_word(word, b"st") {
            Some(Policy::Striped)
        } else {
            None
        }
    }

    /// Whether all words are read.
    pub fn is_at_end(&self) -> bool
        ensures { MatchBool result (rest_words self.now ≡ []) (rest_words self.now ≢ []) }
    {
        self.rest.is_none()
    }
}
