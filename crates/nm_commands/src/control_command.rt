//! The lines of the control port.
ghost use Rattle.std.specs.Prelude.{◌≡◌, ℕ, List, ◌++◌, codes, IfSome, IsNone};
ghost use Rattle.nm_commands.specs.ControlLine.{Asks, IsLineOf, IsNumberedLine, IsNumeralOf};
ghost use Rattle.nm_commands.specs.ControlLine.{IsPassed, IsReadAs, IsSaid, IsWithNumber};
ghost use Rattle.nm_commands.specs.ControlLine.{command_of};

use crate::command_word::{Argument, CommandWord, ROWS};
use std::str::from_utf8;

/// What a line asks for.
#[derive(Clone, Copy, PartialEq, Eq)]
pub enum ControlCommand {
    /// The state of each stripe.
    Status,
    /// The regions that could not be read, so that they were not copied.
    Unread,
    /// The last reads and writes of the stripe.
    History(u64),
    /// What the server tells of itself.
    Info,
    /// What the server has counted.
    Metrics,
    /// The leg goes out in every stripe.
    Fail(u64),
    /// The leg is to be copied again in every stripe.
    Attach(u64),
    /// The leg's file is opened anew in every stripe, and copied whole.
    Replace(u64),
    /// The leg goes out in every stripe for good.
    Retire(u64),
    /// Copies to the leg wait.
    Pause(u64),
    /// Copies to the leg go on.
    Resume(u64),
    /// The stripe is opened anew, if it has stopped.
    Reopen(u64),
    /// Each stripe that has stopped is opened anew.
    ReopenAll,
    /// At what rate legs are copied.
    CopyRate,
    /// Legs are copied at so many MiB a second.
    SetCopyRate(u64),
    /// Legs are copied at the rate that clients leave.
    DefaultCopyRate,
    /// The legs in sync are compared, or how far that is.
    Verify,
    /// The legs in sync are compared, and what differs on this one is written anew.
    VerifyRepair(u64),
    /// The comparison ends where it is.
    VerifyStop,
    /// The server ends once its clients have left.
    Quit,
    /// The server ends, and after so many seconds closes what is left of its clients.
    QuitWithin(u64),
    /// The clients that are connected.
    Clients,
    /// The session of this number is closed.
    Kick(u64),
    /// Nothing that is known.
    Bad,
}

// The number that a word is: 1 to 20 decimal digits, of a number below 2^64. `parse` alone would
// take a plus before them.
fn number_of(word: &[u8]) -> Option<u64>
    ensures some { IfSome result (λ number. IsNumeralOf word.now number) }
    ensures none { IsNone result → (number : ℕ) → IsNumeralOf word.now number → ⊥ }
{
    if word.len() > 20 || word.starts_with(b"+") {
        return None;
    }
    match from_utf8(word) {
        Ok(text) => text.parse().ok(),
        Err(_) => None,
    }
}

// What follows this beginning of a line.
fn after<'a>(line: &'a [u8], start: &[u8]) -> Option<&'a [u8]>
    ensures some { IfSome result (λ word. line.entry.now ≡ start.now ++ word.now) }
    ensures none { IsNone result → (word : List ℕ) → line.entry.now ≡ start.now ++ word → ⊥ }
{
    if line.len() < start.len() {
        return None;
    }
    let (head, word) = line.split_at(start.len());
    if head == start { Some(word) } else { None }
}

// What follows this word and a blank.
fn after_word<'a>(line: &'a [u8], word: &[u8]) -> Option<&'a [u8]>
    ensures some { IfSome result (λ rest.
        line.entry.now ≡ (word.now ++ codes " ") ++ rest.now) }
    ensures none { IsNone result → (rest : List ℕ)
        → line.entry.now ≡ (word.now ++ codes " ") ++ rest → ⊥ }
{
    let rest = after(line, word)?;
    after(rest, b" ")
}

// The number that follows this word and a blank.
fn number_after(line: &[u8], word: &[u8]) -> Option<u64>
    ensures some { IfSome result (λ number.
        IsWithNumber (word.now ++ codes " ") line.now number) }
    ensures none { IsNone result → (number : ℕ)
        → IsWithNumber (word.now ++ codes " ") line.now number → ⊥ }
{
    number_of(after_word(line, word)?)
}

// The number that follows this word and a blank, if it may follow.
fn bounded_after(line: &[u8], word: &[u8], argument: Argument) -> Option<u64>
    ensures some { IfSome result (λ number. IsNumberedLine argument word.now line.now number) }
    ensures none { IsNone result → (number : ℕ)
        → IsNumberedLine argument word.now line.now number → ⊥ }
{
    let number = number_after(line, word)?;
    if number < argument.least() || number > argument.most() {
        return None;
    }
    Some(number)
}

// The number in a line of this word and what follows it: 0 where nothing does. None where it is
// another line.
fn number_said(argument: Argument, word: &[u8], line: &[u8]) -> Option<u64>
    ensures some { IfSome result (λ number. IsSaid argument word.now line.now number) }
    ensures none { IsNone result → (number : ℕ)
        → IsSaid argument word.now line.now number → ⊥ }
{
    match argument {
        Argument::Nothing => { if line == word { Some(0) } else { None } }
        other => bounded_after(line, word, other),
    }
}

impl CommandWord {
    // The number in a line of this row: 0 where the row has none. None where it is no line of this
    // row.
    fn number_in(self, line: &[u8]) -> Option<u64>
        ensures some { IfSome result (λ number. IsLineOf self line.now number) }
        ensures none { IsNone result → (number : ℕ) → IsLineOf self line.now number → ⊥ }
    {
        number_said(self.argument(), self.text().as_bytes(), line)
    }

    // What a line of this row asks for, with the number in it.
    fn command(self, number: u64) -> ControlCommand
        ensures { result ≡ command_of self number }
    {
        match self {
            CommandWord::Status => ControlCommand::Status,
            CommandWord::Unread => ControlCommand::Unread,
            CommandWord::History => ControlCommand::History(number),
            CommandWord::Info => ControlCommand::Info,
            CommandWord::Metrics => ControlCommand::Metrics,
            CommandWord::Fail => ControlCommand::Fail(number),
            CommandWord::Attach => ControlCommand::Attach(number),
            CommandWord::Replace => ControlCommand::Replace(number),
            CommandWord::Retire => ControlCommand::Retire(number),
            CommandWord::Pause => ControlCommand::Pause(number),
            CommandWord::Resume => ControlCommand::Resume(number),
            CommandWord::Reopen => ControlCommand::Reopen(number),
            CommandWord::ReopenAll => ControlCommand::ReopenAll,
            CommandWord::CopyRate => ControlCommand::CopyRate,
            CommandWord::SetCopyRate => ControlCommand::SetCopyRate(number),
            CommandWord::DefaultCopyRate => ControlCommand::DefaultCopyRate,
            CommandWord::Verify => ControlCommand::Verify,
            CommandWord::VerifyRepair => ControlCommand::VerifyRepair(number),
            CommandWord::VerifyStop => ControlCommand::VerifyStop,
            CommandWord::Quit => ControlCommand::Quit,
            CommandWord::QuitWithin => ControlCommand::QuitWithin(number),
            CommandWord::Clients => ControlCommand::Clients,
            CommandWord::Kick => ControlCommand::Kick(number),
        }
    }
}

// The command of a line by the row at this place of the table, if it is a line of that row.
fn command_at(line: &[u8], place: usize) -> Option<ControlCommand>
    ensures some { IfSome result (λ command. Asks line.now command) }
    ensures none { IsNone result → IsPassed line.now place }
{
    let word = CommandWord::nth(place)?;
    let number = word.number_in(line)?;
    Some(word.command(number))
}

/// Reads a line, without its LF.
pub fn control_line(line: &[u8]) -> ControlCommand
    ensures { IsReadAs line.now result }
{
    for place in 0..ROWS {
        if let Some(command) = command_at(line, place) {
            return command;
        }
    }
    ControlCommand::Bad
}
