//! The table of the control port's words, as JSON.

use crate::command_word::{CommandWord, ROWS};
use std::io;
use std::io::Write;

// Writes a row of the table.
fn write_row<W: Write>(to: &mut W, word: CommandWord) -> io::Result<()> {
    write!(to, "{{\"word\": \"{}\", \"argument\": ", word.text())?;
    match word.argument().name() {
        Some(name) => write!(to, "\"{name}\"")?,
        None => to.write_all(b"null")?,
    }
    write!(to, ", \"help\": \"{}\"}}", word.help())
}

/// Writes the table: a list with an object a row, which has its `word`, its `argument` or null, and
/// its `help`.
pub fn write_words<W: Write>(to: &mut W) -> io::Result<()> {
    for place in 0..ROWS {
        to.write_all(if place == 0 { b"[\n" } else { b",\n" })?;
        if let Some(word) = CommandWord::nth(place) {
            write_row(to, word)?;
        }
    }
    to.write_all(b"\n]\n")?;
    to.flush()
}
