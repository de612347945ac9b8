//! The lines that a run prints.
ghost use Rattle.std.specs.Prelude.{◌≡◌, ℕ, ◌+◌, ◌<◌, List, [], ◌∷◌, ◌++◌, false, codes, decimal};
ghost use Rattle.std.specs.Prelude.{OnOk};
ghost use Rattle.std.specs.Fmt.{digit_glyph};
ghost use Rattle.nm_script_lib.specs.Forms.{hex_byte};
ghost use Rattle.nm_rules.specs.Refusal.{text_of};
ghost use Rattle.nm_stripe.specs.declared.answer.Answer.TheVariants.{Value as ValueAnswer};
ghost use Rattle.nm_script_lib.specs.Printing.{fill_text, ended_line, answer_text, holds_text};
ghost use Rattle.nm_script_lib.specs.Printing.{loss_text};
ghost use Rattle.nm_script_lib.specs.Printing.{kind_text, span_text, place_text, entry_line};
ghost use Rattle.nm_script_lib.specs.Printing.{counts_line, legal_line};

use crate::fill::{Fill, fill_of};
use crate::power_leg::PowerLeg;
use nm_replay::{Block, Entry, Kind};
use nm_stripe::{Answer, Refusal, Value};
use std::alloc::AllocError;

/// Adds bytes to a text.
pub fn put(text: &mut Vec<u8>, bytes: &[u8]) -> Result<(), AllocError>
    ensures { OnOk result (text.new.items ≡ text.old.items ++ bytes.now) }
{
    text.extend_from_slice(bytes)
}

/// Adds a number to a text, in decimal digits.
pub fn put_number(text: &mut Vec<u8>, number: u64) -> Result<(), AllocError>
    ensures { OnOk result (text.new.items ≡ text.old.items ++ decimal number) }
{
    let mut digits = itoa::Buffer::new();
    put(text, digits.format(number).as_bytes())
}

/// Adds a fill to a text: two hexadecimal digits, or `mixed`.
fn put_fill(text: &mut Vec<u8>, fill: Fill) -> Result<(), AllocError>
    ensures { OnOk result (text.new.items ≡ text.old.items ++ fill_text fill) }
{
    match fill {
        Fill::Same(byte) => put(text, &hex_digits(byte)),
        Fill::Mixed => put(text, b"mixed"),
    }
}

/// The lower-case hexadecimal digit of a value below 16.
fn hex_digit(value: u8) -> u8
    requires { value < 16 }
    ensures { result ≡ digit_glyph false value }
{
    if value < 10 {
        b'0' + value
    } else {
        b'a' + value - 10
    }
}

/// The two hexadecimal digits of a byte.
fn hex_digits(byte: u8) -> [u8; 2]
    ensures { result ≡ hex_byte byte }
{
    [hex_digit(byte / 16), hex_digit(byte % 16)]
}

/// Adds a refusal to a text: its number, its name, and the number that it carries.
fn put_refusal(text: &mut Vec<u8>, refusal: Refusal) -> Result<(), AllocError>
    ensures { OnOk result (text.new.items ≡ text.old.items ++ text_of refusal) }
{
    let printed = refusal.to_string(*text.allocator())?;
    put(text, printed.as_bytes())
}

/// Adds a refused step to a text.
fn put_refused(text: &mut Vec<u8>, refusal: Refusal) -> Result<(), AllocError>
    ensures { OnOk result (text.new.items
        ≡ text.old.items ++ codes "refused " ++ text_of refusal) }
{
    put(text, b"refused ")?;
    put_refusal(text, refusal)
}

/// Adds a word and a number to a text.
fn put_counted(text: &mut Vec<u8>, word: &[u8], number: u64) -> Result<(), AllocError>
    ensures { OnOk result (text.new.items ≡ text.old.items ++ word.now ++ decimal number) }
{
    put(text, word)?;
    put_number(text, number)
}

/// Adds the answer to a read to a text.
fn put_value(text: &mut Vec<u8>, value: &Value<PowerLeg>) -> Result<(), AllocError>
    ensures { OnOk result (text.new.items ≡ text.old.items ++ answer_text (ValueAnswer value.now)) }
{
    put_counted(text, b"value ", value.number())?;
    put(text, b" ")?;
    put_fill(text, fill_of(value.bytes()))
}

/// Adds an answer to a text.
fn put_answer_text(text: &mut Vec<u8>, answer: &Answer<PowerLeg>) -> Result<(), AllocError>
    ensures { OnOk result (text.new.items ≡ text.old.items ++ answer_text answer.now) }
{
    match answer {
        Answer::Begun(ticket) => put_counted(text, b"begun ", *ticket),
        Answer::Pushed(owed) => put_counted(text, b"pushed ", *owed),
        Answer::Complete(number) => put_counted(text, b"complete ", *number),
        Answer::Halted => put(text, b"halted"),
        Answer::Written(written) => put_counted(text, b"written ", written.number()),
        Answer::Value(value) => put_value(text, value),
        Answer::Failed => put(text, b"failed"),
        Answer::MasterChanged(master) => put_counted(text, b"master ", u64::from(*master)),
        Answer::Joining(blocks) => put_counted(text, b"joining ", *blocks),
        Answer::Copied { moved: _, left } => put_counted(text, b"copied ", *left),
        Answer::Nothing => put(text, b"nothing"),
        Answer::InSync => put(text, b"insync"),
        Answer::Synced => put(text, b"synced"),
        Answer::LegLost(leg, _) => put_counted(text, b"lost ", u64::from(*leg)),
        Answer::Refused(refusal, _) => put_refused(text, *refusal),
    }
}

/// Adds the line of an answer to a text.
pub fn put_answer(text: &mut Vec<u8>, answer: &Answer<PowerLeg>) -> Result<(), AllocError>
    ensures { OnOk result (text.new.items
        ≡ text.old.items ++ ended_line (answer_text answer.now)) }
{
    put_answer_text(text, answer)?;
    put(text, b"\n")
}

/// Adds the line of a fuse that was set to a text.
pub fn put_fused(text: &mut Vec<u8>) -> Result<(), AllocError>
    ensures { OnOk result (text.new.items ≡ text.old.items ++ ended_line (codes "fused")) }
{
    put(text, b"fused\n")
}

/// Adds the line of a load to a text.
pub fn put_loaded(text: &mut Vec<u8>) -> Result<(), AllocError>
    ensures { OnOk result (text.new.items ≡ text.old.items ++ ended_line (codes "loaded")) }
{
    put(text, b"loaded\n")
}

/// Adds the line of a start to a text.
pub fn put_started(text: &mut Vec<u8>) -> Result<(), AllocError>
    ensures { OnOk result (text.new.items ≡ text.old.items ++ ended_line (codes "started")) }
{
    put(text, b"started\n")
}

/// Adds the line of a loss of power to a text.
pub fn put_loss(text: &mut Vec<u8>, loss: Result<u64, Refusal>) -> Result<(), AllocError>
    ensures { OnOk result (text.new.items ≡ text.old.items ++ ended_line (loss_text loss)) }
{
    match loss {
        Ok(count) => put_counted(text, b"forgot ", count)?,
        Err(refusal) => put_refused(text, refusal)?,
    }
    put(text, b"\n")
}

/// Adds the line of what a leg has in a block to a text.
pub fn put_holds(text: &mut Vec<u8>, block: &Block) -> Result<(), AllocError>
    ensures { OnOk result (text.new.items ≡ text.old.items ++ ended_line (holds_text block.now)) }
{
    put(text, b"holds ")?;
    put_fill(text, fill_of(&block.0))?;
    put(text, b"\n")
}

/// Adds an entry's kind to a text, between spaces.
fn put_kind(text: &mut Vec<u8>, kind: Kind) -> Result<(), AllocError>
    ensures { OnOk result (text.new.items ≡ text.old.items ++ kind_text kind) }
{
    match kind {
        Kind::Read => put(text, b" read "),
        Kind::Write(ticket) => {
            put(text, b" write ")?;
            put_number(text, ticket)?;
            put(text, b" ")
        }
        Kind::Patch(ticket, ..) => {
            put(text, b" patch ")?;
            put_number(text, ticket)?;
            put(text, b" ")
        }
    }
}

/// Adds to a text which bytes of its block an entry of this kind is of, where it is not of all.
fn put_span(text: &mut Vec<u8>, kind: Kind) -> Result<(), AllocError>
    ensures { OnOk result (text.new.items ≡ text.old.items ++ span_text kind) }
{
    if let Kind::Patch(_, from, len) = kind {
        put_number(text, u64::from(from))?;
        put(text, b" ")?;
        put_number(text, u64::from(len))?;
        put(text, b" ")?;
    }
    Ok(())
}

/// Adds to a text which block an entry of this kind is of, and which of its bytes.
fn put_place(text: &mut Vec<u8>, kind: Kind, block: u64) -> Result<(), AllocError>
    ensures { OnOk result (text.new.items ≡ text.old.items ++ place_text kind block) }
{
    put_number(text, block)?;
    put(text, b" ")?;
    put_span(text, kind)
}

/// Adds the line of an entry to a text.
pub fn put_entry(text: &mut Vec<u8>, entry: &Entry) -> Result<(), AllocError>
    ensures { OnOk result (text.new.items ≡ text.old.items ++ entry_line entry.now) }
{
    put_number(text, entry.seq)?;
    put_kind(text, entry.kind)?;
    put_place(text, entry.kind, entry.block)?;
    put_fill(text, fill_of(&entry.bytes.0))?;
    put(text, b"\n")
}

/// Adds the line that counts the entries to a text: those kept, and all.
pub fn put_counts(text: &mut Vec<u8>, kept: u64, total: u64) -> Result<(), AllocError>
    ensures { OnOk result (text.new.items ≡ text.old.items ++ counts_line kept total) }
{
    put(text, b"history ")?;
    put_number(text, kept)?;
    put(text, b" of ")?;
    put_number(text, total)?;
    put(text, b"\n")
}

/// Adds the line that says whether the history is legal to a text.
pub fn put_legal(text: &mut Vec<u8>, is_legal: bool) -> Result<(), AllocError>
    ensures { OnOk result (text.new.items ≡ text.old.items ++ legal_line is_legal) }
{
    if is_legal {
        put(text, b"legal yes\n")
    } else {
        put(text, b"legal no\n")
    }
}
