//! What each option is answered with.
ghost use Rattle.std.specs.Prelude.{◌≡◌, ◌≢◌, true, false, IfOk, OnErr, MatchOption};
ghost use Rattle.nm_haggle.specs.Answer.{IsAnswered, answer_to, answer_to_export_name};
ghost use Rattle.nm_haggle.specs.Answer.{answer_to_list, answer_to_information, refusal, is_known};
ghost use Rattle.nm_haggle.specs.Answer.{adds_up, asked_name};
ghost use Rattle.nm_haggle.specs.Output.{BeginsWith};

use crate::next::Next;
use crate::replies::{put_empty, put_information, put_name, put_size_and_flags, put_zeroes};
use nm_wire::{Export, OptionKind, ReplyKind};
use std::alloc::AllocError;

/// Whether a client may name the export so.
fn is_known(export: &Export, name: &[u8]) -> bool
    ensures { result ≡ is_known export.now name.now }
{
    name.is_empty() || name == export.name.as_bytes()
}

/// The name that the data of INFO or GO ask for, if their lengths add up.
fn asked_name(payload: &[u8]) -> Option<&[u8]>
    ensures { MatchOption result (adds_up payload.now ≡ false)
        (λ name. (adds_up payload.now ≡ true) × (name.now ≡ asked_name payload.now)) }
{
    let (length, rest) = payload.split_first_chunk::<4>()?;
    let length = u32::from_be_bytes(*length) as usize;
    let name = rest.get(..length)?;
    let count = rest.get(length..length + 2)?;
    let types = u16::from_be_bytes([count[0], count[1]]) as usize;
    if 6 + length + 2 * types == payload.len() {
        Some(name)
    } else {
        None
    }
}

/// Answers an option without data, and goes on.
fn refuse(out: &mut Vec<u8>, option: u32, kind: ReplyKind) -> Result<Next, AllocError>
    ensures ok { IfOk result (IsAnswered (refusal option kind) out.old.items out.new.items) }
    ensures err { OnErr result (BeginsWith out.new.items out.old.items) }
{
    put_empty(out, option, kind)?;
    Ok(Next::More)
}

/// Answers EXPORT_NAME.
fn answer_export_name(
    out: &mut Vec<u8>,
    export: &Export,
    no_zeroes: bool,
    name: &[u8],
) -> Result<Next, AllocError>
    ensures ok { IfOk result (IsAnswered (answer_to_export_name export.now no_zeroes name.now)
        out.old.items out.new.items) }
    ensures err { OnErr result (BeginsWith out.new.items out.old.items) }
{
    if !is_known(export, name) {
        return Ok(Next::Close { aborted: false });
    }
    put_size_and_flags(out, export)?;
    if !no_zeroes {
        put_zeroes(out)?;
    }
    Ok(Next::Transmit)
}

/// Answers LIST.
fn answer_list(out: &mut Vec<u8>, export: &Export, payload: &[u8]) -> Result<Next, AllocError>
    ensures ok { IfOk result (IsAnswered (answer_to_list export.now payload.now)
        out.old.items out.new.items) }
    ensures err { OnErr result (BeginsWith out.new.items out.old.items) }
{
    let option = OptionKind::List.number();
    if !payload.is_empty() {
        return refuse(out, option, ReplyKind::Invalid);
    }
    put_name(out, option, export)?;
    put_empty(out, option, ReplyKind::Ack)?;
    Ok(Next::More)
}

/// Answers INFO or GO; where it names the export, this comes next.
fn answer_information(
    out: &mut Vec<u8>,
    option: u32,
    next: Next,
    export: &Export,
    payload: &[u8],
) -> Result<Next, AllocError>
    ensures ok { IfOk result (IsAnswered (answer_to_information option next export.now payload.now)
        out.old.items out.new.items) }
    ensures err { OnErr result (BeginsWith out.new.items out.old.items) }
{
    match asked_name(payload) {
        None => refuse(out, option, ReplyKind::Invalid),
        Some(name) if is_known(export, name) => {
            put_information(out, option, export)?;
            Ok(next)
        }
        Some(_) => refuse(out, option, ReplyKind::Unknown),
    }
}

/// Answers an option, and says what comes after it.
pub(crate) fn answer(
    out: &mut Vec<u8>,
    export: &Export,
    no_zeroes: bool,
    number: u32,
    payload: &[u8],
) -> Result<Next, AllocError>
    ensures ok { IfOk result (IsAnswered
        (answer_to export.now no_zeroes (record { number = number; payload = payload.now }))
        out.old.items out.new.items) }
    ensures err { OnErr result (BeginsWith out.new.items out.old.items) }
{
    match OptionKind::from_number(number) {
        Some(OptionKind::ExportName) => answer_export_name(out, export, no_zeroes, payload),
        Some(OptionKind::Abort) => {
            put_empty(out, number, ReplyKind::Ack)?;
            Ok(Next::Close { aborted: true })
        }
        Some(OptionKind::List) => answer_list(out, export, payload),
        Some(OptionKind::Info) => answer_information(out, number, Next::More, export, payload),
        Some(OptionKind::Go) => answer_information(out, number, Next::Transmit, export, payload),
        None => refuse(out, number, ReplyKind::Unsupported),
    }
}
