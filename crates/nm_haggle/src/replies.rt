//! The bytes of the replies to options, each appended to the output. At an error a part
//! of a reply may follow it.
ghost use Rattle.std.specs.Prelude.{◌≡◌, ◌<◌, ◌≤◌, ◌^◌, ◌++◌, [], length, OnOk, OnErr};
ghost use Rattle.nm_haggle.specs.Answer.{reply, size_and_flags, closing_zeroes, export_information};
ghost use Rattle.nm_haggle.specs.Answer.{block_sizes, information_replies};
ghost use Rattle.nm_wire.specs.Number.{be};
ghost use Rattle.nm_wire.specs.Layout.{option_reply_bytes};
ghost use Rattle.nm_wire.specs.ReplyKind.{reply_number};
ghost use Rattle.nm_haggle.specs.Output.{BeginsWith};

use nm_wire::sizes::{EXPORT_NAME_ZEROES, MAX_PAYLOAD, MIN_BLOCK, PREFERRED_BLOCK};
use nm_wire::{Export, InfoKind, OptionReply, ReplyKind};
use std::alloc::AllocError;

/// A number in 2 bytes.
#[tactic(auto, unfolding(nm_wire::specs::Number::be))]
fn put_u16(out: &mut Vec<u8>, number: u16) -> Result<(), AllocError>
    ensures ok { OnOk result (out.new.items ≡ out.old.items ++ be 2 number) }
    ensures err { OnErr result (BeginsWith out.new.items out.old.items) }
{
    out.extend_from_slice(&number.to_be_bytes())
}

/// A number in 4 bytes.
#[tactic(auto, unfolding(nm_wire::specs::Number::be))]
fn put_u32(out: &mut Vec<u8>, number: u32) -> Result<(), AllocError>
    ensures ok { OnOk result (out.new.items ≡ out.old.items ++ be 4 number) }
    ensures err { OnErr result (BeginsWith out.new.items out.old.items) }
{
    out.extend_from_slice(&number.to_be_bytes())
}

/// A number in 8 bytes.
#[tactic(auto, unfolding(nm_wire::specs::Number::be))]
fn put_u64(out: &mut Vec<u8>, number: u64) -> Result<(), AllocError>
    ensures ok { OnOk result (out.new.items ≡ out.old.items ++ be 8 number) }
    ensures err { OnErr result (BeginsWith out.new.items out.old.items) }
{
    out.extend_from_slice(&number.to_be_bytes())
}

/// The header of a reply with so many bytes of data.
fn put_head(out: &mut Vec<u8>, option: u32, kind: ReplyKind, length: u32) -> Result<(), AllocError>
    ensures ok { OnOk result (out.new.items ≡ out.old.items ++ option_reply_bytes
        (record { option = option; kind = reply_number kind; length = length })) }
    ensures err { OnErr result (BeginsWith out.new.items out.old.items) }
{
    let head = OptionReply {
        option,
        kind: kind.number(),
        length,
    };
    let mut bytes = [0; 20];
    head.put(&mut bytes);
    out.extend_from_slice(&bytes)
}

/// A reply without data.
pub(crate) fn put_empty(out: &mut Vec<u8>, option: u32, kind: ReplyKind) -> Result<(), AllocError>
    ensures ok { OnOk result (out.new.items ≡ out.old.items ++ reply option kind []) }
    ensures err { OnErr result (BeginsWith out.new.items out.old.items) }
{
    put_head(out, option, kind, 0)
}

/// The size and the flags of the export.
pub(crate) fn put_size_and_flags(out: &mut Vec<u8>, export: &Export) -> Result<(), AllocError>
    ensures ok { OnOk result (out.new.items ≡ out.old.items ++ size_and_flags export.now) }
    ensures err { OnErr result (BeginsWith out.new.items out.old.items) }
{
    put_u64(out, export.size())?;
    put_u16(out, export.flags().0)?;
    Ok(())
}

/// The zeroes that end the reply to EXPORT_NAME.
#[tactic(auto, unfolding(crate::specs::Answer::closing_zeroes))]
pub(crate) fn put_zeroes(out: &mut Vec<u8>) -> Result<(), AllocError>
    ensures ok { OnOk result (out.new.items ≡ out.old.items ++ closing_zeroes) }
    ensures err { OnErr result (BeginsWith out.new.items out.old.items) }
{
    out.extend_from_slice(&[0; EXPORT_NAME_ZEROES])
}

/// A reply with the export's name.
pub(crate) fn put_name(out: &mut Vec<u8>, option: u32, export: &Export) -> Result<(), AllocError>
    ensures ok { OnOk result (out.new.items ≡ out.old.items
        ++ reply option ReplyKind.Server (be 4 (length export.now.name) ++ export.now.name)) }
    ensures err { OnErr result (BeginsWith out.new.items out.old.items) }
{
    let name = export.name.as_bytes();
    let length = name.len() as u32;
    put_head(out, option, ReplyKind::Server, 4 + length)?;
    put_u32(out, length)?;
    out.extend_from_slice(name)?;
    Ok(())
}

/// A reply with the export's size and flags.
fn put_export_information(out: &mut Vec<u8>, option: u32, export: &Export) -> Result<(), AllocError>
    ensures ok { OnOk result (out.new.items ≡ out.old.items
        ++ reply option ReplyKind.Info (export_information export.now)) }
    ensures err { OnErr result (BeginsWith out.new.items out.old.items) }
{
    put_head(out, option, ReplyKind::Info, 12)?;
    put_u16(out, InfoKind::Export.number())?;
    put_size_and_flags(out, export)?;
    Ok(())
}

/// A reply with the minimum, the preferred and the maximum block size.
fn put_block_sizes(out: &mut Vec<u8>, option: u32) -> Result<(), AllocError>
    ensures ok { OnOk result (out.new.items ≡ out.old.items
        ++ reply option ReplyKind.Info block_sizes) }
    ensures err { OnErr result (BeginsWith out.new.items out.old.items) }
{
    put_head(out, option, ReplyKind::Info, 14)?;
    put_u16(out, InfoKind::BlockSize.number())?;
    put_u32(out, MIN_BLOCK)?;
    put_u32(out, PREFERRED_BLOCK)?;
    put_u32(out, MAX_PAYLOAD)?;
    Ok(())
}

/// All replies that describe the export.
pub(crate) fn put_information(
    out: &mut Vec<u8>,
    option: u32,
    export: &Export,
) -> Result<(), AllocError>
    ensures ok { OnOk result
        (out.new.items ≡ out.old.items ++ information_replies option export.now) }
    ensures err { OnErr result (BeginsWith out.new.items out.old.items) }
{
    put_export_information(out, option, export)?;
    put_block_sizes(out, option)?;
    put_empty(out, option, ReplyKind::Ack)?;
    Ok(())
}
