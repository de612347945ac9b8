//! Reads a whole input, and writes a whole text.
ghost use Rattle.std.specs.Prelude.{◌≡◌, ℕ, ◌+◌, ◌≤◌, ◌^◌, List, ◌++◌, length, IfOk, OnOk, OnErr};
ghost use Rattle.std.specs.Io.KnownBytes.{Appends, Consumes};
ghost use Rattle.nm_script_lib.specs.Streams.{AppendsPrefix, ReadsAll};

use crate::input_error::InputError;
use crate::write_error::WriteError;
use std::alloc::Global;
use std::io::{Read, Write};

/// How many bytes a script may have.
const MOST_BYTES: usize = 1 << 24;

/// How many reads an input may take.
const MOST_READS: u32 = (1 << 24) + 1;

/// Reads an input to its end.
pub fn read_all<R: Read>(alloc: Global, input: &mut R) -> Result<Vec<u8>, InputError>
    ensures { IfOk result (λ text.
        ReadsAll (R.remaining input.old) (R.remaining input.new) text.items) }
{
    let mut text = Vec::new(alloc);
    let mut room = [0u8; 8192];
    for _ in 0..MOST_READS {
        let Ok(count) = input.read(&mut room) else {
            return Err(InputError::Input);
        };
        if count == 0 {
            return Ok(text);
        }
        if count > MOST_BYTES - text.len() {
            return Err(InputError::Input);
        }
        text.extend_from_slice(&room[..count])?;
    }
    Err(InputError::Input)
}

/// Writes all the bytes, or a prefix of them if the writer fails.
pub fn send<W: Write>(out: &mut W, bytes: &[u8]) -> Result<(), WriteError>
    ensures ok { OnOk result (Appends (W.contents out.old) (W.contents out.new) bytes.now) }
    ensures err { OnErr result (AppendsPrefix (W.contents out.old) (W.contents out.new) bytes.now) }
{
    let mut rest = bytes;
    while !rest.is_empty() {
        match out.write(rest) {
            Ok(count) if count > 0 => rest = &rest[count..],
            _ => return Err(WriteError),
        }
    }
    Ok(())
}
