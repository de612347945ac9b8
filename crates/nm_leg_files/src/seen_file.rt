//! Whether a file fits the leg whose name leads to it.
ghost use Rattle.std.specs.Prelude.{◌≡◌, ◌↔◌, IsOk, IfErr, Err, Some, true};
ghost use Rattle.std.specs.Option.{unwrap_or};
ghost use Rattle.nm_leg_files.specs.Fitting.{Fits};
ghost use Rattle.nm_leg_files.specs.declared.unfit.Unfit.TheVariants.{InUse, OtherLength};

use crate::leg_opening::{LegRules, bytes_of};
use crate::unfit::Unfit;
use std::fs::File;
use std::os::unix::fs::FileTypeExt;

/// A file that a leg's name leads to, as it is found.
#[derive(Clone, Copy)]
pub struct SeenFile {
    /// The system has it in use, which is not allowed.
    pub is_in_use: bool,
    /// How many bytes it has, where it has a length.
    pub bytes: Option<u64>,
    /// It grows as it is written, and is no device.
    pub is_regular: bool,
    pub is_block_device: bool,
}

impl SeenFile {
    /// What is seen of a file that the system may have in use.
    pub fn of(file: &File, is_in_use: bool) -> SeenFile {
        let (is_regular, is_block_device) = match file.metadata() {
            Ok(found) => (found.is_file(), found.file_type().is_block_device()),
            Err(_) => (false, false),
        };
        SeenFile {
            is_in_use,
            bytes: bytes_of(file),
            is_regular,
            is_block_device,
        }
    }

    /// Refuses it where it has another length than so many bytes.
    pub fn has_length(&self, bytes: u64) -> Result<(), Unfit>
        ensures ok { IsOk result ↔ (self.now.bytes ≡ Some bytes) }
        ensures refused { IfErr result (λ why.
            why ≡ OtherLength (unwrap_or self.now.bytes 0) bytes) }
    {
        if self.bytes == Some(bytes) {
            Ok(())
        } else {
            Err(Unfit::OtherLength(self.bytes.unwrap_or(0), bytes))
        }
    }

    /// Refuses it as the file of a leg of so many bytes where it is in use, has another length, is
    /// longer than files may be, or is a block device beside which superblocks would stand.
    pub fn fits(&self, rules: &LegRules, bytes: u64) -> Result<(), Unfit>
        ensures ok { IsOk result ↔ Fits self.now rules.now bytes }
        ensures in_use { self.now.is_in_use ≡ true → result ≡ Err InUse }
    {
        if self.is_in_use {
            return Err(Unfit::InUse);
        }
        self.has_length(bytes)?;
        match rules.file_bytes {
            Some(limit) if self.is_regular && limit < bytes => {
                return Err(Unfit::OverFileLimit(limit));
            }
            _ => (),
        }
        if self.is_block_device && rules.has_beside {
            return Err(Unfit::NoPlaceBeside);
        }
        Ok(())
    }
}
