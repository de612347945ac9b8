//! What tells the legs' files from all others, as superblocks record it.

use crate::leg_files::LegFiles;
use crate::leg_time::time_of_change;
use byteorder::{BigEndian, ByteOrder};
use nm_reports::LogLines;
use nm_superblock::{LegIdentities, Superblock};
use nm_system::identity_of;
use sha2::{Digest, Sha256};
use std::alloc::{AllocError, Global};
use std::fs::File;
use std::rt::Files;
use std::sync::Wait;

/// What superblocks record of the legs' files.
#[derive(Clone, Copy, PartialEq, Eq)]
pub struct RecordedFiles {
    /// Their identities.
    pub identities: LegIdentities,
    /// The times of their last changes, 0 where one is unknown.
    pub changed: [u64; 8],
}

/// The identities of legs of which this one alone is known, by this text: the SHA-256 of it.
pub fn identity_by(leg: usize, text: Option<&str>) -> LegIdentities {
    let mut all = LegIdentities::unknown();
    let Some(text) = text else {
        return all;
    };
    let digest = Sha256::digest(text.as_bytes());
    let mut own = LegIdentities::unknown();
    BigEndian::read_u64_into(&digest[..32], &mut own.words[..4]);
    if leg < 8 {
        all.put(leg, &own, 0);
    }
    all
}

// Tells of a leg's file that has no identity.
fn tell_nameless<R: Wait>(rt: &R, alloc: Global, leg: usize, name: &str, lines: &LogLines) {
    let text = format!(in alloc;
        "leg {leg} ({name}): its name alone tells it from other files: see that no other one gets \
         it"
    );
    lines.warn(rt, text);
}

impl LegFiles {
    /// The identities of the files that are here. Each file is told of that has none.
    pub fn identities<R: Files<File = File> + Wait>(
        &self,
        rt: &R,
        alloc: Global,
        lines: &LogLines,
    ) -> Result<LegIdentities, AllocError> {
        let mut all = LegIdentities::unknown();
        for (leg, file) in self.files.iter().enumerate() {
            let Some(own) = file.shared.file().late().file() else {
                continue;
            };
            let text = identity_of(rt, alloc, own)?;
            // A superblock inside tells it too.
            if text.is_none() && self.rules.window == 0 {
                tell_nameless(rt, alloc, leg, file.name.as_str(), lines);
            }
            if leg < 8 {
                all.put(leg, &identity_by(leg, text.as_deref()), leg);
            }
        }
        Ok(all)
    }

    /// The times of last changes of the files that are here, 0 where one is unknown, and where the
    /// saves of superblocks inside the files change them.
    pub fn changed(&self) -> [u64; 8] {
        let mut all = [0; 8];
        if self.rules.window > 0 {
            return all;
        }
        for (leg, file) in self.files.iter().enumerate() {
            if let Some(own) = file.shared.file().late().file() {
                if leg < 8 {
                    all[leg] = time_of_change(own);
                }
            }
        }
        all
    }

    /// What superblocks record of the files from now on: a file that is opened later is to be the
    /// one that they are of, as it was.
    pub fn record(&mut self, image: &Superblock) {
        self.recorded = Some(RecordedFiles {
            identities: image.identities,
            changed: image.changed,
        });
    }
}
