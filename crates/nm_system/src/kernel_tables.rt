//! Lines of the files in which the kernel tells what it has mounted, swaps to, and limits.
ghost use Rattle.std.specs.Prelude.{◌≡◌, ◌+◌, ◌*◌, ◌-◌, IfSome};

use crate::system_files::ends_line;
use std::alloc::{AllocError, Global};

/// What a line of `/proc/self/mountinfo` tells of a mount.
#[derive(Drop)]
pub struct MountLine<'a> {
    /// The number of its device, as `8:1`.
    pub device: &'a [u8],
    /// The kind of its file system, as `ext4`.
    pub kind: &'a [u8],
    /// What is mounted, with escapes.
    pub source: &'a [u8],
}

// Whether the byte stands between the words of a line.
fn is_space(byte: &u8) -> bool {
    *byte == b' '
}

/// The mount of a line of `/proc/self/mountinfo`: the device is the third word, and the kind and
/// the source the two after a word that is a dash.
pub fn mount_of(line: &[u8]) -> Option<MountLine<'_>> {
    let mut words = line.split(is_space);
    let device = words.nth(2)?;
    for word in &mut words {
        if word == b"-".as_slice() {
            break;
        }
    }
    let kind = words.next()?;
    let source = words.next()?;
    Some(MountLine {
        device,
        kind,
        source,
    })
}

/// The file of a line of `/proc/swaps`, with escapes: its first word.
pub fn swap_of(line: &[u8]) -> &[u8] {
    match line.iter().position(|byte| matches!(*byte, b' ' | b'\t')) {
        Some(end) => &line[..end],
        None => line,
    }
}

/// The number of some decimal digits.
pub fn number(digits: &[u8]) -> Option<u64> {
    str::from_utf8(digits).ok()?.parse::<u64>().ok()
}

/// The major and the minor number of a device that is written as `8:1`.
pub fn device_number(text: &[u8]) -> Option<(u64, u64)> {
    let colon = text.iter().position(|byte| *byte == b':')?;
    Some((number(&text[..colon])?, number(&text[colon + 1..])?))
}

// The byte of three octal digits.
fn octal(first: u8, second: u8, third: u8) -> Option<u8>
    ensures { IfSome result (λ byte.
        byte + 64 * 48 + 8 * 48 + 48 ≡ 64 * first + 8 * second + third) }
{
    match (first, second, third) {
        (b'0'..=b'3', b'0'..=b'7', b'0'..=b'7') => {
            Some(64 * (first - b'0') + 8 * (second - b'0') + (third - b'0'))
        }
        _ => None,
    }
}

// The byte whose escape these bytes begin with.
fn escaped(text: &[u8]) -> Option<u8> {
    match text {
        [b'\\', first, second, third, ..] => octal(*first, *second, *third),
        _ => None,
    }
}

/// The name that is written with spaces, tabs, line ends and backslashes as `\040` and the like.
pub fn unescaped(alloc: Global, text: &[u8]) -> Result<Vec<u8>, AllocError> {
    let mut name = Vec::new(alloc);
    let mut digits = 0u8;
    for (at, byte) in text.iter().enumerate() {
        if digits > 0 {
            digits -= 1;
        } else if let Some(hidden) = escaped(&text[at..]) {
            name.push(hidden)?;
            digits = 3;
        } else {
            name.push(*byte)?;
        }
    }
    Ok(name)
}

// The word of a line at this place, where blanks stand between words.
fn word_at(line: &[u8], place: usize) -> Option<&[u8]> {
    let mut words = line.split(is_space).filter(|word| !word.is_empty());
    words.nth(place)
}

// What follows this name on the first line that begins with it.
fn behind_name<'a>(lines: &'a [u8], name: &str) -> Option<&'a [u8]> {
    for line in lines.split(ends_line) {
        if let Some(rest) = line.strip_prefix(name.as_bytes()) {
            return Some(rest);
        }
    }
    None
}

/// The soft limit of this name in `/proc/self/limits`; none where it is unlimited, or not there.
pub fn soft_limit(limits: &[u8], name: &str) -> Option<u64> {
    number(word_at(behind_name(limits, name)?, 0)?)
}

/// The number of the socket that listens at this port, by a line of `/proc/net/tcp`, where the port
/// stands as `:2A39`.
pub fn listens_at_port(line: &[u8], port: &[u8]) -> Option<u64> {
    let is_there = word_at(line, 1)?.ends_with(port);
    let is_listening = word_at(line, 3)? == b"0A".as_slice();
    if is_there && is_listening {
        number(word_at(line, 9)?)
    } else {
        None
    }
}

/// The number of the socket that listens at this path, by a line of `/proc/net/unix`.
pub fn listens_at_path(line: &[u8], path: &[u8]) -> Option<u64> {
    let is_there = word_at(line, 7)? == path;
    let is_listening = word_at(line, 3)? == b"00010000".as_slice();
    if is_there && is_listening {
        number(word_at(line, 6)?)
    } else {
        None
    }
}
