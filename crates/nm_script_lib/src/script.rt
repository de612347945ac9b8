//! Reads a script: its mirror line, how its stripe opens, and the steps.
ghost use Rattle.std.specs.Prelude.{◌≡◌, ℕ, ◌+◌, ◌<◌, ◌≤◌, ◌^◌, not, List, length, Option, Some};
ghost use Rattle.std.specs.Prelude.{None, IfSome, Result, IfOk, MatchResult, IsErrOf};
ghost use Rattle.std.specs.Option.{option_copied, option_map};
ghost use Rattle.std.specs.List.{list_any, AllByRecursion};
ghost use Rattle.std.specs.Str.{is_utf8};
ghost use Rattle.nm_script_lib.specs.Grammar.{has_content, IsScript};
ghost use Rattle.nm_script_lib.specs.Reading.{pieces, pieces_of_rest, rest_size};
ghost use Rattle.nm_script_lib.specs.ScriptReading.{first_where, content_from, is_start};
ghost use Rattle.nm_script_lib.specs.ScriptReading.{is_between, opening_of, steps_of, names_mirror};
ghost use Rattle.nm_script_lib.specs.ScriptReading.{script_of, Reads, SaysAll};
ghost use Rattle.nm_script_lib.specs.declared.parse_error.ParseError.TheVariants.{Memory, BadStep};
ghost use Rattle.nm_script_lib.specs.declared.load.Load.{Load};
ghost use Rattle.nm_script_lib.specs.declared.mirror_line.MirrorLine.{MirrorLine};
ghost use Rattle.nm_script_lib.specs.declared.step.Step.{Step};
ghost use Rattle.nm_script_lib.specs.BadLine.{NamesLine};

use crate::load::{Load, load_of, start_of};
use crate::mirror_line::{MirrorLine, mirror_of};
use crate::parse_error::ParseError;
use crate::step::{Step, step_of};
use crate::words::{cut, is_word};
use std::alloc::Global;

/// A script: the mirror, how its stripe opens, and the steps.
#[derive(Drop)]
pub struct Script {
    /// The mirror that the steps run on.
    pub mirror: MirrorLine,
    /// What the legs have before the stripe opens, in the order of the lines.
    pub loads: Vec<Load>,
    /// The leg that the others are compared with as the stripe opens. Where there is none, all legs
    /// are new and in sync.
    pub master: Option<u8>,
    /// The steps, in the order of their lines.
    pub steps: Vec<Step>,
}

/// Whether a line is neither empty nor a comment.
fn has_content(line: &[u8]) -> bool
    ensures { result ≡ has_content line.now }
{
    match line {
        [] => false,
        [byte, ..] => *byte != b'#',
    }
}

/// Whether some line is a start.
fn any_starts(mirror: &MirrorLine, text: Option<&[u8]>) -> bool
    ensures { result
        ≡ list_any (is_start mirror.now) (pieces_of_rest 10 (option_copied text.entry)) }
{
    let mut rest = text;
    while let Some(text) = rest {
        let (line, following) = cut(text, b'\n');
        if start_of(mirror, line).is_some() {
            return true;
        }
        rest = following;
    }
    false
}

/// Whether a line after these loads and before this text stands between a load and a start.
fn is_between(mirror: &MirrorLine, loads: &[Load], text: Option<&[u8]>) -> bool
    ensures { result
        ≡ is_between mirror.now loads.now (pieces_of_rest 10 (option_copied text.entry)) }
{
    match loads {
        [] => false,
        [_, ..] => any_starts(mirror, text),
    }
}

/// Where a script's steps begin, and what stands between them and its mirror line.
#[derive(Drop)]
struct Opening<'a> {
    loads: Vec<Load>,
    master: Option<u8>,
    number: u64,
    following: Option<&'a [u8]>,
}

/// The loads and the start that the lines begin with. The first line is line `number`. Where a step
/// or the end stands in the place of the start, and no start follows, there are none, and the steps
/// begin with the first line.
fn opening_of<'a>(
    alloc: Global,
    mirror: &MirrorLine,
    text: Option<&'a [u8]>,
    number: u64,
) -> Result<Opening<'a>, ParseError>
    requires { number + rest_size (option_copied text) < 2 ^ 64 }
    ensures opens { Reads (λ o. (
      o.loads.items,
      o.master,
      o.number,
      pieces_of_rest 10 (option_copied o.following),
    )) result
        (opening_of mirror.now number (pieces_of_rest 10 (option_copied text.entry))) }
    ensures room { IfOk result (λ o. o.number + rest_size (option_copied o.following)
        ≤ number + rest_size (option_copied text.entry)) }
{
    let mut loads = Vec::new(alloc);
    let mut at = number;
    let mut rest = text;
    while let Some(piece) = rest {
        let (line, following) = cut(piece, b'\n');
        rest = following;
        if has_content(line) {
            if let Some(load) = load_of(mirror, line) {
                loads.push(load)?;
            } else if let Some(master) = start_of(mirror, line) {
                return Ok(Opening {
                    loads,
                    master: Some(master),
                    number: at + 1,
                    following,
                });
            } else if step_of(mirror, line).is_none() || is_between(mirror, &loads, following) {
                return Err(ParseError::BadStep { line: at });
            } else {
                rest = None;
            }
        }
        at += 1;
    }
    Ok(Opening {
        loads: Vec::new(alloc),
        master: None,
        number,
        following: text,
    })
}

/// The steps of the lines, of which the first is line `number`.
fn steps_of(
    alloc: Global,
    mirror: &MirrorLine,
    text: Option<&[u8]>,
    number: u64,
) -> Result<Vec<Step>, ParseError>
    requires { number + rest_size (option_copied text) < 2 ^ 64 }
    ensures { Reads (λ v. v.items) result
        (steps_of mirror.now number (pieces_of_rest 10 (option_copied text.entry))) }
{
    let mut steps = Vec::new(alloc);
    let mut number = number;
    let mut rest = text;
    while let Some(text) = rest {
        let (line, following) = cut(text, b'\n');
        if has_content(line) {
            match step_of(mirror, line) {
                Some(step) => steps.push(step)?,
                None => return Err(ParseError::BadStep { line: number }),
            }
        }
        number += 1;
        rest = following;
    }
    Ok(steps)
}

/// Whether a line's first word is `mirror`.
fn names_mirror(line: &[u8]) -> bool
    ensures { result ≡ names_mirror line.now }
{
    let (word, _) = cut(line, b' ');
    is_word(word, b"mirror")
}

/// Whether a line is UTF-8.
fn is_utf8(line: &[u8]) -> bool
    ensures { result ≡ is_utf8 line.now }
{
    std::str::from_utf8(line).is_ok()
}

/// The number of the first line that is not UTF-8.
fn first_not_utf8(text: &[u8]) -> Option<u64>
    ensures { result ≡ first_where (λ line. not (is_utf8 line)) 1 (pieces 10 text.now) }
{
    let mut number = 1;
    let mut rest = Some(text);
    while let Some(text) = rest {
        let (line, following) = cut(text, b'\n');
        if !is_utf8(line) {
            return Some(number);
        }
        number += 1;
        rest = following;
    }
    None
}

/// Whether some line's first word is `mirror`.
fn any_names_mirror(text: &[u8]) -> bool
    ensures { result ≡ list_any names_mirror (pieces 10 text.now) }
{
    let mut rest = Some(text);
    while let Some(text) = rest {
        let (line, following) = cut(text, b'\n');
        if names_mirror(line) {
            return true;
        }
        rest = following;
    }
    false
}

/// A line that is neither empty nor a comment, and where it stands.
#[derive(Clone, Copy)]
struct ContentLine<'a> {
    number: u64,
    line: &'a [u8],
    following: Option<&'a [u8]>,
}

/// The first line of a text that is neither empty nor a comment, and the text after it.
fn first_content_line(text: &[u8]) -> Option<ContentLine<'_>>
    ensures found { option_map
        (λ s. (s.number, s.line.now, pieces_of_rest 10 (option_copied s.following))) result
        ≡ content_from 1 (pieces 10 text.now) }
    ensures room { IfSome result (λ s. s.number + rest_size (option_copied s.following)
        ≤ length text.now + 1) }
{
    let mut number = 1;
    let mut rest = Some(text);
    while let Some(text) = rest {
        let (line, following) = cut(text, b'\n');
        if has_content(line) {
            return Some(ContentLine {
                number,
                line,
                following,
            });
        }
        number += 1;
        rest = following;
    }
    None
}

/// The script that a text is, read from its first line on.
#[tactic(auto, unfolding(crate::specs::ScriptReading::script_of))]
fn script_of(alloc: Global, text: &[u8]) -> Result<Script, ParseError>
    ensures { Reads (λ s. (s.mirror, s.loads.items, s.master, s.steps.items)) result
        (script_of (pieces 10 text.now)) }
{
    if let Some(line) = first_not_utf8(text) {
        return Err(ParseError::BadStep { line });
    }
    let Some(content) = first_content_line(text) else {
        return Err(ParseError::BadStep { line: 1 });
    };
    let Some(mirror) = mirror_of(content.line) else {
        let line = if any_names_mirror(text) {
            content.number
        } else {
            1
        };
        return Err(ParseError::BadStep { line });
    };
    let opening = opening_of(alloc, &mirror, content.following, content.number + 1)?;
    let steps = steps_of(alloc, &mirror, opening.following, opening.number)?;
    Ok(Script {
        mirror,
        loads: opening.loads,
        master: opening.master,
        steps,
    })
}

/// Reads a script: a mirror line, then how the stripe opens, then a step a line.
///
/// Loads that no start follows are no steps: the first of them is named. A step between a load and
/// a start is named itself, as is a line after the loads that is no load, no start and no step.
///
/// Empty lines and those that begin with `#` are skipped. An error's line counts all lines, from 1.
pub fn parse(alloc: Global, text: &[u8]) -> Result<Script, ParseError>
    // What is read is the script that the text is.
    ensures parsed { IfOk result (λ s. IsScript text.now s.mirror s.loads.items s.master
        s.steps.items) }
    // A text that is a script is read, unless memory runs out.
    ensures script { (m : MirrorLine) (loads : List Load) (master : Option ℕ) (steps : List Step)
        → IsScript text.now m loads master steps
        → MatchResult result (SaysAll m loads master steps) (λ e. e ≡ Memory) }
    ensures named { (n : ℕ) → IsErrOf result (BadStep n) → NamesLine text.now n }
{
    script_of(alloc, text)
}
