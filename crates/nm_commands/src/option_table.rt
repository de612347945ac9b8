//! The table of the options of `nbdmirror`.
ghost use Rattle.nm_commands.specs.OptionRows.{IsTable};

use crate::option_row::{OptionRow, Value};
use clap::builder::ValueParser;

/// How many seconds a call of a leg may be waited for at most: a day.
const LONGEST_LEG_TIMEOUT: i64 = 86_400;

/// How many seconds a client may be idle at most: a day.
const LONGEST_IDLE_LIMIT: i64 = 86_400;

/// The rows, in the order in which help shows the options.
static OPTIONS: [OptionRow; 24] = [
    OptionRow {
        word: "listen",
        letter: None,
        value: Value::Text("ADDRESS", "127.0.0.1:10809"),
        help: "where clients connect, or unix:PATH",
    },
    OptionRow {
        word: "port",
        letter: Some('p'),
        value: Value::Bare("PORT", ValueParser::Signed(0, 65_535)),
        help: "where clients connect, at 127.0.0.1: in place of --listen",
    },
    OptionRow {
        word: "control",
        letter: None,
        value: Value::Text("ADDRESS", "127.0.0.1:10810"),
        help: "the control port, or unix:PATH",
    },
    OptionRow {
        word: "name",
        letter: None,
        value: Value::Text("NAME", "disk"),
        help: "the export's name",
    },
    OptionRow {
        word: "stripes",
        letter: None,
        value: Value::Parsed("N", "16", ValueParser::Signed(1, 64)),
        help: "how many lock shards",
    },
    OptionRow {
        word: "policy",
        letter: None,
        value: Value::Parsed(
            "POLICY",
            "round-robin",
            ValueParser::Names(&["round-robin", "striped"]),
        ),
        help: "which leg a read takes",
    },
    OptionRow {
        word: "master",
        letter: None,
        value: Value::Bare("N", ValueParser::Signed(0, 7)),
        help: "the leg with the newest contents, needed where legs differ",
    },
    OptionRow {
        word: "start",
        letter: None,
        value: Value::Parsed(
            "START",
            "compare",
            ValueParser::Names(&["compare", "full", "equal"]),
        ),
        help: "copy what differs from the master, or all, or take legs to be equal",
    },
    OptionRow {
        word: "auto-attach",
        letter: None,
        value: Value::Flag,
        help: "attach a leg again by itself after a call of it failed",
    },
    OptionRow {
        word: "copy-rate",
        letter: None,
        value: Value::Bare("MIB", ValueParser::Signed(1, 65_535)),
        help: "copy so many MiB a second, and not what clients leave",
    },
    OptionRow {
        word: "leg-timeout",
        letter: None,
        value: Value::Bare("SECONDS", ValueParser::Signed(1, LONGEST_LEG_TIMEOUT)),
        help: "after how many seconds without an answer a leg is out",
    },
    OptionRow {
        word: "superblock",
        letter: None,
        value: Value::Parsed("PLACE", "beside", ValueParser::NonEmptyString),
        help: "where superblocks are: beside or inside the legs, none, or a folder",
    },
    OptionRow {
        word: "superblock-from",
        letter: None,
        value: Value::Bare("PLACE", ValueParser::NonEmptyString),
        help: "where superblocks were kept so far: they are moved from there",
    },
    OptionRow {
        word: "degraded",
        letter: None,
        value: Value::Flag,
        help: "start without a superblock that may be newer",
    },
    OptionRow {
        word: "force-master",
        letter: None,
        value: Value::Bare("N", ValueParser::Signed(0, 7)),
        help: "the leg with the newest contents, whatever superblocks say",
    },
    OptionRow {
        word: "add-leg",
        letter: None,
        value: Value::Repeated("N", ValueParser::Signed(0, 7)),
        help: "copy the mirror over this leg, which its superblocks do not know",
    },
    OptionRow {
        word: "moved",
        letter: None,
        value: Value::Repeated("N", ValueParser::Signed(0, 7)),
        help: "this leg was moved to another file or disk with its superblock",
    },
    OptionRow {
        word: "shrink",
        letter: None,
        value: Value::Flag,
        help: "what new legs have in their last 64 KiB may go for superblocks inside",
    },
    OptionRow {
        word: "idle-limit",
        letter: None,
        value: Value::Bare("SECONDS", ValueParser::Signed(1, LONGEST_IDLE_LIMIT)),
        help: "after how many seconds without a request a client is closed",
    },
    OptionRow {
        word: "verbose",
        letter: Some('v'),
        value: Value::Flag,
        help: "log sessions that begin and end",
    },
    OptionRow {
        word: "sessions",
        letter: None,
        value: Value::Parsed("N", "16", ValueParser::Signed(1, 64)),
        help: "how many clients at once",
    },
    OptionRow {
        word: "history",
        letter: None,
        value: Value::Parsed("N", "16", ValueParser::Signed(0, 1024)),
        help: "how many of its last reads and writes a stripe keeps",
    },
    OptionRow {
        word: "read-only",
        letter: Some('r'),
        value: Value::Flag,
        help: "refuse writes",
    },
    OptionRow {
        word: "force-in-use",
        letter: None,
        value: Value::Flag,
        help: "serve legs that are mounted or otherwise in use",
    },
];

/// The options, in the order in which help shows them.
pub fn options() -> &'static [OptionRow]
    ensures { IsTable result.now }
{
    &OPTIONS
}
