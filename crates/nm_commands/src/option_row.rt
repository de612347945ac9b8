//! A row of the table of options, and what clap is told of it.
ghost use Rattle.std.specs.Prelude.{◌≡◌, false};
ghost use Rattle.clap.specs.Words.{rule_of};
ghost use Rattle.nm_commands.specs.OptionRows.{rule_of_row, rule_of_value};

use clap::builder::ValueParser;
use clap::{Arg, ArgAction};
use std::alloc::Global;

/// What value an option takes.
#[derive(Clone, Copy)]
pub enum Value {
    /// None: the option is a flag.
    Flag,
    /// A text: its name in help, and its default.
    Text(&'static str, &'static str),
    /// A text that passes a parser: its name in help, its default, and the parser.
    Parsed(&'static str, &'static str, ValueParser<'static>),
    /// A text that passes a parser, without a default: its name in help, and the parser.
    Bare(&'static str, ValueParser<'static>),
    /// The same, and the option may come more than once.
    Repeated(&'static str, ValueParser<'static>),
}

/// A row of the table of options.
#[derive(Clone, Copy)]
pub struct OptionRow {
    /// The option's word, after two dashes.
    pub word: &'static str,
    /// Its letter, after one dash, if it has one.
    pub letter: Option<char>,
    /// What value it takes.
    pub value: Value,
    /// What help says of it.
    pub help: &'static str,
}

impl OptionRow {
    // The option without its letter.
    fn unlettered<'a>(&self, alloc: Global) -> Arg<'a>
        ensures rule { rule_of result ≡ rule_of_value self.now.word.now self.now.value }
        ensures own { result.global ≡ false }
    {
        let arg = Arg::new(alloc, self.word).long(self.word).help(self.help);
        match self.value {
            Value::Flag => arg.action(ArgAction::SetTrue),
            Value::Text(name, default) => arg.value_name(name).default_value(default),
            Value::Parsed(name, default, parser) => arg
                .value_name(name)
                .default_value(default)
                .value_parser(parser),
            Value::Bare(name, parser) => arg.value_name(name).value_parser(parser),
            Value::Repeated(name, parser) => arg
                .value_name(name)
                .value_parser(parser)
                .action(ArgAction::Append),
        }
    }

    /// The option, as clap is told of it.
    pub fn arg<'a>(&self, alloc: Global) -> Arg<'a>
        ensures rule { rule_of result ≡ rule_of_row self.now }
        ensures own { result.global ≡ false }
    {
        let arg = self.unlettered(alloc);
        match self.letter {
            None => arg,
            Some(letter) => arg.short(letter),
        }
    }
}
