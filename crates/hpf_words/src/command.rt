//! The one command whose words are read.

ghost use Rattle.std.specs.Prelude.{◌≡◌, false, IfOk};
ghost use Rattle.clap.specs.Words.{app_of, rule_of, new_rule};
ghost use Rattle.hpf_words.specs.Command.{hpfturn, required_rule, number_rule};

use clap::builder::ValueParser;
use clap::{Arg, Command, value_parser};
use std::alloc::{AllocError, Global};

/// The command: three positionals, of which the last may be left out, and five options that take a whole number.
pub(crate) fn command<'a>(alloc: Global) -> Result<Command<'a>, AllocError>
    ensures { IfOk result (λ command. app_of command ≡ hpfturn) }
{
    Command::new(alloc, "hpfturn")
        .arg(required(alloc, "ACTION"))?
        .arg(required(alloc, "MAP"))?
        .arg(Arg::new(alloc, "NAME"))?
        .arg(number(alloc, "workers", value_parser!(u32).range(1..=64)))?
        .arg(number(alloc, "stage", value_parser!(u32).range(0..=15)))?
        .arg(number(alloc, "proc", value_parser!(u32).range(0..=63)))?
        .arg(number(alloc, "seed", value_parser!(u32)))?
        .arg(number(alloc, "frames", value_parser!(u32)))
}

/// A positional that has to be there.
fn required<'a>(alloc: Global, name: &'a str) -> Arg<'a>
    ensures rule { rule_of result ≡ required_rule name.entry.now }
    ensures local { result.global ≡ false }
{
    Arg::new(alloc, name).required(true)
}

/// An option that takes a number.
fn number<'a>(alloc: Global, name: &'a str, values: ValueParser<'a>) -> Arg<'a>
    ensures rule { rule_of result ≡ number_rule name.entry.now values.entry }
    ensures local { result.global ≡ false }
{
    Arg::new(alloc, name).long(name).value_parser(values)
}
