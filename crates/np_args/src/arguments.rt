//! The arguments of commands, as clap takes them.
ghost use Rattle.std.specs.Prelude.{◌≡◌, false};
ghost use Rattle.clap.specs.Walk.{rule_of};
ghost use Rattle.np_args.specs.Arguments as spec;

use clap::{Arg, ArgAction};
use std::alloc::Global;

/// An option with one value, by its long name.
pub(crate) fn option_of<'a>(alloc: Global, name: &'a str) -> Arg<'a>
    ensures rule { rule_of result ≡ spec.option_rule name.entry.now }
    ensures local { result.global ≡ false }
{
    Arg::new(alloc, name).long(name).action(ArgAction::Set)
}

/// An option that has this value where it is not given.
pub(crate) fn option_or<'a>(alloc: Global, name: &'a str, missing: &'a str) -> Arg<'a>
    ensures rule { rule_of result ≡ spec.default_rule name.entry.now missing.entry.now }
    ensures local { result.global ≡ false }
{
    option_of(alloc, name).default_value(missing)
}

/// An option that must be given.
pub(crate) fn required_option<'a>(alloc: Global, name: &'a str) -> Arg<'a>
    ensures rule { rule_of result ≡ spec.required_rule name.entry.now }
    ensures local { result.global ≡ false }
{
    option_of(alloc, name).required(true)
}

/// FILE: the name of an input, as often as it is given, and where it is not, that of standard input.
pub(crate) fn file<'a>(alloc: Global) -> Arg<'a>
    ensures rule { rule_of result ≡ spec.file_rule }
    ensures local { result.global ≡ false }
{
    Arg::new(alloc, "FILE")
        .action(ArgAction::Append)
        .default_value("-")
}
