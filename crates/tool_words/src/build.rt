//! The commands of `clap` that read the words of the program.
ghost use Rattle.clap.specs.Faults.{is_simple_and_free};
ghost use Rattle.clap.specs.Simple.{is_simple};
ghost use Rattle.clap.specs.Words.{app_of, rule_of};
ghost use Rattle.std.specs.Prelude.{◌≡◌, IfOk, IsTrue, false, map};
ghost use Rattle.tool_words.specs.Commands.{app, bare_app, option_rule, place_rule};

use clap::{Arg, ArgAction, Command};
use std::alloc::{AllocError, Global};

/// The id of the words that stand for themselves.
pub const PLACE: &str = "word";

/// An option that takes one text, at most once.
fn option<'a>(alloc: Global, name: &'a str) -> Arg<'a>
    ensures rule { rule_of result ≡ option_rule name.entry.now }
    ensures local { result.global ≡ false }
{
    Arg::new(alloc, name).long(name).action(ArgAction::Set)
}

/// The words that stand for themselves.
fn place<'a>(alloc: Global) -> Arg<'a>
    ensures rule { rule_of result ≡ place_rule }
    ensures local { result.global ≡ false }
{
    Arg::new(alloc, PLACE).action(ArgAction::Append)
}

/// A command without any argument, `--help` included.
fn bare<'a>(alloc: Global, name: &'a str) -> Command<'a>
    ensures { app_of result ≡ bare_app name.entry.now }
{
    Command::new(alloc, name).disable_help_flag(true)
}

/// The command with these options, and with any number of words that stand for themselves. It is simple: it has no
/// default, group, exclusion or subcommand. The only error is want of memory.
pub fn command<'a>(
    alloc: Global,
    name: &'a str,
    options: &[&'a str],
) -> Result<Command<'a>, AllocError>
    ensures app { IfOk result (λ c. app_of c ≡ app name.entry.now (map (λ o. o.now) options.now)) }
    ensures simple { IfOk result (λ c. IsTrue (is_simple (app_of c))) }
    ensures free { IfOk result (λ c. IsTrue (is_simple_and_free (app_of c))) }
{
    let mut command = bare(alloc, name);
    for name in options {
        command = command.arg(option(alloc, name))?;
    }
    command.arg(place(alloc))
}
