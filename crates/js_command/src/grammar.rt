//! The words that the program takes, as a grammar for `clap`.
ghost use Rattle.std.specs.Prelude.{◌≡◌, false, IfOk};
ghost use Rattle.clap.specs.Words.{app_of, rule_of};
ghost use Rattle.clap.specs.declared.builder.command.Command.TheViews.{out-Command as fields_of};
ghost use Rattle.js_command.specs.Grammar.{word_argument, pairs_argument, check_command, suite_command, places_command};
ghost use Rattle.js_command.specs.Grammar.{grammar};

use clap::{Arg, ArgAction, Command};
use std::alloc::{AllocError, Global};

/// The whole grammar. No word asks for help or for the version.
pub(crate) fn grammar<'a>(alloc: Global) -> Result<Command<'a>, AllocError>
    ensures { IfOk result (λ c. app_of c ≡ grammar) }
{
    Command::new(alloc, "jschema")
        .no_binary_name(true)
        .disable_help_flag(true)
        .disable_version_flag(true)
        .disable_help_subcommand(true)
        .subcommand_required(true)
        .subcommand(check_command(alloc)?)?
        .subcommand(suite_command(alloc)?)?
        .subcommand(places_command(alloc)?)
}

fn check_command<'a>(alloc: Global) -> Result<Command<'a>, AllocError>
    ensures shape { IfOk result (λ c. app_of c ≡ check_command) }
    ensures local { IfOk result (λ c. (fields_of c).has_globals ≡ false) }
{
    Command::new(alloc, "check")
        .arg(word_argument(alloc, "FORMAT"))?
        .arg(word_argument(alloc, "INSTANCE"))?
        .arg(word_argument(alloc, "ENTRY"))?
        .arg(pairs_argument(alloc))
}

fn suite_command<'a>(alloc: Global) -> Result<Command<'a>, AllocError>
    ensures shape { IfOk result (λ c. app_of c ≡ suite_command) }
    ensures local { IfOk result (λ c. (fields_of c).has_globals ≡ false) }
{
    Command::new(alloc, "suite")
        .arg(word_argument(alloc, "SUITE"))?
        .arg(pairs_argument(alloc))
}

fn places_command<'a>(alloc: Global) -> Result<Command<'a>, AllocError>
    ensures shape { IfOk result (λ c. app_of c ≡ places_command) }
    ensures local { IfOk result (λ c. (fields_of c).has_globals ≡ false) }
{
    Command::new(alloc, "places").arg(pairs_argument(alloc))
}

// A required word.
fn word_argument<'a>(alloc: Global, name: &'a str) -> Arg<'a>
    ensures rule { rule_of result ≡ word_argument name.entry.now }
    ensures local { result.global ≡ false }
{
    Arg::new(alloc, name).required(true).action(ArgAction::Set)
}

// All remaining words.
fn pairs_argument<'a>(alloc: Global) -> Arg<'a>
    ensures rule { rule_of result ≡ pairs_argument }
    ensures local { result.global ≡ false }
{
    Arg::new(alloc, "PAIRS")
        .num_args(0..)
        .action(ArgAction::Append)
}
