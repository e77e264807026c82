//! The command line as one simple command of clap, and what its matches say of an option.

ghost use Rattle.std.specs.Prelude.{◌≡◌, ◌≢◌, [], false, map, string_bytes, IfOk, IfErr};
ghost use Rattle.clap.specs.Words.{app_of, fault_of, found_of, matches_of, rows_of, rule_of, with_rule};
ghost use Rattle.clap.specs.declared.error.kind.ErrorKind.TheVariants.{OutOfMemory};
ghost use Rattle.ov_plan.specs.Command as spec;
ghost use Rattle.ov_plan.specs.declared.words.PlanStop.TheVariants as stop;

use crate::words::PlanStop;
use clap::builder::ValueParser;
use clap::error::ErrorKind;
use clap::{Arg, ArgMatches, Command};
use std::alloc::{AllocError, Global};

/// The command with one argument more.
fn with<'a>(command: Command<'a>, arg: Arg<'a>) -> Result<Command<'a>, AllocError>
    requires local { arg.global ≡ false }
    ensures { IfOk result (λ it. app_of it ≡ with_rule (app_of command.entry) (rule_of arg.entry)) }
{
    command.arg(arg)
}

/// The required word MODE.
fn mode<'a>(alloc: Global) -> Arg<'a>
    ensures local { result.global ≡ false }
    ensures rule { rule_of result ≡ spec.mode_rule }
{
    Arg::new(alloc, "mode").required(true)
}

/// The option `--name`, which takes a text.
fn text<'a>(alloc: Global, name: &'a str) -> Arg<'a>
    ensures local { result.global ≡ false }
    ensures rule { rule_of result ≡ spec.text_rule name.entry.now }
{
    Arg::new(alloc, name).long(name)
}

/// The option `--name`, which takes a number from `least` to `most`.
fn number<'a>(alloc: Global, name: &'a str, least: u32, most: u32) -> Arg<'a>
    ensures local { result.global ≡ false }
    ensures rule { rule_of result ≡ spec.number_rule name.entry.now least most }
{
    Arg::new(alloc, name)
        .long(name)
        .value_parser(ValueParser::unsigned(u64::from(least), u64::from(most)))
}

/// The command: the word MODE, and the options with their ranges.
fn command<'a>(alloc: Global) -> Result<Command<'a>, AllocError>
    ensures { IfOk result (λ it. app_of it ≡ spec.command) }
{
    let bare = Command::new(alloc, "ovpn")
        .no_binary_name(true)
        .disable_help_flag(true);
    let command = with(bare, mode(alloc))?;
    let command = with(command, number(alloc, "lanes", 1, 64))?;
    let command = with(command, number(alloc, "head", 0, 262_144))?;
    let command = with(command, number(alloc, "first-id", 1, 4_294_967_295))?;
    let command = with(command, text(alloc, "schedule"))?;
    let command = with(command, number(alloc, "seed", 0, 4_294_967_295))?;
    let command = with(command, number(alloc, "count", 1, 100_000))?;
    let command = with(command, number(alloc, "turns", 1, 4_294_967_295))?;
    with(command, number(alloc, "port", 1, 65_344))
}

/// Why there are no matches.
fn stop_of(kind: ErrorKind) -> PlanStop
    ensures { result ≡ stop.Usage → kind ≢ OutOfMemory }
{
    match kind {
        ErrorKind::OutOfMemory => PlanStop::Memory,
        _ => PlanStop::Usage,
    }
}

/// The matches of the command for these words. `Usage` comes only where it has none, and `Memory` at any words.
pub(crate) fn matched<'a>(alloc: Global, words: &'a [String]) -> Result<ArgMatches<'a>, PlanStop>
    ensures fault { IfOk result (λ it. fault_of spec.command (map string_bytes words.now) ≡ []) }
    ensures rows { IfOk result (λ it.
        rows_of (found_of it) ≡ matches_of spec.command (map string_bytes words.now)) }
    ensures numbers { IfOk result (λ it. spec.HasNumbers (found_of it)) }
    ensures usage { IfErr result (λ why. why ≡ stop.Usage →
        fault_of spec.command (map string_bytes words.now) ≢ []) }
{
    let command = match command(alloc) {
        Ok(command) => command,
        Err(_) => return Err(PlanStop::Memory),
    };
    match command.try_get_matches_from(words) {
        Ok(matches) => Ok(matches),
        Err(error) => Err(stop_of(error.kind())),
    }
}

/// The number of the option `--name`, and `standard` where the words don't give it.
pub(crate) fn number_of(matches: &ArgMatches<'_>, name: &str, standard: u32) -> u32
    requires number { spec.IsNumber (found_of matches.now) name.now 0 4294967295 }
    ensures value { result ≡ spec.number_of name.now standard (rows_of (found_of matches.now)) }
{
    matches.get_one::<u32>(name).unwrap_or(standard)
}
