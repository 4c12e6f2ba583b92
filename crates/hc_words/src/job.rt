//! The parse by clap, and the job that its matches give.
ghost use Rattle.std.specs.Prelude.{◌≡◌, ℕ, List, map, string_bytes, option_map, codes, Some, false, true, IfOk, IfErr, IsErrAnd};
ghost use Rattle.std.specs.Str.Parse.{digits_value};
ghost use Rattle.clap.specs.Words.{app_of, first_value, found_of, kind_of, matches_of, one_text, rule_of, takes};
ghost use Rattle.clap.specs.declared.builder.value_parser.ValueParser.TheVariants as vp;
ghost use Rattle.hc_words.specs.Items.{is_command, name_of};
ghost use Rattle.hc_words.specs.Jobs.{HasNoJob, IsJob};
ghost use Rattle.hc_words.specs.Rules.{IsCommandRule, IsProgram, flat_rule, option_rule};
ghost use Rattle.hc_words.specs.Reads.{AreLawful, HasForm, HasJob, ReadsItems};

use crate::form::has_form;
use clap::builder::ValueParser;
use clap::error::ErrorKind;
use clap::{Arg, ArgAction, ArgMatches, Command, Error};
use std::alloc::{AllocError, Global};

/// What is to be done with the design.
#[derive(Clone, Copy, Debug, PartialEq, Eq, Drop)]
pub enum Verb {
    Verilog,
    Sim,
    Both,
    Stat,
    Gen,
}

/// What the words ask for, with 1 to 64 workers. An option that is absent has its default: 1 worker, not flat, seed 0.
#[derive(Clone, Copy, Debug, PartialEq, Eq, Drop)]
pub struct Job {
    pub verb: Verb,
    pub workers: u32,
    pub flat: bool,
    pub seed: u64,
}

/// Why there is no job.
#[derive(Clone, Copy, Debug, PartialEq, Eq, Drop, thiserror::Error)]
pub enum WordStop {
    #[error("the words ask for no job")]
    Words,
    #[error("no memory")]
    NoMemory,
}

static COMMANDS: [&str; 5] = ["verilog", "sim", "both", "stat", "gen"];

fn workers_parser<'a>() -> ValueParser<'a>
    ensures { result ≡ vp.Unsigned 1 64 }
{
    clap::value_parser!(u64).range(1..=64)
}

fn seed_parser<'a>() -> ValueParser<'a>
    ensures { result ≡ vp.Unsigned 0 18446744073709551615 }
{
    clap::value_parser!(u64)
}

fn command_arg<'a>(alloc: Global) -> Arg<'a>
    ensures rule { IsCommandRule (rule_of result) }
    ensures local { result.global ≡ false }
{
    Arg::new(alloc, "command")
        .required(true)
        .value_parser(COMMANDS.as_slice())
}

fn option_arg<'a>(alloc: Global, id: &'a str, parser: ValueParser<'a>, default: &'a str) -> Arg<'a>
    ensures rule { rule_of result ≡ option_rule id.entry.now parser.entry default.entry.now }
    ensures local { result.global ≡ false }
{
    Arg::new(alloc, id)
        .long(id)
        .value_parser(parser)
        .default_value(default)
}

fn flat_arg<'a>(alloc: Global) -> Arg<'a>
    ensures rule { rule_of result ≡ flat_rule }
    ensures local { result.global ≡ false }
{
    Arg::new(alloc, "flat")
        .long("flat")
        .action(ArgAction::SetTrue)
}

/// The command of the program as clap has it. By clap's own definition it takes each list of words that asks for a job, and
/// its matches have the values of the job.
pub fn clap_command<'a>(alloc: Global) -> Result<Command<'a>, AllocError>
    ensures program { IfOk result (λ c. IsProgram (app_of c)) }
    ensures takes { IfOk result (λ c. (words : List (List ℕ)) (job : Job) → IsJob words job → takes (app_of c) words ≡ true) }
    ensures values { IfOk result (λ c. (words : List (List ℕ)) (job : Job) → IsJob words job → HasJob (matches_of (app_of c) words) job) }
{
    let command = command_arg(alloc);
    let workers = option_arg(alloc, "workers", workers_parser(), "1");
    let seed = option_arg(alloc, "seed", seed_parser(), "0");
    let flat = flat_arg(alloc);
    let program = Command::new(alloc, "hardcaml")
        .no_binary_name(true)
        .arg(command)?
        .arg(workers)?
        .arg(seed)?
        .arg(flat)?;
    Ok(program)
}

/// The matches of words that have the form.
fn parsed<'a>(alloc: Global, words: &'a [String]) -> Result<ArgMatches<'a>, Error>
    requires { HasForm (map string_bytes words.now) }
    ensures ok { IfOk result (ReadsItems (map string_bytes words.now)) }
    ensures err { IfErr result (λ e. kind_of e ≡ ErrorKind.OutOfMemory) }
{
    let program = clap_command(alloc)?;
    program.try_get_matches_from(words)
}

/// The command with a name.
fn verb_of(name: &str) -> Option<Verb>
    requires { is_command name.now ≡ true }
    ensures { option_map name_of result ≡ Some name.now }
{
    match name {
        "verilog" => Some(Verb::Verilog),
        "sim" => Some(Verb::Sim),
        "both" => Some(Verb::Both),
        "stat" => Some(Verb::Stat),
        "gen" => Some(Verb::Gen),
        _ => None,
    }
}

/// The job of lawful matches.
fn job_of(matches: &ArgMatches) -> Job
    requires { AreLawful matches.now }
    ensures verb { first_value (found_of matches.now) (codes "command") ≡ Some (name_of result.verb) }
    ensures workers { option_map (digits_value 10) (one_text (found_of matches.now) (codes "workers")) ≡ Some result.workers }
    ensures set { one_text (found_of matches.now) (codes "flat") ≡ Some (codes "true") → result.flat ≡ true }
    ensures unset { one_text (found_of matches.now) (codes "flat") ≡ Some (codes "false") → result.flat ≡ false }
    ensures seed { option_map (digits_value 10) (one_text (found_of matches.now) (codes "seed")) ≡ Some result.seed }
{
    let verb = match matches.get_str("command") {
        Some(name) => verb_of(name).unwrap_or(Verb::Verilog),
        None => Verb::Verilog,
    };
    let workers = matches.get_one::<u32>("workers").unwrap_or(1);
    let seed = matches.get_one::<u64>("seed").unwrap_or(0);
    let flat = matches.get_flag("flat");
    Job {
        verb,
        workers,
        flat,
        seed,
    }
}

/// The job that the words ask for. `Words` comes exactly where they ask for none.
pub fn read_words(alloc: Global, words: &[String]) -> Result<Job, WordStop>
    ensures ok { IfOk result (IsJob (map string_bytes words.now)) }
    ensures err { IfErr result (λ e. e ≡ WordStop.Words → HasNoJob (map string_bytes words.now)) }
    ensures none { HasNoJob (map string_bytes words.now) → IsErrAnd result (λ e. e ≡ WordStop.Words) }
{
    if !has_form(words) {
        return Err(WordStop::Words);
    }
    match parsed(alloc, words) {
        Ok(matches) => Ok(job_of(&matches)),
        Err(_) => Err(WordStop::NoMemory),
    }
}

/// A list of words asks for at most one job.
pub fn one_job()
    ensures { (words : List (List ℕ)) (a b : Job) → IsJob words a → IsJob words b → a ≡ b }
{}
