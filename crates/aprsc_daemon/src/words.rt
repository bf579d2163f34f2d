//! The words that the program is started with, read by `clap`.
ghost use Rattle.std.specs.Prelude.{◌≡◌, ◌≢◌, ◌≤◌, ◌<◌, ◌^◌, [], None, Some, IfOk, IsErrOf, OnOk, codes, drop, false, map, string_bytes, true, unwrap_or};
ghost use Rattle.std.specs.Option.{option_map_or};
ghost use Rattle.clap.specs.Words.{app_of, fault_of, first_value, found_of, is_simple, is_simple_and_free, matches_of, one_text, rows_of, rule_of};
ghost use Rattle.aprsc_daemon.specs.Asked.{AskFor, AskNothing, IsBounded};
ghost use Rattle.aprsc_daemon.specs.Words.{asked_of, bare_app, begins_with, check_rule, drill_app, drill_in, drill_said_by, file_rule, is_small, names_mode, net_app, net_in, net_said_by, number_in, number_rule, said_by, script_rule, server_app, task_of, workers_rule};

use clap::builder::ValueParser;
use clap::error::ErrorKind;
use clap::{Arg, ArgAction, ArgMatches, Command};
use drill_plan::Plan;
use std::alloc::{AllocError, Global};
use std::marker::Model;

/// What is to be done with a configuration.
#[derive(Clone, Copy, PartialEq, Eq, Debug)]
pub enum Task {
    /// The server runs by it.
    Serve,
    /// It is read and nothing else.
    Check,
}

/// What the words ask of the server.
#[derive(Drop)]
pub struct ServerWords<'a> {
    /// The name of the file that holds the configuration.
    pub file: &'a str,
    /// The most workers, from 1 to 64.
    pub workers: u32,
    pub task: Task,
}

impl<'a> Model for ServerWords<'a> {
    ghost use Rattle.aprsc_daemon.specs.Words.{ServerWordsSeen};

    ghost Value = { ServerWordsSeen };

    ghost view = { λ w. record { file = w.file.now; workers = w.workers; task = w.task } };
}

/// What the words ask of a drill.
#[derive(Clone, Copy)]
pub struct DrillWords {
    pub plan: Plan,
    /// The most workers, from 1 to 64.
    pub workers: u32,
}

/// What the words ask of a network.
#[derive(Drop)]
pub struct NetWords<'a> {
    /// The name of the file that holds the script.
    pub file: &'a str,
}

impl<'a> Model for NetWords<'a> {
    ghost use Rattle.aprsc_daemon.specs.Words.{NetWordsSeen};

    ghost Value = { NetWordsSeen };

    ghost view = { λ w. record { file = w.file.now } };
}

/// What the words ask for.
#[derive(Drop)]
pub enum Words<'a> {
    Server(ServerWords<'a>),
    Drill(DrillWords),
    Net(NetWords<'a>),
}

/// Why the words ask for nothing.
#[derive(Clone, Copy)]
pub enum WordsError {
    /// They are no words of the program.
    Refused,
    Memory,
}

#[tactic(auto, unfolding(crate::specs::Words::file_rule))]
fn file_arg<'a>(alloc: Global) -> Arg<'a>
    ensures rule { rule_of result ≡ file_rule }
    ensures local { result.global ≡ false }
{
    Arg::new(alloc, "file")
        .short('c')
        .action(ArgAction::Set)
        .required(true)
}

#[tactic(auto, unfolding(crate::specs::Words::workers_rule))]
fn workers_arg<'a>(alloc: Global) -> Arg<'a>
    ensures rule { rule_of result ≡ workers_rule }
    ensures local { result.global ≡ false }
{
    Arg::new(alloc, "workers")
        .short('w')
        .action(ArgAction::Set)
        .value_parser(ValueParser::unsigned(1, 64))
        .default_value("1")
}

#[tactic(auto, unfolding(crate::specs::Words::check_rule))]
fn check_arg<'a>(alloc: Global) -> Arg<'a>
    ensures rule { rule_of result ≡ check_rule }
    ensures local { result.global ≡ false }
{
    Arg::new(alloc, "check")
        .short('y')
        .action(ArgAction::SetTrue)
}

/// A whole number in a range, as a word of its own.
#[tactic(auto, unfolding(crate::specs::Words::number_rule))]
fn number_arg<'a>(alloc: Global, id: &'a str, low: u64, high: u64) -> Arg<'a>
    ensures rule { rule_of result ≡ number_rule id.entry.now low high }
    ensures local { result.global ≡ false }
{
    Arg::new(alloc, id)
        .action(ArgAction::Set)
        .required(true)
        .value_parser(ValueParser::unsigned(low, high))
}

/// The name of a file, as a word of its own.
#[tactic(auto, unfolding(crate::specs::Words::script_rule))]
fn script_arg<'a>(alloc: Global) -> Arg<'a>
    ensures rule { rule_of result ≡ script_rule }
    ensures local { result.global ≡ false }
{
    Arg::new(alloc, "file")
        .action(ArgAction::Set)
        .required(true)
}

#[tactic(auto, unfolding(crate::specs::Words::bare_app))]
fn bare_command<'a>(alloc: Global) -> Command<'a>
    ensures { app_of result ≡ bare_app }
{
    Command::new(alloc, "aprsc")
        .no_binary_name(true)
        .disable_help_flag(true)
        .disable_version_flag(true)
}

fn server_command<'a>(alloc: Global) -> Result<Command<'a>, AllocError>
    ensures { IfOk result (λ command. app_of command ≡ server_app) }
{
    bare_command(alloc)
        .arg(file_arg(alloc))?
        .arg(workers_arg(alloc))?
        .arg(check_arg(alloc))
}

fn drill_command<'a>(alloc: Global) -> Result<Command<'a>, AllocError>
    ensures { IfOk result (λ command. app_of command ≡ drill_app) }
{
    bare_command(alloc)
        .arg(number_arg(alloc, "seed", 0, 2_147_483_647))?
        .arg(number_arg(alloc, "lines", 1, 100_000))?
        .arg(number_arg(alloc, "links", 2, 1000))?
        .arg(workers_arg(alloc))
}

fn net_command<'a>(alloc: Global) -> Result<Command<'a>, AllocError>
    ensures { IfOk result (λ command. app_of command ≡ net_app) }
{
    bare_command(alloc).arg(script_arg(alloc))
}

/// What a command finds in the words.
fn matches_by<'a>(command: Command<'a>, words: &'a [String]) -> Result<ArgMatches<'a>, WordsError>
    requires simple { is_simple (app_of command) ≡ true }
    requires free { is_simple_and_free (app_of command) ≡ true }
    ensures good { OnOk result (fault_of (app_of command.entry) (map string_bytes words.entry.now) ≡ []) }
    ensures rows { IfOk result (λ m. rows_of (found_of m) ≡ matches_of (app_of command.entry) (map string_bytes words.entry.now)) }
    ensures refused { IsErrOf result WordsError.Refused → fault_of (app_of command.entry) (map string_bytes words.entry.now) ≢ [] }
{
    match command.try_get_matches_from(words) {
        Ok(matches) => Ok(matches),
        Err(error) if error.kind() == ErrorKind::OutOfMemory => Err(WordsError::Memory),
        Err(_) => Err(WordsError::Refused),
    }
}

/// What the server's command finds in the words.
#[tactic(auto, unfolding(crate::specs::Words::bare_app, crate::specs::Words::file_rule, crate::specs::Words::workers_rule, crate::specs::Words::check_rule))]
fn server_matches<'a>(alloc: Global, words: &'a [String]) -> Result<ArgMatches<'a>, WordsError>
    ensures good { OnOk result (fault_of server_app (map string_bytes words.entry.now) ≡ []) }
    ensures rows { IfOk result (λ m. rows_of (found_of m) ≡ matches_of server_app (map string_bytes words.entry.now)) }
    ensures refused { IsErrOf result WordsError.Refused → fault_of server_app (map string_bytes words.entry.now) ≢ [] }
{
    match server_command(alloc) {
        Ok(command) => matches_by(command, words),
        Err(_) => Err(WordsError::Memory),
    }
}

/// What the drill's command finds in the words.
#[tactic(auto, unfolding(crate::specs::Words::bare_app, crate::specs::Words::number_rule, crate::specs::Words::workers_rule))]
fn drill_matches<'a>(alloc: Global, words: &'a [String]) -> Result<ArgMatches<'a>, WordsError>
    ensures good { OnOk result (fault_of drill_app (map string_bytes words.entry.now) ≡ []) }
    ensures rows { IfOk result (λ m. rows_of (found_of m) ≡ matches_of drill_app (map string_bytes words.entry.now)) }
    ensures refused { IsErrOf result WordsError.Refused → fault_of drill_app (map string_bytes words.entry.now) ≢ [] }
{
    match drill_command(alloc) {
        Ok(command) => matches_by(command, words),
        Err(_) => Err(WordsError::Memory),
    }
}

/// What the network's command finds in the words.
#[tactic(auto, unfolding(crate::specs::Words::bare_app, crate::specs::Words::script_rule))]
fn net_matches<'a>(alloc: Global, words: &'a [String]) -> Result<ArgMatches<'a>, WordsError>
    ensures good { OnOk result (fault_of net_app (map string_bytes words.entry.now) ≡ []) }
    ensures rows { IfOk result (λ m. rows_of (found_of m) ≡ matches_of net_app (map string_bytes words.entry.now)) }
    ensures refused { IsErrOf result WordsError.Refused → fault_of net_app (map string_bytes words.entry.now) ≢ [] }
{
    match net_command(alloc) {
        Ok(command) => matches_by(command, words),
        Err(_) => Err(WordsError::Memory),
    }
}

/// The file that the words name; the command wants one.
fn file_of<'a>(matches: &ArgMatches<'a>) -> &'a str
    ensures { result.now ≡ unwrap_or (first_value (found_of matches.now) (codes "file")) [] }
{
    matches.get_str("file").unwrap_or("")
}

/// The number that an argument gives, or the least where it isn't given.
fn number_of(matches: &ArgMatches<'_>, id: &str, low: u32, high: u32) -> u32
    requires { low ≤ high }
    ensures value { result ≡ option_map_or (number_in low high) (one_text (found_of matches.now) id.now) low }
    ensures least { low ≤ result }
    ensures most { result ≤ high }
{
    match matches.get_one(id) {
        Some(number) if low <= number && number <= high => number,
        _ => low,
    }
}

/// Whether `-y` is there.
fn task_of(matches: &ArgMatches<'_>) -> Task
    ensures { result ≡ task_of (one_text (found_of matches.now) (codes "check")) }
{
    match matches.get_one("check") {
        Some(true) => Task::Check,
        _ => Task::Serve,
    }
}

/// What the values of the command's arguments say.
fn said_by<'a>(matches: &ArgMatches<'a>) -> ServerWords<'a>
    ensures value { result ≡ said_by (rows_of (found_of matches.now)) }
    ensures least { 1 ≤ result.workers }
    ensures most { result.workers ≤ 64 }
{
    ServerWords {
        file: file_of(matches),
        workers: number_of(matches, "workers", 1, 64),
        task: task_of(matches),
    }
}

/// What the values of the arguments of the drill's command say.
fn drill_said_by(matches: &ArgMatches<'_>) -> DrillWords
    ensures value { result ≡ drill_said_by (rows_of (found_of matches.now)) }
    ensures bounded { IsBounded (Words.Drill result) }
{
    DrillWords {
        plan: Plan {
            seed: number_of(matches, "seed", 0, 2_147_483_647),
            lines: number_of(matches, "lines", 1, 100_000),
            links: number_of(matches, "links", 2, 1000),
        },
        workers: number_of(matches, "workers", 1, 64),
    }
}

/// What the value of the argument of the network's command says.
fn net_said_by<'a>(matches: &ArgMatches<'a>) -> NetWords<'a>
    ensures { result ≡ net_said_by (rows_of (found_of matches.now)) }
{
    NetWords {
        file: file_of(matches),
    }
}

/// Whether a drill isn't too large.
fn is_small(asked: DrillWords) -> bool
    ensures { result ≡ is_small asked }
{
    u64::from(asked.plan.lines) * u64::from(asked.plan.links) <= 4_000_000
}

/// Whether the first word is the name of this mode.
fn begins_with(words: &[String], mode: &str) -> bool
    ensures { result ≡ begins_with mode.now (map string_bytes words.now) }
{
    match words {
        [] => false,
        [first, ..] => first.as_str() == mode,
    }
}

/// The words after the first.
fn later(words: &[String]) -> &[String]
    ensures { map string_bytes result.now ≡ drop 1 (map string_bytes words.now) }
{
    match words {
        [] => words,
        [_, others @ ..] => others,
    }
}

/// What the words ask of the server, where they call for no other mode.
fn read_server<'a>(alloc: Global, words: &'a [String]) -> Result<ServerWords<'a>, WordsError>
    requires { names_mode (map string_bytes words.now) ≡ false }
    ensures value { IfOk result (λ asked. asked_of (map string_bytes words.entry.now) ≡ Some asked) }
    ensures bounded { IfOk result (λ asked. IsBounded (Words.Server asked)) }
    ensures refused { IsErrOf result WordsError.Refused → asked_of (map string_bytes words.entry.now) ≡ None }
{
    match server_matches(alloc, words) {
        Ok(matches) => Ok(said_by(&matches)),
        Err(error) => Err(error),
    }
}

/// What the words after the mode's name ask of a drill.
fn read_drill(alloc: Global, words: &[String]) -> Result<DrillWords, WordsError>
    ensures value { IfOk result (λ asked. drill_in (map string_bytes words.now) ≡ Some asked) }
    ensures bounded { IfOk result (λ asked. IsBounded (Words.Drill asked)) }
    ensures refused { IsErrOf result WordsError.Refused → drill_in (map string_bytes words.now) ≡ None }
{
    match drill_matches(alloc, words) {
        Ok(matches) => {
            let asked = drill_said_by(&matches);
            if is_small(asked) {
                Ok(asked)
            } else {
                Err(WordsError::Refused)
            }
        }
        Err(error) => Err(error),
    }
}

/// What the words after the mode's name ask of a network.
fn read_net<'a>(alloc: Global, words: &'a [String]) -> Result<NetWords<'a>, WordsError>
    ensures value { IfOk result (λ asked. net_in (map string_bytes words.entry.now) ≡ Some asked) }
    ensures refused { IsErrOf result WordsError.Refused → net_in (map string_bytes words.entry.now) ≡ None }
{
    match net_matches(alloc, words) {
        Ok(matches) => Ok(net_said_by(&matches)),
        Err(error) => Err(error),
    }
}

/// What the words ask for. `Refused` comes exactly where they ask for nothing.
pub fn read_words<'a>(alloc: Global, words: &'a [String]) -> Result<Words<'a>, WordsError>
    ensures value { IfOk result (AskFor (map string_bytes words.entry.now)) }
    ensures bounded { IfOk result IsBounded }
    ensures refused { IsErrOf result WordsError.Refused → AskNothing (map string_bytes words.entry.now) }
{
    if begins_with(words, "drill") {
        return match read_drill(alloc, later(words)) {
            Ok(asked) => Ok(Words::Drill(asked)),
            Err(error) => Err(error),
        };
    }
    if begins_with(words, "net") {
        return match read_net(alloc, later(words)) {
            Ok(asked) => Ok(Words::Net(asked)),
            Err(error) => Err(error),
        };
    }
    match read_server(alloc, words) {
        Ok(asked) => Ok(Words::Server(asked)),
        Err(error) => Err(error),
    }
}
