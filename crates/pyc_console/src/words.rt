//! The words of the command line.

ghost use Rattle.std.specs.Prelude.{◌≡◌, [], false, IfOk, IfErr, All, bytes_eq, codes, drop, map, string_bytes};
ghost use Rattle.std.specs.Prelude.{unwrap_or};
ghost use Rattle.clap.specs.Words.{all_of, app_of, fault_of, rule_of, found_of, one_of, rows_of, subcommand_of};
ghost use Rattle.clap.specs.Words.{FailsBy};
ghost use Rattle.pyc_console.specs.Words.{GivesSession, HasFiles, HasUsage, IsFlag, file_texts, files_id};
ghost use Rattle.pyc_console.specs.Words.{files_rule, is_check, names_check, optioned_app, session_rows};
ghost use Rattle.pyc_console.specs.Words.{command_line, flag_rule, option_text, ignore_missing_id};
ghost use Rattle.pyc_console.specs.Words.{check_untyped_id, options_of};

use clap::{Arg, ArgAction, ArgMatches, Command};
use pyc_iface::{Options, TURNS};
use std::alloc::{AllocError, Global};
use thiserror::Error;

const IGNORE_MISSING: &str = "ignore-missing-imports";

const CHECK_UNTYPED: &str = "check-untyped-defs";

const FILES: &str = "FILE";

/// What the program is to do.
#[derive(Debug, PartialEq, Eq, Drop)]
pub enum Job {
    /// `session`: answer the commands on standard input.
    Session(Options),
    /// `check`: check the files of these paths, in this order.
    Check(Options, Vec<String>),
}

/// Why the words are no job: a mistake in them, a request for help, or want of memory. Its `Display` is the text for
/// the user, with its line end.
#[derive(Debug, Drop, Error)]
#[error(transparent)]
pub struct Usage(clap::Error);

/// What the words of the command line ask for. The first word is the program's name.
pub fn read_words(alloc: Global, words: &[String]) -> Result<Job, Usage>
    // After the program's name: `session`, with either option, with both in either order, or with none.
    ensures sessions { All (λ row. drop 1 (map string_bytes words.now) ≡ row.0 → GivesSession row.1 result)
        session_rows }
    // Words are a job only where the command line takes them, and an option is set where it is among them.
    ensures taken { IfOk result (λ _. fault_of command_line (map string_bytes words.now) ≡ []) }
    ensures turns { IfOk result (λ job. (options_of job).turns ≡ TURNS) }
    ensures ignore_missing { IfOk result (λ job.
        IsFlag (option_text ignore_missing_id (map string_bytes words.now)) (options_of job).ignore_missing) }
    ensures check_untyped { IfOk result (λ job.
        IsFlag (option_text check_untyped_id (map string_bytes words.now)) (options_of job).check_untyped) }
    // The job is a check where the subcommand is `check`, of the files that are among the words.
    ensures check { IfOk result
        (λ job. is_check job ≡ names_check (subcommand_of command_line (map string_bytes words.now))) }
    ensures files { IfOk result (HasFiles (file_texts (map string_bytes words.now))) }
    // What goes wrong is what the command line finds wrong with the words, or want of memory.
    ensures usage { IfErr result (HasUsage (fault_of command_line (map string_bytes words.now))) }
{
    match parse_words(alloc, words) {
        Ok(job) => Ok(job),
        Err(error) => Err(Usage(error)),
    }
}

// What the words of the command line ask for, or clap's own error.
fn parse_words(alloc: Global, words: &[String]) -> Result<Job, clap::Error>
    ensures turns { IfOk result (λ job. (options_of job).turns ≡ TURNS) }
    ensures ignore_missing { IfOk result (λ job.
        IsFlag (option_text ignore_missing_id (map string_bytes words.now)) (options_of job).ignore_missing) }
    ensures check_untyped { IfOk result (λ job.
        IsFlag (option_text check_untyped_id (map string_bytes words.now)) (options_of job).check_untyped) }
    ensures check { IfOk result
        (λ job. is_check job ≡ names_check (subcommand_of command_line (map string_bytes words.now))) }
    ensures files { IfOk result (HasFiles (file_texts (map string_bytes words.now))) }
    ensures fault { FailsBy (fault_of command_line (map string_bytes words.now)) result }
{
    let matches = command_line(alloc)?.try_get_matches_from(words)?;
    let (name, found) = matches.subcommand().unwrap();
    Ok(job_of(alloc, name, found)?)
}

// The job of a subcommand, from its name and its matches.
fn job_of(alloc: Global, name: &str, found: &ArgMatches<'_>) -> Result<Job, AllocError>
    ensures turns { IfOk result (λ job. (options_of job).turns ≡ TURNS) }
    ensures ignore_missing { IfOk result
        (λ job. IsFlag (one_of ignore_missing_id (rows_of (found_of found.now))) (options_of job).ignore_missing) }
    ensures check_untyped { IfOk result
        (λ job. IsFlag (one_of check_untyped_id (rows_of (found_of found.now))) (options_of job).check_untyped) }
    ensures check { IfOk result (λ job. is_check job ≡ bytes_eq name.now (codes "check")) }
    ensures files { IfOk result (HasFiles (all_of files_id (rows_of (found_of found.now)))) }
{
    let options = found_options(found);
    if name == "check" {
        Ok(Job::Check(options, found_files(alloc, found)?))
    } else {
        Ok(Job::Session(options))
    }
}

// The files among the matches of `check`.
fn found_files(alloc: Global, found: &ArgMatches<'_>) -> Result<Vec<String>, AllocError>
    ensures { IfOk result (λ files. map string_bytes files.items
        ≡ unwrap_or (all_of files_id (rows_of (found_of found.now))) []) }
{
    match found.get_strs(FILES) {
        Some(words) => owned(alloc, words),
        None => Ok(Vec::new(alloc)),
    }
}

// Copies of texts.
fn owned(alloc: Global, texts: &[&str]) -> Result<Vec<String>, AllocError>
    ensures { IfOk result (λ copies. map string_bytes copies.items ≡ map (λ text. text.now) texts.now) }
{
    let mut copies = Vec::new(alloc);
    for text in texts {
        copies.push(String::from_str(alloc, text)?)?;
    }
    Ok(copies)
}

// The command line: `session` with its options, and `check` with the same options and its files.
fn command_line<'a>(alloc: Global) -> Result<Command<'a>, AllocError>
    ensures { IfOk result (λ command. app_of command ≡ command_line) }
{
    let session = subcommand(alloc, "session", "Answers the commands on standard input")?;
    let check = subcommand(alloc, "check", "Checks files once")?.arg(files(alloc))?;
    Command::new(alloc, "dmypy")
        .about("Checks annotated Python files")
        .subcommand_required(true)
        .subcommand(session)?
        .subcommand(check)
}

// A subcommand with the two options.
fn subcommand<'a>(alloc: Global, name: &'a str, about: &'a str) -> Result<Command<'a>, AllocError>
    ensures { IfOk result (λ command. app_of command ≡ optioned_app name.entry.now) }
{
    Command::new(alloc, name)
        .about(about)
        .arg(flag(
            alloc,
            IGNORE_MISSING,
            "Leaves out errors about imports that are not found",
        ))?
        .arg(flag(
            alloc,
            CHECK_UNTYPED,
            "Checks the bodies of functions without annotations",
        ))
}

// An option that is given or not.
fn flag<'a>(alloc: Global, name: &'a str, help: &'a str) -> Arg<'a>
    ensures rule { rule_of result ≡ flag_rule name.entry.now }
    ensures local { result.global ≡ false }
{
    Arg::new(alloc, name)
        .long(name)
        .help(help)
        .action(ArgAction::SetTrue)
}

// One or more files.
fn files<'a>(alloc: Global) -> Arg<'a>
    ensures rule { rule_of result ≡ files_rule }
    ensures local { result.global ≡ false }
{
    Arg::new(alloc, FILES)
        .help("The paths of the files")
        .action(ArgAction::Append)
        .required(true)
}

// The options, from the matches of the subcommand.
fn found_options(found: &ArgMatches<'_>) -> Options
    ensures turns { result.turns ≡ TURNS }
    ensures ignore_missing { IsFlag (one_of ignore_missing_id (rows_of (found_of found.now))) result.ignore_missing }
    ensures check_untyped { IsFlag (one_of check_untyped_id (rows_of (found_of found.now))) result.check_untyped }
{
    Options {
        ignore_missing: found.get_flag(IGNORE_MISSING),
        check_untyped: found.get_flag(CHECK_UNTYPED),
        turns: TURNS,
    }
}
