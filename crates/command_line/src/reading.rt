//! The tasks that the words of the command line ask for.
ghost use Rattle.std.specs.Prelude.{◌≡◌, ◌<◌, [], ◌∷◌, Some, map, codes, string_bytes, length};
ghost use Rattle.std.specs.Prelude.{position, IfOk, IfSome, MatchResult, option_map};
ghost use Rattle.std.specs.Str.{bytes_eq};
ghost use Rattle.clap.specs.Simple.{subcommand_rows_of};
ghost use Rattle.clap.specs.declared.error.kind.ErrorKind.TheVariants.{InvalidValue};
ghost use Rattle.command_line.specs.Requests.{request_of, request_of_used, request_in};
ghost use Rattle.command_line.specs.Requests.{parts, parts_left};
ghost use Rattle.command_line.specs.Refusals.{faults_in, first_faults};
ghost use Rattle.command_line.specs.Refusals.{SaysKind, SaysNoValue, SaysOne};

use crate::command::departures;
use crate::matches::task_by;
use crate::refusal::{NoTask, no_clock, no_store, refused};
use clap::ArgMatches;
use std::alloc::Global;
use tasks::{StoreKind, Task};

// What is said where the values of options ask for no task: the store is looked at first.
fn no_task(alloc: Global, matches: &ArgMatches<'_>) -> NoTask
    ensures { SaysKind InvalidValue result }
{
    let store = matches.get_str("store").unwrap_or("");
    match StoreKind::named(store) {
        Some(_) => no_clock(alloc, matches.get_str("at").unwrap_or("")),
        None => no_store(alloc, store),
    }
}

// The task that matches ask for.
fn matched<'a>(alloc: Global, matches: &ArgMatches<'a>) -> Result<Task<'a>, NoTask>
    ensures { MatchResult result
        (λ task. request_of_used (subcommand_rows_of matches.now) ≡ Some (request_of task))
        (SaysNoValue (request_of_used (subcommand_rows_of matches.now))) }
{
    let Some((name, own)) = matches.subcommand() else {
        return Err(no_store(alloc, ""));
    };
    match task_by(alloc, name, own)? {
        Some(task) => Ok(task),
        None => Err(no_task(alloc, own)),
    }
}

// The task that the words of one task ask for.
fn task_in<'a>(alloc: Global, words: &'a [String]) -> Result<Task<'a>, NoTask>
    ensures task { IfOk result (λ task.
        request_in (map string_bytes words.entry.now) ≡ Some (request_of task)) }
    ensures refused { MatchResult result
        (λ _. faults_in (map string_bytes words.entry.now) ≡ [])
        (SaysOne (faults_in (map string_bytes words.entry.now))) }
{
    match departures(alloc)?.try_get_matches_from(words) {
        Ok(matches) => matched(alloc, &matches),
        Err(error) => Err(refused(alloc, &error)),
    }
}

// The place of the first `--`.
fn dashes_in(words: &[String]) -> Option<usize>
    ensures { result ≡ position (λ word. bytes_eq (string_bytes word) (codes "--")) words.now }
{
    words.iter().position(|word| word.as_str() == "--")
}

// The words before the first `--`, and those behind it where there is one.
fn first_part(words: &[String]) -> (&[String], Option<&[String]>)
    ensures parts { parts (map string_bytes words.now)
        ≡ map string_bytes result.0.now
        ∷ parts_left (option_map (λ rest. map string_bytes rest.now) result.1) }
    ensures shorter { IfSome result.1 (λ rest. length rest.now < length words.now) }
{
    match dashes_in(words) {
        Some(n) => (&words[..n], Some(&words[n + 1..])),
        None => (words, None),
    }
}

/// The tasks that words ask for, with the word `--` between two. Where the words of a task ask for
/// none, or for help or the version, that is said in place of all.
pub fn tasks_in<'a>(alloc: Global, words: &'a [String]) -> Result<Vec<Task<'a>>, NoTask>
    ensures tasks { IfOk result (λ tasks.
        map (λ task. Some (request_of task)) tasks.items
        ≡ map request_in (parts (map string_bytes words.entry.now))) }
    ensures refused { MatchResult result
        (λ _. first_faults (parts (map string_bytes words.entry.now)) ≡ [])
        (SaysOne (first_faults (parts (map string_bytes words.entry.now)))) }
{
    let mut tasks = Vec::new(alloc);
    let mut rest = Some(words);
    while let Some(left) = rest {
        let (first, others) = first_part(left);
        tasks.push(task_in(alloc, first)?)?;
        rest = others;
    }
    Ok(tasks)
}
