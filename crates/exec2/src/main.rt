// The program: its words, the file that they name, and what it writes.
#![tactic(auto)]

use console::{Answer, HELP, check, list, meaning, orders};
use std::alloc::{AllocError, Global};
use std::io::{Read, Write};
use std::process::ExitCode;
use std::{env, fs};

// What the program is asked to do.
#[derive(Clone, Copy)]
enum Task<'a> {
    Check(&'a str),
    List(&'a str),
    Orders,
    Help,
}

fn asked(words: &[String]) -> Option<Task<'_>> {
    match words {
        [word] => match word.as_str() {
            "orders" => Some(Task::Orders),
            "help" => Some(Task::Help),
            _ => None,
        },
        [word, path] => match word.as_str() {
            "check" => Some(Task::Check(path.as_str())),
            "list" => Some(Task::List(path.as_str())),
            _ => None,
        },
        _ => None,
    }
}

// Writes an answer; a refusal is put in words too, and fails.
fn show(rt: &HostRuntime, path: &str, answer: Answer) -> anyhow::Result<ExitCode> {
    rt.stdout().write_all(answer.text.as_slice())?;
    let Some(refusal) = answer.refusal else {
        return Ok(ExitCode::SUCCESS);
    };
    let meaning = meaning(refusal);
    match refusal.line() {
        Some(line) => eprintln!(rt; "exec2: {path}: line {line}: {meaning}")?,
        None => eprintln!(rt; "exec2: {path}: {meaning}")?,
    }
    Ok(ExitCode::FAILURE)
}

// Shows what `answer` says of a file; where it cannot be read, a message that names it.
fn show_file<F: FnOnce(Global, &[u8]) -> Result<Answer, AllocError>>(
    rt: &HostRuntime,
    path: &str,
    answer: F,
) -> anyhow::Result<ExitCode>
    requires { F.IsAlwaysCallable answer }
{
    match fs::read(rt, path) {
        Ok(bytes) => show(rt, path, answer(rt.alloc(), bytes.as_slice())?),
        Err(error) => {
            eprintln!(rt; "exec2: cannot read {path}: {error}")?;
            Ok(ExitCode::FAILURE)
        }
    }
}

// Orders from standard input, each with its code, and then the board.
fn play_orders(rt: &HostRuntime) -> anyhow::Result<ExitCode> {
    let mut input = Vec::new(rt.alloc());
    rt.stdin().read_to_end(&mut input)?;
    let text = orders(rt.alloc(), input.as_slice())?;
    rt.stdout().write_all(text.as_slice())?;
    Ok(ExitCode::SUCCESS)
}

fn run(rt: &HostRuntime, task: Option<Task<'_>>) -> anyhow::Result<ExitCode> {
    match task {
        // Closures: a function of another crate that is passed by name is not covered by a proof.
        Some(Task::Check(path)) => show_file(rt, path, |heap, source| check(heap, source)),
        Some(Task::List(path)) => show_file(rt, path, |heap, source| list(heap, source)),
        Some(Task::Orders) => play_orders(rt),
        Some(Task::Help) => {
            print!(rt; "{HELP}")?;
            Ok(ExitCode::SUCCESS)
        }
        None => {
            eprint!(rt; "{HELP}")?;
            Ok(ExitCode::FAILURE)
        }
    }
}

fn main(rt: HostRuntime) -> anyhow::Result<ExitCode> {
    let words: Vec<String> = env::args(&rt)?.skip(1).collect(rt.alloc())?;
    run(&rt, asked(words.as_slice()))
}
