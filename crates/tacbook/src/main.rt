// Reads a script from standard input, runs it through the book, and prints the answers and the roll.
#![tactic(auto)]

mod help;

use anyhow::anyhow;
use help::HELP;
use office::serve_script;
use std::env;
use std::io::Write;

// What the program is asked to do.
#[derive(Drop)]
enum Task {
    Help,
    Run { archive: Option<String> },
    Unknown,
}

// The task that the arguments name.
fn asked(rt: &HostRuntime) -> anyhow::Result<Task> {
    let mut words = env::args(rt)?.skip(1);
    let Some(word) = words.next() else {
        return Ok(Task::Run { archive: None });
    };
    let file = words.next();
    if words.next().is_some() {
        return Ok(Task::Unknown);
    }
    match (word.as_str(), file) {
        ("--help", None) => Ok(Task::Help),
        ("--archive", Some(file)) => Ok(Task::Run {
            archive: Some(file),
        }),
        _ => Ok(Task::Unknown),
    }
}

fn main(rt: HostRuntime) -> anyhow::Result<()> {
    match asked(&rt)? {
        Task::Help => Ok(rt.stdout().write_all(HELP.as_bytes())?),
        Task::Run { archive } => serve_script(&rt, archive),
        Task::Unknown => {
            eprintln!(rt; "tacbook [--archive FILE] < SCRIPT, or tacbook --help")?;
            Err(anyhow!("unknown arguments"))
        }
    }
}
