// A script from standard input, its answers on standard output.
use crate::session::{Session, hold};
use anyhow::{Context, bail};
use script::read_script;
use std::fs;
use std::io::{Read, Write};

// Runs the script, and keeps the archive if a file is named for it. An error ends the program with status 1.
pub fn serve_script(rt: &HostRuntime, file: Option<String>) -> anyhow::Result<()> {
    let mut bytes = Vec::new(rt.alloc());
    rt.stdin().read_to_end(&mut bytes)?;
    let script = match read_script(rt.alloc(), &bytes) {
        Ok(script) => script,
        Err(unread) => {
            eprintln!(rt; "{unread}")?;
            bail!("the script cannot be read");
        }
    };
    let Session { text, archive } = hold(rt.alloc(), &script)?;
    rt.stdout().write_all(text.as_bytes())?;
    let archive = archive.context("the set-up is refused")?;
    if let Some(file) = file {
        fs::write(rt, file.as_str(), archive.as_slice())?;
    }
    Ok(())
}
