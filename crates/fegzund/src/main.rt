// Lists what a recorded Arrow stream holds.
#![tactic(auto)]

mod inspect;
mod lines;
mod listing;
mod options;
mod text;

use crate::inspect::inspect;
use crate::options::{Command, HELP, parse};
use std::env;
use std::process::ExitCode;
use std::rt::{Env, Files};

fn run<R: Env + Files + Input + Print + AllocGlobal>(rt: &R) -> anyhow::Result<ExitCode> {
    match parse(env::args(rt)?)? {
        Command::Help => {
            rt.write_all(HELP.as_bytes())?;
            Ok(ExitCode::SUCCESS)
        }
        Command::Inspect(options) => Ok(inspect(rt, &options)?.into()),
    }
}

// What is wrong has been said where the status is no success.
fn main(rt: HostRuntime) -> ExitCode {
    match run(&rt) {
        Ok(status) => status,
        Err(e) => {
            let _ = eprintln!(rt; "fegzund: {e}");
            ExitCode::FAILURE
        }
    }
}
