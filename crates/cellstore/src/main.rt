// The program: it reads and compares what a bench stores.
#![tactic(auto)]

use commands::Ended;
use std::env;
use std::process::ExitCode;

fn run(rt: &HostRuntime) -> Result<(), Ended> {
    let words = env::args(rt).map_err(|_| Ended::Wrong)?;
    let args: Vec<String> = words.collect(rt.alloc())?;
    commands::run(rt, args.as_slice())
}

// What there is to say was said before, so that the status alone is left.
fn main(rt: HostRuntime) -> ExitCode {
    match run(&rt) {
        Ok(()) => ExitCode::SUCCESS,
        Err(_) => ExitCode::FAILURE,
    }
}
