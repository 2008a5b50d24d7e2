// Makes the commands of a text, one to a line, as the program makes them, and prints the status of each.
#![tactic(auto)]

use std::alloc::AllocError;
use std::fs;

// The words of a command, the program's name first.
fn words_of(rt: &HostRuntime, line: &str) -> Result<Vec<String>, AllocError> {
    let mut args = Vec::new(rt.alloc());
    args.push(String::from_str(rt.alloc(), "cellstore")?)?;
    for word in line.split_whitespace() {
        args.push(String::from_str(rt.alloc(), word)?)?;
    }
    Ok(args)
}

fn run(rt: &HostRuntime) -> anyhow::Result<()> {
    let text = fs::read_to_string(rt, "commands.txt")?;
    for line in text.lines() {
        println!(rt; "$ cellstore {line}")?;
        let args = words_of(rt, line)?;
        match commands::run(rt, args.as_slice()) {
            Ok(()) => println!(rt; "status 0")?,
            Err(_) => println!(rt; "status 1")?,
        }
    }
    Ok(())
}

fn main(rt: HostRuntime) -> anyhow::Result<()> {
    run(&rt)
}
