// Tries the check of images on lists of cases. A case is a line: the leaf kind, the expected answer, the bytes in hexadecimal.
#![tactic(auto)]

use anyhow::{Result, bail};
use cells::Cell;
use cells::leaves::LeafKind;
use images::{cell_of, check, diagnose, hand_of, same};
use kinds::instructions::Instruction;
use kinds::points::Point;
use std::alloc::Global;
use std::process::ExitCode;
use std::{env, fs};
use texts::hex::digit_value;

// The bytes of a text in hexadecimal.
fn bytes_of(heap: Global, text: &str) -> Result<Vec<u8>> {
    let mut bytes = Vec::new(heap);
    for pair in text.as_bytes().chunks_exact(2) {
        let [high, low] = pair else {
            bail!("no pair of digits");
        };
        let high = digit_value(*high).unwrap_or(0);
        let low = digit_value(*low).unwrap_or(0);
        bytes.push(high.wrapping_mul(16).wrapping_add(low))?;
    }
    Ok(bytes)
}

// Whether each hand and each of the cells of an image can be read, and no more cells than these.
fn reads<V: LeafKind>(image: &[u8], count: u16) -> bool {
    (0..16).all(|i| hand_of(image, i).is_some())
        && (0..count).all(|j| {
            matches!(
                cell_of::<V>(image, j),
                Some(Cell::Pair { .. } | Cell::Leaf(_))
            )
        })
        && hand_of(image, 16).is_none()
        && cell_of::<V>(image, count).is_none()
}

// The answer to a case, and what is wrong with the bytes.
fn answer<V: LeafKind>(heap: Global, image: &[u8]) -> Result<(String, String)> {
    match check::<V>(image) {
        Ok(count) => {
            let whole = reads::<V>(image, count);
            let equal = same::<V>(image, image) == Ok(true);
            let how = if whole && equal { "read" } else { "not read" };
            Ok((
                format!(in heap; "cells-{count}")?,
                format!(in heap; "{how}")?,
            ))
        }
        Err(cause) => {
            let number = cause.number();
            let why = match diagnose::<V>(image) {
                Some(fault) => format!(in heap; "{fault}")?,
                None => format!(in heap; "no fault")?,
            };
            Ok((format!(in heap; "refused-{number}")?, why))
        }
    }
}

// Prints the answer to a case, and says whether it is the expected one.
fn trial(rt: &HostRuntime, n: usize, line: &str) -> Result<bool> {
    let heap = rt.alloc();
    let words: Vec<&str> = line.split_whitespace().collect(heap)?;
    let [kind, expected, text] = words.as_slice() else {
        bail!("line {n} is no case");
    };
    let bytes = bytes_of(heap, text)?;
    let (got, why) = match *kind {
        "point" => answer::<Point>(heap, bytes.as_slice())?,
        "instruction" => answer::<Instruction>(heap, bytes.as_slice())?,
        _ => bail!("line {n} has no leaf kind"),
    };
    let agrees = got.as_str() == *expected;
    let mark = if agrees { "" } else { ", NOT AS EXPECTED" };
    let _ = println!(rt; "{n} {kind} {got}: {why}{mark}");
    Ok(agrees)
}

fn run(rt: &HostRuntime, name: &str) -> Result<()> {
    let Ok(text) = fs::read_to_string(rt, name) else {
        bail!("{name} cannot be read");
    };
    let mut agreed: usize = 0;
    let mut tried: usize = 0;
    for line in text.lines() {
        tried = tried.saturating_add(1);
        if trial(rt, tried, line)? {
            agreed = agreed.saturating_add(1);
        }
    }
    let _ = println!(rt; "{name}: {agreed} of {tried} cases as expected");
    Ok(())
}

fn run_all(rt: &HostRuntime) -> Result<()> {
    let Ok(words) = env::args(rt) else {
        bail!("the words of the command cannot be read");
    };
    let args: Vec<String> = words.collect(rt.alloc())?;
    let [_, names @ ..] = args.as_slice() else {
        bail!("the program has no name");
    };
    for name in names {
        run(rt, name.as_str())?;
    }
    Ok(())
}

// The status alone tells of an end before the last case.
fn main(rt: HostRuntime) -> ExitCode {
    match run_all(&rt) {
        Ok(()) => ExitCode::SUCCESS,
        Err(_) => ExitCode::FAILURE,
    }
}
