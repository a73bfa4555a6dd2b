//! Compares what the commands print, what is read of sources and what the check says of them with the files in its
//! folder, and what their regions touch with what a plain walk finds.
//! Behind that it prints a run in which each call that met want of memory is made again; by the word `retries`, that alone.
#![tactic(auto)]

mod layers;
mod plain;
mod retries;
mod tally;
mod text;
mod transcripts;
mod trees;

use std::io;
use std::io::Write;
use std::process::ExitCode;

/// Whether all was as it should be. An error is told.
fn is_well<E: Write>(compared: io::Result<bool>, err: &mut E) -> bool {
    match compared {
        Ok(well) => well,
        Err(error) => {
            let _ = writeln!(err, "{error}");
            false
        }
    }
}

fn is_for_retries(rt: &HostRuntime) -> io::Result<bool> {
    let words: Vec<String> = std::env::args(rt)?.skip(1).collect(rt.alloc())?;
    Ok(words.iter().any(|word| word.as_str() == "retries"))
}

fn main(rt: HostRuntime) -> ExitCode {
    let mut out = io::writer(&rt);
    let for_retries = match is_for_retries(&rt) {
        Ok(it) => it,
        Err(_) => is_well(is_for_retries(&rt), &mut rt.stderr()),
    };
    let are_told = for_retries || is_well(transcripts::compare(&rt, &mut out), &mut rt.stderr());
    let are_read = for_retries || is_well(trees::compare(&rt, &mut out), &mut rt.stderr());
    let are_said = for_retries || is_well(layers::compare(&rt, &mut out), &mut rt.stderr());
    let are_plain = for_retries || is_well(plain::compare(&rt, &mut out), &mut rt.stderr());
    let are_run = retries::tell(rt.alloc(), &mut out).is_ok();
    if are_told && are_read && are_said && are_plain && are_run {
        ExitCode::SUCCESS
    } else {
        ExitCode::FAILURE
    }
}
