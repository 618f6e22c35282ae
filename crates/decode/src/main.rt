// Decodes SCCP messages: hex text on standard input, a line for each message on standard output.
#![tactic(auto)]

mod failure;
mod input;
#[cfg(test)]
mod tests;
mod usage;

use failure::Failure;
use input::read;
use std::env;
use std::io::{BufRead, BufReader};
use std::process::ExitCode;
use usage::USAGE;

fn main(rt: HostRuntime) -> ExitCode {
    match run(&rt) {
        Ok(()) => ExitCode::SUCCESS,
        Err(failure) => {
            // Where standard error fails too, the status alone tells.
            let _ = eprintln!(rt; "decode: {failure}");
            ExitCode::FAILURE
        }
    }
}

fn run(rt: &HostRuntime) -> Result<(), Failure> {
    let mut arguments = env::args(rt)?.skip(1);
    match arguments.next() {
        None => decode(rt),
        Some(argument) => match argument.as_str() {
            "-h" | "--help" => Ok(print!(rt; "{USAGE}")?),
            _ => Err(Failure::Argument(argument)),
        },
    }
}

fn decode(rt: &HostRuntime) -> Result<(), Failure> {
    let mut faults: u64 = 0;
    let lines = BufReader::new(rt.alloc(), rt.stdin())?.lines(rt.alloc());
    for (index, line) in lines.enumerate() {
        match read(rt.alloc(), line)? {
            Ok(None) => {}
            Ok(Some(answer)) => println!(rt; "{answer}")?,
            Err(fault) => {
                println!(rt; "error line {}: {fault}", index + 1)?;
                // Counted in the loop that prints them; a bound on how many there are would need an invariant.
                faults = faults.saturating_add(1);
            }
        }
    }
    if faults > 0 {
        return Err(Failure::Lines(faults));
    }
    Ok(())
}
