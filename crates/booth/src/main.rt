// The booth program: judges mission texts.
#![tactic(auto)]

mod command;
mod refusals;
mod verdict;

use crate::command::{Verb, verb_of};
use crate::refusals::{refused_line, words};
use crate::verdict::{Accepted, Unjudged, judge};
use std::io::Write;
use std::process::ExitCode;
use std::{env, fs};

const USAGE: &str = "usage: booth check FILE    judge a mission text and print it back
       booth demo [DIR]    check the placement mission of DIR (samples)
       booth help          print this";

// Each command answers the program's status: success if what was asked was done, failure if something
// stood against it, which is printed.
fn check(rt: &HostRuntime, text: &[u8]) -> anyhow::Result<ExitCode> {
    let heap = rt.alloc();
    match judge(heap, text) {
        Ok(
            Accepted {
                text,
                nodes,
                skills,
            },
        ) => {
            rt.stdout().write_all(text.as_slice())?;
            println!(rt; "accepted nodes={nodes} skills={skills}")?;
            Ok(ExitCode::SUCCESS)
        }
        Err(Unjudged::Refused(fault)) => {
            rt.println(refused_line(heap, &fault, words(fault))?)?;
            Ok(ExitCode::FAILURE)
        }
        // Kept: of the two causes this one alone is the program's own error, so it is handed up by itself.
        Err(Unjudged::OutOfMemory(error)) => Err(error.into()),
    }
}

fn check_file(rt: &HostRuntime, path: &str) -> anyhow::Result<ExitCode> {
    match fs::read(rt, path) {
        Ok(text) => check(rt, text.as_slice()),
        Err(error) => {
            eprintln!(rt; "booth: cannot read {path}: {error}")?;
            Ok(ExitCode::FAILURE)
        }
    }
}

fn demo(rt: &HostRuntime, folder: &str) -> anyhow::Result<ExitCode> {
    let path = format!(in rt.alloc(); "{folder}/placement.mission")?;
    check_file(rt, path.as_str())
}

fn run(rt: &HostRuntime) -> anyhow::Result<ExitCode> {
    let args: Vec<String> = env::args(rt)?.skip(1).collect(rt.alloc())?;
    let (verb, operand) = match args.as_slice() {
        [word] => (verb_of(word.as_bytes()), None),
        [word, operand] => (verb_of(word.as_bytes()), Some(operand.as_str())),
        _ => (None, None),
    };
    match (verb, operand) {
        (Some(Verb::Check), Some(path)) => check_file(rt, path),
        (Some(Verb::Demo), folder) => demo(rt, folder.unwrap_or("samples")),
        (Some(Verb::Help), None) => {
            rt.println(USAGE)?;
            Ok(ExitCode::SUCCESS)
        }
        _ => {
            rt.println(USAGE)?;
            Ok(ExitCode::FAILURE)
        }
    }
}

fn main(rt: HostRuntime) -> anyhow::Result<ExitCode> {
    run(&rt)
}
