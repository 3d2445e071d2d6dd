//! `mod_deployer`: deploys mods below the current folder, where `stage` has one folder for each mod
//! and `game` gets the hard links.
//!
//! The words are those of the engine's commands. All lines go to standard output, and the exit
//! status is that of the engine's answer.
#![tactic(auto)]

use deploy_engine::{Answer, Limits, run};
use io_edge::{StdSink, StdSource};
use std::alloc::AllocError;
use std::env;
use std::io::ErrorKind;
use std::process::ExitCode;
use tree_host::HostTree;

fn main(rt: HostRuntime) -> ExitCode {
    let answer = match answer_of(rt) {
        Ok(answer) => answer,
        Err(AllocError) => Answer::Memory,
    };
    ExitCode::from(answer.status())
}

fn answer_of(rt: HostRuntime) -> Result<Answer, AllocError> {
    let alloc = rt.alloc();
    let texts = words(rt)?;
    let words: Vec<&str> = texts.iter().map(|text| text.as_str()).collect(alloc)?;
    let mut tree = HostTree::open(rt, alloc, ".")?;
    let mut source = StdSource::new(rt);
    let mut sink = StdSink::new(rt);
    Ok(run(
        alloc,
        &words,
        &Limits::usual(),
        &mut tree,
        &mut source,
        &mut sink,
    ))
}

// The words after the program's name. Where one isn't UTF-8 there are none.
fn words(rt: HostRuntime) -> Result<Vec<String>, AllocError> {
    match env::args(&rt) {
        Ok(all) => all.skip(1).collect(rt.alloc()),
        Err(e) if e.kind() == ErrorKind::OutOfMemory => Err(AllocError),
        Err(_) => Ok(Vec::new(rt.alloc())),
    }
}
