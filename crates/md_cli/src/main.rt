//! The program `mdt`: the top call over the files of the system, standard output and standard
//! error.
#![tactic(auto)]

ghost use Rattle.std.specs.Prelude.{◌≡◌, ◌↔◌, None};
ghost use Rattle.std.specs.Process.{exit_status};
ghost use Rattle.md_top.specs.declared.stop.Status.{Status};
ghost use Rattle.md_top.specs.Request.{texts, request_of};
ghost use Rattle.md_top.specs.Status.{exit_number};

use md_io::{DirFiles, GatheringSink, StdSink};
use md_top::{Status, run};
use std::env;
use std::io::ErrorKind;
use std::process::ExitCode;

#[cfg(test)]
mod tests;

fn main(rt: HostRuntime) -> ExitCode {
    end(&rt)
}

// Ends with the number of the status of `run` over the words behind the program's name. Where the
// words can't be had, it writes nothing and ends as at a reading fault, or as at want of memory.
fn end(rt: &HostRuntime) -> ExitCode
    ensures { (status : Status) × (exit_status result ≡ exit_number status) }
{
    match words(rt) {
        Ok(words) => end_over(rt, &words),
        Err(status) => status.exit_code(),
    }
}

// Ends with the number of the status of `run` over the words: with 2 exactly where they are in no
// form.
fn end_over(rt: &HostRuntime, words: &[String]) -> ExitCode
    ensures number { (status : Status) × (exit_status result ≡ exit_number status) }
    ensures usage { (exit_status result ≡ 2) ↔ (request_of (texts words.now) ≡ None) }
{
    run_here(rt, words).exit_code()
}

// The status of `run` over the files of the system, standard output and standard error. Output is
// gathered in small pieces where there is memory for that.
fn run_here(rt: &HostRuntime, words: &[String]) -> Status
    ensures usage { (result ≡ Status.Usage) ↔ (request_of (texts words.now) ≡ None) }
{
    let mut files = DirFiles::new(rt, rt.alloc());
    let mut out = match GatheringSink::new(rt.alloc(), rt.stdout()) {
        Ok(out) => out,
        Err(_) => GatheringSink::without_room(rt.alloc(), rt.stdout()),
    };
    let mut err = StdSink::new(rt.stderr());
    run(rt.alloc(), words, &mut files, &mut out, &mut err)
}

// The words behind the program's name.
fn words(rt: &HostRuntime) -> Result<Vec<String>, Status> {
    let args = match env::args(rt) {
        Ok(args) => args,
        Err(error) if error.kind() == ErrorKind::OutOfMemory => return Err(Status::Memory),
        Err(_) => return Err(Status::ReadFault),
    };
    let mut words = Vec::new(rt.alloc());
    for word in args.skip(1) {
        if words.push(word).is_err() {
            return Err(Status::Memory);
        }
    }
    Ok(words)
}
