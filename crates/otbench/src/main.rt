//! A proved test bench for ot.js sessions: the program.
//!
//! [`serve`](ot_serve::serve) does the whole work over any reader and two writers, and says by its clause what it writes and answers
//! (`specs/Served.antt` of `ot_serve`); `main` hands it the process's own words and streams.
#![tactic(auto)]

use ot_serve::serve;
use std::process::ExitCode;
use std::{env, io};
use streams::Device;

// Says that memory for the program's own words ran out.
fn out_of_memory(rt: &impl Eprint) -> ExitCode {
    let _ = eprintln!(rt; "otbench: Memory");
    ExitCode::FAILURE
}

// Says that a word is no text.
fn is_not_text(rt: &impl Eprint) -> ExitCode {
    let _ = eprintln!(rt; "error: invalid UTF-8 was detected in one or more arguments");
    ExitCode::from(2)
}

fn main(rt: HostRuntime) -> ExitCode {
    let alloc = rt.alloc();
    let all = match env::args(&rt) {
        Ok(all) => all,
        Err(error) if error.kind() == io::ErrorKind::OutOfMemory => return out_of_memory(&rt),
        Err(_) => return is_not_text(&rt),
    };
    let Ok(words) = all.collect::<Vec<String>>(alloc) else {
        return out_of_memory(&rt);
    };
    let mut input = Device::new(rt.reader());
    let mut output = Device::new(io::writer(&rt));
    let mut faults = Device::new(rt.stderr());
    let status = serve(&rt, words.as_slice(), &mut input, &mut output, &mut faults);
    ExitCode::from(status)
}
