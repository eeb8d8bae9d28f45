//! A crash-safe landmark distance server for road networks.
//!
//! Without words the program reads the joint form from standard input: a `.gr` text, a line `run`, and a script. Its words name jobs on files.
#![tactic(auto)]

use program::run_program;
use std::process::ExitCode;

fn main(rt: HostRuntime) -> ExitCode {
    ExitCode::from(run_program(&rt, rt))
}
