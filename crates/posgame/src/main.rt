//! The program: it does what the words of its command line ask for, and ends with a status.
#![tactic(auto)]

use pg_cli::run;
use pg_host::{HostConsole, HostFiles, guard_streams, words_given};
use pg_pns::Work;
use std::process::ExitCode;

/// Returns whether the words, if they have a meaning, ask for a session to be recorded.
fn records(words: &[String]) -> bool {
    for word in words {
        if word.as_str() != "--" {
            return word.as_str() == "record";
        }
    }
    false
}

fn main(rt: HostRuntime) -> ExitCode {
    guard_streams(&rt);
    let words = match words_given(&rt) {
        Ok(words) => words,
        Err(status) => return ExitCode::from(status),
    };
    let mut files = if records(&words) {
        HostFiles::sparing_opened(&rt)
    } else {
        HostFiles::new(&rt)
    };
    let mut console = HostConsole::new(&rt);
    let mut work = Work::new(rt.alloc());
    ExitCode::from(run(rt.alloc(), &words, &mut files, &mut console, &mut work))
}
