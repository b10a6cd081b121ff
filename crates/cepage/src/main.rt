//! Runs a script from standard input, and writes its transcript to standard output.
#![tactic(auto)]

mod usage;

use ce_base::{StdSink, StdSource};
use page_runner::{Status, run};
use program_words::{NoWords, words};
use std::process::ExitCode;
use usage::USAGE;

fn main(rt: HostRuntime) -> ExitCode {
    let status = match words(&rt) {
        Ok(words) => {
            let mut source = StdSource::make(rt.stdin());
            let mut sink = StdSink::make(rt.stdout());
            run(rt.alloc(), &words, &mut source, &mut sink)
        }
        Err(NoWords::NoTexts) => Status::Usage,
        Err(NoWords::NoMemory) => Status::NoMemory,
    };
    if status == Status::Usage {
        USAGE.tell(&rt);
    }
    ExitCode::from(status.number())
}
