//! Reads the body of a request from standard input, and writes its entries to standard output.
#![tactic(auto)]

mod usage;

use body_reader::{ReadStatus, read_run};
use ce_base::{StdSink, StdSource};
use program_words::{NoWords, words};
use std::process::ExitCode;
use usage::USAGE;

fn main(rt: HostRuntime) -> ExitCode {
    let status = match words(&rt) {
        Ok(words) => {
            let mut source = StdSource::make(rt.stdin());
            let mut sink = StdSink::make(rt.stdout());
            read_run(rt.alloc(), &words, &mut source, &mut sink)
        }
        Err(NoWords::NoTexts) => ReadStatus::Usage,
        Err(NoWords::NoMemory) => ReadStatus::NoMemory,
    };
    if status == ReadStatus::Usage {
        USAGE.tell(&rt);
    }
    ExitCode::from(status.number())
}
