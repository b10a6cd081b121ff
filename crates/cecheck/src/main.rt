//! Checks a trace from standard input against the law of order, and writes the verdict to standard output.
#![tactic(auto)]

mod usage;

use ce_base::{StdSink, StdSource};
use program_words::{NoWords, words};
use std::process::ExitCode;
use trace_check::{CheckStatus, check_run};
use usage::USAGE;

fn main(rt: HostRuntime) -> ExitCode {
    let status = match words(&rt) {
        Ok(words) => {
            let mut source = StdSource::make(rt.stdin());
            let mut sink = StdSink::make(rt.stdout());
            check_run(rt.alloc(), &words, &mut source, &mut sink)
        }
        Err(NoWords::NoTexts) => CheckStatus::Usage,
        Err(NoWords::NoMemory) => CheckStatus::NoMemory,
    };
    if status == CheckStatus::Usage {
        USAGE.tell(&rt);
    }
    ExitCode::from(status.number())
}
