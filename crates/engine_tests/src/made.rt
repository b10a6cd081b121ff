// Scripts that are made, by words: the summary stands in place of the transcript, and the source is not read. And one that
// is made as a text.
use crate::devices::failing_source;
use crate::script::{ends, put_words, ran_by, ran_with, same_status};
use ce_base::Source;
use made_scripts::made_script;
use page_runner::Status;
use std::alloc::Global;
use std::process::Abort;
use std::test::Fail;

const WHOLE: &str = "made 2000
script lines 8013
transcript lines 14007
calls 4000
fuel used 20008
end done
";

// One unit less than it takes.
const SHORT: &str = "made 2000
script lines 8013
transcript lines 14006
calls 4000
fuel used 20007
end fuel
";

// The greatest, with all the fuel that it takes.
const GREATEST: &str = "made 19999
script lines 80009
transcript lines 140000
calls 39998
fuel used 199998
end done
";

const BY_DEFAULT: &str = "fuel used 20000
end fuel
";

// Sees that the fuel is spent where no word says how much there is.
fn short_by_default(rt: &impl Abort, alloc: Global, script: &[u8]) -> Result<(), Fail> {
    let ended = ran_with(alloc, "--make 2000", script, 1)?;
    same_status(rt, ended.status, Status::Fuel);
    assert!(rt; ended.text.ends_with(BY_DEFAULT));
    Ok(())
}

// Sees that the source is not read, whose first read would fail.
fn whole_without_a_read(rt: &impl Abort, alloc: Global) -> Result<(), Fail> {
    let mut words = Vec::new(alloc);
    put_words(alloc, &mut words, "--make 2000 --fuel 20008")?;
    let mut source = failing_source(alloc, "no line", 1, 1)?;
    ran_by(alloc, &words, &mut source)?.is(rt, Status::Done, WHOLE);
    assert!(rt; source.faults() == 0);
    Ok(())
}

#[test]
fn a_script_is_made_and_run(rt: HostRuntime) -> Result<(), Fail> {
    let alloc = rt.alloc();
    let bad = "no line".as_bytes();
    whole_without_a_read(&rt, alloc)?;
    ends(
        &rt,
        alloc,
        "--fuel=20007 --make=2000",
        bad,
        1,
        Status::Fuel,
        SHORT,
    )?;
    short_by_default(&rt, alloc, bad)?;
    refused(&rt, alloc, "--make 20000")?;
    refused(&rt, alloc, "--make 0")?;
    refused(&rt, alloc, "--trace --make 1")
}

#[test]
fn the_greatest_script_is_made_and_run(rt: HostRuntime) -> Result<(), Fail> {
    let words = "--make 19999 --fuel 199998";
    ends(&rt, rt.alloc(), words, b"", 1, Status::Done, GREATEST)
}

// Sees that words are refused.
fn refused(rt: &impl Abort, alloc: Global, words: &str) -> Result<(), Fail> {
    ends(rt, alloc, words, b"", 1, Status::Usage, "")
}

// What the summary counts are lines of its transcript.
#[test]
fn a_made_script_is_a_script(rt: HostRuntime) -> Result<(), Fail> {
    let script = made_script(rt.alloc(), 2000)?;
    let script = script.as_str().as_bytes();
    let ended = ran_with(rt.alloc(), "--fuel 20008", script, 65_536)?;
    same_status(&rt, ended.status, Status::Done);
    assert!(rt; ended.text.as_str().lines().count() == 14007);
    Ok(())
}
