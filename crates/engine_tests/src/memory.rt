// A script that is run in memory.
use page_runner::{Status, run_in_memory};
use std::test::Fail;

#[test]
fn a_script_is_run_in_memory(rt: HostRuntime) -> Result<(), Fail> {
    let mut out = b"........".to_vec(rt.alloc())?;
    let (status, written) = run_in_memory(
        rt.alloc(),
        b"create $a div\n",
        20_000,
        false,
        b"",
        b"",
        out.as_mut_slice(),
    );
    assert!(rt; status == Status::Done);
    assert_eq!(rt; written, 6);
    assert!(rt; out.as_slice() == b"1: #2\n..".as_slice());
    Ok(())
}
