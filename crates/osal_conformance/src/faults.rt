//! Files that are missing or too large, and a source or a sink that fails.

use crate::fixture::{
    FIRST_PATH, FIRST_PATH_REPORT, Faults, NO_FAULTS, has_output, makes_no_call, run_words,
};
use std::alloc::Global;
use std::process::Abort;
use std::test::Fail;

#[test]
fn a_file_that_is_not_there_is_told(rt: HostRuntime) -> Result<(), Fail> {
    let output = "osal-run: no such file\n";
    let told = makes_no_call(
        &rt,
        rt.alloc(),
        &["other"],
        FIRST_PATH.as_bytes(),
        NO_FAULTS,
        2,
        output,
    )?;
    assert!(rt; told);
    Ok(())
}

/// The application with empty lines behind it, of so many bytes.
fn app_of_length(alloc: Global, length: usize) -> Result<Vec<u8>, Fail> {
    let mut text = Vec::from_slice(alloc, FIRST_PATH.as_bytes())?;
    for _ in text.len()..length {
        text.push(b'\n')?;
    }
    Ok(text)
}

const LARGE_GRAIN: Faults = Faults {
    grain: 65536,
    shelf_call: None,
    sink_call: None,
};

#[test]
fn a_file_may_have_a_mebibyte(rt: HostRuntime) -> Result<(), Fail> {
    let text = app_of_length(rt.alloc(), 1_048_576)?;
    let ran = run_words(&rt, rt.alloc(), &["app"], text.as_slice(), LARGE_GRAIN)?;
    assert!(rt; ran.status == 0);
    Ok(())
}

#[test]
fn a_file_may_have_no_byte_more(rt: HostRuntime) -> Result<(), Fail> {
    let text = app_of_length(rt.alloc(), 1_048_577)?;
    let output = "osal-run: file is larger than 1048576 bytes\n";
    let told = makes_no_call(
        &rt,
        rt.alloc(),
        &["app"],
        text.as_slice(),
        LARGE_GRAIN,
        2,
        output,
    )?;
    assert!(rt; told);
    Ok(())
}

#[test]
fn each_failing_call_of_the_source_ends_the_run(rt: HostRuntime) -> Result<(), Fail> {
    for call in 1..4 {
        let faults = Faults {
            shelf_call: Some(call),
            ..NO_FAULTS
        };
        let ends = makes_no_call(
            &rt,
            rt.alloc(),
            &["app"],
            FIRST_PATH.as_bytes(),
            faults,
            4,
            "",
        )?;
        assert!(rt; ends, "call {call}");
    }
    Ok(())
}

/// Whether a run through a sink that fails leaves a prefix of the report, of at most so many bytes.
fn leaves_prefix(
    rt: &impl Abort,
    alloc: Global,
    faults: Faults,
    most: usize,
) -> Result<bool, Fail> {
    let ran = run_words(rt, alloc, &["app"], FIRST_PATH.as_bytes(), faults)?;
    let written = ran.written.as_slice();
    Ok(
        ran.status == 5
            && written.len() <= most
            && FIRST_PATH_REPORT.as_bytes().starts_with(written),
    )
}

/// Whether a wrong command through a sink that fails has that status, and makes no call.
fn leaves_nothing(rt: &impl Abort, alloc: Global, faults: Faults) -> Result<bool, Fail> {
    let ran = run_words(rt, alloc, &["-x"], FIRST_PATH.as_bytes(), faults)?;
    Ok(ran.status == 5 && ran.journal.len() == 0)
}

#[test]
fn a_failing_sink_leaves_a_prefix(rt: HostRuntime) -> Result<(), Fail> {
    for (grain, call, most) in [(8, 3, 16), (8, 1, 0), (4096, 2, 4096)] {
        let faults = Faults {
            grain,
            shelf_call: None,
            sink_call: Some(call),
        };
        let prefix = leaves_prefix(&rt, rt.alloc(), faults, most)?;
        let nothing = leaves_nothing(&rt, rt.alloc(), faults)?;
        assert!(rt; prefix && nothing, "call {call}");
    }
    Ok(())
}

#[test]
fn a_sink_that_does_not_fail_gets_the_report(rt: HostRuntime) -> Result<(), Fail> {
    let same = has_output(&rt, rt.alloc(), FIRST_PATH, 0, FIRST_PATH_REPORT)?;
    assert!(rt; same);
    Ok(())
}
