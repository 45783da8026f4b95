//! The forms of the words, and the journal behind the report.

use crate::fixture::{FIRST_PATH, FIRST_PATH_REPORT, NO_FAULTS, TIMEOUT, makes_no_call, run_words};
use std::alloc::Global;
use std::process::Abort;
use std::test::Fail;

const FIRST_JOURNAL: &str = "osal-journal 1
0 0 0x00000000 0 task_create \"main\" 0 0 0 => 0 65537 \"\"
1 2 0x00010001 0 checkpoint => go 0 \"\"
2 2 0x00010001 0 bin_sem_create \"s\" 1 => 0 262145 \"\"
3 2 0x00010001 0 checkpoint => go 0 \"\"
4 2 0x00010001 0 bin_sem_take 0x00040001 check => 0 0 \"\"
5 2 0x00010001 0 checkpoint => go 0 \"\"
6 2 0x00010001 0 task_exit => 0 0 \"\"
";

const TIMEOUT_REPORT: &str = "[BEGIN] 0x00010001 main
[ PASS] 1 line 4 queue_get OS_QUEUE_TIMEOUT
[  END] 0x00010001 main DONE PASS 1 FAIL 0
[TOTAL] TASKS 1 PASS 1 FAIL 0
";

const TIMEOUT_JOURNAL: &str = "osal-journal 1
0 0 0x00000000 0 task_create \"main\" 0 0 0 => 0 65537 \"\"
1 2 0x00010001 0 checkpoint => go 0 \"\"
2 2 0x00010001 0 queue_create \"q\" 2 4 => 0 131073 \"\"
3 2 0x00010001 0 checkpoint => go 0 \"\"
4 2 0x00010001 0 queue_get 0x00020001 4 50 => waits 0 \"\"
5 0 0x00000000 0 advance 50 => 0 0 \"\"
6 2 0x00010001 50 wait_end 1 => -10 0 \"\"
7 2 0x00010001 50 checkpoint => go 0 \"\"
8 2 0x00010001 50 task_exit => 0 0 \"\"
";

const MADE_OUTPUT: &str = "[BEGIN] 0x00010001 main
[ PASS] 1 line 7 count_sem_take OS_SUCCESS
[ PASS] 2 line 7 count_sem_take OS_SUCCESS
[ PASS] 3 line 9 count_sem_info OS_SUCCESS 0
[  END] 0x00010001 main DONE PASS 3 FAIL 0
[BEGIN] 0x00010002 w1
[ PASS] 1 line 12 queue_create OS_SUCCESS
[ PASS] 2 line 17 queue_get OS_QUEUE_EMPTY
[ PASS] 3 line 19 count_sem_give OS_SUCCESS
[  END] 0x00010002 w1 DONE PASS 3 FAIL 0
[BEGIN] 0x00010003 w2
[ PASS] 1 line 22 queue_create OS_SUCCESS
[ PASS] 2 line 27 queue_get OS_QUEUE_EMPTY
[ PASS] 3 line 29 count_sem_give OS_SUCCESS
[  END] 0x00010003 w2 DONE PASS 3 FAIL 0
[TOTAL] TASKS 3 PASS 9 FAIL 0
";

/// Whether a run with these words ends well, with this report and what stands behind it.
fn prints(
    rt: &impl Abort,
    alloc: Global,
    words: &[&str],
    text: &str,
    (report, behind): (&str, &str),
) -> Result<bool, Fail> {
    let ran = run_words(rt, alloc, words, text.as_bytes(), NO_FAULTS)?;
    let mut output = Vec::from_slice(alloc, report.as_bytes())?;
    output.extend_from_slice(behind.as_bytes())?;
    Ok(ran.status == 0 && ran.written.as_slice() == output.as_slice())
}

#[test]
fn the_journal_stands_behind_the_report(rt: HostRuntime) -> Result<(), Fail> {
    for (words, text, output) in [
        (
            ["--journal", "app"],
            FIRST_PATH,
            (FIRST_PATH_REPORT, FIRST_JOURNAL),
        ),
        (
            ["app", "--journal"],
            FIRST_PATH,
            (FIRST_PATH_REPORT, FIRST_JOURNAL),
        ),
        (
            ["app", "--journal"],
            TIMEOUT,
            (TIMEOUT_REPORT, TIMEOUT_JOURNAL),
        ),
    ] {
        let same = prints(&rt, rt.alloc(), &words, text, output)?;
        assert!(rt; same);
    }
    Ok(())
}

#[test]
fn an_application_is_made_for_two_workers(rt: HostRuntime) -> Result<(), Fail> {
    let one_word = prints(&rt, rt.alloc(), &["--make=2"], "", (MADE_OUTPUT, ""))?;
    let two_words = prints(&rt, rt.alloc(), &["--make", "2"], "", (MADE_OUTPUT, ""))?;
    assert!(rt; one_word && two_words);
    Ok(())
}

/// Whether these words get the usage text, and nothing is run.
fn gets_usage(rt: &impl Abort, alloc: Global, words: &[&str]) -> Result<bool, Fail> {
    let usage = "usage: osal-run FILE | --journal FILE | --make N\n";
    makes_no_call(rt, alloc, words, FIRST_PATH.as_bytes(), NO_FAULTS, 2, usage)
}

#[test]
fn other_words_get_the_usage_text(rt: HostRuntime) -> Result<(), Fail> {
    let commands: [&[&str]; 12] = [
        &[],
        &["--journal"],
        &["--journal", "--journal"],
        &["--make", "0"],
        &["--make", "61"],
        &["--make", "02"],
        &["--make="],
        &["--make", "2", "--journal"],
        &["-x"],
        &["-"],
        &[""],
        &["app", "app"],
    ];
    for (row, words) in commands.iter().enumerate() {
        let usage = gets_usage(&rt, rt.alloc(), *words)?;
        assert!(rt; usage, "row {row}");
    }
    Ok(())
}
