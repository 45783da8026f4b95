//! An identifier that is issued twice, and what is told of its tasks.

use crate::fixture::run_text;
use std::alloc::Global;
use std::test::Fail;

/// An application in which one identifier is issued twice: 62 tasks stay, and one slot is used 1,024 times.
fn one_slot_again(alloc: Global) -> Result<String, Fail> {
    let mut text = String::from_str(alloc, "osal-app 1\ntask main\nbin_sem_create $s \"s\" 0\n")?;
    for k in 1..63 {
        let line = format!(in alloc; "task_create $t \"a{k}\" w 0 1\n")?;
        text.push_str(&line)?;
    }
    text.push_str(
        "repeat 1023
task_create $t \"x\" e 0 1
task_delay 1
end
task_create $t \"x\" e 0 1 -> OS_SUCCESS 0x00010040
bin_sem_flush $s
end
task w
bin_sem_find $s \"s\"
bin_sem_take $s pend
end
task e
end
",
    )?;
    Ok(text)
}

#[test]
fn an_identifier_that_is_issued_twice_has_two_segments(rt: HostRuntime) -> Result<(), Fail> {
    let text = one_slot_again(rt.alloc())?;
    let ran = run_text(&rt, rt.alloc(), text.as_bytes())?;
    assert!(rt; ran.status == 0);
    assert!(rt;
        ran.written
            .as_slice()
            .ends_with(b"[TOTAL] TASKS 1087 PASS 1 FAIL 0\n".as_slice())
    );
    Ok(())
}
