//! A small flight software: its output, and what is left of it where the source or the sink fails.

use crate::fixture::{Faults, has_output, run_words};
use std::alloc::Global;
use std::process::Abort;
use std::test::Fail;

/// Commands, telemetry that a timer wakes, and a log on a volume and on the console.
const APP: &str = "osal-app 1
task main
mkfs \"/ramdev0\" \"vol\" 64 -> OS_SUCCESS
mount \"/ramdev0\" \"/ram\" -> OS_SUCCESS
queue_create $q \"CMD_PIPE\" 10 16 -> OS_SUCCESS
bin_sem_create $w \"TLM_WAKE\" 0 -> OS_SUCCESS
count_sem_create $d \"DONE\" 0
task_create $t \"CMD\" cmd 4096 50 -> OS_SUCCESS 0x00010002
task_create $t \"TLM\" tlm 4096 60 -> OS_SUCCESS 0x00010003
task_create $t \"LOG\" log 4096 90 -> OS_SUCCESS 0x00010004
timebase_create $b \"CLK\" -> OS_SUCCESS
timer_add $h \"HZ\" $b hz -> OS_SUCCESS
timer_set $h 1000000 1000000 -> OS_SUCCESS
repeat 3
timebase_tick $b 1000000 -> OS_SUCCESS 1
count_sem_take $d pend
end
queue_put $q \"EXIT\" -> OS_SUCCESS
end
task cmd
queue_find $q \"CMD_PIPE\" -> OS_SUCCESS
queue_get $q 16 pend -> OS_SUCCESS \"NOOP\"
queue_get $q 16 pend -> OS_SUCCESS \"EXIT\"
end
task tlm
bin_sem_find $w \"TLM_WAKE\"
queue_find $q \"CMD_PIPE\"
count_sem_find $d \"DONE\"
queue_put $q \"NOOP\" -> OS_SUCCESS
repeat 3
bin_sem_take $w pend -> OS_SUCCESS
count_sem_give $d
end
end
task log
open $f \"/ram/log\" create wo -> OS_SUCCESS 0x00060001
write $f \"boot\\n\" -> 5
close $f -> OS_SUCCESS
console_write \"log ready\\n\" -> OS_SUCCESS
end
handler hz
bin_sem_find $w \"TLM_WAKE\"
bin_sem_give $w -> OS_SUCCESS
end
";

const OUTPUT: &str = "log ready
[BEGIN] 0x00010001 main
[ PASS] 1 line 3 mkfs OS_SUCCESS
[ PASS] 2 line 4 mount OS_SUCCESS
[ PASS] 3 line 5 queue_create OS_SUCCESS
[ PASS] 4 line 6 bin_sem_create OS_SUCCESS
[ PASS] 5 line 8 task_create OS_SUCCESS 0x00010002
[ PASS] 6 line 9 task_create OS_SUCCESS 0x00010003
[ PASS] 7 line 10 task_create OS_SUCCESS 0x00010004
[ PASS] 8 line 11 timebase_create OS_SUCCESS
[ PASS] 9 line 12 timer_add OS_SUCCESS
[ PASS] 10 line 13 timer_set OS_SUCCESS
[ PASS] 11 line 15 timebase_tick OS_SUCCESS 1
[ PASS] 12 line 43 bin_sem_give OS_SUCCESS
[ PASS] 13 line 15 timebase_tick OS_SUCCESS 1
[ PASS] 14 line 43 bin_sem_give OS_SUCCESS
[ PASS] 15 line 15 timebase_tick OS_SUCCESS 1
[ PASS] 16 line 43 bin_sem_give OS_SUCCESS
[ PASS] 17 line 18 queue_put OS_SUCCESS
[  END] 0x00010001 main DONE PASS 17 FAIL 0
[BEGIN] 0x00010002 CMD
[ PASS] 1 line 21 queue_find OS_SUCCESS
[ PASS] 2 line 22 queue_get OS_SUCCESS \"NOOP\"
[ PASS] 3 line 23 queue_get OS_SUCCESS \"EXIT\"
[  END] 0x00010002 CMD DONE PASS 3 FAIL 0
[BEGIN] 0x00010003 TLM
[ PASS] 1 line 29 queue_put OS_SUCCESS
[ PASS] 2 line 31 bin_sem_take OS_SUCCESS
[ PASS] 3 line 31 bin_sem_take OS_SUCCESS
[ PASS] 4 line 31 bin_sem_take OS_SUCCESS
[  END] 0x00010003 TLM DONE PASS 4 FAIL 0
[BEGIN] 0x00010004 LOG
[ PASS] 1 line 36 open OS_SUCCESS 0x00060001
[ PASS] 2 line 37 write 5
[ PASS] 3 line 38 close OS_SUCCESS
[ PASS] 4 line 39 console_write OS_SUCCESS
[  END] 0x00010004 LOG DONE PASS 4 FAIL 0
[TOTAL] TASKS 4 PASS 28 FAIL 0
";

#[test]
fn the_console_text_stands_before_the_report(rt: HostRuntime) -> Result<(), Fail> {
    let same = has_output(&rt, rt.alloc(), APP, 0, OUTPUT)?;
    assert!(rt; same);
    Ok(())
}

/// Whether a run through a sink that fails leaves a part of the journal, and a prefix of the output of at most so many
/// bytes.
fn leaves_prefix(rt: &impl Abort, alloc: Global, call: u64, most: usize) -> Result<bool, Fail> {
    let faults = Faults {
        grain: 8,
        shelf_call: None,
        sink_call: Some(call),
    };
    let ran = run_words(rt, alloc, &["app"], APP.as_bytes(), faults)?;
    let written = ran.written.as_slice();
    let prefix = OUTPUT.as_bytes().starts_with(written);
    Ok(ran.status == 5 && prefix && written.len() <= most && ran.journal.len() != 0)
}

#[test]
fn a_failing_sink_leaves_a_prefix_of_console_and_report(rt: HostRuntime) -> Result<(), Fail> {
    for (call, most) in [(1, 0), (2, 8), (3, 16), (50, 400)] {
        let prefix = leaves_prefix(&rt, rt.alloc(), call, most)?;
        assert!(rt; prefix, "call {call}");
    }
    Ok(())
}

#[test]
fn a_failing_source_leaves_nothing(rt: HostRuntime) -> Result<(), Fail> {
    let faults = Faults {
        grain: 64,
        shelf_call: Some(3),
        sink_call: None,
    };
    let ran = run_words(&rt, rt.alloc(), &["app"], APP.as_bytes(), faults)?;
    assert!(rt; ran.status == 4);
    assert!(rt; ran.written.is_empty() && ran.journal.len() == 0);
    Ok(())
}
