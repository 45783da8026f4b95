//! A gate that sees whether two tasks are at their lines at the same time.

use crate::fixture::{NO_FAULTS, run_through};
use osal_base::OsalId;
use osal_exec::Gate;
use std::alloc::Global;
use std::process::Abort;
use std::sync::atomic::{AtomicBool, Ordering};
use std::test::Fail;

/// How often a task looks for the other one before it goes on alone.
const LOOKS: u32 = 1000;

/// A place at which two tasks wait for one another, for so many looks.
#[derive(Drop)]
struct Meeting {
    first: AtomicBool,
    second: AtomicBool,
    missed: AtomicBool,
}

impl Meeting {
    /// Whether a task has come within so many looks.
    fn comes(came: &AtomicBool) -> bool {
        for _ in 0..LOOKS {
            if came.load(Ordering::SeqCst) {
                return true;
            }
        }
        false
    }

    /// A task has come, and looks for the other.
    fn meet(&self, own: &AtomicBool, other: &AtomicBool) {
        own.store(true, Ordering::SeqCst);
        if !Meeting::comes(other) {
            self.missed.store(true, Ordering::SeqCst);
        }
    }
}

impl Gate for Meeting {
    fn pass(&self, task: OsalId, line: u32) {
        match (task.raw(), line) {
            (0x0001_0002, 7) => self.meet(&self.first, &self.second),
            (0x0001_0003, 10) => self.meet(&self.second, &self.first),
            _ => {}
        }
    }
}

const TEXT: &str = "osal-app 1
task main
task_create $t \"a\" x 0 1
task_create $t \"b\" y 0 1
end
task x
bin_sem_create $s \"x\" 0 -> OS_SUCCESS
end
task y
bin_sem_create $s \"y\" 0 -> OS_SUCCESS
end
";

const OUTPUT: &str = "[BEGIN] 0x00010001 main
[  END] 0x00010001 main DONE PASS 0 FAIL 0
[BEGIN] 0x00010002 a
[ PASS] 1 line 7 bin_sem_create OS_SUCCESS
[  END] 0x00010002 a DONE PASS 1 FAIL 0
[BEGIN] 0x00010003 b
[ PASS] 1 line 10 bin_sem_create OS_SUCCESS
[  END] 0x00010003 b DONE PASS 1 FAIL 0
[TOTAL] TASKS 3 PASS 2 FAIL 0
";

/// Whether a run through the gate has its output.
fn goes_through(rt: &impl Abort, alloc: Global, gate: &Meeting) -> Result<bool, Fail> {
    let ran = run_through(rt, alloc, &["app"], TEXT.as_bytes(), NO_FAULTS, gate)?;
    Ok(ran.status == 0 && ran.written.as_slice() == OUTPUT.as_bytes())
}

#[test]
fn two_tasks_on_one_thread_do_not_meet(rt: HostRuntime) -> Result<(), Fail> {
    let gate = Meeting {
        first: AtomicBool::new(false),
        second: AtomicBool::new(false),
        missed: AtomicBool::new(false),
    };
    let same = goes_through(&rt, rt.alloc(), &gate)?;
    assert!(rt; same);
    assert!(rt; gate.first.load(Ordering::SeqCst) && gate.second.load(Ordering::SeqCst));
    assert!(rt; gate.missed.load(Ordering::SeqCst));
    Ok(())
}
