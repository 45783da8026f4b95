//! What applications cost, and which expectation a line has.
use osal_reading::parse;
use osal_script::App;
use std::alloc::Global;
use std::process::Abort;
use std::test::Fail;

/// The application with these lines in its main body, and one more body, which waits three times.
fn app_of(rt: &impl Abort, alloc: Global, lines: &str) -> Result<App, Fail> {
    let mut text = Vec::from_slice(alloc, b"osal-app 1\ntask main\n".as_slice())?;
    text.extend_from_slice(lines.as_bytes())?;
    text.extend_from_slice(
        b"\nend\ntask w\nbin_sem_take $s check\nbin_sem_take $s pend\ntask_delay 5 -> -4\nend\n".as_slice(),
    )?;
    assert!(rt; text.len() < 1000000);
    match parse(alloc, text.as_slice()) {
        Ok(app) => Ok(app),
        Err(_) => panic!(rt; "{lines}"),
    }
}

/// What the application with these lines costs.
fn cost_of(rt: &impl Abort, alloc: Global, lines: &str) -> Result<u64, Fail> {
    let app = app_of(rt, alloc, lines)?;
    Ok(app.cost())
}

/// The lines of a body, and what the application costs.
const COSTS: [(&str, u64); 11] = [
    ("task_create $t \"t\" w 0 1\ntask_delay 0", 26),
    (
        "repeat 2\nrepeat 2\nrepeat 2\ntask_create $t \"t\" w 0 1\nend\nend\ntask_delay 0\nend",
        175,
    ),
    (
        "repeat 100\nrepeat 100\nrepeat 100\ntask_create $t \"t\" w 0 1\nend\nend\ntask_delay 0\nend",
        21_000_203,
    ),
    (
        "repeat 100000\nrepeat 100000\nrepeat 100000\nrepeat 100000\ntask_exit\nend\nend\nend\nend",
        u64::MAX,
    ),
    (
        "repeat 100000\nrepeat 100000\nrepeat 100000\nrepeat 100000\nend\nend\nend\nend\ntask_delay 11",
        7,
    ),
    (
        "mkfs \"d\" \"l\" 4096\nmount \"d\" \"/m\"\nopen $f \"/m/a\" both rw\nlseek $f -4294967295 end\nclose $f\ncp \"/m/a\" \"/m/b\"\ndir_open $r \"/m\"\ndir_read $r",
        19,
    ),
    (
        "count_sem_take $c check\ncount_sem_take $c pend\ncount_sem_take $c 7\ncount_sem_give $c",
        14,
    ),
    (
        "mut_sem_take $m\nmut_sem_give $m\ncondvar_lock $v\ncondvar_unlock $v",
        13,
    ),
    (
        "condvar_wait $v check\ncondvar_wait $v pend\ncondvar_wait $v 1\ncondvar_signal $v",
        14,
    ),
    (
        "socket_open $s stream\nsocket_bind $s 1\nsocket_listen $s\nsocket_connect $s 1\nsocket_shutdown $s both\nsocket_accept $c $s check\nsocket_accept $c $s pend\nsocket_accept $c $s 1",
        22,
    ),
    (
        "select_one $s r check\nselect_one $s w pend\nselect_one $s rw 1\nselect_multi $s - check\nselect_multi $s - pend\nselect_multi - $s 1",
        21,
    ),
];

#[test]
fn turns_tasks_and_waits_cost(rt: HostRuntime) -> Result<(), Fail> {
    for (lines, cost) in COSTS {
        let found = cost_of(&rt, rt.alloc(), lines)?;
        assert!(rt; found == cost, "{lines}");
    }
    Ok(())
}

/// The same for lines that carry bytes.
const BYTE_COSTS: [(&str, u64); 7] = [
    (
        "queue_put $q \"a\"\nqueue_put $q fill 63 0\nqueue_put $q fill 64 0\nqueue_put $q fill 8192 0",
        140,
    ),
    (
        "queue_get $q 63 check\nqueue_get $q 64 pend\nqueue_get $q 128 1\nqueue_get $q 4294967295 check",
        67_108_880,
    ),
    (
        "write $f \"a\"\nwrite $f fill 63 0\nwrite $f fill 64 0\nwrite $f fill 8192 0",
        140,
    ),
    (
        "read $f 63 check\nread $f 64 pend\nread $f 128 1\nread $f 4294967295 check",
        67_108_880,
    ),
    (
        "socket_send $s \"a\" 1\nsocket_send $s fill 63 0 1\nsocket_send $s fill 64 0 1\nsocket_send $s fill 8192 0 1",
        140,
    ),
    (
        "socket_recv $s 63 check\nsocket_recv $s 64 pend\nsocket_recv $s 128 1\nsocket_recv $s 4294967295 check",
        67_108_880,
    ),
    (
        "console_write \"a\"\nconsole_write fill 64 0\nconsole_write fill 8192 0\nconsole_enable\nconsole_disable",
        148,
    ),
];

#[test]
fn bytes_cost_by_their_number(rt: HostRuntime) -> Result<(), Fail> {
    for (lines, cost) in BYTE_COSTS {
        let found = cost_of(&rt, rt.alloc(), lines)?;
        assert!(rt; found == cost, "{lines}");
    }
    Ok(())
}

/// The same for lines that tick, with handlers.
const TICK_COSTS: [(&str, u64); 5] = [
    ("timebase_tick $b 1", 5),
    (
        "timebase_tick $b 1\nend\nhandler h\nbin_sem_give $s\nbin_sem_give $s",
        45,
    ),
    (
        "timebase_tick $b 1\ntimebase_tick $b 1\nend\nhandler g\nbin_sem_give $s\nend\nhandler h\nqueue_get $q 64 check",
        67,
    ),
    (
        "task_create $t \"t\" x 0 1\nend\nhandler h\nend\nhandler g\nbin_sem_give $s\nend\ntask x\ntimebase_tick $b 1",
        37,
    ),
    (
        "repeat 100000\nrepeat 100000\nrepeat 100000\ntimebase_tick $b 1\nend\nend\nend\nend\nhandler h\nqueue_get $q 4294967295 check",
        u64::MAX,
    ),
];

#[test]
fn each_tick_costs_the_dearest_handler(rt: HostRuntime) -> Result<(), Fail> {
    for (lines, cost) in TICK_COSTS {
        let found = cost_of(&rt, rt.alloc(), lines)?;
        assert!(rt; found == cost, "{lines}");
    }
    Ok(())
}

/// Whole applications, and what they cost: many turns, the most that may be accepted, and the next that may not.
const WHOLE: [(&str, u64); 3] = [
    (
        "osal-app 1\ntask main\nrepeat 65600\nbin_sem_create $s \"s\" 0\nbin_sem_delete $s\nend\nbin_sem_create $s \"s\" 0\nend\n",
        262_405,
    ),
    (
        "osal-app 1\ntask main\nrepeat 99999\ncount_sem_take $c pend\nend\nend\n",
        300_000,
    ),
    (
        "osal-app 1\ntask main\nrepeat 100000\ncount_sem_take $c pend\nend\nend\n",
        300_003,
    ),
];

/// What the application of a text costs.
fn cost_of_text(rt: &impl Abort, alloc: Global, text: &[u8]) -> u64 {
    assert!(rt; text.len() < 1000000);
    match parse(alloc, text) {
        Ok(app) => app.cost(),
        Err(_) => panic!(rt; "refused"),
    }
}

#[test]
fn whole_applications_cost_what_their_lines_do(rt: HostRuntime) {
    for (text, cost) in WHOLE {
        assert!(rt;
            cost_of_text(&rt, rt.alloc(), text.as_bytes()) == cost,
            "{cost}"
        );
    }
}

#[test]
fn tasks_in_a_repeat_cost_their_bodies_each_time(rt: HostRuntime) -> Result<(), Fail> {
    let alloc = rt.alloc();
    let mut text = Vec::from_slice(
        alloc,
        b"osal-app 1\ntask main\nbin_sem_create $s \"s\" 0\n".as_slice(),
    )?;
    for _ in 0..62 {
        text.extend_from_slice(b"task_create $t \"a\" w 0 1\n".as_slice())?;
    }
    text.extend_from_slice(
        b"repeat 1023\ntask_create $t \"x\" e 0 1\ntask_delay 1\nend\ntask_create $t \"x\" e 0 1\n".as_slice(),
    )?;
    text.extend_from_slice(
        b"hold $s\nend\ntask w\nbin_sem_find $s \"s\"\nbin_sem_take $s pend\nend\ntask e\nend\n".as_slice(),
    )?;
    assert!(rt; cost_of_text(&rt, alloc, text.as_slice()) == 17_441);
    Ok(())
}

/// Whether the line expects this code, or nothing where it is 0.
fn expects(app: &App, line: u32, code: i32) -> bool {
    match app.expectation(line) {
        Some(expect) => expect.code == code,
        None => code == 0,
    }
}

#[test]
fn an_expectation_is_found_by_its_line(rt: HostRuntime) -> Result<(), Fail> {
    let lines = "task_create $t \"t\" w 0 1\nrepeat 3\ntask_delay 0 -> -3\nend";
    let app = app_of(&rt, rt.alloc(), lines)?;
    for (line, code) in [(3, 0), (5, -3), (9, 0), (11, -4), (12, 0)] {
        assert!(rt; expects(&app, line, code), "at {line}");
    }
    Ok(())
}
