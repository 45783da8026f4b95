//! What application texts are read as, and why others are refused.
use osal_base::Timeout;
use osal_call::{ValueWord, WaitWord};
use osal_reading::{ParseFault, parse};
use osal_script::{App, BodyKind, Expect, Item, Line, ScriptCall, Value};
use std::alloc::Global;
use std::process::Abort;
use std::test::Fail;

/// The application that a text is.
pub(crate) fn app_of(rt: &impl Abort, alloc: Global, text: &[u8]) -> App {
    assert!(rt; text.len() < 1000000);
    match parse(alloc, text) {
        Ok(app) => app,
        Err(_) => panic!(rt; "refused"),
    }
}

/// Whether a text is an application of so many bodies.
pub(crate) fn has_bodies(rt: &impl Abort, alloc: Global, text: &[u8], bodies: u32) -> bool {
    assert!(rt; text.len() < 1000000);
    match parse(alloc, text) {
        Ok(app) => app.bodies() == bodies,
        Err(_) => false,
    }
}

/// Whether a text is refused for this line, which breaks the rule of that word.
pub(crate) fn is_refused(
    rt: &impl Abort,
    alloc: Global,
    text: &[u8],
    line: u32,
    rule: &str,
) -> bool {
    assert!(rt; text.len() < 1000000);
    match parse(alloc, text) {
        Err(ParseFault::Bad(fault)) => fault.line == line && fault.kind.text() == rule,
        _ => false,
    }
}

/// The call line at a place of a body.
pub(crate) fn line_at(items: &[Item], place: usize) -> Option<&Line> {
    match items.get(place) {
        Some(Item::Call(line)) => Some(line),
        _ => None,
    }
}

/// Whether a line is `bin_sem_create` with this register, name and value.
fn creates(line: &Line, number: usize, wanted: &[u8], full: u32) -> bool {
    match &line.call {
        ScriptCall::Value {
            word: ValueWord::BinSemCreate,
            register,
            name,
            value,
        } => register.index() == number && name.as_slice() == wanted && *value == full,
        _ => false,
    }
}

/// Whether a line is `bin_sem_take` with this register and wait.
fn takes(line: &Line, number: usize, wanted: Timeout) -> bool {
    match &line.call {
        ScriptCall::Wait {
            word: WaitWord::BinSemTake,
            id,
            wait,
        } => id.index() == number && *wait == wanted,
        _ => false,
    }
}

/// Whether a line expects this code and number.
fn expects_number(line: &Line, wanted: i32, value: u64) -> bool {
    match &line.expect {
        Some(
            Expect {
                code,
                value: Some(Value::Number(number)),
            },
        ) => *code == wanted && *number == value,
        _ => false,
    }
}

/// Whether a line expects this code and text.
fn expects_text(line: &Line, wanted: i32, value: &[u8]) -> bool {
    match &line.expect {
        Some(
            Expect {
                code,
                value: Some(Value::Text(text)),
            },
        ) => *code == wanted && text.as_slice() == value,
        _ => false,
    }
}

/// Whether a line expects this code alone.
fn expects_code(line: &Line, wanted: i32) -> bool {
    match &line.expect {
        Some(Expect { code, value: None }) => *code == wanted,
        _ => false,
    }
}

/// Whether an item takes a semaphore, with this register and wait.
fn takes_at(app: &App, place: usize, number: usize, wait: Timeout) -> bool {
    match line_at(app.main().items(), place) {
        Some(line) => takes(line, number, wait),
        None => false,
    }
}

const SMALL: &str =
    "osal-app 1\ntask main\nbin_sem_create $s \"s\" 1 -> OS_SUCCESS 0x00040001\nbin_sem_take $s check -> OS_SUCCESS\nend\n";

/// Whether the first line is the create of the small application.
fn has_small_create(app: &App) -> bool {
    match line_at(app.main().items(), 0) {
        Some(line) => {
            line.number == 3 && creates(line, 0, b"s", 1) && expects_number(line, 0, 0x0004_0001)
        }
        None => false,
    }
}

/// Whether the second line is the take of the small application.
fn has_small_take(app: &App) -> bool {
    match line_at(app.main().items(), 1) {
        Some(line) => line.number == 4 && takes(line, 0, Timeout::Check) && expects_code(line, 0),
        None => false,
    }
}

#[test]
fn a_small_application_is_read(rt: HostRuntime) {
    let app = app_of(&rt, rt.alloc(), SMALL.as_bytes());
    assert!(rt; app.main().name().as_slice() == b"main".as_slice());
    assert!(rt; app.main().kind() == BodyKind::Task);
    assert!(rt; app.main().items().len() == 2);
    assert!(rt; has_small_create(&app));
    assert!(rt; has_small_take(&app));
}

const ESCAPES: &str =
    "osal-app 1\r\n# a comment\r\n\r\ntask t\r\nbin_sem_create $b \"a \\n\\\"\\\\\\x0F\" 0x10 -> -6 \"\"\r\nbin_sem_take $a check\r\nbin_sem_take $b check\r\nend";

/// Whether the first line is the create with escapes.
fn has_escapes(app: &App) -> bool {
    match line_at(app.main().items(), 0) {
        Some(line) => creates(line, 0, b"a \n\"\\\x0f", 16) && expects_text(line, -6, b""),
        None => false,
    }
}

#[test]
fn escapes_and_registers_are_read(rt: HostRuntime) {
    let app = app_of(&rt, rt.alloc(), ESCAPES.as_bytes());
    assert!(rt; app.main().items().len() == 3);
    assert!(rt; has_escapes(&app));
    assert!(rt; takes_at(&app, 1, 1, Timeout::Check));
    assert!(rt; takes_at(&app, 2, 0, Timeout::Check));
}

const WAITS: &str =
    "osal-app 1\ntask main\nbin_sem_take $s check\nbin_sem_take $s pend\nbin_sem_take $s 1\nbin_sem_take $s 0x7fffffff\nend\n";

#[test]
fn every_wait_is_read(rt: HostRuntime) {
    let app = app_of(&rt, rt.alloc(), WAITS.as_bytes());
    assert!(rt; takes_at(&app, 0, 0, Timeout::Check));
    assert!(rt; takes_at(&app, 1, 0, Timeout::Pend));
    assert!(rt; takes_at(&app, 2, 0, Timeout::Ms(1)));
    assert!(rt; takes_at(&app, 3, 0, Timeout::Ms(2147483647)));
}

/// The items of a body, where there is one of that number.
fn items_of(app: &App, number: u32) -> &[Item] {
    if number < app.bodies() {
        app.body(number).items()
    } else {
        &[]
    }
}

/// Whether an item of a body creates a task with this stack, priority and body.
fn starts_at(app: &App, number: u32, place: usize, wanted: (u32, u32, u32)) -> bool {
    match line_at(items_of(app, number), place) {
        Some(line) => is_creation(&line.call, wanted.0, wanted.1, wanted.2),
        None => false,
    }
}

/// Whether a call creates a task with this stack, priority and body.
fn is_creation(call: &ScriptCall, stack: u32, priority: u32, body: u32) -> bool {
    match call {
        ScriptCall::TaskCreate {
            body: runs,
            stack: size,
            priority: rank,
            ..
        } => *runs == body && *size == stack && *rank == priority,
        _ => false,
    }
}

const SEVERAL: &str =
    "osal-app 1\ntask main\ntask_create $t \"a\" w 1024 100\ntask_create $u \"b\" last 0 1\nend\ntask w\ntask_create $t \"c\" last 2 3\nend\ntask last\nend\n";

/// Whether a body has this name and is of that kind.
fn is_named(app: &App, number: u32, name: &str, kind: BodyKind) -> bool {
    if number < app.bodies() {
        let body = app.body(number);
        body.name().as_slice() == name.as_bytes() && body.kind() == kind
    } else {
        false
    }
}

#[test]
fn a_body_is_named_by_its_number(rt: HostRuntime) {
    let app = app_of(&rt, rt.alloc(), SEVERAL.as_bytes());
    assert!(rt; app.bodies() == 3);
    assert!(rt; starts_at(&app, 0, 0, (1024, 100, 1)));
    assert!(rt; starts_at(&app, 0, 1, (0, 1, 2)));
    assert!(rt; is_named(&app, 1, "w", BodyKind::Task));
    assert!(rt; starts_at(&app, 1, 0, (2, 3, 2)));
    assert!(rt; items_of(&app, 2).is_empty());
}

/// Whether a call adds a timer that runs this handler.
fn runs_handler(call: &ScriptCall, number: u32) -> bool {
    match call {
        ScriptCall::TimerAdd { handler, .. } => *handler == number,
        _ => false,
    }
}

/// Whether an item of a body adds a timer that runs this handler.
fn adds_at(app: &App, number: u32, place: usize, handler: u32) -> bool {
    match line_at(items_of(app, number), place) {
        Some(line) => runs_handler(&line.call, handler),
        None => false,
    }
}

const HANDLERS: &str =
    "osal-app 1\ntask main\ntimer_add $m \"m\" $b h\ntask_create $t \"w\" w 0 1\ntimer_add $n \"n\" $b last\nend\nhandler h\ntimer_add $m \"o\" $b last\nend\ntask w\nend\nhandler last\nend\n";

const KINDS: [(&str, BodyKind); 4] = [
    ("main", BodyKind::Task),
    ("h", BodyKind::Handler),
    ("w", BodyKind::Task),
    ("last", BodyKind::Handler),
];

#[test]
fn tasks_and_handlers_are_numbered_together(rt: HostRuntime) {
    let app = app_of(&rt, rt.alloc(), HANDLERS.as_bytes());
    assert!(rt; app.bodies() == 4);
    for (number, (name, kind)) in KINDS.iter().enumerate() {
        assert!(rt; is_named(&app, number as u32, *name, *kind), "{number}");
    }
    assert!(rt; adds_at(&app, 0, 0, 1));
    assert!(rt; starts_at(&app, 0, 1, (0, 1, 2)));
    assert!(rt; adds_at(&app, 0, 2, 3));
    assert!(rt; adds_at(&app, 1, 0, 3));
}

/// The name of a call line, or a bracket for the beginning or the end of a repeat.
fn item_word(item: &Item) -> &[u8] {
    match item {
        Item::Call(line) => line.call.name(),
        Item::Repeat { .. } => b"(",
        Item::End => b")",
    }
}

/// Whether the items of the main body have these words, each with a space behind it.
fn says(alloc: Global, app: &App, wanted: &[u8]) -> Result<bool, Fail> {
    let mut words = Vec::new(alloc);
    for item in app.main().items() {
        words.extend_from_slice(item_word(item))?;
        words.push(b' ')?;
    }
    Ok(words.as_slice() == wanted)
}

/// The first word of each line, with a space behind it.
pub(crate) fn first_words(alloc: Global, lines: &str) -> Result<Vec<u8>, Fail> {
    let mut words = Vec::new(alloc);
    let mut is_first = true;
    for byte in lines.as_bytes() {
        if *byte == b'\n' {
            words.push(b' ')?;
            is_first = true;
        } else if *byte == b' ' {
            is_first = false;
        } else if is_first {
            words.push(*byte)?;
        }
    }
    words.push(b' ')?;
    Ok(words)
}

/// The application with these lines in its body.
pub(crate) fn with_lines(alloc: Global, lines: &str) -> Result<Vec<u8>, Fail> {
    let mut text = Vec::from_slice(alloc, b"osal-app 1\ntask main\n".as_slice())?;
    text.extend_from_slice(lines.as_bytes())?;
    text.extend_from_slice(b"\nend\n".as_slice())?;
    Ok(text)
}

/// Whether these lines are read as items of those words.
pub(crate) fn reads_as(
    rt: &impl Abort,
    alloc: Global,
    lines: &str,
    wanted: &[u8],
) -> Result<bool, Fail> {
    let text = with_lines(alloc, lines)?;
    let app = app_of(rt, alloc, text.as_slice());
    says(alloc, &app, wanted)
}

/// The lines of a body, each of them a call.
const LINES: [&str; 9] = [
    "task_exit\ntask_delete $t\ntask_set_priority $t 7\ntask_find $t \"a\"\ntask_info $t\ntask_delay 20",
    "queue_create $q \"q\" 50 0x400\nqueue_delete $q\nqueue_put $q \"a\"\nqueue_put $q fill 8192 255\nqueue_get $q 0 check\nqueue_find $q \"q\"\nqueue_info $q",
    "count_sem_create $c \"c\" 32767\ncount_sem_give $c\ncount_sem_take $c 0x7fffffff\ncount_sem_delete $c\ncount_sem_find $c \"c\"\ncount_sem_info $c",
    "bin_sem_create $s \"s\" 0\nbin_sem_give $s\nbin_sem_take $s pend\nbin_sem_delete $s\nbin_sem_find $s \"s\"\nbin_sem_info $s\nhold $s\nrelease $s",
    "mut_sem_create $m \"m\"\nmut_sem_take $m\nmut_sem_give $m\nmut_sem_delete $m\nmut_sem_find $m \"m\"\nmut_sem_info $m",
    "condvar_create $v \"v\"\ncondvar_lock $v\ncondvar_unlock $v\ncondvar_signal $v\ncondvar_broadcast $v\ncondvar_wait $v 1\ncondvar_delete $v\ncondvar_find $v \"v\"",
    "timebase_create $b \"b\"\ntimebase_tick $b 4294967295\ntimebase_free_run $b\ntimebase_delete $b\ntimebase_find $b \"b\"",
    "timer_set $m 0 0x10\ntimer_delete $m\ntimer_find $m \"m\"\ntimer_info $m",
    "console_write \"x\"\nconsole_disable\nconsole_write fill 8192 0\nconsole_enable -> OS_SUCCESS",
];

#[test]
fn every_line_is_read(rt: HostRuntime) -> Result<(), Fail> {
    for lines in LINES {
        let wanted = first_words(rt.alloc(), lines)?;
        let same = reads_as(&rt, rt.alloc(), lines, wanted.as_slice())?;
        assert!(rt; same, "{lines}");
    }
    Ok(())
}

/// Bodies with repeats, and the words of their items: a repeat without a call is an item too.
const REPEATS: [(&str, &[u8]); 4] = [
    (
        "hold $a\nrepeat 3\nrelease $a\nrepeat 0x10\nhold $a\nend\nend\nrelease $a",
        b"hold ( release ( hold ) ) release ",
    ),
    (
        "repeat 1\nrepeat 1\nrepeat 1\nrepeat 100000\nhold $a\nend\nend\nend\nend",
        b"( ( ( ( hold ) ) ) ) ",
    ),
    (
        "repeat 5\nend\nhold $a\nrepeat 5\n# nothing\nend",
        b"( ) hold ( ) ",
    ),
    (
        "repeat 2\nrepeat 3\nrepeat 4\nend\nend\nhold $a\nrepeat 5\nend\nend",
        b"( ( ( ) ) hold ( ) ) ",
    ),
];

#[test]
fn nested_repeats_are_read(rt: HostRuntime) -> Result<(), Fail> {
    for (lines, wanted) in REPEATS {
        let same = reads_as(&rt, rt.alloc(), lines, wanted)?;
        assert!(rt; same, "{lines}");
    }
    Ok(())
}

/// A line that carries bytes, and its payload.
const PAYLOADS: [(&str, &[u8]); 8] = [
    ("queue_put $q \"\"", b""),
    (
        "queue_put $q \"a b\\n\\x00\\\"\\\\\\xfF\"",
        b"a b\n\x00\"\\\xff",
    ),
    ("queue_put $q \"fill\"", b"fill"),
    ("queue_put $q fill 0 7", b""),
    ("queue_put $q fill 3 0x41", b"AAA"),
    ("queue_put $q fill 0x2 255 -> 0", b"\xff\xff"),
    ("console_write \"x\\n\" -> 0", b"x\n"),
    ("console_write fill 3 0x41", b"AAA"),
];

/// The payload of the first line, which is a put or a write to the console.
fn payload_of(app: &App) -> Option<&[u8]> {
    let line = line_at(app.main().items(), 0)?;
    match &line.call {
        ScriptCall::QueuePut { payload, .. } | ScriptCall::ConsoleWrite { payload } => {
            Some(payload.as_slice())
        }
        _ => None,
    }
}

/// Whether a line carries this payload.
fn carries(rt: &impl Abort, alloc: Global, line: &str, wanted: &[u8]) -> Result<bool, Fail> {
    let text = with_lines(alloc, line)?;
    let app = app_of(rt, alloc, text.as_slice());
    Ok(payload_of(&app) == Some(wanted))
}

#[test]
fn a_payload_is_a_string_or_one_byte_many_times(rt: HostRuntime) -> Result<(), Fail> {
    for (line, wanted) in PAYLOADS {
        let same = carries(&rt, rt.alloc(), line, wanted)?;
        assert!(rt; same, "{line}");
    }
    let longest = carries(&rt, rt.alloc(), "queue_put $q fill 8192 1", &[1; 8192])?;
    assert!(rt; longest);
    Ok(())
}

/// Whether the one line of a body is refused for its arguments.
pub(crate) fn is_wrong(rt: &impl Abort, alloc: Global, line: &str) -> Result<bool, Fail> {
    let text = with_lines(alloc, line)?;
    Ok(is_refused(rt, alloc, text.as_slice(), 3, "argument"))
}

/// Lines of queues with wrong arguments.
const WRONG_PUTS: [&str; 9] = [
    "queue_create $q \"q\" 1",
    "queue_create $q \"q\" 1 1 1",
    "queue_create $q \"q\" 1 4294967296",
    "queue_delete",
    "queue_put",
    "queue_put $q",
    "queue_put $q a",
    "queue_put $q \"a\" \"b\"",
    "queue_put $q fill",
];

#[test]
fn wrong_arguments_of_queue_creates_and_puts_are_refused(rt: HostRuntime) -> Result<(), Fail> {
    for line in WRONG_PUTS {
        let wrong = is_wrong(&rt, rt.alloc(), line)?;
        assert!(rt; wrong, "{line}");
    }
    Ok(())
}

/// Payloads and gets with wrong arguments.
const WRONG_GETS: [&str; 11] = [
    "queue_put $q fill 1",
    "queue_put $q fill 1 0 0",
    "queue_put $q fill 8193 0",
    "queue_put $q fill 1 256",
    "queue_put $q fill -1 0",
    "queue_put $q full 1 0",
    "queue_put $q \"fill\" 1 0",
    "queue_get $q 1",
    "queue_get $q check",
    "queue_get $q 1 0",
    "queue_get $q 4294967296 pend",
];

#[test]
fn wrong_fills_and_gets_are_refused(rt: HostRuntime) -> Result<(), Fail> {
    for line in WRONG_GETS {
        let wrong = is_wrong(&rt, rt.alloc(), line)?;
        assert!(rt; wrong, "{line}");
    }
    Ok(())
}

/// Lines of counting semaphores, mutexes and condition variables with wrong arguments.
const WRONG_LOCKS: [&str; 8] = [
    "count_sem_create $c \"c\"",
    "count_sem_take $c 2147483648",
    "mut_sem_create $m \"m\" 0",
    "mut_sem_take $m pend",
    "condvar_create $v fill 1 65",
    "condvar_lock $v pend",
    "condvar_wait $v",
    "condvar_signal \"v\"",
];

#[test]
fn wrong_arguments_of_semaphores_and_locks_are_refused(rt: HostRuntime) -> Result<(), Fail> {
    for line in WRONG_LOCKS {
        let wrong = is_wrong(&rt, rt.alloc(), line)?;
        assert!(rt; wrong, "{line}");
    }
    Ok(())
}

/// Lines of timebases and timers with wrong arguments.
const WRONG_TIMERS: [&str; 8] = [
    "timebase_create $b",
    "timebase_tick $b",
    "timebase_tick $b x",
    "timebase_tick $b 1 1",
    "timer_add $m \"m\" $b",
    "timer_add $m \"m\" $b \"h\"",
    "timer_set $m 1",
    "timer_set $m 1 4294967296",
];

#[test]
fn wrong_arguments_of_timebases_and_timers_are_refused(rt: HostRuntime) -> Result<(), Fail> {
    for line in WRONG_TIMERS {
        let wrong = is_wrong(&rt, rt.alloc(), line)?;
        assert!(rt; wrong, "{line}");
    }
    Ok(())
}

/// Lines of the console with wrong arguments.
const WRONG_CONSOLES: [&str; 8] = [
    "console_write",
    "console_write x",
    "console_write \"x\" \"y\"",
    "console_write $c \"x\"",
    "console_write fill 8193 0",
    "console_write fill 1 0 0",
    "console_enable 1",
    "console_disable \"console\"",
];

#[test]
fn wrong_arguments_of_the_console_are_refused(rt: HostRuntime) -> Result<(), Fail> {
    for line in WRONG_CONSOLES {
        let wrong = is_wrong(&rt, rt.alloc(), line)?;
        assert!(rt; wrong, "{line}");
    }
    Ok(())
}

/// An application with these lines in a handler, from line 5 on.
pub(crate) fn in_a_handler(alloc: Global, lines: &str) -> Result<Vec<u8>, Fail> {
    let mut text = Vec::from_slice(alloc, b"osal-app 1\ntask main\nend\nhandler h\n".as_slice())?;
    text.extend_from_slice(lines.as_bytes())?;
    text.extend_from_slice(b"\nend\n".as_slice())?;
    Ok(text)
}

/// Whether a handler may not have a line, by the rule of that word.
pub(crate) fn may_not_have(
    rt: &impl Abort,
    alloc: Global,
    line: &str,
    rule: &str,
) -> Result<bool, Fail> {
    let text = in_a_handler(alloc, line)?;
    Ok(is_refused(rt, alloc, text.as_slice(), 5, rule))
}

/// What only a task may do with tasks and timebases, whatever the arguments are.
const TASK_LINES: [&str; 8] = [
    "task_create $t \"a\" main 0 1",
    "task_create",
    "task_exit",
    "task_exit 1",
    "task_delay 0",
    "task_delay x",
    "timebase_tick $b 1",
    "timebase_tick $b",
];

#[test]
fn a_handler_neither_creates_nor_delays_nor_ticks(rt: HostRuntime) -> Result<(), Fail> {
    for line in TASK_LINES {
        let refused = may_not_have(&rt, rt.alloc(), line, "place")?;
        assert!(rt; refused, "{line}");
    }
    Ok(())
}

/// What only a task may do with locks, and repeats, whatever the arguments are.
const LOCK_LINES: [&str; 8] = [
    "mut_sem_take $m",
    "mut_sem_take",
    "condvar_lock $v",
    "condvar_lock $v pend",
    "condvar_wait $v check",
    "condvar_wait",
    "repeat 2",
    "repeat x",
];

#[test]
fn a_handler_neither_locks_nor_repeats(rt: HostRuntime) -> Result<(), Fail> {
    for line in LOCK_LINES {
        let refused = may_not_have(&rt, rt.alloc(), line, "place")?;
        assert!(rt; refused, "{line}");
    }
    Ok(())
}

/// Waits that are no `check`.
const WAIT_LINES: [&str; 3] = [
    "bin_sem_take $s pend",
    "count_sem_take $c 1",
    "queue_get $q 8 5",
];

#[test]
fn a_handler_does_not_wait(rt: HostRuntime) -> Result<(), Fail> {
    for line in WAIT_LINES {
        let refused = may_not_have(&rt, rt.alloc(), line, "argument")?;
        assert!(rt; refused, "{line}");
    }
    Ok(())
}

/// What a handler may do.
const HANDLER_LINES: [&str; 6] = [
    "bin_sem_take $s check",
    "count_sem_take $c check",
    "queue_get $q 8 check",
    "task_delete $t -> OS_SUCCESS",
    "timebase_free_run $b\ntimer_info $m\nmut_sem_give $m\nhold $b",
    "console_write \"x\"\nconsole_disable\nconsole_enable",
];

#[test]
fn a_handler_makes_every_other_call(rt: HostRuntime) -> Result<(), Fail> {
    for lines in HANDLER_LINES {
        let text = in_a_handler(rt.alloc(), lines)?;
        assert!(rt; has_bodies(&rt, rt.alloc(), text.as_slice(), 2), "{lines}");
    }
    Ok(())
}

/// Worked refusals: of headers, bytes, ends, words and places.
const WORKED_PLACES: [(&str, u32, &str); 7] = [
    ("osal-app 3", 1, "header"),
    ("osal-app 1\n#\x07", 2, "byte"),
    ("osal-app 1\n", 2, "end"),
    ("osal-app 1\ntask main\nbin_sem_give $s\n", 4, "end"),
    ("osal-app 1\ntask main\nfrob\nend\n", 3, "word"),
    ("osal-app 1\nbin_sem_give $s\n", 2, "place"),
    ("osal-app 1\nhandler h\nend\n", 2, "place"),
];

#[test]
fn the_worked_refusals_of_headers_and_places_are_told(rt: HostRuntime) {
    for (text, line, rule) in WORKED_PLACES {
        assert!(rt;
            is_refused(&rt, rt.alloc(), text.as_bytes(), line, rule),
            "{text}"
        );
    }
}

/// Worked refusals: of arguments, limits, bodies, and a handler that delays.
const WORKED_FORMS: [(&str, u32, &str); 7] = [
    (
        "osal-app 1\ntask main\ntask_delay 4294967296\nend\n",
        3,
        "argument",
    ),
    (
        "osal-app 1\ntask main\nbin_sem_find $s \"s\nend\n",
        3,
        "argument",
    ),
    (
        "osal-app 1\ntask main\nrepeat 100001\nend\nend\n",
        3,
        "many",
    ),
    (
        "osal-app 1\ntask main\nrepeat 1\nrepeat 1\nrepeat 1\nrepeat 1\nrepeat 1\nend\nend\nend\nend\nend\nend\n",
        7,
        "many",
    ),
    (
        "osal-app 1\ntask main\ntask_create $t \"m\" main 0 1\nend\n",
        3,
        "body",
    ),
    ("osal-app 1\ntask main\nend\ntask main\nend\n", 4, "body"),
    (
        "osal-app 1\ntask main\nend\nhandler h\ntask_delay 1\nend\n",
        5,
        "place",
    ),
];

#[test]
fn the_worked_refusals_of_arguments_and_bodies_are_told(rt: HostRuntime) {
    for (text, line, rule) in WORKED_FORMS {
        assert!(rt;
            is_refused(&rt, rt.alloc(), text.as_bytes(), line, rule),
            "{text}"
        );
    }
}

/// The header and the end.
const HEADERS: [(&str, u32, &str); 7] = [
    ("", 1, "header"),
    ("\n", 2, "header"),
    ("osal-app 1 1", 1, "header"),
    ("# none yet\ntask main\n", 2, "header"),
    ("osal-app 1\nosal-app 1\n", 2, "place"),
    ("osal-app 1\ntask main\nrepeat 1\nend\n", 5, "end"),
    ("osal-app 1\nsocket_open\n", 2, "place"),
];

#[test]
fn a_text_begins_with_its_header_and_ends_behind_a_body(rt: HostRuntime) {
    for (text, line, rule) in HEADERS {
        assert!(rt;
            is_refused(&rt, rt.alloc(), text.as_bytes(), line, rule),
            "{text}"
        );
    }
}

/// Where a line may stand.
const PLACES: [(&str, u32, &str); 10] = [
    ("osal-app 1\nrepeat 1\n", 2, "place"),
    ("osal-app 1\nqueue_put\n", 2, "place"),
    ("osal-app 1\ntask main\nend\nend\n", 4, "place"),
    ("osal-app 1\ntask main\nend\nend x\n", 4, "place"),
    ("osal-app 1\ntask main\ntask\n", 3, "place"),
    (
        "osal-app 1\ntask main\nrepeat 1\ntask main\nend\nend\n",
        4,
        "place",
    ),
    ("osal-app 1\nhandler\n", 2, "place"),
    ("osal-app 1\ntask main\nhandler h\n", 3, "place"),
    ("osal-app 1\ntask main\nhandler\n", 3, "place"),
    (
        "osal-app 1\ntask main\nend\nhandler h\nhandler k\n",
        5,
        "place",
    ),
];

#[test]
fn each_line_stands_in_its_place(rt: HostRuntime) {
    for (text, line, rule) in PLACES {
        assert!(rt;
            is_refused(&rt, rt.alloc(), text.as_bytes(), line, rule),
            "{text}"
        );
    }
}

/// The form of the words of declarations.
const DECLARATIONS: [(&str, u32, &str); 6] = [
    ("osal-app 1\ntask\n", 2, "argument"),
    ("osal-app 1\ntask a-b\n", 2, "argument"),
    ("osal-app 1\ntask main\nend\nhandler\n", 4, "argument"),
    ("osal-app 1\ntask main\nend\nhandler a-b\n", 4, "argument"),
    ("osal-app 1\ntask main\nend\nhandler a b\n", 4, "argument"),
    ("osal-app 1\ntask main\nend x\n", 3, "argument"),
];

#[test]
fn the_words_of_a_declaration_have_a_form(rt: HostRuntime) {
    for (text, line, rule) in DECLARATIONS {
        assert!(rt;
            is_refused(&rt, rt.alloc(), text.as_bytes(), line, rule),
            "{text}"
        );
    }
}

/// The form of the words of other lines, and the limits of repeats.
const FORMS: [(&str, u32, &str); 9] = [
    ("osal-app 1\ntask main\nrepeat\n", 3, "argument"),
    ("osal-app 1\ntask main\nrepeat 4294967296\n", 3, "argument"),
    ("osal-app 1\ntask main\ntask_exit 1\n", 3, "argument"),
    ("osal-app 1\ntask main\nbin_sem_take $s 0\n", 3, "argument"),
    (
        "osal-app 1\ntask main\nbin_sem_take $s pend -> 0 1 1",
        3,
        "argument",
    ),
    (
        "osal-app 1\ntask main\ntask_create $t \"a\" \"w\" 0 1",
        3,
        "argument",
    ),
    (
        "osal-app 1\ntask main\ntask_create $t \"a\" main 0 x",
        3,
        "argument",
    ),
    ("osal-app 1\ntask main\nrepeat 0\n", 3, "many"),
    ("osal-app 1\ntask main\nrepeat 4294967295\n", 3, "many"),
];

#[test]
fn the_words_of_a_line_have_a_form(rt: HostRuntime) {
    for (text, line, rule) in FORMS {
        assert!(rt;
            is_refused(&rt, rt.alloc(), text.as_bytes(), line, rule),
            "{text}"
        );
    }
}

/// Bodies: a declaration counts by its words alone, and only behind the line.
const DECLARED: [(&str, u32, &str); 6] = [
    (
        "osal-app 1\ntask main\ntask_create $t \"a\" w 0 1\n# task w\n",
        3,
        "body",
    ),
    (
        "osal-app 1\ntask main\ntask_create $t \"a\" w 0 1\ntask w 1\n",
        3,
        "body",
    ),
    (
        "osal-app 1\ntask main\ntask_create $t \"a\" w 0 1\n\ttask w\r\n",
        4,
        "place",
    ),
    (
        "osal-app 1\ntask w\nend\ntask main\ntask_create $t \"a\" w 0 1\nend\n",
        5,
        "body",
    ),
    (
        "osal-app 1\ntask w\nend\ntask main\ntask_create $t \"a\" w 0 1\nend\ntask w\nend\n",
        7,
        "body",
    ),
    (
        "osal-app 1\ntask main\ntask_create $t \"a\" h 0 1\nend\nhandler h\nend\n",
        3,
        "body",
    ),
];

#[test]
fn a_declaration_counts_by_its_words_and_behind_the_line(rt: HostRuntime) {
    for (text, line, rule) in DECLARED {
        assert!(rt;
            is_refused(&rt, rt.alloc(), text.as_bytes(), line, rule),
            "{text}"
        );
    }
}

/// A task and a handler have no name in common, and each is named where its kind is asked for.
const KINDS_OF_BODIES: [(&str, u32, &str); 5] = [
    ("osal-app 1\ntask main\nend\nhandler main\nend\n", 4, "body"),
    (
        "osal-app 1\ntask main\nend\nhandler h\nend\ntask h\nend\n",
        6,
        "body",
    ),
    (
        "osal-app 1\ntask main\ntimer_add $m \"m\" $b w\nend\ntask w\nend\n",
        3,
        "body",
    ),
    (
        "osal-app 1\ntask main\nend\nhandler h\nend\ntask w\ntimer_add $m \"m\" $b h\nend\n",
        7,
        "body",
    ),
    (
        "osal-app 1\ntask main\ntimer_add $m \"m\" $b h\n\thandler h\r\n",
        4,
        "place",
    ),
];

#[test]
fn tasks_and_handlers_have_no_name_in_common(rt: HostRuntime) {
    for (text, line, rule) in KINDS_OF_BODIES {
        assert!(rt;
            is_refused(&rt, rt.alloc(), text.as_bytes(), line, rule),
            "{text}"
        );
    }
}

/// A comment of so many letters behind the header.
fn comment_of(alloc: Global, letters: u32) -> Result<Vec<u8>, Fail> {
    let mut text = Vec::from_slice(alloc, b"osal-app 1\n#".as_slice())?;
    for _ in 0..letters {
        text.push(b'a')?;
    }
    Ok(text)
}

#[test]
fn a_line_has_at_most_255_bytes(rt: HostRuntime) -> Result<(), Fail> {
    for (letters, line, rule) in [(254, 3, "end"), (255, 2, "long")] {
        let text = comment_of(rt.alloc(), letters)?;
        assert!(rt;
            is_refused(&rt, rt.alloc(), text.as_slice(), line, rule),
            "{letters}"
        );
    }
    Ok(())
}

#[test]
fn a_long_line_declares_its_body(rt: HostRuntime) -> Result<(), Fail> {
    let mut text = Vec::from_slice(
        rt.alloc(),
        b"osal-app 1\ntask main\ntask_create $t \"a\" w 0 1\nend\ntask w".as_slice(),
    )?;
    for _ in 0..300 {
        text.push(b' ')?;
    }
    assert!(rt; is_refused(&rt, rt.alloc(), text.as_slice(), 5, "long"));
    Ok(())
}

#[test]
fn a_body_has_at_most_32_registers(rt: HostRuntime) -> Result<(), Fail> {
    let mut text = Vec::from_slice(rt.alloc(), b"osal-app 1\ntask main\n".as_slice())?;
    for i in 0..33 {
        text.extend_from_slice(b"bin_sem_take $".as_slice())?;
        text.push(b'a' + i % 26)?;
        text.push(b'a' + i / 26)?;
        text.extend_from_slice(b" check\n".as_slice())?;
    }
    assert!(rt; is_refused(&rt, rt.alloc(), text.as_slice(), 35, "many"));
    Ok(())
}

// Empty repeats count as items too.
fn items_and_repeats(alloc: Global, repeats: u32) -> Result<Vec<u8>, Fail> {
    let mut text = Vec::from_slice(alloc, b"osal-app 1\ntask main\n".as_slice())?;
    for _ in 0..repeats {
        text.extend_from_slice(b"repeat 1\nend\n".as_slice())?;
    }
    for _ in repeats..4096 {
        text.extend_from_slice(b"hold $a\n".as_slice())?;
    }
    text.extend_from_slice(b"hold $a\n".as_slice())?;
    Ok(text)
}

#[test]
fn a_body_has_at_most_4096_items(rt: HostRuntime) -> Result<(), Fail> {
    for (repeats, line) in [(0, 4099), (4096, 8195), (100, 4199)] {
        let text = items_and_repeats(rt.alloc(), repeats)?;
        assert!(rt;
            is_refused(&rt, rt.alloc(), text.as_slice(), line, "many"),
            "{repeats}"
        );
    }
    Ok(())
}

#[test]
fn there_are_at_most_64_bodies(rt: HostRuntime) -> Result<(), Fail> {
    let mut text = Vec::from_slice(rt.alloc(), b"osal-app 1\n".as_slice())?;
    for i in 0..64 {
        text.extend_from_slice(b"task w".as_slice())?;
        text.push(b'a' + i % 26)?;
        text.push(b'a' + i / 26)?;
        text.extend_from_slice(b"\nend\n".as_slice())?;
    }
    assert!(rt; has_bodies(&rt, rt.alloc(), text.as_slice(), 64));
    text.extend_from_slice(b"task waa\nend\n".as_slice())?;
    assert!(rt; is_refused(&rt, rt.alloc(), text.as_slice(), 130, "many"));
    Ok(())
}
