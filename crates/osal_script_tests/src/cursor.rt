//! What the cursor of a script calls, reply by reply.
use osal_base::{Answer, Bytes, OutOfMemory, Reply, Timeout};
use osal_call::Call;
use osal_reading::parse;
use osal_script::{App, Cursor, Phase, Step};
use std::alloc::Global;
use std::process::Abort;
use std::test::Fail;

const DONE: Option<Answer> = Some(Answer::Code(0));

/// The application with these lines in its main body, from line 3 on.
fn app_of(rt: &impl Abort, alloc: Global, lines: &str) -> Result<App, Fail> {
    let mut text = Vec::from_slice(alloc, b"osal-app 1\ntask main\n".as_slice())?;
    text.extend_from_slice(lines.as_bytes())?;
    text.extend_from_slice(b"\nend\n".as_slice())?;
    assert!(rt; text.len() < 1000000);
    match parse(alloc, text.as_slice()) {
        Ok(app) => Ok(app),
        Err(_) => panic!(rt; "{lines}"),
    }
}

fn reply(alloc: Global, answer: Answer, number: u64) -> Reply {
    Reply {
        answer,
        number,
        bytes: Bytes::new(alloc),
    }
}

/// What a script calls, as far as these tests look.
#[derive(Clone, Copy, PartialEq, Eq)]
enum Made {
    Checkpoint,
    Exit,
    Delay(u32),
    Take(u32, Timeout),
    End(u32),
    Abandon(u32),
    Other,
}

use Made::{Abandon, Checkpoint, Delay, End, Exit, Other, Take};

fn made_of(call: &Call) -> Made {
    match call {
        Call::Checkpoint => Checkpoint,
        Call::TaskExit => Exit,
        Call::TaskDelay { ms } => Delay(*ms),
        Call::BinSemTake { id, wait } => Take(id.raw(), *wait),
        Call::WaitEnd { part } => End(*part),
        Call::WaitAbandon { part } => Abandon(*part),
        _ => Other,
    }
}

/// The step that comes behind an answer.
fn step(alloc: Global, cursor: &mut Cursor, answer: Option<Answer>) -> Result<Step, OutOfMemory> {
    match answer {
        Some(answer) => cursor.next(alloc, Some(&reply(alloc, answer, 0))),
        None => cursor.next(alloc, None),
    }
}

/// Whether behind an answer this call of that line comes.
fn comes(
    alloc: Global,
    cursor: &mut Cursor,
    answer: Option<Answer>,
    line: u32,
    want: Made,
) -> bool {
    match step(alloc, cursor, answer) {
        Ok(Step::Make { line: at, call }) => at == line && made_of(&call) == want,
        _ => false,
    }
}

/// Whether behind an answer the checkpoint of a line comes, and then this call.
fn line_comes(
    alloc: Global,
    cursor: &mut Cursor,
    answer: Option<Answer>,
    line: u32,
    want: Made,
) -> bool {
    comes(alloc, cursor, answer, line, Checkpoint)
        && comes(alloc, cursor, Some(Answer::Go), line, want)
}

/// Whether behind an answer the script is over.
fn ends(alloc: Global, cursor: &mut Cursor, answer: Answer) -> bool {
    match step(alloc, cursor, Some(answer)) {
        Ok(Step::Finished) => cursor.phase() == Phase::Ended,
        _ => false,
    }
}

/// Whether the call of a line comes, which then gets this reply.
fn gets(
    alloc: Global,
    cursor: &mut Cursor,
    answer: Option<Answer>,
    line: u32,
    reply: &Reply,
) -> bool {
    if !comes(alloc, cursor, answer, line, Checkpoint) {
        return false;
    }
    match step(alloc, cursor, Some(Answer::Go)) {
        Ok(Step::Make { line: at, call }) => {
            cursor.follow(&call, reply);
            at == line
        }
        _ => false,
    }
}

#[test]
fn a_nested_repeat_is_walked_to_its_end(rt: HostRuntime) -> Result<(), Fail> {
    let lines =
        "task_delay 3\nrepeat 2\nrepeat 2\ntask_delay 6\nend\ntask_delay 8\nend\nrepeat 3\ntask_delay 11\nend";
    let app = app_of(&rt, rt.alloc(), lines)?;
    let mut cursor = Cursor::new(&app, app.main());
    assert!(rt; line_comes(rt.alloc(), &mut cursor, None, 3, Delay(3)));
    for line in [6, 6, 8, 6, 6, 8, 11, 11, 11] {
        assert!(rt;
            line_comes(rt.alloc(), &mut cursor, DONE, line, Delay(line)),
            "{line}"
        );
    }
    assert!(rt; line_comes(rt.alloc(), &mut cursor, DONE, 0, Exit));
    assert!(rt; ends(rt.alloc(), &mut cursor, Answer::Code(-1)));
    Ok(())
}

/// Repeats without a call line: four deep before line 11, and around line 15, which is repeated twice.
const EMPTY_REPEATS: &str =
    "repeat 100000\nrepeat 100000\nrepeat 100000\nrepeat 100000\nend\nend\nend\nend\ntask_delay 11\nrepeat 2\nrepeat 100000\nend\ntask_delay 15\nrepeat 100000\nrepeat 100000\nend\nrepeat 100000\nend\nend\nend\nrepeat 100000\nend";

#[test]
fn repeats_without_a_line_are_passed_at_once(rt: HostRuntime) -> Result<(), Fail> {
    let app = app_of(&rt, rt.alloc(), EMPTY_REPEATS)?;
    let mut cursor = Cursor::new(&app, app.main());
    assert!(rt; line_comes(rt.alloc(), &mut cursor, None, 11, Delay(11)));
    for line in [15, 15] {
        assert!(rt;
            line_comes(rt.alloc(), &mut cursor, DONE, line, Delay(line)),
            "{line}"
        );
    }
    assert!(rt; line_comes(rt.alloc(), &mut cursor, DONE, 0, Exit));
    assert!(rt; ends(rt.alloc(), &mut cursor, Answer::Code(-1)));
    Ok(())
}

#[test]
fn a_wait_ends_before_the_next_line(rt: HostRuntime) -> Result<(), Fail> {
    let app = app_of(&rt, rt.alloc(), "bin_sem_take $s pend")?;
    let mut cursor = Cursor::new(&app, app.main());
    assert!(rt; line_comes(rt.alloc(), &mut cursor, None, 3, Take(0, Timeout::Pend)));
    assert!(rt; comes(rt.alloc(), &mut cursor, Some(Answer::Waits), 3, End(3)));
    assert!(rt; line_comes(rt.alloc(), &mut cursor, DONE, 0, Exit));
    assert!(rt; ends(rt.alloc(), &mut cursor, Answer::Code(0)));
    Ok(())
}

/// Whether a line waits in that part.
fn waits_in(
    alloc: Global,
    cursor: &mut Cursor,
    answer: Option<Answer>,
    line: u32,
    part: u32,
) -> bool {
    line_comes(alloc, cursor, answer, line, Other)
        && comes(alloc, cursor, Some(Answer::Waits), line, End(part))
}

#[test]
fn each_kind_of_object_waits_in_its_part(rt: HostRuntime) -> Result<(), Fail> {
    let lines =
        "queue_get $a 4 pend\ncount_sem_take $a pend\nmut_sem_take $a\ncondvar_wait $a pend";
    let app = app_of(&rt, rt.alloc(), lines)?;
    let mut cursor = Cursor::new(&app, app.main());
    assert!(rt; waits_in(rt.alloc(), &mut cursor, None, 3, 1));
    for (line, part) in [(4, 2), (5, 4), (6, 5)] {
        assert!(rt;
            waits_in(rt.alloc(), &mut cursor, DONE, line, part),
            "{line}"
        );
    }
    Ok(())
}

/// Whether behind an answer the put of a line comes, with this payload.
fn puts(
    alloc: Global,
    cursor: &mut Cursor,
    answer: Option<Answer>,
    line: u32,
    wanted: &[u8],
) -> bool {
    if !comes(alloc, cursor, answer, line, Checkpoint) {
        return false;
    }
    match step(alloc, cursor, Some(Answer::Go)) {
        Ok(
            Step::Make {
                line: at,
                call: Call::QueuePut { payload, .. },
            },
        ) => at == line && payload.as_slice() == wanted,
        _ => false,
    }
}

#[test]
fn a_payload_is_copied_at_each_turn(rt: HostRuntime) -> Result<(), Fail> {
    let app = app_of(&rt, rt.alloc(), "repeat 2\nqueue_put $q \"a\\x00\"\nend")?;
    let mut cursor = Cursor::new(&app, app.main());
    assert!(rt; puts(rt.alloc(), &mut cursor, None, 4, b"a\x00"));
    assert!(rt; puts(rt.alloc(), &mut cursor, DONE, 4, b"a\x00"));
    Ok(())
}

#[test]
fn a_task_that_is_deleted_in_a_wait_gives_it_up(rt: HostRuntime) -> Result<(), Fail> {
    let app = app_of(&rt, rt.alloc(), "bin_sem_take $s 5\ntask_delay 4")?;
    let mut cursor = Cursor::new(&app, app.main());
    let waits = reply(rt.alloc(), Answer::Waits, 0);
    assert!(rt; gets(rt.alloc(), &mut cursor, None, 3, &waits));
    assert!(rt; cursor.phase() == Phase::Waiting { part: 3 });
    cursor.follow(&Call::Checkpoint, &reply(rt.alloc(), Answer::Deleted, 0));
    assert!(rt; comes(rt.alloc(), &mut cursor, None, 3, Abandon(3)));
    assert!(rt; ends(rt.alloc(), &mut cursor, Answer::Code(0)));
    Ok(())
}

#[test]
fn an_exit_that_is_refused_goes_on(rt: HostRuntime) -> Result<(), Fail> {
    let app = app_of(&rt, rt.alloc(), "task_exit\ntask_exit")?;
    let mut cursor = Cursor::new(&app, app.main());
    assert!(rt; line_comes(rt.alloc(), &mut cursor, None, 3, Exit));
    assert!(rt; line_comes(rt.alloc(), &mut cursor, Some(Answer::Code(-1)), 4, Exit));
    assert!(rt; ends(rt.alloc(), &mut cursor, Answer::Code(0)));
    Ok(())
}

/// The take of this identifier that does not wait.
fn taken(id: u32) -> Made {
    Take(id, Timeout::Check)
}

#[test]
fn success_alone_sets_a_register(rt: HostRuntime) -> Result<(), Fail> {
    let lines = "repeat 2\nbin_sem_find $s \"s\"\nbin_sem_take $s check\nend";
    let app = app_of(&rt, rt.alloc(), lines)?;
    let mut cursor = Cursor::new(&app, app.main());
    let found = reply(rt.alloc(), Answer::Code(0), 0x0004_0001);
    assert!(rt; gets(rt.alloc(), &mut cursor, None, 4, &found));
    assert!(rt;
        line_comes(rt.alloc(), &mut cursor, None, 5, taken(0x0004_0001)),
        "after 0"
    );
    let refused = reply(rt.alloc(), Answer::Code(-1), 0x0004_0001);
    assert!(rt; gets(rt.alloc(), &mut cursor, DONE, 4, &refused));
    assert!(rt;
        line_comes(rt.alloc(), &mut cursor, None, 5, taken(0x0004_0001)),
        "after -1"
    );
    Ok(())
}

/// A task whose second line ticks, and behind it the handlers 1, 2 (without lines) and 3.
const TICKING: &str =
    "bin_sem_find $s \"s\"\ntimebase_tick $s 5\nbin_sem_take $s check\nend\nhandler one\nbin_sem_find $t \"t\"\nbin_sem_take $t check\nend\nhandler two\nend\nhandler three\nbin_sem_take $u check";

/// The reply to a tick: twelve bytes of each timer that fires, the last four the number of its handler.
fn ticked(alloc: Global, code: i32, handlers: &[u8], rest: usize) -> Result<Reply, OutOfMemory> {
    let mut bytes = Vec::new(alloc);
    for handler in handlers {
        bytes.extend_from_slice([0, 7, 0, 1, 0, 0, 0, 1, 0, 0, 0, *handler].as_slice())?;
    }
    for _ in 0..rest {
        bytes.push(3)?;
    }
    Ok(Reply {
        answer: Answer::Code(code),
        number: 0,
        bytes: Bytes::copy(alloc, bytes.as_slice())?,
    })
}

/// The code of a tick, the handlers that its bytes name, how many bytes follow, and the lines that come then.
type Tick = (i32, &'static [u8], usize, &'static [(u32, Made)]);

const TAKEN: Made = Take(0, Timeout::Check);

const TICKS: [Tick; 6] = [
    (
        0,
        &[1, 3, 1],
        0,
        &[
            (8, Other),
            (9, TAKEN),
            (14, TAKEN),
            (8, Other),
            (9, TAKEN),
            (5, TAKEN),
            (0, Exit),
        ],
    ),
    (0, &[], 0, &[(5, TAKEN), (0, Exit)]),
    (0, &[2, 3, 2], 0, &[(14, TAKEN), (5, TAKEN), (0, Exit)]),
    (0, &[0, 3, 4, 255], 0, &[(14, TAKEN), (5, TAKEN), (0, Exit)]),
    (0, &[3], 11, &[(14, TAKEN), (5, TAKEN), (0, Exit)]),
    (-1, &[1, 3], 0, &[(5, TAKEN), (0, Exit)]),
];

/// Whether these lines come, and then the end.
fn lines_come(alloc: Global, cursor: &mut Cursor, lines: &[(u32, Made)]) -> bool {
    let mut answer = None;
    for (line, made) in lines {
        if !line_comes(alloc, cursor, answer, *line, *made) {
            return false;
        }
        answer = DONE;
    }
    ends(alloc, cursor, Answer::Code(0))
}

/// Whether the lines of a row come behind that reply to the tick.
fn goes_on(alloc: Global, app: &App, tick: Tick) -> bool {
    let (code, handlers, rest, lines) = tick;
    let mut cursor = Cursor::new(app, app.main());
    match ticked(alloc, code, handlers, rest) {
        Ok(reply) => {
            line_comes(alloc, &mut cursor, None, 3, Other)
                && gets(alloc, &mut cursor, DONE, 4, &reply)
                && lines_come(alloc, &mut cursor, lines)
        }
        Err(_) => false,
    }
}

#[test]
fn the_handlers_of_a_tick_come_before_the_next_line(rt: HostRuntime) -> Result<(), Fail> {
    let app = app_of(&rt, rt.alloc(), TICKING)?;
    for (row, tick) in TICKS.iter().enumerate() {
        assert!(rt; goes_on(rt.alloc(), &app, *tick), "row {row}");
    }
    Ok(())
}

/// Whether a handler finds and takes an identifier of its own, and the next ones have none.
fn handlers_have_their_own(alloc: Global, cursor: &mut Cursor) -> bool {
    let found = reply(alloc, Answer::Code(0), 0x0004_0002);
    gets(alloc, cursor, None, 8, &found)
        && line_comes(alloc, cursor, None, 9, taken(0x0004_0002))
        && line_comes(alloc, cursor, DONE, 14, taken(0))
        && line_comes(alloc, cursor, DONE, 8, Other)
        && line_comes(alloc, cursor, Some(Answer::Code(-1)), 9, taken(0))
}

/// Whether the find of the ticking task, its tick and its handlers come, and then the take of what the task found.
fn registers_are_apart(alloc: Global, cursor: &mut Cursor) -> bool {
    let found = reply(alloc, Answer::Code(0), 0x0004_0001);
    match ticked(alloc, 0, &[1, 3, 1], 0) {
        Ok(reply) => {
            gets(alloc, cursor, None, 3, &found)
                && gets(alloc, cursor, None, 4, &reply)
                && handlers_have_their_own(alloc, cursor)
                && line_comes(alloc, cursor, DONE, 5, taken(0x0004_0001))
        }
        Err(_) => false,
    }
}

#[test]
fn each_handler_has_registers_of_its_own(rt: HostRuntime) -> Result<(), Fail> {
    let app = app_of(&rt, rt.alloc(), TICKING)?;
    let mut cursor = Cursor::new(&app, app.main());
    assert!(rt; registers_are_apart(rt.alloc(), &mut cursor));
    Ok(())
}

/// Whether a tick that lets the handlers 1 and 3 run is followed by the first lines of the first.
fn comes_into_a_handler(alloc: Global, cursor: &mut Cursor) -> bool {
    match ticked(alloc, 0, &[1, 3], 0) {
        Ok(reply) => {
            line_comes(alloc, cursor, None, 3, Other)
                && gets(alloc, cursor, DONE, 4, &reply)
                && line_comes(alloc, cursor, None, 8, Other)
                && comes(alloc, cursor, DONE, 9, Checkpoint)
        }
        Err(_) => false,
    }
}

#[test]
fn a_deletion_in_a_handler_ends_the_script(rt: HostRuntime) -> Result<(), Fail> {
    let app = app_of(&rt, rt.alloc(), TICKING)?;
    let mut cursor = Cursor::new(&app, app.main());
    assert!(rt; comes_into_a_handler(rt.alloc(), &mut cursor));
    assert!(rt; ends(rt.alloc(), &mut cursor, Answer::Deleted));
    Ok(())
}
