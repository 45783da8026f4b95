//! The shortest text of applications, line by line.
use osal_base::OutOfMemory;
use osal_print::print;
use osal_reading::parse;
use osal_script::App;
use std::alloc::Global;
use std::process::Abort;
use std::test::Fail;

/// A text with these lines in its first body, and two more bodies, which are empty.
fn text_of(alloc: Global, lines: &str) -> Result<Vec<u8>, OutOfMemory> {
    let mut text = Vec::from_slice(alloc, b"osal-app 1\ntask main\n".as_slice())?;
    text.extend_from_slice(lines.as_bytes())?;
    text.extend_from_slice(b"\nend\ntask w\nend\nhandler h\nend\n".as_slice())?;
    Ok(text)
}

/// The application that a text is, which has these lines.
fn app_of(rt: &impl Abort, alloc: Global, text: &[u8], lines: &str) -> App {
    assert!(rt; text.len() < 1000000);
    match parse(alloc, text) {
        Ok(app) => app,
        Err(_) => panic!(rt; "{lines}"),
    }
}

/// Whether the text with some lines is printed as that with others, and what is printed as itself.
fn prints_as(rt: &impl Abort, alloc: Global, lines: &str, shortest: &str) -> Result<bool, Fail> {
    let text = text_of(alloc, lines)?;
    let wanted = text_of(alloc, shortest)?;
    let printed = print(alloc, &app_of(rt, alloc, text.as_slice(), lines))?;
    let again = print(alloc, &app_of(rt, alloc, printed.as_slice(), shortest))?;
    Ok(printed.as_slice() == wanted.as_slice() && again.as_slice() == wanted.as_slice())
}

/// Asserts that each text is printed as the one beside it.
fn each_prints(rt: &impl Abort, alloc: Global, rows: &[(&str, &str)]) -> Result<(), Fail> {
    for (lines, shortest) in rows {
        assert!(rt; prints_as(rt, alloc, lines, shortest)?, "{lines}");
    }
    Ok(())
}

/// Numbers, codes and strings.
const VALUES: [(&str, &str); 12] = [
    ("task_delay 0x10", "task_delay 16"),
    ("task_delay 4294967295", "task_delay 4294967295"),
    (
        "task_info $t -> 0 18446744073709551615",
        "task_info $a -> 0 0xffffffffffffffff",
    ),
    (
        "task_info $t -> OS_SUCCESS 0x0000000000000010",
        "task_info $a -> 0 16",
    ),
    ("task_delay 5 -> OS_ERROR", "task_delay 5 -> -1"),
    (
        "dir_read $d -> OS_SUCCESS \"a\\x0a\\x09b\"",
        "dir_read $a -> 0 \"a\\n\tb\"",
    ),
    ("console_write \"\\x41 \\x7F\"", "console_write \"A \\x7f\""),
    ("console_write \"\\\"\\\\\"", "console_write \"\\\"\\\\\""),
    (
        "console_write \"\\x0D\\x22\\xFF\"",
        "console_write \"\r\\\"\\xff\"",
    ),
    ("console_write \"a\tb\"", "console_write \"a\tb\""),
    ("console_write \"\"", "console_write \"\""),
    ("lseek $f -4294967295 end", "lseek $a -4294967295 end"),
];

#[test]
fn a_value_has_its_shortest_spelling(rt: HostRuntime) -> Result<(), Fail> {
    each_prints(&rt, rt.alloc(), &VALUES)
}

/// Payloads: a fill that is as long as its string is a string.
const PAYLOADS: [(&str, &str); 8] = [
    ("console_write fill 4 97", "console_write \"aaaa\""),
    ("console_write fill 300 97", "console_write fill 300 97"),
    ("console_write fill 7 97", "console_write \"aaaaaaa\""),
    ("console_write \"aaaaaaaaa\"", "console_write fill 9 97"),
    ("queue_put $q \"\\x00\\x00\"", "queue_put $a fill 2 0"),
    ("write $f fill 1 0", "write $a \"\\x00\""),
    (
        "socket_send $s fill 0x12C 0x61 0x50",
        "socket_send $a fill 300 97 80",
    ),
    (
        "socket_send $s \"aaaaaaaab\" 80",
        "socket_send $a \"aaaaaaaab\" 80",
    ),
];

#[test]
fn a_payload_is_a_string_or_a_shorter_fill(rt: HostRuntime) -> Result<(), Fail> {
    each_prints(&rt, rt.alloc(), &PAYLOADS)
}

/// A line for each shape of arguments.
const CALLS: [(&str, &str); 10] = [
    (
        "task_create $t \"t\" w 0x400 100\ntask_set_priority $t 7\ntask_exit",
        "task_create $a \"t\" w 1024 100\ntask_set_priority $a 7\ntask_exit",
    ),
    (
        "queue_create $q \"q\" 0xA 8\nqueue_get $q 0x40 0xff",
        "queue_create $a \"q\" 10 8\nqueue_get $a 64 255",
    ),
    (
        "timebase_create $b \"b\"\ntimer_add $t \"t\" $b h\ntimer_set $t 0 0x3E8",
        "timebase_create $a \"b\"\ntimer_add $b \"t\" $a h\ntimer_set $b 0 1000",
    ),
    (
        "mkfs \"d\" \"l\" 0x1000\nmount \"d\" \"/m\"\nunmount \"/m\"",
        "mkfs \"d\" \"l\" 4096\nmount \"d\" \"/m\"\nunmount \"/m\"",
    ),
    (
        "open $f \"/m/a\" both rw\nopen $g \"/m/a\" none ro\nread $f 64 check\nlseek $f 0 set",
        "open $a \"/m/a\" both rw\nopen $b \"/m/a\" none ro\nread $a 64 check\nlseek $a 0 set",
    ),
    (
        "socket_open $s dgram\nsocket_accept $c $s 0x7\nsocket_recv $c 64 pend\nsocket_shutdown $c write",
        "socket_open $a dgram\nsocket_accept $b $a 7\nsocket_recv $b 64 pend\nsocket_shutdown $b write",
    ),
    (
        "select_one $s rw check\nselect_multi $s,$r - check\nselect_multi - $r,$s,$r pend",
        "select_one $a rw check\nselect_multi $a,$b - check\nselect_multi - $b,$a,$b pend",
    ),
    (
        "console_enable\nbin_sem_create $s \"s\" 0x1\nbin_sem_take $s 0x5",
        "console_enable\nbin_sem_create $a \"s\" 1\nbin_sem_take $a 5",
    ),
    (
        "bin_sem_find $z \"z\"\nbin_sem_find $a \"a\"\nbin_sem_give $z",
        "bin_sem_find $a \"z\"\nbin_sem_find $b \"a\"\nbin_sem_give $a",
    ),
    (
        "# a comment\n\n \trepeat  0x3 \nend\n\n# another\nrepeat 2\ntask_exit\nend",
        "repeat 3\nend\nrepeat 2\ntask_exit\nend",
    ),
];

#[test]
fn each_shape_of_arguments_is_printed(rt: HostRuntime) -> Result<(), Fail> {
    each_prints(&rt, rt.alloc(), &CALLS)
}

/// A hold for each of 28 registers.
const HOLDS: (&str, &str) = (
    "hold $q0\nhold $q1\nhold $q2\nhold $q3\nhold $q4\nhold $q5\nhold $q6\nhold $q7\nhold $q8\nhold $q9\nhold $r0\nhold $r1\nhold $r2\nhold $r3\nhold $r4\nhold $r5\nhold $r6\nhold $r7\nhold $r8\nhold $r9\nhold $s0\nhold $s1\nhold $s2\nhold $s3\nhold $s4\nhold $s5\nhold $s6\nhold $s7",
    "hold $a\nhold $b\nhold $c\nhold $d\nhold $e\nhold $f\nhold $g\nhold $h\nhold $i\nhold $j\nhold $k\nhold $l\nhold $m\nhold $n\nhold $o\nhold $p\nhold $q\nhold $r\nhold $s\nhold $t\nhold $u\nhold $v\nhold $w\nhold $x\nhold $y\nhold $z\nhold $0\nhold $1",
);

#[test]
fn registers_behind_the_letters_are_digits(rt: HostRuntime) -> Result<(), Fail> {
    let (lines, shortest) = HOLDS;
    assert!(rt; prints_as(&rt, rt.alloc(), lines, shortest)?);
    Ok(())
}
