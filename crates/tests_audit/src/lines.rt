// Records with lines that are changed.
use crate::texts::{
    APART, CLIENT, ENDED, LAST, PROGRAM, RELAY, RELAY_ENDED, RELAY_TOLD, RING, ROOTLESS, SERVER,
};
use circus_audit::{RecordFault, read_record};
use circus_config::read_program;
use circus_value::Octets;
use std::alloc::Global;
use std::test::Fail;

// The first bad line of a text as a record of a program, or 0 where it is one.
fn bad_line_of(alloc: Global, program: &str, text: &[u8]) -> Result<u32, Fail> {
    if text.len() >= u32::MAX as usize {
        return Ok(u32::MAX);
    }
    let plan = read_program(alloc, program.as_bytes())?;
    match read_record(alloc, text, &plan) {
        Ok(_) => Ok(0),
        Err(RecordFault::BadLine(line)) => Ok(line),
        Err(RecordFault::NoMemory) => Ok(u32::MAX),
    }
}

fn bad_line(alloc: Global, text: &[u8]) -> Result<u32, Fail> {
    bad_line_of(alloc, PROGRAM, text)
}

// The place behind so many lines of a text.
fn behind(text: &[u8], lines: usize) -> usize {
    let mut place = 0;
    let mut left = lines;
    for (at, byte) in text.iter().enumerate() {
        if left == 0 {
            return place;
        }
        if *byte == b'\n' {
            place = at + 1;
            left -= 1;
        }
    }
    place
}

// The first bad line of a text in which other lines stand from a line on, in place of so many.
fn change_lines(
    alloc: Global,
    text: &str,
    line: usize,
    lines: usize,
    others: &str,
) -> Result<u32, Fail> {
    let text = text.as_bytes();
    let before = line.saturating_sub(1);
    let from = behind(text, before).min(text.len());
    let to = behind(text, before.saturating_add(lines)).min(text.len());
    let mut all = Octets::new(alloc);
    all.append(&text[..from])?;
    all.append(others.as_bytes())?;
    all.append(&text[to..])?;
    bad_line(alloc, all.as_slice())
}

#[test]
fn records_are_read(rt: HostRuntime) -> Result<(), Fail> {
    for text in [CLIENT, ENDED, SERVER, RING, APART] {
        assert_eq!(rt; bad_line(rt.alloc(), text.as_bytes())?, 0);
    }
    Ok(())
}

#[test]
fn ends_count_as_lines(rt: HostRuntime) -> Result<(), Fail> {
    let alloc = rt.alloc();
    assert_eq!(rt; bad_line(alloc, b"")?, 1);
    assert_eq!(rt; bad_line(alloc, b"circus node 1 m1")?, 1);
    assert_eq!(rt; bad_line(alloc, b"circus node 1 zz\n")?, 1);
    assert_eq!(rt; bad_line(alloc, b"circus node 1 m1\n")?, 2);
    assert_eq!(rt; change_lines(alloc, CLIENT, 7, 1, "")?, 7);
    assert_eq!(rt;
        change_lines(alloc, CLIENT, 7, 1, "now waiting ask 0 state [0]")?,
        7
    );
    assert_eq!(rt;
        change_lines(alloc, CLIENT, 8, 0, "now idle state [0]\n")?,
        8
    );
    assert_eq!(rt; change_lines(alloc, CLIENT, 8, 0, "x")?, 8);
    assert_eq!(rt; change_lines(alloc, CLIENT, 3, 1, "")?, 0);
    Ok(())
}

#[test]
fn events_are_read(rt: HostRuntime) -> Result<(), Fail> {
    let alloc = rt.alloc();
    assert_eq!(rt; change_lines(alloc, CLIENT, 2, 1, "event 1 boot\n")?, 2);
    assert_eq!(rt; change_lines(alloc, CLIENT, 2, 0, "foreign 1 00\n")?, 2);
    assert_eq!(rt; change_lines(alloc, CLIENT, 2, 0, "give s1 00\n")?, 2);
    assert_eq!(rt; change_lines(alloc, CLIENT, 3, 1, "give m1 00\n")?, 3);
    assert_eq!(rt; change_lines(alloc, CLIENT, 3, 1, "give s1 \n")?, 0);
    assert_eq!(rt; change_lines(alloc, CLIENT, 3, 1, "give s1\n")?, 3);
    assert_eq!(rt; change_lines(alloc, CLIENT, 3, 1, "give s1 0\n")?, 3);
    assert_eq!(rt; change_lines(alloc, CLIENT, 3, 1, "give s1 0A\n")?, 3);
    assert_eq!(rt; change_lines(alloc, CLIENT, 3, 0, "foreign 1 00\n")?, 4);
    assert_eq!(rt; change_lines(alloc, CLIENT, 4, 0, "foreign 65536 00\n")?, 4);
    assert_eq!(rt;
        change_lines(
            alloc,
            CLIENT,
            4,
            0,
            "event 1 boot\nevent 2 join\nevent 3 tick\n"
        )?,
        0
    );
    assert_eq!(rt; change_lines(alloc, CLIENT, 4, 0, "event 01 tick\n")?, 4);
    assert_eq!(rt;
        change_lines(alloc, SERVER, 3, 1, "event 1 datagram s1 00\n")?,
        3
    );
    assert_eq!(rt; change_lines(alloc, SERVER, 3, 1, "event 1 down s1\n")?, 3);
    Ok(())
}

#[test]
fn members_are_read(rt: HostRuntime) -> Result<(), Fail> {
    let alloc = rt.alloc();
    let member = "member m1 Main live from 0 at 0 count 1\n";
    assert_eq!(rt; change_lines(alloc, CLIENT, 4, 1, member)?, 7);
    assert_eq!(rt;
        change_lines(
            alloc,
            CLIENT,
            4,
            1,
            "member m1 Main live from 0 at 1 count 0\n"
        )?,
        4
    );
    assert_eq!(rt;
        change_lines(
            alloc,
            CLIENT,
            4,
            1,
            "member m1 Main live from 1 at 0 count 0\n"
        )?,
        4
    );
    assert_eq!(rt;
        change_lines(
            alloc,
            CLIENT,
            4,
            1,
            "member m1 Main live from 1 at 0 count 1\n"
        )?,
        5
    );
    assert_eq!(rt;
        change_lines(alloc, CLIENT, 4, 1, "member m1 Counter live outside\n")?,
        4
    );
    assert_eq!(rt;
        change_lines(alloc, CLIENT, 4, 1, "member s1 Main live outside\n")?,
        4
    );
    assert_eq!(rt;
        change_lines(alloc, CLIENT, 4, 1, "member m1 Main crashed 0 outside\n")?,
        4
    );
    assert_eq!(rt;
        change_lines(alloc, CLIENT, 4, 1, "member m1 Main live asking\n")?,
        5
    );
    assert_eq!(rt;
        change_lines(
            alloc,
            APART,
            2,
            1,
            "member m1 Main live from 0 at 0 count 0\n"
        )?,
        2
    );
    assert_eq!(rt;
        change_lines(alloc, CLIENT, 7, 1, "now waiting ask 1 state [0]\n")?,
        7
    );
    assert_eq!(rt;
        change_lines(alloc, CLIENT, 7, 1, "now idle state [0]\n")?,
        7
    );
    assert_eq!(rt;
        change_lines(alloc, CLIENT, 7, 1, "now waiting ask 0 state [65536]\n")?,
        7
    );
    assert_eq!(rt;
        change_lines(alloc, CLIENT, 7, 1, "now waiting ask 0 state [0, 1]\n")?,
        7
    );
    assert_eq!(rt;
        change_lines(
            alloc,
            SERVER,
            6,
            1,
            "run 0 step 0 path Main procedure 1 clock 0,0 arguments [5]\n"
        )?,
        6
    );
    Ok(())
}

#[test]
fn runs_are_read(rt: HostRuntime) -> Result<(), Fail> {
    let alloc = rt.alloc();
    let run = "run 0 step 0 path Main.0.65535 procedure 0 clock 0,4294967295 arguments []\n";
    assert_eq!(rt; change_lines(alloc, CLIENT, 5, 1, run)?, 0);
    for bad in [
        "run 1 step 0 path Main procedure 0 clock 0,0 arguments []\n",
        "run 0 step 1 path Main procedure 0 clock 0,0 arguments []\n",
        "run 0 step 0 path Counter procedure 0 clock 0,0 arguments []\n",
        "run 0 step 0 path Main.65536 procedure 0 clock 0,0 arguments []\n",
        "run 0 step 0 path Main procedure 1 clock 0,0 arguments []\n",
        "run 0 step 0 path Main procedure 0 clock 0 arguments []\n",
        "run 0 step 0 path Main procedure 0 clock 0,4294967296 arguments []\n",
        "run 0 step 0 path Main procedure 0 clock 0,0 arguments [1]\n",
        "run 0 step 0 path Main procedure 0 clock 0,0 arguments [] \n",
    ] {
        assert_eq!(rt; change_lines(alloc, CLIENT, 5, 1, bad)?, 5);
    }
    for bad in [
        "ask 1 step 0 to Counter index 0 procedure 1 arguments [5] state [0]\n",
        "ask 0 step 0 to Main index 0 procedure 0 arguments [] state [0]\n",
        "ask 0 step 0 to Counter index 0 procedure 2 arguments [5] state [0]\n",
        "ask 0 step 0 to Counter index 0 procedure 1 arguments [05] state [0]\n",
        "ask 0 step 0 to Counter index 0 procedure 1 arguments [5] state []\n",
        "end 0 step 0 clock 0,0 returned [] state [0]\n",
    ] {
        assert_eq!(rt; change_lines(alloc, CLIENT, 6, 1, bad)?, 6);
    }
    assert_eq!(rt;
        change_lines(
            alloc,
            ENDED,
            10,
            1,
            "reply 0 step 1 clock 1,0 raised 7 []\n"
        )?,
        10
    );
    assert_eq!(rt;
        change_lines(
            alloc,
            ENDED,
            10,
            1,
            "reply 0 step 1 clock 1,0 raised 60009 []\n"
        )?,
        0
    );
    assert_eq!(rt; change_lines(alloc, ENDED, 11, 1, "")?, 11);
    assert_eq!(rt;
        change_lines(
            alloc,
            ENDED,
            11,
            1,
            "end 0 step 2 clock 1,0 returned [] state [5]\n"
        )?,
        11
    );
    assert_eq!(rt;
        change_lines(
            alloc,
            ENDED,
            11,
            1,
            "end 0 step 1 clock 1,0 returned [5] state [5]\n"
        )?,
        11
    );
    Ok(())
}

#[test]
fn differences_are_read(rt: HostRuntime) -> Result<(), Fail> {
    let alloc = rt.alloc();
    let other = "differ run 0 ask 0 s1 clock 1,0 returned [5] s1 clock 1,0 returned [TRUE]\n";
    assert_eq!(rt; change_lines(alloc, ENDED, 5, 1, other)?, 5);
    let own = "differ run 0 ask 0 m1 clock 1,0 returned [5] s1 clock 1,0 returned [6]\n";
    assert_eq!(rt; change_lines(alloc, ENDED, 5, 1, own)?, 5);
    let later = "differ run 1 ask 0 s1 clock 1,0 returned [5] s1 clock 1,0 returned [6]\n";
    assert_eq!(rt; change_lines(alloc, ENDED, 5, 1, later)?, 12);
    let last = "differ run 2 ask 0 s1 clock 1,0 returned [5] s1 clock 1,0 returned [6]\n";
    assert_eq!(rt; change_lines(alloc, ENDED, 5, 1, last)?, 7);
    let second = "differ run 0 ask 1 s1 clock 1,0 returned [5] s1 clock 1,0 returned [6]\n";
    assert_eq!(rt; change_lines(alloc, ENDED, 5, 1, second)?, 11);
    assert_eq!(rt; change_lines(alloc, CLIENT, 4, 0, second)?, 8);
    assert_eq!(rt; change_lines(alloc, SERVER, 4, 0, other)?, 4);
    assert_eq!(rt; change_lines(alloc, ENDED, 5, 0, "foreign 1 00\n")?, 6);
    Ok(())
}

#[test]
fn last_runs_are_read(rt: HostRuntime) -> Result<(), Fail> {
    let alloc = rt.alloc();
    assert_eq!(rt; bad_line(alloc, LAST.as_bytes())?, 0);
    assert_eq!(rt; change_lines(alloc, LAST, 6, 2, "")?, 6);
    assert_eq!(rt;
        change_lines(
            alloc,
            LAST,
            9,
            1,
            "run 4294967296 step 0 path Main procedure 0 clock 0,0 arguments []\n"
        )?,
        9
    );
    Ok(())
}

#[test]
fn runs_have_roots(rt: HostRuntime) -> Result<(), Fail> {
    let alloc = rt.alloc();
    assert_eq!(rt; bad_line_of(alloc, ROOTLESS, RELAY.as_bytes())?, 0);
    assert_eq!(rt; bad_line_of(alloc, ROOTLESS, RELAY_ENDED.as_bytes())?, 3);
    assert_eq!(rt; bad_line_of(alloc, ROOTLESS, RELAY_TOLD.as_bytes())?, 3);
    Ok(())
}

#[test]
fn views_are_read(rt: HostRuntime) -> Result<(), Fail> {
    let alloc = rt.alloc();
    assert_eq!(rt;
        change_lines(alloc, RING, 5, 1, "ringmaster ring crashed 1\n")?,
        5
    );
    assert_eq!(rt; change_lines(alloc, RING, 6, 1, "view Main 1 s1=0\n")?, 6);
    assert_eq!(rt; change_lines(alloc, RING, 6, 1, "view Counter 1\n")?, 0);
    assert_eq!(rt;
        change_lines(alloc, RING, 6, 1, "view Counter 1 zz=0\n")?,
        6
    );
    assert_eq!(rt;
        change_lines(alloc, RING, 6, 1, "view Counter 1 s1=4294967296\n")?,
        6
    );
    assert_eq!(rt; change_lines(alloc, RING, 7, 1, "")?, 7);
    assert_eq!(rt; change_lines(alloc, RING, 8, 0, "view Main 1\n")?, 8);
    Ok(())
}
