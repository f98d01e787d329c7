// The command over a sink, a shelf and a link in memory, of which one call fails.
use circus_outside::{Arrivals, Failing, File, Files, MemLink, MemShelf, MemSink};
use circus_program::circus;
use circus_value::{Duplicate, NoMemory, Octets};
use std::alloc::Global;
use std::process::Abort;
use std::test::Fail;

/// One call of one server.
pub const ONE_CALL: &str = "CIRCUS 1;
Count: PROGRAM 1 VERSION 1 =
BEGIN
  Add: PROCEDURE [n: CARDINAL] RETURNS [sum: CARDINAL] = 1;
END.
MODULE Counter IMPLEMENTS Count;
BEGIN
  VAR total: CARDINAL;
  PROCEDURE Add BEGIN
    total := total + n;
    RETURN [total];
  END;
END.
ROOT Main IMPORTS Counter;
BEGIN
  VAR got: CARDINAL;
  MAIN BEGIN
    CALL Counter.Add [5] INTO [got];
    RETURN [];
  END;
END.
RINGMASTER ring PORT 9000;
TROUPE Counter CALLS FIRST REPLIES FIRST MEMBERS s1 PORT 9001;
TROUPE Main CALLS FIRST REPLIES FIRST MEMBERS m1 PORT 9002;
";

/// The schedule under which all is delivered, and the report then.
pub const DELIVER_ALL: &str = "deliver 0\ndeliver 1\ndeliver 2\ndeliver 3\n";

pub const REPORT: &str = "circus report 1
datagram 0 step 0 from m1 to s1 00000101000000000000000100010000000100000001000000000000000000010001000200000000000000000005
datagram 1 step 1 from s1 to m1 0001010100000000
datagram 2 step 1 from s1 to m1 010001010000000000000002000000010000000000000005
datagram 3 step 3 from m1 to s1 0101010100000000
ringmaster ring live
view Counter 1 s1=0
view Main 1 m1=0
member s1 Counter live from 0 at 0 count 1
run 0 step 1 path Main.0 procedure 1 clock 1,0 arguments [5]
end 0 step 1 clock 1,0 returned [5] state [5]
now idle state [5]
member m1 Main live from 0 at 0 count 1
run 0 step 0 path Main procedure 0 clock 0,0 arguments []
ask 0 step 0 to Counter index 0 procedure 1 arguments [5] state [0]
reply 0 step 3 clock 1,0 returned [5]
end 0 step 3 clock 1,0 returned [] state [5]
now idle state [5]
";

const REFUSED: &str = "circus report 1
datagram 0 step 0 from m1 to s1 00000101000000000000000100010000000100000001000000000000000000010001000200000000000000000005
schedule line 1: no datagram 9, 1 sent
";

const HISTORY: &str = "circus history 1
module Counter count 1
run 0 path Main.0 procedure 1 clock 1,0 arguments [5]
end 0 clock 1,0 returned [5] state [5]
module Main count 1
run 0 path Main procedure 0 clock 0,0 arguments []
ask 0 to Counter index 0 procedure 1 arguments [5] state [0]
reply 0 clock 1,0 returned [5]
end 0 clock 1,0 returned [] state [5]
";

const STUBS: &str = "circus stubs 1
interface Count 1 version 1
procedure Add 1
call cardinal
return cardinal
";

const RECORD: &str = "circus node 1 m1
event 0 boot
give s1 00000101000000000000000100010000000100000001000000000000000000010001000200000000000000000005
member m1 Main live from 0 at 0 count 0
run 0 step 0 path Main procedure 0 clock 0,0 arguments []
ask 0 step 0 to Counter index 0 procedure 1 arguments [5] state [0]
now waiting ask 0 state [0]
";

const PLACING: &str = "PLACE 1;
MACHINE a [site = \"n\", cores = 4];
MACHINE b [site = \"n\", cores = 8];
MACHINE c [site = \"s\", cores = 2];
MACHINE d [site = \"s\", cores = 8];
MEMBERS 2 WHERE ALL DIFFER site AND 1.cores >= 4 AND 2.cores >= 4;
PRESENT b, c;
";

const PLACED: &str = "circus place 1\nmember 1 b\nmember 2 d\nkept 1\n";

const SAMPLE: &str = "circus sample 1\nlines 1\nsent 3\nmember s1 count 1\nmember m1 count 0\n";

/// What the files `p` and `s` are.
pub type Contents = (&'static str, &'static str);

/// The call of the sink, of the shelf and of the link that fails.
#[derive(Clone, Copy)]
pub struct Failures {
    sink: Option<u64>,
    shelf: Option<u64>,
    link: Option<u64>,
}

/// None.
pub const NONE: Failures = Failures {
    sink: None,
    shelf: None,
    link: None,
};

// What a run leaves: its status, what it wrote, and how often the link was bound, took and gave.
#[derive(Drop)]
struct Ended {
    status: u8,
    written: Octets,
    link: (usize, u64, usize),
}

fn octets(alloc: Global, text: &str) -> Result<Octets, NoMemory> {
    let mut all = Octets::new(alloc);
    all.append(text.as_bytes())?;
    Ok(all)
}

/// The words of the command.
pub fn strings(alloc: Global, texts: &[&str]) -> Result<Vec<String>, NoMemory> {
    let mut all = Vec::new(alloc);
    for text in texts {
        all.push(String::from_str(alloc, text)?)?;
    }
    Ok(all)
}

// The call that fails, if a number is given.
fn fail_at(alloc: Global, number: Option<u64>) -> Result<Failing, NoMemory> {
    let mut failing = Failing::new(alloc);
    if let Some(number) = number {
        failing.push(number)?;
    }
    Ok(failing)
}

fn file(alloc: Global, name: &str, contents: &str) -> Result<File, NoMemory> {
    let name = octets(alloc, name)?;
    let contents = octets(alloc, contents)?;
    Ok(File { name, contents })
}

/// A shelf with the files `p` and `s`.
pub fn shelf(alloc: Global, contents: Contents, fails: Option<u64>) -> Result<MemShelf, NoMemory> {
    let mut files = Files::new(alloc);
    files.push(file(alloc, "p", contents.0)?)?;
    files.push(file(alloc, "s", contents.1)?)?;
    Ok(MemShelf::new(alloc, files, fail_at(alloc, fails)?))
}

/// A link at which nothing arrives.
pub fn idle_link(alloc: Global, fails: Option<u64>) -> Result<MemLink, NoMemory> {
    Ok(MemLink::new(alloc, Arrivals::new(alloc), fail_at(alloc, fails)?))
}

// Performs the words.
fn perform(
    alloc: Global,
    words: &[&str],
    contents: Contents,
    failures: Failures,
) -> Result<Ended, NoMemory> {
    let words = strings(alloc, words)?;
    let mut shelf = shelf(alloc, contents, failures.shelf)?;
    let mut sink = MemSink::new(alloc, fail_at(alloc, failures.sink)?);
    let mut link = idle_link(alloc, failures.link)?;
    let status = circus(alloc, words.as_slice(), &mut shelf, &mut sink, &mut link);
    Ok(Ended {
        status,
        written: sink.written().copy()?,
        link: (link.bound().len(), link.takes(), link.given().len()),
    })
}

// Whether the words end with a status, and write this.
fn ends(
    alloc: Global,
    row: &Row,
    failures: Failures,
    status: u8,
    written: &str,
) -> Result<bool, NoMemory> {
    let ended = perform(alloc, row.0, row.1, failures)?;
    Ok(ended.status == status && ended.written.as_slice() == written.as_bytes())
}

// Words, the files, what is written, and the status.
type Row = (&'static [&'static str], Contents, &'static str, u8);

const ROWS: [Row; 9] = [
    (&["replay", "p", "s"], (ONE_CALL, DELIVER_ALL), REPORT, 0),
    (&["replay", "p", "s"], (ONE_CALL, "deliver 9\n"), REFUSED, 3),
    (
        &["replay", "p", "s"],
        (ONE_CALL, "deliver\n"),
        "schedule line 1: bad line\n",
        3,
    ),
    (&["run", "p"], (ONE_CALL, ""), HISTORY, 0),
    (&["stubs", "p"], (ONE_CALL, ""), STUBS, 0),
    (&["sample", "p", "1", "1"], (ONE_CALL, ""), SAMPLE, 0),
    (&["node", "p", "m1", "0"], (ONE_CALL, ""), RECORD, 0),
    (&["place", "s"], ("", PLACING), PLACED, 0),
    (
        &["place", "s"],
        ("", "PLACE 1; MEMBERS 1 WHERE TRUE;"),
        "no placement\n",
        12,
    ),
];

// Asserts that what stands before the put that fails is written, whichever that is.
fn keeps_what_stands_before(rt: &impl Abort, alloc: Global, row: &Row) -> Result<(), NoMemory> {
    let mut begun = String::new(alloc);
    let mut failures = NONE;
    for (number, line) in row.2.split_inclusive('\n').enumerate() {
        failures.sink = Some(number as u64);
        assert!(rt;
            ends(alloc, row, failures, 5, begun.as_str())?,
            "at {number}"
        );
        begun.push_str(line)?;
    }
    failures.sink = Some(row.2.lines().count() as u64);
    assert!(rt; ends(alloc, row, failures, row.3, row.2)?);
    Ok(())
}

#[test]
fn a_sink_fails_at_each_line(rt: HostRuntime) -> Result<(), Fail> {
    for row in &ROWS {
        keeps_what_stands_before(&rt, rt.alloc(), row)?;
    }
    Ok(())
}

#[test]
fn a_shelf_fails(rt: HostRuntime) -> Result<(), Fail> {
    for (number, written) in [(0, "shelf fault: p\n"), (1, "shelf fault: s\n")] {
        let mut failures = NONE;
        failures.shelf = Some(number);
        assert!(rt; ends(rt.alloc(), &ROWS[0], failures, 4, written)?);
    }
    Ok(())
}

// The call of the link that fails, of those of m1 with three takes, and how many takes and gives there were then. The port is
// bound, the call is given, and then each take is followed by a give.
const FAULTS: [(u64, u64, usize); 8] = [
    (0, 0, 0),
    (1, 0, 0),
    (2, 1, 1),
    (3, 1, 1),
    (4, 2, 2),
    (5, 2, 2),
    (6, 3, 3),
    (7, 3, 3),
];

const THREE_TAKES: &[&str] = &["node", "p", "m1", "3"];

#[test]
fn a_link_fails(rt: HostRuntime) -> Result<(), Fail> {
    let mut failures = NONE;
    for (call, takes, gives) in FAULTS {
        failures.link = Some(call);
        let ended = perform(rt.alloc(), THREE_TAKES, (ONE_CALL, ""), failures)?;
        assert_eq!(rt; ended.written.as_slice(), b"link fault\n".as_slice());
        assert_eq!(rt; (ended.status, ended.link), (6, (1, takes, gives)));
    }
    failures.link = Some(8);
    let ended = perform(rt.alloc(), THREE_TAKES, (ONE_CALL, ""), failures)?;
    assert_eq!(rt; (ended.status, ended.link), (0, (1, 3, 4)));
    Ok(())
}
