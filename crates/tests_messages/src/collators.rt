// What collators answer, in tables. Of `1a` node 1 said the value `a`. Nodes are one digit each.
use circus_collate::Collated::{Answer, Differ, Waiting};
use circus_collate::Kind::{AtLeast, First, Majority, Unanimous, Watchdog};
use circus_collate::Since::{From, Joining};
use circus_collate::{Collated, Entry, Kind, Said, Since, View, collate};
use circus_value::{ListOf, NoMemory, Nodes};
use std::alloc::Global;
use std::test::Fail;

// A collator, who is down, what was said, and the answer.
type Row = (Kind, &'static str, &'static str, Collated);

const THREE: [(u16, Since); 3] = [(1, From(0)), (2, From(0)), (3, From(0))];

const FOUR: [(u16, Since); 4] = [(1, From(0)), (2, From(0)), (3, From(0)), (4, From(0))];

const LATE: [(u16, Since); 4] = [(1, From(0)), (2, From(5)), (3, Joining), (4, From(2))];

fn view(alloc: Global, members: &[(u16, Since)]) -> Result<View, NoMemory> {
    let mut entries = ListOf::new(alloc);
    for (node, since) in members {
        entries.push(Entry {
            node: *node,
            since: *since,
        })?;
    }
    Ok(View {
        troupe: 0,
        incarnation: 1,
        entries,
    })
}

fn digit(byte: u8) -> u16 {
    u16::from(byte.saturating_sub(b'0'))
}

fn nodes(alloc: Global, digits: &str) -> Result<Nodes, NoMemory> {
    let mut nodes = ListOf::new(alloc);
    for byte in digits.as_bytes() {
        nodes.push(digit(*byte))?;
    }
    Ok(nodes)
}

fn arrivals(alloc: Global, text: &str) -> Result<Vec<Said<u8>>, NoMemory> {
    let mut said = Vec::new(alloc);
    for pair in text.as_bytes().chunks_exact(2) {
        if let [node, value] = pair {
            said.push(Said {
                node: digit(*node),
                value: *value,
            })?;
        }
    }
    Ok(said)
}

const ON_THREE: [Row; 11] = [
    (First, "", "", Waiting),
    (First, "", "2b1a", Answer(0)),
    (Unanimous, "", "1a2a", Waiting),
    (Unanimous, "3", "1a2a", Answer(0)),
    (Unanimous, "123", "", Waiting),
    (Unanimous, "", "1a2b", Differ(0, 1)),
    (Majority, "", "1a2b", Waiting),
    (Majority, "", "1a2b3a", Answer(0)),
    (Majority, "", "1a2b3c", Differ(0, 1)),
    (Majority, "", "9a1a", Waiting),
    (Majority, "", "1b1a2a", Waiting),
];

const OF_FIRST: [Row; 6] = [
    (First, "1", "1a", Answer(0)),
    (First, "", "9a", Answer(0)),
    (First, "", "1a1b", Answer(0)),
    (Watchdog, "", "", Waiting),
    (Watchdog, "", "2b1a", Answer(0)),
    (Watchdog, "123", "3c3d", Answer(0)),
];

const OF_ALL: [Row; 12] = [
    (Unanimous, "", "1a2a3a", Answer(0)),
    (Unanimous, "12", "3a", Answer(0)),
    (Unanimous, "23", "1a9b", Differ(0, 1)),
    (Unanimous, "", "9a1a2a3a", Answer(0)),
    (Unanimous, "", "9a", Waiting),
    (Unanimous, "123", "9a", Answer(0)),
    (Unanimous, "", "1a1a2a3a", Answer(0)),
    (Unanimous, "", "1a2a3a1b", Differ(0, 3)),
    (Unanimous, "3", "1a2a2a2b", Differ(0, 3)),
    (Unanimous, "", "1a2b3b", Differ(0, 1)),
    (Unanimous, "3", "1a", Waiting),
    (Unanimous, "9", "1a2a", Waiting),
];

const OF_MOST: [Row; 17] = [
    (Majority, "", "1a2a", Answer(0)),
    (Majority, "", "1a", Waiting),
    (Majority, "23", "1a", Waiting),
    (Majority, "3", "1a2b", Differ(0, 1)),
    (Majority, "", "2b1a3a", Answer(1)),
    (Majority, "", "9a9b1a2a", Answer(2)),
    (Majority, "", "9b1a2a", Answer(1)),
    (Majority, "", "1a1a1a", Waiting),
    (Majority, "", "1b1a2a3a", Answer(2)),
    (Majority, "", "1a2b2a3b", Answer(1)),
    (Majority, "", "1a2b3c9c", Differ(0, 1)),
    (Majority, "", "9a1a2b3c", Differ(0, 2)),
    (Majority, "1", "2a3b", Differ(0, 1)),
    (Majority, "", "3a2a", Answer(0)),
    (Majority, "12", "3a", Waiting),
    (Majority, "123", "", Waiting),
    (Majority, "123", "9a9b", Differ(0, 1)),
];

const OF_SOME: [Row; 14] = [
    (AtLeast(1), "", "", Waiting),
    (AtLeast(1), "", "2b1a", Answer(0)),
    (AtLeast(1), "", "9a2b", Answer(1)),
    (AtLeast(2), "", "1a2b3a", Answer(0)),
    (AtLeast(2), "", "1a2b", Waiting),
    (AtLeast(2), "", "1a2b3c", Differ(0, 1)),
    (AtLeast(2), "", "1a1a2b", Waiting),
    (AtLeast(3), "", "1a2a3a", Answer(0)),
    (AtLeast(3), "", "1a2a", Waiting),
    (AtLeast(3), "3", "1a2a", Waiting),
    (AtLeast(3), "3", "1a2b", Differ(0, 1)),
    (AtLeast(4), "", "1a2a3a", Waiting),
    (AtLeast(16), "", "1a2a3b", Differ(0, 2)),
    (AtLeast(2), "", "2b2a1a3a", Answer(2)),
];

const TIES: [Row; 13] = [
    (Majority, "", "1a2a3b4b", Differ(0, 2)),
    (Majority, "", "1a2a", Waiting),
    (Majority, "", "1a2a3a", Answer(0)),
    (Majority, "4", "1a2a3b", Differ(0, 2)),
    (AtLeast(2), "", "1a2b3b4a", Answer(1)),
    (AtLeast(2), "", "1b2a3a4b", Answer(1)),
    (AtLeast(2), "", "1a2b3a4b", Answer(0)),
    (AtLeast(2), "", "1a2b1b3b4a", Answer(1)),
    (AtLeast(2), "", "1a9a2b3b", Answer(2)),
    (AtLeast(3), "", "1a2a3b4b", Differ(0, 2)),
    (AtLeast(3), "", "1a2b3a4a", Answer(0)),
    (Unanimous, "", "1a2a3a", Waiting),
    (Unanimous, "4", "1a2a3a", Answer(0)),
];

const SOME_LATE: [Row; 13] = [
    (Majority, "", "1a", Waiting),
    (Majority, "", "1a2a", Waiting),
    (Majority, "", "1a4a", Answer(0)),
    (Majority, "", "2a4a1a", Answer(1)),
    (Majority, "", "1a4b", Differ(0, 1)),
    (Unanimous, "", "1a4a", Answer(0)),
    (Unanimous, "", "3a2a", Waiting),
    (Unanimous, "14", "3a", Answer(0)),
    (AtLeast(2), "", "2a1a4a", Answer(1)),
    (AtLeast(2), "", "2a3a1a", Waiting),
    (AtLeast(1), "", "3a2a", Waiting),
    (AtLeast(1), "", "3a4b", Answer(1)),
    (First, "", "3a", Answer(0)),
];

const EARLY: [Row; 3] = [
    (Majority, "", "1a", Answer(0)),
    (Majority, "", "4a", Waiting),
    (Majority, "1", "4a2b", Differ(0, 1)),
];

const LATER: [Row; 3] = [
    (Majority, "", "2a4a", Answer(0)),
    (AtLeast(3), "", "2a4a3a", Waiting),
    (Unanimous, "", "1a2a4a", Answer(0)),
];

const OF_NOBODY: [Row; 10] = [
    (First, "", "", Waiting),
    (First, "", "9a", Answer(0)),
    (Majority, "", "1a", Waiting),
    (Majority, "", "1a2b", Differ(0, 1)),
    (AtLeast(1), "", "1a", Waiting),
    (AtLeast(1), "", "1a2b", Differ(0, 1)),
    (Unanimous, "", "", Waiting),
    (Unanimous, "", "1a", Answer(0)),
    (Unanimous, "", "1a2b", Differ(0, 1)),
    (Watchdog, "", "1a2b", Answer(0)),
];

// The members of a view, an index, and rows at that: of `LATE`, members 1 and 4 are expected at index 2, member 1 alone at
// index 1, and members 1, 2 and 4 at index 5.
const TABLES: [(&[(u16, Since)], u32, &[Row]); 10] = [
    (&THREE, 0, &ON_THREE),
    (&THREE, 0, &OF_FIRST),
    (&THREE, 0, &OF_ALL),
    (&THREE, 0, &OF_MOST),
    (&THREE, 0, &OF_SOME),
    (&FOUR, 0, &TIES),
    (&LATE, 2, &SOME_LATE),
    (&LATE, 1, &EARLY),
    (&LATE, 5, &LATER),
    (&[], 0, &OF_NOBODY),
];

// Whether a row of this view at an index has its answer.
fn is_answered(alloc: Global, view: &View, index: u32, row: &Row) -> Result<bool, NoMemory> {
    let (kind, down, said, answer) = row;
    let down = nodes(alloc, down)?;
    let said = arrivals(alloc, said)?;
    Ok(collate(*kind, &view.expects(index), &down, &said) == *answer)
}

#[test]
fn collators_answer(rt: HostRuntime) -> Result<(), Fail> {
    for (members, index, rows) in TABLES {
        let view = view(rt.alloc(), members)?;
        for (number, row) in rows.iter().enumerate() {
            let is_answered = is_answered(rt.alloc(), &view, index, row)?;
            assert!(rt; is_answered, "row {number} at index {index}");
        }
    }
    Ok(())
}
