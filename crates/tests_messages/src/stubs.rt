// The stubs of two small interfaces.
ghost use Rattle.std.specs.Prelude.{◌≡◌};
ghost use Rattle.circus_stub.specs.Compiled.{compile_stubs};

use crate::shown::interface;
use bytes::Bytes;
use circus_idl::Interface;
use circus_stub::{StubFault, Stubs, compile, show_stubs};
use circus_value::{Duplicate, Message, Outcome, Parts};
use std::alloc::Global;
use std::test::Fail;

const COUNT: &[u8] = b"Count: PROGRAM 1 VERSION 1 = BEGIN
    Add: PROCEDURE [n: CARDINAL] RETURNS [sum: CARDINAL] = 1; END.";

const VARIED: &[u8] = b"Varied: PROGRAM 2 VERSION 1 = BEGIN
    Bad: ERROR [n: CARDINAL] = 7;
    Vary: PROCEDURE [n: STRING]
    RETURNS [a: BOOLEAN, b: CARDINAL, c: LONG CARDINAL, d: INTEGER, e: LONG INTEGER, f: STRING, g: {x(3)},
    h: ARRAY 2 OF CARDINAL, i: SEQUENCE 2 OF CARDINAL, j: RECORD [n: CARDINAL], k: CHOICE OF {y(4) => CARDINAL}]
    REPORTS [Bad] = 1; END.";

// Returned: TRUE, 5, 65538, -1, -1, "abc", #3, {1, 2}, {7}, [9], 4(8)
const EACH_KIND: [u8; 38] = [
    0, 0, 0, 1, 0, 5, 0, 1, 0, 2, 255, 255, 255, 255, 255, 255, 0, 3, 97, 98, 99, 0, 0, 3, 0, 1, 0,
    2, 0, 1, 0, 7, 0, 9, 0, 4, 0, 8,
];

// Outcomes of the second interface's procedure, and how they are shown.
const OUTCOMES: [(&[u8], &str); 3] = [
    (
        &EACH_KIND,
        "returned [TRUE, 5, 65538, -1, -1, \"abc\", #3, {1, 2}, {7}, [9], 4(8)]",
    ),
    (&[0, 1, 0, 7, 0, 5], "raised 7 [5]"),
    (&[0, 1, 0xea, 0x61], "raised 60001 []"),
];

fn is_shown(alloc: Global, outcome: &Outcome, text: &str) -> Result<bool, Fail> {
    Ok(format!(in alloc; "{outcome}")?.as_str() == text)
}

// Whether an outcome is shown so, and has these bytes when it is packed again.
fn is_again(
    alloc: Global,
    interface: &Interface,
    stubs: &Stubs,
    bytes: &[u8],
    text: &str,
) -> Result<bool, Fail>
    requires { stubs.now ≡ compile_stubs interface.now stubs.now.limit }
{
    let outcome = stubs.unpack_outcome(alloc, 1, bytes)?;
    let again = stubs.pack_outcome(alloc, 1, &outcome)?;
    Ok(is_shown(alloc, &outcome, text)? && again.as_slice() == bytes)
}

// The arguments that are unpacked from the bytes, packed again.
fn arguments_again(
    alloc: Global,
    interface: &Interface,
    stubs: &Stubs,
    bytes: &[u8],
) -> Result<Message, Fail>
    requires { stubs.now ≡ compile_stubs interface.now stubs.now.limit }
{
    let values = stubs.unpack(alloc, 1, bytes)?;
    Ok(stubs.pack(alloc, 1, &values)?)
}

#[test]
fn what_is_no_call_is_refused(rt: HostRuntime) -> Result<(), Fail> {
    let alloc = rt.alloc();
    let stubs = compile(alloc, &interface(alloc, COUNT)?, 65_536)?;
    let unknown = stubs.unpack(alloc, 2, &[]);
    assert_eq!(rt; unknown.err(), Some(StubFault::NoProcedure(2)));
    let long = stubs.unpack(alloc, 1, &[0, 5, 0]);
    assert_eq!(rt; long.err(), Some(StubFault::Excess(2)));
    let unreported = stubs.unpack_outcome(alloc, 1, &[0, 1, 0, 7]);
    assert_eq!(rt; unreported.err(), Some(StubFault::NoError(7)));
    let raised = stubs.unpack_outcome(alloc, 1, &[0, 1, 0xea, 0x61])?;
    assert!(rt; is_shown(alloc, &raised, "raised 60001 []")?);
    let large = stubs.unpack(alloc, 1, &[0; 65_537]);
    assert_eq!(rt; large.err(), Some(StubFault::Large(65_537)));
    Ok(())
}

#[test]
fn what_is_unpacked_is_packed(rt: HostRuntime) -> Result<(), Fail> {
    let alloc = rt.alloc();
    let interface = interface(alloc, VARIED)?;
    let stubs = compile(alloc, &interface, 65_536)?.copy()?;
    for (bytes, text) in OUTCOMES {
        assert!(rt; is_again(alloc, &interface, &stubs, bytes, text)?, "{text}");
    }
    let arguments = arguments_again(alloc, &interface, &stubs, b"\0\x03abc\0")?;
    assert_eq!(rt; arguments.as_slice(), b"\0\x03abc\0".as_slice());
    Ok(())
}

#[test]
fn stubs_are_shown(rt: HostRuntime) -> Result<(), Fail> {
    let interface = interface(rt.alloc(), COUNT)?;
    let stubs = compile(rt.alloc(), &interface, 65_536)?;
    let text = show_stubs(rt.alloc(), &interface, &stubs)?;
    let lines = "interface Count 1 version 1\nprocedure Add 1\ncall cardinal\nreturn cardinal\n";
    assert_eq!(rt; text.as_slice(), lines.as_bytes());
    Ok(())
}

#[test]
fn parts_are_unpacked(rt: HostRuntime) -> Result<(), Fail> {
    let alloc = rt.alloc();
    let stubs = compile(alloc, &interface(alloc, COUNT)?, 65_536)?;
    let mut parts = Parts::new(alloc);
    parts.add(Bytes::copy_from_slice(alloc, &[0, 0, 0])?)?;
    parts.add(Bytes::copy_from_slice(alloc, &[5])?)?;
    let outcome = stubs.unpack_outcome_parts(alloc, 1, &parts, 0)?;
    assert!(rt; is_shown(alloc, &outcome, "returned [5]")?);
    let arguments = stubs.unpack_parts(alloc, 1, &parts, 2)?;
    assert!(rt; is_shown(alloc, &Outcome::Returned(arguments), "returned [5]")?);
    Ok(())
}
