// Shown texts: of a string, and of interfaces, which are read again from theirs.
use circus_idl::{Interface, read_interface, show_interface};
use circus_text::{LONGEST_TEXT, tokens};
use circus_value::{ListOf, Text, Value, show};
use std::alloc::Global;
use std::test::Fail;

const COUNT: &[u8] = b"Count: PROGRAM 1 VERSION 1 = BEGIN
    Add: PROCEDURE [n: CARDINAL] RETURNS [sum: CARDINAL] = 1; END.";

const BOOKS: &[u8] = b"Books: PROGRAM 10 VERSION 1 = BEGIN
    Short: ERROR [gap: LONG CARDINAL] = 1;
    Move: PROCEDURE [from, to: CARDINAL, amount: LONG CARDINAL]
    RETURNS [left: LONG CARDINAL] REPORTS [Short] = 1; END.";

const DESK: &[u8] = b"Desk: PROGRAM 11 VERSION 1 = BEGIN
    Pay: PROCEDURE [from, to: CARDINAL, amount: LONG CARDINAL] RETURNS [ok: BOOLEAN] = 1; END.";

// An interface, and its shown text.
type Row = (&'static [u8], &'static str);

const ROWS: [Row; 3] = [
    (
        COUNT,
        "Count : PROGRAM 1 VERSION 1 = BEGIN Add : PROCEDURE [ n : CARDINAL ] RETURNS [ sum : CARDINAL ] = 1 ; END .",
    ),
    (
        BOOKS,
        "Books : PROGRAM 10 VERSION 1 = BEGIN Short : ERROR [ gap : LONG CARDINAL ] = 1 ; Move : PROCEDURE [ from : CARDINAL , to : CARDINAL , amount : LONG CARDINAL ] RETURNS [ left : LONG CARDINAL ] REPORTS [ Short ] = 1 ; END .",
    ),
    (
        DESK,
        "Desk : PROGRAM 11 VERSION 1 = BEGIN Pay : PROCEDURE [ from : CARDINAL , to : CARDINAL , amount : LONG CARDINAL ] RETURNS [ ok : BOOLEAN ] = 1 ; END .",
    ),
];

/// The interface of a text.
pub fn interface(alloc: Global, text: &[u8]) -> Result<Interface, Fail> {
    if text.len() > LONGEST_TEXT {
        return Err(Fail::new("the text is too long"));
    }
    let found = tokens(alloc, text)?;
    let (interface, _) = read_interface(alloc, text, &found, 0)?;
    Ok(interface)
}

// Whether the interface of a text has this shown text.
fn is_shown(alloc: Global, text: &[u8], shown: &str) -> Result<bool, Fail> {
    let interface = interface(alloc, text)?;
    Ok(show_interface(alloc, &interface)?.as_slice() == shown.as_bytes())
}

#[test]
fn interfaces_are_shown_and_read_again(rt: HostRuntime) -> Result<(), Fail> {
    for (text, shown) in ROWS {
        assert!(rt; is_shown(rt.alloc(), text, shown)?);
        assert!(rt; is_shown(rt.alloc(), shown.as_bytes(), shown)?);
    }
    Ok(())
}

#[test]
fn a_string_is_shown(rt: HostRuntime) -> Result<(), Fail> {
    let mut bytes = ListOf::new(rt.alloc());
    bytes.append(b"a\"\n\\~\x7f\xff")?;
    let shown = show(rt.alloc(), &Value::Text(Text::of(rt.alloc(), bytes)?))?;
    assert_eq!(rt; shown.as_slice(), b"\"a\\22\\0a\\5c~\\7f\\ff\"".as_slice());
    Ok(())
}
