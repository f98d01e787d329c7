// Bytes that are a value's, and bytes that are none, in one piece and in two.
ghost use Rattle.std.specs.Prelude.{◌≤◌, length};

use bytes::Bytes;
use circus_external::ExternalFault::{self, BadPad, NotAValue, Short};
use circus_external::{read, read_fields, read_parts, write};
use circus_value::{Arm, Arms, Element, Field, Fields, ListOf, NoMemory, Parts, Shape, show};
use std::alloc::Global;
use std::test::Fail;

// The shapes of the rows.
#[derive(Clone, Copy)]
enum Form {
    Text,
    // SEQUENCE 3 OF CARDINAL
    Three,
    // CHOICE OF {none(0) => RECORD [], some(4) => CARDINAL}
    Optional,
    Integer,
    Boolean,
    // RECORD [a, b: CARDINAL]
    Pair,
}

fn shape(alloc: Global, form: Form) -> Result<Shape, NoMemory> {
    match form {
        Form::Text => Ok(Shape::Text),
        Form::Three => Ok(Shape::Sequence(3, Element::new(alloc, Shape::Cardinal)?)),
        Form::Optional => optional(alloc),
        Form::Integer => Ok(Shape::Integer),
        Form::Boolean => Ok(Shape::Boolean),
        Form::Pair => Ok(Shape::Record(pair(alloc)?)),
    }
}

fn optional(alloc: Global) -> Result<Shape, NoMemory> {
    let mut arms = Arms::new(alloc);
    arms.push(Arm {
        name: ListOf::new(alloc),
        number: 0,
        shape: Shape::Record(Fields::new(alloc)),
    })?;
    arms.push(Arm {
        name: ListOf::new(alloc),
        number: 4,
        shape: Shape::Cardinal,
    })?;
    Ok(Shape::Choice(arms))
}

fn pair(alloc: Global) -> Result<Fields, NoMemory> {
    let mut fields = Fields::new(alloc);
    for name in [ListOf::new(alloc), ListOf::new(alloc)] {
        fields.push(Field {
            name,
            shape: Shape::Cardinal,
        })?;
    }
    Ok(fields)
}

// These bytes, cut in two.
fn cut(alloc: Global, bytes: &[u8], place: usize) -> Result<Parts, NoMemory>
    requires short { length bytes.now ≤ 100 }
    requires within { place ≤ length bytes.now }
{
    let mut parts = Parts::new(alloc);
    parts.add(Bytes::copy_from_slice(alloc, &bytes[..place])?)?;
    parts.add(Bytes::copy_from_slice(alloc, &bytes[place..])?)?;
    Ok(parts)
}

// Whether the bytes are a value that is shown so, in one piece and wherever they are cut.
fn is_read(alloc: Global, bytes: &[u8], shape: &Shape, text: &str) -> Result<bool, Fail> {
    if bytes.len() > 100 {
        return Ok(false);
    }
    for place in 0..bytes.len() {
        let (value, next) = read_parts(alloc, &cut(alloc, bytes, place)?, 0, shape)?;
        if next != bytes.len() || show(alloc, &value)?.as_slice() != text.as_bytes() {
            return Ok(false);
        }
    }
    is_written(alloc, bytes, shape)
}

// Whether what is read from the bytes is written as them.
fn is_written(alloc: Global, bytes: &[u8], shape: &Shape) -> Result<bool, Fail> {
    let (value, _) = read(alloc, bytes, 0, shape)?;
    let mut out = ListOf::new(alloc);
    write(alloc, &value, shape, &mut out)?;
    Ok(out.as_slice() == bytes)
}

// Whether the bytes are no value, with this fault.
fn is_refused(
    alloc: Global,
    bytes: &[u8],
    shape: &Shape,
    fault: ExternalFault,
) -> Result<bool, NoMemory> {
    if bytes.len() > 100 {
        return Ok(false);
    }
    let fault = Some(fault);
    for place in 0..bytes.len() {
        let parts = cut(alloc, bytes, place)?;
        if read_parts(alloc, &parts, 0, shape).err() != fault {
            return Ok(false);
        }
    }
    Ok(read(alloc, bytes, 0, shape).err() == fault)
}

// Whether the bytes are refused wherever they end too early, at the unit that is cut.
fn is_short(alloc: Global, bytes: &[u8], shape: &Shape, units: &[u64]) -> Result<bool, NoMemory> {
    for len in 0..bytes.len() {
        let cut_unit = units.iter().rev().find(|unit| **unit <= len as u64);
        let Some(unit) = cut_unit else {
            return Ok(false);
        };
        if !is_refused(alloc, &bytes[..len], shape, Short(*unit))? {
            return Ok(false);
        }
    }
    Ok(true)
}

// Bytes, the value that they are of this shape, and where its numbers and its string begin.
type Row = (Form, &'static [u8], &'static str, &'static [u64]);

const VALUES: [Row; 6] = [
    (Form::Text, b"\0\x03abc\0", "\"abc\"", &[0, 2]),
    (Form::Three, &[0, 0], "{}", &[0]),
    (Form::Optional, &[0, 4, 0, 7], "4(7)", &[0, 2]),
    (Form::Integer, &[0x80, 0], "-32768", &[0]),
    (Form::Boolean, &[0, 1], "TRUE", &[0]),
    (Form::Pair, &[0, 1, 0, 2], "[1, 2]", &[0, 2]),
];

#[test]
fn values_are_read_and_written(rt: HostRuntime) -> Result<(), Fail> {
    for (form, bytes, text, units) in VALUES {
        let shape = shape(rt.alloc(), form)?;
        assert!(rt; is_read(rt.alloc(), bytes, &shape, text)?, "{text}");
        assert!(rt; is_short(rt.alloc(), bytes, &shape, units)?, "{text}");
    }
    Ok(())
}

#[test]
fn fields_are_read(rt: HostRuntime) -> Result<(), Fail> {
    let bytes = [0, 1, 0, 2].as_slice();
    let (values, next) = read_fields(rt.alloc(), &bytes, 0, &pair(rt.alloc())?)?;
    assert!(rt; next == 4 && format!(in rt.alloc(); "{values}")?.as_str() == "[1, 2]");
    Ok(())
}

#[test]
fn what_is_no_value_is_refused(rt: HostRuntime) -> Result<(), Fail> {
    let alloc = rt.alloc();
    let three = shape(alloc, Form::Three)?;
    assert!(rt; is_refused(alloc, b"\0\x03abc\x01", &Shape::Text, BadPad(5))?);
    assert!(rt; is_refused(alloc, &[0, 4], &three, NotAValue(0))?);
    assert!(rt; is_refused(alloc, &[0, 2], &Shape::Boolean, NotAValue(0))?);
    Ok(())
}
