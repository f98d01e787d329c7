// Writing values.
ghost use Rattle.std.specs.Prelude.{◌≡◌, ◌∷◌, ◌++◌, length, true, OnOk, OnErr};
ghost use Rattle.circus_value.specs.ValueOf as values;
ghost use Rattle.circus_value.specs.ShapeOf as shapes;
ghost use Rattle.circus_value.specs.ShapeTree.{FieldTrees};
ghost use Rattle.circus_value.specs.Fits as fit;
ghost use Rattle.circus_external.specs.Octets.{word};
ghost use Rattle.circus_external.specs.Spelling.{spelling, spelling_of_all, fields_admit, bytes_of_pieces, number, contents};

use crate::piece::{write_content, write_long, write_word};
use circus_value::{ListOf, Message, NoMemory, Shape, Value, Values, fits, values_size};
use std::alloc::Global;

/// Appends the spelling of a value that a shape admits (docs/FORMATS.md, "External data"). After
/// `NoMemory` the bytes are unchanged.
pub fn write(alloc: Global, value: &Value, shape: &Shape, out: &mut Message) -> Result<(), NoMemory>
    requires { fit.fits (shapes.tree_of shape.now) (values.tree_of value.now) ≡ true }
    ensures ok { OnOk result (out.new ≡ out.old ++ spelling (values.tree_of value.now)) }
    ensures err { OnErr result (out.new ≡ out.old) }
{
    prove!(fits(value, shape));
    let mut bytes = ListOf::new(alloc);
    spell(value, &mut bytes)?;
    out.append(bytes.as_slice())
}

/// Appends the spellings of values, one after another, for which there is a list of fields that admits
/// them (docs/FORMATS.md, "External data"). After `NoMemory` the bytes are unchanged.
pub fn write_all(alloc: Global, values: &Values, out: &mut Message) -> Result<(), NoMemory>
    requires { (fields : FieldTrees) × (fields_admit fields values.now ≡ true) }
    ensures ok { OnOk result (out.new ≡ out.old ++ spelling_of_all values.now) }
    ensures err { OnErr result (out.new ≡ out.old) }
{
    let mut bytes = ListOf::of(Vec::with_capacity(alloc, values_size(values) as usize)?);
    spell_all(values, &mut bytes)?;
    out.append(bytes.as_slice())
}

// After `NoMemory` part of the spelling may stand at the end.
#[cycle(spelling)]
fn spell(value: &Value, out: &mut Message) -> Result<(), NoMemory>
    ensures { OnOk result (out.new ≡ out.old ++ spelling (values.tree_of value.now)) }
{
    match value {
        Value::Boolean(truth) => write_word(u16::from(*truth), out),
        Value::Cardinal(number) | Value::Enumeration(number) => write_word(*number, out),
        Value::LongCardinal(number) => write_long(*number, out),
        Value::Integer(number) => write_word(number.cast_unsigned(), out),
        Value::LongInteger(number) => write_long(number.cast_unsigned(), out),
        Value::Text(bytes) => spell_text(bytes.as_slice(), out),
        Value::Array(items) | Value::Record(items) => spell_all(items, out),
        Value::Sequence(items) => {
            spell_count(items.len(), out)?;
            spell_all(items, out)
        }
        Value::Choice(number, chosen) => {
            write_word(*number, out)?;
            spell(chosen.value(), out)
        }
    }
}

#[cycle(spelling)]
fn spell_all(values: &Values, out: &mut Message) -> Result<(), NoMemory>
    ensures { OnOk result (out.new ≡ out.old ++ spelling_of_all values.now) }
{
    for value in values.as_slice() {
        spell(value, out)?;
    }
    Ok(())
}

// The low word of a count. What a shape admits has no more than 65,535 items or bytes.
fn spell_count(count: usize, out: &mut Message) -> Result<(), NoMemory>
    ensures { OnOk result (out.new ≡ out.old ++ word count) }
{
    write_word((count % 65_536) as u16, out)
}

fn spell_text(bytes: &[u8], out: &mut Message) -> Result<(), NoMemory>
    ensures { OnOk result
        (out.new ≡ out.old
        ++ bytes_of_pieces (number (word (length bytes.now)) ∷ contents bytes.now)) }
{
    spell_count(bytes.len(), out)?;
    write_content(bytes, out)
}
