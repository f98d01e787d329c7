// Which values a shape admits.
ghost use Rattle.std.specs.Prelude.{◌≡◌, ℕ, ◌==◌, ◌&&◌, nat_lt, length};
ghost use Rattle.std.specs.List.{list_any, list_all};
ghost use Rattle.circus_value.specs.ValueTree.{value_trees};
ghost use Rattle.circus_value.specs.ValueOf as values;
ghost use Rattle.circus_value.specs.ShapeOf as shapes;
ghost use Rattle.circus_value.specs.ShapeTree.{field_trees};
ghost use Rattle.circus_value.specs.Fits as fit;

use crate::{Fields, Shape, Value, Values, has_label};

/// Whether a shape admits a value: the kinds are the same throughout, a text has at most 65,535
/// bytes, an enumeration has a listed number, an array exactly its number of items, a sequence at
/// most its bound, a record one value for each field, and the value of a choice fits the first arm
/// with its number (docs/FORMATS.md, "External data"). It takes no memory.
#[cycle(fitting)]
pub fn fits(value: &Value, shape: &Shape) -> bool
    ensures { result ≡ fit.fits (shapes.tree_of shape.now) (values.tree_of value.now) }
{
    match (value, shape) {
        (Value::Boolean(_), Shape::Boolean) => true,
        (Value::Cardinal(number), Shape::Cardinal) => {
            prove!(*number <= 65_535);
            true
        }
        (Value::LongCardinal(number), Shape::LongCardinal) => {
            prove!(*number <= 4_294_967_295);
            true
        }
        (Value::Integer(number), Shape::Integer) => {
            prove!(-32_768 <= *number && *number <= 32_767);
            true
        }
        (Value::LongInteger(number), Shape::LongInteger) => {
            prove!(-2_147_483_648 <= *number && *number <= 2_147_483_647);
            true
        }
        (Value::Text(bytes), Shape::Text) => is_text(bytes.as_slice()),
        (Value::Enumeration(number), Shape::Enumeration(labels)) => {
            prove!(*number <= 65_535);
            has_label(labels.as_slice(), *number)
        }
        (Value::Array(items), Shape::Array(len, element)) => {
            items.len() == usize::from(*len) && all_fit(items, element.shape())
        }
        (Value::Sequence(items), Shape::Sequence(bound, element)) => {
            items.len() <= usize::from(*bound) && all_fit(items, element.shape())
        }
        (Value::Record(items), Shape::Record(fields)) => fields_fit(items, fields),
        (Value::Choice(number, chosen), Shape::Choice(arms)) => {
            prove!(*number <= 65_535);
            match arms.shape_of(*number) {
                Some(shape) => fits(chosen.value(), shape),
                None => false,
            }
        }
        _ => false,
    }
}

// Whether these bytes are few enough for a text.
fn is_text(bytes: &[u8]) -> bool
    ensures { result ≡ (nat_lt (length bytes.now) 65536 && list_all (λ b. nat_lt b 256) bytes.now) }
{
    bytes.len() <= 65_535
}

// Whether each item fits one shape.
#[cycle(fitting)]
fn all_fit(items: &Values, shape: &Shape) -> bool
    ensures { result ≡ fit.every (fit.fits (shapes.tree_of shape.now)) (value_trees items.now) }
{
    for item in items.as_slice() {
        if !fits(item, shape) {
            return false;
        }
    }
    true
}

// Whether there is one value for each field, which fits it.
#[cycle(fitting)]
fn fields_fit(items: &Values, fields: &Fields) -> bool
    ensures { result ≡ fit.fields_fit (field_trees fields.now) (value_trees items.now) }
{
    if items.len() != fields.len() {
        return false;
    }
    for (place, item) in items.as_slice().iter().enumerate() {
        if !fits(item, &fields.as_slice()[place].shape) {
            return false;
        }
    }
    true
}
