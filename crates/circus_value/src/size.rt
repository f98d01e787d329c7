// How many bytes values have in external form.
ghost use Rattle.std.specs.Prelude.{◌≡◌, ◌-◌, ◌^◌, min, map};
ghost use Rattle.circus_value.specs.ValueOf.{tree_of};
ghost use Rattle.circus_value.specs.ExternalSize as external;

use crate::{Value, Values};

/// How many bytes a value has in external form (docs/FORMATS.md, "External data"), or
/// 18,446,744,073,709,551,615 where there are more. It takes no memory.
#[cycle(sizing)]
pub fn external_size(value: &Value) -> u64
    ensures { result ≡ min (external.external_size (tree_of value.now)) (2 ^ 64 - 1) }
{
    match value {
        Value::Boolean(_) | Value::Cardinal(_) | Value::Integer(_) | Value::Enumeration(_) => 2,
        Value::LongCardinal(_) | Value::LongInteger(_) => 4,
        Value::Text(bytes) => text_size(bytes.as_slice()),
        Value::Array(items) | Value::Record(items) => values_size(items),
        Value::Sequence(items) => values_size(items).saturating_add(2),
        Value::Choice(_, chosen) => external_size(chosen.value()).saturating_add(2),
    }
}

/// How many bytes values have in external form one after another, or 18,446,744,073,709,551,615
/// where there are more. It takes no memory.
pub fn values_size(values: &Values) -> u64
    ensures { result ≡ min (external.size_of_values values.now) (2 ^ 64 - 1) }
{
    values.size()
}

/// The same of a slice, value by value.
pub(crate) fn size_of_all(values: &[Value]) -> u64
    ensures { result ≡ min (external.size_of_values (map tree_of values.now)) (2 ^ 64 - 1) }
{
    let mut total: u64 = 0;
    for value in values {
        total = total.saturating_add(external_size(value));
    }
    total
}

// A word for the length and an even number of bytes.
fn text_size(bytes: &[u8]) -> u64
    ensures { result ≡ external.text_size bytes.now }
{
    2 + 2 * (bytes.len() as u64).div_ceil(2)
}
