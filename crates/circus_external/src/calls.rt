// The calls that read values from bytes in one piece and in parts.
ghost use Rattle.std.specs.Prelude.{◌≡◌, ◌≤◌, ℕ, true, Err, length, drop, IfOk};
ghost use Rattle.circus_value.specs.ValueOf as values;
ghost use Rattle.circus_value.specs.ShapeOf as shapes;
ghost use Rattle.circus_value.specs.ValueTree.{ValueTree};
ghost use Rattle.circus_value.specs.Fits as fit;
ghost use Rattle.circus_external.specs.Spelling.{pieces};
ghost use Rattle.circus_external.specs.Answer.{Answer};
ghost use Rattle.circus_external.specs.Refusal.{IsShort, IsNotAValue, IsBadPad, From, IsAnswer, is_proper};
ghost use Rattle.circus_external.specs.Reading as pure;
ghost use Rattle.circus_external.specs.Seen.Given.{Gives, IsReadAt};

use crate::{ExternalFault, read_from};
use circus_value::{Parts, Shape, Value};
use std::alloc::Global;

/// The value of a shape whose spelling begins at a place, and the place behind it (docs/FORMATS.md,
/// "External data"). Numbers and strings are read from left to right, and the first fault decides:
/// `Short` with the place of the number or the string's bytes that are not whole, `NotAValue` with the
/// place of a number that no value of the shape goes on with, `BadPad` with the place of the byte that ought
/// to be zero. `NoMemory` can come at any string, item and choice.
pub fn read(
    alloc: Global,
    bytes: &[u8],
    at: usize,
    shape: &Shape,
) -> Result<(Value, usize), ExternalFault>
    requires { at ≤ length bytes.now }
    // What is read is spelled there.
    ensures value { IfOk result (λ r.
        IsReadAt (shapes.tree_of shape.now) (values.tree_of r.0) bytes.now at r.1) }

    // A fault is that of the bytes from the place on.
    ensures short { (place : ℕ) → result ≡ Err (ExternalFault.Short place)
        → is_proper (shapes.tree_of shape.now) ≡ true
        → From (IsShort (fit.fits (shapes.tree_of shape.now)) pieces (drop at bytes.now)) at place }
    ensures not_a_value { (place : ℕ) → result ≡ Err (ExternalFault.NotAValue place)
        → is_proper (shapes.tree_of shape.now) ≡ true
        → From (IsNotAValue (fit.fits (shapes.tree_of shape.now)) pieces (drop at bytes.now)) at
        place }
    ensures bad_pad { (place : ℕ) → result ≡ Err (ExternalFault.BadPad place)
        → is_proper (shapes.tree_of shape.now) ≡ true
        → From (IsBadPad (fit.fits (shapes.tree_of shape.now)) pieces (drop at bytes.now)) at
        place }

    // No other answer is given.
    ensures only { (answer : Answer ValueTree) → is_proper (shapes.tree_of shape.now) ≡ true
        → IsAnswer (fit.fits (shapes.tree_of shape.now)) pieces at (drop at bytes.now) answer
        → Gives values.tree_of bytes.now result answer }

    // Which answer it is.
    ensures exact { Gives values.tree_of bytes.now result
        (pure.reading (shapes.tree_of shape.now) at (drop at bytes.now)) }
{
    read_from(alloc, &bytes, at, shape)
}

/// Answers as `read` on the joined bytes, and joins nothing: only the bytes of strings are copied. A byte is
/// found at once where all parts but the last are of one length, as those of a message are.
pub fn read_parts(
    alloc: Global,
    parts: &Parts,
    at: usize,
    shape: &Shape,
) -> Result<(Value, usize), ExternalFault>
    requires { at ≤ length parts.now }
    // What is read is spelled there.
    ensures value { IfOk result (λ r.
        IsReadAt (shapes.tree_of shape.now) (values.tree_of r.0) parts.now at r.1) }

    // A fault is that of the bytes from the place on.
    ensures short { (place : ℕ) → result ≡ Err (ExternalFault.Short place)
        → is_proper (shapes.tree_of shape.now) ≡ true
        → From (IsShort (fit.fits (shapes.tree_of shape.now)) pieces (drop at parts.now)) at place }
    ensures not_a_value { (place : ℕ) → result ≡ Err (ExternalFault.NotAValue place)
        → is_proper (shapes.tree_of shape.now) ≡ true
        → From (IsNotAValue (fit.fits (shapes.tree_of shape.now)) pieces (drop at parts.now)) at
        place }
    ensures bad_pad { (place : ℕ) → result ≡ Err (ExternalFault.BadPad place)
        → is_proper (shapes.tree_of shape.now) ≡ true
        → From (IsBadPad (fit.fits (shapes.tree_of shape.now)) pieces (drop at parts.now)) at
        place }

    // No other answer is given.
    ensures only { (answer : Answer ValueTree) → is_proper (shapes.tree_of shape.now) ≡ true
        → IsAnswer (fit.fits (shapes.tree_of shape.now)) pieces at (drop at parts.now) answer
        → Gives values.tree_of parts.now result answer }

    // The answer of `read`.
    ensures exact { Gives values.tree_of parts.now result
        (pure.reading (shapes.tree_of shape.now) at (drop at parts.now)) }
{
    prove!(at <= parts.len());
    read_from(alloc, parts, at, shape)
}
