// The text of an interface.
ghost use Rattle.std.specs.Prelude.{◌≡◌, IfOk};
ghost use Rattle.circus_text.specs.Token.{text_with_spaces};
ghost use Rattle.circus_idl.specs.Obeys.{Obeys};
ghost use Rattle.circus_idl.specs.ReadAgain.{IsReadAs};
ghost use Rattle.circus_idl.specs.Shown.{lexemes};

use crate::interface::Interface;
use crate::writer::Writer;
use circus_value::{NoMemory, Octets};
use std::alloc::Global;

/// The text of an interface (docs/FORMATS.md, "Interfaces"): its tokens with one space between two, types
/// first, then errors, then procedures, each in the order of its list. `NoMemory` is the one fault.
///
/// Where the interface obeys the rules and the text has at most 1,048,576 bytes, `read_interface` reads it as
/// that interface.
pub fn show_interface(alloc: Global, interface: &Interface) -> Result<Octets, NoMemory>
    ensures text { IfOk result (λ text. text ≡ text_with_spaces (lexemes interface.now)) }

    // The text has tokens, which are that interface and no other.
    ensures again { IfOk result (λ text. Obeys interface.now → IsReadAs text interface.now) }
{
    let mut writer = Writer::new(alloc, &interface.name)?;
    writer.heading(interface)?;
    writer.declarations(interface)?;
    writer.words(" END .")?;
    Ok(writer.text())
}
