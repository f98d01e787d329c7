// Reading interfaces.
ghost use Rattle.std.specs.Prelude.{◌≡◌, ℕ, ◌≤◌, ◌⊎◌, List, [], ◌++◌, length, All, None, Err, IfOk, IfErr};
ghost use Rattle.circus_text.specs.Form.{longest_text};
ghost use Rattle.circus_text.specs.Token.{IsTokenIn, text_with_spaces};
ghost use Rattle.circus_text.specs.Division.{AreTokensOf};
ghost use Rattle.circus_syntax.specs.InterfaceTree.{InterfaceTree};
ghost use Rattle.circus_syntax.specs.Placed.{Placed};
ghost use Rattle.circus_syntax.specs.Read.{placed_from};
ghost use Rattle.circus_syntax.specs.Reader.{place_in};
ghost use Rattle.circus_syntax.specs.Spelling.{IsInterface, IsWithin, most_levels};
ghost use Rattle.circus_syntax.specs.Stopping.{IsUnexpected, IsTooDeep};
ghost use Rattle.circus_idl.specs.Faults.{cut_of, interface_faults};
ghost use Rattle.circus_idl.specs.declared.interface.Interface.{Interface};
ghost use Rattle.circus_idl.specs.Obeys.{Obeys};
ghost use Rattle.circus_idl.specs.ReadAt.{IsReadAt, IsRefused};
ghost use Rattle.circus_idl.specs.Shown.{lexemes};

use crate::check::check;
use crate::idl_fault::IdlFault;
use crate::interface::Interface;
use circus_syntax::read_interface_text;
use circus_text::TokenList;
use std::alloc::Global;

/// Reads the interface that begins at the token `at` of a text (docs/LANGUAGE.md, "Interfaces"), and answers
/// it with the number of the first token behind it.
///
/// `Expected` and `Deep` say where reading stopped. `Unknown`, `Repeated`, `OutOfRange` and `TooLarge` say
/// which rule is broken. Of all faults of what was read the one at the least place is given, at one place the
/// first in the order of `IdlFault`. `NoMemory` can come at any token.
pub fn read_interface(
    alloc: Global,
    text: &[u8],
    tokens: &TokenList,
    at: usize,
) -> Result<(Interface, usize), IdlFault>
    requires of_text { All (IsTokenIn text.now) tokens.now }
    requires inside { at ≤ length tokens.now }
    requires short { length text.now ≤ longest_text }

    // The tokens up to the one answered are an interface without a fault, whose meaning is answered.
    ensures ok { IfOk result (λ read. IsReadAt text.now tokens.now at read.0 read.1) }
    ensures obeys { IfOk result (λ read. Obeys read.0) }

    // The fault is the least of what is read.
    ensures err { IfErr result (λ e. (e ≡ IdlFault.NoMemory) ⊎ IsRefused text.now tokens.now at e) }

    // Where reading stopped, what was read begins an interface, and none goes on with the next token.
    ensures expected { (place : ℕ) → result ≡ Err (IdlFault.Expected place) → (left : List Placed)
        × IsUnexpected (placed_from text.now tokens.now at) left
        × (place ≡ place_in left (length text.now)) }
    ensures deep { (place : ℕ) → result ≡ Err (IdlFault.Deep place) → (left : List Placed)
        × IsTooDeep (placed_from text.now tokens.now at) left
        × (place ≡ place_in left (length text.now)) }

    // An interface without a fault is read wherever memory suffices.
    ensures accepts { (own rest : List Placed) (tree : InterfaceTree)
        → placed_from text.now tokens.now at ≡ own ++ rest
        → IsInterface own tree → IsWithin most_levels tree
        → interface_faults (cut_of None) tree ≡ []
        → IfErr result (λ e. e ≡ IdlFault.NoMemory) }

    // The text of an interface that obeys the rules is read as that interface, to its end.
    ensures again { (i : Interface) → Obeys i → text.now ≡ text_with_spaces (lexemes i)
        → AreTokensOf text.now tokens.now → at ≡ 0
        → IfOk result (λ read. (read.0 ≡ i) × (read.1 ≡ length tokens.now))
        × IfErr result (λ e. e ≡ IdlFault.NoMemory) }
{
    let read = read_interface_text(alloc, text, tokens, at)?;
    let interface = check(alloc, &read.interface, &read.stop)?;
    Ok((interface, read.next))
}
