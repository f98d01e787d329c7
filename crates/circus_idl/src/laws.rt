// What holds of every interface that obeys the rules, and of the tokens of every text.
ghost use Rattle.std.specs.Prelude.{◌≡◌, ℕ, List, [], Option, None};
ghost use Rattle.circus_text.specs.declared.token.Token.{Token};
ghost use Rattle.circus_text.specs.Token.{text_with_spaces};
ghost use Rattle.circus_text.specs.Division.{AreTokensOf};
ghost use Rattle.circus_syntax.specs.declared.stopping.Stop.{Stop};
ghost use Rattle.circus_syntax.specs.InterfaceTree.{InterfaceTree};
ghost use Rattle.circus_syntax.specs.Placed.{Placed, AreTokens};
ghost use Rattle.circus_syntax.specs.Read.{placed_from};
ghost use Rattle.circus_syntax.specs.Spelling.{IsInterface, IsWithin, most_levels};
ghost use Rattle.circus_idl.specs.declared.idl_fault.IdlFault.{IdlFault};
ghost use Rattle.circus_idl.specs.declared.interface.Interface.{Interface};
ghost use Rattle.circus_idl.specs.Faults.{cut_of, interface_faults};
ghost use Rattle.circus_idl.specs.Means.{Means};
ghost use Rattle.circus_idl.specs.Obeys.{Obeys};
ghost use Rattle.circus_idl.specs.ReadAgain.{IsReadAs};
ghost use Rattle.circus_idl.specs.ReadAt.{IsReadAt, IsTreeOf, IsRefused};
ghost use Rattle.circus_idl.specs.Shown.{lexemes};

use circus_syntax::one_filling;

/// The text of an interface that obeys the rules has tokens, which are that interface and no other.
pub fn shown_has_tokens()
    ensures { (i : Interface) → Obeys i → IsReadAs (text_with_spaces (lexemes i)) i }
{}

/// The tokens of an interface's text are that interface again: they break no rule, and mean it and no other.
pub fn shown_is_read()
    ensures { (i : Interface) (found : List Token) → Obeys i
        → AreTokensOf (text_with_spaces (lexemes i)) found
        → (tree : InterfaceTree)
        × IsInterface (placed_from (text_with_spaces (lexemes i)) found 0) tree
        × IsWithin most_levels tree
        × (interface_faults (cut_of None) tree ≡ [])
        × Means tree i × ((j : Interface) → Means tree j → j ≡ i) }
{}

/// Tokens begin with an interface, or reading them stops in one place, for one cause and in one type and list, and not both; and
/// they are read to one tree. The grammar alone says so.
pub fn one_reading()
    ensures some { (ts : List Placed) (end : ℕ) → AreTokens ts
        → (stop : Option Stop) × (tree : InterfaceTree) × IsTreeOf ts end stop tree }
    ensures stop { (ts : List Placed) (end : ℕ) (one other : Option Stop)
        (tree same : InterfaceTree) → IsTreeOf ts end one tree → IsTreeOf ts end other same
        → one ≡ other }
    ensures tree { (ts : List Placed) (end : ℕ) (one other : Option Stop)
        (tree same : InterfaceTree) → IsTreeOf ts end one tree → IsTreeOf ts end other same
        → tree ≡ same }
{
    one_filling();
}

/// From any token on, the tokens of a text are refused in one way, and not where they begin with an interface
/// without a fault.
pub fn one_refusal()
    ensures refusal { (text : List ℕ) (ts : List Token) (at : ℕ) (one other : IdlFault)
        → IsRefused text ts at one → IsRefused text ts at other → one ≡ other }
    ensures either { (text : List ℕ) (ts : List Token) (at next : ℕ) (i : Interface)
        (refusal : IdlFault) → IsReadAt text ts at i next → IsRefused text ts at refusal → ⊥ }
{
    one_reading();
}
