// What is read of messages, and which are accepted, by their grammar.
ghost use Rattle.std.specs.Prelude.{◌≡◌, ℕ, true, List, [], Some, length, drop};
ghost use Rattle.circus_collate.specs.declared.deployment.Deployment.{Deployment};
ghost use Rattle.circus_collate.specs.declared.table.Table.{Table};
ghost use Rattle.circus_external.specs.Refusal.{are_proper};
ghost use Rattle.circus_header.specs.CallFields.{call_fields};
ghost use Rattle.circus_header.specs.Field.{bytes_of};
ghost use Rattle.circus_header.specs.Reading.{calls, returns};
ghost use Rattle.circus_header.specs.ReturnFields.{return_fields};
ghost use Rattle.circus_header.specs.declared.answer.ReturnHeader.{ReturnHeader};
ghost use Rattle.circus_header.specs.declared.call.Call.{Call};
ghost use Rattle.circus_header.specs.declared.call.Request.{Request};
ghost use Rattle.circus_member_rules.specs.MemberState.{MemberState};
ghost use Rattle.circus_member_rules.specs.declared.occurrence.AskName.{AskName};
ghost use Rattle.circus_member_rules.specs.declared.occurrence.Occurrence.{Occurrence};
ghost use Rattle.circus_member_rules.specs.declared.occurrence.Purpose.{Purpose};
ghost use Rattle.circus_model.specs.declared.signature.ProcedureShape.{ProcedureShape};
ghost use Rattle.circus_model.specs.declared.signature.Signature.{Signature};
ghost use Rattle.circus_node.specs.Acceptance.{AcceptsCall, AcceptsRequest, AcceptsReturn, procedure_called};
ghost use Rattle.circus_node.specs.Accepting.{accepted_call, accepted_request, accepted_return};
ghost use Rattle.circus_node.specs.Bodies.{outcome_at, restored_in, values_at};
ghost use Rattle.circus_node.specs.Grammar.{HandsOver, Heads, Spell, SpellOutcome};
ghost use Rattle.circus_node.specs.Headers.{call_in, return_in, table_at};
ghost use Rattle.circus_ring.specs.RingTable.{Kept};
ghost use Rattle.circus_ring.specs.TableFields.{tables};
ghost use Rattle.circus_transfer.specs.Snapshot.{fields_of};
ghost use Rattle.circus_member_rules.specs.Proper.{IsProperModule, IsProperProcedure};
ghost use Rattle.circus_value.specs.Parts.{AreOctets};
ghost use Rattle.circus_value.specs.ValueTree.{ValueTree};
ghost use Rattle.circus_value.specs.declared.caller.Caller.{Caller};
ghost use Rattle.circus_value.specs.declared.outcome.Outcome.{Outcome};
ghost use Rattle.circus_value.specs.declared.shape.Shape.{Shape};

/// The header that is read of a message is the one whose fields it begins with, up to the place
/// behind them, and there is one such header at most; the table that is read of bytes is the one
/// whose fields they are (docs/FORMATS.md, "Headers").
pub fn headers_are_read_by_their_fields()
    ensures call_heads { (message : List ℕ) (call : Call) (at : ℕ) → AreOctets message
        → call_in message ≡ Some (call, at)
        → Heads calls message call (drop at message) × (at ≡ length (bytes_of (call_fields call))) }
    ensures call_read { (message body : List ℕ) (call : Call) → Heads calls message call body
        → call_in message ≡ Some (call, length (bytes_of (call_fields call))) }
    ensures call_once { (message one other : List ℕ) (a b : Call) → Heads calls message a one
        → Heads calls message b other → (a ≡ b) × (one ≡ other) }
    ensures return_heads { (message : List ℕ) (header : ReturnHeader) (at : ℕ) → AreOctets message
        → return_in message ≡ Some (header, at) → Heads returns message header (drop at message)
        × (at ≡ length (bytes_of (return_fields header))) }
    ensures return_read { (message body : List ℕ) (header : ReturnHeader)
        → Heads returns message header body
        → return_in message ≡ Some (header, length (bytes_of (return_fields header))) }
    ensures return_once { (message one other : List ℕ) (a b : ReturnHeader)
        → Heads returns message a one → Heads returns message b other → (a ≡ b) × (one ≡ other) }
    ensures table_heads { (at : ℕ) (message : List ℕ) (table : Table) → AreOctets message
        → table_at at message ≡ Some table → Heads tables (drop at message) table [] }
    ensures table_read { (at : ℕ) (message : List ℕ) (table : Table)
        → Heads tables (drop at message) table [] → table_at at message ≡ Some table }
{}

/// What is read of the bytes from a place on is what they spell: values of shapes, the outcome of a
/// procedure, and of a message the state that it hands over (docs/FORMATS.md, "External data").
pub fn values_are_read_by_their_spelling()
    ensures values { (shapes : List Shape) (most at : ℕ) (message : List ℕ)
        (values : List ValueTree) → AreOctets message
        → values_at shapes most at message ≡ Some values
        → Spell shapes most (drop at message) values }
    ensures values_read { (shapes : List Shape) (most at : ℕ) (message : List ℕ)
        (values : List ValueTree) → are_proper (fields_of shapes) ≡ true
        → Spell shapes most (drop at message) values
        → values_at shapes most at message ≡ Some values }
    ensures outcome { (p : ProcedureShape) (most at : ℕ) (message : List ℕ) (outcome : Outcome)
        → AreOctets message → outcome_at p most at message ≡ Some outcome
        → SpellOutcome p most (drop at message) outcome }
    ensures outcome_read { (p : ProcedureShape) (most at : ℕ) (message : List ℕ)
        (outcome : Outcome) → IsProperProcedure p → SpellOutcome p most (drop at message) outcome
        → outcome_at p most at message ≡ Some outcome }
    ensures state { (variables : List Shape) (most : ℕ) (message : List ℕ)
        (state : List ValueTree) (count : ℕ) → AreOctets message
        → restored_in variables most message ≡ Some (state, count)
        → HandsOver variables most message state count }
    ensures state_read { (variables : List Shape) (most : ℕ) (message : List ℕ)
        (state : List ValueTree) (count : ℕ) → are_proper (fields_of variables) ≡ true
        → HandsOver variables most message state count
        → restored_in variables most message ≡ Some (state, count) }
{}

/// Of the calls that a member hears just those are accepted of which a rule says so: an ask in
/// order, with arguments of its procedure behind the header, and a state request for the own
/// troupe. At the Ringmaster it is a request about a troupe of the program (docs/PROTOCOL.md,
/// "Accepted messages").
pub fn calls_are_accepted_by_rules()
    ensures only { (d : Deployment) (declared : Signature) (own : ℕ) (sender : Caller)
        (message : List ℕ) (o : Occurrence) → AreOctets message
        → accepted_call d declared own sender message ≡ Some o
        → AcceptsCall d declared own sender message o }
    ensures all { (d : Deployment) (declared : Signature) (own : ℕ) (sender : Caller)
        (message : List ℕ) (o : Occurrence) → IsProperModule declared
        → AcceptsCall d declared own sender message o
        → accepted_call d declared own sender message ≡ Some o }
    ensures only_requests { (kept : Kept) (message : List ℕ) (request : Request)
        → AreOctets message → accepted_request kept message ≡ Some request
        → AcceptsRequest kept message request }
    ensures all_requests { (kept : Kept) (message : List ℕ) (request : Request)
        → AcceptsRequest kept message request → accepted_request kept message ≡ Some request }
{}

/// Of the returns that a member hears just those are accepted of which a rule says so: to an ask a
/// reply with an outcome of what that called, Stale or Before, to a request a table of its troupe,
/// and to a state request a state that the module may have (docs/PROTOCOL.md, "Accepted messages").
pub fn returns_are_accepted_by_rules<M>()
    ensures only { (d : Deployment) (declared : Signature) (m : MemberState M) (from : ℕ)
        (message : List ℕ) (purpose : Purpose) (o : Occurrence) → AreOctets message
        → accepted_return d declared m from purpose message ≡ Some o
        → AcceptsReturn d declared (procedure_called declared m) from purpose message o }
    ensures all { (d : Deployment) (declared : Signature) (m : MemberState M) (from : ℕ)
        (message : List ℕ) (purpose : Purpose) (o : Occurrence) → IsProperModule declared
        → ((name : AskName) (p : ProcedureShape) → procedure_called declared m name ≡ Some p
        → IsProperProcedure p)
        → AcceptsReturn d declared (procedure_called declared m) from purpose message o
        → accepted_return d declared m from purpose message ≡ Some o }
{}
