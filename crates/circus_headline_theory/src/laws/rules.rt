// Which returns a node run accepts.
ghost use Rattle.std.specs.Prelude.{◌≡◌, ℕ, List, Some};
ghost use Rattle.circus_collate.specs.declared.deployment.Deployment.{Deployment};
ghost use Rattle.circus_headline_theory.specs.NodeRun.{accepted_return};
ghost use Rattle.circus_member_rules.specs.declared.occurrence.AskName.{AskName};
ghost use Rattle.circus_member_rules.specs.declared.occurrence.Occurrence.{Occurrence};
ghost use Rattle.circus_member_rules.specs.declared.occurrence.Purpose.{Purpose};
ghost use Rattle.circus_model.specs.declared.signature.ProcedureShape.{ProcedureShape};
ghost use Rattle.circus_model.specs.declared.signature.Signature.{Signature};
ghost use Rattle.circus_node.specs.Acceptance.{AcceptsReturn, procedure_recorded};
ghost use Rattle.circus_record.specs.declared.record.MemberRecord.{MemberRecord};
ghost use Rattle.circus_member_rules.specs.Proper.{IsProperModule, IsProperProcedure};
ghost use Rattle.circus_value.specs.Parts.{AreOctets};

/// Of the returns that come to a node run just those are accepted, by its record, of which a rule
/// says so: to an ask a reply with an outcome of what the record says that it called, Stale or
/// Before, to a request a table of its troupe, and to a state request a state that the module may
/// have (docs/PROTOCOL.md, "Accepted messages").
pub fn returns_are_accepted_by_records()
    ensures only { (d : Deployment) (declared : Signature) (kept : MemberRecord) (from : ℕ)
        (message : List ℕ) (purpose : Purpose) (o : Occurrence) → AreOctets message
        → accepted_return d declared kept from purpose message ≡ Some o
        → AcceptsReturn d declared (procedure_recorded declared kept) from purpose message o }
    ensures all { (d : Deployment) (declared : Signature) (kept : MemberRecord) (from : ℕ)
        (message : List ℕ) (purpose : Purpose) (o : Occurrence) → IsProperModule declared
        → ((name : AskName) (p : ProcedureShape) → procedure_recorded declared kept name ≡ Some p
        → IsProperProcedure p)
        → AcceptsReturn d declared (procedure_recorded declared kept) from purpose message o
        → accepted_return d declared kept from purpose message ≡ Some o }
{}
