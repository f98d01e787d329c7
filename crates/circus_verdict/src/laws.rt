// What holds of every record.
ghost use Rattle.std.specs.Prelude.{◌≡◌, List};
ghost use Rattle.circus_collate.specs.declared.deployment.Deployment.{Deployment};
ghost use Rattle.circus_model.specs.Behaviour.{Behaviour};
ghost use Rattle.circus_audit.specs.declared.given.Given.{Given};
ghost use Rattle.circus_verdict.specs.declared.verdict.Verdict.{Verdict};
ghost use Rattle.circus_verdict.specs.Verdict.{IsVerdict};

/// Of a record one thing is said.
pub fn there_is_one_verdict()
    ensures { (d : Deployment) (program : List Behaviour) (given : Given) (one other : Verdict)
        → IsVerdict d program given one → IsVerdict d program given other → one ≡ other }
{}
