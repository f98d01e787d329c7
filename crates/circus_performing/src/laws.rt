// What holds of a record after every list of acts.
ghost use Rattle.std.specs.Prelude.{◌≡◌};
ghost use Rattle.circus_model.specs.Behaviour.{Behaviour, IsModule};
ghost use Rattle.circus_performing.specs.Acts.{Acts, AreLawful, performed_by};
ghost use Rattle.circus_performing.specs.Record.{IsRecord};

/// After every lawful list of acts the record is one of a member: its runs have the indexes from its first one on, each
/// but the last has ended, and each began in the state after the run before. A run's asks and its end are the turns of
/// the module on the replies so far, with the indexes and the clock at its end that its thread's clock gives, each made in
/// the step of the answer before it. A reply is one to the open ask, at once and with the clock as it was where the thread
/// had made all its calls. The member's state is that of the open ask, or that after its runs.
pub fn records_are_kept()
    ensures { (b : Behaviour) (acts : Acts) → IsModule b → AreLawful b acts
        → IsRecord b (performed_by b acts).began (performed_by b acts).kept }
{}
