// What holds of every file.
ghost use Rattle.std.specs.Prelude.{◌≡◌, ℕ, List, Option, None, Some};
ghost use Rattle.circus_syntax.specs.declared.stopping.Stop.{Stop};
ghost use Rattle.circus_syntax.specs.Placed.{Placed};
ghost use Rattle.circus_fault.specs.declared.fault.Fault.{Fault};
ghost use Rattle.circus_fault.specs.Least.{IsLeast, least_from};
ghost use Rattle.circus_file.specs.WrittenProgram.{WrittenProgram};
ghost use Rattle.circus_config.specs.declared.plan.Plan.{Plan};
ghost use Rattle.circus_config.specs.declared.program_fault.ProgramCause.{ProgramCause};
ghost use Rattle.circus_config.specs.declared.program_fault.ProgramFault.{ProgramFault};
ghost use Rattle.circus_config.specs.Rank.{rank_of};
ghost use Rattle.circus_config.specs.Program.{IsReadOf, IsProgramOf, IsPlan, SaysSame, IsRefused};

/// A file means one program, or is refused with one line and one cause, and not both.
pub fn one_answer()
    ensures program { (text : List ℕ) (plan other : Plan) → IsProgramOf text plan
        → IsProgramOf text other → SaysSame plan other }
    ensures refusal { (text : List ℕ) (one other : ProgramFault) → IsRefused text one
        → IsRefused text other → one ≡ other }
    ensures either { (text : List ℕ) (plan : Plan) (refusal : ProgramFault) → IsProgramOf text plan
        → IsRefused text refusal → ⊥ }
{}

/// A plan that a file means obeys its rules as a whole.
pub fn programs_are_plans()
    ensures { (text : List ℕ) (plan : Plan) → IsProgramOf text plan → IsPlan plan }
{}

/// Tokens are a program, or reading them stops in one place, for one cause and in one type and list, and not both; and they are
/// read to one list of interfaces. The grammar alone says so.
pub fn one_reading()
    ensures stop { (ts : List Placed) (end : ℕ) (one other : Option Stop) (w v : WrittenProgram)
        → IsReadOf ts end one w → IsReadOf ts end other v → one ≡ other }
    ensures interfaces { (ts : List Placed) (end : ℕ) (one other : Option Stop)
        (w v : WrittenProgram) → IsReadOf ts end one w → IsReadOf ts end other v
        → w.interfaces ≡ v.interfaces }
{}

/// The fault that is answered is one of all, and none of them is before it.
pub fn answer_is_least()
    ensures { (faults : List (Fault ProgramCause)) (fault : Fault ProgramCause)
        → least_from rank_of None faults ≡ Some fault → IsLeast rank_of fault faults }
{}
