// What holds of every history, over all modules that agree and keep to the laws of `Module`.
ghost use Rattle.std.specs.Prelude.{◌≡◌, ℕ, ◌+◌, ◌<◌, true, false, List, [], ◌∷◌, ◌++◌, length, Some, slice_get, slice_index};
ghost use Rattle.circus_model.specs.declared.history.Ask.{Ask};
ghost use Rattle.circus_model.specs.declared.history.Run.{Run};
ghost use Rattle.circus_model.specs.Behaviour.{Behaviour};
ghost use Rattle.circus_model.specs.Agree.{IsAt, IsRoot, Reaches, AreModules, Agree};
ghost use Rattle.circus_model.specs.Execution.{history_of};
ghost use Rattle.circus_model.specs.History.{run_at, runs_of, state_after, clock_before, IsEarlier, FollowsTurns, ClockGrows, IsMain, IsAnswered, HasMaker, IsSamePlace, IsSameMaker};

/// A history has the runs of each module.
pub fn histories_have_all_modules()
    ensures { (program : List Behaviour) → Agree program → AreModules program
        → length (history_of program) ≡ length program }
{}

/// A run begins in the state after its module's run before, or in the first state, with a procedure that the
/// module declares and arguments that fit it. What it asks, its outcome and the state after it are its module's
/// turns on the replies so far, which fit what was asked.
pub fn runs_follow_turns()
    ensures { (program : List Behaviour) (place index : ℕ) (b : Behaviour) (run : Run)
        → Agree program → AreModules program → IsAt program place b
        → run_at (history_of program) place index ≡ Some run
        → FollowsTurns b (state_after (history_of program) place b.first index) run }
{}

/// An ask has the callee's count of the caller's clock as its index. It made the run of the callee with that index,
/// on the caller's path with the number of the ask, in the same root's thread; its reply and the clock after it
/// are that run's outcome and clock at the end. Only where the thread was spent, the reply is the error for that,
/// and the clock stays. The callee stands before the caller.
pub fn asks_make_runs()
    ensures answered { (program : List Behaviour) (place index number : ℕ) (caller : Run)
        (ask : Ask)
        → Agree program → AreModules program
        → run_at (history_of program) place index ≡ Some caller
        → slice_get caller.asks number ≡ Some ask
        → IsAnswered (history_of program) caller.root (caller.path ++ number ∷ [])
        (clock_before caller number) ask }
    ensures callee { (program : List Behaviour) (place index number : ℕ) (caller : Run) (ask : Ask)
        → Agree program → AreModules program
        → run_at (history_of program) place index ≡ Some caller
        → slice_get caller.asks number ≡ Some ask
        → ask.callee < place }
{}

/// Each run of a module that is no root was made by one ask with its index, and its clock at entry counts it.
pub fn runs_are_asked_for()
    ensures maker { (program : List Behaviour) (place index : ℕ) (b : Behaviour) (run : Run)
        → Agree program → AreModules program → IsAt program place b → b.declared.root ≡ false
        → run_at (history_of program) place index ≡ Some run
        → HasMaker (history_of program) place index }
    ensures one { (program : List Behaviour) (place index : ℕ) → Agree program → AreModules program
        → (maker other : HasMaker (history_of program) place index) → IsSameMaker maker other }
    ensures number { (program : List Behaviour) (place index : ℕ) (b : Behaviour) (run : Run)
        → Agree program → AreModules program → IsAt program place b → b.declared.root ≡ false
        → run_at (history_of program) place index ≡ Some run
        → slice_index run.entry place ≡ index + 1 }
{}

/// A root has one run, the first call of its thread: procedure 0 without arguments, on the empty path, at a clock of
/// zeros.
pub fn roots_run_once()
    ensures { (program : List Behaviour) (root : ℕ) → Agree program → AreModules program
        → IsRoot program root
        → (run : Run) × ((runs_of (history_of program) root ≡ run ∷ [])
        × IsMain (length program) root run) }
{}

/// A run's clock has a count for each module and never falls, from the end of the module's runs before on.
pub fn clocks_never_fall()
    ensures within { (program : List Behaviour) (place index : ℕ) (run : Run) → Agree program
        → AreModules program
        → run_at (history_of program) place index ≡ Some run → ClockGrows (length program) run }
    ensures between { (program : List Behaviour) (place earlier later : ℕ) (one other : Run)
        → Agree program → AreModules program → earlier < later
        → run_at (history_of program) place earlier ≡ Some one
        → run_at (history_of program) place later ≡ Some other
        → IsEarlier one.end other.entry }
{}

/// The runs of a module are all of one root's thread, and that root reaches it.
pub fn one_root_runs_a_module()
    ensures root { (program : List Behaviour) (place index : ℕ) (run : Run) → Agree program
        → AreModules program
        → run_at (history_of program) place index ≡ Some run
        → IsRoot program run.root × Reaches program run.root place }
    ensures alone { (program : List Behaviour) (place index elsewhere : ℕ) (run other : Run)
        → Agree program → AreModules program
        → run_at (history_of program) place index ≡ Some run
        → run_at (history_of program) place elsewhere ≡ Some other
        → run.root ≡ other.root }
{}

/// The length of a run's path and its module's number are together below the number of modules.
pub fn paths_are_short()
    ensures { (program : List Behaviour) (place index : ℕ) (run : Run) → Agree program
        → AreModules program
        → run_at (history_of program) place index ≡ Some run
        → length run.path + place < length program }
{}

/// A root and a path name one run.
pub fn paths_name_runs()
    ensures { (program : List Behaviour) (place index other_place other_index : ℕ) (run other : Run)
        → Agree program → AreModules program
        → run_at (history_of program) place index ≡ Some run
        → run_at (history_of program) other_place other_index ≡ Some other
        → run.root ≡ other.root → run.path ≡ other.path
        → IsSamePlace place index other_place other_index }
{}
