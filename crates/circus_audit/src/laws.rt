// What holds of every text.
ghost use Rattle.std.specs.Prelude.{◌≡◌, ◌<◌, ℕ, suc, List, Some, Ok, Err, length, map};
ghost use Rattle.std.specs.List.{AllByRecursion};
ghost use Rattle.circus_text.specs.Form.{IsWord};
ghost use Rattle.circus_check.specs.Meaning.{ModuleMeant};
ghost use Rattle.circus_check.specs.Resolved.{module_as};
ghost use Rattle.circus_config.specs.declared.plan.Plan.{Plan};
ghost use Rattle.circus_config.specs.Program.{IsPlan};
ghost use Rattle.circus_audit.specs.declared.given.Given.{Given};
ghost use Rattle.circus_audit.specs.RecordText.{IsRecordText};
ghost use Rattle.circus_audit.specs.BadLine.{Begins, IsBadLine};
ghost use Rattle.circus_audit.specs.Answer.{record_answer};
ghost use Rattle.circus_audit.specs.Seen.Reading.{record_read};

/// A text has one bad line at most.
pub fn one_bad_line()
    ensures { (plan : Plan) (text : List ℕ) (a b : ℕ) → IsBadLine plan text a
        → IsBadLine plan text b → a ≡ b }
{}

/// A record has none.
pub fn records_have_no_bad_line()
    ensures { (plan : Plan) (given : Given) (text : List ℕ) (line : ℕ)
        → IsRecordText plan given text → IsBadLine plan text line → ⊥ }
{}

/// What is read of a text is what it says as a record.
pub fn read_is_text()
    ensures { (plan : Plan) (text : List ℕ) (given : Given) → record_read plan text ≡ Some given
        → IsRecordText plan given text }
{}

/// And what a text says as a record is read.
pub fn text_is_read()
    ensures { (plan : Plan) (given : Given) (text : List ℕ) → IsPlan plan
        → plan.names ≡ map (λ (m : ModuleMeant). m.name) (map module_as plan.checked.modules)
        → AllByRecursion IsWord plan.names → length text < 4294967295
        → IsRecordText plan given text → record_answer plan text ≡ Ok given }
{}

/// So it says one thing.
pub fn text_says_one_thing()
    ensures { (plan : Plan) (a b : Given) (text : List ℕ) → IsPlan plan
        → plan.names ≡ map (λ (m : ModuleMeant). m.name) (map module_as plan.checked.modules)
        → AllByRecursion IsWord plan.names → length text < 4294967295
        → IsRecordText plan a text → IsRecordText plan b text → a ≡ b }
{}

/// No record goes on with the line that is answered as the bad one.
pub fn no_record_goes_on()
    ensures { (plan : Plan) (text : List ℕ) (line : ℕ) → IsPlan plan
        → plan.names ≡ map (λ (m : ModuleMeant). m.name) (map module_as plan.checked.modules)
        → AllByRecursion IsWord plan.names → length text < 4294967295
        → record_answer plan text ≡ Err line → Begins plan text line → ⊥ }
{}

/// Some record of the program has the lines before it.
pub fn some_record_goes_on_before()
    ensures { (plan : Plan) (text : List ℕ) (before : ℕ) → IsPlan plan
        → plan.names ≡ map (λ (m : ModuleMeant). m.name) (map module_as plan.checked.modules)
        → AllByRecursion IsWord plan.names → length text < 4294967295
        → record_answer plan text ≡ Err (suc before) → Begins plan text before }
{}

/// So the line that is answered is the bad one.
pub fn answered_line_is_bad()
    ensures { (plan : Plan) (text : List ℕ) (line : ℕ) → IsPlan plan
        → plan.names ≡ map (λ (m : ModuleMeant). m.name) (map module_as plan.checked.modules)
        → AllByRecursion IsWord plan.names → length text < 4294967295
        → record_answer plan text ≡ Err line → IsBadLine plan text line }
{}
