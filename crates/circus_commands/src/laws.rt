// What holds of every file.
ghost use Rattle.std.specs.Prelude.{◌≡◌, ℕ, List};
ghost use Rattle.circus_commands.specs.declared.one_file.OneFile.{OneFile};
ghost use Rattle.circus_commands.specs.Ending.{Ending};
ghost use Rattle.circus_commands.specs.OneFile.{IsEndOf};

/// A command comes to one end of its file.
pub fn one_end()
    ensures { (command : OneFile) (bytes : List ℕ) (one other : Ending) → IsEndOf command bytes one
        → IsEndOf command bytes other → one ≡ other }
{}
