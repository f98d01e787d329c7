// What holds of every text of a value.
ghost use Rattle.std.specs.Prelude.{◌≡◌, ◌++◌, ℕ, List, Some, true};
ghost use Rattle.circus_value.specs.ValueTree.{ValueTree, value_trees};
ghost use Rattle.circus_value.specs.ShapeTree.{ShapeTree, FieldTrees};
ghost use Rattle.circus_value.specs.Fits.{fits, fields_fit};
ghost use Rattle.circus_value.specs.Shown.{text_of_value, shown_list};
ghost use Rattle.circus_value_text.specs.Reading.{reading, list_reading};
ghost use Rattle.circus_value_text.specs.Stopping.{Stops};

/// The text of a value that fits is read as the value, where no digit stands behind it.
pub fn shown_is_read()
    ensures { (shape : ShapeTree) (value : ValueTree) (rest : List ℕ)
        → fits shape value ≡ true → Stops rest
        → reading shape (text_of_value value ++ rest) ≡ Some (value, rest) }
{}

/// What is read as a value is the text of one that fits.
pub fn read_is_shown()
    ensures { (shape : ShapeTree) (text : List ℕ) (value : ValueTree) (rest : List ℕ)
        → reading shape text ≡ Some (value, rest)
        → (text ≡ text_of_value value ++ rest) × (fits shape value ≡ true) }
{}

/// The text of a list of values that fit is read as the list.
pub fn shown_list_is_read()
    ensures { (fields : FieldTrees) (values : List ValueTree) (rest : List ℕ)
        → fields_fit fields (value_trees values) ≡ true
        → list_reading fields (shown_list values ++ rest) ≡ Some (values, rest) }
{}

/// What is read as a list of values is the text of one that fits.
pub fn read_list_is_shown()
    ensures { (fields : FieldTrees) (text : List ℕ) (values : List ValueTree) (rest : List ℕ)
        → list_reading fields text ≡ Some (values, rest)
        → (text ≡ shown_list values ++ rest) × (fields_fit fields (value_trees values) ≡ true) }
{}
