//! A law of the definitions alone: a function that does nothing, whose contract is what is proved.

ghost use Rattle.std.specs.Prelude.{◌≡◌, ◌≤◌, ℕ, List, Option, length};
ghost use Rattle.run_options.specs.WordsFault.{words_fault};
ghost use Rattle.run_options.specs.ListFault.{list_fault};

/// Up to 63 files have the same fault in a list as among the words of the command line.
pub fn list_is_as_words()
    ensures { (society name date time : List ℕ) (files : List (List ℕ)) (from to : Option (List ℕ)) → length files ≤ 63
        → list_fault society name date time files from to ≡ words_fault society name date time files from to }
{}
