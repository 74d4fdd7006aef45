//! A law of command lines. The function does nothing; its contract is a theorem about their options.

ghost use Rattle.std.specs.Prelude.{◌≡◌, ◌++◌, Bool, codes};
ghost use Rattle.std.specs.List.{filter_map};
ghost use Rattle.rj_line.specs.Options.{OptionWords, option_rules};
ghost use Rattle.rj_line.specs.declared.form.Form.{Form};
ghost use Rattle.rj_files.specs.Asking.{letters};

/// The letters that may stand behind `-q` are those of all options of a line, of help and of the
/// version.
pub fn letters_are_of_options()
    ensures { (form : Form) (by_word : Bool) (words : OptionWords) → filter_map (λ r. r.short) (option_rules form by_word words) ++ codes "hV" ≡ letters }
{}
