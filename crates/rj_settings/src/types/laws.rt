//! A law of type lists. The function does nothing; its contract is a theorem about all texts.

ghost use Rattle.std.specs.Prelude.{◌≡◌, List, ℕ};
ghost use Rattle.rj_settings.specs.Lists.{IsTypeList};
ghost use Rattle.rj_settings.specs.declared.types.entry.TypeEntry.{TypeEntry};

/// A text is at most one list of types. So what [`read_list`](crate::types::read_list) returns is the list.
pub fn one_list()
    ensures { (text : List ℕ) (a b : List TypeEntry) → IsTypeList text a → IsTypeList text b → a ≡ b }
{}
