ghost use Rattle.step_text.specs.Laws.{KindNamesAreRead, NamesTell};

/// Law: two words of a machine that have the same name are the same word.
pub fn names_tell_words()
    ensures { NamesTell }
{}

/// Law: the reader of traces finds each kind of step by the name that is printed for it.
pub fn kind_names_are_read()
    ensures { KindNamesAreRead }
{}
