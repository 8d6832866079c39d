//! Laws of names that don't depend on a call: the function does nothing, and its contract is the
//! law.
ghost use Rattle.educe_names.specs.Laws.{NameLaws};

/// Names that are chosen one after the other are no words of the input, and no two are the same. No
/// name with a chosen prefix is a word of it, or is one with the prefix of another letter. Each
/// identifier of a text is, without `r#`, a run of the text, so each in the value of a string is a
/// word of the input.
pub fn name_laws()
    ensures { NameLaws }
{}
