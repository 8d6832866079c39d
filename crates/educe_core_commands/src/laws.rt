//! Laws of inputs of several parts: the function does nothing, and its contract is the law.
ghost use Rattle.educe_core_commands.specs.PartLaws.{PartLaws};

/// An input has at most one division into parts, and a place in a part is a place in the input.
pub fn part_laws()
    ensures { PartLaws }
{}
