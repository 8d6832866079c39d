//! Laws of what is derived that hold with no call: the functions do nothing, and their contracts are the
//! laws.
ghost use Rattle.educe_meaning.specs.CloneLaws.{CloneLaws};
ghost use Rattle.educe_meaning.specs.DebugLaws.{DebugLaws};
ghost use Rattle.educe_meaning.specs.DefaultLaws.{DefaultLaws};
ghost use Rattle.educe_meaning.specs.EqLaws.{EqLaws};
ghost use Rattle.educe_meaning.specs.HashLaws.{HashLaws};
ghost use Rattle.educe_meaning.specs.HeaderLaws.{HeaderLaws};
ghost use Rattle.educe_meaning.specs.Laws.{ComparisonLaws, TraitLaws};
ghost use Rattle.educe_meaning.specs.OrderLaws.{OrderLaws};

/// Where no cause of a listed trait stands, its settings are what the attributes say, and of a trait that
/// is read field by field those of fields are no others. What the context notes of the traits that an impl inherits from is what it inherits; and
/// where the bound of an impl is the automatic one, its own predicates suffice, and none of them can be
/// dropped.
pub fn trait_laws()
    ensures { TraitLaws }
{}

/// Where no cause of a comparison stands, the functions of its block evaluate, over each table and any two
/// values that it covers, to what the comparison means, methods included. The names in the scope of a
/// struct's function and of the arms of an enum's are apart from each other and, `self` aside, no words of
/// the input. Where discriminants are numbers of their type, the constants have them.
pub fn comparison_laws()
    ensures { ComparisonLaws }
{}

/// Where both orders are listed and no field has an attribute of `PartialOrd`, `partial_cmp` answers in
/// `Some` what `cmp` answers, if so do the functions that they call on fields without a method
/// (documentation of `std`, `Ord`: how it is consistent with `PartialOrd`).
pub fn order_laws()
    ensures { OrderLaws }
{}

/// Where no field says something wrong of `Hash`, the function of its block feeds, over each table and any
/// value that it covers, the place of the value's variant and what its fields feed, methods included. The
/// names in the scope of a struct's function and of the arms of an enum's are apart from each other and,
/// `self` aside, no words of the input.
pub fn hash_laws()
    ensures { HashLaws }
{}

/// The functions of the block of `Default` evaluate, over each table by which each of their calls makes a
/// value, to the struct, the variant or the whole value that the attributes determine: each field to what
/// its attributes say, or to the default value of its type.
pub fn default_laws()
    ensures { DefaultLaws }
{}

/// The names that the check of `Eq` declares are apart from each other, and none is a word of the input,
/// such as the name of a parameter. No function of the block of `Eq` is called, so that there is none to
/// evaluate.
pub fn eq_laws()
    ensures { EqLaws }
{}

/// Where no field says something wrong of `Clone`, each takes part, and the functions of its block
/// evaluate, over each table by which each of their calls makes a value, to a value that has what is made
/// of each field, methods included: `clone` to such a value, or to the value itself where that is copied as
/// a whole; `clone_from` to what `self` becomes. The names in the scope of the arms of an enum's functions
/// and of a marker are apart from each other and, `self` aside, no words of the input.
pub fn clone_laws()
    ensures { CloneLaws }
{}

/// Where no field says something wrong of `Debug`, the function of its block shows what the attributes say:
/// the name of a value, and an entry for each field that is shown, with its name, its method and its value.
/// The names in the scope of a struct's function, of the arms of an enum's and of a marker are apart from
/// each other and, `self` aside, no words of the input.
pub fn debug_laws()
    ensures { DebugLaws }
{}

/// The parameters and predicates of a header are readings of their tokens, and so are the predicates that
/// the bound of a place lists.
pub fn header_laws()
    ensures { HeaderLaws }
{}
