//! The exceptions of each trait (documentation of the crate `educe`, Bounds).
ghost use Rattle.std.specs.Prelude.{◌≡◌};
ghost use Rattle.educe_bound_classes.specs.Exceptions as spec;

use crate::exceptions::BoundExceptions;

/// Types that share or point to what they hold: a copy of them needs none of it.
const SHARING: &[&str] = &["Arc", "Rc", "Weak", "NonNull", "Cow", "Discriminant"];

/// Types that are compared through what they hold.
const COMPARED: &[&str] = &[
    "Option",
    "Result",
    "Box",
    "Vec",
    "VecDeque",
    "LinkedList",
    "BTreeMap",
    "BTreeSet",
    "Arc",
    "Rc",
    "RefCell",
    "Wrapping",
    "Reverse",
    "Saturating",
];

/// The exceptions of `Clone` (documentation of the crate `educe`, Bounds).
pub const BOUND_EXCEPTIONS_CLONE: BoundExceptions = BoundExceptions {
    unconditional_types: SHARING,
    forwarding_types: &[
        "Option",
        "Result",
        "Box",
        "Vec",
        "VecDeque",
        "LinkedList",
        "BTreeMap",
        "BTreeSet",
        "BinaryHeap",
        "HashMap",
        "HashSet",
        "RefCell",
        "Wrapping",
        "Reverse",
        "Saturating",
    ],
    shared_reference_is_unconditional: true,
};

/// The exceptions of `Copy` (documentation of the crate `educe`, Bounds).
pub const BOUND_EXCEPTIONS_COPY: BoundExceptions = BoundExceptions {
    unconditional_types: SHARING,
    forwarding_types: &["Option", "Result", "Wrapping", "Reverse", "Saturating"],
    shared_reference_is_unconditional: true,
};

/// The exceptions of `Debug` (documentation of the crate `educe`, Bounds).
pub const BOUND_EXCEPTIONS_DEBUG: BoundExceptions = BoundExceptions {
    unconditional_types: &["Weak", "NonNull", "AtomicPtr", "Discriminant"],
    forwarding_types: &[
        "Option",
        "Result",
        "Box",
        "Vec",
        "VecDeque",
        "LinkedList",
        "BTreeMap",
        "BTreeSet",
        "BinaryHeap",
        "HashMap",
        "HashSet",
        "RefCell",
        "Wrapping",
        "Reverse",
        "Saturating",
        "Arc",
        "Rc",
        "Mutex",
        "RwLock",
    ],
    shared_reference_is_unconditional: false,
};

/// The exceptions of `PartialEq` and `Eq` (documentation of the crate `educe`, Bounds).
pub const BOUND_EXCEPTIONS_EQUALITY: BoundExceptions = BoundExceptions {
    unconditional_types: &["NonNull", "Discriminant"],
    forwarding_types: COMPARED,
    shared_reference_is_unconditional: false,
};

/// The exceptions of `PartialOrd` and `Ord` (documentation of the crate `educe`, Bounds).
pub const BOUND_EXCEPTIONS_ORDER: BoundExceptions = BoundExceptions {
    unconditional_types: &["NonNull"],
    forwarding_types: COMPARED,
    shared_reference_is_unconditional: false,
};

/// The exceptions of `Hash` (documentation of the crate `educe`, Bounds).
pub const BOUND_EXCEPTIONS_HASH: BoundExceptions = BoundExceptions {
    unconditional_types: &["NonNull", "Discriminant"],
    forwarding_types: &[
        "Option",
        "Result",
        "Box",
        "Vec",
        "VecDeque",
        "LinkedList",
        "BTreeMap",
        "BTreeSet",
        "Arc",
        "Rc",
        "Wrapping",
        "Reverse",
        "Saturating",
    ],
    shared_reference_is_unconditional: false,
};

/// The exceptions of `Default` (documentation of the crate `educe`, Bounds).
pub const BOUND_EXCEPTIONS_DEFAULT: BoundExceptions = BoundExceptions {
    unconditional_types: &[
        "Option",
        "Vec",
        "VecDeque",
        "LinkedList",
        "HashMap",
        "HashSet",
        "BTreeMap",
        "BTreeSet",
        "Weak",
    ],
    forwarding_types: &[
        "Box",
        "Arc",
        "Rc",
        "Cell",
        "RefCell",
        "Mutex",
        "RwLock",
        "Wrapping",
        "Reverse",
        "Saturating",
    ],
    shared_reference_is_unconditional: false,
};

/// The exceptions of `Clone`, which are those of the documentation.
pub fn clone_exceptions() -> BoundExceptions
    ensures { result ≡ spec.clone_exceptions }
{
    BOUND_EXCEPTIONS_CLONE
}

/// The exceptions of `Copy`, which are those of the documentation.
pub fn copy_exceptions() -> BoundExceptions
    ensures { result ≡ spec.copy_exceptions }
{
    BOUND_EXCEPTIONS_COPY
}

/// The exceptions of `Debug`, which are those of the documentation.
pub fn debug_exceptions() -> BoundExceptions
    ensures { result ≡ spec.debug_exceptions }
{
    BOUND_EXCEPTIONS_DEBUG
}

/// The exceptions of `PartialEq` and `Eq`, which are those of the documentation.
pub fn equality_exceptions() -> BoundExceptions
    ensures { result ≡ spec.equality_exceptions }
{
    BOUND_EXCEPTIONS_EQUALITY
}

/// The exceptions of `PartialOrd` and `Ord`, which are those of the documentation.
pub fn order_exceptions() -> BoundExceptions
    ensures { result ≡ spec.order_exceptions }
{
    BOUND_EXCEPTIONS_ORDER
}

/// The exceptions of `Hash`, which are those of the documentation.
pub fn hash_exceptions() -> BoundExceptions
    ensures { result ≡ spec.hash_exceptions }
{
    BOUND_EXCEPTIONS_HASH
}

/// The exceptions of `Default`, which are those of the documentation.
pub fn default_exceptions() -> BoundExceptions
    ensures { result ≡ spec.default_exceptions }
{
    BOUND_EXCEPTIONS_DEFAULT
}
