//! Of `educe_tokens_pieces`: how far a piece of each family reaches, and the values of literals.

pub(crate) mod comments;
pub(crate) mod numbers;
pub(crate) mod quotes;
pub(crate) mod raw_strings;
