//! Of `educe_tokens` and `educe_tokens_interner`: tokens of texts and of templates, their printed text, values and
//! rejections; token lists by numbers.

pub(crate) mod described;
mod interning;
pub(crate) mod kinds;
mod lists;
pub(crate) mod nesting;
mod printing;
pub(crate) mod refusals;
mod templates;
pub(crate) mod values;
