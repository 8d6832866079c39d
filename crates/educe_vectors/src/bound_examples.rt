//! Tables of headers: a name, a text, and what is answered to it.

mod bounds;
mod generics;
