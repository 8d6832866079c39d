//! Items of lists.
ghost use Rattle.std.specs.Prelude.{◌≡◌, slice_index_or, IfOk};

use educe_tokens::Seq;
use std::test::Fail;

/// The first item of a list.
pub fn first<T>(items: &Seq<T>) -> Result<&T, Fail>
    ensures { IfOk result (λ item. item.now ≡ slice_index_or items.now 0 item.now) }
{
    match items.get(0) {
        Some(item) => Ok(item),
        None => Err(Fail::from("no item")),
    }
}
