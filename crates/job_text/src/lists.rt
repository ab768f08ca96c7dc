//! Lists that grow.

ghost use Rattle.std.specs.Prelude.{◌≡◌, [], ◌∷◌, ◌++◌, IfOk};

use item_lists::Listed;
use std::alloc::{AllocError, Global};

pub(crate) const MAX_ITEMS: usize = 8;

pub(crate) fn no_items<T>(alloc: Global) -> Listed<T>
    ensures { result ≡ [] }
{
    Listed::of(Vec::new(alloc))
}

pub(crate) fn with_item<T: Drop>(list: Listed<T>, item: T) -> Result<Listed<T>, AllocError>
    ensures { IfOk result (λ longer. longer ≡ list ++ item ∷ []) }
{
    let mut items = list.into_items();
    items.push(item)?;
    Ok(Listed::of(items))
}
