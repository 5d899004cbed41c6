//! Pointers that are made from others.
ghost use Rattle.std.specs.Prelude.{◌≡◌, [], ◌∷◌, ◌++◌, IfOk};

use js_doc::{Memory, Pointer};
use std::alloc::Global;
use std::sync::Arc;

/// The pointer with one token more, to be shared.
pub(crate) fn shared_further(
    alloc: Global,
    pointer: &Pointer,
    token: &str,
) -> Result<Arc<Pointer>, Memory>
    ensures { IfOk result (λ p. p.value ≡ pointer.now ++ token.now ∷ []) }
{
    Ok(Arc::new(alloc, pointer.further(alloc, token)?)?)
}

/// The pointer, followed by the tokens of another one.
pub(crate) fn extended(alloc: Global, first: &Pointer, then: &Pointer) -> Result<Pointer, Memory>
    ensures { IfOk result (λ p. p ≡ first.now ++ then.now) }
{
    let mut extended = first.copy(alloc)?;
    for token in then.tokens() {
        extended.push(token.as_str())?;
    }
    Ok(extended)
}
