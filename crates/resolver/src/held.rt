// The resolver.
ghost use Rattle.resolver.specs.Sound.{Sound};

use crate::tables::Core;
use ladder::rules::Cost;

// A resolver. Whatever was called on it, no access leaves its tables, and they are sound. The field holds the soundness truncated, as there may be more
// than one proof of it; each call says besides that it makes sound tables of sound ones.
#[derive(Drop)]
pub struct Resolver<'t, C: Cost> {
    pub(crate) core: Core<'t, C>,
    ghost sound: { ∥ Sound C.Cost.rules core ∥₁ },
}
