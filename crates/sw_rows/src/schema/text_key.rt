//! The key under which texts are hashed.

ghost use Rattle.std.specs.Prelude.{IsOkUnless};

use std::hash::{BuildHasher, DefaultHasher, RandomState};
use std::random::RandomSource;
use sw_query::Refusal;

/// What the hashes of texts hang on. Texts have the same codes under every key; it decides how fast they are found.
///
/// Under a key that nobody knows no one can pick texts whose hashes collide, so that each is looked for among all.
#[derive(Clone, Copy, Debug)]
pub struct TextKey {
    state: Option<RandomState>,
}

impl TextKey {
    /// A key made anew from random bytes of the system: make one in a run and pass it down.
    ///
    /// Refused `Input` where the system gives no random bytes.
    pub fn new(rt: &impl RandomSource) -> Result<TextKey, Refusal>
        ensures { IsOkUnless result Refusal.Input }
    {
        match RandomState::new(rt) {
            Ok(state) => Ok(TextKey { state: Some(state) }),
            Err(_) => Err(Refusal::Input),
        }
    }

    /// The key that everybody knows, for texts that no stranger picks, as those of a test.
    pub fn fixed() -> TextKey {
        TextKey { state: None }
    }
}

impl BuildHasher for TextKey {
    ghost use Rattle.sw_rows.specs.TextKeys.{hasher_under};

    type Hasher = DefaultHasher;

    ghost build_hasher = { hasher_under };

    fn build_hasher(&self) -> DefaultHasher {
        match self.state {
            Some(state) => state.build_hasher(),
            None => DefaultHasher::new(),
        }
    }
}
