//! Calls that are still to be made.

ghost use Rattle.std.specs.Prelude.{◌≡◌, ◌∷◌, [], None, IfSome};

use std::marker::Model;
use sw_rows::Call;

/// After how many calls the memory of those that were made is given back.
const PART: usize = 4_096;

/// Calls that are still to be made. The memory of those that were made is given back meanwhile, while the history grows by them.
/// Contracts see the calls, in order.
#[derive(Drop)]
pub(crate) struct CallsLeft {
    /// The next call stands last.
    turned: Vec<Call>,
}

impl Model for CallsLeft {
    ghost use Rattle.std.specs.Prelude.{List, reverse};
    ghost use Rattle.sw_query.specs.declared.query.Call.{Call};

    ghost Value = { List Call };

    ghost view = { λ c. reverse c.turned.items };
}

impl CallsLeft {
    /// All of these.
    pub(crate) fn of(calls: Vec<Call>) -> CallsLeft
        ensures { result ≡ calls.items }
    {
        let mut turned = calls;
        turned.reverse();
        CallsLeft { turned }
    }

    /// The next call, which is not left then.
    pub(crate) fn next(&mut self) -> Option<Call>
        ensures none { result ≡ None → self.old ≡ [] }
        ensures left { result ≡ None → self.new ≡ [] }
        ensures some { IfSome result (λ call. self.old ≡ call ∷ self.new) }
    {
        let call = self.turned.pop()?;
        if self.turned.len() % PART == 0 {
            self.turned.shrink_to(0);
        }
        Some(call)
    }
}
