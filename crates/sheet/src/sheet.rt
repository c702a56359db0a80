ghost use Rattle.model.specs.Reached.{Reachable};
ghost use Rattle.journal.specs.View.{view};

use journal::parts::Parts;

pub mod gapped;
pub mod methods;

// A sheet over handed-in buffers; some opening and some calls lead to what it holds. Contracts speak of its parts, by
// `view` where what they hold is meant, and without where a refusal leaves them as they were, unused places and all: so
// it is no Model, which would hide those.
#[derive(Drop)]
pub struct Sheet<'a, T> {
    parts: Parts<'a, T>,
    ghost reachable: { Reachable (view parts) },
}
