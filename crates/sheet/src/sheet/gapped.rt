ghost use Rattle.gaps.specs.Gaps.{Left};

use journal::parts::Parts;
use layout::refusal::Refusal;
use layout::side::Side;

pub mod methods;

// A sheet given up for a gap of `count` lines at `at`; the gap is empty where the answer is a refusal.
// It is not `Drop`: only filling gives the sheet back.
pub struct Gapped<'a, T> {
    parts: Parts<'a, T>,
    side: Side,
    at: u32,
    count: u32,
    answer: Result<(), Refusal>,
    ghost left: { ∥ Left parts side at count answer ∥₁ },
}
