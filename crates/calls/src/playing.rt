ghost use Rattle.std.specs.Prelude.{◌≡◌, take, drop, length, min};
ghost use Rattle.journal.specs.View.{view};
ghost use Rattle.journal.specs.Answering.{Answers, Held};
ghost use Rattle.calls.specs.Calls.{Ran, call_of};

use super::call::Call;
use gaps::filling::fill_lines;
use journal::parts::Parts;
use layout::refusal::Refusal;
use leaving::settle;
use lines::{insert_lines, remove_lines};
use listings::remove_lines_at;
use resizing::resize_mut;
use swaps::swap;
use undo::undo;

// Carries out a call.
pub fn perform<T: Copy>(p: &mut Parts<'_, T>, call: &Call<'_, T>) -> Result<(), Refusal>
    requires { Held p.old }
    ensures { Answers p.old p.new (call_of call.now) result }
{
    match *call {
        Call::InsertLines(side, i, n, v) => insert_lines(p, side, i, n, v),
        Call::RemoveLines(side, i, n) => remove_lines(p, side, i, n),
        Call::RemoveLinesAt(side, list) => remove_lines_at(p, side, list),
        Call::SwapLines(side, i, j) => swap(p, side, i, j),
        Call::FillLines(side, i, n, list, v) => fill_lines(p, side, i, n, list, v),
        Call::ResizeMut(rows, columns, v) => resize_mut(p, rows, columns, v),
        Call::Undo => undo(p),
        Call::Settle => {
            settle(p);
            Ok(())
        }
    }
}

// Carries out the calls one after another, each with its answer, as far as there are places for answers; says how many.
pub fn perform_all<T: Copy>(
    p: &mut Parts<'_, T>,
    calls: &[Call<'_, T>],
    answers: &mut [Result<(), Refusal>],
) -> usize
    requires { Held p.old }
    ensures many { result ≡ min (length calls.now) (length answers.old) }
    ensures ran { Ran (view p.old) (take result calls.now) p.new (take result answers.new) }
    ensures left { drop result answers.new ≡ drop result answers.old }
    ensures held { Held p.new }
{
    let count = calls.len().min(answers.len());
    for (k, call) in calls[..count].iter().enumerate() {
        answers[k] = perform(p, call);
    }
    count
}
