//! The law of two calls of `gib`: a trace, and a replay of the journal that it wrote. The function does nothing: its contract is the law.

ghost use Rattle.std.specs.Prelude.{◌≡◌, ◌⊎◌, ℕ, List, Bool, Some};
ghost use Rattle.gib_types.specs.declared.reason.Reason.{Reason as Why};
ghost use Rattle.gib_edge.specs.Views.{ShelfView, SinkView};
ghost use Rattle.gib_app.specs.{declared.status.Status.{Status as Statuses}, Ending.{IsEnding}, Repeating.{IsRepeated, NoneFails, PutAlike}};

use crate::status::Status;
use gib_file::one_file;
use gib_lex::laws::{one_reading, one_reading_in};
use gib_local_parse::law::one_text;
use gib_parse::law::one_program;

/// A call that replays the journal of a traced run ends as the call that traced it: with the same text, or without a value for the same
/// reason. `IsEnding` stands in the clause `ends` of `gib`. Want of memory alone is free, in the second call.
pub fn a_replay_ends_as_its_trace()
    // Where the first call ends with status 0, the second one does, and puts the same text.
    ensures done { (tells : Bool) (words again : List (List ℕ)) (before left later now : ShelfView) (out out_left out_later out_now : SinkView)
        (front front_later said said_later : List ℕ) (status : Statuses)
        → (r : IsRepeated words again before left later) → NoneFails r.program r.packed r.name r.image later now out_later out_now → out.taken ≡ Some front
        → out_later.taken ≡ Some front_later
        → IsEnding tells words before left out out_left Status.Done said → IsEnding tells again later now out_later out_now status said_later
        → ((status ≡ Status.Done) × PutAlike out out_left out_later out_now front front_later) ⊎ (status ≡ Status.Memory) }
    // Where the first call ends with status 3 or 9, without a value, so does the second one, for the same reason.
    ensures valueless { (tells : Bool) (words again : List (List ℕ)) (before left later now : ShelfView) (out out_left out_later out_now : SinkView)
        (said said_later : List ℕ) (why : Why) (status : Statuses)
        → (r : IsRepeated words again before left later) → NoneFails r.program r.packed r.name r.image later now out_later out_now
        → IsEnding tells words before left out out_left (Status.NoValue why) said → IsEnding tells again later now out_later out_now status said_later
        → (status ≡ Status.NoValue why) ⊎ (status ≡ Status.Memory) }
{
    one_reading();
    one_program();
    one_reading_in();
    one_text();
    one_file();
}
