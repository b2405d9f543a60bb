//! What `gib local` promises. The function does nothing, and its contract is the promise.

ghost use Rattle.std.specs.Prelude.{◌≡◌, ◌⊎◌, ◌++◌, ℕ, List, Bool, Some};
ghost use Rattle.gib_types.specs.declared.reason.Reason.{Reason as Why};
ghost use Rattle.gib_edge.specs.Views.{ShelfView, SinkView};
ghost use Rattle.gib_words.specs.declared.plan.Options.{Options as OptionValues};
ghost use Rattle.gib_app.specs.{declared.status.Status.{Status as Statuses}, Ending.{IsEnding}, Jobs.{run_forks}};
ghost use Rattle.gib_app.specs.LocalHeadline.{IsLocalRun, MakesCore, LocalGiven, IsLocalResult, HasNoLocalResult, IsLocalTooBig, NoReadFailed};

use crate::status::Status;
use gib_file::one_file;
use gib_lex::laws::{one_reading, one_reading_in};
use gib_local_parse::law::one_text;
use gib_parse::law::one_program;

/// What is promised of a call whose words ask for `local`, by how it ends: `IsEnding` stands in the clause `ends` of `gib`. What the core
/// means is what is left of it without its places, a program of the source language.
pub fn local_prints_what_is_meant()
    // Status 0: the source makes a core that breaks no build rule, and exactly the text of the value that it means on the input within the
    // depth, with a line feed, was put.
    ensures done { (tells : Bool) (words : List (List ℕ)) (before now : ShelfView) (out out_now : SinkView) (source input : List ℕ) (options : OptionValues)
        (front said : List ℕ)
        → IsLocalRun words before out source input options front → IsEnding tells words before now out out_now Status.Done said
        → (output : List ℕ) × IsLocalResult source input options.depth output × (out_now.taken ≡ Some (front ++ output)) }
    // Status 3 or 9: it means no value, for the reason that the status tells: the meaning runs out of depth, or is a division by 0.
    ensures valueless { (tells : Bool) (words : List (List ℕ)) (before now : ShelfView) (out out_now : SinkView) (source input : List ℕ)
        (options : OptionValues) (front said : List ℕ) (why : Why)
        → IsLocalRun words before out source input options front → IsEnding tells words before now out out_now (Status.NoValue why) said
        → HasNoLocalResult source input options.depth why }
    // Status 4: the chunks of memory may not be enough for what the run of this core costs.
    ensures full { (tells : Bool) (words : List (List ℕ)) (before now : ShelfView) (out out_now : SinkView) (source input : List ℕ) (options : OptionValues)
        (front said : List ℕ)
        → IsLocalRun words before out source input options front → IsEnding tells words before now out out_now Status.Full said
        → IsLocalTooBig source input options.depth (run_forks options) options.chunks }
    // Status 1: the source makes no such core.
    ensures refused { (tells : Bool) (words : List (List ℕ)) (before now : ShelfView) (out out_now : SinkView) (source input : List ℕ)
        (options : OptionValues) (front said : List ℕ)
        → IsLocalRun words before out source input options front → IsEnding tells words before now out out_now Status.Source said → MakesCore source → ⊥ }

    // The other way round, unless memory or its chunks run out, or a file or `out` failed.
    ensures ends_done { (tells : Bool) (words : List (List ℕ)) (before now : ShelfView) (out out_now : SinkView) (source input : List ℕ)
        (options : OptionValues) (front output said : List ℕ) (status : Statuses)
        → (r : IsLocalRun words before out source input options front) → NoReadFailed r.program r.packed before now out out_now
        → IsLocalResult source input options.depth output
        → IsEnding tells words before now out out_now status said → (status ≡ Status.Done) ⊎ (status ≡ Status.Memory) ⊎ (status ≡ Status.Full) }
    ensures ends_valueless { (tells : Bool) (words : List (List ℕ)) (before now : ShelfView) (out out_now : SinkView) (source input : List ℕ)
        (options : OptionValues) (front said : List ℕ) (why : Why) (status : Statuses)
        → (r : IsLocalRun words before out source input options front) → NoReadFailed r.program r.packed before now out out_now
        → HasNoLocalResult source input options.depth why
        → IsEnding tells words before now out out_now status said → (status ≡ Status.NoValue why) ⊎ (status ≡ Status.Memory) ⊎ (status ≡ Status.Full) }
    // Where the source makes no such core, the status is 1, unless memory runs out.
    ensures ends_refused { (tells : Bool) (words : List (List ℕ)) (before now : ShelfView) (out out_now : SinkView) (source input : List ℕ)
        (options : OptionValues) (front said : List ℕ) (status : Statuses)
        → (r : IsLocalRun words before out source input options front) → NoReadFailed r.program r.packed before now out out_now → (MakesCore source → ⊥)
        → IsEnding tells words before now out out_now status said → (status ≡ Status.Source) ⊎ (status ≡ Status.Memory) }
    // Where so many chunks are enough for what the run costs, they do not run out.
    ensures fits { (tells : Bool) (words : List (List ℕ)) (before now : ShelfView) (out out_now : SinkView) (source input : List ℕ) (options : OptionValues)
        (front said : List ℕ) (status : Statuses)
        → (r : IsLocalRun words before out source input options front) → NoReadFailed r.program r.packed before now out out_now → LocalGiven source input
        → (IsLocalTooBig source input options.depth (run_forks options) options.chunks → ⊥)
        → IsEnding tells words before now out out_now status said
        → (status ≡ Status.Done) ⊎ ((why : Why) × (status ≡ Status.NoValue why)) ⊎ (status ≡ Status.Memory) }

    // There is one result at most, and none where there is no value, for one reason.
    ensures one { (source input : List ℕ) (depth : ℕ) (output other : List ℕ) → IsLocalResult source input depth output
        → IsLocalResult source input depth other → output ≡ other }
    ensures none { (source input : List ℕ) (depth : ℕ) (output : List ℕ) (why : Why) → IsLocalResult source input depth output
        → HasNoLocalResult source input depth why → ⊥ }
    ensures reason { (source input : List ℕ) (depth : ℕ) (why other : Why) → HasNoLocalResult source input depth why
        → HasNoLocalResult source input depth other → why ≡ other }
{
    one_reading();
    one_program();
    one_reading_in();
    one_text();
    one_file();
}
