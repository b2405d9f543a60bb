//! What `gib run` promises. Read this first: the function does nothing, and its contract is the promise.

ghost use Rattle.std.specs.Prelude.{◌≡◌, ◌⊎◌, ◌++◌, ℕ, List, Bool, Some};
ghost use Rattle.gib_types.specs.declared.reason.Reason.{Reason as Why};
ghost use Rattle.gib_edge.specs.{Causes.{told}, Views.{ShelfView, SinkView}};
ghost use Rattle.gib_words.specs.declared.plan.Options.{Options as OptionValues};
ghost use Rattle.gib_app.specs.{declared.status.Status.{Status as Statuses}, Ending.{IsEnding}, Jobs.{run_forks}};
ghost use Rattle.gib_app.specs.Headline.{IsRun, IsPackingRun, Given, IsResult, IsResultImage, IsResultFile, HasLongFile, HasNoResult, IsTooBig, NoneFailed, NoWriteFailed};

use crate::status::Status;
use gib_file::one_file;
use gib_lex::laws::{one_reading, one_reading_in};
use gib_local_parse::law::one_text;
use gib_parse::law::one_program;

/// What is promised of a call whose words ask for `run`, by how it ends: `IsEnding` stands in the clause `ends` of `gib`,
/// on what the shelf and `out` tell before and after the call, and the line that is said.
pub fn run_prints_what_is_meant()
    // Status 0: the files are those of a program and of a packed value, and exactly the text of the value that the program
    // means on it within the depth, with a line feed, was put.
    ensures done { (tells : Bool) (words : List (List ℕ)) (before now : ShelfView) (out out_now : SinkView) (source input : List ℕ) (options : OptionValues)
        (front said : List ℕ)
        → IsRun words before out source input options front → IsEnding tells words before now out out_now Status.Done said
        → (output : List ℕ) × IsResult source input options.depth output × (out_now.taken ≡ Some (front ++ output)) }
    // With an image asked for and status 0: under its name an image was written in whose chunks that value stands, and these are no more
    // than there may be.
    ensures image { (tells : Bool) (words : List (List ℕ)) (before now : ShelfView) (out out_now : SinkView) (source input : List ℕ) (options : OptionValues)
        (front said name : List ℕ)
        → (r : IsRun words before out source input options front) → r.image ≡ Some name → IsEnding tells words before now out out_now Status.Done said
        → (bytes : List ℕ) × (now.kept name ≡ told tells bytes) × IsResultImage source input options bytes }
    // Status 3 or 9: the program means no value, for the reason that the status tells: its meaning runs out of depth, or is a division by 0.
    ensures valueless { (tells : Bool) (words : List (List ℕ)) (before now : ShelfView) (out out_now : SinkView) (source input : List ℕ)
        (options : OptionValues) (front said : List ℕ) (why : Why)
        → IsRun words before out source input options front → IsEnding tells words before now out out_now (Status.NoValue why) said
        → HasNoResult source input options.depth why }
    // Status 4: the chunks of memory may not be enough for what the run costs.
    ensures full { (tells : Bool) (words : List (List ℕ)) (before now : ShelfView) (out out_now : SinkView) (source input : List ℕ) (options : OptionValues)
        (front said : List ℕ)
        → IsRun words before out source input options front → IsEnding tells words before now out out_now Status.Full said
        → IsTooBig source input options (run_forks options) }

    // The other way round: where the program means a value, the status is 0 and no other; where it means none, the status tells the
    // reason; unless memory or its chunks run out, or a file or `out` failed.
    ensures ends_done { (tells : Bool) (words : List (List ℕ)) (before now : ShelfView) (out out_now : SinkView) (source input : List ℕ)
        (options : OptionValues) (front output said : List ℕ) (status : Statuses)
        → (r : IsRun words before out source input options front) → NoneFailed r.program r.packed r.image before now out out_now
        → IsResult source input options.depth output
        → IsEnding tells words before now out out_now status said → (status ≡ Status.Done) ⊎ (status ≡ Status.Memory) ⊎ (status ≡ Status.Full) }
    ensures ends_valueless { (tells : Bool) (words : List (List ℕ)) (before now : ShelfView) (out out_now : SinkView) (source input : List ℕ)
        (options : OptionValues) (front said : List ℕ) (why : Why) (status : Statuses)
        → (r : IsRun words before out source input options front) → NoneFailed r.program r.packed r.image before now out out_now
        → HasNoResult source input options.depth why
        → IsEnding tells words before now out out_now status said → (status ≡ Status.NoValue why) ⊎ (status ≡ Status.Memory) ⊎ (status ≡ Status.Full) }
    // Where so many chunks are enough for what the run costs, they do not run out: the status is 0, 3 or 9, and never 4.
    ensures fits { (tells : Bool) (words : List (List ℕ)) (before now : ShelfView) (out out_now : SinkView) (source input : List ℕ) (options : OptionValues)
        (front said : List ℕ) (status : Statuses)
        → (r : IsRun words before out source input options front) → NoneFailed r.program r.packed r.image before now out out_now → Given source input
        → (IsTooBig source input options (run_forks options) → ⊥)
        → IsEnding tells words before now out out_now status said
        → (status ≡ Status.Done) ⊎ ((why : Why) × (status ≡ Status.NoValue why)) ⊎ (status ≡ Status.Memory) }

    // There is one result at most, and none where there is no value, for one reason.
    ensures one { (source input : List ℕ) (depth : ℕ) (output other : List ℕ) → IsResult source input depth output → IsResult source input depth other
        → output ≡ other }
    ensures none { (source input : List ℕ) (depth : ℕ) (output : List ℕ) (why : Why) → IsResult source input depth output
        → HasNoResult source input depth why → ⊥ }
    ensures reason { (source input : List ℕ) (depth : ℕ) (why other : Why) → HasNoResult source input depth why
        → HasNoResult source input depth other → why ≡ other }
{
    one_reading();
    one_program();
    one_reading_in();
    one_text();
    one_file();
}

/// What is promised of a call whose words ask for `run` with `--pack`, which writes the packed file of the result behind the image, where
/// that is asked for. In place of 0 it may end with 10.
pub fn run_packs_what_is_meant()
    // Status 0: exactly the text of the value that the program means was put, as without that file.
    ensures done { (tells : Bool) (words : List (List ℕ)) (before now : ShelfView) (out out_now : SinkView) (source input : List ℕ) (options : OptionValues)
        (front said : List ℕ)
        → IsPackingRun words before out source input options front → IsEnding tells words before now out out_now Status.Done said
        → (output : List ℕ) × IsResult source input options.depth output × (out_now.taken ≡ Some (front ++ output)) }
    // And under its name the packed file of that value was written.
    ensures packed { (tells : Bool) (words : List (List ℕ)) (before now : ShelfView) (out out_now : SinkView) (source input : List ℕ) (options : OptionValues)
        (front said : List ℕ)
        → (r : IsPackingRun words before out source input options front) → IsEnding tells words before now out out_now Status.Done said
        → (bytes : List ℕ) × (now.kept r.pack ≡ told tells bytes) × IsResultFile source input options.depth bytes }
    // And the image, where one is asked for, under a name of its own: under one name the packed file stands there, which is written last.
    ensures image { (tells : Bool) (words : List (List ℕ)) (before now : ShelfView) (out out_now : SinkView) (source input : List ℕ) (options : OptionValues)
        (front said name : List ℕ)
        → (r : IsPackingRun words before out source input options front) → r.image ≡ Some name → (r.pack ≡ name → ⊥)
        → IsEnding tells words before now out out_now Status.Done said
        → (bytes : List ℕ) × (now.kept name ≡ told tells bytes) × IsResultImage source input options bytes }
    // Status 10: the packed file would be too long. The image was written, where one is asked for, and nothing under another name.
    ensures long { (tells : Bool) (words : List (List ℕ)) (before now : ShelfView) (out out_now : SinkView) (source input : List ℕ) (options : OptionValues)
        (front said : List ℕ)
        → IsPackingRun words before out source input options front → IsEnding tells words before now out out_now Status.Long said
        → HasLongFile source input options.depth }
    ensures long_image { (tells : Bool) (words : List (List ℕ)) (before now : ShelfView) (out out_now : SinkView) (source input : List ℕ)
        (options : OptionValues) (front said name : List ℕ)
        → (r : IsPackingRun words before out source input options front) → r.image ≡ Some name → IsEnding tells words before now out out_now Status.Long said
        → (bytes : List ℕ) × (now.kept name ≡ told tells bytes) × IsResultImage source input options bytes }
    ensures unwritten { (tells : Bool) (words : List (List ℕ)) (before now : ShelfView) (out out_now : SinkView) (source input : List ℕ)
        (options : OptionValues) (front said name : List ℕ)
        → (r : IsPackingRun words before out source input options front) → (r.image ≡ Some name → ⊥)
        → IsEnding tells words before now out out_now Status.Long said → now.kept name ≡ before.kept name }
    // Status 3, 9 and 4 come as without that file.
    ensures valueless { (tells : Bool) (words : List (List ℕ)) (before now : ShelfView) (out out_now : SinkView) (source input : List ℕ)
        (options : OptionValues) (front said : List ℕ) (why : Why)
        → IsPackingRun words before out source input options front → IsEnding tells words before now out out_now (Status.NoValue why) said
        → HasNoResult source input options.depth why }
    ensures full { (tells : Bool) (words : List (List ℕ)) (before now : ShelfView) (out out_now : SinkView) (source input : List ℕ) (options : OptionValues)
        (front said : List ℕ)
        → IsPackingRun words before out source input options front → IsEnding tells words before now out out_now Status.Full said
        → IsTooBig source input options (run_forks options) }

    // The other way round: where the program means a value the status is 0 where its packed file is not too long, and 10 where it is; where
    // it means none, the status tells the reason; unless memory or its chunks run out, or a file or `out` failed.
    ensures ends_done { (tells : Bool) (words : List (List ℕ)) (before now : ShelfView) (out out_now : SinkView) (source input : List ℕ)
        (options : OptionValues) (front bytes said : List ℕ) (status : Statuses)
        → (r : IsPackingRun words before out source input options front) → NoWriteFailed r.program r.packed r.image r.pack before now out out_now
        → IsResultFile source input options.depth bytes
        → IsEnding tells words before now out out_now status said → (status ≡ Status.Done) ⊎ (status ≡ Status.Memory) ⊎ (status ≡ Status.Full) }
    ensures ends_long { (tells : Bool) (words : List (List ℕ)) (before now : ShelfView) (out out_now : SinkView) (source input : List ℕ)
        (options : OptionValues) (front said : List ℕ) (status : Statuses)
        → (r : IsPackingRun words before out source input options front) → NoWriteFailed r.program r.packed r.image r.pack before now out out_now
        → HasLongFile source input options.depth
        → IsEnding tells words before now out out_now status said → (status ≡ Status.Long) ⊎ (status ≡ Status.Memory) ⊎ (status ≡ Status.Full) }
    ensures ends_valueless { (tells : Bool) (words : List (List ℕ)) (before now : ShelfView) (out out_now : SinkView) (source input : List ℕ)
        (options : OptionValues) (front said : List ℕ) (why : Why) (status : Statuses)
        → (r : IsPackingRun words before out source input options front) → NoWriteFailed r.program r.packed r.image r.pack before now out out_now
        → HasNoResult source input options.depth why
        → IsEnding tells words before now out out_now status said → (status ≡ Status.NoValue why) ⊎ (status ≡ Status.Memory) ⊎ (status ≡ Status.Full) }
    // Where so many chunks are enough for what the run costs, they do not run out.
    ensures fits { (tells : Bool) (words : List (List ℕ)) (before now : ShelfView) (out out_now : SinkView) (source input : List ℕ) (options : OptionValues)
        (front said : List ℕ) (status : Statuses)
        → (r : IsPackingRun words before out source input options front) → NoWriteFailed r.program r.packed r.image r.pack before now out out_now
        → Given source input
        → (IsTooBig source input options (run_forks options) → ⊥)
        → IsEnding tells words before now out out_now status said
        → (status ≡ Status.Done) ⊎ ((why : Why) × (status ≡ Status.NoValue why)) ⊎ (status ≡ Status.Memory) ⊎ (status ≡ Status.Long) }

    // There is one packed file at most, and a text with it; and none where it is too long, which has a text too.
    ensures one { (source input : List ℕ) (depth : ℕ) (bytes other : List ℕ) → IsResultFile source input depth bytes → IsResultFile source input depth other
        → bytes ≡ other }
    ensures text { (source input : List ℕ) (depth : ℕ) (bytes : List ℕ) → IsResultFile source input depth bytes
        → (output : List ℕ) × IsResult source input depth output }
    ensures long_text { (source input : List ℕ) (depth : ℕ) → HasLongFile source input depth → (output : List ℕ) × IsResult source input depth output }
    ensures short { (source input : List ℕ) (depth : ℕ) (bytes : List ℕ) → IsResultFile source input depth bytes → HasLongFile source input depth → ⊥ }
{
    one_reading();
    one_program();
    one_reading_in();
    one_text();
    one_file();
}
