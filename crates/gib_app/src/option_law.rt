//! The numbers that words ask for are within their ranges. The function does nothing: its contract is the law.

ghost use Rattle.std.specs.Prelude.{◌≡◌, ℕ, List, Some, true};
ghost use Rattle.gib_locked.specs.Limits.{are_settings};
ghost use Rattle.gib_words.specs.{declared.plan.Job.TheVariants.{Trace}, Plan.{Plan}, Ranges.{AreInRange}, Words.{asked}};

/// Words are refused where a number is past its range, and what stands for one that is left out is within it.
pub fn options_are_in_range()
    ensures range { (words : List (List ℕ)) (plan : Plan) → asked words ≡ Some plan → AreInRange plan.job plan.options }
    // So each run by workers over one lock that words ask for has settings.
    ensures settings { (words : List (List ℕ)) (plan : Plan) → asked words ≡ Some plan → plan.job ≡ Trace
        → are_settings plan.options.depth plan.options.chunks plan.options.fork ≡ true }
{}
