//! What it says that chunks are paid for: a function whose contract is the law.

ghost use Rattle.std.specs.Prelude.{ℕ, ◌*◌, ◌+◌, ◌≤◌};
ghost use Rattle.gib_core.specs.Cost.{Cost};
ghost use Rattle.gib_frame.specs.Answers.{IsPaid};

/// A cost pays for no more chunks than its regions and items can fill.
pub fn what_is_paid_is_bound()
    ensures { (most : Cost) (drew : ℕ) → IsPaid most drew → 4023 * drew ≤ 65 * most.items + 4023 * most.regions }
{}
