//! The end to which a journal's lines lead is one.

ghost use Rattle.std.specs.Prelude.{◌≡◌, List, true};
ghost use Rattle.gib_mem.specs.Memory.{Memory};
ghost use Rattle.gib_code.specs.{declared.answer.Answer.{Answer}, Program.{CodeTree}};
ghost use Rattle.gib_weave.specs.Weave.{Weave};
ghost use Rattle.gib_locked.specs.{Replays.{IsAnswered, IsNoEnd}, declared.journal.Line.{Line}, declared.replay_fault.ReplayFault.{ReplayFault}};
ghost use Rattle.gib_locked.specs.declared.replay_fault.ReplayFault.TheVariants as replay;

/// Where nobody else draws, the same lines lead a weave to one answer and one memory; or they do not lead to an end, for one reason.
/// Want of memory is no reason of the lines.
pub fn a_journal_has_one_end()
    ensures answers { (code : CodeTree) (start : Weave) (lines : List Line) (m n : Memory) (a b : Answer) → start.memory.alone ≡ true
        → IsAnswered code start lines m a → IsAnswered code start lines n b → (m ≡ n) × (a ≡ b) }
    ensures faults { (code : CodeTree) (start : Weave) (lines : List Line) (f g : ReplayFault) → start.memory.alone ≡ true → (f ≡ replay.Memory → ⊥) → (g ≡ replay.Memory → ⊥)
        → IsNoEnd code start lines f → IsNoEnd code start lines g → f ≡ g }
    ensures apart { (code : CodeTree) (start : Weave) (lines : List Line) (m : Memory) (a : Answer) (f : ReplayFault) → start.memory.alone ≡ true
        → IsAnswered code start lines m a → IsNoEnd code start lines f → f ≡ replay.Memory }
{}
