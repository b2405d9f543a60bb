//! A machine at its first instruction.

ghost use Rattle.std.specs.Prelude.{◌≡◌, ◌≤◌, ◌<◌, ◌+◌, ◌-◌, ◌^◌, ℕ, [], length, map, Option, Some, None, IfOk, IfErr, IfSome, IfNone, IsTrue, if◌then◌else◌};
ghost use Rattle.gib_code.specs.Instruction.{instruction_of, target_slots};
ghost use Rattle.gib_machine.specs.{State.{Ready, Opening, nesting_from}, Sides.{fork_of, side_doing, side_start}, Frames.{FitsFrame}};
ghost use Rattle.gib_machine.specs.Starting.{begun, is_packed, main_entry, started, forking_of, waiting_of};
ghost use Rattle.gib_machine.specs.State as st;
ghost use Rattle.gib_machine.specs.Machine as m;
ghost use Rattle.gib_machine.specs.Starting as s;

use crate::frames::Frames;
use crate::item::Item;
use crate::regions::Openings;
use crate::state::{Doing, Machine};
use gib_base::Memory;
use gib_code::{AnswerType, Code, Entry, Fork, Instr, Kind, Side, Targets};
use gib_types::Ty;
use std::alloc::{AllocError, Global};

/// How a machine begins: where, with how many slots, how many calls and forks may nest, with which slots it ends where it is a right
/// side, with what type of answer, and whether it opens a region first.
#[derive(Clone, Copy)]
pub struct Start {
    pub label: u32,
    pub slots: u32,
    pub depth: u32,
    pub level: u32,
    pub side: Targets,
    pub result: AnswerType,
    pub opens: bool,
}

/// The slots of the widest frame.
fn widest(functions: &[Entry]) -> u32
    ensures { result ≡ st.widest functions.now }
{
    let mut rest = functions;
    let mut most = 0;
    'functions: while let [entry, after @ ..] = rest {
        most = most.max(entry.slots);
        rest = after;
    }
    most
}

/// Whether the answer is one packed value.
fn is_packed(due: AnswerType) -> bool
    ensures { result ≡ is_packed due }
{
    match due {
        AnswerType::One(Ty::Whole) => false,
        AnswerType::One(Ty::Truth) => false,
        AnswerType::One(Ty::Tree(_)) => true,
        AnswerType::Parts => false,
    }
}

/// No slots: a machine that is no right side ends with none.
fn no_targets() -> Targets
    ensures { target_slots result ≡ [] }
{
    Targets { first: 0, count: 0 }
}

/// Whether a right side that is a task of its own begins with a region.
fn opens_region(kind: Kind) -> bool
    ensures { side_doing kind ≡ (if result then Opening else Ready) }
{
    match kind {
        Kind::Here => true,
        Kind::Region => false,
        Kind::Scalar => false,
        Kind::Several => false,
    }
}

/// Main, the last of the functions; None where there is none.
#[tactic(auto, using(crate::proofs::Starts::main_is_last, crate::proofs::Starts::last_fits, crate::proofs::Starts::main_none))]
fn main_of(functions: &[Entry]) -> Option<Entry>
    ensures some { IfSome result (λ e. main_entry functions.now ≡ Some e) }
    ensures fits { IfSome result (λ e. e.slots ≤ st.widest functions.now) }
    ensures none { IfNone result (main_entry functions.now ≡ None) }
{
    if functions.len() == 0 {
        return None;
    }
    Some(functions[functions.len() - 1])
}

/// The fork; None where the instruction is none.
pub(crate) fn fork_in(instr: &Instr) -> Option<Fork>
    ensures some { IfSome result (λ f. fork_of (Some (instruction_of instr.now)) ≡ Some (forking_of f)) }
    ensures none { IfNone result (fork_of (Some (instruction_of instr.now)) ≡ None) }
{
    match instr {
        Instr::Fork(fork) => Some(*fork),
        _ => None,
    }
}

/// The first fork whose right side begins at the label.
#[tactic(auto, using(crate::proofs::Starts::fork_here, crate::proofs::Starts::fork_other, crate::proofs::Starts::fork_later))]
fn fork_to(code: &Code, label: u32) -> Option<Fork>
    ensures some { IfSome result (λ f. s.fork_to code.now.instructions label ≡ Some (forking_of f)) }
    ensures none { IfNone result (s.fork_to code.now.instructions label ≡ None) }
{
    let mut rest = code.instructions();
    'instructions: while let [instr, after @ ..] = rest {
        if let Some(found) = fork_in(instr) {
            if found.right == label {
                return Some(found);
            }
        }
        rest = after;
    }
    None
}

/// One more; want of memory where that is too large for a number.
fn one_more(count: u32) -> Result<u32, Memory>
    ensures more { IfOk result (λ more. more ≡ count + 1) }
    ensures last { IfErr result (λ _. count ≡ 2 ^ 32 - 1) }
{
    match count.checked_add(1) {
        Some(more) => Ok(more),
        None => Err(AllocError),
    }
}

/// How many regions and `par`s are open behind an instruction, before which `before` are.
fn open_behind(before: u32, instr: &Instr) -> Result<u32, Memory>
    ensures { IfOk result (λ behind. behind ≡ st.open_behind before (instruction_of instr.now)) }
{
    match instr {
        Instr::Begin(_) => one_more(before),
        Instr::Fork(_) => one_more(before),
        Instr::Done => Ok(before.saturating_sub(1)),
        Instr::Back => Ok(before.saturating_sub(1)),
        _ => Ok(before),
    }
}

/// The most regions and `par`s that a frame has open at a time.
fn nesting(instructions: &[Instr]) -> Result<u32, Memory>
    ensures { IfOk result (λ most. most ≡ nesting_from 0 (map instruction_of instructions.now)) }
{
    let mut rest = instructions;
    let mut current = 0;
    let mut most = 0;
    'instructions: while let [instr, after @ ..] = rest {
        most = most.max(current);
        current = open_behind(current, instr)?;
        rest = after;
    }
    Ok(most.max(current))
}

/// As many slots as there are words, which are no more than a frame of the code may have.
fn slots_for(code: &Code, words: &[u64]) -> u32
    requires { length words.now ≤ st.widest code.now.functions }
    ensures { result ≡ length words.now }
{
    let width = widest(code.functions());
    words.len().min(width as usize) as u32
}

/// A machine that begins so with these first words and ends; the others are 0.
#[tactic(auto, using(crate::proofs::Starts::room_is))]
fn begin(
    alloc: Global,
    code: &Code,
    start: Start,
    words: &[u64],
    ends: &[u64],
) -> Result<Machine, Memory>
    requires { start.slots ≤ st.widest code.now.functions }
    ensures { IfOk result (λ machine. machine ≡ begun code.now start words.now ends.now) }
{
    let width = widest(code.functions());
    let most = nesting(code.instructions())?;
    let frames = Frames::make(alloc, words, ends, start.slots, start.depth, width)?;
    let openings = Openings::make(alloc, (start.depth as usize + 1) * most as usize + 1)?;
    let doing = if start.opens {
        Doing::Opening
    } else {
        Doing::Ready
    };
    Ok(Machine {
        ip: start.label,
        frames,
        level: start.level,
        side: start.side,
        openings,
        result: start.result,
        item: Item::new(),
        parts: [0; 8],
        doing,
    })
}

impl Machine {
    /// The machine of a task that is over. It has no memory, and is not to be run.
    pub fn gone(alloc: Global) -> Machine
        ensures { result ≡ m.gone }
    {
        Machine {
            ip: 0,
            frames: Frames::gone(alloc),
            level: 0,
            side: no_targets(),
            openings: Openings::gone(alloc),
            result: AnswerType::One(Ty::Whole),
            item: Item::new(),
            parts: [0; 8],
            doing: Doing::Ready,
        }
    }

    /// A machine that starts at a label with these words, of which no end is known, and may nest `depth` calls and `level` forks: at main's start with
    /// its argument, or at the start of a fork's right side with the words of a frame. It takes all its memory here.
    ///
    /// # Errors
    ///
    /// Want of memory.
    #[tactic(auto, using(crate::proofs::Starts::whole_frame))]
    pub fn make(
        alloc: Global,
        code: &Code,
        start: u32,
        words: &[u64],
        depth: u32,
        level: u32,
    ) -> Result<Machine, Memory>
        requires { length words.now ≤ st.widest code.now.functions }
        ensures { IfOk result (λ machine. machine ≡ started code.now start words.now depth level) }
    {
        if let Some(main) = main_of(code.functions()) {
            if main.start == start {
                let start = Start {
                    label: start,
                    slots: main.slots,
                    depth,
                    level,
                    side: no_targets(),
                    result: main.result,
                    opens: is_packed(main.result),
                };
                return begin(alloc, code, start, words, &[]);
            }
        }
        let slots = slots_for(code, words);
        let start = match fork_to(code, start) {
            Some(fork) => Start {
                label: fork.right,
                slots,
                depth,
                level,
                side: fork.targets,
                result: fork.result,
                opens: opens_region(fork.kind),
            },
            None => Start {
                label: start,
                slots,
                depth,
                level,
                side: no_targets(),
                result: AnswerType::One(Ty::Whole),
                opens: false,
            },
        };
        begin(alloc, code, start, words, &[])
    }

    /// The machine of a right side that waits. It takes all its memory here.
    ///
    /// # Errors
    ///
    /// Want of memory.
    #[tactic(auto, using(crate::proofs::Starts::whole_frame))]
    pub fn of_side(alloc: Global, code: &Code, side: &Side) -> Result<Machine, Memory>
        requires { FitsFrame (st.widest code.now.functions) (waiting_of side.now).words }
        ensures { IfOk result (λ machine. machine ≡ side_start code.now (waiting_of side.now)) }
    {
        let start = Start {
            label: side.start,
            slots: slots_for(code, &side.words),
            depth: side.depth,
            level: side.level,
            side: side.targets,
            result: side.result,
            opens: opens_region(side.kind),
        };
        begin(alloc, code, start, &side.words, &side.ends)
    }

    /// The machine of a right side that waits, in the memory of this one, which takes none: false where that is not enough, and the
    /// machine is then of no use but for another try. A machine that was made for the same code and as many calls has enough.
    #[tactic(auto, using(crate::proofs::Starts::whole_frame, crate::proofs::Starts::room_is))]
    pub fn restart(&mut self, code: &Code, side: &Side) -> bool
        requires { FitsFrame (st.widest code.now.functions) (waiting_of side.now).words }
        ensures { IsTrue result → self.new ≡ side_start code.now (waiting_of side.now) }
    {
        let width = widest(code.functions());
        let slots = slots_for(code, &side.words);
        let Ok(most) = nesting(code.instructions()) else {
            return false;
        };
        if !self
            .openings
            .restart((side.depth as usize + 1) * most as usize + 1)
        {
            return false;
        }
        if !self
            .frames
            .restart(&side.words, &side.ends, slots, side.depth, width)
        {
            return false;
        }
        self.ip = side.start;
        self.level = side.level;
        self.side = side.targets;
        self.result = side.result;
        self.parts = [0; 8];
        self.item.clear();
        self.doing = if opens_region(side.kind) {
            Doing::Opening
        } else {
            Doing::Ready
        };
        true
    }
}
