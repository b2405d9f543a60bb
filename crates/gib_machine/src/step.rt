//! One micro-step, by the running instruction and how far it is.

ghost use Rattle.std.specs.Prelude.{◌≡◌, ◌<◌, ◌+◌, ◌^◌, Some, slice_get, false};
ghost use Rattle.gib_code.specs.{Instruction.{instruction_of, IsFine}, Program.{Runs}};
ghost use Rattle.gib_machine.specs.{State.{widest}, Machine.{begin, next}, Stepping.{with_tails, at_rest, Made, Can, CanStep, IsSmallAsk}};

use crate::state::{Doing, Machine};
use crate::turn::Turn;
use gib_code::{Code, Instr};
use gib_mem::{Mem, WORD_BYTES};
use gib_region::Tails;

impl Machine {
    /// One micro-step: at most one action of the memory. `tails` are those of the machine's task.
    ///
    /// `Full` is answered where the step draws and all chunks are drawn; the machine is then as before, so it may be tried
    /// again. At a fork, at a join and at its end a step changes nothing.
    pub fn step<M: Mem>(&mut self, code: &Code, mem: &mut M, tails: &mut Tails) -> Turn
        requires { CanStep code.now (with_tails self.old tails.old) (M.view mem.old) }
        ensures { Made (next code.now (with_tails self.old tails.old)) (with_tails self.old tails.old) (with_tails self.new tails.new)
            (M.view mem.old) (M.view mem.new) result }
    {
        self.goes_on(code, mem, tails)
    }

    /// A micro-step, by how far the instruction is.
    #[tactic(auto, using(crate::proofs::Steps::rest_next))]
    fn goes_on<M: Mem>(&mut self, code: &Code, mem: &mut M, tails: &mut Tails) -> Turn
        requires runs { Runs code.now }
        requires made { self.old.width ≡ widest code.now.functions }
        requires small { IsSmallAsk (next code.now (with_tails self.old tails.old)) }
        requires can { Can (next code.now (with_tails self.old tails.old)) (M.view mem.old) }
        ensures { Made (next code.now (with_tails self.old tails.old)) (with_tails self.old tails.old) (with_tails self.new tails.new)
            (M.view mem.old) (M.view mem.new) result }
    {
        if self.is_at_rest() {
            self.dispatch(code, mem, tails)
        } else {
            self.resume(code, mem, tails)
        }
    }

    /// Whether no instruction is begun.
    #[tactic(auto, using(crate::proofs::Steps::putting_goes_on, crate::proofs::Steps::turning_goes_on))]
    fn is_at_rest(&self) -> bool
        ensures { result ≡ at_rest self.now.doing }
    {
        match self.doing {
            Doing::Ready => true,
            _ => false,
        }
    }

    /// An instruction that is begun goes on. Most steps begin one, so this stands apart: what an instruction is at is long, and is copied here alone.
    fn resume<M: Mem>(&mut self, code: &Code, mem: &mut M, tails: &mut Tails) -> Turn
        requires begun { at_rest self.old.doing ≡ false }
        requires small { IsSmallAsk (next code.now (with_tails self.old tails.old)) }
        requires can { Can (next code.now (with_tails self.old tails.old)) (M.view mem.old) }
        ensures { Made (next code.now (with_tails self.old tails.old)) (with_tails self.old tails.old) (with_tails self.new tails.new)
            (M.view mem.old) (M.view mem.new) result }
    {
        match self.doing {
            Doing::Ready => unreachable!(),
            Doing::Opening => self.begins_whole(mem, tails),
            Doing::Over(_) => Turn::Ended,
            Doing::Unwinding(_) => Turn::AtJoin,
            Doing::Joining { to, target } => self.points_joined(to, target, mem),
            Doing::Putting(at) => self.puts_on(at, mem),
            Doing::Looking { tree, at } => self.switches_on(code, tree, at, mem),
            Doing::Following { tree, gathered } => self.follows(tree, gathered, mem),
            Doing::Reading { to, gathered } => self.reads_on(to, gathered, mem),
            Doing::Skipping { to, at, due } => self.skips_on(code, to, at, due, mem),
            Doing::SkipTurn { to, due, gathered } => self.skip_turns(to, due, gathered, mem),
            Doing::Turning { placed, chunk, at } => {
                self.item.put_front(mem, at);
                if self.item.is_empty() {
                    self.doing = Doing::Ready;
                    self.places(code, placed, chunk);
                } else {
                    self.doing = Doing::Turning {
                        placed,
                        chunk,
                        at: at - at % WORD_BYTES + WORD_BYTES,
                    };
                }
                Turn::Went
            }
        }
    }

    /// The instruction at hand begins. Behind the code there is none.
    fn dispatch<M: Mem>(&mut self, code: &Code, mem: &mut M, tails: &mut Tails) -> Turn
        requires runs { Runs code.now }
        requires made { self.old.width ≡ widest code.now.functions }
        requires small { IsSmallAsk (begin code.now (with_tails self.old tails.old) (slice_get code.now.instructions self.old.ip)) }
        requires can { Can (begin code.now (with_tails self.old tails.old) (slice_get code.now.instructions self.old.ip)) (M.view mem.old) }
        ensures { Made (begin code.now (with_tails self.old tails.old) (slice_get code.now.instructions self.old.ip)) (with_tails self.old tails.old)
            (with_tails self.new tails.new) (M.view mem.old) (M.view mem.new) result }
    {
        let instructions = code.instructions();
        let place = self.ip as usize;
        if place >= instructions.len() {
            return Turn::Ended;
        }
        self.exec(code, &instructions[place], mem, tails)
    }

    /// An instruction begins.
    fn exec<M: Mem>(&mut self, code: &Code, instr: &Instr, mem: &mut M, tails: &mut Tails) -> Turn
        requires next { self.old.ip + 1 < 2 ^ 32 }
        requires fine { IsFine (instruction_of instr.now) }
        requires made { self.old.width ≡ widest code.now.functions }
        requires small { IsSmallAsk (begin code.now (with_tails self.old tails.old) (Some (instruction_of instr.now))) }
        requires can { Can (begin code.now (with_tails self.old tails.old) (Some (instruction_of instr.now))) (M.view mem.old) }
        ensures { Made (begin code.now (with_tails self.old tails.old) (Some (instruction_of instr.now))) (with_tails self.old tails.old)
            (with_tails self.new tails.new) (M.view mem.old) (M.view mem.new) result }
    {
        match instr {
            Instr::Switch { tree, arms } => self.exec_switch(*tree, arms, mem),
            Instr::Whole { to, tree, place } => self.exec_read(*to, *tree, *place, mem),
            Instr::Truth { to, tree, place } => self.exec_truth(*to, *tree, *place, mem),
            Instr::Offset { to, tree, place } => self.exec_read(*to, *tree, *place, mem),
            Instr::Skip { to, from } => self.exec_skip(code, *to, *from, mem),
            Instr::Begin(to) => self.exec_begin(*to, mem, tails),
            Instr::Past { head, constructor } => self.exec_past(code, *head, *constructor, mem),
            Instr::Fill {
                head,
                constructor,
                scalars,
                packed,
            } => self.exec_fill(code, *head, *constructor, scalars, packed, mem),
            Instr::Point(from) => {
                let target = self.frames.slot(*from);
                self.exec_point(target, mem)
            }
            Instr::Done => self.exec_done(tails),
            Instr::Fork(fork) => self.exec_fork(fork),
            Instr::Join => self.exec_join(),
            Instr::Back => self.exec_back(),
            Instr::Move { to, from } => self.exec_move(*to, *from),
            Instr::Operate {
                to,
                operator,
                left,
                right,
            } => {
                let first = self.frames.word(*left);
                let second = self.frames.word(*right);
                self.exec_operate(*to, *operator, first, second);
                Turn::Went
            }
            Instr::Jump(label) => self.exec_jump(*label),
            Instr::Unless { test, label } => self.exec_unless(*test, *label),
            Instr::First { to, tree, place } => self.exec_first(*to, *tree, *place),
            Instr::Here(to) => self.exec_here(*to),
            Instr::Got { to, parameter } => self.exec_got(*to, *parameter),
            Instr::OverEnd { to, from } => self.exec_over_end(*to, *from),
            Instr::LeafEnd { to, size } => self.exec_leaf_end(*to, *size),
            Instr::EndOf { to, from } => self.exec_end_of(*to, *from),
            Instr::Call {
                function,
                arguments,
            } => {
                self.exec_call::<M, ()>(code, *function, arguments, None);
                Turn::Went
            }
            Instr::CallScalar {
                to,
                function,
                arguments,
            } => {
                self.exec_call::<M, u64>(code, *function, arguments, Some(*to));
                Turn::Went
            }
            Instr::Return => self.exec_return(),
            Instr::Give(from) => self.exec_give(*from),
            Instr::Into { part, count } => self.exec_into(*part, *count),
            Instr::Out { part, count } => self.exec_out(*part, *count),
            Instr::GiveParts(scalars) => {
                self.exec_give_parts(scalars);
                Turn::Went
            }
            Instr::Part { to, part } => self.exec_part(*to, *part),
        }
    }
}
