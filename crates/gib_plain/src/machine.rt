//! The machine: it evaluates to any depth, with stacks of its own.

ghost use Rattle.std.specs.Prelude.{◌≡◌, ◌<◌, ◌≤◌, ◌+◌, ◌-◌, [], ◌∷◌, ◌++◌, ℕ, List, length, map, drop, MatchOption, OnOk, OnErr, IfOk, if◌then◌else◌, true, false, is_ok};
ghost use Rattle.std.specs.Prelude.{pos};
ghost use Rattle.gib_types.specs.Tree.{Datum, whole, truth, con as con_of, data_of};
ghost use Rattle.gib_value.specs.{Heap.{value_of}, Heap.{IsWithin}};
ghost use Rattle.gib_syntax.specs.Meaning.{bind, bind_results, tuple, value_in, parts, Deep, outcome, number_in, is_true, names_of, run};
ghost use Rattle.gib_syntax.specs.{Declarations.{table_of_program}, Parts.{program_of}, Arena.{tree_of}, declared.tree.Ident.{Ident}};
ghost use Rattle.gib_syntax.specs.{Tree.{Arguments, Call, Make, Case, Tuple}, Arena.{arguments_from, case_from, ArmsBelow}};
ghost use Rattle.gib_plain.specs.Running.{Waiting, Entering, Leaving, Ended, doing_for, IsScalar, IsMadeBy, with_done, value_at, is_over, IsReady, ComesTo, Goes, owes, complete, finished, finished_cost, complete_cost, frame_at, types_in, code_of, Code};
ghost use Rattle.gib_plain.specs.{Told.{told}, Turns.{in_place}};
ghost use Rattle.gib_base.specs.declared.Span.{Span};
ghost use Rattle.std.specs.List.{AllByRecursion};

use crate::lookup::{Next, arm, function, next_part, push_types, tuple_part};
use crate::operators::{operated, truth_of};
use crate::outcome::Outcome;
use crate::stack::{
    Binding, between, newest, node_at, push_bindings, push_parameters, push_results,
};
use crate::turns::put_in_place;
use gib_base::{Memory, Name};
use gib_check::Typed;
use gib_syntax::{Arm, ExprId, Ident, Node as Syntax, Parameter, TypeName};
use gib_types::{ConId, Operator, Reason, Ty};
use gib_value::{Heap, Node, Value};
use std::alloc::{AllocError, Global};
use std::marker::Model;

/// An expression that waits for one of its parts: the calls left, where its variables and the values of its
/// finished parts lie on their stacks, and its number.
#[derive(Clone, Copy)]
pub struct Frame {
    pub left: u32,
    pub id: ExprId,
    pub base: usize,
    pub vars_len: usize,
    pub start: usize,
    pub temps_len: usize,
}

/// What comes next: an expression, the value of one, or nothing, since there is none, for this reason.
#[derive(Clone, Copy)]
pub enum Now {
    Enter(ExprId),
    Leave(Node),
    Stop(Reason),
}

/// Makes a constructor of the values of its fields, where these have the types and come in turn. In `placed` they are put in
/// declared order.
fn make(
    heap: &mut Heap,
    placed: &mut Vec<Node>,
    con: ConId,
    types: &[Ty],
    values: &[Node],
) -> Result<Node, Memory>
    requires { AllByRecursion (IsWithin (length heap.old)) values.now }
    ensures made { IfOk result (λ node. value_of heap.new node ≡ con_of con.0 (data_of (in_place types.now (map (value_of heap.old) values.now)))) }
    ensures within { IfOk result (λ node. IsWithin (length heap.new) node) }
    ensures kept { (later : List Datum) × (heap.new ≡ heap.old ++ later) }
    ensures refused { OnErr result (heap.new ≡ heap.old) }
{
    put_in_place(placed, types, values)?;
    // A node counts its fields by 32 bits; so many are more than memory holds.
    if placed.len() > u32::MAX as usize {
        return Err(AllocError);
    }
    heap.make(con, placed)
}

/// The machine. In `placed` a constructor's fields are put in declared order, in `types` the types of a tuple's parts, each
/// time anew.
#[derive(Drop)]
pub struct Machine {
    heap: Heap,
    vars: Vec<Binding>,
    temps: Vec<Node>,
    placed: Vec<Node>,
    types: Vec<Ty>,
    frames: Vec<Frame>,
    base: usize,
    left: u32,
    next: Now,
}

impl Model for Machine {
    ghost use Rattle.gib_plain.specs.Running.{State};
    ghost use Rattle.std.specs.Coded.{codes};
    ghost use Rattle.gib_types.specs.TreeCode.{datum_code};

    ghost Value = { State };

    ghost coded = { Prim.hlevel (codes, datum_code) };

    ghost use Rattle.gib_plain.specs.Machines.{state_of, IsSound};

    ghost view = { state_of };

    ghost invariant = { IsSound };
}

impl Machine {
    // The frame of an expression whose parts come next.
    fn wait(&mut self, id: ExprId) -> Result<(), Memory>
        ensures { OnOk result (self.new ≡ record self.old { frames = self.old.frames ++ frame_at self.old id.0 ∷ [] }) }
    {
        let vars_len = self.vars.len();
        let temps_len = self.temps.len();
        let frame = Frame {
            left: self.left,
            id,
            base: self.base,
            vars_len,
            start: temps_len,
            temps_len,
        };
        self.frames.push(frame)?;
        Ok(())
    }

    // Goes to an expression.
    fn enter_next(&mut self, id: ExprId)
        ensures { self.new ≡ record self.old { doing = Entering id.0 } }
    {
        self.next = Now::Enter(id);
    }

    // Leaves with a number.
    fn leave_whole(&mut self, number: i64)
        ensures { self.new ≡ record self.old { doing = Leaving (whole number) } }
    {
        self.next = Now::Leave(Node::Whole(number));
    }

    // Leaves with a truth value.
    fn leave_truth(&mut self, is_true: bool)
        ensures { self.new ≡ record self.old { doing = Leaving (truth is_true) } }
    {
        self.next = Now::Leave(Node::Truth(is_true));
    }

    // Ends the run, since a call had no depth left.
    fn end(&mut self)
        ensures { self.new ≡ record self.old { doing = Ended Deep } }
    {
        self.next = Now::Stop(Reason::Deep);
    }

    // Leaves with the value of a variable.
    fn leave_variable(&mut self, name: Name)
        ensures { self.new ≡ record self.old { doing = Leaving (value_in self.old.env name.0) } }
    {
        let value = newest(&self.vars, self.base, name);
        self.next = Now::Leave(value);
    }

    // Takes the value of a part into the newest frame, and goes back to its variables.
    fn take_in(&mut self) -> Result<(), Memory>
        ensures { OnOk result ((fs : List Waiting) (f : Waiting) (v : Datum) → self.old.doing ≡ Leaving v → self.old.frames ≡ fs ++ f ∷ [] →
            self.new ≡ record { frames = fs ++ with_done f v ∷ []; left = f.left; env = f.env; doing = self.old.doing }) }
    {
        let Now::Leave(value) = self.next else {
            return Ok(());
        };
        let Some(mut frame) = self.frames.pop() else {
            return Ok(());
        };
        self.left = frame.left;
        self.base = frame.base;
        self.vars.truncate(frame.vars_len);
        self.temps.truncate(frame.temps_len);
        self.temps.push(value)?;
        frame.temps_len = self.temps.len();
        self.frames.push(frame)?;
        Ok(())
    }

    // The expression of the newest frame, and how many of its parts are done.
    fn top(&self) -> Option<(ExprId, usize)>
        ensures { MatchOption result (self.now.frames ≡ []) (λ r. (fs : List Waiting) (f : Waiting) → self.now.frames ≡ fs ++ f ∷ [] → (f.id ≡ r.0.0) × (length f.finished ≡ r.1)) }
    {
        if self.frames.is_empty() {
            return None;
        }
        let frame = self.frames[self.frames.len() - 1];
        Some((frame.id, frame.temps_len - frame.start))
    }

    // Leaves the newest frame with 0.
    fn give_up(&mut self)
        ensures { (fs : List Waiting) (f : Waiting) → self.old.frames ≡ fs ++ f ∷ [] →
            self.new ≡ record self.old { frames = fs; doing = Leaving (whole (pos 0)) } }
    {
        let Some(frame) = self.frames.pop() else {
            return;
        };
        self.temps.truncate(frame.start);
        self.next = Now::Leave(Node::Whole(0));
    }

    // Leaves the newest frame with what an operator gives for its parts, or ends the run where it divides by 0.
    fn operate(&mut self, operator: Operator)
        ensures { (fs : List Waiting) (f : Waiting) → self.old.frames ≡ fs ++ f ∷ [] →
            self.new ≡ record self.old { frames = fs; doing = doing_for (outcome operator (number_in (value_at f.finished 0)) (number_in (value_at f.finished 1))) } }
    {
        let Some(frame) = self.frames.pop() else {
            return;
        };
        let done = between(&self.temps, frame.start, frame.temps_len);
        let next = operated(operator, node_at(done, 0), node_at(done, 1));
        self.temps.truncate(frame.start);
        self.next = next;
    }

    // Leaves the newest frame for one of two expressions, by its first part.
    fn choose(&mut self, then_part: ExprId, else_part: ExprId)
        ensures { (fs : List Waiting) (f : Waiting) → self.old.frames ≡ fs ++ f ∷ [] →
            self.new ≡ record self.old { frames = fs; doing = Entering (if is_true (value_at f.finished 0) then then_part.0 else else_part.0) } }
    {
        let Some(frame) = self.frames.pop() else {
            return;
        };
        let done = between(&self.temps, frame.start, frame.temps_len);
        let next = if truth_of(node_at(done, 0)) {
            then_part
        } else {
            else_part
        };
        self.temps.truncate(frame.start);
        self.next = Now::Enter(next);
    }

    // Binds the parts of the newest frame, and goes to a body.
    fn bind(&mut self, names: &[Ident], body: ExprId) -> Result<(), Memory>
        ensures { OnOk result ((fs : List Waiting) (f : Waiting) → self.old.frames ≡ fs ++ f ∷ [] →
            self.new ≡ record self.old { frames = fs; env = bind names.now f.finished self.old.env; doing = Entering body.0 }) }
    {
        let Some(frame) = self.frames.pop() else {
            return Ok(());
        };
        let done = between(&self.temps, frame.start, frame.temps_len);
        push_bindings(&mut self.vars, names, done)?;
        self.temps.truncate(frame.start);
        self.next = Now::Enter(body);
        Ok(())
    }

    // Goes to a function's body, where the parts of the newest frame are its arguments.
    fn call(&mut self, parameters: &[Parameter], body: ExprId) -> Result<(), Memory>
        requires { 0 < self.old.left }
        ensures { OnOk result ((fs : List Waiting) (f : Waiting) → self.old.frames ≡ fs ++ f ∷ [] →
            self.new ≡ record { frames = fs; left = self.old.left - 1; env = bind (names_of parameters.now) f.finished []; doing = Entering body.0 }) }
    {
        let Some(frame) = self.frames.pop() else {
            return Ok(());
        };
        self.base = self.vars.len();
        let done = between(&self.temps, frame.start, frame.temps_len);
        push_parameters(&mut self.vars, parameters, done)?;
        self.temps.truncate(frame.start);
        self.left -= 1;
        self.next = Now::Enter(body);
        Ok(())
    }

    // Makes a constructor of the parts of the newest frame, where its fields have these types.
    fn build(&mut self, con: ConId, types: &[Ty]) -> Result<(), Memory>
        ensures { OnOk result ((fs : List Waiting) (f : Waiting) → self.old.frames ≡ fs ++ f ∷ [] →
            self.new ≡ record self.old { frames = fs; doing = Leaving (con_of con.0 (data_of (in_place types.now f.finished))) }) }
    {
        let Some(frame) = self.frames.pop() else {
            return Ok(());
        };
        let done = between(&self.temps, frame.start, frame.temps_len);
        let value = make(&mut self.heap, &mut self.placed, con, types, done)?;
        self.temps.truncate(frame.start);
        self.next = Now::Leave(value);
        Ok(())
    }

    // Makes a tuple of the parts of the newest frame, where these are their types.
    fn build_tuple(&mut self, typed: &Typed, names: &[TypeName]) -> Result<(), Memory>
        ensures { OnOk result ((fs : List Waiting) (f : Waiting) → self.old.frames ≡ fs ++ f ∷ [] →
            self.new ≡ record self.old { frames = fs; doing = Leaving (tuple (in_place (types_in (table_of_program (program_of typed.now)) names.now) f.finished)) }) }
    {
        self.types.clear();
        push_types(&mut self.types, typed, names)?;
        let Some(frame) = self.frames.pop() else {
            return Ok(());
        };
        let done = between(&self.temps, frame.start, frame.temps_len);
        let value = make(
            &mut self.heap,
            &mut self.placed,
            ConId(0),
            &self.types,
            done,
        )?;
        self.temps.truncate(frame.start);
        self.next = Now::Leave(value);
        Ok(())
    }

    // Binds the variables of a `let` to the one part of the newest frame, and goes to a body.
    fn bind_one(&mut self, variables: &[Parameter], body: ExprId) -> Result<(), Memory>
        ensures { OnOk result ((fs : List Waiting) (f : Waiting) → self.old.frames ≡ fs ++ f ∷ [] →
            self.new ≡ record self.old { frames = fs; env = bind_results (names_of variables.now) (value_at f.finished 0) self.old.env; doing = Entering body.0 }) }
    {
        let Some(frame) = self.frames.pop() else {
            return Ok(());
        };
        let done = between(&self.temps, frame.start, frame.temps_len);
        let value = node_at(done, 0);
        push_results(&mut self.vars, &self.heap, variables, value)?;
        self.temps.truncate(frame.start);
        self.next = Now::Enter(body);
        Ok(())
    }

    // Binds the variables of both sides of a `let par` to the two parts of the newest frame, and goes to a body.
    fn bind_two(
        &mut self,
        left: &[Parameter],
        right: &[Parameter],
        body: ExprId,
    ) -> Result<(), Memory>
        ensures { OnOk result ((fs : List Waiting) (f : Waiting) → self.old.frames ≡ fs ++ f ∷ [] →
            self.new ≡ record self.old { frames = fs; env = bind_results (names_of right.now) (value_at f.finished 1) (bind_results (names_of left.now) (value_at f.finished 0) self.old.env); doing = Entering body.0 }) }
    {
        let Some(frame) = self.frames.pop() else {
            return Ok(());
        };
        let done = between(&self.temps, frame.start, frame.temps_len);
        let first = node_at(done, 0);
        let second = node_at(done, 1);
        push_results(&mut self.vars, &self.heap, left, first)?;
        push_results(&mut self.vars, &self.heap, right, second)?;
        self.temps.truncate(frame.start);
        self.next = Now::Enter(body);
        Ok(())
    }

    // The constructor of a variable's value.
    fn constructor_of(&self, name: Name) -> Option<ConId>
        ensures { MatchOption result (IsScalar (value_in self.now.env name.0)) (λ con. IsMadeBy con.0 (value_in self.now.env name.0)) }
    {
        match newest(&self.vars, self.base, name) {
            Node::Whole(_) => None,
            Node::Truth(_) => None,
            Node::Con { con, .. } => Some(con),
        }
    }

    // Binds the fields of a variable's value, and goes to an arm.
    fn open(&mut self, name: Name, variables: &[Ident], body: ExprId) -> Result<(), Memory>
        ensures { OnOk result (self.new ≡ record self.old { env = bind variables.now (parts (value_in self.old.env name.0)) self.old.env; doing = Entering body.0 }) }
    {
        match newest(&self.vars, self.base, name) {
            Node::Whole(_) => {
                self.next = Now::Enter(body);
                Ok(())
            }
            Node::Truth(_) => {
                self.next = Now::Enter(body);
                Ok(())
            }
            Node::Con { count, first, .. } => {
                push_bindings(&mut self.vars, variables, self.heap.fields(first, count))?;
                self.next = Now::Enter(body);
                Ok(())
            }
        }
    }
}

impl Machine {
    // What is done with a call whose arguments are there.
    fn finish_call(&mut self, typed: &Typed, name: Name) -> Result<(), Memory>
        ensures { OnOk result ((fs : List Waiting) (f : Waiting) (xs : Arguments) (ident : Ident) → IsReady self.old fs f →
            tree_of typed.now.exprs f.id ≡ Call ident xs → ident.name ≡ name →
            ComesTo (code_of typed.now) self.new fs (finished (code_of typed.now) f f.finished) (finished_cost (code_of typed.now) f f.finished)) }
    {
        if self.left == 0 {
            self.end();
            return Ok(());
        }
        match function(typed, name) {
            Some(function) => self.call(&function.parameters, function.body),
            None => {
                self.give_up();
                Ok(())
            }
        }
    }

    // What is done with a constructor whose arguments are there.
    fn finish_make(&mut self, typed: &Typed, name: Name) -> Result<(), Memory>
        ensures { OnOk result ((fs : List Waiting) (f : Waiting) (xs : Arguments) (ident : Ident) → IsReady self.old fs f →
            tree_of typed.now.exprs f.id ≡ Make ident xs → ident.name ≡ name →
            ComesTo (code_of typed.now) self.new fs (finished (code_of typed.now) f f.finished) (finished_cost (code_of typed.now) f f.finished)) }
    {
        match typed.constructor(name) {
            Some(con) => self.build(con, typed.types().fields(con)),
            None => {
                self.give_up();
                Ok(())
            }
        }
    }

    // What is done once all parts of the newest frame are there.
    fn finish(&mut self, typed: &Typed, id: ExprId) -> Result<(), Memory>
        ensures { OnOk result ((fs : List Waiting) (f : Waiting) → IsReady self.old fs f → f.id ≡ id.0 →
            ComesTo (code_of typed.now) self.new fs (finished (code_of typed.now) f f.finished) (finished_cost (code_of typed.now) f f.finished)) }
    {
        let exprs = typed.program().exprs();
        if id.0 as usize >= exprs.len() {
            self.give_up();
            return Ok(());
        }
        match exprs.node(id) {
            Syntax::Variable(_)
            | Syntax::Whole(..)
            | Syntax::Truth(..)
            | Syntax::Paren(..)
            | Syntax::Case { .. } => {
                self.give_up();
                Ok(())
            }
            Syntax::Operation { operator, .. } => {
                self.operate(*operator);
                Ok(())
            }
            Syntax::Call(name, _) => self.finish_call(typed, name.name),
            Syntax::Make(name, _) => self.finish_make(typed, name.name),
            Syntax::Let { name, body, .. } => self.bind(&[*name], *body),
            Syntax::LetPar {
                left_name,
                right_name,
                body,
                ..
            } => self.bind(&[*left_name, *right_name], *body),
            Syntax::If {
                then_part,
                else_part,
                ..
            } => {
                self.choose(*then_part, *else_part);
                Ok(())
            }
            Syntax::Tuple { types, .. } => self.build_tuple(typed, types),
            Syntax::LetSeveral { names, body, .. } => self.bind_one(names, *body),
            Syntax::ParSeveral {
                left_names,
                right_names,
                body,
                ..
            } => self.bind_two(left_names, right_names, *body),
        }
    }

    // The next part of a tuple, or what is done with all of them.
    fn go_on_tuple(
        &mut self,
        typed: &Typed,
        types: &[TypeName],
        parts: &[ExprId],
        at: usize,
    ) -> Result<(), Memory>
        ensures { OnOk result ((fs : List Waiting) (f : Waiting) (span : Span) → IsReady self.old fs f → length f.finished ≡ at →
            tree_of typed.now.exprs f.id ≡ Tuple span types.now (arguments_from (tree_of typed.now.exprs) parts.now) →
            ComesTo (code_of typed.now) self.new fs (complete (code_of typed.now) f) (complete_cost (code_of typed.now) f)) }
    {
        let part = tuple_part(typed, &mut self.types, types, parts, at)?;
        match part {
            Some(next) => {
                self.enter_next(next);
                Ok(())
            }
            None => self.build_tuple(typed, types),
        }
    }

    // The next part of the newest frame, or what is done with all of them.
    fn go_on(&mut self, typed: &Typed) -> Result<(), Memory>
        ensures { OnOk result ((fs : List Waiting) (f : Waiting) → IsReady self.old fs f →
            ComesTo (code_of typed.now) self.new fs (complete (code_of typed.now) f) (complete_cost (code_of typed.now) f)) }
    {
        let Some((id, at)) = self.top() else {
            return Ok(());
        };
        let found = match next_part(typed, id, at) {
            Next::Part(found) => found,
            Next::Tuple(types, parts) => return self.go_on_tuple(typed, types, parts, at),
        };
        match found {
            Some(next) => {
                self.enter_next(next);
                Ok(())
            }
            None => self.finish(typed, id),
        }
    }

    // An expression that begins with its parts.
    fn begin(&mut self, typed: &Typed, id: ExprId) -> Result<(), Memory>
        ensures { OnOk result (ComesTo (code_of typed.now) self.new self.old.frames
            (complete (code_of typed.now) (frame_at self.old id.0)) (complete_cost (code_of typed.now) (frame_at self.old id.0))) }
    {
        self.wait(id)?;
        self.go_on(typed)
    }

    // A constructor, which begins with its parts if it is one.
    fn enter_make(&mut self, typed: &Typed, id: ExprId, name: Name) -> Result<(), Memory>
        ensures { OnOk result ((xs : Arguments) (ident : Ident) → self.old.doing ≡ Entering id.0 →
            tree_of typed.now.exprs id.0 ≡ Make ident xs → ident.name ≡ name → Goes (code_of typed.now) self.old self.new) }
    {
        match typed.constructor(name) {
            Some(_) => self.begin(typed, id),
            None => {
                self.leave_whole(0);
                Ok(())
            }
        }
    }

    // The arm for a variable's value.
    fn enter_case(
        &mut self,
        typed: &Typed,
        id: ExprId,
        name: Name,
        arms: &[Arm],
    ) -> Result<(), Memory>
        requires { id.0 < length typed.now.exprs }
        ensures { OnOk result ((span : Span) (ident : Ident) → self.old.doing ≡ Entering id.0 →
            tree_of typed.now.exprs id.0 ≡ case_from (tree_of typed.now.exprs) arms.now (Case span ident) → ident.name ≡ name →
            ArmsBelow arms.now id.0 → Goes (code_of typed.now) self.old self.new) }
    {
        match self.constructor_of(name) {
            None => {
                self.leave_whole(0);
                Ok(())
            }
            Some(con) => match arm(typed, id, arms, con) {
                None => {
                    self.leave_whole(0);
                    Ok(())
                }
                Some(arm) => self.open(name, &arm.variables, arm.body),
            },
        }
    }

    // The expression of a number.
    fn enter(&mut self, typed: &Typed, id: ExprId) -> Result<(), Memory>
        requires { self.old.doing ≡ Entering id.0 }
        ensures { OnOk result (Goes (code_of typed.now) self.old self.new) }
    {
        let exprs = typed.program().exprs();
        if id.0 as usize >= exprs.len() {
            self.leave_truth(false);
            return Ok(());
        }
        match exprs.node(id) {
            Syntax::Variable(name) => {
                self.leave_variable(name.name);
                Ok(())
            }
            Syntax::Whole(_, number) => {
                self.leave_whole(*number as i64);
                Ok(())
            }
            Syntax::Truth(_, is_true) => {
                self.leave_truth(*is_true);
                Ok(())
            }
            Syntax::Paren(_, inner) => {
                self.enter_next(*inner);
                Ok(())
            }
            Syntax::Operation { .. } => self.begin(typed, id),
            Syntax::Call(_, _) => self.begin(typed, id),
            Syntax::Make(name, _) => self.enter_make(typed, id, name.name),
            Syntax::Let { .. } => self.begin(typed, id),
            Syntax::LetPar { .. } => self.begin(typed, id),
            Syntax::If { .. } => self.begin(typed, id),
            Syntax::Case { variable, arms, .. } => {
                self.enter_case(typed, id, variable.name, arms)
            }
            Syntax::Tuple { .. } => self.begin(typed, id),
            Syntax::LetSeveral { .. } => self.begin(typed, id),
            Syntax::ParSeveral { .. } => self.begin(typed, id),
        }
    }

    /// Whether the run is over.
    pub fn is_over(&self) -> bool
        ensures { result ≡ is_over self.now }
    {
        match self.next {
            Now::Enter(_) => false,
            Now::Leave(_) => self.frames.is_empty(),
            Now::Stop(_) => true,
        }
    }

    /// One step.
    pub fn step(&mut self, typed: &Typed) -> Result<(), Memory>
        requires { is_over self.old ≡ false }
        ensures { OnOk result (Goes (code_of typed.now) self.old self.new) }
    {
        match self.next {
            Now::Enter(id) => self.enter(typed, id),
            Now::Leave(_) => {
                self.take_in()?;
                self.go_on(typed)
            }
            Now::Stop(_) => Ok(()),
        }
    }

    /// A machine that is about to evaluate an expression where one variable is in scope.
    pub fn start(
        alloc: Global,
        value: Value,
        name: Name,
        depth: u32,
        id: ExprId,
    ) -> Result<Machine, Memory>
        ensures { IfOk result (λ m. m ≡ record { frames = []; left = depth; env = (name.0, value) ∷ []; doing = Entering id.0 }) }
    {
        let (heap, value) = value.into_parts();
        let mut vars = Vec::new(alloc);
        vars.push(Binding { name, value })?;
        Ok(Machine {
            heap,
            vars,
            temps: Vec::new(alloc),
            placed: Vec::new(alloc),
            types: Vec::new(alloc),
            frames: Vec::new(alloc),
            base: 0,
            left: depth,
            next: Now::Enter(id),
        })
    }

    /// The outcome of a run that is over.
    pub fn into_outcome(self) -> Outcome
        requires { is_over self ≡ true }
        ensures { (code : Code) → told result ≡ owes code self }
    {
        match self.next {
            Now::Enter(_) => Outcome::NoValue(Reason::Deep),
            Now::Leave(value) => Outcome::Gives(Value::from_parts(self.heap, value)),
            Now::Stop(why) => Outcome::NoValue(why),
        }
    }
}

/// Runs a program on a value, with so many calls nested in one another at most.
///
/// # Errors
///
/// Want of memory.
pub fn plain(alloc: Global, typed: &Typed, value: Value, depth: u32) -> Result<Outcome, Memory>
    ensures { IfOk result (λ outcome. told outcome ≡ run (program_of typed.now) depth value) }
{
    let main = typed.program().main();
    let mut machine = Machine::start(alloc, value, main.parameter.name.name, depth, main.body)?;
    'steps: while !machine.is_over() {
        machine.step(typed)?;
    }
    Ok(machine.into_outcome())
}
