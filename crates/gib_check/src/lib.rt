//! The type check: which programs with type parameters are typed, and else which rule is broken first; and what a typed
//! program without type parameters tells.
#![tactic(auto)]

ghost use Rattle.std.specs.Prelude.{◌≡◌, Some, IfOk, IfErr, MatchResult};
ghost use Rattle.gib_syntax.specs.{GenericParts.{generic_program_of}, GenericTyping.{IsTypedGeneric}};
ghost use Rattle.gib_check.specs.{Answers.{Gives}, declared.fault.Fault.{Fault}, Refusals.{IsMemory, IsMemoryOr, IsFirst}, FirstFault.{first_fault}};
ghost use Rattle.gib_check.specs.FirstFault as rule;

mod arm_index;
mod arms;
mod bindings;
mod bodies;
mod counts;
mod datas;
mod declared;
mod fault;
mod functions;
mod generic;
mod heads;
mod kinds;
mod known;
pub mod laws;
mod named;
mod names;
mod node_facts;
mod origin;
mod parts;
mod reading;
mod rules;
mod scope;
mod stack;
mod standing;
mod state;
mod tables;
mod typed;
mod uses;
mod walk;

use bodies::{check_bodies, check_body};
pub use counts::Counts;
use datas::{check_datas, check_fields};
pub use datas::{fewer, new_name};
pub use declared::type_of_name;
pub use fault::{Fault, Kind, TypeFault};
pub use functions::FunctionId;
pub use generic::Generic;
use gib_syntax::{GenericProgram, ResultRuns};
use heads::{check_head, check_heads};
use named::Around;
pub use named::{Named, RowDecl, function_names, type_names};
pub use names::{Called, NameList, list_names};
pub use origin::TypeOrigin;
pub use reading::{given_type, put_type};
pub use rules::ResultIds;
pub use scope::Scope;
pub use stack::Stack;
use std::alloc::Global;
pub use tables::{list_types, make_table};
pub use typed::Typed;

/// Types and constructors, field types, and heads of functions.
#[tactic(auto, unfolding(crate::specs::FirstFault::check_declarations))]
fn check_declarations(named: &Named) -> Result<(), TypeFault>
    ensures { Gives (λ _. tt {0}) result (rule.check_declarations (generic_program_of named.now)) }
{
    let program = named.program();
    let datas = program.datas();
    check_datas(named.alloc(), program.exprs(), datas)?;
    check_fields(named, datas)?;
    check_heads(named, program.functions())?;
    let main = program.main();
    let gives = ResultRuns::One(main.result);
    check_head(named, &[], &[main.parameter], &gives)
}

/// All rules, in their order.
#[tactic(auto, unfolding(crate::specs::FirstFault::check_program))]
fn check_rules(named: &Named) -> Result<(), TypeFault>
    ensures { Gives (λ _. tt {0}) result (rule.check_program (generic_program_of named.now)) }
{
    check_declarations(named)?;
    let program = named.program();
    check_bodies(named, program.functions())?;
    let main = program.main();
    let gives = ResultRuns::One(main.result);
    let around = Around {
        named,
        variables: &[],
    };
    check_body(&around, &[main.parameter], &gives, main.body)
}

/// Checks a program: which rule it breaks first, or none.
///
/// # Errors
///
/// The first broken rule, and want of memory.
pub fn check(alloc: Global, program: GenericProgram) -> Result<Generic, TypeFault>
    ensures same { IfOk result (λ generic. generic ≡ program) }
    ensures typed { IfOk result (λ _. IsTypedGeneric (generic_program_of program)) }
    // What is typed is refused for want of memory alone.
    ensures only { IsTypedGeneric (generic_program_of program) → IfErr result IsMemory }
    // Each other refusal is the first broken rule.
    ensures exact { IfErr result (IsFirst (generic_program_of program)) }
    // Where a rule is broken, the first one is answered.
    ensures told { (fault : Fault) → first_fault (generic_program_of program) ≡ Some fault → MatchResult result (λ _. ⊥) (IsMemoryOr fault) }
{
    let Ok(named) = Named::make(alloc, program) else {
        return Err(TypeFault::Memory);
    };
    match check_rules(&named) {
        Ok(()) => Ok(Generic::new(named.into_program())),
        Err(fault) => Err(fault),
    }
}
