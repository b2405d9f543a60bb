//! The trees of programs: their spelling as tokens, their types and their meaning.
#![tactic(auto)]

mod examples;
mod exprs;
mod generic;
pub mod law;
mod names;
mod print;
mod program;
mod spelled;
mod text;
pub mod tree;
mod type_tokens;
mod written;

pub use exprs::{Arm, Bound, ExprId, Exprs, Node};
pub use generic::{GenericExprs, GenericNode, Side};
pub use names::Names;
pub use print::{print_program, sign_of};
pub use program::{
    GenericConstructor, GenericData, GenericFunction, GenericMain, GenericParameter, GenericProgram,
};
pub use text::sign_text;
pub use tree::{
    ConstructorDecl, DataDecl, FunctionDecl, Ident, MainDecl, Parameter, Program, ResultTypes,
    TypeName,
};
pub use written::{ResultRuns, Run, Word};
