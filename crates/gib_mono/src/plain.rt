//! The second phase for a program none of whose declarations has type variables: each expression and each declaration is
//! copied as it stands, without a look at types.

ghost use Rattle.std.specs.Prelude.{◌≡◌, List, true, length, map, IfOk, OnOk};
ghost use Rattle.std.specs.List.{AllByRecursion};
ghost use Rattle.gib_syntax.specs.{Arena.{Makes, PartsBelow}, Forms.{WrittenType}};
ghost use Rattle.gib_syntax.specs.GenericParts.{IsFunctionInside, constructor_in, data_in, function_in, generic_program_of, main_in, parameter_in, results_in};
ghost use Rattle.gib_syntax.specs.Parts.{constructor_tree, data_tree, results_tree, function_tree, main_tree, program_of, IsFunctionInside as IsInside};
ghost use Rattle.gib_syntax.specs.{Printing.{Binds, Chooses}, Results.{map_results}, Words.{first_type, read_word, stack_of}};
ghost use Rattle.gib_mono.specs.Bare.{AreBare, AreSingleTrees, GivesOne, IsOne, IsSingleNode, IsPlainHere, IsPlainKept, IsPlainProgram, bare_constructor, bare_data, bare_function, bare_main, bare_node, bare_parameter, bare_program, bare_tree, bare_written, one_name};

use gib_base::{Memory, Span};
use gib_check::Stack;
use gib_syntax::{
    ConstructorDecl, DataDecl, ExprId, Exprs, FunctionDecl, GenericConstructor, GenericData,
    GenericExprs, GenericFunction, GenericMain, GenericNode, GenericParameter, GenericProgram,
    Ident, MainDecl, Names, Node, Parameter, Program, ResultRuns, ResultTypes, TypeName, Word,
};
use std::alloc::{AllocError, Global};

/// Whether no data declaration has type variables.
fn are_plain_datas(datas: &[GenericData]) -> bool
    ensures { result ≡ true → AllByRecursion IsPlainKept datas.now }
{
    let mut rest = datas;
    'datas: while let [declaration, after @ ..] = rest {
        if !declaration.variables.is_empty() {
            return false;
        }
        rest = after;
    }
    true
}

/// Whether no function has type variables, and each gives one thing.
fn are_plain_functions(functions: &[GenericFunction]) -> bool
    ensures { result ≡ true → AllByRecursion IsPlainHere functions.now }
{
    let mut rest = functions;
    'functions: while let [function, after @ ..] = rest {
        if !function.variables.is_empty() || !gives_one(&function.result) {
            return false;
        }
        rest = after;
    }
    true
}

/// Whether a function gives one thing.
fn gives_one(gives: &ResultRuns) -> bool
    ensures { result ≡ true → GivesOne gives.now }
{
    match gives {
        ResultRuns::One(_) => true,
        ResultRuns::Several(_) => false,
    }
}

/// Whether there is one name.
fn is_one(names: &Names) -> bool
    ensures { result ≡ true → IsOne names.now }
{
    matches!(names.as_slice(), [_])
}

/// Whether a node has no parts, and no names for them.
fn is_single(node: &GenericNode) -> bool
    ensures { result ≡ true → IsSingleNode node.now }
{
    match node {
        GenericNode::Tuple(..) => false,
        GenericNode::Let { names, .. } => is_one(names),
        GenericNode::LetPar { left, right, .. } => is_one(&left.names) && is_one(&right.names),
        GenericNode::Variable(_)
        | GenericNode::Whole(..)
        | GenericNode::Truth(..)
        | GenericNode::Paren(..)
        | GenericNode::Operation { .. }
        | GenericNode::Call(..)
        | GenericNode::Make(..)
        | GenericNode::If { .. }
        | GenericNode::Case { .. } => true,
    }
}

/// Whether no expression has parts.
fn are_single(exprs: &GenericExprs) -> bool
    ensures { result ≡ true → AreSingleTrees exprs.now }
{
    let mut number = 0_u32;
    'nodes: while (number as usize) < exprs.len() {
        if !is_single(exprs.node(ExprId(number))) {
            return false;
        }
        let Some(next) = number.checked_add(1) else {
            return false;
        };
        number = next;
    }
    true
}

/// Whether no declaration has type variables, and nothing has several parts.
pub fn is_plain(program: &GenericProgram) -> bool
    ensures plain { result ≡ true → IsPlainProgram (generic_program_of program.now) }
    ensures single { result ≡ true → AreSingleTrees program.now.exprs }
{
    if !are_plain_datas(program.datas()) {
        return false;
    }
    if !are_plain_functions(program.functions()) {
        return false;
    }
    are_single(program.exprs())
}

/// The one name of a binding.
fn one_name(names: &Names) -> Ident
    requires { IsOne names.now }
    ensures { result ≡ one_name names.now }
{
    let [name] = names.as_slice() else {
        unreachable!()
    };
    *name
}

/// The plain node of one that binds variables in front of what it is, each by itself.
fn bare_let(node: GenericNode) -> Node
    requires binds { Binds node }
    requires single { IsSingleNode node }
    ensures { result ≡ bare_node node }
{
    match node {
        GenericNode::Let {
            span,
            names,
            bound,
            body,
        } => Node::Let {
            span,
            name: one_name(&names),
            bound,
            body,
        },
        GenericNode::LetPar {
            span,
            left,
            right,
            body,
        } => Node::LetPar {
            span,
            left_name: one_name(&left.names),
            left: left.value,
            right_name: one_name(&right.names),
            right: right.value,
            body,
        },
        _ => unreachable!(),
    }
}

/// The plain node of one that chooses among its parts.
fn bare_choice(node: GenericNode) -> Node
    requires { Chooses node }
    ensures { result ≡ bare_node node }
{
    match node {
        GenericNode::If {
            span,
            condition,
            then_part,
            else_part,
        } => Node::If {
            span,
            condition,
            then_part,
            else_part,
        },
        GenericNode::Case {
            span,
            variable,
            arms,
        } => Node::Case {
            span,
            variable,
            arms,
        },
        _ => unreachable!(),
    }
}

/// The plain node of a node: its type arguments are left out, its parts keep their numbers.
fn bare_node(node: GenericNode) -> Node
    requires { IsSingleNode node }
    ensures { result ≡ bare_node node }
{
    match node {
        GenericNode::Variable(x) => Node::Variable(x),
        GenericNode::Whole(span, number) => Node::Whole(span, number),
        GenericNode::Truth(span, truth) => Node::Truth(span, truth),
        GenericNode::Paren(span, inner) => Node::Paren(span, inner),
        GenericNode::Operation {
            span,
            operator,
            left,
            right,
        } => Node::Operation {
            span,
            operator,
            left,
            right,
        },
        GenericNode::Call(f, _, ids) => Node::Call(f, ids),
        GenericNode::Make(k, _, ids) => Node::Make(k, ids),
        GenericNode::Let { .. } | GenericNode::LetPar { .. } => bare_let(node),
        GenericNode::If { .. } | GenericNode::Case { .. } => bare_choice(node),
        GenericNode::Tuple(..) => unreachable!(),
    }
}

/// One more expression, at the number that is due: `put` does not say which number it gives.
fn put_next(made: &mut Exprs, next: u32, node: Node) -> Result<(), Memory>
    requires { PartsBelow node (length made.old) }
    ensures { IfOk result (λ _. Makes made.old made.new next node) }
{
    let id = made.put(node)?;
    if id.0 == next {
        Ok(())
    } else {
        Err(AllocError)
    }
}

/// All expressions without their type arguments, each at the number that it has.
fn bare_exprs(alloc: Global, exprs: GenericExprs) -> Result<Exprs, Memory>
    requires { AreSingleTrees exprs }
    ensures { IfOk result (λ made. AreBare exprs (length exprs.nodes) made) }
{
    let mut made = Exprs::new(alloc);
    let mut left = exprs.into_nodes().into_iter();
    let mut number = 0_u32;
    'nodes: while let Some(node) = left.next() {
        put_next(&mut made, number, bare_node(node))?;
        let Some(following) = number.checked_add(1) else {
            return Err(AllocError);
        };
        number = following;
    }
    Ok(made)
}

/// A word of types as the name of its type, where it is written.
fn word_type(word: Word) -> TypeName
    ensures { (types : List WrittenType) → result ≡ bare_written (first_type (read_word word types)) }
{
    match word {
        Word::Whole(span) => TypeName::Whole(span),
        Word::Truth(span) => TypeName::Truth(span),
        Word::Variable(x) => TypeName::Whole(x.span),
        Word::Data(span, x, _) => TypeName::Declared(Ident { name: x.name, span }),
    }
}

/// The one type that words spell; `Int` of no words.
fn bare_type(words: &[Word]) -> TypeName
    ensures { result ≡ bare_written (first_type (stack_of words.now)) }
{
    match words {
        [] => TypeName::Whole(Span { start: 0, end: 0 }),
        [word, ..] => word_type(*word),
    }
}

/// One more type is put before those that follow.
fn push_type(stack: &mut Stack<TypeName>, word: Word) -> Result<(), Memory>
    ensures { OnOk result ((types : List WrittenType) → stack.old ≡ map bare_written types → stack.new ≡ map bare_written (read_word word types)) }
{
    match word {
        Word::Whole(span) => stack.put(TypeName::Whole(span)),
        Word::Truth(span) => stack.put(TypeName::Truth(span)),
        Word::Variable(x) => stack.put(TypeName::Whole(x.span)),
        Word::Data(span, x, count) => {
            stack.skip(count);
            stack.put(TypeName::Declared(Ident { name: x.name, span }))
        }
    }
}

/// The types that words spell, in the order of the text.
fn bare_types(alloc: Global, words: &[Word]) -> Result<Vec<TypeName>, Memory>
    ensures { IfOk result (λ types. types.items ≡ map bare_written (stack_of words.now)) }
{
    let mut stack = Stack::new(alloc);
    let mut at = words.len();
    'from_last: while at > 0 {
        at -= 1;
        push_type(&mut stack, words[at])?;
    }
    Ok(stack.into_vec())
}

/// Constructors.
fn bare_constructors(
    alloc: Global,
    exprs: &GenericExprs,
    constructors: &[GenericConstructor],
) -> Result<Vec<ConstructorDecl>, Memory>
    ensures { IfOk result (λ made. map constructor_tree made.items ≡ map bare_constructor (map (constructor_in exprs.now.words) constructors.now)) }
{
    let mut made = Vec::new(alloc);
    let mut rest = constructors;
    'constructors: while let [constructor, after @ ..] = rest {
        let fields = bare_types(alloc, exprs.words(constructor.fields))?;
        made.push(ConstructorDecl {
            name: constructor.name,
            fields,
        })?;
        rest = after;
    }
    Ok(made)
}

/// Data declarations.
fn bare_datas(
    alloc: Global,
    exprs: &GenericExprs,
    datas: &[GenericData],
) -> Result<Vec<DataDecl>, Memory>
    ensures { IfOk result (λ made. map data_tree made.items ≡ map bare_data (map (data_in exprs.now.words) datas.now)) }
{
    let mut made = Vec::new(alloc);
    let mut rest = datas;
    'datas: while let [declaration, after @ ..] = rest {
        let constructors = bare_constructors(alloc, exprs, &declaration.constructors)?;
        made.push(DataDecl {
            name: declaration.name,
            constructors,
        })?;
        rest = after;
    }
    Ok(made)
}

/// A parameter.
fn bare_parameter(exprs: &GenericExprs, parameter: GenericParameter) -> Parameter
    ensures { result ≡ bare_parameter (parameter_in exprs.now.words parameter) }
{
    Parameter {
        name: parameter.name,
        ty: bare_type(exprs.words(parameter.ty)),
    }
}

/// Parameters.
fn bare_parameters(
    alloc: Global,
    exprs: &GenericExprs,
    parameters: &[GenericParameter],
) -> Result<Vec<Parameter>, Memory>
    ensures { IfOk result (λ made. made.items ≡ map bare_parameter (map (parameter_in exprs.now.words) parameters.now)) }
{
    let mut made = Vec::new(alloc);
    let mut rest = parameters;
    'parameters: while let [parameter, after @ ..] = rest {
        made.push(bare_parameter(exprs, *parameter))?;
        rest = after;
    }
    Ok(made)
}

/// What a function gives, which is one thing.
fn bare_result(exprs: &GenericExprs, gives: &ResultRuns) -> ResultTypes
    requires { GivesOne gives.now }
    ensures { results_tree result ≡ map_results bare_written (results_in exprs.now.words gives.now) }
{
    match gives {
        ResultRuns::One(run) => ResultTypes::One(bare_type(exprs.words(*run))),
        ResultRuns::Several(_) => unreachable!(),
    }
}

/// A function, whose body has the number that it has.
fn bare_function(
    alloc: Global,
    exprs: &GenericExprs,
    function: &GenericFunction,
) -> Result<FunctionDecl, Memory>
    requires inside { IsFunctionInside exprs.now function.now }
    requires plain { IsPlainHere function.now }
    ensures tree { IfOk result (λ made. function_tree (bare_tree exprs.now) made ≡ bare_function (function_in exprs.now function.now)) }
    ensures inside { IfOk result (λ made. IsInside (length exprs.now.nodes) made) }
{
    let parameters = bare_parameters(alloc, exprs, &function.parameters)?;
    Ok(FunctionDecl {
        name: function.name,
        parameters,
        result: bare_result(exprs, &function.result),
        body: function.body,
    })
}

/// Functions.
fn bare_functions(
    alloc: Global,
    exprs: &GenericExprs,
    functions: &[GenericFunction],
) -> Result<Vec<FunctionDecl>, Memory>
    requires inside { AllByRecursion (IsFunctionInside exprs.now) functions.now }
    requires plain { AllByRecursion IsPlainHere functions.now }
    ensures trees { IfOk result (λ made. map (function_tree (bare_tree exprs.now)) made.items ≡ map bare_function (map (function_in exprs.now) functions.now)) }
    ensures inside { IfOk result (λ made. AllByRecursion (IsInside (length exprs.now.nodes)) made.items) }
{
    let mut made = Vec::new(alloc);
    let mut rest = functions;
    'functions: while let [function, after @ ..] = rest {
        made.push(bare_function(alloc, exprs, function)?)?;
        rest = after;
    }
    Ok(made)
}

/// Main, whose body has the number that it has.
fn bare_main(exprs: &GenericExprs, main: GenericMain) -> MainDecl
    ensures tree { main_tree (bare_tree exprs.now) result ≡ bare_main (main_in exprs.now main) }
    ensures body { result.body ≡ main.body }
{
    MainDecl {
        parameter: bare_parameter(exprs, main.parameter),
        result: bare_type(exprs.words(main.result)),
        body: main.body,
    }
}

/// A program without its type arguments.
///
/// # Errors
///
/// Want of memory.
pub fn bare_program(alloc: Global, program: GenericProgram) -> Result<Program, Memory>
    requires plain { IsPlainProgram (generic_program_of program) }
    requires single { AreSingleTrees program.exprs }
    ensures { IfOk result (λ made. program_of made ≡ bare_program (generic_program_of program)) }
{
    let datas = bare_datas(alloc, program.exprs(), program.datas())?;
    let functions = bare_functions(alloc, program.exprs(), program.functions())?;
    let main = bare_main(program.exprs(), program.main());
    let exprs = bare_exprs(alloc, program.into_exprs())?;
    let made = Program::new(exprs, datas, functions, main);
    Ok(made)
}
