//! The core of a whole text.

ghost use Rattle.std.specs.Prelude.{◌≡◌, ◌<◌, List, length, map, IfOk};
ghost use Rattle.std.specs.List.{AllByRecursion};
ghost use Rattle.gib_syntax.specs.declared.tree.Ident.{Ident as Named};
ghost use Rattle.gib_core.specs.Parts.{core_of};
ghost use Rattle.gib_local.specs.declared.destination.Goal.{Goal as Where};
ghost use Rattle.gib_local.specs.Building.{Around, build, build_body, build_core as core_made, build_functions, con, no_mark as unmarked, types_of};
ghost use Rattle.gib_local.specs.Builds.{Gives, around_of, passed_of, program_in};
ghost use Rattle.gib_local.specs.Bodied.{BuildsBody, BuildsFunction, BuildsFunctions, BuildsMain, packed_body as packed_made, scalar_body as scalar_made};
ghost use Rattle.gib_local_parse.specs.{LineArena.{tree_of}, TextParts.{IsFunctionIn, function_text, text_of}};

use crate::build_fault::BuildFault;
use crate::builder::Builder;
use crate::building::line;
use crate::destination::Goal;
use crate::place::{Meant, Place};
use crate::source::Source;
use crate::steps::{no_mark, type_start};
use gib_base::Memory;
use gib_core::{Core, CoreFunction, CoreMain, CoreResult, TermId};
use gib_local_parse::{FunctionLines, LineId, Mark};
use gib_loccheck::Destination;
use gib_syntax::{Parameter, TypeName};
use gib_types::{ConId, Ty};
use std::alloc::Global;

/// The types of parameters.
fn list_types(alloc: Global, source: &Source, parameters: &[Parameter]) -> Result<Vec<Ty>, Memory>
    ensures { IfOk result (λ types. types.items ≡ types_of (program_in source.now).table.types parameters.now) }
{
    let mut types = Vec::new(alloc);
    let mut rest = parameters;
    'parameters: while let [parameter, after @ ..] = rest {
        types.push(source.type_named(parameter.ty))?;
        rest = after;
    }
    Ok(types)
}

/// A body that gives a scalar.
fn scalar_body(
    builder: &mut Builder,
    source: &Source,
    place: Option<Mark>,
    id: LineId,
) -> Result<TermId, BuildFault>
    requires { id.0 < length source.now.lines }
    ensures { BuildsBody builder.old builder.new result (scalar_made (program_in source.now) builder.old place (tree_of source.now.lines id.0)) }
{
    no_mark(place)?;
    let mut goal = Goal {
        destination: Destination::Nowhere,
        at: Place::AtResult,
    };
    line(builder, source, &mut goal, id)
}

/// A body whose result is packed.
fn packed_body(
    builder: &mut Builder,
    source: &Source,
    ty: TypeName,
    place: Option<Mark>,
    id: LineId,
) -> Result<TermId, BuildFault>
    requires { id.0 < length source.now.lines }
    ensures { BuildsBody builder.old builder.new result (packed_made (program_in source.now) builder.old ty place (tree_of source.now.lines id.0)) }
{
    let Some(mark) = place else {
        return Err(BuildFault::Place(type_start(ty)));
    };
    builder.name(mark.name, Meant::IsPlace(Place::AtResult))?;
    let mut goal = Goal {
        destination: Destination::Empty,
        at: Place::AtResult,
    };
    line(builder, source, &mut goal, id)
}

/// A body behind its head.
fn body(
    builder: &mut Builder,
    source: &Source,
    parameters: &[Parameter],
    ty: TypeName,
    place: Option<Mark>,
    id: LineId,
) -> Result<TermId, BuildFault>
    requires { id.0 < length source.now.lines }
    ensures { BuildsBody builder.old builder.new result (build_body (program_in source.now) parameters.now ty place (tree_of source.now.lines id.0)) }
{
    builder.begin()?;
    builder.bind_parameters(parameters)?;
    if source.type_named(ty).is_scalar() {
        scalar_body(builder, source, place, id)
    } else {
        packed_body(builder, source, ty, place, id)
    }
}

/// A function.
fn function(
    builder: &mut Builder,
    source: &Source,
    lines: &FunctionLines,
) -> Result<CoreFunction, BuildFault>
    requires { lines.now.body.0 < length source.now.lines }
    ensures { BuildsFunction builder.old builder.new (program_in source.now) result (function_text (tree_of source.now.lines) lines.now) }
{
    let body = body(
        builder,
        source,
        &lines.parameters,
        lines.result,
        lines.place,
        lines.body,
    )?;
    let parameters = list_types(builder.alloc, source, &lines.parameters)?;
    Ok(CoreFunction {
        name: lines.name.name,
        parameters,
        result: CoreResult::One(source.type_named(lines.result)),
        body,
    })
}

/// The functions but main, in the order of the text.
fn functions(builder: &mut Builder, source: &Source) -> Result<Vec<CoreFunction>, BuildFault>
    ensures { BuildsFunctions builder.old builder.new (program_in source.now) result (build_functions (program_in source.now) (program_in source.now).functions) }
{
    let mut functions = Vec::new(builder.alloc);
    let mut rest = source.text().functions();
    'functions: while let [lines, after @ ..] = rest {
        let function = function(builder, source, lines)?;
        functions.push(function)?;
        rest = after;
    }
    Ok(functions)
}

/// Main.
fn main(builder: &mut Builder, source: &Source) -> Result<CoreMain, BuildFault>
    ensures { BuildsMain builder.old builder.new (program_in source.now) result (text_of source.now).main }
{
    let main = source.text().main();
    let body = body(
        builder,
        source,
        &[main.parameter],
        main.result,
        main.place,
        main.body,
    )?;
    Ok(CoreMain {
        parameter: source.type_named(main.parameter.ty),
        result: source.type_named(main.result),
        body,
    })
}

/// The constructors whose heads store offsets.
fn offsets(alloc: Global, source: &Source) -> Result<Vec<ConId>, Memory>
    ensures { IfOk result (λ offsets. offsets.items ≡ map (con (program_in source.now).table) source.now.offsets) }
{
    let mut offsets = Vec::new(alloc);
    let mut rest = source.text().offsets();
    'offsets: while let [k, after @ ..] = rest {
        offsets.push(source.constructor(*k))?;
        rest = after;
    }
    Ok(offsets)
}

/// The core of a text whose names are in order.
///
/// # Errors
///
/// The first place in the text that is not the one that is due; want of memory.
pub fn build_core(alloc: Global, source: &Source) -> Result<Core, BuildFault>
    ensures { Gives core_of result (core_made (text_of source.now)) }
{
    let offsets = offsets(alloc, source)?;
    let types = source.table().copy(alloc)?;
    let mut builder = Builder::new(alloc);
    let functions = functions(&mut builder, source)?;
    let main = main(&mut builder, source)?;
    Ok(Core::new(types, builder.terms, functions, main, offsets, true))
}
