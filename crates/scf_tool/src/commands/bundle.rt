//! Commands on a bundle: what each takes, over which records it goes, and what it replies.

ghost use Rattle.std.specs.Prelude.{◌≡◌, ◌↔◌, ◌⊎◌, map, IfOk, IfErr, IfSome, IsTrue};
ghost use Rattle.std.specs.List.{AllZip};
ghost use Rattle.scf_request.specs.Contents.{rest_of_table};
ghost use Rattle.scf_tool.specs.Commands as spec;
ghost use Rattle.scf_tool.specs.Commands.{EndsOnBundle, GoesOver, GoesOverNone, IsRefused, RepliesTo};
ghost use Rattle.scf_tool.specs.ArchitectureScopes.{NameNoCall};
ghost use Rattle.scf_tool.specs.Inputs.{AreRead, SpellsTable, named_of};
ghost use Rattle.scf_tool.specs.internal.Sides.{inputs_of};

use crate::architecture_scope::{has_record_among, name_no_call};
use crate::commands::compare::compare_sides;
use crate::commands::decide::decide;
use crate::commands::profile::{ask_profile, compile_profile};
use crate::exploration::list_answers;
use crate::fault::Fault;
use crate::inputs::{Inputs, Shape, Takes, open};
use crate::owned_table::{OwnedTable, valid_tables};
use crate::reply::Reply;
use crate::sides::{SidesInput, read_sides};
use scf_request::{
    BundleFault, BundleForm, Command, PartReader, Request, RequestFault, Scopes, TableReader,
};
use std::alloc::Global;

/// What a request takes, and over which records it goes.
fn shape_of(request: &Request) -> Shape
    ensures { result ≡ spec.shape_of request.now.form request.now.command }
{
    let form = request.form;
    let takes = match request.command {
        Command::Answers {
            has_differences: false,
            ..
        } => match form {
            BundleForm::Architectures => Takes::Profile,
            _ => Takes::Either,
        },
        Command::Answers { .. } | Command::Compare(_) => Takes::Sides,
        Command::Ask(_) | Command::Compile { .. } => Takes::Profile,
        _ => Takes::Filters,
    };
    Shape {
        form,
        takes,
        over: request.command.scopes(),
    }
}

/// Checks that the only table, if there is one, names a call. Returns the tables, if each of them is one. The error:
/// there is no call, or out of memory.
fn check_calls(
    alloc: Global,
    tables: &[TableReader<PartReader<'_>>],
) -> Result<Option<Vec<OwnedTable>>, Fault>
    ensures some { IfOk result (λ _. NameNoCall (map rest_of_table tables.now) → ⊥) }
    ensures read { IfOk result (λ read. IfSome read
        (λ read. AllZip SpellsTable (map rest_of_table tables.now) (map named_of read.items))) }
    ensures fault { IfErr result (λ fault. ((fault ≡ Fault.Calls) × NameNoCall (map rest_of_table tables.now))
        ⊎ (fault ≡ Fault.Bundle BundleFault.Memory)) }
{
    let Some(read) = valid_tables(alloc, tables)? else {
        return Ok(None);
    };
    if name_no_call(alloc, &read)? {
        return Err(Fault::Calls);
    }
    Ok(Some(read))
}

/// Checks that a command goes over a record under its tables. Returns the tables, if they are read for this. The error:
/// it goes over none, or out of memory.
fn check_records(
    alloc: Global,
    of_each: bool,
    over: Scopes,
    tables: &[TableReader<PartReader<'_>>],
) -> Result<Option<Vec<OwnedTable>>, Fault>
    ensures some { IfOk result (λ _. GoesOver of_each over (map rest_of_table tables.now)) }
    ensures read { IfOk result (λ read. IfSome read
        (λ read. AllZip SpellsTable (map rest_of_table tables.now) (map named_of read.items))) }
    ensures fault { IfErr result (λ fault. GoesOverNone of_each over (map rest_of_table tables.now) fault
        ⊎ (fault ≡ Fault.Bundle BundleFault.Memory)) }
{
    match over {
        Scopes::EachCall => check_calls(alloc, tables),
        Scopes::AtOnce(scope) => {
            if of_each && !has_record_among(tables, scope) {
                return Err(Fault::Request(RequestFault::Range));
            }
            Ok(None)
        }
    }
}

/// Reads inputs, if a command goes over a record.
fn read_over(alloc: Global, over: Scopes, inputs: Inputs<'_>) -> Result<SidesInput, Fault>
    ensures over { IfOk result (λ _. GoesOver inputs.entry.rules.of_each over
        (map rest_of_table inputs.entry.tables.items)) }
    ensures read { IfOk result (AreRead (inputs_of inputs.entry)) }
    ensures refused { IfErr result (IsRefused over (inputs_of inputs.entry)) }
{
    let read = check_records(alloc, inputs.rules.of_each, over, &inputs.tables)?;
    read_sides(alloc, inputs, read).map_err(Fault::Sides)
}

/// Replies to the sides of a command.
fn reply_to(alloc: Global, command: &Command, sides: SidesInput) -> Result<Reply, Fault>
    ensures { RepliesTo command.now sides result }
{
    match command {
        Command::Answers {
            comparison,
            has_examples,
            has_differences,
        } => Ok(list_answers(alloc, &sides, comparison, *has_examples, *has_differences)?),
        Command::Ask(call) => ask_profile(&sides, call),
        Command::Compare(comparison) => compare_sides(alloc, sides, *comparison),
        Command::Compile { has_left_out } => compile_profile(alloc, &sides, *has_left_out),
        Command::Decide { call, detail } => decide(alloc, &sides, call, *detail),
        Command::Assemble | Command::Check | Command::List | Command::Run { .. } => Err(
            Fault::Parts,
        ),
    }
}

/// Runs a command on a bundle.
pub(super) fn answer_bundle(alloc: Global, request: &Request, bytes: &[u8]) -> Result<Reply, Fault>
    ensures { EndsOnBundle request.now.reading request.now.form request.now.command bytes.now result }
{
    let shape = shape_of(request);
    let inputs = open(alloc, request.reading, shape, bytes)?;
    let sides = read_over(alloc, shape.over, inputs)?;
    reply_to(alloc, &request.command, sides)
}
