//! The one line that reports a refusal: `message_of`.
ghost use Rattle.std.specs.Prelude.{◌≡◌, ◌++◌, codes, IfOk};
ghost use Rattle.ste_program.specs.Message.{aig_message, binding_message, file_message, hierarchy_message, inputs_message, line_message, message_of, netlist_message, out_of_memory, tasks_message, usage};

use crate::command::file_name;
use crate::refusal::{File, Refusal};
use aig_model::AigFault;
use assert_syntax::TaskFault;
use blif_syntax::BlifFault;
use clock_step::InputFault;
use command_line::Command;
use hierarchy::NetFault;
use std::alloc::{AllocError, Global};
use ste_base::Items;
use task_binding::BindFault;

/// A message on a file.
fn on_file(alloc: Global, name: &str, text: &[u8]) -> Result<Items<u8>, AllocError>
    ensures { IfOk result (λ message. message ≡ file_message name.now text.now) }
{
    let mut message = b"stework: ".to_vec(alloc)?;
    message.extend_from_slice(name.as_bytes())?;
    message.extend_from_slice(b": ")?;
    message.extend_from_slice(text)?;
    message.extend_from_slice(b"\n")?;
    Ok(Items::from(message))
}

/// A message on a line of a file.
fn on_line(alloc: Global, name: &str, line: u32, text: &[u8]) -> Result<Items<u8>, AllocError>
    ensures { IfOk result (λ message. message ≡ line_message name.now line text.now) }
{
    let number = format!(in alloc; "{line}")?;
    let mut message = b"stework: ".to_vec(alloc)?;
    message.extend_from_slice(name.as_bytes())?;
    message.extend_from_slice(b":")?;
    message.extend_from_slice(number.as_bytes())?;
    message.extend_from_slice(b": ")?;
    message.extend_from_slice(text)?;
    message.extend_from_slice(b"\n")?;
    Ok(Items::from(message))
}

/// A message on a word in a line of a file.
fn on_word(
    alloc: Global,
    name: &str,
    line: u32,
    text: &[u8],
    word: &[u8],
) -> Result<Items<u8>, AllocError>
    ensures { IfOk result (λ message. message ≡ line_message name.now line (text.now ++ word.now)) }
{
    let mut whole = text.to_vec(alloc)?;
    whole.extend_from_slice(word)?;
    on_line(alloc, name, line, &whole)
}

/// The message that memory is out.
fn out_of_memory(alloc: Global) -> Result<Items<u8>, AllocError>
    ensures { IfOk result (λ message. message ≡ out_of_memory) }
{
    Ok(Items::from(b"stework: out of memory\n".to_vec(alloc)?))
}

/// The message on a netlist's text that is refused.
fn netlist_message(alloc: Global, name: &str, fault: &BlifFault) -> Result<Items<u8>, AllocError>
    ensures { IfOk result (λ message. message ≡ netlist_message name.now fault.now) }
{
    match fault {
        BlifFault::BadLine { line } => on_line(alloc, name, *line, b"bad line"),
        BlifFault::UnknownWord { line, word } => {
            on_word(alloc, name, *line, b"unknown word ", word.bytes())
        }
        BlifFault::LeftOut { line, word } => {
            on_word(alloc, name, *line, b"left out: ", word.bytes())
        }
        BlifFault::NoModel => on_file(alloc, name, b"no model"),
        BlifFault::OutOfMemory => out_of_memory(alloc),
    }
}

/// The message on an AIGER text that is refused.
fn aig_message(alloc: Global, name: &str, fault: &AigFault) -> Result<Items<u8>, AllocError>
    ensures { IfOk result (λ message. message ≡ aig_message name.now fault.now) }
{
    match fault {
        AigFault::BadLine { line } => on_line(alloc, name, *line, b"bad line"),
        AigFault::LeftOut { line, word } => {
            on_word(alloc, name, *line, b"left out: ", word.bytes())
        }
        AigFault::OutOfMemory => out_of_memory(alloc),
    }
}

/// The message on a task file's text that is refused.
fn tasks_message(alloc: Global, name: &str, fault: &TaskFault) -> Result<Items<u8>, AllocError>
    ensures { IfOk result (λ message. message ≡ tasks_message name.now fault.now) }
{
    match fault {
        TaskFault::BadLine { line } => on_line(alloc, name, *line, b"bad line"),
        TaskFault::TooDeep { line } => on_line(alloc, name, *line, b"too deep"),
        TaskFault::DoubleName { line, name: word } => {
            on_word(alloc, name, *line, b"double name ", word.bytes())
        }
        TaskFault::UnknownVar { line, name: word } => {
            on_word(alloc, name, *line, b"unknown variable ", word.bytes())
        }
        TaskFault::TooMany { line } => on_line(alloc, name, *line, b"too many"),
        TaskFault::NoTask => on_file(alloc, name, b"no task"),
        TaskFault::OutOfMemory => out_of_memory(alloc),
    }
}

/// The message on a hierarchy that is refused.
fn hierarchy_message(alloc: Global, name: &str, fault: &NetFault) -> Result<Items<u8>, AllocError>
    ensures { IfOk result (λ message. message ≡ hierarchy_message name.now fault.now) }
{
    match fault {
        NetFault::DoubleModel { line, name: word } => {
            on_word(alloc, name, *line, b"double model ", word.bytes())
        }
        NetFault::UnknownModel { line, name: word } => {
            on_word(alloc, name, *line, b"unknown model ", word.bytes())
        }
        NetFault::Recursive { line, name: word } => {
            on_word(alloc, name, *line, b"recursive model ", word.bytes())
        }
        NetFault::BadFormal { line, name: word } => {
            on_word(alloc, name, *line, b"bad formal ", word.bytes())
        }
        NetFault::MissingFormal { line, name: word } => {
            on_word(alloc, name, *line, b"missing formal ", word.bytes())
        }
        NetFault::GateTooWide { line } => on_line(alloc, name, *line, b"cover too wide"),
        NetFault::TooDeep => on_file(alloc, name, b"hierarchy too deep"),
        NetFault::TooManyNodes => on_file(alloc, name, b"too many nodes"),
        NetFault::DrivenTwice { line, name: word } => {
            on_word(alloc, name, *line, b"driven twice: ", word.bytes())
        }
        NetFault::MixedClocks { line, name: word } => {
            on_word(alloc, name, *line, b"mixed clocks at ", word.bytes())
        }
        NetFault::OutOfMemory => out_of_memory(alloc),
    }
}

/// The message on a loop of gates, which names this net.
fn loop_message(alloc: Global, name: &str, net: &[u8]) -> Result<Items<u8>, AllocError>
    ensures { IfOk result (λ message.
        message ≡ file_message name.now (codes "loop at " ++ net.now)) }
{
    let mut text = b"loop at ".to_vec(alloc)?;
    text.extend_from_slice(net)?;
    on_file(alloc, name, &text)
}

/// The message on tasks that are not bound to a netlist.
fn binding_message(alloc: Global, name: &str, fault: &BindFault) -> Result<Items<u8>, AllocError>
    ensures { IfOk result (λ message. message ≡ binding_message name.now fault.now) }
{
    match fault {
        BindFault::UnknownNode { line, name: word } => {
            on_word(alloc, name, *line, b"unknown node ", word.bytes())
        }
        BindFault::TooLarge { line } => on_line(alloc, name, *line, b"task too large"),
        BindFault::OutOfMemory => out_of_memory(alloc),
    }
}

/// The message on a file that could not be read.
fn cannot_read(alloc: Global, name: &str) -> Result<Items<u8>, AllocError>
    ensures { IfOk result (λ message.
        message ≡ codes "stework: cannot read " ++ name.now ++ codes "\n") }
{
    let mut message = b"stework: cannot read ".to_vec(alloc)?;
    message.extend_from_slice(name.as_bytes())?;
    message.extend_from_slice(b"\n")?;
    Ok(Items::from(message))
}

/// The message on an input file's text that is refused.
fn inputs_message(alloc: Global, name: &str, fault: &InputFault) -> Result<Items<u8>, AllocError>
    ensures { IfOk result (λ message. message ≡ inputs_message name.now fault.now) }
{
    match fault {
        InputFault::BadLine { line } => on_line(alloc, name, *line, b"bad line"),
        InputFault::DoubleName { line, name: word } => {
            on_word(alloc, name, *line, b"double name ", word.bytes())
        }
        InputFault::UnknownNode { line, name: word } => {
            on_word(alloc, name, *line, b"unknown node ", word.bytes())
        }
        InputFault::NotAnInput { line, name: word } => {
            on_word(alloc, name, *line, b"not an input: ", word.bytes())
        }
        InputFault::TooMany { line } => on_line(alloc, name, *line, b"too many"),
        InputFault::OutOfMemory => out_of_memory(alloc),
    }
}

/// The message on words that are no command.
fn usage(alloc: Global) -> Result<Items<u8>, AllocError>
    ensures { IfOk result (λ message. message ≡ usage) }
{
    let mut message =
        b"usage: stework (check NET TASKS or info NET or sim NET INPUTS or bench N)".to_vec(alloc)?;
    message.extend_from_slice(b" [--workers W] [--steps S] [--cubes C] [--wave] [--nodes]\n")?;
    Ok(Items::from(message))
}

/// The message on a refusal.
pub fn message_of(
    alloc: Global,
    command: &Option<Command<'_>>,
    refusal: &Refusal,
) -> Result<Items<u8>, AllocError>
    ensures { IfOk result (λ message. message ≡ message_of command.now refusal.now) }
{
    match refusal {
        Refusal::Usage => usage(alloc),
        Refusal::CannotRead(which) => cannot_read(alloc, file_name(command, *which)),
        Refusal::TooLarge(which) => on_file(alloc, file_name(command, *which), b"too large"),
        Refusal::Netlist(fault) => netlist_message(alloc, file_name(command, File::Net), fault),
        Refusal::Aig(fault) => aig_message(alloc, file_name(command, File::Net), fault),
        Refusal::Tasks(fault) => tasks_message(alloc, file_name(command, File::Second), fault),
        Refusal::Hierarchy(fault) => hierarchy_message(alloc, file_name(command, File::Net), fault),
        Refusal::Loop(net) => loop_message(alloc, file_name(command, File::Net), net.bytes()),
        Refusal::Binding(fault) => binding_message(alloc, file_name(command, File::Second), fault),
        Refusal::Inputs(fault) => inputs_message(alloc, file_name(command, File::Second), fault),
        Refusal::TooManySteps => Ok(Items::from(b"stework: too many steps\n".to_vec(alloc)?)),
        Refusal::OutOfMemory => out_of_memory(alloc),
    }
}
