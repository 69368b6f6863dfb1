//! From bytes to a checked design.

ghost use Rattle.std.specs.Prelude.{◌≡◌, ℕ, List as Items, map, Ok, Some, IfErr, IfOk};
ghost use Rattle.xm_commands.specs.Inner.Prepared.{IsNetFault, IsPrepared, IsReadAs, IsRefusedAs, is_of_wiring, is_want, net_fault_line};
ghost use Rattle.xm_model.specs.Naming.{naming_of};
ghost use Rattle.xm_netlist.specs.Doc.{Doc};
ghost use Rattle.xm_netlist.specs.Reading.{document_in};
ghost use Rattle.xm_shape.specs.Gives.{Fails};

use crate::command::Command;
use crate::refusal::Refusal;
use serde_json::Value;
use std::alloc::Global;
use xm_design::{Design, NetFault};
use xm_model::{Names, OutOfMemory, Text};
use xm_netlist::{DocFault, Document, read_document};
use xm_report::{colour_line, document_line, loop_line};

/// A document whose net was checked: its design, the names of what it numbers, its tape and its proof.
#[derive(Drop)]
pub struct Prepared {
    pub design: Design,
    pub names: Names,
    pub tape: Option<Value>,
    pub proof: Option<Value>,
}

fn is_memory(fault: &DocFault) -> bool
    ensures { result ≡ is_want fault.now }
{
    matches!(fault, DocFault::OutOfMemory)
}

fn is_wiring(fault: &DocFault) -> bool
    ensures { result ≡ is_of_wiring fault.now }
{
    matches!(fault, DocFault::Wiring(_, _))
}

/// The refusal of bytes that are no document, or whose net is not well wired.
fn document_refusal(alloc: Global, fault: &DocFault) -> Refusal
    ensures { (bytes : Items ℕ) (it : Command) → Fails fault.now (document_in bytes) → IsRefusedAs bytes it result }
{
    if is_memory(fault) {
        return Refusal::Memory;
    }
    match document_line(alloc, fault) {
        Ok(line) => {
            if is_wiring(fault) {
                Refusal::Net(line)
            } else {
                Refusal::Document(line)
            }
        }
        Err(OutOfMemory) => Refusal::Memory,
    }
}

/// The line of a net that makes no design.
fn net_line(alloc: Global, names: &Names, fault: &NetFault) -> Result<Text, OutOfMemory>
    ensures { IfOk result (λ text. net_fault_line (naming_of names.now) fault.now ≡ Some text.items) }
{
    match fault {
        NetFault::Allow(fault) => colour_line(alloc, names, fault.channel, fault.colour),
        NetFault::CombLoop(found) => loop_line(alloc, names, found.as_slice()),
        NetFault::OutOfMemory => Err(OutOfMemory),
    }
}

/// The refusal of a net that makes no design.
fn net_refusal(alloc: Global, names: &Names, fault: &NetFault) -> Refusal
    ensures { (bytes : Items ℕ) (it : Command) (doc : Doc) → document_in bytes ≡ Ok doc
        → naming_of names.now ≡ doc.names → IsNetFault doc.net doc.allow fault.now → IsRefusedAs bytes it result }
{
    match net_line(alloc, names, fault) {
        Ok(line) => Refusal::Net(line),
        Err(OutOfMemory) => Refusal::Memory,
    }
}

/// The design of a document that was read.
fn designed(alloc: Global, document: Document) -> Result<Prepared, Refusal>
    ensures ok { (bytes : Items ℕ) → IsReadAs bytes document → IfOk result (IsPrepared bytes) }
    ensures err { (bytes : Items ℕ) (it : Command) → IsReadAs bytes document → IfErr result (IsRefusedAs bytes it) }
{
    let Document {
        net,
        names,
        allow,
        tape,
        proof,
    } = document;
    match Design::new(alloc, net, &allow) {
        Ok(design) => Ok(Prepared {
            design,
            names,
            tape,
            proof,
        }),
        Err(fault) => Err(net_refusal(alloc, &names, &fault)),
    }
}

/// What is prepared of the bytes, or why a command refuses them.
pub fn prepare(alloc: Global, bytes: &[u8]) -> Result<Prepared, Refusal>
    ensures ok { IfOk result (IsPrepared bytes.now) }
    ensures err { (it : Command) → IfErr result (IsRefusedAs bytes.now it) }
{
    match read_document(alloc, bytes) {
        Ok(document) => designed(alloc, document),
        Err(fault) => Err(document_refusal(alloc, &fault)),
    }
}
