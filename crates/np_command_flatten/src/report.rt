//! `flatten`: one tier of NetworkPolicies with the same verdicts.
ghost use Rattle.std.specs.Prelude.{◌≡◌, ◌<◌, Err, IfOk, Some};
ghost use Rattle.np_command.specs.Prelude.{Writes, Wrote, sunk};
ghost use Rattle.np_command_flatten.specs.Report as spec;
ghost use Rattle.np_flatten.specs.Prelude.{group_count};

use np_base::{NoMemory, Text};
use np_command::{Failure, Fault, WriteFault};
use np_flatten::{Flat, FlatFault, flatten};
use np_fold::Folded;
use np_io::{BufferedSink, Sink};
use np_manifests::{LIST_END, LIST_FRONT, LIST_SEPARATOR, print_policy};
use std::alloc::Global;

/// Writes NetworkPolicies that alone give the verdicts of all policies, as one line of JSON. They are made and written one
/// after another. `Split` and `Alike` come exactly where there are none, with the first two workloads for which there are none,
/// before the first byte is written.
#[tactic(auto, unfolding(crate::specs::Report::flatten_reply))]
pub fn flatten_in<O: Sink>(alloc: Global, folded: &Folded, out: &mut O) -> Result<(), Failure>
    ensures { Wrote (sunk O.taken O.faults out.old out.new) (spec.flatten_reply folded.now) result }
{
    match flatten(alloc, folded) {
        Ok(mut flat) => {
            write_policies(alloc, &mut flat, out)?;
            Ok(())
        }
        Err(fault) => Err(Failure::Refused(named(alloc, folded, fault)?)),
    }
}

// A fault of two workloads, by their names.
fn named(alloc: Global, folded: &Folded, fault: FlatFault) -> Result<Fault, NoMemory>
    requires { spec.AreWorkloads folded.now fault }
    ensures { IfOk result (λ named. spec.policies_unless folded.now (Some fault) ≡ Err named) }
{
    match fault {
        FlatFault::Split {
            source,
            destination,
        } => Ok(Fault::Split {
            source: Text::of(alloc, folded.workloads().name(source))?,
            destination: Text::of(alloc, folded.workloads().name(destination))?,
        }),
        FlatFault::Alike { a, b } => Ok(Fault::Alike {
            a: Text::of(alloc, folded.workloads().name(a))?,
            b: Text::of(alloc, folded.workloads().name(b))?,
        }),
        FlatFault::NoMemory => Err(NoMemory),
    }
}

// Writes the policies. They are gathered, so that many of them are one call of the sink.
fn write_policies<O: Sink>(
    alloc: Global,
    flat: &mut Flat<'_>,
    out: &mut O,
) -> Result<(), WriteFault>
    ensures { Writes (sunk O.taken O.faults out.old out.new) (spec.flatten_text flat.old) result }
{
    let mut gathered = BufferedSink::new(alloc)?;
    gathered.put(out, LIST_FRONT.as_bytes())?;
    for group in 0..flat.count() {
        let text = text_of(alloc, flat, group)?;
        gathered.put(out, &text)?;
    }
    gathered.put(out, LIST_END.as_bytes())?;
    gathered.put(out, b"\n")?;
    gathered.finish(out)?;
    Ok(())
}

// The text of the policy of a group, behind a comma but for the first.
#[tactic(auto, unfolding(crate::specs::Report::item_text))]
fn text_of(alloc: Global, flat: &mut Flat<'_>, group: u32) -> Result<Vec<u8>, NoMemory>
    requires { group < group_count flat.old }
    ensures text { IfOk result (λ text. text.items ≡ spec.item_text flat.old group) }
    ensures same { flat.new ≡ flat.old }
{
    let policy = flat.policy(group)?;
    let text = print_policy(alloc, &policy)?;
    if group == 0 {
        return Ok(text);
    }
    let mut behind = Vec::from_slice(alloc, LIST_SEPARATOR.as_bytes())?;
    behind.extend_from_slice(&text)?;
    Ok(behind)
}
