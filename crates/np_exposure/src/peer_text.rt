//! The text of the pods that a row speaks of.
ghost use Rattle.std.specs.Prelude.{◌≡◌, ◌++◌, codes, flat_map, IfOk, OnOk, string_bytes};
ghost use Rattle.np_exposure.specs.PeerText as spec;

use crate::exposure_row::ExposureRow;
use crate::side::Side;
use crate::sided_requirement::SidedRequirement;
use np_base::{NoMemory, Text};
use np_labels::Op;
use std::alloc::Global;

/// The text of the pods that a row speaks of: `{any pod}` where it has no requirement, else its requirements, joined by
/// ` and `, in braces. Each is its side, `namespace` or `pod`, its key, and `In (v)`, `NotIn (v)`, `Exists` or
/// `DoesNotExist`, where v is the values in ascending order of their bytes, joined by commas.
#[tactic(auto, unfolding(crate::specs::PeerText::peer_text))]
pub fn print_peer(alloc: Global, row: &ExposureRow) -> Result<Text, NoMemory>
    ensures { IfOk result (λ text. text ≡ spec.peer_text row.now.requirements) }
{
    let Some((first, others)) = row.requirements.items().split_first() else {
        return Text::of(alloc, "{any pod}");
    };
    let mut text = String::from_str(alloc, "{")?;
    push_requirement(&mut text, first)?;
    push_others(&mut text, others)?;
    text.push('}')?;
    Ok(Text::from_string(text))
}

// Appends requirements, each after ` and `.
fn push_others(text: &mut String, others: &[SidedRequirement]) -> Result<(), NoMemory>
    ensures { OnOk result (string_bytes text.new
        ≡ string_bytes text.old ++ flat_map (λ requirement. codes " and " ++ spec.requirement_text requirement) others.now) }
{
    for requirement in others {
        text.push_str(" and ")?;
        push_requirement(text, requirement)?;
    }
    Ok(())
}

// Appends a requirement: its side, its key, and what is asked.
fn push_requirement(text: &mut String, asked: &SidedRequirement) -> Result<(), NoMemory>
    ensures { OnOk result (string_bytes text.new ≡ string_bytes text.old ++ spec.requirement_text asked.now) }
{
    text.push_str(side_name(asked.side))?;
    text.push(' ')?;
    text.push_str(asked.requirement.key.as_str())?;
    text.push(' ')?;
    push_asked(text, asked.requirement.op, asked.requirement.values.items())
}

// The word for a side.
fn side_name(side: Side) -> &'static str
    ensures { result.now ≡ spec.named_side_text side }
{
    match side {
        Side::Namespace => "namespace",
        Side::Pod => "pod",
    }
}

// Appends what is asked of the value of the key.
fn push_asked(text: &mut String, op: Op, values: &[Text]) -> Result<(), NoMemory>
    ensures { OnOk result (string_bytes text.new ≡ string_bytes text.old ++ spec.asked_text op values.now) }
{
    match op {
        Op::OneOf => push_listed(text, "In (", values),
        Op::NoneOf => push_listed(text, "NotIn (", values),
        Op::Present => Ok(text.push_str("Exists")?),
        Op::Absent => Ok(text.push_str("DoesNotExist")?),
    }
}

// Appends values between an opening and `)`.
fn push_listed(text: &mut String, opening: &str, values: &[Text]) -> Result<(), NoMemory>
    ensures { OnOk result (string_bytes text.new
        ≡ string_bytes text.old ++ opening.now ++ spec.values_text values.now ++ codes ")") }
{
    text.push_str(opening)?;
    push_values(text, values)?;
    text.push(')')?;
    Ok(())
}

// Appends values, joined by commas.
fn push_values(text: &mut String, values: &[Text]) -> Result<(), NoMemory>
    ensures { OnOk result (string_bytes text.new ≡ string_bytes text.old ++ spec.values_text values.now) }
{
    let Some((first, others)) = values.split_first() else {
        return Ok(());
    };
    text.push_str(first.as_str())?;
    for value in others {
        text.push(',')?;
        text.push_str(value.as_str())?;
    }
    Ok(())
}
