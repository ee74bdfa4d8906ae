//! `unused`: the rules that decide nothing.
ghost use Rattle.std.specs.Prelude.{◌≡◌, All, IfOk, Ok, flat_map, string_bytes};
ghost use Rattle.np_command.specs.Prelude.{Wrote, sunk};
ghost use Rattle.np_command_unused.specs.Report as spec;
ghost use Rattle.np_unused.specs.Prelude.{IsRuleOf};

use np_base::NoMemory;
use np_command::Failure;
use np_fold::Folded;
use np_io::{Sink, write_whole};
use np_model::Estate;
use np_unused::{RuleRef, print_rule, unused_rules};
use std::alloc::Global;

/// Writes the rules that decide nothing, each on a line of its own.
#[tactic(auto, unfolding(crate::specs::Report::unused_text))]
pub fn unused<O: Sink>(alloc: Global, folded: &Folded, out: &mut O) -> Result<(), Failure>
    ensures { Wrote (sunk O.taken O.faults out.old out.new) (Ok (spec.unused_text folded.now)) result }
{
    let rules = unused_rules(alloc, folded)?;
    let lines = rule_lines(alloc, folded.estate(), rules.items())?;
    write_whole(out, lines.as_bytes())?;
    Ok(())
}

// A line for each of some rules.
fn rule_lines(alloc: Global, estate: &Estate, rules: &[RuleRef]) -> Result<String, NoMemory>
    requires { All (IsRuleOf estate.now) rules.now }
    ensures { IfOk result (λ lines. string_bytes lines ≡ flat_map (spec.rule_line estate.now) rules.now) }
{
    let mut lines = String::new(alloc);
    for rule in rules {
        let text = print_rule(alloc, estate, rule)?;
        lines.push_str(text.as_str())?;
        lines.push_str("\n")?;
    }
    Ok(lines)
}
