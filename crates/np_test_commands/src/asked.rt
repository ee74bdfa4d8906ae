//! Lists that are read, folded and asked.
ghost use Rattle.std.specs.Prelude.{◌≡◌, ◌<◌};
ghost use Rattle.np_model.specs.Prelude.{IsLawful};

use crate::explained::explained_text;
use crate::exposed::{exposed_text, weight_text};
use crate::flat::flat_text;
use crate::routed::{flaws_text, reached_text};
use crate::stated::broken_text;
use crate::unused::unused_text;
use np_base::{NoMemory, Steps};
use np_fold::Folded;
use np_model::{Direction, Estate};
use np_reading::read_estate;
use std::alloc::Global;
use std::marker::Brand;
use std::process::Abort;
use std::sync::ledger::{Blank, Ledger};

/// What is asked of a list. Workloads are named by their numbers, and pods by their places.
#[derive(Clone, Copy)]
pub enum Question {
    /// The TCP ports of a workload that are reached through Ingresses, from a controller that is a workload, or from one
    /// that is not known.
    Reached(Option<u32>, u32),
    /// A line for each backend of an Ingress that has a flaw.
    Flaws,
    /// A line for each part of what decides between two pods at a side, over IPv4.
    Explained(u32, u32, Direction),
    /// A line for each row of the exposure of a pod.
    Exposed(u32, Direction),
    /// How many patterns the requirements that are mentioned at a pod may tell apart.
    Weight(u32, Direction),
    /// A line for each rule that decides nothing.
    Unused,
    /// How the first line of a file of statements that does not hold is broken, or why the file is refused.
    Broken(&'static str),
    /// A line for each NetworkPolicy of those that alone give the same verdicts, or why there are none.
    Flat,
}

/// Stops the test unless a list gives this answer.
pub fn expect_answer(rt: &impl Abort, alloc: Global, list: &str, question: Question, wanted: &str) {
    let given = answer(alloc, list, question).expect(rt, "an answer");
    assert!(rt; given.as_str() == wanted, "{given}");
}

// What the text of a list answers: why it is refused, or what its estate answers.
fn answer(alloc: Global, text: &str, question: Question) -> Result<String, NoMemory> {
    let inputs = [Vec::from_slice(alloc, text.as_bytes())?];
    match read_estate(alloc, &inputs) {
        Ok(estate) => answer_of_estate(alloc, estate, question),
        Err(refusal) => Ok(format!(in alloc; "{refusal}")?),
    }
}

// What an estate answers: that it has too many workloads, or what it answers with these.
fn answer_of_estate(alloc: Global, estate: Estate, question: Question) -> Result<String, NoMemory>
    requires { IsLawful estate }
{
    match Folded::of(alloc, estate) {
        Ok(folded) => counted_answer::<Brand>(alloc, &folded, question, Blank::new(1)),
        Err(fault) => Ok(format!(in alloc; "{fault}")?),
    }
}

// The same, with a counter on the ledger of this blank.
fn counted_answer<L: Ledger>(
    alloc: Global,
    folded: &Folded,
    question: Question,
    blank: Blank,
) -> Result<String, NoMemory>
    requires name { blank.name ≡ L.name }
    requires parts { blank.parts ≡ L.parts }
    requires some { 0 < blank.parts }
{
    let mut steps: Steps<L> = Steps::new(blank);
    match question {
        Question::Reached(controller, workload) => {
            reached_text(alloc, folded, controller, workload, &mut steps)
        }
        Question::Flaws => flaws_text(alloc, folded.estate()),
        Question::Explained(source, destination, direction) => {
            explained_text(alloc, folded, source, destination, direction)
        }
        Question::Exposed(pod, direction) => exposed_text(alloc, folded.estate(), pod, direction),
        Question::Weight(pod, direction) => weight_text(alloc, folded.estate(), pod, direction),
        Question::Unused => unused_text(alloc, folded),
        Question::Broken(file) => broken_text(alloc, folded, file),
        Question::Flat => flat_text(alloc, folded),
    }
}
