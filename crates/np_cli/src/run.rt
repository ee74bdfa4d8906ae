//! The top call: from the words of a command line and the bytes of its inputs to a report and a status.
ghost use Rattle.std.specs.Prelude.{◌≡◌, ◌≤◌, ◌⊎◌, Err, IsErrAnd, Some, map};
ghost use Rattle.np_frame.specs.Prelude.{NamesSomething, failure_text, objects_of, sourced};
ghost use Rattle.np_cli.specs.Prelude.{Answers, Bytes, Cause, Counted, Promises, RoseAtMost, ran, steps_in};
ghost use Rattle.np_cli.specs.Messages as messages;
ghost use Rattle.np_command.specs.Prelude.{Said, sunk};
ghost use Rattle.np_args.specs.Prelude.{IsWell, asked_by};

use crate::commands::{reply, report_notes};
use crate::outcome::{Ending, Outcome, status_of};
use np_args::{Job, read_words};
use np_base::Steps;
use np_command::{Failure, Status};
use np_frame::{constant_line, failure_line, names_of, read_all, read_objects};
use np_io::{Inputs, Sink, write_whole};
use std::alloc::Global;
use std::sync::ledger::Ledger;

/// Runs the program on the words after its name: reads the inputs that they ask for, writes the report to `out`
/// and what is to be said of the run to `err`, and answers the status that the program ends with.
///
/// The rules that it looks at are counted.
///
/// The inputs are begun in the order of the words, each once, and none where the words ask for nothing. Nothing goes to
/// `out` where anything is refused. The report is written after the last read, though no clause speaks of that order.
/// Where `out` fails, the bytes that it took are a front of the report. Where memory is short, they are less than the whole
/// report, unless that is empty: once it is written, no memory is wanted. A failure of `err` changes nothing else.
pub fn np_main<I: Inputs, O: Sink, E: Sink, L: Ledger>(
    alloc: Global,
    words: &[String],
    inputs: &mut I,
    out: &mut O,
    err: &mut E,
    steps: &mut Steps<L>,
) -> Status
    ensures promises { let run = ran (asked_by words.now)
        (sourced I.holds I.left I.faults I.handed I.began inputs.old inputs.new)
        (sunk O.taken O.faults out.old out.new) in
        Promises run (sunk E.taken E.faults err.old err.new) result }

    // Which bytes these are, for who writes a second program.
    ensures bytes { let run = ran (asked_by words.now)
        (sourced I.holds I.left I.faults I.handed I.began inputs.old inputs.new)
        (sunk O.taken O.faults out.old out.new) in
        Bytes run (sunk E.taken E.faults err.old err.new) result }

    // How many rules were looked at: for a table at most four times as many for each pair of workloads, and six times for each
    // workload, as speak of one of them in a direction.
    ensures costs { let run = ran (asked_by words.now)
        (sourced I.holds I.left I.faults I.handed I.began inputs.old inputs.new)
        (sunk O.taken O.faults out.old out.new) in
        Counted run steps.old steps.new }

    // Where the words ask for nothing, neither the inputs nor the sink of the report are touched.
    ensures usage { result ≡ Status.Usage → (inputs.new ≡ inputs.old) × (out.new ≡ out.old) }
{
    let outcome = run(alloc, words, inputs, out, steps);
    let said = say(alloc, err, outcome);
    status_of(&said)
}

// Reads what the words ask for, and writes the report.
fn run<I: Inputs, O: Sink, L: Ledger>(
    alloc: Global,
    words: &[String],
    inputs: &mut I,
    out: &mut O,
    steps: &mut Steps<L>,
) -> Result<Ending, Failure>
    ensures ran { let run = ran (asked_by words.now)
        (sourced I.holds I.left I.faults I.handed I.began inputs.old inputs.new)
        (sunk O.taken O.faults out.old out.new) in
        Cause run result × Counted run steps.old steps.new }
    ensures usage { result ≡ Err Failure.Usage → (inputs.new ≡ inputs.old) × (out.new ≡ out.old) }
{
    let job = read_words(alloc, words)?;
    run_job(alloc, &job, inputs, out, steps)
}

// Does what the words ask for.
fn run_job<I: Inputs, O: Sink, L: Ledger>(
    alloc: Global,
    job: &Job,
    inputs: &mut I,
    out: &mut O,
    steps: &mut Steps<L>,
) -> Result<Ending, Failure>
    requires { IsWell job.now }
    ensures { let run = ran (Some job.now)
        (sourced I.holds I.left I.faults I.handed I.began inputs.old inputs.new)
        (sunk O.taken O.faults out.old out.new) in
        Cause run result × Counted run steps.old steps.new }
{
    let names = names_of(alloc, job)?;
    let texts = read_all(alloc, inputs, names.items())?;
    answer(alloc, job, &texts, out, steps)
}

// Writes the report of a job that read these bytes.
fn answer<O: Sink, L: Ledger>(
    alloc: Global,
    job: &Job,
    texts: &[Vec<u8>],
    out: &mut O,
    steps: &mut Steps<L>,
) -> Result<Ending, Failure>
    requires { IsWell job.now }
    ensures answers { Answers job.now (map (λ text. text.items) texts.now) (sunk O.taken O.faults out.old out.new) result }
    ensures least { steps.old ≤ steps.new }
    ensures most { RoseAtMost (steps_in job.now (objects_of job.now (map (λ text. text.items) texts.now))) steps.old steps.new }
{
    let folded = read_objects(alloc, job, texts)?;
    let notes = report_notes(alloc, job, &folded)?;
    let holds = reply(alloc, job, texts, &folded, out, steps)?;
    if holds {
        Ok(Ending::Done(notes))
    } else {
        Ok(Ending::Violated)
    }
}

// Says on the error sink how the run ended. Memory is wanted only for the line of a failure that names something; where that
// is refused, the run ended so.
fn say<E: Sink>(alloc: Global, err: &mut E, outcome: Outcome) -> Outcome
    ensures said { Said (sunk E.taken E.faults err.old err.new) (messages.message result) }
    ensures kept { (result ≡ outcome) ⊎ ((result ≡ Err Failure.NoMemory) × IsErrAnd outcome NamesSomething) }
{
    match outcome {
        Ok(ending) => {
            tell(err, ending.text());
            Ok(ending)
        }
        Err(failure) => Err(say_failure(alloc, err, failure)),
    }
}

/// Says a failure on the error sink, whose own failure changes nothing else, and answers the one that it said: `NoMemory` where
/// the line of a failure that names something wants memory, and that is refused.
pub fn say_failure<E: Sink>(alloc: Global, err: &mut E, failure: Failure) -> Failure
    ensures said { Said (sunk E.taken E.faults err.old err.new) (failure_text result) }
    ensures kept { (result ≡ failure) ⊎ ((result ≡ Failure.NoMemory) × NamesSomething failure) }
{
    if let Some(line) = constant_line(&failure) {
        tell(err, line);
        return failure;
    }
    match failure_line(alloc, &failure) {
        Ok(line) => {
            tell(err, line.as_str());
            failure
        }
        Err(_) => {
            tell(err, "error: out of memory\n");
            Failure::NoMemory
        }
    }
}

// Writes a text to the error sink, whose failure changes nothing else.
fn tell<E: Sink>(err: &mut E, text: &str)
    ensures { Said (sunk E.taken E.faults err.old err.new) text.now }
{
    let _ = write_whole(err, text.as_bytes());
}
