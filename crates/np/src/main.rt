//! The program: the top call over the system.
#![tactic(auto)]

mod words;

ghost use Rattle.std.specs.Prelude.{◌≡◌, ◌<◌, IfErr, Result, String};
ghost use Rattle.std.specs.Global.{Global as SpecGlobal, Vec as SpecVec};
ghost use Rattle.std.specs.Process.{exit_status};
ghost use Rattle.np.specs.Runs.{EndsSo};
ghost use Rattle.np.specs.Words.{IsNoText};
ghost use Rattle.np_command.specs.Prelude.{SinkTrace, sunk};
ghost use Rattle.np_command.specs.declared.failure.Failure.{Failure as SpecFailure};
ghost use Rattle.np_frame.specs.Prelude.{SourceTrace, sourced};

use crate::words::{RealCall, words_of};
use np_base::Steps;
use np_cli::{np_main, say_failure};
use np_command::Failure;
use np_io::{Inputs, RealInputs, RealSink, RealSystem, Sink};
use std::alloc::Global;
use std::io::{Stderr, Stdout};
use std::marker::Brand;
use std::process::ExitCode;
use std::sync::ledger::{Blank, Ledger};

fn main(rt: HostRuntime) -> ExitCode {
    exit_code(rt)
}

// The code of the program, which is that of some run. The kit takes no clause on `main`.
fn exit_code(rt: HostRuntime) -> ExitCode
    ensures { (words : Result (SpecVec (String SpecGlobal)) SpecFailure) × (source : SourceTrace) × (out : SinkTrace) × (err : SinkTrace)
        × EndsSo words source out err (exit_status result) }
{
    let words = words_of(&RealCall(&rt));
    ExitCode::from(run_on_system(rt, words))
}

// Runs the top call over the system, and answers the code that the program ends with: that of some run, of which all is promised.
// The types tell the two streams apart: the report goes to the former, what is said of the run to the latter.
fn run_on_system(rt: HostRuntime, words: Result<Vec<String>, Failure>) -> u8
    requires { IfErr words IsNoText }
    ensures { (source : SourceTrace) × (out : SinkTrace) × (err : SinkTrace) × EndsSo words source out err result }
{
    let alloc = rt.alloc();
    let mut out = RealSink::new(rt.stdout());
    let mut err = RealSink::new(rt.stderr());
    let mut inputs = RealInputs::new(RealSystem(rt));
    run_counted::<RealInputs<RealSystem<HostRuntime>>, RealSink<Stdout>, RealSink<Stderr>, Brand>(
        alloc,
        words,
        &mut inputs,
        &mut out,
        &mut err,
        Blank::new(1),
    )
}

// The code that the top call ends with. The rules are counted from 0, on the ledger of this blank. Where there are no words, it is
// said why.
fn run_counted<I: Inputs, O: Sink, E: Sink, L: Ledger>(
    alloc: Global,
    words: Result<Vec<String>, Failure>,
    inputs: &mut I,
    out: &mut O,
    err: &mut E,
    blank: Blank,
) -> u8
    requires text { IfErr words IsNoText }
    requires name { blank.name ≡ L.name }
    requires parts { blank.parts ≡ L.parts }
    requires some { 0 < blank.parts }
    ensures ends { EndsSo words (sourced I.holds I.left I.faults I.handed I.began inputs.old inputs.new)
        (sunk O.taken O.faults out.old out.new) (sunk E.taken E.faults err.old err.new) result }
    ensures usage { result ≡ 2 → (inputs.new ≡ inputs.old) × (out.new ≡ out.old) }
{
    match words {
        Ok(words) => {
            let mut steps: Steps<L> = Steps::new(blank);
            np_main(alloc, &words, inputs, out, err, &mut steps).code()
        }
        Err(failure) => say_failure(alloc, err, failure).status().code(),
    }
}
