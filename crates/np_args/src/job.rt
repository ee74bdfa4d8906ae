//! What a command line asks for.

use crate::end_word::EndWord;
use crate::focus_side::FocusSide;
use crate::format::Format;
use crate::report::Report;
use np_base::{PortNum, Seq, Text};
use np_conns::Proto;

/// What the words of a command line ask for. The files of a job are the names of its inputs, in order. There is at least
/// one, and the name `-`, which stands at most once, is standard input.
pub enum Job {
    /// The table of the connections that the policies permit. With a controller, what comes through Ingresses is sent by
    /// the workload of that name. With a focus, the rows in which the workload of that name stands on the side.
    List {
        format: Format,
        report: Report,
        controller: Option<Text>,
        focus: Option<Text>,
        side: FocusSide,
        files: Seq<Text>,
    },
    /// What decides between two ends, at both sides of them. The ends are addresses, or workloads by their names.
    Explain {
        from: EndWord,
        to: EndWord,
        files: Seq<Text>,
    },
    /// What a pod that nobody has written yet could send to workloads and be sent by them: to those of one name, or to all.
    Exposure {
        workload: Option<Text>,
        format: Format,
        files: Seq<Text>,
    },
    /// The verdict of one packet. Its ends are addresses, or listed pods by `namespace/name`.
    Evaluate {
        from: EndWord,
        to: EndWord,
        proto: Proto,
        port: PortNum,
        files: Seq<Text>,
    },
    /// The rules that decide nothing between the pods and addresses of the inputs.
    Unused {
        files: Seq<Text>,
    },
    /// Whether the policies meet what the lines of the statement file say. Standard input is at most one of that file and the
    /// files.
    Check {
        statement: Text,
        files: Seq<Text>,
    },
    /// NetworkPolicies alone that permit the same connections.
    Flatten {
        files: Seq<Text>,
    },
    /// How many rows the tables of a made cluster have. It has this many pods, from 1 to 1000, and no input is read.
    Sample {
        n: u32,
    },
}

// Written out, so that letting one go is one call.
impl Drop for Job {
    fn drop(self) {
        match self {
            Job::List {
                format: _format,
                report: _report,
                controller: _controller,
                focus: _focus,
                side: _side,
                files: _files,
            } => {}
            Job::Explain {
                from: _from,
                to: _to,
                files: _files,
            } => {}
            Job::Exposure {
                workload: _workload,
                format: _format,
                files: _files,
            } => {}
            Job::Evaluate {
                from: _from,
                to: _to,
                proto: _proto,
                port: _port,
                files: _files,
            } => {}
            Job::Unused { files: _files } => {}
            Job::Check {
                statement: _statement,
                files: _files,
            } => {}
            Job::Flatten { files: _files } => {}
            Job::Sample { n: _n } => {}
        }
    }
}
