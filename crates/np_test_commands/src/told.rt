//! Failures, as the lines that tell of them.

use np_base::Text;
use np_cli::say_failure;
use np_command::{Failure, Fault};
use np_frame::failure_line;
use np_io::MemSink;
use np_model::Direction;
use std::alloc::Global;
use std::process::Abort;

// How the program is called, as its README has it.
static USAGE: &str =
    "usage: np list [--format text|csv|json] [--report 1|2] [--controller NAME] [--focus NAME] [--side either|from|to] [FILE]...
       np explain --from END --to END [FILE]...
       np exposure [--workload NAME] [--format text|csv|json] [FILE]...
       np evaluate --from END --to END --protocol P --port N [FILE]...
       np unused [FILE]...
       np check --statement FILE [FILE]...
       np flatten [FILE]...
       np sample N
";

// A word with control characters of each range, and with characters that look like them or like their escapes.
static WORD: &str = "a\nb\rc\td\u{0}e\u{1b}[1mf\u{7f}g\u{85}h\\n\"'i\u{a0}\u{e9}\u{2028}\u{1f600}";

// The same in one line: the seven control characters as a Rust string has them, and all else as it is.
static IN_ONE_LINE: &str = r#"a\nb\rc\td\u{0}e\u{1b}[1mf\u{7f}g\u{85}h\n"'i"#;

// What stands behind it, none of which is a control character.
static REST: &str = "\u{a0}\u{e9}\u{2028}\u{1f600}";

// The failure that names an input.
fn unread(rt: &impl Abort, alloc: Global, name: &str) -> Failure {
    Failure::CannotRead(Text::of(alloc, name).expect(rt, "a name"))
}

// The failure that names an end.
fn unknown(rt: &impl Abort, alloc: Global, name: &str) -> Failure {
    let name = Text::of(alloc, name).expect(rt, "a name");
    Failure::Refused(Fault::UnknownEnd { name })
}

// Whether a failure is told so, and by both calls.
fn is_told(rt: &impl Abort, alloc: Global, failure: Failure, line: &str) -> bool {
    let made = failure_line(alloc, &failure).expect(rt, "a line");
    let mut err = MemSink::new(alloc, 4096, 5).expect(rt, "a sink");
    let status = failure.status();
    let said = say_failure(alloc, &mut err, failure);
    made.as_str() == line && err.taken() == line.as_bytes() && said.status() == status
}

#[test]
fn words_are_told_in_one_line(rt: HostRuntime) {
    let alloc = rt.alloc();
    let line = format!(in alloc; "error: cannot read {IN_ONE_LINE}{REST}\n").expect(&rt, "a line");
    assert!(rt; is_told(&rt, alloc, unread(&rt, alloc, WORD), &line));
    let line = format!(in alloc; "error: UnknownEnd {IN_ONE_LINE}{REST}\n").expect(&rt, "a line");
    assert!(rt; is_told(&rt, alloc, unknown(&rt, alloc, WORD), &line));
}

#[test]
fn no_word_forges_a_line(rt: HostRuntime) {
    let alloc = rt.alloc();
    let forged = unknown(&rt, alloc, "x\nerror: TooLarge");
    assert!(rt;
        is_told(
            &rt,
            alloc,
            forged,
            "error: UnknownEnd x\\nerror: TooLarge\n"
        )
    );
    let hidden = unread(&rt, alloc, "x\u{1b}[2K\rnothing");
    assert!(rt;
        is_told(
            &rt,
            alloc,
            hidden,
            "error: cannot read x\\u{1b}[2K\\rnothing\n"
        )
    );
    let empty = unread(&rt, alloc, "");
    assert!(rt; is_told(&rt, alloc, empty, "error: cannot read \n"));
}

#[test]
fn each_name_of_a_fault_is_told_in_one_line(rt: HostRuntime) {
    let alloc = rt.alloc();
    let two = Fault::Alike {
        a: Text::of(alloc, "n/\ta[Pod]").expect(&rt, "a name"),
        b: Text::of(alloc, "n/b\u{9f}[Pod]").expect(&rt, "a name"),
    };
    let line = "error: Alike n/\\ta[Pod], n/b\\u{9f}[Pod]\n";
    assert!(rt; is_told(&rt, alloc, Failure::Refused(two), line));
    let heavy = Fault::TooManyPatterns {
        workload: Text::of(alloc, "n/a\u{1}[Pod]").expect(&rt, "a name"),
        direction: Direction::Egress,
        weight: 65_537,
    };
    let line = "error: TooManyPatterns n/a\\u{1}[Pod] egress: 65537\n";
    assert!(rt; is_told(&rt, alloc, Failure::Refused(heavy), line));
}

#[test]
fn failures_without_a_name_have_their_lines(rt: HostRuntime) {
    let alloc = rt.alloc();
    assert!(rt; is_told(&rt, alloc, Failure::Usage, USAGE));
    assert!(rt; is_told(&rt, alloc, Failure::TooLarge, "error: TooLarge\n"));
    assert!(rt; is_told(&rt, alloc, Failure::CannotWrite, "error: cannot write\n"));
    assert!(rt; is_told(&rt, alloc, Failure::NoMemory, "error: out of memory\n"));
}

#[test]
fn a_sink_that_fails_changes_no_failure(rt: HostRuntime) {
    let alloc = rt.alloc();
    let mut err = MemSink::new(alloc, 4096, 8).expect(&rt, "a sink");
    err.fail_write(3).expect(&rt, "a call");
    let failure = unread(&rt, alloc, "a\nb");
    let said = say_failure(alloc, &mut err, failure);
    // Two pieces of eight bytes were taken before the call that failed.
    assert!(rt; err.taken() == b"error: cannot re".as_slice());
    let kept = matches!(&said, Failure::CannotRead(name) if name.as_str() == "a\nb");
    assert!(rt; kept);
}
