// What the program says to a spoiled line of a script.
use script::{Problem, call_of};
use std::alloc::Global;
use std::process::Abort;

fn slips(rt: &impl Abort, heap: Global, text: &str, word: &str, problem: Problem) {
    assert!(rt; call_of(heap, text).err() == Some(problem.of(word)));
}

#[test]
fn words(rt: HostRuntime) {
    let heap = rt.alloc();
    slips(&rt, heap, "divide 1 2", "divide", Problem::NoCall);
    slips(&rt, heap, "kind floating", "floating", Problem::NoKind);
    slips(&rt, heap, "add power 0", "power", Problem::NoOperation);
    slips(&rt, heap, "add sum 0", "0", Problem::Missing);
    slips(&rt, heap, "strike 1", "1", Problem::Surplus);
    slips(
        &rt,
        heap,
        "open upper 1",
        "upper",
        Problem::Expected("lower"),
    );
    slips(
        &rt,
        heap,
        "move 0 lower 1 centre 1",
        "centre",
        Problem::Expected("upper"),
    );
    slips(
        &rt,
        heap,
        "move -1 lower 1 upper 2 centre 1",
        "-1",
        Problem::NoIndex,
    );
    slips(
        &rt,
        heap,
        "report 9223372036854775808",
        "9223372036854775808",
        Problem::NoNumber,
    );
    slips(&rt, heap, "report -1", "-1", Problem::NoIndex);
    slips(&rt, heap, "lend 129 0", "129", Problem::Beyond);
    slips(&rt, heap, "working 128", "128", Problem::Beyond);
    slips(&rt, heap, "read 4 00", "4", Problem::NoByte);
    slips(&rt, heap, "read 0g", "0g", Problem::NoByte);
}

#[test]
fn passed_over(rt: HostRuntime) {
    let heap = rt.alloc();
    assert!(rt; matches!(call_of(heap, "   "), Ok(None)));
    assert!(rt; matches!(call_of(heap, "# add nothing"), Ok(None)));
}
