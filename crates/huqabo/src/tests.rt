// What is said of input that the program cannot take.
use crate::replay;
use crate::stop::Stop;
use crate::windows::{self, formula_of};
use script::KindName;
use std::alloc::Global;
use std::process::Abort;

// The program ends with these words.
fn says(rt: &impl Abort, heap: Global, stop: Option<Stop>, wanted: &str) {
    let Some(stop) = stop else {
        assert!(rt; false, "it does not end");
        return;
    };
    let said = format!(in heap; "{stop}").expect(rt, "memory");
    assert!(rt; said.as_str() == wanted);
}

#[test]
fn no_text(rt: HostRuntime) {
    let heap = rt.alloc();
    let wanted = "line 3: the input cannot be read as text";
    says(
        &rt,
        heap,
        replay::steps(&rt, b"kind fixed\n\nstrike \xff\n".as_slice()).err(),
        wanted,
    );
    let windows = b"0 1\n0 2\n0 \xc3\n".as_slice();
    says(
        &rt,
        heap,
        windows::steps(&rt, KindName::Fixed, &[], windows).err(),
        wanted,
    );
    let formula = formula_of(heap, "f.hex", b"# a\n01 00\xff 00\n".as_slice());
    says(
        &rt,
        heap,
        formula.err(),
        "line 2 of 'f.hex': the input cannot be read as text",
    );
}

#[test]
fn wrong_words(rt: HostRuntime) {
    let heap = rt.alloc();
    let wanted = "line 2: 'chanel' is no operation";
    says(
        &rt,
        heap,
        replay::steps(&rt, b"\nadd chanel 0\n".as_slice()).err(),
        wanted,
    );
    let windows = b"0 1\n0 x\n".as_slice();
    let wanted = "line 2: 'x' is no whole number of 64 bits";
    says(
        &rt,
        heap,
        windows::steps(&rt, KindName::Fixed, &[], windows).err(),
        wanted,
    );
    let formula = formula_of(heap, "f.hex", b"01\n0\n".as_slice());
    let wanted = "line 2 of 'f.hex': '0' is no byte in two hexadecimal digits";
    says(&rt, heap, formula.err(), wanted);
}
