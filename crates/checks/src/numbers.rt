// Numbers in groups of seven bits: the standard's unsigned examples, read and written.
use fault::{Cause, Fault};
use leb::{Place, number};
use line::Line;
use std::process::Abort;
use writer::write;

// The bytes are read as n, and a channel n is written with them.
fn trips(rt: &impl Abort, bytes: &[u8], n: u32) {
    let mut place = Place { at: 0 };
    assert!(rt; number(bytes, &mut place, 0) == Ok(n));
    assert_eq!(rt; place.at, bytes.len());
    let mut out = [0u8; 8];
    let length = write(&[Line::Channel(n as usize)], &mut out);
    assert!(rt; length == Ok(bytes.len().saturating_add(2)));
    assert!(rt; out.starts_with(&[1, 0]));
    assert!(rt; out[2..].starts_with(bytes));
}

#[test]
fn examples(rt: HostRuntime) {
    trips(&rt, &[0x02], 2);
    trips(&rt, &[0x7f], 127);
    trips(&rt, &[0x80, 0x01], 128);
    trips(&rt, &[0x81, 0x01], 129);
    trips(&rt, &[0xb9, 0x64], 12857);
}

// What is refused of the number that bytes begin with, in a line that begins at 7.
fn fault_of(bytes: &[u8]) -> Option<Fault> {
    let mut place = Place { at: 0 };
    number(bytes, &mut place, 7).err()
}

#[test]
fn spoiled(rt: HostRuntime) {
    assert!(rt; fault_of(&[0x80, 0x00]) == Some(Cause::Form.at(7)));
    assert!(rt; fault_of(&[0x80]) == Some(Cause::Early.at(7)));
    assert!(rt; fault_of(&[]) == Some(Cause::Early.at(7)));
    assert!(rt; fault_of(&[0xff, 0xff, 0xff, 0xff, 0x07]) == None);
    assert!(rt; fault_of(&[0x80, 0x80, 0x80, 0x80, 0x08]) == Some(Cause::Form.at(7)));
    assert!(rt; fault_of(&[0x80, 0x80, 0x80, 0x80, 0x80, 0x80]) == Some(Cause::Early.at(7)));
    assert!(rt; fault_of(&[0x80, 0x80, 0x80, 0x80, 0x80, 0x01]) == Some(Cause::Form.at(7)));
}
