// Boxes of ends that need not be counts.
use boxes::{ChannelBox, Range};
use fault::Cause;

#[test]
fn beyond_counts(rt: HostRuntime) {
    let taken = ChannelBox::of_ends(&[5, i32::MIN], &[5, i32::MAX], 1, 2_000_000_000);
    assert!(rt; taken.is_ok());
    if let Ok(b) = taken {
        let first = Range { lower: 5, upper: 5 };
        let second = Range {
            lower: i32::MIN,
            upper: i32::MAX,
        };
        assert!(rt; b.ranges[0] == first && b.ranges[1] == second);
        assert!(rt; b.channels == 2 && b.swept == 1 && b.centre == 2_000_000_000);
    }
    let crossed = ChannelBox::of_ends(&[5, i32::MAX], &[5, i32::MIN], 0, 5);
    assert!(rt; crossed.err() == Some(Cause::Order.at(1)));
}
