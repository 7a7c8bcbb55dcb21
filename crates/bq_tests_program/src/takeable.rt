//! That a value is there until it is taken, and again once it was put back: no contract says so.

use bq_base_takeable::Takeable;

#[test]
fn a_value_is_taken_once(rt: HostRuntime) {
    let held = Takeable::of(7u64);
    let first = held.take();
    let second = held.take();
    assert!(rt; first == Some(7) && second.is_none());
    held.put_back(7);
    let third = held.take();
    let fourth = held.take();
    assert!(rt; third == Some(7) && fourth.is_none());
}
