//! What a gate that holds two workers does with them.

use edge_io::{Gate, HoldGate};
use std::thread::join;

#[test]
fn a_gate_holds_each_of_two_threads_until_the_other_has_come(rt: HostRuntime) {
    let gate = HoldGate::new(0, 64);
    join(&rt, || gate.before(0, 0), || gate.before(64, 0));
    assert!(rt; !gate.gave_up());
    // Both have come, so each passes alone now.
    gate.before(64, 0);
    gate.before(0, 0);
    assert!(rt; !gate.gave_up());
}

#[test]
fn a_gate_holds_no_other_worker_and_no_later_turn(rt: HostRuntime) {
    let gate = HoldGate::new(0, 1);
    gate.before(2, 0);
    gate.before(0, 1);
    gate.before(1, 7);
    assert!(rt; !gate.gave_up());
}

#[test]
fn a_worker_that_waits_in_vain_gives_up(rt: HostRuntime) {
    let gate = HoldGate::new(0, 68);
    gate.before(0, 0);
    assert!(rt; gate.gave_up());
}
