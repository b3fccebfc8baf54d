//! Tests of gates.

use bc_gates::{Gate, OpenGate};

fn passes<G: Gate>(gate: &G) {
    gate.at(0, 1);
    gate.at(200, 5);
}

#[test]
fn an_open_gate_lets_everyone_pass() {
    passes(&OpenGate);
}
