// A gate as text, written into a lent buffer at a position. Each function that writes returns the position after its text.
ghost use Rattle.std.specs.Prelude.{◌≡◌, ◌+◌, ◌≤◌};
ghost use Rattle.codec.specs.Written.{Room, Put};
ghost use Rattle.notation.specs.GateText.{size, weights_text, gate_text};

use text::field::{put_letter, put_number, put_signed};
use types::gate::Gate;

// Returns the sum of the weights plus T.
fn size_of(gate: Gate) -> i64
    ensures { result ≡ size gate }
{
    let mut sum: i64 = 0;
    for weight in &gate.weights {
        sum += *weight as i64;
    }
    sum + gate.threshold as i64
}

// Writes n weights.
fn put_weights(out: &mut [u8], at: usize, weights: [i32; 8], n: u8) -> usize
    requires { (n ≤ 8) × Room out.old at (weights_text weights n 0) }
    ensures { Put out.old at (weights_text weights n 0) out.new result }
{
    let mut here = at;
    for weight in &weights[..n as usize] {
        here = put_signed(out, here, *weight as i64);
    }
    here
}

// Writes G, K, size, weights and T.
#[tactic(auto, unfolding(crate::specs::GateText::gate_text))]
pub fn put_gate(out: &mut [u8], at: usize, k: u32, gate: Gate) -> usize
    requires { (gate.n ≤ 8) × Room out.old at (gate_text k gate) }
    ensures { Put out.old at (gate_text k gate) out.new result }
{
    let mut here = put_letter(out, at, b'G');
    here = put_number(out, here, k as u64);
    here = put_signed(out, here, size_of(gate));
    here = put_weights(out, here, gate.weights, gate.n);
    put_signed(out, here, gate.threshold as i64)
}
