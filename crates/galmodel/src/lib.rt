// The model: what a map shows, and what its registers hold after the clock.
#![tactic(auto)]

ghost use Rattle.std.specs.Prelude.{◌≡◌, not, ◌<◌, length};
ghost use Rattle.basics.specs.Choice.{bit, on, xor};
ghost use Rattle.device.specs.Device.{column_of};
ghost use Rattle.gal.specs.Map.{signal, signals};
ghost use Rattle.gal.specs.Show.{shown_at, cell_value, value_at, shown_pins, value_pins};
ghost use Rattle.gal.specs.Clock.{next_at, next_bits};
ghost use Rattle.gal.specs.Model.{answer_of, modelled};

use basics::refusal::{Reason, Refusal};
use gal::Answer;
use std::array;

// What pin x feeds to its column pair.
#[tactic(auto, unfolding(gal::specs::Map::signal))]
fn signal_of(map: &[u8], bits: &[u8; 10], pins: &[u8; 24], x: usize) -> u8
    requires map_len { length map.now ≡ 5892 }
    requires x_nonzero { 0 < x }
    requires x_bound { x < 24 }
    ensures { result ≡ bit (signal map.now bits.now pins.now x) }
{
    if 13 < x && gal::is_registered(map, 23 - x) {
        basics::byte_of(bits[x - 14] != 1)
    } else {
        basics::byte_of(pins[x - 1] == 1)
    }
}

// The signal of column pair p.
#[tactic(auto, using(device::proofs::Rule::column_low, device::proofs::Rule::column_high))]
fn pair_signal(map: &[u8], bits: &[u8; 10], pins: &[u8; 24], p: usize) -> u8
    requires map_len { length map.now ≡ 5892 }
    requires p_bound { p < 22 }
    ensures { result ≡ bit (signal map.now bits.now pins.now (column_of p)) }
{
    signal_of(map, bits, pins, device::column(p) as usize)
}

// The signals of all column pairs.
pub fn all_signals(map: &[u8], bits: &[u8; 10], pins: &[u8; 24]) -> [u8; 22]
    requires { length map.now ≡ 5892 }
    ensures { result ≡ signals map.now bits.now pins.now }
{
    array::from_fn(|p| pair_signal(map, bits, pins, p))
}

// Pin x is shown.
#[tactic(auto, unfolding(gal::specs::Show::shown_at))]
fn shown_pin(map: &[u8], x: usize) -> bool
    requires { length map.now ≡ 5892 }
    ensures { result ≡ shown_at map.now x }
{
    13 < x && x < 24 && gal::is_enabled(map, 23 - x)
}

// b where a is true, else the inverse of b.
fn either(a: bool, b: bool) -> bool
    ensures { result ≡ xor (not a) b }
{
    if a { b } else { !b }
}

// What cell k would show: its register, whose bit is q, or its sum.
#[tactic(auto, unfolding(gal::specs::Show::cell_value))]
fn cell_shows(map: &[u8], k: usize, q: u8, sig: &[u8; 22]) -> bool
    requires map_len { length map.now ≡ 5892 }
    requires k_bound { k < 10 }
    ensures { result ≡ cell_value map.now k q sig.now }
{
    let plain = gal::is_plain(map, k);
    if gal::is_registered(map, k) {
        either(plain, q == 1)
    } else {
        either(plain, gal::cell_total(map, k, sig))
    }
}

// The value of pin x.
#[tactic(auto, unfolding(gal::specs::Show::value_at, gal::specs::Show::shown_at))]
fn value_pin(map: &[u8], bits: &[u8; 10], sig: &[u8; 22], x: usize) -> bool
    requires { length map.now ≡ 5892 }
    ensures { result ≡ value_at map.now bits.now sig.now x }
{
    shown_pin(map, x) && cell_shows(map, 23 - x, bits[x - 14], sig)
}

// What the register of pin 14 + i holds after the clock.
#[tactic(auto, unfolding(gal::specs::Clock::next_at))]
fn next_bit(map: &[u8], sig: &[u8; 22], i: usize) -> bool
    requires map_len { length map.now ≡ 5892 }
    requires i_bound { i < 10 }
    ensures { result ≡ next_at map.now sig.now i }
{
    gal::is_registered(map, 9 - i) && gal::cell_total(map, 9 - i, sig)
}

// Which of pins 1 to 24 are shown.
pub fn shown_pins(map: &[u8]) -> [u8; 24]
    requires { length map.now ≡ 5892 }
    ensures { result ≡ shown_pins map.now }
{
    array::from_fn(|i| basics::byte_of(shown_pin(map, i + 1)))
}

// The values of pins 1 to 24.
pub fn value_pins(map: &[u8], bits: &[u8; 10], sig: &[u8; 22]) -> [u8; 24]
    requires { length map.now ≡ 5892 }
    ensures { result ≡ value_pins map.now bits.now sig.now }
{
    array::from_fn(|i| basics::byte_of(value_pin(map, bits, sig, i + 1)))
}

// The registers of pins 14 to 23 after the clock.
pub fn next_bits(map: &[u8], sig: &[u8; 22]) -> [u8; 10]
    requires { length map.now ≡ 5892 }
    ensures { result ≡ next_bits map.now sig.now }
{
    array::from_fn(|i| basics::byte_of(next_bit(map, sig, i)))
}

// The model.
#[tactic(auto, using(crate::proofs::Answers::sized))]
pub fn model(map: &[u8], bits: &[u8; 10], pins: &[u8; 24]) -> Result<Answer, Refusal>
    ensures { answer_of result ≡ modelled map.now bits.now pins.now }
{
    if galrefuse::no_map(map) {
        return Err(Refusal::new(Reason::Map, 0));
    }
    if galrefuse::is_outside(map) {
        return Err(Refusal::new(Reason::Model, 0));
    }
    if galrefuse::no_values(map, bits, pins) {
        return Err(Refusal::new(Reason::Value, 0));
    }
    let sig = all_signals(map, bits, pins);
    Ok(Answer {
        shown: shown_pins(map),
        values: value_pins(map, bits, &sig),
        next: next_bits(map, &sig),
    })
}
