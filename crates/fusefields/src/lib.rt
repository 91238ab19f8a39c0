// Judges one field of a fuse file (document 01, 'The fuse file', Reading).
#![tactic(auto)]

pub mod bytes;

ghost use Rattle.std.specs.Prelude.{◌≡◌, ℕ, ◌+◌, ◌≤◌, ◌<◌, length};
ghost use Rattle.basics.specs.Refusal.{fault_of};
ghost use Rattle.fusefields.specs.Fields.{one, number_fault, judged, judge_f, judge_g, judge_c, judge_qf, judge_qp, judge_q, judge_plain, judge_l, judge, step_of, listed, listed_rest, listed_fuses, Says};

use basics::refusal::Reason;
use bytes::{
    count_fuses, hex4_of, is_blank, is_digit, is_fuse, is_fuse_or_blank, is_hexit, put_fuses, run,
    value_of,
};

// How many fuses a map has; and how far numbers are told apart, which is further than any fuse or any number that is asked for.
const FUSES: usize = 5892;

const CAP: usize = 10000;

// What has been seen: whether QF, QP, G and L came, and the values of F and C where they came.
#[derive(Clone, Copy)]
pub struct Seen {
    pub qf: bool,
    pub qp: bool,
    pub g: bool,
    pub l: bool,
    pub f: Option<u8>,
    pub c: Option<u32>,
}

// Whether xs is one 0 or 1.
#[tactic(auto, unfolding(crate::specs::Fields::one))]
fn is_one(xs: &[u8]) -> bool
    ensures { result ≡ one xs.now }
{
    xs.len() == 1 && is_fuse(xs[0])
}

// Whether xs is the number n.
#[tactic(auto, unfolding(crate::specs::Fields::number_fault))]
fn check_number(xs: &[u8], n: usize) -> Result<(), Reason>
    requires { n < 10000 }
    ensures { fault_of result ≡ number_fault xs.now n }
{
    if xs.len() < 1 || run(xs, is_digit) < xs.len() {
        return Err(Reason::Form);
    }
    if value_of(xs, CAP) != n {
        return Err(Reason::Device);
    }
    Ok(())
}

// Behind an F.
#[tactic(auto, using(crate::proofs::Judges::one_length, crate::proofs::Judges::one_code), unfolding(crate::specs::Fields::judge_f))]
fn judge_f(s: Seen, xs: &[u8]) -> Result<Seen, Reason>
    ensures { judged result ≡ judge_f s xs.now }
{
    if !s.qf || s.f.is_some() || s.l || !is_one(xs) {
        return Err(Reason::Form);
    }
    Ok(Seen {
        f: Some(xs[0] - b'0'),
        ..s
    })
}

// Behind a G.
#[tactic(auto, unfolding(crate::specs::Fields::judge_g))]
fn judge_g(s: Seen, xs: &[u8]) -> Result<Seen, Reason>
    ensures { judged result ≡ judge_g s xs.now }
{
    if s.g || !is_one(xs) {
        return Err(Reason::Form);
    }
    Ok(Seen { g: true, ..s })
}

// Behind a C.
#[tactic(auto, unfolding(crate::specs::Fields::judge_c))]
fn judge_c(s: Seen, xs: &[u8]) -> Result<Seen, Reason>
    ensures { judged result ≡ judge_c s xs.now }
{
    if s.c.is_some() || xs.len() != 4 || run(xs, is_hexit) < xs.len() {
        return Err(Reason::Form);
    }
    Ok(Seen {
        c: Some(hex4_of(xs)),
        ..s
    })
}

// Kept: QF and QP are judged by two functions, since one for both would take the field to look at, the field to set and the number, and its
// callers would say no less than these bodies do.
// Behind QF.
#[tactic(auto, unfolding(crate::specs::Fields::judge_qf))]
fn judge_qf(s: Seen, xs: &[u8]) -> Result<Seen, Reason>
    ensures { judged result ≡ judge_qf s xs.now }
{
    if s.qf {
        return Err(Reason::Form);
    }
    check_number(xs, FUSES)?;
    Ok(Seen { qf: true, ..s })
}

// Behind QP.
#[tactic(auto, unfolding(crate::specs::Fields::judge_qp))]
fn judge_qp(s: Seen, xs: &[u8]) -> Result<Seen, Reason>
    ensures { judged result ≡ judge_qp s xs.now }
{
    if s.qp {
        return Err(Reason::Form);
    }
    check_number(xs, 24)?;
    Ok(Seen { qp: true, ..s })
}

// Behind a Q.
#[tactic(auto, using(std::proofs::lemmas::Grind::common_steps, crate::proofs::Judges::judge_q_empty, crate::proofs::Judges::judge_q_cons))]
fn judge_q(s: Seen, xs: &[u8]) -> Result<Seen, Reason>
    ensures { judged result ≡ judge_q s xs.now }
{
    match xs {
        [b'F', xs @ ..] => judge_qf(s, xs),
        [b'P', xs @ ..] => judge_qp(s, xs),
        _ => Ok(s),
    }
}

// A field that is no L, by its letter.
#[tactic(auto, unfolding(crate::specs::Fields::judge_plain))]
fn judge_plain(s: Seen, x: u8, xs: &[u8]) -> Result<Seen, Reason>
    ensures { judged result ≡ judge_plain s x xs.now }
{
    match x {
        b'C' => judge_c(s, xs),
        b'F' => judge_f(s, xs),
        b'G' => judge_g(s, xs),
        b'Q' => judge_q(s, xs),
        b'A'..=b'Z' => Ok(s),
        _ => Err(Reason::Form),
    }
}

// The contents of an L field, for the fuses from n on: they go into cells.
#[tactic(auto, unfolding(crate::specs::Fields::listed_fuses))]
fn list_fuses(n: usize, xs: &[u8], cells: &mut [u8]) -> Result<(), Reason>
    requires { (n ≤ 10000) × (length cells.old ≡ 5892) }
    ensures { Says (listed_fuses n xs.now) (fault_of result) cells.old cells.new }
{
    if xs.len() < 1 || run(xs, is_fuse_or_blank) < xs.len() {
        return Err(Reason::Form);
    }
    if FUSES < n + count_fuses(xs) {
        return Err(Reason::Fuse);
    }
    put_fuses(xs, cells, n);
    Ok(())
}

// Blanks, and the contents.
#[tactic(auto, using(crate::proofs::Fronts::part_past), unfolding(crate::specs::Fields::listed_rest))]
fn list_rest(n: usize, xs: &[u8], cells: &mut [u8]) -> Result<(), Reason>
    requires { (n ≤ 10000) × (length cells.old ≡ 5892) }
    ensures { Says (listed_rest n xs.now) (fault_of result) cells.old cells.new }
{
    let b = run(xs, is_blank);
    if b < 1 {
        return Err(Reason::Form);
    }
    list_fuses(n, &xs[b..], cells)
}

// What stands behind an L.
#[tactic(auto, using(crate::proofs::Fronts::part_past, crate::proofs::Fronts::part_front, crate::proofs::Judges::listed_capped), unfolding(crate::specs::Fields::listed))]
fn list(xs: &[u8], cells: &mut [u8]) -> Result<(), Reason>
    requires { length cells.old ≡ 5892 }
    ensures { Says (listed xs.now) (fault_of result) cells.old cells.new }
{
    let n = run(xs, is_digit);
    if n < 1 {
        return Err(Reason::Form);
    }
    list_rest(value_of(&xs[..n], CAP), &xs[n..], cells)
}

// Behind an L.
#[tactic(auto, unfolding(crate::specs::Fields::judge_l))]
fn judge_l(s: Seen, xs: &[u8], cells: &mut [u8]) -> Result<Seen, Reason>
    requires { length cells.old ≡ 5892 }
    ensures { step_of (judged result) cells.new ≡ judge_l s xs.now cells.old }
{
    if !s.qf {
        return Err(Reason::Form);
    }
    list(xs, cells)?;
    Ok(Seen { l: true, ..s })
}

// A field, from its first byte up to its `*`.
#[tactic(auto, using(crate::proofs::Judges::judge_empty, crate::proofs::Judges::judge_cons))]
pub fn judge(s: Seen, xs: &[u8], cells: &mut [u8]) -> Result<Seen, Reason>
    requires { length cells.old ≡ 5892 }
    ensures { step_of (judged result) cells.new ≡ judge s xs.now cells.old }
{
    match xs {
        [] => Err(Reason::Form),
        [b'L', xs @ ..] => judge_l(s, xs, cells),
        [x, xs @ ..] => judge_plain(s, *x, xs),
    }
}
