// Stage 5: what is judged over all elements once the statements are unrolled.
#![tactic(auto)]

ghost use Rattle.std.specs.Prelude.{◌≡◌, Bool, true, false, not, ◌&&◌, ◌||◌, ℕ, ◌+◌, ◌-◌, ◌<◌, ◌≤◌, eqb, ltb, length, get_or, Some, IfSome, IsNone};
ghost use Rattle.basics.specs.Choice.{pick, bit, on, found_or};
ghost use Rattle.basics.specs.Below.{any_below};
ghost use Rattle.basics.specs.Refusal.{number_of};
ghost use Rattle.trees.specs.Layout.{Elements, elements_of, class_of, nodes_at};
ghost use Rattle.reach.specs.Table.{cell};
ghost use Rattle.circuit.specs.Placed.{plain_n, placed_n};
ghost use Rattle.circuit.specs.Pins.{role_of};
ghost use Rattle.circuit.specs.Roles.{role_number};
ghost use Rattle.circuit.specs.StageFive.{misassigned, misplaced, looped, stands_beside, positioned_right, mispositioned, first_below, stage_five};
ghost use Rattle.circuit.specs.StageFive.Verdict.{fine, refused};
ghost use Rattle.circuit.specs.Judged.{seen, IsFirst, AsBytes};

use basics::refusal::{Reason, Refusal};
use trees::{Class, Node};

// The first of the 64 elements that passes a test.
pub fn find<F: Fn(usize) -> bool>(test: F) -> Option<usize>
    requires { (i : ℕ) → i < 64 → F.pre test i }
    ensures some { IfSome result (IsFirst (F.post test)) }
    ensures none { IsNone result → (k : ℕ) → k < 64 → F.post test k false }
{
    for i in 0..64 {
        if test(i) {
            return Some(i);
        }
    }
    None
}

// A test's answers at the numbers below N, as bytes.
pub fn bits<const N: usize, F: Fn(usize) -> bool>(test: F) -> [u8; N]
    requires { (i : ℕ) → i < N → F.pre test i }
    ensures { AsBytes (F.post test) N result }
{
    let mut bits = [0u8; N];
    for i in 0..N {
        bits[i] = basics::byte_of(test(i));
    }
    bits
}

// Assigned otherwise than its class wants.
#[tactic(auto, using(trees::proofs::Classes::numbers), unfolding(crate::specs::StageFive::misassigned))]
fn is_misassigned(parts: &[u32], i: usize) -> bool
    requires { i < 64 }
    ensures { result ≡ misassigned (elements_of parts.now) i }
{
    let n = trees::at(parts, trees::TIMES_AT + i);
    match reach::class_of(parts, i) {
        Some(Class::In) => n != 0,
        Some(Class::Out | Class::Var) => n != 1,
        None => false,
    }
}

fn first_misassigned(parts: &[u32]) -> Option<usize>
    ensures found { found_or 64 result ≡ first_below (misassigned (elements_of parts.now)) 64 }
    ensures inside { IfSome result (λ i. i < 64) }
{
    find(|i| is_misassigned(parts, i))
}

// No REG among the nodes.
#[tactic(auto, using(crate::proofs::Placing::plain_next, crate::proofs::Placing::plain_none))]
fn is_plain(nodes: &[u32]) -> bool
    ensures { result ≡ plain_n nodes.now }
{
    for &c in nodes {
        if reach::is_reg(Node::from(c)) {
            return false;
        }
    }
    true
}

// REG stands only at the top of the equation, or under one ~ there.
#[tactic(auto, using(crate::proofs::Placing::placed_parts, crate::proofs::Placing::no_two, trees::proofs::Nodes::others))]
fn well_placed(nodes: &[u32]) -> bool
    ensures { result ≡ placed_n nodes.now }
{
    if nodes.len() < 2 {
        return true;
    }
    let last = nodes.len() - 2;
    is_plain(&nodes[..last])
        && (!reach::is_reg(Node::from(nodes[last]))
            || matches!(Node::from(nodes[last + 1]), Node::Not))
}

// A REG stands where it may not.
#[tactic(auto, using(trees::proofs::Classes::numbers), unfolding(crate::specs::StageFive::misplaced))]
fn is_misplaced(parts: &[u32], i: usize) -> bool
    requires { i < 64 }
    ensures { result ≡ misplaced (elements_of parts.now) i }
{
    match reach::class_of(parts, i) {
        Some(Class::Out) => !well_placed(trees::nodes_of(parts, i)),
        Some(Class::Var) => !is_plain(trees::nodes_of(parts, i)),
        Some(Class::In) | None => false,
    }
}

fn first_misplaced(parts: &[u32]) -> Option<usize>
    ensures found { found_or 64 result ≡ first_below (misplaced (elements_of parts.now)) 64 }
    ensures inside { IfSome result (λ i. i < 64) }
{
    find(|i| is_misplaced(parts, i))
}

// The first element that meets itself.
fn first_own(m: &[u8]) -> Option<usize>
    requires { length m.now ≡ 4096 }
    ensures found { found_or 64 result ≡ first_below (λ i. cell m.now i i) 64 }
    ensures inside { IfSome result (λ i. i < 64) }
{
    find(|i| m[i * 64 + i] == 1)
}

fn first_looped(parts: &[u32]) -> Option<usize>
    ensures found { found_or 64 result ≡ first_below (looped (elements_of parts.now)) 64 }
    ensures inside { IfSome result (λ i. i < 64) }
{
    let mut m = [0u8; 4096];
    reach::reach(&mut m, parts);
    first_own(&m)
}

// What a pin is for.
#[derive(Clone, Copy, Debug, PartialEq, Eq)]
enum Role {
    In,
    Out,
    Clock,
}

#[tactic(auto, unfolding(crate::specs::Pins::role_of))]
fn role_of(p: usize) -> Option<Role>
    ensures { role_number result ≡ role_of p }
{
    match p {
        1 => Some(Role::Clock),
        2..=11 | 13 => Some(Role::In),
        14..=23 => Some(Role::Out),
        _ => None,
    }
}

// Element i is an IN or an OUT.
#[tactic(auto, using(trees::proofs::Classes::numbers))]
fn has_pin(parts: &[u32], i: usize) -> bool
    requires { i < 64 }
    ensures { result ≡ eqb (class_of parts.now i) 1 || eqb (class_of parts.now i) 2 }
{
    matches!(reach::class_of(parts, i), Some(Class::In | Class::Out))
}

// Element j is another IN or OUT at the pin of element i.
fn is_beside(parts: &[u32], i: usize, j: usize) -> bool
    requires i_bound { i < 64 }
    requires j_bound { j < 64 }
    ensures { result ≡ stands_beside (elements_of parts.now) i j }
{
    j != i
        && trees::at(parts, trees::PIN_AT + j) == trees::at(parts, trees::PIN_AT + i)
        && has_pin(parts, j)
}

fn is_crowded(parts: &[u32], i: usize) -> bool
    requires { i < 64 }
    ensures { result ≡ any_below (stands_beside (elements_of parts.now) i) 64 }
{
    find(|j| is_beside(parts, i, j)).is_some()
}

// One position, of right count, at a pin of its role that is given once.
#[tactic(auto, unfolding(crate::specs::StageFive::positioned_right))]
fn is_positioned(parts: &[u32], i: usize, role: Role) -> bool
    requires i_bound { i < 64 }
    requires role_value { class_of parts.now i ≡ role_number (Some role) }
    ensures { result ≡ positioned_right (elements_of parts.now) i }
{
    let p = trees::at(parts, trees::PIN_AT + i);
    if trees::at(parts, trees::NAMED_AT + i) != 1
        || trees::at(parts, trees::COUNT_AT + i) == 1
        || role_of(p) != Some(role)
    {
        return false;
    }
    !is_crowded(parts, i) && trees::at(parts, trees::GIVEN_AT + p) == 1
}

#[tactic(auto, using(trees::proofs::Classes::numbers), unfolding(crate::specs::StageFive::mispositioned))]
fn is_mispositioned(parts: &[u32], i: usize) -> bool
    requires { i < 64 }
    ensures { result ≡ mispositioned (elements_of parts.now) i }
{
    match reach::class_of(parts, i) {
        Some(Class::In) => !is_positioned(parts, i, Role::In),
        Some(Class::Out) => !is_positioned(parts, i, Role::Out),
        Some(Class::Var) => trees::at(parts, trees::NAMED_AT + i) != 0,
        None => false,
    }
}

fn first_mispositioned(parts: &[u32]) -> Option<usize>
    ensures found { found_or 64 result ≡ first_below (mispositioned (elements_of parts.now)) 64 }
    ensures inside { IfSome result (λ i. i < 64) }
{
    find(|i| is_mispositioned(parts, i))
}

// An element at fault is refused where its name is declared.
fn pass(parts: &[u32], reason: Reason, fault: Option<usize>) -> Result<(), Refusal>
    requires { IfSome fault (λ i. i < 64) }
    ensures { seen result ≡ pick (ltb (found_or 64 fault) 64) (refused (number_of reason) ((elements_of parts.now).place (found_or 64 fault))) fine }
{
    match fault {
        Some(i) => Err(Refusal::new(reason, trees::at(parts, trees::PLACE_AT + i))),
        None => Ok(()),
    }
}

// Four passes over all elements in declaration order.
#[tactic(auto, unfolding(crate::specs::StageFive::stage_five))]
pub fn judge_all(parts: &[u32]) -> Result<(), Refusal>
    ensures { seen result ≡ stage_five (elements_of parts.now) }
{
    pass(parts, Reason::Assignment, first_misassigned(parts))?;
    pass(parts, Reason::Register, first_misplaced(parts))?;
    pass(parts, Reason::Loop, first_looped(parts))?;
    pass(parts, Reason::Position, first_mispositioned(parts))
}
