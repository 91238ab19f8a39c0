// Which elements are replaced by their equations, and which meets which as they are.
#![tactic(auto)]

ghost use Rattle.std.specs.Prelude.{◌≡◌, Bool, true, false, not, ◌&&◌, ◌||◌, List, ℕ, ◌+◌, ◌-◌, ◌<◌, ◌≤◌, length, get_or, replicate};
ghost use Rattle.basics.specs.Choice.{pick, bit, on};
ghost use Rattle.basics.specs.Below.{any_below};
ghost use Rattle.trees.specs.Node.{code_of};
ghost use Rattle.trees.specs.Class.{class_numbered};
ghost use Rattle.trees.specs.Layout.{Elements, elements_of, class_of, nodes_at};
ghost use Rattle.reach.specs.Uses.{is_reg, from_end, inverts, registers, keeps, replaced, remains, uses};
ghost use Rattle.reach.specs.Reach.{via};
ghost use Rattle.reach.specs.Table.{Matrix, cell, through, mark1, marked};

use trees::{Class, Node};

// A register, of one part or of two.
pub fn is_reg(node: Node) -> bool
    ensures { result ≡ is_reg (code_of node) }
{
    matches!(node, Node::Reg | Node::Held)
}

// The k-th node from the end, a constant where there is none.
#[tactic(auto, unfolding(crate::specs::Uses::from_end))]
fn from_end(nodes: &[u32], k: usize) -> Node
    ensures { code_of result ≡ from_end nodes.now k }
{
    if k < nodes.len() {
        Node::from(nodes[nodes.len() - 1 - k])
    } else {
        Node::Low
    }
}

#[tactic(auto, using(trees::proofs::Nodes::others), unfolding(crate::specs::Uses::inverts))]
fn is_inverse(nodes: &[u32]) -> bool
    ensures { result ≡ inverts nodes.now }
{
    match from_end(nodes, 0) {
        Node::Not => is_reg(from_end(nodes, 1)),
        _ => false,
    }
}

#[tactic(auto, unfolding(crate::specs::Uses::registers))]
fn is_register(nodes: &[u32]) -> bool
    ensures { result ≡ registers nodes.now }
{
    is_reg(from_end(nodes, 0)) || is_inverse(nodes)
}

#[tactic(auto, using(trees::proofs::Nodes::others), unfolding(crate::specs::Uses::keeps))]
fn is_keeping(nodes: &[u32]) -> bool
    ensures { result ≡ keeps nodes.now }
{
    match from_end(nodes, 0) {
        Node::Held => true,
        Node::Not => matches!(from_end(nodes, 1), Node::Held),
        _ => false,
    }
}

// The class of an element, where it is one.
#[tactic(auto, unfolding(trees::specs::Layout::class_of))]
pub fn class_of(parts: &[u32], i: usize) -> Option<Class>
    requires { i < 64 }
    ensures { result ≡ class_numbered (class_of parts.now i) }
{
    Class::numbered(trees::at(parts, trees::CLASS_AT + i))
}

// The equation of element i is ~REG.
pub fn inverse(parts: &[u32], i: usize) -> bool
    requires { i < 64 }
    ensures { result ≡ inverts (nodes_at parts.now i) }
{
    is_inverse(trees::nodes_of(parts, i))
}

// It is REG or ~REG.
pub fn registered(parts: &[u32], i: usize) -> bool
    requires { i < 64 }
    ensures { result ≡ registers (nodes_at parts.now i) }
{
    is_register(trees::nodes_of(parts, i))
}

// It is so with a REG of two parts.
pub fn keeping(parts: &[u32], i: usize) -> bool
    requires { i < 64 }
    ensures { result ≡ keeps (nodes_at parts.now i) }
{
    is_keeping(trees::nodes_of(parts, i))
}

// Element i is replaced by its equation.
#[tactic(auto, using(trees::proofs::Classes::numbers), unfolding(crate::specs::Uses::replaced))]
pub fn is_replaced(parts: &[u32], i: usize) -> bool
    requires { i < 64 }
    ensures { result ≡ replaced (elements_of parts.now) i }
{
    match class_of(parts, i) {
        Some(Class::Var) => true,
        Some(Class::Out) => !registered(parts, i),
        Some(Class::In) | None => false,
    }
}

// Element i remains: its pin is a variable.
#[tactic(auto, using(trees::proofs::Classes::numbers), unfolding(crate::specs::Uses::remains))]
pub fn is_remaining(parts: &[u32], i: usize) -> bool
    requires { i < 64 }
    ensures { result ≡ remains (elements_of parts.now) i }
{
    match class_of(parts, i) {
        Some(Class::In) => true,
        Some(Class::Out) => registered(parts, i),
        Some(Class::Var) | None => false,
    }
}

// Met before, or by way of another.
fn met(x: u8, y: u8, z: u8) -> u8
    ensures { result ≡ bit (on x || (on y && on z)) }
{
    if x == 1 {
        1
    } else if y == 1 {
        basics::byte_of(z == 1)
    } else {
        0
    }
}

// One round: what is met by way of k is met.
fn round(m: &mut [u8], k: usize)
    requires m_len { length m.old ≡ 4096 }
    requires k_bound { k < 64 }
    ensures { Matrix m.new (through k (cell m.old)) }
{
    for p in 0..4096 {
        m[p] = met(m[p], m[p / 64 * 64 + k], m[k * 64 + p % 64]);
    }
}

// Whether element k names another: row k has a 1.
fn names_any(m: &[u8], k: usize) -> bool
    requires m_len { length m.now ≡ 4096 }
    requires k_bound { k < 64 }
    ensures { result ≡ any_below (cell m.now k) 64 }
{
    for j in 0..64 {
        if m[k * 64 + j] == 1 {
            return true;
        }
    }
    false
}

// The same round; by way of an element that names none nothing more is met.
fn round_by(m: &mut [u8], k: usize)
    requires matrix { Matrix m.old (cell m.old) }
    requires k_bound { k < 64 }
    ensures { Matrix m.new (through k (cell m.old)) }
{
    if names_any(m, k) {
        round(m, k);
    }
}

// From which element names which to which element meets which.
fn close(m: &mut [u8])
    requires { Matrix m.old (cell m.old) }
    ensures { Matrix m.new (via (cell m.old) 64) }
{
    for k in 0..64 {
        round_by(m, k);
    }
}

// Row i gets a 1 at the element that a node names.
fn mark_one(m: &mut [u8], i: usize, node: Node)
    requires m_len { length m.old ≡ 4096 }
    requires i_bound { i < 64 }
    ensures { m.new ≡ mark1 m.old i (code_of node) }
{
    if let Node::Name(k) = node {
        if k < 64 {
            m[i * 64 + k] = 1;
        }
    }
}

// Row i gets a 1 at each element that the nodes name.
fn mark_names(m: &mut [u8], i: usize, nodes: &[u32])
    requires m_len { length m.old ≡ 4096 }
    requires i_bound { i < 64 }
    ensures { m.new ≡ marked m.old i nodes.now }
{
    for &c in nodes {
        mark_one(m, i, Node::from(c));
    }
}

// Row i gets a 1 at each element that the equation of element o names.
pub fn mark_equation(m: &mut [u8], i: usize, parts: &[u32], o: usize)
    requires m_len { length m.old ≡ 4096 }
    requires i_bound { i < 64 }
    requires o_bound { o < 64 }
    ensures { m.new ≡ marked m.old i (nodes_at parts.now o) }
{
    mark_names(m, i, trees::nodes_of(parts, o));
}

// Row i, where element i is replaced.
fn mark_element(m: &mut [u8], i: usize, parts: &[u32])
    requires m_len { length m.old ≡ 4096 }
    requires i_bound { i < 64 }
    ensures { m.new ≡ pick (replaced (elements_of parts.now) i) (marked m.old i (nodes_at parts.now i)) m.old }
{
    if is_replaced(parts, i) {
        mark_equation(m, i, parts, i);
    }
}

// Which element is replaced by an equation that names which.
fn edges(m: &mut [u8], parts: &[u32])
    requires { m.old ≡ replicate 4096 0 }
    ensures { Matrix m.new (uses (elements_of parts.now)) }
{
    for i in 0..64 {
        mark_element(m, i, parts);
    }
}

// Which element meets which as names are replaced.
pub fn reach(m: &mut [u8], parts: &[u32])
    requires { m.old ≡ replicate 4096 0 }
    ensures { Matrix m.new (via (uses (elements_of parts.now)) 64) }
{
    edges(m, parts);
    close(m);
}
