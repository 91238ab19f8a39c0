// The signal that an expression is, as a tree, and that reading writes its nodes: definitions and laws. The code is the bound of nodes.
#![tactic(auto)]

ghost use Rattle.std.specs.Prelude.{◌≡◌};
ghost use Rattle.equations.specs.Signals.{nodes};

// How many nodes the right sides of a module may have together.
pub fn node_limit() -> usize
    ensures { result ≡ nodes }
{
    2048
}
