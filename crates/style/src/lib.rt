// A style's entries in lent lists: what its look-ups find, its checks, and what a look-up is made of.
#![tactic(auto)]

pub mod held;

// What an entry holds: a value, a resource, an expression, or one that reads resources.
#[derive(Clone, Copy, Debug, PartialEq, Eq)]
pub enum StyleValueKind {
    Value(u32),
    Resource(u32),
    Expr(u32),
    ResourceExpr(u32),
}

// The same looked up plainly, where an expression is nothing.
#[derive(Clone, Copy, Debug, PartialEq, Eq)]
pub enum StyleValueRef {
    Value(u32),
    Resource(u32),
}
