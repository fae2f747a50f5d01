// A machine of one task: the step of RV32IM on 32 registers and a private memory, and the services that a
// task calls.
#![tactic(auto)]

ghost use Rattle.rv_core.specs.Example.{Ends};
ghost use Rattle.rv_core.specs.Products.{AreComputed};
ghost use Rattle.rv_core.specs.WorkedSteps.{AreStepped};

mod bytes;
mod decoded;
#[cfg(test)]
mod division_tests;
mod machine;
mod operations;
mod quick;
mod services;
#[cfg(test)]
mod tests;

pub use machine::Machine;
pub use services::{Service, Step};

/// A program of 12 instructions, followed by computation: it ends by the exit that was worked out by hand.
pub fn worked()
    ensures { Ends }
{}

/// Products and quotients of words, edges among them, as they were worked out by hand.
pub fn products_and_quotients()
    ensures { AreComputed }
{}

/// Single steps of shifts, jumps, branches and comparisons, edges among them, as they were worked out by hand.
pub fn worked_steps()
    ensures { AreStepped }
{}
