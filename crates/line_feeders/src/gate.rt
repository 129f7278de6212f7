//! Who is told of the lines that feeders run.

/// Is told by a feeder before it begins a line, and once that line has its outcome. It may hold the feeder.
pub trait Gate {
    fn before(&self, line: u32);

    fn answered(&self, line: u32);
}

/// Does nothing.
#[derive(Drop)]
pub struct FreeGate;

impl Gate for FreeGate {
    fn before(&self, _line: u32) {}

    fn answered(&self, _line: u32) {}
}
