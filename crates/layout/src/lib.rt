// Layouts: the tree of a layout, its text, and drawings of placements; definitions in specs/, their theorems in proofs/.
#![tactic(auto)]

// A point of a wire: (column row).
#[derive(Clone, Copy, PartialEq, Eq)]
pub struct Point {
    pub column: usize,
    pub row: usize,
}
