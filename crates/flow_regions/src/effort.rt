// How much work bounds may be. It bears on the time alone. The unit is a rule that is gone over.

// To solve a word takes so much at each point.
const SOLVING: u64 = 6;
// To make rules takes so much for each point.
const MAKING: u64 = 32;
// Bounds that settle nothing take this part of the time of solving all bits at most.
const PART: u64 = 5;
// So much is done at once.
const SMALL: u64 = 1 << 18;
// To bound the bits of a group takes as long for one of its points as to solve them at so many.
const LARGE: usize = 12;
// With so few points all is done at once.
const FEW: u32 = 4096;

/// The work that it takes to solve columns.
pub fn solving(points: u32, columns: u32) -> u64 {
    u64::from(points).saturating_mul(u64::from(columns)) / 64 * SOLVING
}

/// The work that bounds may be beside what they spare.
pub fn allowance(points: u32, columns: u32) -> u64 {
    (solving(points, columns) / PART).max(SMALL)
}

/// Whether it takes longer to bound the bits of a group with so many points than to solve them.
pub fn is_too_much(points: u32, inside: usize) -> bool {
    points > FEW && inside > points as usize / LARGE
}

/// The work that it takes to make the rules of a group with so many points.
pub fn making(points: usize) -> u64 {
    (points as u64).saturating_mul(MAKING)
}
