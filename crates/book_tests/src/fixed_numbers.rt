//! Numbers that look random and are the same in every run.

/// The next of a fixed run of numbers below 2^31.
pub fn next(number: u64) -> u64 {
    (number % 2_147_483_648 * 1_103_515_245 + 12_345) % 2_147_483_648
}
