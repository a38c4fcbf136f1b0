// A digest of many numbers, by which a program's output shows whether any of them changed.
#![tactic(auto)]

// A digest with one more number in it. Sums carry upwards and shifts go down, so that equal numbers do not cancel out.
pub fn rolled(digest: u64, x: u64) -> u64 {
    let sum = digest.wrapping_add(x).wrapping_add(0x9E3779B97F4A7C15);
    let spread = sum.wrapping_add(sum << 10);
    spread ^ spread >> 6
}

// A digest with all of a list in it, words or bytes.
pub fn rolled_all<T: Copy + Into<u64>>(digest: u64, items: &[T]) -> u64 {
    items
        .iter()
        .fold(digest, |rolling, x| rolled(rolling, (*x).into()))
}
