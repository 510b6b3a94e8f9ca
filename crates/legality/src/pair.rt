// Two rows, from 0.
#[derive(Clone, Copy, Debug)]
pub struct Pair {
    pub first: usize,
    pub second: usize,
}
