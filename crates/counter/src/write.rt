// A write of one number.

// What is written, and in which cell.
#[derive(Clone, Copy)]
pub struct Write {
    pub place: usize,
    pub value: u32,
}
