// A lent buffer.
#[derive(Drop)]
pub struct Buffer<'a> {
    // The words are taken out (`std::mem::take`), used as cells, and put back: a `&mut` that is handed on as an argument would be borrowed again, and
    // who lent the words would not know what that other borrow leaves.
    pub words: &'a mut [u64],
}
