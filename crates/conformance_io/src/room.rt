// Room for the lists of a line.

/// The longest list that can be lent, in words: a page more than the largest bank.
pub const LONGEST_LIST: usize = 548864;

/// The most words of an image and an SRAM together: the longest list, and after it an SRAM that is too long.
pub const MOST_LENT: usize = 570000;

/// A room for each bank.
#[derive(Drop)]
pub struct Rooms<'a> {
    pub one: &'a mut [u32],
    pub two: &'a mut [u32],
}
