// A row as it is handed over.
use crate::queue::Queue;
use crate::sign::Sign;

// Up to 32 records by value, how many the list has, who waits, and the record last served.
#[derive(Clone, Copy)]
pub struct Row {
    pub signs: [Sign; 32],
    pub count: usize,
    pub queue: Queue,
    pub last: u32,
}
