// What an update start answers.

// The first place and the total.
#[derive(Clone, Copy)]
pub struct UpdateStart {
    pub place: u32,
    pub total: u32,
}
