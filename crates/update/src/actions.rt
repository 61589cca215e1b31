// An action of an update.

// A store of a form and a value to a register, or a flash step.
#[derive(Clone, Copy)]
pub enum Action {
    Store(u32, u32, u32),
    Step,
}
