// The queue of the record numbers that wait.
ghost use Rattle.std.specs.Prelude.{◌≡◌, ◌≤◌};
ghost use Rattle.row_signs.specs.Signs.{waiting_of};

// The longest waiting first; what stands past the count is 0.
#[repr(C)]
#[derive(Clone, Copy)]
pub struct Queue {
    pub count: u32,
    pub numbers: [u32; 32],
}

impl Queue {
    // The numbers that wait. No call of the row: its callers judge the count first.
    #[tactic(auto, using(crate::proofs::ListLaws::entries_taken))]
    pub fn waiting(&self) -> &[u32]
        requires { self.now.count ≤ 32 }
        ensures { result.now ≡ waiting_of self.now }
    {
        &self.numbers[..self.count as usize]
    }
}
