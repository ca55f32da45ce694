//! How much may still be tried.

/// How much may still be tried.
#[derive(Drop)]
pub(crate) struct Budget {
    /// Turns and events of all tries together.
    left: u64,
}

impl Budget {
    /// So much.
    pub fn new(left: u64) -> Budget {
        Budget { left }
    }

    /// Whether nothing more may be tried.
    pub fn is_spent(&self) -> bool {
        self.left == 0
    }

    /// Takes the turns and the events of a try off.
    pub fn spend(&mut self, turns: usize, events: usize) {
        self.left = self.left.saturating_sub(turns as u64);
        self.left = self.left.saturating_sub(events as u64);
    }
}
