// How often something was taken, and how often it was refused with each number, up to 31.
#[derive(Clone, Copy)]
pub struct Numbers {
    pub taken: usize,
    refused: [usize; 32],
}

impl Numbers {
    pub fn new() -> Numbers {
        Numbers {
            taken: 0,
            refused: [0; 32],
        }
    }

    // Counts an answer: the number of a refusal, or none.
    pub fn note(&mut self, refusal: Option<u8>) {
        let Some(number) = refusal else {
            self.taken = self.taken.saturating_add(1);
            return;
        };
        if let Some(count) = self.refused.get_mut(usize::from(number)) {
            *count = count.saturating_add(1);
        }
    }

    pub fn refused(&self, number: u8) -> usize {
        self.refused.get(usize::from(number)).copied().unwrap_or(0)
    }
}
