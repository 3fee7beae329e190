// A lent buffer that a text is put into, from `at` on; what does not fit is dropped.
#![tactic(auto, using(crate::proofs::Gained::none))]

ghost use Rattle.std.specs.Prelude.{[], ◌∷◌};
ghost use Rattle.page.specs.Gains.{Gains};

mod numbers;

// Where the next byte goes, which may be anywhere.
#[derive(Drop)]
pub struct Page<'a> {
    pub out: &'a mut [u8],
    pub at: usize,
}

impl Page<'_> {
    pub fn put_byte(&mut self, b: u8)
        ensures { Gains self.old (b ∷ []) self.new }
    {
        if self.at < self.out.len() {
            self.out[self.at] = b;
            self.at += 1;
        }
    }

    pub fn put_text(&mut self, text: &[u8])
        ensures { Gains self.old text.now self.new }
    {
        for b in text {
            self.put_byte(*b);
        }
    }
}
