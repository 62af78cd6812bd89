//! Numbers for generated texts, the same at each run.
ghost use Rattle.std.specs.Prelude.{◌<◌, length};

/// A linear congruential generator.
#[derive(Drop)]
pub struct Numbers(pub u64);

impl Numbers {
    /// Returns a number below n.
    pub(crate) fn below(&mut self, n: u64) -> u64
        requires { 0 < n }
        ensures { result < n }
    {
        self.0 = self
            .0
            .wrapping_mul(6_364_136_223_846_793_005)
            .wrapping_add(1_442_695_040_888_963_407);
        (self.0 >> 33) % n
    }

    /// Returns one of the texts.
    pub(crate) fn pick(&mut self, texts: &[&'static str]) -> &'static str
        requires { 0 < length texts.now }
    {
        texts[self.below(texts.len() as u64) as usize]
    }
}
