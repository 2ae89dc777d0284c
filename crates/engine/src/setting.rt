use sealed::Sealed;

// What a parse reads and never changes.
#[derive(Drop)]
pub(crate) struct Setting<'a, I, R> {
    pub(crate) grammar: &'a Sealed,
    pub(crate) readers: &'a R,
    pub(crate) input: &'a I,
}
