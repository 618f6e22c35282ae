// The turns of one end: the place of its oldest message among the end's slots, and how many messages it has.
#[derive(Clone, Copy, Default)]
pub struct Turns {
    pub(crate) oldest: usize,
    pub(crate) count: usize,
}
