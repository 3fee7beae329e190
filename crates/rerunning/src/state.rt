// The state of a run, in lent bytes.
ghost use Rattle.std.specs.Prelude.{◌≡◌, ◌≤◌, length};

// The ticks done, a snapshot of the core, for each record entered the tick of its entry, and data.
#[derive(Clone, Copy)]
pub(crate) struct State<'a> {
    pub(crate) done: u32,
    pub(crate) core: &'a [u8],
    pub(crate) entered: &'a [u8],
    pub(crate) data: &'a [u8],
    ghost sized: { (length core.now ≡ 38) × (length «data».now ≤ 65536) },
}
